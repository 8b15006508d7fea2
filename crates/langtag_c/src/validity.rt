//! Whether a tag is valid by the registry (RFC 5646 section 2.2.9).
ghost use Rattle.std.specs.Prelude.{◌≡◌, ◌↔◌, ◌≤◌, Some, length, slice_get};
ghost use Rattle.langtag_scan.specs.Grammar.{EachRecord, IsTag};
ghost use Rattle.langtag.specs.Definitions.{normal_lang_tag_text};
ghost use Rattle.langtag_registry.specs.Fault.{Told, faults, fault_index, told};
ghost use Rattle.langtag_registry.specs.Valid.{IsValid};
ghost use Rattle.langtag_c.specs.Spans.{empty_at};
ghost use Rattle.langtag_c.specs.Validity.{number_of, fault_span};

use crate::members::{singleton_at, variant_at};
use crate::span::Span;
use crate::tag::tag_of;
use langtag::NormalLangTag;
use langtag_registry::{InvalidSubtag, fault_at};

/// Returns whether a tag is valid (RFC 5646 section 2.2.9), as an enum `langtag_validity_answer`, and writes where its
/// first invalid subtag is (out), which is empty if there is none.
///
/// ```c
/// langtag_span invalid;
/// langtag_validity("qt-FR", 5, &invalid);
/// printf("%.*s\n", (int)invalid.len, "qt-FR" + invalid.start); // qt
/// ```
///
/// A tag is valid if it is grandfathered, or if its language, extended language, script, region and variants are
/// registered, it has at most one extended language, and no variant or singleton is repeated. It uses the registry whose
/// date `langtag_registry_date` returns. Deprecated subtags are valid. Whether a variant follows one of its prefixes is
/// not checked.
#[tactic(auto, using(langtag_scan::proofs::SpelledTexts::normal_spelled, langtag_scan::proofs::TagLaws::tag_normal, langtag_registry::proofs::FaultLaws::valid_of_other, langtag_registry::proofs::FaultLaws::valid_of_none))]
#[unsafe(no_mangle)]
pub extern "C" fn langtag_validity(bytes: &[u8], invalid: &mut Span) -> u32
    ensures no_tag { result ≡ 0 ↔ (IsTag bytes.now → ⊥) }
    ensures valid { result ≡ 1 ↔ IsValid bytes.now }
    ensures first { EachRecord bytes.now (λ r. (fault : Told) → (IsValid bytes.now → ⊥) → slice_get (faults r) 0 ≡ Some fault →
        (result ≡ number_of fault) × (invalid.new ≡ fault_span r fault)) }
    ensures nothing { result ≤ 1 → invalid.new ≡ empty_at 0 }
{
    *invalid = Span { start: 0, len: 0 };
    let Some(tag) = tag_of(bytes) else {
        return 0;
    };
    let (Some(normal), Some((fault, index))) = (tag.as_normal(), fault_at(tag)) else {
        return 1;
    };
    *invalid = place(&normal, fault, index);
    number(fault)
}

/// Returns the number of a fault.
fn number(fault: InvalidSubtag<'_>) -> u32
    ensures { result ≡ number_of (told fault.entry) }
{
    match fault {
        InvalidSubtag::Language(_) => 2,
        InvalidSubtag::Extlang(_) => 3,
        InvalidSubtag::SecondExtlang(_) => 4,
        InvalidSubtag::Script(_) => 5,
        InvalidSubtag::Region(_) => 6,
        InvalidSubtag::Variant(_) => 7,
        InvalidSubtag::RepeatedVariant(_) => 8,
        InvalidSubtag::RepeatedSingleton(_) => 9,
    }
}

/// Returns where the invalid subtag is in its tag. `index` is the index of the subtag among the variants, or of its
/// extension among the extensions.
#[tactic(auto, using(langtag_scan::proofs::PartOffsets::ends_in_order))]
fn place(tag: &NormalLangTag<'_>, fault: InvalidSubtag<'_>, index: usize) -> Span
    ensures { EachRecord (normal_lang_tag_text tag.now) (λ r. fault_index r (told fault.entry) ≡ Some index
        → result ≡ fault_span r (told fault.entry)) }
{
    let ends = tag.ends();
    let none = Span { start: 0, len: 0 };
    match fault {
        InvalidSubtag::Language(language) => Span {
            start: 0,
            len: language.as_str().len(),
        },
        InvalidSubtag::Extlang(extlang) => Span {
            start: primary_len(tag) + 1,
            len: extlang.as_str().len(),
        },
        InvalidSubtag::SecondExtlang(extlang) => Span {
            start: primary_len(tag) + 5,
            len: extlang.as_str().len(),
        },
        InvalidSubtag::Script(_) => Span::between(ends.language, ends.script),
        InvalidSubtag::Region(_) => Span::between(ends.script, ends.region),
        InvalidSubtag::Variant(_) => variant_at(tag, index).unwrap_or(none),
        InvalidSubtag::RepeatedVariant(_) => variant_at(tag, index).unwrap_or(none),
        InvalidSubtag::RepeatedSingleton(_) => singleton_at(tag, index).unwrap_or(none),
    }
}

/// Returns the number of bytes of the primary language of a tag.
#[tactic(auto, using(langtag_scan::proofs::SubtagFacts::of_primary))]
fn primary_len(tag: &NormalLangTag<'_>) -> usize
    ensures len { EachRecord (normal_lang_tag_text tag.now) (λ r. result ≡ length r.primary) }
    ensures few { result ≤ 8 }
{
    tag.language().primary().as_str().len()
}
