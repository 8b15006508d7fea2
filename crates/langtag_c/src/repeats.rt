//! Variants and singletons that occur twice in a tag (RFC 5646 section 2.2.9).
ghost use Rattle.std.specs.Prelude.{◌≡◌, Some, is_some, map, unwrap_or};
ghost use Rattle.langtag_scan.specs.Grammar.{are_alike, EachRecord, IsNormal};
ghost use Rattle.langtag.specs.Definitions.{are_alike_bytes, repeat, repeat_index, normal_lang_tag_text};
ghost use Rattle.langtag_c.specs.Answers.{repeat_flags};
ghost use Rattle.langtag_c.specs.Members.{member_span, singleton_place, variant_place};
ghost use Rattle.langtag_c.specs.PartSpans.{none_repeated};
ghost use Rattle.langtag_c.specs.Spans.{empty_at};

use crate::members::{singleton_at, variant_at};
use crate::span::Span;
use crate::tag::normal_tag_of;
use langtag::NormalLangTag;

/// Where the repeated subtags of a tag are. A span has the length 0 if no such subtag is repeated.
#[repr(C)]
#[derive(Clone, Copy)]
pub struct Repeated {
    /// the first variant that equals an earlier one, ignoring case
    pub variant: Span,
    /// the first singleton, one byte, that equals an earlier one, ignoring case
    pub singleton: Span,
}

/// Returns whether a variant or a singleton occurs twice in a normal tag, as bits of enum `langtag_repeats_answer`, and
/// writes where the first repetition of each is (out). Such a tag is well-formed but not valid (RFC 5646 section
/// 2.2.9). Returns 0 for any other string. `repeated` is always written.
///
/// Beyond 1,152 variants, the time is quadratic in the length: less than a second for 1 MB, 20 s for 10 MB. Limit the
/// length of untrusted strings.
#[tactic(auto, using(langtag_scan::proofs::SpelledTexts::normal_spelled))]
#[unsafe(no_mangle)]
pub extern "C" fn langtag_repeats(bytes: &[u8], repeated: &mut Repeated) -> u32
    ensures flags { EachRecord bytes.now (λ r.
        result ≡ repeat_flags (is_some (repeat are_alike r.variants))
        (is_some (repeat are_alike_bytes (map (λ e. e.singleton) r.extensions)))) }
    ensures variant { EachRecord bytes.now (λ r.
        repeated.new.variant
        ≡ unwrap_or (member_span (variant_place r) r.variants (repeat_index are_alike r.variants)) (empty_at 0)) }
    ensures singleton { EachRecord bytes.now (λ r.
        repeated.new.singleton
        ≡ unwrap_or (member_span (singleton_place r) r.extensions
        (repeat_index are_alike_bytes (map (λ e. e.singleton) r.extensions))) (empty_at 0)) }
    ensures other { (IsNormal bytes.now → ⊥) → (result ≡ 0) × (repeated.new ≡ none_repeated) }
{
    let none = Span { start: 0, len: 0 };
    let Some(tag) = normal_tag_of(bytes) else {
        *repeated = Repeated {
            variant: none,
            singleton: none,
        };
        return 0;
    };
    let variant = repeated_variant(&tag);
    let singleton = repeated_singleton(&tag);
    *repeated = Repeated {
        variant: variant.unwrap_or(none),
        singleton: singleton.unwrap_or(none),
    };
    flags(variant.is_some(), singleton.is_some())
}

/// Returns where the first repeated variant is in a tag.
fn repeated_variant(tag: &NormalLangTag<'_>) -> Option<Span>
    ensures { EachRecord (normal_lang_tag_text tag.now)
        (λ r. result ≡ member_span (variant_place r) r.variants (repeat_index are_alike r.variants)) }
{
    variant_at(tag, tag.repeated_variant_index()?)
}

/// Returns where the first repeated singleton is in a tag.
fn repeated_singleton(tag: &NormalLangTag<'_>) -> Option<Span>
    ensures { EachRecord (normal_lang_tag_text tag.now) (λ r.
        result ≡ member_span (singleton_place r) r.extensions
        (repeat_index are_alike_bytes (map (λ e. e.singleton) r.extensions))) }
{
    singleton_at(tag, tag.repeated_singleton_index()?)
}

/// Returns 1 if a variant is repeated, plus 2 if a singleton is repeated.
fn flags(variant: bool, singleton: bool) -> u32
    ensures { result ≡ repeat_flags variant singleton }
{
    match (variant, singleton) {
        (false, false) => 0,
        (true, false) => 1,
        (false, true) => 2,
        (true, true) => 3,
    }
}
