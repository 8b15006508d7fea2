//! The fields of a tag that likely subtags fill in: its language, its script and its region.
ghost use Rattle.std.specs.Prelude.{◌≡◌, IsTrue};
ghost use Rattle.langtag_scan.specs.Grammar.{EachRecord};
ghost use Rattle.langtag.specs.Definitions.{EachLanguageSpelling, language_text, normal_lang_tag_text};
ghost use Rattle.langtag_text.specs.FieldClasses.{is_language_field, is_region_field};
ghost use Rattle.langtag_cldr.specs.Definitions.{field_texts, first_marked};
ghost use Rattle.langtag_likely.specs.Marked.{mark_of};
ghost use Rattle.langtag_likely.specs.Maximal.{fields_of, is_read, language_field};

use langtag::{NormalLangTag, region_field, script_field};
use langtag_cldr::{TagFields, after_mark, known};
use langtag_fields::is_prefix_of;
use langtag_language::Language;

/// Returns the fields of a normal tag. A field is empty if it is absent or unknown.
pub fn fields_of(tag: NormalLangTag<'_>) -> TagFields<'_>
    ensures { EachRecord (normal_lang_tag_text tag.entry) (λ r. field_texts result ≡ fields_of r) }
{
    TagFields {
        language: language_field(tag.language()),
        script: known(b"Zzzz", script_field(tag.script())),
        region: known(b"ZZ", region_field(tag.region())),
    }
}

/// Returns whether the last extended language of a tag, if it has any, is registered for the language before it.
#[inline(always)]
pub fn is_read(tag: NormalLangTag<'_>) -> bool
    ensures { EachRecord (normal_lang_tag_text tag.entry) (λ r. result ≡ is_read r.primary r.extended) }
{
    // There is no room for an extended language.
    if tag.ends().language <= 3 {
        return true;
    }
    is_language_read(tag.language())
}

/// Returns the region that Android writes after the language of a tag: `US` for `es-rUS`. Returns the empty string if there
/// is none. An extended language that is registered for the language before it is none, such as that of `sgn-rsl`.
#[tactic(auto, using(crate::proofs::MarkLaws::none_marked, crate::proofs::MarkLaws::first_is_marked))]
#[inline(always)]
pub fn marked_region<'a>(tag: NormalLangTag<'a>) -> &'a [u8]
    ensures region { EachRecord (normal_lang_tag_text tag.entry) (λ r. result.now ≡ mark_of r) }
    ensures in_class { IsTrue (is_region_field result.now) }
{
    if is_read(tag) {
        return b"";
    }
    first_marked(tag.language())
}

/// Returns the region in the first extended subtag as Android writes it.
fn first_marked<'a>(language: Language<'a>) -> &'a [u8]
    ensures region { EachLanguageSpelling (language_text language.entry) (λ primary extended. result.now ≡ first_marked extended) }
    ensures in_class { IsTrue (is_region_field result.now) }
{
    match language.extension_subtags().next() {
        Some(first) => after_mark(first.as_bytes()),
        None => b"",
    }
}

/// Returns whether the last extended subtag, if there is any, is registered for the primary subtag.
fn is_language_read(language: Language<'_>) -> bool
    ensures { EachLanguageSpelling (language_text language.entry) (λ primary extended. result ≡ is_read primary extended) }
{
    let primary = language.primary().as_bytes();
    let mut extlangs = language.extension_subtags();
    let Some(first) = extlangs.next() else {
        return true;
    };
    let Some(second) = extlangs.next() else {
        return is_prefix_of(primary, first.as_bytes());
    };
    match extlangs.next() {
        Some(third) => is_prefix_of(primary, third.as_bytes()),
        None => is_prefix_of(primary, second.as_bytes()),
    }
}

/// Returns the last extended subtag, or the primary subtag if there is none. Returns the empty string for `und`.
#[tactic(auto, using(langtag_cldr::proofs::FieldClasses::from_extended))]
fn language_field<'a>(language: Language<'a>) -> &'a [u8]
    ensures field { EachLanguageSpelling (language_text language.entry)
        (λ primary extended. result.now ≡ language_field primary extended) }
    ensures in_class { IsTrue (is_language_field result.now) }
{
    let mut extlangs = language.extension_subtags();
    let Some(first) = extlangs.next() else {
        return known(b"und", language.primary().as_bytes());
    };
    let Some(second) = extlangs.next() else {
        return first.as_bytes();
    };
    match extlangs.next() {
        Some(third) => third.as_bytes(),
        None => second.as_bytes(),
    }
}
