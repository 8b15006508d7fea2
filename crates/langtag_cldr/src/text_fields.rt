//! The fields of a string that need not be a tag.
ghost use Rattle.std.specs.Prelude.{◌≡◌, ◌<◌, ◌∷◌, [], IsTrue, false, length, option_map};
ghost use Rattle.langtag_scan.specs.Prelude.{option_map_or, slice_split};
ghost use Rattle.langtag_scan.specs.Grammar.{is_extended, is_primary};
ghost use Rattle.langtag_fields.specs.Fields.{is_prefix_of};
ghost use Rattle.langtag_range.specs.Definitions.{is_separator};
ghost use Rattle.langtag_text.specs.FieldClasses.{is_language_field, is_script_field, is_region_field};
ghost use Rattle.langtag_cldr.specs.TextFields as spec;
ghost use Rattle.langtag_cldr.specs.Definitions.{after_language, after_mark, after_script, current_text};
ghost use Rattle.langtag_cldr.specs.Definitions.{fields_of_subtags, first_marked, language_of, last_language};
ghost use Rattle.langtag_cldr.specs.Definitions.{marked_region, counted_parts, region_of, script_of, field_texts};

use crate::fields::{known, or_other};
use crate::replacement::replacement;
use crate::tag_fields::TagFields;
use langtag_fields::is_prefix_of;
use langtag_range::{is_separator, split_at_either};
use langtag_scan::{into_smallcase, is_extended, is_primary, is_region, is_script};

impl<'a> TagFields<'a> {
    /// Returns the fields of a string in which `_` is read as `-`, or `None` if it does not begin with a language. A tag that
    /// the registry replaces as a whole has the fields of its replacement.
    #[tactic(auto, using(crate::proofs::FieldClasses::known_language, crate::proofs::FieldClasses::known_script, crate::proofs::FieldClasses::known_other, langtag_text::proofs::FieldClasses::from_primary))]
    #[inline(always)]
    pub(crate) fn of_text(text: &'a [u8]) -> Option<TagFields<'a>>
        ensures { option_map field_texts result ≡ spec.text_fields (current_text text.now) }
    {
        let (first, rest) = current_parts(text);
        if !is_primary(first) {
            return None;
        }
        let (language, marked, rest) = language_and_mark(first, rest);
        let (script, rest) = script_before(rest);
        let region = region_before(rest);
        Some(TagFields {
            language,
            script: known(b"Zzzz", script),
            region: known(b"ZZ", or_other(region, marked)),
        })
    }
}

/// Returns the first subtag of a string, or of the tag that replaces it as a whole, and the rest.
#[tactic(auto, using(crate::proofs::WholeTags::current_none, crate::proofs::WholeTags::current_some))]
#[inline(always)]
fn current_parts(text: &[u8]) -> (&[u8], &[u8])
    ensures { fields_of_subtags (result.0.now ∷ slice_split is_separator result.1.now)
        ≡ spec.text_fields (current_text text.now) }
{
    let (first, rest) = split_at_either(text, b'-', b'_');
    match replacement(text, first, rest) {
        Some(tag) => split_at_either(tag, b'-', b'_'),
        None => (first, rest),
    }
}

/// Returns the language of a string that begins with a primary language, the region that Android writes after it, and the
/// rest of the string.
#[tactic(auto, using(crate::proofs::FieldClasses::known_language, langtag_text::proofs::FieldClasses::from_primary, crate::proofs::FieldClasses::none_or_extended))]
#[inline(always)]
fn language_and_mark<'a>(primary: &'a [u8], text: &'a [u8]) -> (&'a [u8], &'a [u8], &'a [u8])
    requires { IsTrue (is_primary primary.now) }
    ensures language { result.0.now ≡ language_of primary.now (counted_parts text.now) }
    ensures mark { result.1.now ≡ marked_region primary.now (counted_parts text.now) }
    ensures rest { counted_parts result.2.now ≡ after_language (counted_parts text.now) }
    ensures in_class { IsTrue (is_language_field result.0.now) }
    ensures mark_class { IsTrue (is_region_field result.1.now) }
{
    let (extended, rest) = last_extended(text);
    if extends(primary, extended) {
        return (extended, b"", rest);
    }
    (known(b"und", primary), first_marked(text), rest)
}

/// Returns the last extended language at the start of the string, which is empty if there is none, and the rest of the
/// string.
fn last_extended<'a>(text: &'a [u8]) -> (&'a [u8], &'a [u8])
    ensures language { result.0.now ≡ last_language [] (counted_parts text.now) }
    ensures rest { counted_parts result.1.now ≡ after_language (counted_parts text.now) }
    ensures in_class { 0 < length result.0.now → IsTrue (is_extended result.0.now) }
{
    let mut language: &[u8] = b"";
    let mut left = text;
    while let Some((subtag, rest)) = next_subtag(left) {
        if !is_extended(subtag) {
            return (language, left);
        }
        language = subtag;
        left = rest;
    }
    (language, left)
}

/// Returns whether an extended language, which may be empty, is registered for a language.
#[tactic(auto, using(crate::proofs::CommonTexts::none_extends))]
fn extends(language: &[u8], extended: &[u8]) -> bool
    requires { 0 < length extended.now → IsTrue (is_extended extended.now) }
    ensures { result ≡ is_prefix_of language.now extended.now }
{
    !extended.is_empty() && is_prefix_of(language, extended)
}

/// Returns the region in the first subtag as Android writes it.
fn first_marked(text: &[u8]) -> &[u8]
    ensures region { result.now ≡ first_marked (counted_parts text.now) }
    ensures in_class { IsTrue (is_region_field result.now) }
{
    if !may_be_marked(text) {
        return b"";
    }
    match next_subtag(text) {
        Some((subtag, _)) => after_mark(subtag),
        None => b"",
    }
}

/// Returns `false` only if the first byte of a string shows that no region is in its first subtag as Android writes it.
#[tactic(auto, using(crate::proofs::CommonTexts::none_marked, crate::proofs::CommonTexts::not_marked))]
fn may_be_marked(text: &[u8]) -> bool
    ensures { result ≡ false → first_marked (counted_parts text.now) ≡ [] }
{
    match text {
        [first, ..] => { into_smallcase(*first) == b'r' || *first == b'*' || is_separator(*first) }
        [] => false,
    }
}

/// Returns the region after the letter `r`, or the empty string if the subtag is none of these.
#[tactic(auto, using(langtag_text::proofs::FieldClasses::from_region, crate::proofs::CommonTexts::mark_off))]
pub fn after_mark(subtag: &[u8]) -> &[u8]
    ensures region { result.now ≡ after_mark subtag.now }
    ensures in_class { IsTrue (is_region_field result.now) }
{
    let [mark, region @ ..] = subtag else {
        return b"";
    };
    if into_smallcase(*mark) == b'r' && is_region(region) {
        region
    } else {
        b""
    }
}

/// Returns the script at the start, and the rest of the string.
#[tactic(auto, using(langtag_text::proofs::FieldClasses::from_script))]
fn script_before<'a>(text: &'a [u8]) -> (&'a [u8], &'a [u8])
    ensures script { result.0.now ≡ script_of (counted_parts text.now) }
    ensures rest { counted_parts result.1.now ≡ after_script (counted_parts text.now) }
    ensures in_class { IsTrue (is_script_field result.0.now) }
{
    match next_subtag(text) {
        Some((subtag, rest)) if is_script(subtag) => (subtag, rest),
        _ => (b"", text),
    }
}

/// Returns the region at the start.
#[tactic(auto, using(langtag_text::proofs::FieldClasses::from_region))]
fn region_before(text: &[u8]) -> &[u8]
    ensures region { result.now ≡ region_of (counted_parts text.now) }
    ensures in_class { IsTrue (is_region_field result.now) }
{
    match next_subtag(text) {
        Some((subtag, _)) if is_region(subtag) => subtag,
        _ => b"",
    }
}

/// Returns the first subtag that is neither empty nor `*`, and the string after it.
#[tactic(auto, using(crate::proofs::CommonTexts::next_part, langtag_range::proofs::WantedTexts::shorter))]
fn next_subtag(text: &[u8]) -> Option<(&[u8], &[u8])>
    ensures { counted_parts text.now ≡ option_map_or (λ found. found.0.now ∷ counted_parts found.1.now) result [] }
{
    let mut left = text;
    while !left.is_empty() {
        let (subtag, rest) = split_at_either(left, b'-', b'_');
        if counts(subtag) {
            return Some((subtag, rest));
        }
        left = rest;
    }
    None
}

fn counts(subtag: &[u8]) -> bool
    ensures { result ≡ spec.counts subtag.now }
{
    !matches!(subtag, [] | [b'*'])
}
