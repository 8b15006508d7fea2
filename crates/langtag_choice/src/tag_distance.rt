//! The distance from a desired tag to a supported tag (UTS #35, part 1, section 'Language Matching').
ghost use Rattle.std.specs.Prelude.{◌≡◌, ◌+◌, ◌≤◌, ◌⊎◌, ◌==◌, ◌&&◌, IsTrue, false};
ghost use Rattle.langtag_scan.specs.Grammar.{are_alike};
ghost use Rattle.langtag.specs.Definitions.{lang_tag_text};
ghost use Rattle.langtag_range.specs.Definitions.{basic_text, is_language_range, hyphened};
ghost use Rattle.langtag_choice.specs.Distance as spec;
ghost use Rattle.langtag_cldr.specs.Definitions.{are_alike_fields, field_texts};

use crate::region_distance::region_distance;
use crate::rule_distance::{language_distance, script_distance};
use langtag::LangTag;
use langtag_cldr::{TagFields, are_alike, matching_form};
use langtag_scan::case_insensitive_eq;

/// The distance of two different tags if one of them is only `und`, a private-use tag, `i-default`, `i-enochian` or
/// `i-mingo`.
///
/// ```
/// use langtag::LangTag;
/// use langtag_choice::{FORMLESS_DISTANCE, distance};
///
/// distance(LangTag::new("x-a")?, LangTag::new("de")?) == FORMLESS_DISTANCE; // true
/// ```
pub const FORMLESS_DISTANCE: u8 = 255;

/// Returns the distance from a desired tag to a supported tag (UTS #35, Language Matching). It is 0 from `zh-TW` to
/// `zh-Hant`, 4 from `de-AT` to `de`, 10 from `yue` to `zh-HK`, and 84 from `de` to `en`.
///
/// First, deprecated subtags are replaced and likely subtags are added. The distance is then the sum of the distances
/// of the languages (80 if no rule gives a smaller distance), the scripts (50 if no rule does) and the regions (at most
/// 5). From 0 to 15 the user reads both: they are the same language, perhaps in another region or script, or nearly the
/// same. Below 50 most users understand the other language. Case is ignored, and so is everything after the region,
/// such as variants, extensions and the `oed` of `en-GB-oed`. If one of the tags is only `und`, a private-use
/// tag, `i-default`, `i-enochian` or `i-mingo`, the distance is [`FORMLESS_DISTANCE`](crate::FORMLESS_DISTANCE), or 0 if
/// the tags are equal, ignoring case.
///
/// A language that CLDR replaces, such as `ger`, `deu` or `iw`, is read as its replacement, and so is a deprecated
/// region. An extended language counts only if it is registered for the language before it (RFC 5646 section 2.2.2):
/// `zh-yue` is read as `yue`, and `de-fra` as `de`. The letter `r` with a region is that region there, as Android writes
/// it: `zh-rTW` is read as `zh-TW`. A tag that the registry replaces as a whole is read as its Preferred-Value (section
/// 3.1.7), also with extensions and private use: `i-klingon` as `tlh`, `zh-hakka` and `zh-hakka-x-a` as `hak`.
///
/// ```
/// use langtag::LangTag;
/// use langtag_choice::distance;
///
/// distance(LangTag::new("de-AT")?, LangTag::new("de")?); // 4
/// distance(LangTag::new("de")?, LangTag::new("en")?); // 84
/// ```
#[tactic(auto, using(crate::proofs::AlikeDistances::ignores_case))]
pub fn distance(desired: LangTag<'_>, supported: LangTag<'_>) -> u8
    ensures distance { result ≡ spec.distance_of_texts (lang_tag_text desired.entry) (lang_tag_text supported.entry) }
    ensures equal { spec.ZeroIfEqual (lang_tag_text desired.entry) (lang_tag_text supported.entry) result }
    ensures case { spec.DistanceIgnoresCase (lang_tag_text desired.entry) (lang_tag_text supported.entry) result }
    ensures most { result ≤ 134 ⊎ (result ≡ 255) }
{
    texts_distance(desired.as_bytes(), supported.as_bytes())
}

/// Returns the distance of two strings.
#[tactic(auto, unfolding(crate::specs::Distance::distance_of_texts))]
pub(crate) fn texts_distance(desired: &[u8], supported: &[u8]) -> u8
    ensures distance { result ≡ spec.distance_of_texts desired.now supported.now }
    ensures equal { spec.ZeroIfEqual desired.now supported.now result }
    ensures most { result ≤ 134 ⊎ (result ≡ 255) }
{
    match (matching_form(desired), matching_form(supported)) {
        (Some(desired), Some(supported)) => fields_distance(desired, supported),
        _ => formless_distance(desired, supported),
    }
}

/// Returns the distance from a range to a tag. In the range, `_` means `-`, and each `-*` is ignored.
#[tactic(auto, unfolding(crate::specs::Distance::distance_of_texts), using(crate::proofs::FarTags::form_read))]
pub(crate) fn range_distance(range: &[u8], tag: &[u8]) -> u8
    requires { IsTrue (is_language_range (hyphened range.now)) }
    ensures { result ≡ spec.distance_of_texts (basic_text range.now) tag.now }
{
    match (matching_form(range), matching_form(tag)) {
        (Some(wanted), Some(found)) => fields_distance(wanted, found),
        _ => formless_range_distance(range, tag),
    }
}

/// Returns the distance from a range to a tag if the range or the tag has no matching form.
fn formless_range_distance(range: &[u8], tag: &[u8]) -> u8
    ensures { result ≡ spec.formless_distance (basic_text range.now) tag.now }
{
    if are_alike(range, tag) {
        0
    } else {
        FORMLESS_DISTANCE
    }
}

/// Returns the distance of two strings if one of them has no matching form.
fn formless_distance(desired: &[u8], supported: &[u8]) -> u8
    ensures distance { result ≡ spec.formless_distance desired.now supported.now }
    ensures equal { (result == 0) ≡ are_alike desired.now supported.now }
{
    if case_insensitive_eq(desired, supported) {
        0
    } else {
        FORMLESS_DISTANCE
    }
}

/// Returns the distance of two matching forms: 0 if and only if they are equal, ignoring case.
fn fields_distance(desired: TagFields<'_>, supported: TagFields<'_>) -> u8
    ensures distance { result ≡ spec.fields_distance (field_texts desired.entry) (field_texts supported.entry) }
    ensures most { result ≤ 134 }
    ensures equal { (result == 0) ≡ are_alike_fields (field_texts desired.entry) (field_texts supported.entry) }
{
    language_distance(desired, supported) + places_distance(desired, supported)
}

/// Returns the distance of the scripts and the regions of two matching forms.
pub(crate) fn places_distance(desired: TagFields<'_>, supported: TagFields<'_>) -> u8
    ensures distance { result ≡ spec.script_distance (field_texts desired.entry) (field_texts supported.entry) +
        spec.region_distance (field_texts desired.entry) (field_texts supported.entry) }
    ensures most { result ≤ 55 }
    ensures apart { are_alike desired.entry.language.now supported.entry.language.now ≡ false → result ≤ 54 }
    ensures equal { (result == 0) ≡ (are_alike desired.entry.script.now supported.entry.script.now
        && are_alike desired.entry.region.now supported.entry.region.now) }
{
    script_distance(desired, supported) + region_distance(desired, supported)
}
