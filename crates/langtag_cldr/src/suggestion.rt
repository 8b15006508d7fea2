//! The code that was probably meant by a language or a region that is not registered. A code is suggested only if CLDR
//! replaces it with one subtag, so nothing is suggested for `FQ`, which became two regions. Nothing is suggested for an
//! extended language, because the writer of `zh-fra` hardly means `FR`.
ghost use Rattle.std.specs.Prelude.{◌≡◌, IfSome, IsTrue, length, map, option_map};
ghost use Rattle.langtag_scan.specs.Grammar.{folded_number, are_alphanumeric};
ghost use Rattle.langtag_text.specs.Numbers.{climbs_from};
ghost use Rattle.langtag_cldr.specs.Definitions.{region_replacements, likely_for, region_alone, field_texts};
ghost use Rattle.langtag_text.specs.FieldClasses.{is_region_field};
ghost use Rattle.langtag_cldr.specs.Suggestion as spec;
ghost use Rattle.langtag_cldr.specs.declared.alias_tables.TheConstants.{REPLACEMENT_NAMES};

use crate::alias_tables as tables;
use crate::aliases::language_alias;
use crate::keys::index_of;
use crate::names::name_at;
use crate::tag_fields::TagFields;
use langtag_scan::{is_primary, is_region};

/// Returns the code by which CLDR replaces a language code, ignoring case: `de` for `deu` and `ger`. Many replaced
/// codes are from ISO 639-2 and ISO 639-3, whose codes are not registered if the language has a code of two letters.
///
/// Returns `None` if CLDR has no alias, as for `de`, or if a script or a region comes with the language: `hbs` becomes
/// `sr-Latn`.
///
/// ```
/// use langtag_likely::suggested_language;
///
/// suggested_language("ger"); // Some("de")
/// suggested_language("de"); // None
/// ```
#[tactic(auto, using(crate::proofs::FieldClasses::language_alphanumeric), unfolding(crate::specs::Suggestion::suggested_language))]
pub fn suggested_language(code: &str) -> Option<&'static str>
    ensures { option_map (λ text. text.now) result ≡ spec.suggested_language code.now }
{
    if !is_primary(code.as_bytes()) {
        return None;
    }
    let language = TagFields {
        language: code.as_bytes(),
        script: b"",
        region: b"",
    };
    let to = language_alias(language)?;
    if to.script.is_empty() && to.region.is_empty() {
        Some(text_of(to.language))
    } else {
        None
    }
}

/// Returns the region by which CLDR replaces another region, ignoring case: `GB` for `UK`, and `US` for `840`, the
/// number of a country (UN M.49). Returns `None` if CLDR has no alias, as for `GB`, or if it has several regions, as
/// for `FQ`.
///
/// ```
/// use langtag_likely::suggested_region;
///
/// suggested_region("UK"); // Some("GB")
/// suggested_region("GB"); // None
/// ```
#[tactic(auto, using(crate::proofs::FieldClasses::region_alphanumeric), unfolding(crate::specs::Suggestion::suggested_region))]
pub fn suggested_region(code: &str) -> Option<&'static str>
    ensures { option_map (λ text. text.now) result ≡ spec.suggested_region code.now }
{
    if !is_region(code.as_bytes()) {
        return None;
    }
    let fields = TagFields {
        language: b"",
        script: b"",
        region: code.as_bytes(),
    };
    Some(text_of(region_replacement(fields)?))
}

/// Returns the region that replaces the region of these fields, if there is exactly one such region: `GB` for `UK`, and
/// `US` for `840`. Case is ignored.
#[tactic(auto, using(crate::proofs::FieldClasses::region_length))]
pub fn region_replacement(fields: TagFields<'_>) -> Option<&'static [u8]>
    ensures region { option_map (λ text. text.now) result
        ≡ option_map (λ to. to.region) (likely_for region_replacements (region_alone (field_texts fields.entry))) }
    ensures in_class { IfSome result (λ text. IsTrue (is_region_field text.now)) }
{
    let index = index_of(replacement_keys(), fields.region)?;
    Some(name_at(&tables::REPLACEMENT_NAMES, index))
}

/// Returns a name of the tables as a string.
#[tactic(auto, using(crate::proofs::RowLaws::utf8_name))]
fn text_of(name: &'static [u8]) -> &'static str
    requires { IsTrue (are_alphanumeric name.now) }
    ensures { result.now ≡ name.now }
{
    let Ok(text) = str::from_utf8(name) else {
        unreachable!()
    };
    text
}

fn replacement_keys() -> &'static [u32]
    ensures numbers { result.now ≡ map (λ row. folded_number row.from.region) region_replacements }
    ensures climbs { IsTrue (climbs_from 0 result.now) }
    ensures count { length result.now ≡ length REPLACEMENT_NAMES }
{
    &tables::REPLACEMENT_KEYS
}
