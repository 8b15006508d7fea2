//! The rows of likely subtags, in tables: one table for rows with only a language on the left, and one for all other
//! rows. Rows with a script are tried before rows with a region, as in ICU. Older versions of UTS #35 have the region
//! first. The order matters only for `und`, as in `und-Latn-RU`.
ghost use Rattle.std.specs.Prelude.{◌≡◌, ◌≤◌, ◌<◌, IsTrue, length, map, slice_index_or, option_map};
ghost use Rattle.langtag_scan.specs.Class as class;
ghost use Rattle.langtag_text.specs.Numbers.{climbs_from, letter_number};
ghost use Rattle.langtag_text.specs.FieldClasses.{is_language_field};
ghost use Rattle.langtag_cldr.specs.Definitions.{filled, likely_for, likely_subtags, language_rows, other_rows};
ghost use Rattle.langtag_cldr.specs.Definitions.{first_index, key_number, no_row, places_for, places_of, field_texts};
ghost use Rattle.langtag_cldr.specs.declared.tables.TheConstants.{SCRIPT_KEYS, REGION_KEYS};

use crate::keys::place;
use crate::names::name_in;
use crate::tables;
use crate::tag_fields::TagFields;
use langtag_text::letter_number;

/// The number of `aa`, which is the least of all languages.
const FIRST_LANGUAGE: usize = 27;

/// The number of regions that a key can tell.
const REGIONS: u32 = 512;

/// The number of scripts that a key can tell.
const SCRIPTS: u32 = 256;

/// Returns the right side of the row with this left side. The language of the right side is empty if the left side has a
/// language.
#[tactic(auto, using(crate::proofs::RowLaws::all_long, crate::proofs::RowLaws::all_alone, crate::proofs::RowLaws::all_other))]
pub(crate) fn likely_for(key: TagFields<'_>) -> Option<TagFields<'static>>
    ensures { option_map (filled (field_texts key.entry)) (option_map field_texts result)
        ≡ option_map (filled (field_texts key.entry)) (likely_for likely_subtags (field_texts key.entry)) }
{
    if key.language.len() > 3 {
        return None;
    }
    if !key.language.is_empty() && key.script.is_empty() && key.region.is_empty() {
        return language_row(key.language);
    }
    other_row(key)
}

/// Returns the likely script and region of a language.
fn language_row(language: &[u8]) -> Option<TagFields<'static>>
    requires primary { IsTrue (class.is_primary language.now) }
    requires short { length language.now ≤ 3 }
    ensures { option_map field_texts result ≡ places_for language.now }
{
    let index = language_index(letter_number(language))?;
    Some(language_places(index))
}

/// Returns the index of a language, given by its number, among the languages with a row. If the language's bit is set,
/// the index is the number of set bits before it.
#[tactic(auto, using(crate::proofs::LanguageBits::no_row, crate::proofs::LanguageBits::enough_ends, crate::proofs::LanguageBits::row_at))]
fn language_index(number: usize) -> Option<usize>
    requires from_aa { 27 ≤ number }
    requires to_zzz { number ≤ 18278 }
    ensures { result ≡ first_index (map (λ row. letter_number row.from.language) language_rows) number }
{
    let place = number - FIRST_LANGUAGE;
    let bits = tables::LANGUAGE_BITS[place / 64] >> (place % 64);
    if bits % 2 == 0 {
        return None;
    }
    let end = usize::from(tables::LANGUAGE_ENDS[place / 64]);
    Some(end - bits.count_ones() as usize)
}

/// Returns the right side of a row whose left side is not only a language.
fn other_row(key: TagFields<'_>) -> Option<TagFields<'static>>
    requires { length key.language.now ≤ 3 }
    ensures { option_map field_texts result ≡ likely_for other_rows (field_texts key.entry) }
{
    let index = other_keys().binary_search(&key_number(key)).ok()?;
    Some(other_fields(index))
}

/// Returns the number that stands for three fields, which is never 0.
#[tactic(auto, using(crate::proofs::FieldClasses::script_length, crate::proofs::FieldClasses::region_length), unfolding(crate::specs::Numbers::key_number))]
#[inline(always)]
pub fn key_number(key: TagFields<'_>) -> u32
    requires { length key.language.now ≤ 3 }
    ensures { result ≡ key_number (field_texts key.entry) }
{
    let script = place(script_keys(), key.script) * REGIONS;
    let region = place(region_keys(), key.region) + 1;
    language_number(key.language) * (SCRIPTS * REGIONS) + (script + region)
}

/// Returns the number whose digits in base 26 are the letters of a language, or 0 if there is no language.
#[tactic(auto, using(crate::proofs::FieldClasses::language_primary, crate::proofs::FieldClasses::number_of_none))]
pub fn language_number(language: &[u8]) -> u32
    requires in_class { IsTrue (is_language_field language.now) }
    requires short { length language.now ≤ 3 }
    ensures number { result ≡ letter_number language.now }
    ensures most { result ≤ 18278 }
{
    if language.is_empty() {
        return 0;
    }
    letter_number(language) as u32
}

fn script_keys() -> &'static [u32]
    ensures numbers { result.now ≡ SCRIPT_KEYS }
    ensures climbs { IsTrue (climbs_from 0 result.now) }
    ensures few { length result.now ≤ 256 }
{
    &tables::SCRIPT_KEYS
}

fn region_keys() -> &'static [u32]
    ensures numbers { result.now ≡ REGION_KEYS }
    ensures climbs { IsTrue (climbs_from 0 result.now) }
    ensures few { length result.now ≤ 256 }
{
    &tables::REGION_KEYS
}

fn other_keys() -> &'static [u32]
    ensures numbers { result.now ≡ map (λ row. key_number row.from) other_rows }
    ensures climbs { IsTrue (climbs_from 0 result.now) }
    ensures count { length result.now ≡ length other_rows }
{
    &tables::OTHER_KEYS
}

/// Returns the script and the region of the language at an index.
#[tactic(auto, using(crate::proofs::TableRows::language_count))]
fn language_places(index: usize) -> TagFields<'static>
    requires { index < length language_rows }
    ensures { field_texts result ≡ places_of (slice_index_or language_rows index no_row).to }
{
    TagFields {
        language: b"",
        script: name_in(&tables::SCRIPT_NAMES, &tables::LANGUAGE_SCRIPTS, index),
        region: name_in(&tables::REGION_NAMES, &tables::LANGUAGE_REGIONS, index),
    }
}

/// Returns the right side of the row at an index. The language of the right side is empty if the left side has a
/// language.
#[tactic(auto, using(crate::proofs::TableRows::other_count))]
fn other_fields(index: usize) -> TagFields<'static>
    requires { index < length other_rows }
    ensures { field_texts result ≡ (slice_index_or other_rows index no_row).to }
{
    TagFields {
        language: name_in(&tables::LANGUAGE_NAMES, &tables::OTHER_LANGUAGES, index),
        script: name_in(&tables::SCRIPT_NAMES, &tables::OTHER_SCRIPTS, index),
        region: name_in(&tables::REGION_NAMES, &tables::OTHER_REGIONS, index),
    }
}
