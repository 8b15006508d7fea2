//! Replacing deprecated languages and regions in the fields of a tag.
ghost use Rattle.std.specs.Prelude.{◌≡◌, IsTrue, length, map, option_map, is_none};
ghost use Rattle.langtag_scan.specs.Grammar.{folded_number};
ghost use Rattle.langtag_text.specs.Numbers.{climbs_from, letter_number};
ghost use Rattle.langtag_cldr.specs.Definitions.{likely_for, language_alone, canonical_fields};
ghost use Rattle.langtag_cldr.specs.Definitions.{language_aliases, region_aliases, field_texts};
ghost use Rattle.langtag_cldr.specs.Matching as spec;
ghost use Rattle.langtag_cldr.specs.declared.alias_tables.TheConstants.{ALIAS_LANGUAGES, REGION_ALIAS_NAMES};

use crate::alias_tables as tables;
use crate::fields::{known, or_other};
use crate::keys::index_of;
use crate::names::{name_at, name_in};
use crate::rows::language_number;
use crate::tag_fields::TagFields;

/// Returns the fields with the language replaced if CLDR replaces it, and with the script or the region that comes
/// with the new language.
#[tactic(auto, unfolding(crate::specs::Matching::language_replaced))]
pub fn language_replaced<'a>(fields: TagFields<'a>) -> TagFields<'a>
    ensures { field_texts result ≡ spec.language_replaced (field_texts fields.entry) }
{
    match language_alias(fields) {
        Some(other) => fields.with_language(other),
        None => fields,
    }
}

/// Returns the fields with deprecated subtags replaced.
pub(crate) fn canonical_fields<'a>(fields: TagFields<'a>) -> TagFields<'a>
    ensures { field_texts result ≡ canonical_fields (field_texts fields.entry) }
{
    region_replaced(language_replaced(fields))
}

/// Returns the fields with the region replaced if it has two letters and is deprecated.
#[tactic(auto, unfolding(crate::specs::Matching::letters_replaced))]
pub(crate) fn letters_replaced<'a>(fields: TagFields<'a>) -> TagFields<'a>
    ensures { field_texts result ≡ spec.letters_replaced (field_texts fields.entry) }
{
    if fields.region.len() == 2 {
        region_replaced(fields)
    } else {
        fields
    }
}

/// Returns the fields with the region replaced if it is deprecated.
#[tactic(auto, unfolding(crate::specs::Matching::region_replaced))]
fn region_replaced<'a>(fields: TagFields<'a>) -> TagFields<'a>
    ensures { field_texts result ≡ spec.region_replaced (field_texts fields.entry) }
{
    match region_alias(fields) {
        Some(other) => fields.with_region(other),
        None => fields,
    }
}

/// Returns the replacement of the language, if there is one.
#[inline(always)]
pub(crate) fn language_alias(fields: TagFields<'_>) -> Option<TagFields<'static>>
    ensures { option_map field_texts result ≡ likely_for language_aliases (language_alone (field_texts fields.entry)) }
{
    if fields.language.len() > 3 {
        return None;
    }
    let number = language_number(fields.language) as u16;
    let index = alias_keys().binary_search(&number).ok()?;
    Some(TagFields {
        language: name_at(&tables::ALIAS_LANGUAGES, index),
        script: name_in(&tables::ALIAS_SCRIPT_NAMES, &tables::ALIAS_SCRIPTS, index),
        region: name_in(&tables::ALIAS_REGION_NAMES, &tables::ALIAS_REGIONS, index),
    })
}

/// Returns whether the region is not deprecated.
pub(crate) fn is_current_region(fields: TagFields<'_>) -> bool
    ensures { result ≡ is_none (likely_for region_aliases (spec.region_alone (field_texts fields.entry))) }
{
    fields.region.is_empty() || region_alias(fields).is_none()
}

/// Returns the replacement of the region, if there is one.
#[tactic(auto, using(crate::proofs::FieldClasses::region_length))]
fn region_alias(fields: TagFields<'_>) -> Option<TagFields<'static>>
    ensures { option_map field_texts result ≡ likely_for region_aliases (spec.region_alone (field_texts fields.entry)) }
{
    let index = index_of(region_alias_keys(), fields.region)?;
    Some(TagFields {
        language: b"",
        script: b"",
        region: name_at(&tables::REGION_ALIAS_NAMES, index),
    })
}

#[tactic(auto, using(crate::proofs::RowLaws::aliases_listed))]
fn alias_keys() -> &'static [u16]
    ensures numbers { result.now ≡ map (λ row. letter_number row.from.language) language_aliases }
    ensures climbs { IsTrue (climbs_from 0 result.now) }
    ensures count { length result.now ≡ length ALIAS_LANGUAGES }
{
    &tables::ALIAS_KEYS
}

#[tactic(auto, using(crate::proofs::RowLaws::region_aliases_listed))]
fn region_alias_keys() -> &'static [u32]
    ensures numbers { result.now ≡ map (λ row. folded_number row.from.region) region_aliases }
    ensures climbs { IsTrue (climbs_from 0 result.now) }
    ensures count { length result.now ≡ length REGION_ALIAS_NAMES }
{
    &tables::REGION_ALIAS_KEYS
}

impl<'a> TagFields<'a> {
    /// Returns these fields with another language. The script or region that comes with the language is added if these
    /// fields have none.
    fn with_language(self, other: TagFields<'a>) -> TagFields<'a>
        ensures { field_texts result ≡ spec.with_language_from (field_texts self.entry) (field_texts other.entry) }
    {
        TagFields {
            language: other.language,
            script: or_other(self.script, other.script),
            region: or_other(self.region, other.region),
        }
    }

    /// Returns these fields with the region of `other`, or without a region if it is `ZZ`.
    #[tactic(auto, using(crate::proofs::FieldClasses::known_region))]
    fn with_region(self, other: TagFields<'a>) -> TagFields<'a>
        ensures { field_texts result ≡ spec.with_region_from (field_texts self.entry) (field_texts other.entry) }
    {
        TagFields {
            language: self.language,
            script: self.script,
            region: known(b"ZZ", other.region),
        }
    }
}
