//! The parents that CLDR states.
ghost use Rattle.std.specs.Prelude.{◌≡◌, ◌<◌, ◌≤◌, IsTrue, [], length, map, option_map, slice_index_or};
ghost use Rattle.langtag_text.specs.Numbers.{climbs_from};
ghost use Rattle.langtag_cldr.specs.Definitions.{field_texts, likely_for, no_row};
ghost use Rattle.langtag_parent.specs.declared.tables.TheConstants.{PARENT_LANGUAGES, PARENT_REGIONS, PARENT_SCRIPTS};
ghost use Rattle.langtag_parent.specs.Base.{base_fields};
ghost use Rattle.langtag_parent.specs.Decided.{key_number};
ghost use Rattle.langtag_parent.specs.Parent.{stated};
ghost use Rattle.langtag_parent.specs.ParentLocales.{parent_locales};

use crate::base::Base;
use crate::tables;
use langtag_cldr::{TagFields, language_number};
use langtag_scan::folded_number;

/// Returns the parent that CLDR states for a language with its script and its region, which is `Some(None)` if CLDR
/// states that there is none. Returns `None` if CLDR states nothing.
#[tactic(auto, using(crate::proofs::Rows::stated_none))]
pub(crate) fn stated_parent(base: Base<'_>) -> Option<Option<Base<'static>>>
    ensures { option_map (option_map base_fields) result
        ≡ option_map stated (likely_for parent_locales (base_fields base.entry)) }
{
    let parent = row_for(base.fields()?)?;
    if parent.language.is_empty() {
        Some(None)
    } else {
        Some(Some(Base::of_fields(parent)))
    }
}

/// Returns the right side of the row with this left side.
fn row_for(fields: TagFields<'_>) -> Option<TagFields<'static>>
    requires { length fields.language.now ≤ 3 }
    ensures { option_map field_texts result ≡ likely_for parent_locales (field_texts fields.entry) }
{
    let index = parent_keys().binary_search(&key_number(fields)).ok()?;
    Some(parent_at(index))
}

/// Returns the number that stands for three fields.
#[tactic(auto, using(langtag_cldr::proofs::FieldClasses::script_length, langtag_cldr::proofs::FieldClasses::region_length), unfolding(crate::specs::Decided::key_number))]
fn key_number(fields: TagFields<'_>) -> u128
    requires { length fields.language.now ≤ 3 }
    ensures { result ≡ key_number (field_texts fields.entry) }
{
    let language = u128::from(language_number(fields.language));
    let script = u128::from(folded_number(fields.script));
    let region = u128::from(folded_number(fields.region));
    language * 72057594037927936 + (script * 16777216 + region)
}

#[tactic(auto, using(crate::proofs::Rows::parents_listed))]
fn parent_keys() -> &'static [u128]
    ensures numbers { result.now ≡ map (λ row. key_number row.from) parent_locales }
    ensures climbs { IsTrue (climbs_from 0 result.now) }
    ensures count { length result.now ≡ length parent_locales }
{
    &tables::PARENT_KEYS
}

/// Returns the right side of the row at an index.
#[tactic(auto, using(crate::proofs::Rows::parents_listed))]
fn parent_at(index: usize) -> TagFields<'static>
    requires { index < length parent_locales }
    ensures { field_texts result ≡ (slice_index_or parent_locales index no_row).to }
{
    let parent = usize::from(tables::PARENT_INDICES[index]);
    TagFields {
        language: named(parent_languages(), parent),
        script: named(parent_scripts(), parent),
        region: named(parent_regions(), parent),
    }
}

/// Returns the name at an index.
fn named(names: &'static [&'static [u8]], index: usize) -> &'static [u8]
    requires { index < length names.now }
    ensures { result.now ≡ slice_index_or (map (λ name. name.now) names.now) index [] }
{
    names[index]
}

fn parent_languages() -> &'static [&'static [u8]]
    ensures names { map (λ name. name.now) result.now ≡ map (λ name. name.now) PARENT_LANGUAGES }
    ensures count { length result.now ≡ 9 }
{
    &tables::PARENT_LANGUAGES
}

fn parent_scripts() -> &'static [&'static [u8]]
    ensures names { map (λ name. name.now) result.now ≡ map (λ name. name.now) PARENT_SCRIPTS }
    ensures count { length result.now ≡ 9 }
{
    &tables::PARENT_SCRIPTS
}

fn parent_regions() -> &'static [&'static [u8]]
    ensures names { map (λ name. name.now) result.now ≡ map (λ name. name.now) PARENT_REGIONS }
    ensures count { length result.now ≡ 9 }
{
    &tables::PARENT_REGIONS
}
