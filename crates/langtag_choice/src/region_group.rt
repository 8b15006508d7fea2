//! How wide the group of regions is for which a tag was written.
ghost use Rattle.std.specs.Prelude.{◌≡◌, ◌<◌, [], IsTrue, None, length, map, option_map, slice_index_or};
ghost use Rattle.langtag_scan.specs.Grammar.{folded_number};
ghost use Rattle.langtag_text.specs.FieldClasses.{is_region_field};
ghost use Rattle.langtag_text.specs.Numbers.{climbs_from};
ghost use Rattle.langtag_cldr.specs.Definitions.{field_texts, matching_form};
ghost use Rattle.langtag_range.specs.Definitions.{basic_text, hyphened, is_language_range};
ghost use Rattle.langtag_choice.specs.MatchingData.{region_groups};
ghost use Rattle.langtag_choice.specs.RegionGroup.{no_group};
ghost use Rattle.langtag_choice.specs.RegionWidth as spec;
ghost use Rattle.langtag_choice.specs.RegionWidth.{IsGroupIndex, is_letter_group};

use crate::matching_tables as tables;
use langtag_cldr::{TagFields, index_of, matching_form};
use langtag_scan::{case_insensitive_eq, into_smallcase};

/// The width of the world, which has all regions. It is more than that of any group.
const WORLD_WIDTH: usize = 999;

/// The width of what is no group with the region of the range, such as a country. It is more than that of the world.
const NO_GROUP_WIDTH: usize = 1000;

/// Returns how many regions the group of regions of a matching form has, if the region of a range is in it. It is
/// [`WORLD_WIDTH`] for the world, and [`NO_GROUP_WIDTH`] for any other region.
#[tactic(auto, unfolding(crate::specs::RegionWidth::width_of_forms), using(crate::proofs::FarTags::form_read))]
pub(crate) fn region_width(range: &[u8], form: Option<TagFields<'_>>) -> usize
    requires { IsTrue (is_language_range (hyphened range.now)) }
    ensures { result ≡ spec.width_of_forms (matching_form (basic_text range.now)) (option_map field_texts form.entry) }
{
    let code = region_in(form);
    match group_index(code) {
        Some(index) => width_of(index, region_in(matching_form(range))),
        None => width_unlisted(code),
    }
}

/// Returns the region of a matching form, which is empty if there is no form.
fn region_in<'a>(form: Option<TagFields<'a>>) -> &'a [u8]
    ensures region { result.now ≡ spec.region_in (option_map field_texts form.entry) }
    ensures class { IsTrue (is_region_field result.now) }
{
    match form {
        Some(form) => form.region,
        None => b"",
    }
}

/// Returns the index of the group of regions with a code.
#[tactic(auto, using(langtag_cldr::proofs::FieldClasses::region_length, langtag_cldr::proofs::FieldClasses::region_alphanumeric, crate::proofs::RegionWidths::group_found))]
fn group_index(code: &[u8]) -> Option<usize>
    requires { IsTrue (is_region_field code.now) }
    ensures { IsGroupIndex code.now result }
{
    if is_country(code) {
        return None;
    }
    index_of(group_keys(), code)
}

/// Returns `true` only if a code is not that of a group: it has two letters, and is none of `EU`, `EZ`, `QO` and `UN`. This is
/// quick, and most tags with a region have that of a country.
fn is_country(code: &[u8]) -> bool
    requires { IsTrue (is_region_field code.now) }
    ensures { IsTrue result → IsGroupIndex code.now None }
{
    match code {
        [first, second] => !is_group_of_letters(into_smallcase(*first), into_smallcase(*second)),
        _ => false,
    }
}

/// Returns whether two lowercase letters are the code of a group.
fn is_group_of_letters(first: u8, second: u8) -> bool
    ensures { result ≡ is_letter_group first second }
{
    (first == b'e' && (second == b'u' || second == b'z'))
        || ((first == b'q' && second == b'o') || (first == b'u' && second == b'n'))
}

/// Returns the width of a code that is not in the list of groups.
fn width_unlisted(code: &[u8]) -> usize
    ensures { result ≡ spec.width_unlisted code.now }
{
    if case_insensitive_eq(b"001", code) {
        WORLD_WIDTH
    } else {
        NO_GROUP_WIDTH
    }
}

/// Returns the number of regions in the group at an index if it has a region, and [`NO_GROUP_WIDTH`] otherwise.
#[tactic(auto, using(langtag_cldr::proofs::FieldClasses::region_length, langtag_cldr::proofs::FieldClasses::region_alphanumeric))]
fn width_of(index: usize, region: &[u8]) -> usize
    requires inside { index < length region_groups }
    requires class { IsTrue (is_region_field region.now) }
    ensures { result ≡ spec.width_of (slice_index_or region_groups index no_group) region.now }
{
    let regions = regions_of(index);
    if index_of(regions, region).is_some() {
        regions.len()
    } else {
        NO_GROUP_WIDTH
    }
}

#[tactic(auto, using(crate::proofs::RegionWidths::groups_listed))]
fn group_keys() -> &'static [u32]
    ensures numbers { result.now ≡ map (λ group. folded_number group.code) region_groups }
    ensures climbs { IsTrue (climbs_from 0 result.now) }
{
    &tables::GROUP_KEYS
}

#[tactic(auto, using(crate::proofs::RegionWidths::groups_listed))]
fn group_regions() -> &'static [&'static [u32]]
    ensures numbers { map (λ regions. regions.now) result.now ≡ map (λ group. map folded_number group.regions) region_groups }
    ensures count { length result.now ≡ length region_groups }
{
    &tables::GROUP_REGIONS
}

/// Returns the regions of the group at an index.
fn regions_of(index: usize) -> &'static [u32]
    requires { index < length region_groups }
    ensures numbers { result.now ≡ map folded_number (slice_index_or region_groups index no_group).regions }
    ensures climbs { IsTrue (climbs_from 0 result.now) }
{
    regions_at(group_regions(), index)
}

/// Returns the entry at an index.
fn regions_at(groups: &'static [&'static [u32]], index: usize) -> &'static [u32]
    requires { index < length groups.now }
    ensures { result.now ≡ slice_index_or (map (λ regions. regions.now) groups.now) index [] }
{
    groups[index]
}
