//! The distance of regions, which for some languages depends on CLDR's sets of regions.
ghost use Rattle.std.specs.Prelude.{◌≡◌, ◌≤◌, ◌==◌, IsTrue, false, map};
ghost use Rattle.langtag_scan.specs.Grammar.{are_alike, folded_number};
ghost use Rattle.langtag_text.specs.Numbers.{climbs_from};
ghost use Rattle.langtag_choice.specs.Distance as spec;
ghost use Rattle.langtag_choice.specs.Sets.{set_of};
ghost use Rattle.langtag_cldr.specs.Definitions.{field_texts};

use crate::matching_tables as tables;
use langtag_cldr::{TagFields, index_of};
use langtag_scan::case_insensitive_eq;

/// Returns the distance of two regions, each with its language.
#[tactic(auto, unfolding(crate::specs::Distance::region_distance))]
pub(crate) fn region_distance(desired: TagFields<'_>, supported: TagFields<'_>) -> u8
    ensures distance { result ≡ spec.region_distance (field_texts desired.entry) (field_texts supported.entry) }
    ensures most { result ≤ 5 }
    ensures apart { are_alike desired.entry.language.now supported.entry.language.now ≡ false → result ≤ 4 }
    ensures equal { (result == 0) ≡ are_alike desired.entry.region.now supported.entry.region.now }
{
    if case_insensitive_eq(desired.region, supported.region) {
        return 0;
    }
    if !case_insensitive_eq(desired.language, supported.language) {
        return 4;
    }
    by_language(desired, supported)
}

/// Returns the distance of two different regions of one language.
fn by_language(desired: TagFields<'_>, supported: TagFields<'_>) -> u8
    ensures distance { result ≡ spec.by_language (field_texts desired.entry) (field_texts supported.entry) }
    ensures some { 1 ≤ result }
    ensures most { result ≤ 5 }
{
    let language = desired.language;
    if case_insensitive_eq(b"ar", language) {
        return by_side(SetName::Maghreb, desired, supported);
    }
    if case_insensitive_eq(b"en", language) {
        return english(desired, supported);
    }
    if case_insensitive_eq(b"es", language) || case_insensitive_eq(b"pt", language) {
        return by_side(SetName::Americas, desired, supported);
    }
    if case_insensitive_eq(b"zh", language)
        && (case_insensitive_eq(b"Hant", desired.script)
            && case_insensitive_eq(b"Hant", supported.script))
    {
        return by_side(SetName::HongKongAndMacao, desired, supported);
    }
    4
}

/// Returns the distance of two regions by a set: it is smaller if both are in the set, or both are outside it.
fn by_side(set: SetName, a: TagFields<'_>, b: TagFields<'_>) -> u8
    ensures distance { result ≡ spec.by_side (set_of set) a.entry.region.now b.entry.region.now }
    ensures some { 1 ≤ result }
    ensures most { result ≤ 5 }
{
    if on_one_side(set, a, b) { 4 } else { 5 }
}

/// Returns the distance of two regions for English: `GB` is nearer to the regions outside the set `$enUS` than other
/// regions are.
fn english(a: TagFields<'_>, b: TagFields<'_>) -> u8
    ensures distance { result ≡ spec.english a.entry.region.now b.entry.region.now }
    ensures some { 1 ≤ result }
    ensures most { result ≤ 5 }
{
    if is_british(a, b) || is_british(b, a) {
        return 3;
    }
    by_side(SetName::UnitedStates, a, b)
}

fn is_british(a: TagFields<'_>, b: TagFields<'_>) -> bool
    ensures { result ≡ spec.is_british a.entry.region.now b.entry.region.now }
{
    case_insensitive_eq(b"GB", a.region) && SetName::UnitedStates.is_outside(b)
}

/// Returns whether both regions are inside a set, or both are outside it.
fn on_one_side(set: SetName, a: TagFields<'_>, b: TagFields<'_>) -> bool
    ensures { result ≡ spec.on_one_side (set_of set) a.entry.region.now b.entry.region.now }
{
    (set.is_inside(a) && set.is_inside(b)) || (set.is_outside(a) && set.is_outside(b))
}

/// A set of regions, as numbers in ascending order.
#[derive(Clone, Copy)]
struct RegionSet {
    /// The regions of the set, and the groups whose countries are all in it.
    inside: &'static [u32],
    /// The groups with some countries in the set, but not all.
    partly: &'static [u32],
}

/// The sets of regions that the rules name.
#[derive(Clone, Copy)]
pub(crate) enum SetName {
    Maghreb,
    UnitedStates,
    Americas,
    HongKongAndMacao,
}

impl SetName {
    #[tactic(auto, using(crate::proofs::MatchingTables::sets_listed))]
    fn regions(self) -> RegionSet
        ensures inside { result.inside.now ≡ map folded_number (set_of self).inside }
        ensures inside_climbs { IsTrue (climbs_from 0 result.inside.now) }
        ensures partly { result.partly.now ≡ map folded_number (set_of self).partly }
        ensures partly_climbs { IsTrue (climbs_from 0 result.partly.now) }
    {
        match self {
            SetName::Maghreb => RegionSet {
                inside: &tables::MAGHREB_INSIDE,
                partly: &tables::MAGHREB_PARTLY,
            },
            SetName::UnitedStates => RegionSet {
                inside: &tables::EN_US_INSIDE,
                partly: &tables::EN_US_PARTLY,
            },
            SetName::Americas => RegionSet {
                inside: &tables::AMERICAS_INSIDE,
                partly: &tables::AMERICAS_PARTLY,
            },
            SetName::HongKongAndMacao => RegionSet {
                inside: &tables::CNSAR_INSIDE,
                partly: &tables::CNSAR_PARTLY,
            },
        }
    }

    #[tactic(auto, using(langtag_cldr::proofs::FieldClasses::region_length, langtag_cldr::proofs::FieldClasses::region_alphanumeric, crate::proofs::MatchingTables::among_by_number, crate::proofs::MatchingTables::inside_plain))]
    fn is_inside(self, fields: TagFields<'_>) -> bool
        ensures { result ≡ spec.is_among (set_of self).inside fields.entry.region.now }
    {
        index_of(self.regions().inside, fields.region).is_some()
    }

    #[tactic(auto, using(langtag_cldr::proofs::FieldClasses::region_length, langtag_cldr::proofs::FieldClasses::region_alphanumeric, crate::proofs::MatchingTables::among_by_number, crate::proofs::MatchingTables::partly_plain))]
    fn is_partly_inside(self, fields: TagFields<'_>) -> bool
        ensures { result ≡ spec.is_among (set_of self).partly fields.entry.region.now }
    {
        index_of(self.regions().partly, fields.region).is_some()
    }

    fn is_outside(self, fields: TagFields<'_>) -> bool
        ensures { result ≡ spec.is_outside (set_of self) fields.entry.region.now }
    {
        !self.is_inside(fields) && !self.is_partly_inside(fields)
    }
}
