//! A tag that may serve a range.
ghost use Rattle.std.specs.Prelude.{◌≡◌, IsTrue, option_map, ◌≤◌, ℕ, ◌==◌, ◌&&◌, ◌||◌, nat_lt, ◌-◌, drop, length, if◌then◌else◌};
ghost use Rattle.langtag_scan.specs.Prelude.{slice_cmp, is_lt, nat_cmp};
ghost use Rattle.langtag_range.specs.Definitions.{is_language_range, hyphened, basic_text};
ghost use Rattle.langtag_choice.specs.Variants.{lacking, variants_of};

use crate::as_read::lost_as_read;
use crate::likely_region::unlikely;
use crate::nearness::lost;
use crate::region_group::region_width;
use crate::transformed::is_transformed;
use crate::variants::{has_variants, lacking_variants};
use langtag_cldr::TagFields;
use std::cmp::Ordering;

/// How well a tag serves a range, the best first: at a distance below 16, at a distance below 50, or because only
/// lookup finds it.
#[derive(Clone, Copy, PartialEq, Eq, PartialOrd, Ord)]
pub(crate) enum Service {
    Near,
    Acceptable,
    LookUp,
}

impl Service {
    ghost use Rattle.langtag_choice.specs.Serves.{service};
    ghost use Rattle.langtag_choice.specs.Candidates.{service_number};

    /// Returns how well a tag serves a range at a distance, which is 50 if only lookup finds the tag.
    pub(crate) fn at(distance: u8) -> Service
        ensures { service_number result ≡ service distance }
    {
        if distance < 16 {
            Service::Near
        } else if distance < 50 {
            Service::Acceptable
        } else {
            Service::LookUp
        }
    }

    /// Returns the least distance at which a tag serves a range in this way.
    pub(crate) fn least_distance(self) -> u8
        ensures { (distance : ℕ) → result ≤ distance → service_number self ≤ service distance }
    {
        match self {
            Service::Near => 0,
            Service::Acceptable => 16,
            Service::LookUp => 50,
        }
    }
}

/// The part of a candidate that is compared first. The lesser of two ranks is better, and the first field in which they
/// differ decides.
#[derive(Clone, Copy, PartialEq, Eq, PartialOrd, Ord)]
pub(crate) struct Rank {
    pub(crate) service: Service,
    /// 1 minus the weight of the range, in thousandths.
    pub(crate) lack: u32,
    /// The number of ranges before the range.
    pub(crate) place: usize,
    /// The distance of the tag, which is 50 if only lookup finds the tag.
    pub(crate) distance: u8,
}

impl Rank {
    /// Returns whether the range has more weight than another range, or the same weight and fewer ranges before it. The
    /// other range is given by its own `lack` and `place`.
    pub(crate) fn is_wanted_more(self, lack: u32, place: usize) -> bool
        ensures { result ≡ (nat_lt self.lack lack || ((self.lack == lack) && nat_lt self.place place)) }
    {
        self.lack < lack || (self.lack == lack && self.place < place)
    }

    /// Returns whether the range is the one with this `lack` and `place`.
    pub(crate) fn is_for(self, lack: u32, place: usize) -> bool
        ensures { result ≡ ((self.lack == lack) && (self.place == place)) }
    {
        self.lack == lack && self.place == place
    }
}

/// A tag that may serve a range, with the tag's index and matching form.
#[derive(Clone, Copy)]
pub(crate) struct Candidate<'a, 't> {
    pub(crate) rank: Rank,
    pub(crate) range: &'a [u8],
    /// The number of variants of the range.
    pub(crate) variants: usize,
    pub(crate) tag: &'t [u8],
    pub(crate) form: Option<TagFields<'t>>,
    /// How unlikely the region of the tag is, if this was kept.
    pub(crate) unlikely: Option<u8>,
    pub(crate) index: usize,
    pub ghost counted: { variants ≡ length (variants_of (basic_text range.now)) },
    pub ghost in_class: { IsTrue (is_language_range (hyphened range.now)) },
}

impl Candidate<'_, '_> {
    ghost use Rattle.langtag_choice.specs.Candidates.{rank_of, ties_of};
    ghost use Rattle.langtag_choice.specs.Nearness.{lost, unlikely_kept};
    ghost use Rattle.langtag_choice.specs.RegionWidth.{width_of_forms};
    ghost use Rattle.langtag_choice.specs.Transformed.{unasked_transform};
    ghost use Rattle.langtag_cldr.specs.Definitions.{field_texts, matching_form};

    /// Returns whether this candidate is better than another.
    pub(crate) fn goes_before(&self, other: &Candidate<'_, '_>) -> bool
        ensures { result ≡ is_lt (slice_cmp nat_cmp (rank_of self.now) (rank_of other.now)) }
    {
        match self.rank.cmp(&other.rank) {
            Ordering::Less => true,
            Ordering::Greater => false,
            Ordering::Equal => self.breaks_tie(other),
        }
    }

    /// Returns whether this candidate is better than another of the same rank. It compares how many of the variants of the
    /// range the tags lack, then whether they are translations for which the range does not ask, and then how much lookup
    /// removes from the range.
    #[tactic(auto, unfolding(crate::specs::Candidates::ties_of))]
    #[inline(never)]
    fn breaks_tie(&self, other: &Candidate<'_, '_>) -> bool
        ensures { result ≡ is_lt (slice_cmp nat_cmp (ties_of self.now) (ties_of other.now)) }
    {
        let (lacking, others_lacking) = (self.lacking(), other.lacking());
        if lacking != others_lacking {
            return lacking < others_lacking;
        }
        let (transformed, others_transformed) = (self.is_unasked(), other.is_unasked());
        if transformed != others_transformed {
            return others_transformed;
        }
        self.breaks_tie_by_lookup(other)
    }

    /// Returns whether this candidate is better than another, if they differ only in what is compared last: how much lookup
    /// removes from the range, then how wide the group of regions is, then how likely the region is, and then the index. Lookup
    /// first reads the languages as CLDR replaces them, and then as they are written.
    #[tactic(auto, unfolding(crate::specs::Candidates::ties_of))]
    fn breaks_tie_by_lookup(&self, other: &Candidate<'_, '_>) -> bool
        ensures { result ≡ is_lt (slice_cmp nat_cmp (drop 2 (ties_of self.now)) (drop 2 (ties_of other.now))) }
    {
        let (lost, others_lost) = (lost(self.range, self.tag), lost(other.range, other.tag));
        let read = lost_as_read(self.range, self.tag, lost);
        let others_read = lost_as_read(other.range, other.tag, others_lost);
        if read != others_read {
            return read < others_read;
        }
        if lost != others_lost {
            return lost < others_lost;
        }
        self.breaks_tie_by_region(other)
    }

    /// Returns whether this candidate is better than another, if lookup removes as much from the range for each.
    #[tactic(auto, unfolding(crate::specs::Candidates::ties_of))]
    fn breaks_tie_by_region(&self, other: &Candidate<'_, '_>) -> bool
        ensures { result ≡ is_lt (slice_cmp nat_cmp (drop 4 (ties_of self.now)) (drop 4 (ties_of other.now))) }
    {
        let (width, others_width) = (self.width(), other.width());
        if width != others_width {
            return width < others_width;
        }
        let (unlikely, others) = (self.unlikely(), other.unlikely());
        if unlikely != others {
            return unlikely < others;
        }
        self.index < other.index
    }

    /// Returns whether the tag is a translation for which the range does not ask.
    #[tactic(auto, unfolding(crate::specs::Transformed::unasked_transform))]
    fn is_unasked(&self) -> bool
        ensures { unasked_transform (basic_text self.now.range.now) self.now.tag.now ≡ if result then 1 else 0 }
    {
        is_transformed(self.tag) && !is_transformed(self.range)
    }

    /// Returns how many regions the tag's group of regions has, if the region of the range is in it.
    fn width(&self) -> usize
        ensures { result ≡ width_of_forms (matching_form (basic_text self.now.range.now)) (option_map field_texts self.now.form) }
    {
        region_width(self.range, self.form)
    }

    /// Returns how many of the variants of the range the tag lacks.
    #[tactic(auto, using(crate::proofs::VariantTexts::lacking_nothing))]
    fn lacking(&self) -> usize
        ensures { result ≡ lacking (basic_text self.now.range.now) self.now.tag.now }
    {
        if self.variants == 0 || !has_variants(self.tag) {
            return self.variants;
        }
        lacking_variants(self.range, self.tag)
    }

    /// Returns how unlikely the region of the tag is.
    fn unlikely(&self) -> u8
        ensures { result ≡ unlikely_kept self.now.unlikely (option_map field_texts self.now.form) }
    {
        match self.unlikely {
            Some(kept) => kept,
            None => unlikely(self.form),
        }
    }
}

/// Returns the index of the tag that was found.
pub(crate) fn index_of(found: Option<Candidate<'_, '_>>) -> Option<usize>
    ensures { result ≡ option_map (λ c. c.index) found.entry }
{
    Some(found?.index)
}
