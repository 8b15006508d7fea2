//! Making the choice range by range. Ranges of lower weight are skipped if a tag is near a range of higher weight.
ghost use Rattle.std.specs.Prelude.{◌≡◌, IsTrue, None, true};
ghost use Rattle.langtag_scan.specs.Prelude.{list_any};
ghost use Rattle.langtag_range.specs.Definitions.{listed_element, is_language_range, hyphened};
ghost use Rattle.langtag_choice.specs.Serves.{is_excluded};
ghost use Rattle.langtag_choice.specs.Found.{Tries, TriesRange};

use crate::candidate::Candidate;
use crate::improve::limit;
use crate::known_at::{improve_at, next_near};
use crate::range_list::RangeList;
use crate::tag_list::TagList;
use crate::wish::Wish;
use langtag_range::WantedRange;

/// Returns the best of all candidates, even if it is refused or not a tag, and whether a range has the weight 0.
pub(crate) fn first_by_ranges<'a, 't, R: RangeList<'a>, T: TagList>(
    ranges: R,
    tags: &'t T,
) -> (Option<Candidate<'a, 't>>, bool)
    ensures first { Tries (R.elements ranges) (T.texts tags.now) (λ place index. true) None result.0 }
    ensures zero { result.1 ≡ list_any is_excluded (R.elements ranges) }
{
    let mut first = None;
    let mut has_zero = false;
    let mut place = 0;
    let mut left = ranges;
    while let Some((wanted, rest)) = left.split_range() {
        has_zero = has_zero || wanted.weight == 0;
        improve_for_range(&mut first, wanted, place, tags);
        place += 1;
        left = rest;
    }
    (first, has_zero)
}

/// Replaces the candidate by the best candidate for a range, if that is better.
fn improve_for_range<'a, 't, T: TagList>(
    found: &mut Option<Candidate<'a, 't>>,
    wanted: WantedRange<'a>,
    place: usize,
    tags: &'t T,
)
    requires in_class { IsTrue (is_language_range (hyphened wanted.bytes.now)) }
    ensures { TriesRange (listed_element wanted.entry) place (T.texts tags.now) (λ index. true) found.old found.new }
{
    if limit(found, wanted.weight, place) == 0 {
        return;
    }
    let Some(wish) = Wish::new(wanted, place) else {
        return;
    };
    let mut from = 0;
    while let Some(index) = next_near(tags, &wish, from) {
        improve_at(found, &wish, tags, index);
        from = index + 1;
    }
}
