//! Making the choice tag by tag. Each entry is checked once: whether it is a tag, and whether it is refused. To find
//! the refused tags, each range is read once for a block of tags.
ghost use Rattle.std.specs.Prelude.{◌≡◌, ◌<◌, ◌+◌, ◌^◌, ◌&&◌, ◌∷◌, [], ℕ, IsTrue, List, MatchOption};
ghost use Rattle.std.specs.Prelude.{None, false, true, length, nat_lt, slice_index_or};
ghost use Rattle.langtag_scan.specs.Prelude.{list_any};
ghost use Rattle.langtag_range.specs.Definitions.{Element, listed_element, is_language_range, hyphened};
ghost use Rattle.langtag_choice.specs.Serves.{is_excluded};
ghost use Rattle.langtag_choice.specs.Found.{IsBestFound, IsWorst, ListTries, ListTriesRange};
ghost use Rattle.langtag_choice.specs.Found.{is_flagged, is_tag_at, is_unrefused_at};
ghost use Rattle.langtag_choice.specs.Refusals.{AreLongestBefore, nothing_read};
ghost use Rattle.langtag_choice.specs.Remaining.{without_all};

use crate::candidate::Candidate;
use crate::improve::limit;
use crate::range_list::RangeList;
use crate::refused::Longest;
use crate::shortlist::{improve, worst_of};
use crate::tag_list::TagList;
use crate::wish::Wish;
use langtag_range::WantedRange;

/// The number of tags for which each range is read once.
pub(crate) const BLOCK: usize = 64;

/// Returns the best candidate among the tags that are not refused.
pub(crate) fn first_by_tags<'a, 't, R: RangeList<'a>, T: TagList>(
    ranges: R,
    tags: &'t T,
) -> Option<Candidate<'a, 't>>
    ensures { IsBestFound (R.elements ranges) (T.texts tags.now) result }
{
    let mut best = [None];
    best_by_tags(ranges, tags, &[], &mut best);
    best[0]
}

/// Replaces the candidates by the best among them and the tags that are neither refused nor chosen.
pub(crate) fn best_by_tags<'a, 't, R: RangeList<'a>, T: TagList>(
    ranges: R,
    tags: &'t T,
    chosen: &[usize],
    best: &mut [Option<Candidate<'a, 't>>],
)
    requires { 0 < length best.old }
    ensures { ListTries (R.elements ranges) (T.texts tags.now)
        (λ place index. is_unrefused_at (R.elements ranges) (without_all (T.texts tags.now) chosen.now) index) best.old best.new }
{
    let Some(has_zero) = has_zero(ranges) else {
        return;
    };
    let mut start = 0;
    while start < tags.count() {
        let free = free_from(ranges, tags, chosen, has_zero, start);
        improve_at(best, ranges, tags, start, &free);
        start += BLOCK.min(tags.count() - start);
    }
}

/// Returns whether a range has the weight 0, or `None` if there is no range.
pub(crate) fn has_zero<'a, R: RangeList<'a>>(ranges: R) -> Option<bool>
    ensures { MatchOption result (R.elements ranges ≡ []) (λ zero. zero ≡ list_any is_excluded (R.elements ranges)) }
{
    let mut found = None;
    let mut left = ranges;
    while let Some((wanted, rest)) = left.split_range() {
        if wanted.weight == 0 {
            return Some(true);
        }
        found = Some(false);
        left = rest;
    }
    found
}

/// Returns which entries from an index on are tags that are neither refused nor chosen, up to [`BLOCK`] entries.
pub(crate) fn free_from<'a, R: RangeList<'a>, T: TagList>(
    ranges: R,
    tags: &T,
    chosen: &[usize],
    has_zero: bool,
    start: usize,
) -> [bool; BLOCK]
    requires inside { start < length (T.texts tags.now) }
    requires few { length (T.texts tags.now) < 2 ^ 64 }
    requires zero { has_zero ≡ list_any is_excluded (R.elements ranges) }
    ensures { (k : ℕ) → slice_index_or result k false
        ≡ (nat_lt k 64 && is_unrefused_at (R.elements ranges) (without_all (T.texts tags.now) chosen.now) (start + k)) }
{
    let mut free = not_chosen(tags, chosen, start);
    if has_zero {
        clear_refused(&mut free, ranges, tags, start);
    }
    free
}

/// Returns which entries from an index on are tags that are not chosen, up to [`BLOCK`] entries.
fn not_chosen<T: TagList>(tags: &T, chosen: &[usize], start: usize) -> [bool; BLOCK]
    requires { start < length (T.texts tags.now) }
    ensures { (k : ℕ) → slice_index_or result k false
        ≡ (nat_lt k 64 && is_tag_at (without_all (T.texts tags.now) chosen.now) (start + k)) }
{
    let mut free = [false; BLOCK];
    for offset in 0..BLOCK.min(tags.count() - start) {
        free[offset] = is_free(tags, chosen, start + offset);
    }
    free
}

/// Returns whether the entry at an index is a tag that is not chosen.
#[tactic(auto, using(crate::proofs::SuitableTags::entry_left))]
fn is_free<T: TagList>(tags: &T, chosen: &[usize], index: usize) -> bool
    requires { index < length (T.texts tags.now) }
    ensures { result ≡ is_tag_at (without_all (T.texts tags.now) chosen.now) index }
{
    !chosen.contains(&index) && tags.tag_at(index).is_some()
}

/// Clears the flags of the tags that are refused. The first flag is that of the entry at the index `start`. Each range is
/// read once. The function is not inlined, so that its lengths take no stack while candidates are compared.
#[inline(never)]
fn clear_refused<'a, R: RangeList<'a>, T: TagList>(
    free: &mut [bool; BLOCK],
    ranges: R,
    tags: &T,
    start: usize,
)
    requires few { length (T.texts tags.now) < 2 ^ 64 }
    requires tags { (k : ℕ) → slice_index_or free.old k false ≡ true → IsTrue (is_tag_at (T.texts tags.now) (start + k)) }
    ensures { (k : ℕ) → slice_index_or free.new k false
        ≡ (slice_index_or free.old k false && is_unrefused_at (R.elements ranges) (T.texts tags.now) (start + k)) }
{
    let mut longest = [Longest::none(); BLOCK];
    let mut left = ranges;
    while let Some((range, rest)) = left.split_range() {
        read_for_refusals(&mut longest, range, tags, start, free);
        left = rest;
    }
    for offset in 0..BLOCK {
        if lengths_at(&longest, offset).is_refused() {
            free[offset] = false;
        }
    }
}

/// Reads one more range for the tags whose flags are set.
fn read_for_refusals<T: TagList>(
    longest: &mut [Longest; BLOCK],
    range: WantedRange<'_>,
    tags: &T,
    start: usize,
    free: &[bool; BLOCK],
)
    requires few { length (T.texts tags.now) < 2 ^ 64 }
    requires tags { (k : ℕ) → slice_index_or free.now k false ≡ true → IsTrue (is_tag_at (T.texts tags.now) (start + k)) }
    ensures { (elements others : List Element)
        → AreLongestBefore elements (listed_element range.entry ∷ others) (T.texts tags.now) start free.now longest.old
        → AreLongestBefore elements others (T.texts tags.now) start free.now longest.new }
{
    for offset in 0..BLOCK {
        if free[offset] {
            let lengths = lengths_at(longest, offset);
            longest[offset] = lengths.with(range, tags.bytes_at(start + offset));
        }
    }
}

/// Returns the lengths of the tag at an offset.
fn lengths_at(longest: &[Longest; BLOCK], offset: usize) -> Longest
    requires { offset < 64 }
    ensures { result ≡ slice_index_or longest.now offset nothing_read }
{
    longest[offset]
}

/// Replaces the candidates by the best among them and some tags. `free` says which entries from the index `start` on
/// these are.
fn improve_at<'a, 't, R: RangeList<'a>, T: TagList>(
    best: &mut [Option<Candidate<'a, 't>>],
    ranges: R,
    tags: &'t T,
    start: usize,
    free: &[bool],
)
    requires some { 0 < length best.old }
    requires few { length (T.texts tags.now) < 2 ^ 64 }
    requires within { (k : ℕ) → slice_index_or free.now k false ≡ true → start + k < length (T.texts tags.now) }
    ensures { ListTries (R.elements ranges) (T.texts tags.now) (λ place index. is_flagged start free.now index) best.old
        best.new }
{
    let mut worst = worst_of(best);
    let mut place = 0;
    let mut left = ranges;
    while let Some((wanted, rest)) = left.split_range() {
        worst = improve_for_range(best, worst, wanted, place, tags, start, free);
        place += 1;
        left = rest;
    }
}

/// Replaces the candidates by the best among them and those for a range and some tags. Returns the
/// place of the worst.
fn improve_for_range<'a, 't, T: TagList>(
    best: &mut [Option<Candidate<'a, 't>>],
    worst: usize,
    wanted: WantedRange<'a>,
    place: usize,
    tags: &'t T,
    start: usize,
    free: &[bool],
) -> usize
    requires in_class { IsTrue (is_language_range (hyphened wanted.bytes.now)) }
    requires inside { worst < length best.old }
    requires last { IsWorst best.old worst }
    requires few { length (T.texts tags.now) < 2 ^ 64 }
    requires within { (k : ℕ) → slice_index_or free.now k false ≡ true → start + k < length (T.texts tags.now) }
    ensures tries { ListTriesRange (listed_element wanted.entry) place (T.texts tags.now) (is_flagged start free.now) best.old
        best.new }
    ensures inside { result < length best.new }
    ensures last { IsWorst best.new result }
{
    if limit(&best[worst], wanted.weight, place) == 0 {
        return worst;
    }
    let Some(wish) = Wish::new(wanted, place) else {
        return worst;
    };
    let mut worst = worst;
    for offset in 0..free.len() {
        if free[offset] {
            worst = improve(best, worst, &wish, tags, start + offset);
        }
    }
    worst
}
