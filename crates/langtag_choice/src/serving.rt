//! Counting the tags that suit a user, which needs no order and no memory for their indices.
ghost use Rattle.std.specs.Prelude.{◌≡◌, ◌<◌, ◌+◌, ◌-◌, ◌^◌, ◌&&◌, ◌||◌, ℕ, IsTrue, List, None, Some, Option};
ghost use Rattle.std.specs.Prelude.{count_by, false, length, min, nat_lt, slice_index_or, take, true};
ghost use Rattle.langtag_scan.specs.Prelude.{ForSome, list_any};
ghost use Rattle.langtag_range.specs.Definitions.{is_language_range, hyphened, listed_element};
ghost use Rattle.langtag_choice.specs.Near.{wish_element};
ghost use Rattle.langtag_choice.specs.Serves.{is_excluded, serves};
ghost use Rattle.langtag_choice.specs.Suitable as spec;

use crate::by_tags::{BLOCK, free_from, has_zero};
use crate::known_at::improve_entry;
use crate::range_list::RangeList;
use crate::tag_list::TagList;
use crate::wish::Wish;
use langtag_range::WantedRange;

/// Returns the number of all suitable tags, also if [`write_suitable`](crate::write_suitable) had no room for them. Each
/// range is compared with each tag. It does not allocate.
///
/// ```
/// use langtag::LangTag;
/// use langtag_choice::{PreparedTag, Site, suitable_count};
///
/// let tags = [PreparedTag::new(LangTag::new("en")?), PreparedTag::new(LangTag::new("zh-Hant")?)];
/// suitable_count(&b"zh-TW,en;q=0.9"[..], &Site::new(&tags)); // 2
/// ```
pub fn suitable_count<'a, R: RangeList<'a>, T: TagList>(ranges: R, tags: &T) -> usize
    ensures { result ≡ spec.suitable_count (R.elements ranges) (T.texts tags.now) }
{
    let has_zero = has_zero(ranges).unwrap_or(false);
    let mut count = 0;
    let mut start = 0;
    while start < tags.count() {
        count += count_from(ranges, tags, has_zero, start);
        start += BLOCK.min(tags.count() - start);
    }
    count
}

/// Returns the number of suitable tags from an index on, among up to [`BLOCK`] entries.
fn count_from<'a, R: RangeList<'a>, T: TagList>(
    ranges: R,
    tags: &T,
    has_zero: bool,
    start: usize,
) -> usize
    requires inside { start < length (T.texts tags.now) }
    requires few { length (T.texts tags.now) < 2 ^ 64 }
    requires zero { has_zero ≡ list_any is_excluded (R.elements ranges) }
    ensures { spec.suitable_count (R.elements ranges) (take start (T.texts tags.now)) + result
        ≡ spec.suitable_count (R.elements ranges) (take (start + min 64 (length (T.texts tags.now) - start)) (T.texts tags.now)) }
{
    let suitable = suitable_from(ranges, tags, has_zero, start);
    let mut count = 0;
    for offset in 0..BLOCK.min(tags.count() - start) {
        if suitable[offset] {
            count += 1;
        }
    }
    count
}

/// Returns which entries from an index on are suitable tags, up to [`BLOCK`] entries.
fn suitable_from<'a, R: RangeList<'a>, T: TagList>(
    ranges: R,
    tags: &T,
    has_zero: bool,
    start: usize,
) -> [bool; BLOCK]
    requires inside { start < length (T.texts tags.now) }
    requires few { length (T.texts tags.now) < 2 ^ 64 }
    requires zero { has_zero ≡ list_any is_excluded (R.elements ranges) }
    ensures { (k : ℕ) → slice_index_or result k false
        ≡ (nat_lt k 64 && spec.is_suitable (R.elements ranges) (slice_index_or (T.texts tags.now) (start + k) None)) }
{
    let free = free_from(ranges, tags, &[], has_zero, start);
    let mut suitable = [false; BLOCK];
    let mut left = ranges;
    while let Some((wanted, rest)) = left.split_range() {
        set_serving(&mut suitable, wanted, tags, start, &free);
        left = rest;
    }
    suitable
}

/// Sets the flags of the free tags that may serve a range. The first flags are those of the entry at the index `start`.
fn set_serving<T: TagList>(
    flags: &mut [bool; BLOCK],
    wanted: WantedRange<'_>,
    tags: &T,
    start: usize,
    free: &[bool; BLOCK],
)
    requires in_class { IsTrue (is_language_range (hyphened wanted.bytes.now)) }
    requires few { length (T.texts tags.now) < 2 ^ 64 }
    requires within { (k : ℕ) → slice_index_or free.now k false ≡ true → start + k < length (T.texts tags.now) }
    ensures serving { (k : ℕ) (tag : List ℕ) → slice_index_or (T.texts tags.now) (start + k) None ≡ Some tag
        → slice_index_or flags.new k false
        ≡ (slice_index_or flags.old k false || (slice_index_or free.now k false && serves (listed_element wanted.entry) tag)) }
    ensures others { (k : ℕ) → slice_index_or free.now k false ≡ false
        → slice_index_or flags.new k false ≡ slice_index_or flags.old k false }
{
    let Some(wish) = Wish::new(wanted, 0) else {
        return;
    };
    for offset in 0..BLOCK {
        if free[offset] && !flags[offset] {
            flags[offset] = may_serve(&wish, tags, start + offset);
        }
    }
}

/// Returns whether the entry at an index, which is a tag, may serve a range.
#[tactic(auto, using(crate::proofs::ServingLaws::serves_if_found))]
fn may_serve<T: TagList>(wish: &Wish<'_>, tags: &T, index: usize) -> bool
    requires first { wish.now.place ≡ 0 }
    requires inside { index < length (T.texts tags.now) }
    ensures { ForSome (slice_index_or (T.texts tags.now) index None) (λ tag. result ≡ serves (wish_element wish.now) tag) }
{
    let mut found = None;
    improve_entry(&mut found, wish, tags, index);
    found.is_some()
}
