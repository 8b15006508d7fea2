//! All tags that suit a user, best first. They are defined by choices in turn, so that the first is the choice of
//! `best_for_header`. The name avoids *filter*, because filtering (RFC 4647) takes no distances and has no order.
ghost use Rattle.std.specs.Prelude.{◌≡◌, ◌<◌, ◌≤◌, IfOk, None, false, true, length, take, drop, All};
ghost use Rattle.langtag_range.specs.Definitions.{wanted_elements};
ghost use Rattle.langtag_choice.specs.Best.{IsChoice};
ghost use Rattle.langtag_choice.specs.ListTexts.{ordered_elements, tag_texts};
ghost use Rattle.langtag_choice.specs.Remaining.{GoesOn, without_all};
ghost use Rattle.langtag_choice.specs.Suitable as spec;

use crate::by_tags::best_by_tags;
use crate::range_list::RangeList;
use crate::shortlist::{take_first, worst_of};
use crate::tag_list::{TagList, Tags};
use langtag::LangTag;
use langtag_match::LanguageRange;
use std::alloc::{AllocError, Global};

/// Returns the indices of all suitable tags for an Accept-Language header (RFC 9110 section 12.5.4), best first: the tag
/// that [`best_for_header`](crate::best_for_header) chooses, the tag that it chooses among the others, and so on. For
/// `de-CH,fr;q=0.7` and the tags `en`, `fr`, `de` and `de-AT`, they are 2, 3 and 1.
///
/// For every 64 indices, each range is compared with each tag, and each tag with each earlier index. To limit the time,
/// call [`write_suitable`] with a short array.
///
/// # Errors
///
/// Returns an error if allocation fails.
///
/// ```
/// use langtag::LangTag;
/// use langtag_choice::suitable_for_header;
///
/// let tags = [LangTag::new("en")?, LangTag::new("fr")?, LangTag::new("de")?, LangTag::new("de-AT")?];
/// let found = suitable_for_header(alloc, b"de-CH,fr;q=0.7", &tags)?;
/// found.as_slice(); // [2, 3, 1]
/// ```
pub fn suitable_for_header(
    alloc: Global,
    header: &[u8],
    tags: &[LangTag<'_>],
) -> Result<Vec<usize>, AllocError>
    ensures suitable { IfOk result (λ found. spec.AreSuitable (wanted_elements header.now) (tag_texts tags.now) (length tags.now)
        found.items) }
{
    suitable_among(alloc, header, &Tags(tags))
}

/// Returns the indices of all suitable tags for a list of language ranges, in order of preference, as
/// [`suitable_for_header`] does.
///
/// # Errors
///
/// Returns an error if allocation fails.
///
/// ```
/// use langtag::LangTag;
/// use langtag_choice::suitable_for_ranges;
/// use langtag_match::LanguageRange;
///
/// let ranges = [LanguageRange::new("de-CH")?, LanguageRange::new("fr")?];
/// let tags = [LangTag::new("en")?, LangTag::new("fr")?, LangTag::new("de")?];
/// let found = suitable_for_ranges(alloc, &ranges, &tags)?;
/// found.as_slice(); // [2, 1]
/// ```
pub fn suitable_for_ranges(
    alloc: Global,
    ranges: &[LanguageRange<'_>],
    tags: &[LangTag<'_>],
) -> Result<Vec<usize>, AllocError>
    ensures suitable { IfOk result (λ found. spec.AreSuitable (ordered_elements ranges.now) (tag_texts tags.now) (length tags.now)
        found.items) }
{
    suitable_among(alloc, ranges, &Tags(tags))
}

/// Returns the indices of all suitable tags, as [`suitable_for_header`] does, for any list of ranges and any list of
/// tags.
///
/// # Errors
///
/// Returns an error if allocation fails.
///
/// ```
/// use langtag::LangTag;
/// use langtag_choice::{PreparedTag, Site, suitable_among};
///
/// let tags = [PreparedTag::new(LangTag::new("en")?), PreparedTag::new(LangTag::new("zh-Hant")?)];
/// let found = suitable_among(alloc, &b"zh-TW,en;q=0.9"[..], &Site::new(&tags))?;
/// found.as_slice(); // [1, 0]
/// ```
pub fn suitable_among<'a, R: RangeList<'a>, T: TagList>(
    alloc: Global,
    ranges: R,
    tags: &T,
) -> Result<Vec<usize>, AllocError>
    ensures suitable { IfOk result (λ found. spec.AreSuitable (R.elements ranges) (T.texts tags.now) (length (T.texts tags.now))
        found.items) }
    // law: no tag is left out that may serve a range and is not refused
    ensures none_left { IfOk result (λ found. spec.LeavesNoneOut (R.elements ranges) (T.texts tags.now)
        (length (T.texts tags.now)) found.items) }
{
    let mut found = vec![in alloc; 0; tags.count()]?;
    let count = write_suitable(ranges, tags, &mut found);
    found.truncate(count);
    Ok(found)
}

/// Writes the indices of the suitable tags to an array, best first, as [`suitable_for_header`] returns them, and returns
/// their number. If the array is too short, it gets the best. It does not allocate.
///
/// ```
/// use langtag::LangTag;
/// use langtag_choice::{TagList, write_suitable};
///
/// struct Tracks(&'static [&'static str]);
///
/// impl TagList for Tracks {
///     fn count(&self) -> usize {
///         self.0.len()
///     }
///
///     fn tag_at(&self, index: usize) -> Option<LangTag<'_>> {
///         LangTag::new(self.0[index]).ok()
///     }
///
///     fn bytes_at(&self, index: usize) -> &[u8] {
///         self.0[index].as_bytes()
///     }
/// }
///
/// let mut found = [0; 2];
/// let count = write_suitable(&b"de-CH,fr;q=0.7"[..], &Tracks(&["en", "fr", "de", "de-AT"]), &mut found);
/// found.get(..count); // Some(&[2, 3][..])
/// ```
#[tactic(auto, using(crate::proofs::SuitableTags::begins_with_choice, crate::proofs::SuitableTags::all_distinct))]
pub fn write_suitable<'a, R: RangeList<'a>, T: TagList>(
    ranges: R,
    tags: &T,
    found: &mut [usize],
) -> usize
    ensures suitable { spec.AreSuitable (R.elements ranges) (T.texts tags.now) (length found.old) (take result found.new) }
    // law: the first index is that of the chosen tag
    ensures first { spec.BeginsWithChoice (R.elements ranges) (T.texts tags.now) (length found.old) (take result found.new) }
    // law: no index comes twice
    ensures distinct { spec.AreDistinct (take result found.new) }
    // law: each index is that of a tag that may serve a range and is not refused
    ensures serving { All (spec.IsServing (R.elements ranges) (T.texts tags.now)) (take result found.new) }
    // law: no tag is left out that may serve a range and is not refused
    ensures none_left { spec.LeavesNoneOut (R.elements ranges) (T.texts tags.now) (length found.old) (take result found.new) }
    ensures within { result ≤ length found.old }
    ensures rest { drop result found.new ≡ drop result found.old }
{
    choose_in_turn(ranges, tags, found)
}

/// The number of tags that one pass over all tags finds.
const BLOCK: usize = 64;

/// Writes the indices of the tags that are chosen in turn to an array, and returns their number.
fn choose_in_turn<'a, R: RangeList<'a>, T: TagList>(
    ranges: R,
    tags: &T,
    found: &mut [usize],
) -> usize
    ensures suitable { spec.AreSuitable (R.elements ranges) (T.texts tags.now) (length found.old) (take result found.new) }
    ensures within { result ≤ length found.old }
    ensures rest { drop result found.new ≡ drop result found.old }
{
    let mut count = 0;
    while count < found.len() {
        let (next, is_last) = choose_next(ranges, tags, found, count);
        count = next;
        if is_last {
            return count;
        }
    }
    count
}

/// Writes the indices of the next tags that are chosen in turn behind the first `start` indices, as many as one pass
/// over the tags finds. Returns the number of all indices, and whether there are no more.
fn choose_next<'a, R: RangeList<'a>, T: TagList>(
    ranges: R,
    tags: &T,
    found: &mut [usize],
    start: usize,
) -> (usize, bool)
    requires { start < length found.old }
    ensures goes_on { GoesOn (R.elements ranges) (T.texts tags.now) (length found.old) (take start found.old)
        → GoesOn (R.elements ranges) (T.texts tags.now) (length found.old) (take result.0 found.new) }
    ensures last { result.1 ≡ true → result.0 < length found.old
        → IsChoice (R.elements ranges) (without_all (T.texts tags.now) (take result.0 found.new)) None }
    ensures more { result.1 ≡ false → start < result.0 }
    ensures ahead { start ≤ result.0 }
    ensures within { result.0 ≤ length found.old }
    ensures rest { drop result.0 found.new ≡ drop result.0 found.old }
{
    let mut best = [None; BLOCK];
    best_by_tags(ranges, tags, &found[..start], &mut best);
    let worst = best[worst_of(&best)];
    let mut end = start;
    while end < found.len() {
        let Some(next) = take_first(&mut best) else {
            return (end, worst.is_none());
        };
        found[end] = next.index;
        end += 1;
    }
    (end, true)
}
