//! Choosing the best tag for a user. `*` chooses nothing, even if the header excludes tags: a choice by `*` would have
//! no distance, so each law of the choice would need a second case.
ghost use Rattle.std.specs.Prelude.{◌≡◌, ◌<◌, IsTrue, length, option_map};
ghost use Rattle.langtag_scan.specs.Prelude.{list_any};
ghost use Rattle.langtag_range.specs.Definitions.{basic_text, hyphened, is_language_range, wanted_elements};
ghost use Rattle.langtag_match.specs.Text.{accept_language_ranges};
ghost use Rattle.langtag_choice.specs.Best as spec;
ghost use Rattle.langtag_choice.specs.Serves.{is_excluded};
ghost use Rattle.langtag_choice.specs.ChoiceLaws as laws;
ghost use Rattle.langtag_choice.specs.Distance.{distance_of_texts};
ghost use Rattle.langtag_choice.specs.Found.{IsBestFound, is_unrefused_at};
ghost use Rattle.langtag_choice.specs.ListTexts.{header_ranges, ordered_elements, tag_texts, weighted_elements};

use crate::best_match::BestMatch;
use crate::by_ranges::first_by_ranges;
use crate::by_tags::first_by_tags;
use crate::candidate::{Candidate, index_of};
use crate::range_list::{RangeList, range_at};
use crate::refused::is_refused;
use crate::tag_distance::range_distance;
use crate::tag_list::{TagList, Tags};
use langtag::LangTag;
use langtag_match::{AcceptLanguage, LanguageRange};

/// Returns the index of the best tag for an Accept-Language header (RFC 9110 section 12.5.4), or `None` if no tag is
/// suitable. For `zh-TW,zh;q=0.9,en;q=0.8` and the tags `en`, `zh-Hans` and `zh-Hant` it is 2.
///
/// ```
/// use langtag::LangTag;
/// use langtag_choice::best_for_header;
///
/// let tags = [LangTag::new("en")?, LangTag::new("zh-Hans")?, LangTag::new("zh-Hant")?];
/// best_for_header(b"zh-TW,zh;q=0.9,en;q=0.8", &tags); // Some(2)
/// ```
#[tactic(auto, using(crate::proofs::ChoiceLaws::header_case_ignored))]
pub fn best_for_header(header: &[u8], tags: &[LangTag<'_>]) -> Option<usize>
    ensures choice { spec.IsChoice (wanted_elements header.now) (tag_texts tags.now) result }
    // law: alike headers have the same result
    ensures header_case { laws.IgnoresHeaderCase header.now (tag_texts tags.now) result }
{
    best_among(header, &Tags(tags))
}

/// Returns the index of the best tag for a parsed header, as [`best_for_header`] does. [`AcceptLanguage`] has no ranges
/// of weight 0, so it excludes no tag.
///
/// ```
/// use langtag::LangTag;
/// use langtag_choice::best_for_accept_language;
/// use langtag_match::AcceptLanguage;
///
/// let accepted = AcceptLanguage::lenient(alloc, "zh-TW,zh;q=0.9,en;q=0.8")?;
/// let tags = [LangTag::new("en")?, LangTag::new("zh-Hant")?];
/// best_for_accept_language(&accepted, &tags); // Some(1)
/// ```
pub fn best_for_accept_language(
    accepted: &AcceptLanguage<'_>,
    tags: &[LangTag<'_>],
) -> Option<usize>
    ensures choice { spec.IsChoice (weighted_elements (accept_language_ranges accepted.now)) (tag_texts tags.now) result }
{
    best_among(accepted.ranges(), &Tags(tags))
}

/// Returns the index of the best tag for a list of language ranges, in order of preference, as [`best_for_header`]
/// does. For the ranges `nn` and `de`, and the tags `en` and `nb`, it is 1. An extended range is read without its `*`:
/// `zh-*-Hant` is read as `zh-Hant`.
///
/// ```
/// use langtag::LangTag;
/// use langtag_choice::best_for_ranges;
/// use langtag_match::LanguageRange;
///
/// let ranges = [LanguageRange::new("nn")?, LanguageRange::new("de")?];
/// let tags = [LangTag::new("en")?, LangTag::new("nb")?];
/// best_for_ranges(&ranges, &tags); // Some(1)
/// ```
pub fn best_for_ranges(ranges: &[LanguageRange<'_>], tags: &[LangTag<'_>]) -> Option<usize>
    ensures choice { spec.IsChoice (ordered_elements ranges.now) (tag_texts tags.now) result }
{
    best_among(ranges, &Tags(tags))
}

/// Returns the best tag for an Accept-Language header, as [`best_for_header`] chooses it, with the range that it serves
/// and its distance from that range. If the distance is 50 or more, only lookup (RFC 4647, section 3.4) finds the tag.
///
/// ```
/// use langtag::LangTag;
/// use langtag_choice::match_for_header;
///
/// let tags = [LangTag::new("en")?, LangTag::new("de")?];
/// let found = match_for_header(b"tlh, gsw", &tags);
/// found.map(|found| (found.index, found.range, found.distance)); // Some((1, &b"gsw"[..], 8))
/// ```
pub fn match_for_header<'a>(header: &'a [u8], tags: &[LangTag<'_>]) -> Option<BestMatch<'a>>
    // law: the index is that of the chosen tag; the range and the distance belong to the pair of range and tag that was
    // chosen
    ensures found { spec.IsMatch (wanted_elements header.now) (tag_texts tags.now) result }
    ensures written { spec.IsWritten (header_ranges header.now) result }
    ensures choice { spec.IsChoice (wanted_elements header.now) (tag_texts tags.now) (option_map (λ found. found.index) result) }
    ensures cloned { (found copy : BestMatch) → ⟦<BestMatch<'a> as Clone>⟧.is_clone found copy → copy ≡ found }
    ensures clone_succeeds { (found : BestMatch) → ⟦<BestMatch<'a> as Clone>⟧.is_infallible found }
{
    match_among(header, &Tags(tags))
}

/// Returns the best tag with the range that it serves, as [`match_for_header`] does, for any list of ranges and any list of tags.
///
/// ```
/// use langtag::LangTag;
/// use langtag_choice::{TagList, match_among};
///
/// struct Texts(&'static [&'static str]);
///
/// impl TagList for Texts {
///     fn count(&self) -> usize {
///         self.0.len()
///     }
///
///     fn tag_at(&self, index: usize) -> Option<LangTag<'_>> {
///         LangTag::new(self.0[index]).ok()
///     }
///
///     fn bytes_at(&self, index: usize) -> &[u8] {
///         self.0[index].as_bytes()
///     }
/// }
///
/// let found = match_among(&b"tlh, gsw"[..], &Texts(&["en", "de"]));
/// found.map(|found| (found.index, found.place, found.distance)); // Some((1, 1, 8))
/// ```
pub fn match_among<'a, R: RangeList<'a>, T: TagList>(ranges: R, tags: &T) -> Option<BestMatch<'a>>
    ensures found { spec.IsMatch (R.elements ranges) (T.texts tags.now) result }
    ensures written { spec.IsWritten (R.texts ranges) result }
    ensures choice { spec.IsChoice (R.elements ranges) (T.texts tags.now) (option_map (λ found. found.index) result) }
{
    let found = best(ranges, tags)?;
    // What is known of the candidate's range is how it is read, so the list is asked how it is written.
    let range = range_at(ranges, found.rank.place)?;
    Some(match_of(found, range))
}

/// Converts the chosen candidate, and its range as it is written, to a [`BestMatch`].
fn match_of<'a>(found: Candidate<'_, '_>, range: &'a [u8]) -> BestMatch<'a>
    requires in_class { IsTrue (is_language_range (hyphened range.now)) }
    ensures index { result.index ≡ found.entry.index }
    ensures range { result.range.now ≡ range.now }
    ensures place { result.place ≡ found.entry.rank.place }
    ensures distance { result.distance ≡ distance_of_texts (basic_text range.now) found.entry.tag.now }
{
    BestMatch {
        index: found.index,
        range,
        place: found.rank.place,
        distance: range_distance(range, found.tag),
    }
}

/// Returns the index of the best tag, as [`best_for_header`] does, for any list of ranges and any list of tags.
///
/// ```
/// use langtag::LangTag;
/// use langtag_choice::{TagList, best_among};
/// use langtag_match::LanguageRange;
///
/// struct One<'t>(LangTag<'t>);
///
/// impl TagList for One<'_> {
///     fn count(&self) -> usize {
///         1
///     }
///
///     fn tag_at(&self, _: usize) -> Option<LangTag<'_>> {
///         Some(self.0)
///     }
///
///     fn bytes_at(&self, _: usize) -> &[u8] {
///         self.0.as_bytes()
///     }
/// }
///
/// let ranges = [LanguageRange::new("nn")?];
/// best_among(&ranges[..], &One(LangTag::new("nb")?)); // Some(0)
/// best_among(&ranges[..], &One(LangTag::new("ja")?)); // None
/// ```
#[tactic(auto, using(crate::proofs::ChoiceLaws::only_choice, crate::proofs::ChoiceLaws::look_up_answered, crate::proofs::ChoiceLaws::case_ignored))]
pub fn best_among<'a, R: RangeList<'a>, T: TagList>(ranges: R, tags: &T) -> Option<usize>
    ensures choice { spec.IsChoice (R.elements ranges) (T.texts tags.now) result }
    // law: only one choice is possible
    ensures one { laws.IsOnlyChoice (R.elements ranges) (T.texts tags.now) result }
    // law: some tag is chosen if lookup of a range finds a tag that is not refused
    ensures looked_up { laws.AnswersLookUp (R.elements ranges) (T.texts tags.now) result }
    // law: the first tag that equals the first range of the greatest weight is chosen
    ensures equal { laws.AnswersEqual (R.elements ranges) (T.texts tags.now) result }
    // law: the case of the letters of elements and tags changes nothing
    ensures case { laws.IgnoresCase (R.elements ranges) (T.texts tags.now) result }
{
    best_index(ranges, tags)
}

/// Returns the index of the chosen tag.
#[tactic(auto, using(crate::proofs::FoundLaws::found_chosen))]
fn best_index<'a, R: RangeList<'a>, T: TagList>(ranges: R, tags: &T) -> Option<usize>
    ensures { spec.IsChoice (R.elements ranges) (T.texts tags.now) result }
{
    index_of(best(ranges, tags))
}

/// Returns the chosen candidate. If the first candidate is refused or not a tag, the tags are tried one by one.
fn best<'a, 't, R: RangeList<'a>, T: TagList>(ranges: R, tags: &'t T) -> Option<Candidate<'a, 't>>
    ensures { IsBestFound (R.elements ranges) (T.texts tags.now) result }
{
    let (first, has_zero) = first_by_ranges(ranges, tags);
    let found = first?;
    if is_chosen(ranges, tags, found.index, has_zero) {
        return Some(found);
    }
    first_by_tags(ranges, tags)
}

/// Returns whether the entry at an index is a tag that is not refused. No tag is refused if no range has the weight 0.
fn is_chosen<'a, R: RangeList<'a>, T: TagList>(
    ranges: R,
    tags: &T,
    index: usize,
    has_zero: bool,
) -> bool
    requires inside { index < length (T.texts tags.now) }
    requires zero { has_zero ≡ list_any is_excluded (R.elements ranges) }
    ensures { IsTrue result → IsTrue (is_unrefused_at (R.elements ranges) (T.texts tags.now) index) }
{
    match tags.tag_at(index) {
        Some(tag) => !has_zero || !is_refused(ranges, tag.as_bytes()),
        None => false,
    }
}
