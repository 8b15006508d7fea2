//! Filtering of a list of tags by a language priority list (RFC 4647 section 3.3).
ghost use Rattle.std.specs.Prelude.{◌≡◌, ◌<◌, ◌^◌, length};
ghost use Rattle.langtag_scan.specs.Prelude.{YieldsFirst, item_count};
ghost use Rattle.langtag_range.specs.Definitions.{test_basic, test_extended};
ghost use Rattle.langtag_match.specs.Filter as spec;
ghost use Rattle.langtag_match.specs.FilterRule.{matches_by, filtered_left};

use crate::filter_rule::FilterRule;
use crate::language_range::LanguageRange;
use langtag::LangTag;

/// Returns an iterator over the tags that basic filtering finds for a language priority list (RFC 4647 sections 3.3 and
/// 3.3.1). The tags that the first range matches come first. Then, for each later range, come the tags that this range
/// matches and no earlier range matches.
///
/// For the ranges `de-CH` and `de`, and the tags `en`, `de-AT` and `de-CH-1996`, the iterator yields `de-CH-1996` and
/// `de-AT`. A tag that is in the list twice is found twice.
///
/// Each tag is compared with each range. For each range that matches, the tag is compared again with the earlier
/// ranges. So if many ranges match one tag, the time is quadratic in the number of ranges.
///
/// ```
/// use langtag::LangTag;
/// use langtag_match::{filter_basic, LanguageRange};
///
/// let ranges = [LanguageRange::new("de-CH")?, LanguageRange::new("de")?];
/// let tags = [LangTag::new("en")?, LangTag::new("de-AT")?, LangTag::new("de-CH-1996")?];
/// let mut found = filter_basic(&ranges, &tags);
/// found.next().map(|tag| tag.as_str()); // Some("de-CH-1996")
/// found.next().map(|tag| tag.as_str()); // Some("de-AT")
/// ```
pub fn filter_basic<'a, 't>(
    ranges: &'a [LanguageRange<'a>],
    tags: &'a [LangTag<'t>],
) -> Filtered<'a, 't>
    ensures list { filtered_left result ≡ spec.filtered test_basic ranges.now tags.now }
    ensures few { length (filtered_left result) < 2 ^ 64 }

    // law: a permutation of the tags that some range matches
    ensures found_once { spec.AreFoundOnce test_basic ranges.now tags.now (filtered_left result) }
    ensures cloned { (walk copy : Filtered) → ⟦<Filtered<'a, 't> as Clone>⟧.is_clone walk copy
        → filtered_left copy ≡ filtered_left walk }
    ensures clone_succeeds { (walk : Filtered) → ⟦<Filtered<'a, 't> as Clone>⟧.is_infallible walk }
{
    Filtered::new(FilterRule::Basic, ranges, tags)
}

/// Returns an iterator over the tags that extended filtering finds (RFC 4647 section 3.3.2), in the same order and time
/// as [`filter_basic`]: for `*-CH` and the tags `de-AT` and `de-Latn-CH`, it yields `de-Latn-CH`.
///
/// ```
/// use langtag::LangTag;
/// use langtag_match::{filter_extended, LanguageRange};
///
/// let ranges = [LanguageRange::new("*-CH")?];
/// let tags = [LangTag::new("de-AT")?, LangTag::new("de-Latn-CH")?];
/// filter_extended(&ranges, &tags).next().map(|tag| tag.as_str()); // Some("de-Latn-CH")
/// ```
pub fn filter_extended<'a, 't>(
    ranges: &'a [LanguageRange<'a>],
    tags: &'a [LangTag<'t>],
) -> Filtered<'a, 't>
    ensures list { filtered_left result ≡ spec.filtered test_extended ranges.now tags.now }
    ensures few { length (filtered_left result) < 2 ^ 64 }

    // law: a permutation of the tags that some range matches
    ensures found_once { spec.AreFoundOnce test_extended ranges.now tags.now (filtered_left result) }
{
    Filtered::new(FilterRule::Extended, ranges, tags)
}

/// The iterator that [`filter_basic`] and [`filter_extended`] return. It does not allocate.
///
/// ```
/// use langtag::LangTag;
/// use langtag_match::{LanguageRange, filter_basic};
///
/// let tags = [LangTag::new("en")?, LangTag::new("de-AT")?];
/// filter_basic(&[LanguageRange::new("de")?], &tags).count(); // 1
/// ```
#[derive(Clone, Debug, Drop)]
pub struct Filtered<'a, 't> {
    rule: FilterRule,
    ranges: &'a [LanguageRange<'a>],
    tags: &'a [LangTag<'t>],
    range_index: usize,
    tag_index: usize,
}

impl<'a, 't> Filtered<'a, 't> {
    /// Returns an iterator that starts at the first tag that the ranges find.
    #[tactic(auto, using(crate::proofs::Found::found_laws))]
    fn new(
        rule: FilterRule,
        ranges: &'a [LanguageRange<'a>],
        tags: &'a [LangTag<'t>],
    ) -> Filtered<'a, 't>
        ensures list { filtered_left result ≡ spec.filtered (matches_by rule) ranges.now tags.now }
        ensures few { length (filtered_left result) < 2 ^ 64 }
        ensures found_once { spec.AreFoundOnce (matches_by rule) ranges.now tags.now (filtered_left result) }
    {
        Filtered {
            rule,
            ranges,
            tags,
            range_index: 0,
            tag_index: 0,
        }
    }
}

impl<'a, 't> Iterator for Filtered<'a, 't> {
    type Item = LangTag<'t>;

    ghost next_gives = { YieldsFirst filtered_left };

    ghost remaining = { item_count filtered_left };

    fn next(&mut self) -> Option<LangTag<'t>> {
        let Some((range_index, tag_index)) = next_place(
            self.rule,
            self.ranges,
            self.tags,
            self.range_index,
            self.tag_index,
        ) else {
            self.range_index = self.ranges.len();
            return None;
        };
        self.range_index = range_index;
        self.tag_index = tag_index + 1;
        Some(self.tags[tag_index])
    }
}

/// Returns the index of the next range that finds a tag, and the index of that tag. The search starts at the given
/// range and tag.
fn next_place(
    rule: FilterRule,
    ranges: &[LanguageRange<'_>],
    tags: &[LangTag<'_>],
    range_index: usize,
    tag_index: usize,
) -> Option<(usize, usize)>
    ensures { spec.IsNextPlace (matches_by rule) ranges.now tags.now range_index tag_index result }
{
    let mut from = tag_index;
    for index in range_index..ranges.len() {
        if let Some(found) = next_found(rule, &ranges[..index], ranges[index], tags, from) {
            return Some((index, found));
        }
        from = 0;
    }
    None
}

/// Returns the index of the first tag that a range matches and no earlier range matches. The search starts at the given
/// index.
fn next_found(
    rule: FilterRule,
    before: &[LanguageRange<'_>],
    range: LanguageRange<'_>,
    tags: &[LangTag<'_>],
    from: usize,
) -> Option<usize>
    ensures { spec.IsNextFound (matches_by rule) before.now range.entry tags.now from result }
{
    for index in from..tags.len() {
        if is_newly_found(rule, before, range, tags[index]) {
            return Some(index);
        }
    }
    None
}

/// Returns whether a range matches a tag that no earlier range matches.
fn is_newly_found(
    rule: FilterRule,
    before: &[LanguageRange<'_>],
    range: LanguageRange<'_>,
    tag: LangTag<'_>,
) -> bool
    ensures { result ≡ spec.is_newly_found (matches_by rule) before.now range.entry tag.entry }
{
    rule.matches(range, tag) && !is_found(rule, before, tag)
}

/// Returns whether one of several ranges matches a tag.
fn is_found(rule: FilterRule, ranges: &[LanguageRange<'_>], tag: LangTag<'_>) -> bool
    ensures { result ≡ spec.is_found (matches_by rule) ranges.now tag.entry }
{
    ranges.iter().any(|range| rule.matches(*range, tag))
}
