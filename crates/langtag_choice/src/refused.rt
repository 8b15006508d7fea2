//! Which tags the ranges of weight 0 refuse.
ghost use Rattle.std.specs.Prelude.{◌≡◌, ◌∷◌, [], List, ℕ};
ghost use Rattle.langtag_range.specs.Definitions.{Element, listed_element};
ghost use Rattle.langtag_choice.specs.Best as spec;
ghost use Rattle.langtag_choice.specs.Refusals.{IsLongestBefore};

use crate::range_list::RangeList;
use crate::read_range::{begins, is_star};
use langtag_cldr::basic_len;
use langtag_range::WantedRange;

/// The lengths of the longest ranges that match a tag: of those with a weight above 0, and of those with the weight 0.
#[derive(Clone, Copy)]
pub(crate) struct Longest {
    wanted: usize,
    refused: usize,
}

impl Longest {
    /// Returns the lengths before any range is read.
    pub(crate) fn none() -> Longest
        ensures { (elements : List Element) (tag : List ℕ) → IsLongestBefore elements elements tag result }
    {
        Longest {
            wanted: 0,
            refused: 0,
        }
    }

    /// Returns the lengths after one more range is read.
    pub(crate) fn with(self, range: WantedRange<'_>, tag: &[u8]) -> Longest
        ensures { (elements left : List Element) → IsLongestBefore elements (listed_element range.entry ∷ left) tag.now self
            → IsLongestBefore elements left tag.now result }
    {
        if !matches(range, tag) {
            return self;
        }
        let length = basic_len(range.bytes);
        if range.weight == 0 {
            Longest {
                wanted: self.wanted,
                refused: self.refused.max(length),
            }
        } else {
            Longest {
                wanted: self.wanted.max(length),
                refused: self.refused,
            }
        }
    }

    /// Returns whether the longest range that matches the tag has the weight 0.
    #[tactic(auto, unfolding(crate::specs::Best::is_refused))]
    pub(crate) fn is_refused(self) -> bool
        ensures { (elements : List Element) (tag : List ℕ) → IsLongestBefore elements [] tag self
            → result ≡ spec.is_refused elements tag }
    {
        self.wanted < self.refused
    }
}

/// Returns whether the longest range that matches a tag has the weight 0.
pub(crate) fn is_refused<'a, R: RangeList<'a>>(ranges: R, tag: &[u8]) -> bool
    ensures { result ≡ spec.is_refused (R.elements ranges) tag.now }
{
    let mut longest = Longest::none();
    let mut left = ranges;
    while let Some((range, rest)) = left.split_range() {
        longest = longest.with(range, tag);
        left = rest;
    }
    longest.is_refused()
}

/// Returns whether a range, other than `*`, matches a tag by basic filtering.
fn matches(range: WantedRange<'_>, tag: &[u8]) -> bool
    ensures { result ≡ spec.matches (listed_element range.entry) tag.now }
{
    begins(range.bytes, tag) && !is_star(range.bytes)
}
