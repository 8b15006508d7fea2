//! Language ranges as spans of a string.
ghost use Rattle.std.specs.Prelude.{map};
ghost use Rattle.langtag_c.specs.Spanned.{ranges_at, written_at};

use crate::span::Span;
use crate::spanned::range_in;
use langtag_choice::RangeList;
use langtag_match::WantedRange;

/// A string, and spans of it that are language ranges, in order of preference.
#[derive(Clone, Copy)]
pub(crate) struct SpannedRanges<'a> {
    pub(crate) text: &'a [u8],
    pub(crate) spans: &'a [Span],
}

#[tactic(auto, using(crate::proofs::TagsAt::few_ranges))]
impl<'a> RangeList<'a> for SpannedRanges<'a> {
    ghost elements = { λ ranges. ranges_at ranges.text.now ranges.spans.now };

    ghost texts = { λ ranges. map (λ element. element.range) (written_at ranges.text.now ranges.spans.now) };

    fn split_range(self) -> Option<(WantedRange<'a>, SpannedRanges<'a>)> {
        let mut left = self.spans;
        while let Some((first, rest)) = left.split_first() {
            left = rest;
            if let Some(found) = range_in(self.text, *first) {
                let rest = SpannedRanges {
                    text: self.text,
                    spans: left,
                };
                return Some((found, rest));
            }
        }
        None
    }
}
