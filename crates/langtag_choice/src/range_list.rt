//! The lists of language ranges for which a tag can be chosen.
ghost use Rattle.std.specs.Prelude.{◌≡◌, ◌<◌, ◌^◌, ◌∷◌, [], ℕ, IfSome, IsTrue, List, None, Some, length, slice_get};
ghost use Rattle.langtag_scan.specs.Prelude.{option_map_or};
ghost use Rattle.langtag_range.specs.Definitions.{Element, basic_text, listed_element};
ghost use Rattle.langtag_range.specs.Definitions.{is_language_range, hyphened, wanted_elements};
ghost use Rattle.langtag_choice.specs.ListTexts.{header_ranges, ordered_elements, range_texts, weighted_elements, weighted_texts};

use langtag_match::{LanguageRange, WeightedRange};
use langtag_range::{WantedRange, split_wanted};

/// Language ranges with their weights, in the user's order. It is implemented for an Accept-Language header in a slice
/// of bytes, and for slices of [`WeightedRange`] and of [`LanguageRange`]. Walking over the ranges does not allocate.
///
/// ```
/// use langtag::LangTag;
/// use langtag_choice::best_for_ranges;
/// use langtag_match::LanguageRange;
///
/// let tags = [LangTag::new("en")?, LangTag::new("nb")?];
/// best_for_ranges(&[LanguageRange::new("nn")?], &tags); // Some(1)
/// ```
pub trait RangeList<'a>: Copy {
    ghost elements: { Self → List Element };

    ghost texts: { Self → List (List ℕ) };

    /// Returns the first range and the ranges after it, or `None` if none is left. In its bytes `_` means `-`, and each
    /// `-*` is ignored.
    fn split_range(self) -> Option<(WantedRange<'a>, Self)>
        ensures first { elements self ≡ option_map_or (λ found. listed_element found.0 ∷ elements found.1) result [] }
        ensures text { texts self ≡ option_map_or (λ found. found.0.bytes.now ∷ texts found.1) result [] }
        ensures in_class { IfSome result (λ found. IsTrue (is_language_range (hyphened found.0.bytes.now))) }
        ensures few { length (elements self) < 2 ^ 64 };
}

/// An Accept-Language header, read as `langtag_match::wanted_ranges` reads it.
#[tactic(auto, using(crate::proofs::FarTags::basic_read, crate::proofs::FarTags::range_read))]
impl<'a> RangeList<'a> for &'a [u8] {
    ghost elements = { λ header. wanted_elements header.now };

    ghost texts = { λ header. header_ranges header.now };

    fn split_range(self) -> Option<(WantedRange<'a>, &'a [u8])> {
        split_wanted(self)
    }
}

/// Ranges with their weights.
#[tactic(auto, using(langtag_range::proofs::BasicForms::hyphened_range))]
impl<'a> RangeList<'a> for &'a [WeightedRange<'a>] {
    ghost elements = { λ ranges. weighted_elements ranges.now };

    ghost texts = { λ ranges. weighted_texts ranges.now };

    fn split_range(self) -> Option<(WantedRange<'a>, &'a [WeightedRange<'a>])> {
        let (first, rest) = self.split_first()?;
        let wanted = WantedRange {
            bytes: first.range.as_str().as_bytes(),
            weight: first.weight,
        };
        Some((wanted, rest))
    }
}

/// Ranges, in order of preference.
#[tactic(auto, using(langtag_range::proofs::BasicForms::hyphened_range))]
impl<'a> RangeList<'a> for &'a [LanguageRange<'a>] {
    ghost elements = { λ ranges. ordered_elements ranges.now };

    ghost texts = { λ ranges. range_texts ranges.now };

    fn split_range(self) -> Option<(WantedRange<'a>, &'a [LanguageRange<'a>])> {
        let (first, rest) = self.split_first()?;
        let wanted = WantedRange {
            bytes: first.as_str().as_bytes(),
            weight: 1000,
        };
        Some((wanted, rest))
    }
}

/// Returns the bytes of the range with `place` ranges before it.
pub(crate) fn range_at<'a, R: RangeList<'a>>(ranges: R, place: usize) -> Option<&'a [u8]>
    ensures text { IfSome result (λ range. slice_get (R.texts ranges) place ≡ Some range.now) }
    ensures read { (element : Element) → slice_get (R.elements ranges) place ≡ Some element
        → IfSome result (λ range. basic_text range.now ≡ element.range) }
    ensures in_class { IfSome result (λ range. IsTrue (is_language_range (hyphened range.now))) }
    ensures none { result ≡ None → slice_get (R.elements ranges) place ≡ None }
{
    let mut before = place;
    let mut left = ranges;
    while let Some((wanted, rest)) = left.split_range() {
        if before == 0 {
            return Some(wanted.bytes);
        }
        before -= 1;
        left = rest;
    }
    None
}
