//! A language range in a list that the caller has, such as the user's settings.
ghost use Rattle.std.specs.Prelude.{◌≡◌, IfSome, IsTrue, option_map};
ghost use Rattle.langtag_scan.specs.Prelude.{slice_split};
ghost use Rattle.langtag_range.specs.Listed as spec;
ghost use Rattle.langtag_range.specs.Definitions.{are_range_subtags, is_language_range, hyphened, is_separator, written_element};

use crate::locale::locale_place;
use crate::range_text::{is_first_subtag, is_range_subtag};
use crate::split::split_at_either;
use crate::wanted::WantedRange;
use crate::wanted_element::{is_separator, is_star, trimmed};

/// Reads a string as a language range, basic or extended, with the weight 1. As in a header, `_` is read as `-`. White
/// space around the range is dropped, and so is everything from the first `.`, `@` or `_#` on. Returns `None` if the
/// rest is not a range, such as `de;q=0`.
///
/// ```
/// use langtag_match::listed_range;
///
/// listed_range(b" zh_TW.UTF-8").map(|range| range.bytes); // Some(&b"zh_TW"[..])
/// ```
#[tactic(auto, unfolding(crate::specs::Listed::listed))]
pub fn listed_range(text: &[u8]) -> Option<WantedRange<'_>>
    ensures listed { option_map written_element result ≡ spec.listed text.now }
    ensures in_class { IfSome result (λ found. IsTrue (is_language_range (hyphened found.bytes.now))) }
{
    let bytes = locale_place(trimmed(text));
    if !is_listed_range(bytes) {
        return None;
    }
    Some(WantedRange {
        bytes,
        weight: 1000,
    })
}

/// Returns whether a string is a language range if `_` is read as `-`.
#[tactic(auto, using(crate::proofs::WantedTexts::extended_read))]
fn is_listed_range(text: &[u8]) -> bool
    ensures { result ≡ is_language_range (hyphened text.now) }
{
    let (first, _) = split_at_either(text, b'-', b'_');
    (is_star(first) || is_first_subtag(first)) && are_listed_subtags(text)
}

/// Returns whether each subtag is `*`, or 1 to 8 letters or digits.
fn are_listed_subtags(text: &[u8]) -> bool
    ensures { result ≡ are_range_subtags (slice_split is_separator text.now) }
{
    text.split(|byte| is_separator(*byte))
        .all(|subtag| is_range_subtag(subtag))
}
