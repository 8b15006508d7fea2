//! An element of an Accept-Language header: a language range, and a weight (RFC 9110 section 12.5.4).
ghost use Rattle.std.specs.Prelude.{◌≡◌, ◌≤◌, IsTrue, Some, None, IfOk, IfErr, MatchOption, length, false};
ghost use Rattle.langtag_scan.specs.Prelude.{position_or_len};
ghost use Rattle.langtag_match.specs.AcceptLanguage as spec;
ghost use Rattle.langtag_range.specs.Definitions.{element, is_semicolon, weight_of, is_basic_range};
ghost use Rattle.langtag_match.specs.Text.{language_range_text, weighted_range_text};

use crate::accept_language_error::ElementPart;
use crate::language_range::LanguageRange;
use crate::weighted_range::WeightedRange;
use langtag_range::{is_basic_range, len_before, trimmed_place, weight_of};

/// An element of a header, and the offset of its range.
///
/// ```
/// use langtag_match::element_at;
///
/// let element = element_at(b" fr;q=0.5").ok();
/// element.map(|element| (element.start, element.weighted.weight)); // Some((1, 500))
/// ```
#[derive(Debug, Drop)]
pub struct Element<'a> {
    /// The number of bytes before the range, which are spaces and tabs.
    pub start: usize,
    /// The range and its weight.
    pub weighted: WeightedRange<'a>,
}

/// A malformed element of a header. The fields are those of the error `AcceptLanguageError::BadElement`.
#[derive(Drop)]
pub(crate) struct BadElement {
    pub index: usize,
    pub offset: usize,
    pub part: ElementPart,
}

/// Parses the string between two commas of an Accept-Language header (RFC 9110 section 12.5.4). In ` fr;q=0.5` the
/// range is `fr`, which begins at 1, and the weight is 500. The default weight is 1000. The bytes need not be UTF-8.
///
/// # Errors
///
/// Returns the part that is malformed if the string is not an element: the range in `fr_FR`, the weight in `fr;q=2`. If
/// both are malformed, or if the string is empty or only white space, the error is the range. See
/// [`is_empty_element`](langtag_range::is_empty_element).
///
/// ```
/// use langtag_match::element_at;
///
/// let element = element_at(b" fr;q=0.5").ok();
/// element.map(|it| (it.start, it.weighted.range.as_str(), it.weighted.weight)); // Some((1, "fr", 500))
/// ```
#[tactic(auto, unfolding(langtag_range::specs::Element::element, crate::specs::AcceptLanguage::bad_part))]
pub fn element_at(item: &[u8]) -> Result<Element<'_>, ElementPart>
    ensures read { IfOk result (λ found. element item.now ≡ Some (spec.reading found.weighted)) }
    ensures place { IfOk result (λ found. spec.IsRangePlace item.now (weighted_range_text found.weighted) found.start) }
    ensures none { IfErr result (λ part. element item.now ≡ None) }
    ensures bad { IfErr result (λ part. part ≡ spec.bad_part item.now) }
{
    let end = len_before(item, b';');
    let before = &item[..end];
    let (start, stop) = trimmed_place(before);
    let Some(range) = basic_range(&before[start..stop]) else {
        return Err(ElementPart::Range);
    };
    let Some(weight) = weight_after(item, end) else {
        return Err(ElementPart::Weight);
    };
    let weighted = WeightedRange { range, weight };
    Ok(Element { start, weighted })
}

/// Returns the weight after the first `;`, or 1000 if there is no `;`.
#[tactic(auto, using(langtag_range::proofs::Places::any_at_first, langtag_range::proofs::Places::none_at_length, std::proofs::lemmas::List::take_rest))]
fn weight_after(item: &[u8], semicolon: usize) -> Option<u32>
    requires within { semicolon ≤ length item.now }
    requires first { semicolon ≡ position_or_len is_semicolon item.now }
    ensures { result ≡ weight_of item.now }
{
    if semicolon == item.len() {
        return Some(1000);
    }
    let text = &item[semicolon + 1..];
    let (start, end) = trimmed_place(text);
    weight_of(&text[start..end])
}

/// Returns the bytes as a basic language range, or `None` if they are not a basic language range.
#[tactic(auto, using(langtag_range::proofs::BasicForms::basic_ranges, langtag_range::proofs::BasicForms::utf8_basic))]
fn basic_range(bytes: &[u8]) -> Option<LanguageRange<'_>>
    ensures { MatchOption result (is_basic_range bytes.now ≡ false)
        (λ range. (language_range_text range ≡ bytes.now) × IsTrue (is_basic_range bytes.now)) }
{
    let text = std::str::from_utf8(bytes).ok()?;
    if !is_basic_range(text) {
        return None;
    }
    Some(LanguageRange::from_checked(text))
}
