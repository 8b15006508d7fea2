//! The tag that lookup finds for an Accept-Language header (RFC 9110 section 12.5.4, RFC 4647 section 3.4), without
//! allocating.
ghost use Rattle.std.specs.Prelude.{◌≡◌, ◌≤◌, true, false, IsTrue, None, MatchOption, length, position};
ghost use Rattle.langtag_scan.specs.Grammar.{option_map_or, are_alike};
ghost use Rattle.langtag_match.specs.AcceptLanguage.{are_good, bad_part, elements, is_good};
ghost use Rattle.langtag_range.specs.Definitions.{is_comma, items, fallbacks};
ghost use Rattle.langtag_match.specs.Text.{language_range_text};
ghost use Rattle.langtag_c.specs.LookUp.{IsBadAt, IsLookedUp, first_index_alike, index_alike};
ghost use Rattle.langtag_c.specs.TagsAt.{tag_at, tags_at};
ghost use Rattle.langtag_c.specs.Heaviest.{heaviest};

use crate::items::{is_comma, next_item};
use crate::span::Span;
use crate::spanned::{bytes_in, tag_in};
use langtag_match::{ElementPart, LanguageRange, element_at};
use langtag_range::{is_empty_element, trimmed_place};
use langtag_scan::case_insensitive_eq;

/// Returns the index of the tag that lookup finds for an Accept-Language header, or the number of spans if it finds
/// none. Malformed elements, and spans that are not tags, are skipped.
#[tactic(auto, using(crate::proofs::LookUps::is_looked_up, crate::proofs::LookUps::looked_up_within))]
pub(crate) fn index_for_header(header: &[u8], bytes: &[u8], spans: &[Span]) -> usize
    ensures found { IsLookedUp header.now bytes.now spans.now result }
    ensures within { result ≤ length spans.now }
{
    heaviest_found(header, bytes, spans).unwrap_or(spans.len())
}

/// Returns the index of the tag for the element of the greatest weight that finds a tag. If several elements have
/// this weight, the first counts.
#[tactic(auto, using(crate::proofs::LookUps::whole_elements))]
fn heaviest_found(header: &[u8], bytes: &[u8], spans: &[Span]) -> Option<usize>
    ensures { result ≡ heaviest (tags_at bytes.now spans.now) (elements (items header.now)) None 0 }
{
    let mut rest = Span {
        start: 0,
        len: header.len(),
    };
    let mut found = None;
    let mut weight = 0;
    while let Some(item) = next_item(header, &mut rest) {
        let Ok(element) = element_at(&header[item.start..item.start + item.len]) else {
            continue;
        };
        if element.weighted.weight <= weight {
            continue;
        }
        if let Some(index) = tag_for(element.weighted.range, bytes, spans) {
            found = Some(index);
            weight = element.weighted.weight;
        }
    }
    found
}

/// Returns the index of the tag that lookup finds for a range.
fn tag_for(range: LanguageRange<'_>, bytes: &[u8], spans: &[Span]) -> Option<usize>
    ensures { result ≡ first_index_alike (tags_at bytes.now spans.now) (fallbacks (language_range_text range.entry)) }
{
    for fallback in range.fallbacks() {
        if let Some(index) = index_alike(fallback.as_str().as_bytes(), bytes, spans) {
            return Some(index);
        }
    }
    None
}

/// Returns the index of the first tag that equals a string, ignoring case.
fn index_alike(text: &[u8], bytes: &[u8], spans: &[Span]) -> Option<usize>
    ensures { result ≡ index_alike (tags_at bytes.now spans.now) text.now }
{
    first_alike(bytes, spans, text)
}

/// Returns the index of the first span that is a tag and equals a string, ignoring case.
fn first_alike(bytes: &[u8], spans: &[Span], text: &[u8]) -> Option<usize>
    ensures { result ≡ position (λ span. option_map_or (λ tag. are_alike tag text.now) (tag_at bytes.now span) false) spans.now }
{
    spans
        .iter()
        .position(|span| is_tag_alike(bytes, *span, text))
}

/// Returns whether a span is a tag and equals a string, ignoring case.
fn is_tag_alike(bytes: &[u8], span: Span, text: &[u8]) -> bool
    ensures { result ≡ option_map_or (λ tag. are_alike tag text.now) (tag_at bytes.now span) false }
{
    case_insensitive_eq(bytes_in(bytes, span), text) && tag_in(bytes, span).is_some()
}

/// Returns the first malformed element of a header, and which part of it is malformed.
pub(crate) fn first_bad(header: &[u8]) -> Option<(Span, ElementPart)>
    ensures { MatchOption result (IsTrue (are_good (items header.now))) (λ found. IsBadAt header.now found.0 found.1) }
{
    let mut start = 0;
    for item in header.split(|byte| is_comma(*byte)) {
        if let Some(part) = bad_part(item) {
            let (first, end) = trimmed_place(item);
            let span = Span {
                start: start + first,
                len: end - first,
            };
            return Some((span, part));
        }
        start += item.len() + 1;
    }
    None
}

/// Returns which part of an item is malformed, or `None` if the item is empty or an element.
fn bad_part(item: &[u8]) -> Option<ElementPart>
    ensures { MatchOption result (is_good item.now ≡ true) (λ part. (is_good item.now ≡ false) × (part ≡ bad_part item.now)) }
{
    match element_at(item) {
        Err(part) if !is_empty_element(item) => Some(part),
        _ => None,
    }
}
