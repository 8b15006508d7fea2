//! A walk over the items of an Accept-Language header (RFC 9110 section 5.6.1.2).
ghost use Rattle.std.specs.Prelude.{◌≡◌, ◌↔◌, ◌<◌, ◌≤◌, [], IfSome, None};
ghost use Rattle.langtag_match.specs.declared.accept_language_error.ElementPart.TheVariants.{Range, Weight};
ghost use Rattle.langtag_range.specs.Definitions.{is_comma};
ghost use Rattle.langtag_c.specs.Negotiation.{TakesItem, filled_items};
ghost use Rattle.langtag_c.specs.Spans.{HasBytes, IsWithin, span_text};

use crate::span::Span;
use langtag_match::ElementPart;
use langtag_range::{is_empty_element, len_before};

/// Removes the first item that is not empty from a list, together with the comma after it.
#[tactic(auto, using(crate::proofs::LookUps::nothing_filled))]
pub(crate) fn next_item(header: &[u8], rest: &mut Span) -> Option<Span>
    ensures within { IfSome result (IsWithin header.now) }
    ensures taken { IfSome result (TakesItem header.now rest.old rest.new) }
    ensures some { IfSome result (λ _. HasBytes header.now rest.old) }
    ensures none { result ≡ None → IsWithin header.now rest.old → filled_items (span_text header.now rest.old) ≡ [] }
    ensures nothing { result ≡ None → rest.new ≡ rest.old }
    ensures shorter { IfSome result (λ _. rest.new.len < rest.old.len) }
    ensures left { IfSome result (λ _. IsWithin header.now rest.new) }
{
    let mut left = *rest;
    while let Some(list) = left.of(header) {
        let len = len_before(list, b',');
        let item = left.take_first(len);
        if !is_empty_element(&list[..len]) {
            *rest = left;
            return Some(item);
        }
    }
    None
}

/// Returns the number of the part that is malformed.
pub(crate) fn number_of(part: &ElementPart) -> u32
    ensures range { result ≡ 2 ↔ part.now ≡ Range }
    ensures weight { result ≡ 3 ↔ part.now ≡ Weight }
    ensures few { (2 ≤ result) × (result ≤ 3) }
{
    match part {
        ElementPart::Range => 2,
        ElementPart::Weight => 3,
    }
}

pub(crate) fn is_comma(byte: u8) -> bool
    ensures { result ≡ is_comma byte }
{
    byte == b','
}
