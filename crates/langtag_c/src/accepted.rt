//! A walk over the elements of an Accept-Language header (RFC 9110 section 12.5.4), without allocating.
ghost use Rattle.std.specs.Prelude.{◌≡◌, ◌↔◌, ◌≤◌, [], is_some, filter_map};
ghost use Rattle.langtag_scan.specs.Prelude.{list_all};
ghost use Rattle.langtag_match.specs.AcceptLanguage as spec;
ghost use Rattle.langtag_match.specs.Definitions.{element, items};
ghost use Rattle.langtag_match.specs.declared.accept_language_error.ElementPart.TheVariants.{Range, Weight};
ghost use Rattle.langtag_c.specs.Negotiation.{IsTrimmed, TakesBad, TakesElement, filled_items};
ghost use Rattle.langtag_c.specs.Spans.{HasBytes, IsWithin, span_text};

use crate::items::{next_item, number_of};
use crate::span::Span;
use langtag_match::element_at;
use langtag_range::trimmed_place;

/// Removes the first element from `rest`, which is the value of an Accept-Language header or the rest of it (RFC 9110
/// section 12.5.4). Returns an enum `langtag_accepted_answer`. Empty elements are skipped.
///
/// ```c
/// const char *header = "fr;q=0.3, de_CH, de;q=0.9";
/// size_t len = strlen(header);
/// langtag_span rest = {0, len}, range;
/// uint32_t answer, weight;
/// while ((answer = langtag_next_accepted(header, len, &rest, &range, &weight)) != LANGTAG_ACCEPTED_END)
///     if (answer == LANGTAG_ACCEPTED_RANGE)
///         printf("%.*s %u ", (int)range.len, header + range.start, (unsigned)weight); // fr 300 de 900
/// ```
///
/// `range` (out) is where the range is, and `weight` (out) its weight in thousandths: 1000 if none is given, and 0 for
/// "not acceptable". For a malformed element, `range` is everything between the commas without the spaces and tabs
/// around it, and `weight` is 0. The next call continues after that element. So the loop above skips malformed elements.
/// A strict program stops at a malformed element, and refuses the header.
///
/// The elements are returned in the order of the header. A lookup tries the greatest weight first, and ranges of equal
/// weight in the order of the header. So collect the ranges, and sort them by descending weight with a stable sort.
///
/// Returns `LANGTAG_ACCEPTED_END` if and only if only empty elements are left, or `rest` reaches beyond the string, and
/// then writes nothing.
#[tactic(auto, using(crate::proofs::LookUps::same_elements, crate::proofs::LookUps::same_good))]
#[unsafe(no_mangle)]
pub extern "C" fn langtag_next_accepted(
    bytes: &[u8],
    rest: &mut Span,
    range: &mut Span,
    weight: &mut u32,
) -> u32
    ensures few { result ≤ 3 }
    ensures end { result ≡ 0 ↔ (HasBytes bytes.now rest.old → filled_items (span_text bytes.now rest.old) ≡ []) }
    ensures element { result ≡ 1 → TakesElement bytes.now rest.old rest.new range.new weight.new }
    ensures bad_range { result ≡ 2 → TakesBad bytes.now rest.old rest.new range.new Range × (weight.new ≡ 0) }
    ensures bad_weight { result ≡ 3 → TakesBad bytes.now rest.old rest.new range.new Weight × (weight.new ≡ 0) }
    ensures nothing { result ≡ 0 → (rest.new ≡ rest.old) × (range.new ≡ range.old) × (weight.new ≡ weight.old) }

    // law: what `AcceptLanguage::lenient` reads, item by item
    ensures lenient { spec.elements (items bytes.now) ≡ filter_map element (filled_items bytes.now) }
    // law: what `AcceptLanguage::new` reads, item by item
    ensures strict { spec.are_good (items bytes.now) ≡ list_all (λ item. is_some (element item)) (filled_items bytes.now) }
{
    let Some(item) = next_item(bytes, rest) else {
        return 0;
    };
    match element_at(&bytes[item.start..item.start + item.len]) {
        Ok(element) => {
            *range = Span {
                start: item.start + element.start,
                len: element.weighted.range.as_str().len(),
            };
            *weight = element.weighted.weight;
            1
        }
        Err(part) => {
            *range = trimmed_span(bytes, item);
            *weight = 0;
            number_of(&part)
        }
    }
}

/// Returns the span of an item without the white space around it.
fn trimmed_span(bytes: &[u8], item: Span) -> Span
    requires { IsWithin bytes.now item }
    ensures { IsTrimmed bytes.now item result }
{
    let (start, end) = trimmed_place(&bytes[item.start..item.start + item.len]);
    Span {
        start: item.start + start,
        len: end - start,
    }
}
