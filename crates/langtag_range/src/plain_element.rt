//! The quick way to read an element of a header that is written as browsers write it.
ghost use Rattle.std.specs.Prelude.{◌≡◌, ◌⊎◌, ◌∷◌, [], ◌++◌, ℕ, List, IfSome, IsTrue};
ghost use Rattle.langtag_range.specs.Definitions.{is_basic_range};
ghost use Rattle.langtag_range.specs.Wanted as spec;

use crate::split::len_before_either;
use crate::wanted::WantedRange;
use crate::wanted_element::is_wanted_range;

/// Returns the first range of a header and the string after its comma, if the header begins as browsers write it: with a
/// range, and perhaps a weight such as `;q=0.5`. Returns `None` for any other element, such as `de_CH.UTF-8`.
#[tactic(auto, using(std::proofs::lemmas::List::take_rest))]
pub(crate) fn plain_element(header: &[u8]) -> Option<(WantedRange<'_>, &[u8])>
    ensures first { IfSome result (λ found. spec.written_elements header.now
        ≡ spec.written_element found.0 ∷ spec.written_elements found.1.now) }
    ensures basic { IfSome result (λ found. IsTrue (is_basic_range (spec.hyphened found.0.bytes.now))) }
{
    let text = without_space(header);
    let len = len_before_either(text, b',', b';');
    let bytes = &text[..len];
    if !is_wanted_range(bytes) {
        return None;
    }
    let (weight, rest) = plain_weight(&text[len..])?;
    Some((WantedRange { bytes, weight }, rest))
}

/// Returns a header without the space at its start, if it has one.
#[tactic(auto, using(crate::proofs::PlainElements::space_before))]
fn without_space(header: &[u8]) -> &[u8]
    ensures { spec.written_elements result.now ≡ spec.written_elements header.now }
{
    match header {
        [b' ', text @ ..] => text,
        _ => header,
    }
}

/// Returns the weight of a range, given the string after the range, and the string after the next comma. Returns `None`
/// unless the weight is missing or has one decimal place, as in `;q=0.5`.
fn plain_weight(text: &[u8]) -> Option<(u32, &[u8])>
    ensures { IfSome result (λ found. (range : List ℕ) → IsTrue (is_basic_range (spec.hyphened range)) →
        spec.written_elements (range ++ text.now)
        ≡ record { range = range; weight = found.0 } ∷ spec.written_elements found.1.now) }
{
    match text {
        [
            b';',
            b'q',
            b'=',
            b'0',
            b'.',
            tenths @ b'0'..=b'9',
            left @ ..,
        ] => { Some((100 * u32::from(*tenths - b'0'), after_comma(left)?)) }
        _ => Some((1000, after_comma(text)?)),
    }
}

/// Returns the string after a comma at the start of a string, or an empty string if the string is empty.
fn after_comma(text: &[u8]) -> Option<&[u8]>
    ensures { IfSome result (λ rest. ((text.now ≡ []) × (rest.now ≡ [])) ⊎ (text.now ≡ 44 ∷ rest.now)) }
{
    match text {
        [] => Some(text),
        [b',', rest @ ..] => Some(rest),
        _ => None,
    }
}
