//! Whether a tag or a range has the extension t (RFC 6497).
ghost use Rattle.std.specs.Prelude.{◌≡◌, ◌&&◌, IsTrue, false, not};
ghost use Rattle.langtag_range.specs.Definitions.{basic_text, hyphened, is_language_range, is_separator};
ghost use Rattle.langtag_choice.specs.Transformed as spec;

use langtag_range::{is_separator, split_at_either};
use langtag_scan::case_insensitive_eq;

/// Returns whether a range or a tag has the extension t, which translations by a machine have.
#[tactic(auto, using(crate::proofs::TransformedTexts::range_transformed))]
pub(crate) fn is_transformed(text: &[u8]) -> bool
    ensures own { result ≡ spec.is_transformed text.now }
    ensures range { IsTrue (is_language_range (hyphened text.now)) → result ≡ spec.is_transformed (basic_text text.now) }
{
    !is_short(text) && has_extension_t(text)
}

/// Returns `true` only if a string has two bytes or five, and no subtag of a single byte. This is quick, and most tags are
/// such as `en` or `en-US`.
fn is_short(text: &[u8]) -> bool
    ensures { IsTrue result → spec.is_transformed text.now ≡ false }
{
    match text {
        [a, b] => are_plain(*a, *b),
        [a, b, _, c, d] => are_all_plain((*a, *b), (*c, *d)),
        _ => false,
    }
}

/// Returns whether neither of two bytes is a separator.
fn are_plain(a: u8, b: u8) -> bool
    ensures { result ≡ (not (is_separator a) && not (is_separator b)) }
{
    !is_separator(a) && !is_separator(b)
}

/// Returns whether none of four bytes is a separator.
fn are_all_plain(first: (u8, u8), last: (u8, u8)) -> bool
    ensures { result ≡ ((not (is_separator first.0) && not (is_separator first.1)) && (not (is_separator last.0) && not (is_separator last.1))) }
{
    are_plain(first.0, first.1) && are_plain(last.0, last.1)
}

/// Returns whether a string has the subtag `t`, and no `x` before it.
#[tactic(auto, using(crate::proofs::TransformedTexts::next_subtag, crate::proofs::TransformedTexts::nothing_transformed, langtag_range::proofs::WantedTexts::shorter))]
fn has_extension_t(text: &[u8]) -> bool
    ensures { result ≡ spec.is_transformed text.now }
{
    let mut left = text;
    while !left.is_empty() {
        let (subtag, rest) = split_at_either(left, b'-', b'_');
        if case_insensitive_eq(b"x", subtag) {
            return false;
        }
        if case_insensitive_eq(b"t", subtag) {
            return true;
        }
        left = rest;
    }
    false
}
