//! Which strings are language ranges (RFC 4647 section 2).
ghost use Rattle.std.specs.Prelude.{◌≡◌};
ghost use Rattle.langtag_range.specs.Range as spec;

use langtag_scan::{Subtags, are_letters, is_private_subtag};

/// Returns whether a string is a language range, basic or extended.
pub fn is_language_range(text: &str) -> bool
    ensures { result ≡ spec.is_language_range text.now }
{
    let mut subtags = Subtags::new(text);
    let Some(first) = subtags.next() else {
        return false;
    };
    (first == "*" || is_first_subtag(first.as_bytes())) && are_range_subtags(subtags)
}

/// Returns whether a string is a basic language range.
pub fn is_basic_range(text: &str) -> bool
    ensures { result ≡ spec.is_basic_range text.now }
{
    if text == "*" {
        return true;
    }
    let mut subtags = Subtags::new(text);
    let Some(first) = subtags.next() else {
        return false;
    };
    is_first_subtag(first.as_bytes()) && are_basic_subtags(subtags)
}

/// Returns whether the bytes are 1 to 8 letters.
pub(crate) fn is_first_subtag(bytes: &[u8]) -> bool
    ensures { result ≡ spec.is_first_subtag bytes.now }
{
    !bytes.is_empty() && bytes.len() <= 8 && are_letters(bytes)
}

/// Returns whether each subtag is `*`, or 1 to 8 letters or digits.
fn are_range_subtags(mut subtags: Subtags<'_>) -> bool
    ensures { result ≡ spec.are_range_subtags subtags.entry }
{
    subtags.all(|subtag| is_range_subtag(subtag.as_bytes()))
}

/// Returns whether the bytes are `*`, or 1 to 8 letters or digits.
pub(crate) fn is_range_subtag(bytes: &[u8]) -> bool
    ensures { result ≡ spec.is_range_subtag bytes.now }
{
    matches!(bytes, [b'*']) || is_private_subtag(bytes)
}

/// Returns whether each subtag is 1 to 8 letters or digits.
fn are_basic_subtags(mut subtags: Subtags<'_>) -> bool
    ensures { result ≡ spec.are_basic_subtags subtags.entry }
{
    subtags.all(|subtag| is_private_subtag(subtag.as_bytes()))
}
