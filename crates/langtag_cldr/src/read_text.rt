//! Language ranges as a lookup reads them: `_` is read as `-`, and each `-*` is left out.
ghost use Rattle.std.specs.Prelude.{◌≡◌, ◌≤◌, IsTrue, length};
ghost use Rattle.langtag_scan.specs.Grammar.{are_alike};
ghost use Rattle.langtag_range.specs.Definitions.{basic_text, begins_with_wildcard, hyphened, hyphened_byte};
ghost use Rattle.langtag_cldr.specs.Ranges as spec;

use langtag_scan::into_smallcase;

/// Returns whether a range, with `_` read as `-` and without each `-*`, equals a string, ignoring case.
pub fn are_alike(range: &[u8], text: &[u8]) -> bool
    ensures { result ≡ are_alike (basic_text range.now) text.now }
{
    let (left, rest) = after_common(range, text);
    left.is_empty() && rest.is_empty()
}

/// Returns what remains of a range and of a string after their common beginning.
#[tactic(auto, using(crate::proofs::CommonTexts::common_next, crate::proofs::CommonTexts::common_apart, crate::proofs::CommonTexts::common_end))]
pub fn after_common<'a, 't>(range: &'a [u8], text: &'t [u8]) -> (&'a [u8], &'t [u8])
    ensures left { (basic_text result.0.now, result.1.now) ≡ spec.after_common (basic_text range.now) text.now }
    ensures plain { spec.BeginsPlain result.0.now }
{
    let mut left = without_stars(range);
    let mut rest = text;
    while let ([first, after_first @ ..], [byte, after_byte @ ..]) = (left, rest) {
        if into_smallcase(hyphened(*first)) != into_smallcase(*byte) {
            break;
        }
        left = without_stars(after_first);
        rest = after_byte;
    }
    (left, rest)
}

/// Returns the length of a range without each `-*`.
#[tactic(auto, using(crate::proofs::CommonTexts::byte_off, crate::proofs::CommonTexts::nothing_read, crate::proofs::CommonTexts::length_read))]
pub fn basic_len(range: &[u8]) -> usize
    ensures { result ≡ length (basic_text range.now) }
{
    let mut len = 0;
    let mut left = without_stars(range);
    while let [_, rest @ ..] = left {
        len += 1;
        left = without_stars(rest);
    }
    len
}

/// Returns a range without each `-*` at its start.
#[tactic(auto, using(crate::proofs::CommonTexts::star_off))]
pub(crate) fn without_stars(range: &[u8]) -> &[u8]
    ensures same { basic_text result.now ≡ basic_text range.now }
    ensures within { length result.now ≤ length range.now }
    ensures plain { spec.BeginsPlain result.now }
{
    let mut left = range;
    while begins_with_star(left) {
        left = &left[2..];
    }
    left
}

/// Returns whether a range begins with `-*` or `_*`.
fn begins_with_star(range: &[u8]) -> bool
    ensures star { result ≡ begins_with_wildcard (hyphened range.now) }
    ensures long { IsTrue result → 2 ≤ length range.now }
{
    matches!(range, [b'-' | b'_', b'*', ..])
}

/// Returns `-` for `_`, and any other byte unchanged.
fn hyphened(byte: u8) -> u8
    ensures { result ≡ hyphened_byte byte }
{
    if byte == b'_' { b'-' } else { byte }
}
