//! Comparing ranges with tags: in a range, `_` is read as `-`, and each `-*` is left out.
ghost use Rattle.std.specs.Prelude.{◌≡◌, ◌&&◌, length, take, drop};
ghost use Rattle.langtag_scan.specs.Grammar.{are_alike};
ghost use Rattle.langtag_range.specs.Definitions.{ends_subtag, is_star, basic_text};

use langtag_cldr::{after_common, are_alike};

/// Returns whether a range is `*`.
#[tactic(auto, using(crate::proofs::FarTags::star_read))]
pub(crate) fn is_star(range: &[u8]) -> bool
    ensures { result ≡ is_star (basic_text range.now) }
{
    are_alike(range, b"*")
}

/// Returns whether a range begins with the whole string of a tag, ignoring case.
pub(crate) fn starts(range: &[u8], tag: &[u8]) -> bool
    ensures { result ≡ are_alike (take (length tag.now) (basic_text range.now)) tag.now }
{
    let (_, rest) = after_common(range, tag);
    rest.is_empty()
}

/// Returns whether a tag equals a range, or begins with the range and a hyphen.
pub(crate) fn begins(range: &[u8], tag: &[u8]) -> bool
    ensures { result ≡ (are_alike (basic_text range.now) (take (length (basic_text range.now)) tag.now)
        && ends_subtag (drop (length (basic_text range.now)) tag.now)) }
{
    let (left, rest) = after_common(range, tag);
    left.is_empty() && ends_subtag(rest)
}

/// Returns whether the rest of a tag is empty or begins with a hyphen.
pub(crate) fn ends_subtag(rest: &[u8]) -> bool
    ensures { result ≡ ends_subtag rest.now }
{
    matches!(rest, [] | [b'-', ..])
}
