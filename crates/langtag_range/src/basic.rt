//! Basic filtering (RFC 4647 section 3.3.1).
ghost use Rattle.std.specs.Prelude.{◌≡◌, ◌↔◌, IsTrue};
ghost use Rattle.langtag_range.specs.Basic as spec;

use langtag_scan::case_insensitive_eq;

/// Returns whether a range is `*`, equals a tag, or equals the string before some hyphen of a tag. Case is ignored.
pub fn matches_basic(range: &str, tag: &str) -> bool
    ensures { IsTrue result ↔ spec.MatchesBasic range.now tag.now }
{
    range == "*" || begins_with(tag.as_bytes(), range.as_bytes())
}

/// Returns whether a tag equals a range, or begins with the range followed by a hyphen. Case is ignored.
#[tactic(auto, using(crate::proofs::Among::begins_before, crate::proofs::Among::begins_shown))]
fn begins_with(tag: &[u8], range: &[u8]) -> bool
    ensures { IsTrue result ↔ spec.BeginsWithRange range.now tag.now }
{
    if range.len() > tag.len() || !case_insensitive_eq(range, &tag[..range.len()]) {
        return false;
    }
    range.len() == tag.len() || tag[range.len()] == b'-'
}
