//! Extended filtering (RFC 4647 section 3.3.2).
ghost use Rattle.std.specs.Prelude.{◌≡◌, ◌↔◌, ◌∷◌, ℕ, List, IsTrue, true, false};
ghost use Rattle.langtag_range.specs.Extended as spec;

use langtag_scan::{Subtags, case_insensitive_eq};

/// Returns whether the first subtag of a range matches the first subtag of a tag, and the other subtags of the range
/// occur among the other subtags of the tag.
pub fn matches_extended(range: &str, tag: &str) -> bool
    ensures { IsTrue result ↔ spec.MatchesExtended range.now tag.now }
{
    let mut wanted = Subtags::new(range);
    let mut subtags = Subtags::new(tag);
    let (Some(first), Some(subtag)) = (wanted.next(), subtags.next()) else {
        return false;
    };
    matches_first(first, subtag) && stand_among(wanted, subtags)
}

/// Returns whether a subtag of a range is `*`, or equals a subtag of a tag, ignoring case.
fn matches_first(range: &str, subtag: &str) -> bool
    ensures { result ≡ spec.matches_subtag range.now subtag.now }
{
    range == "*" || case_insensitive_eq(range.as_bytes(), subtag.as_bytes())
}

/// Returns whether the subtags of a range occur among the subtags of a tag, in the same order. Each `*` in the range is
/// ignored. No single-character subtag of the tag may be skipped.
fn stand_among(wanted: Subtags<'_>, mut subtags: Subtags<'_>) -> bool
    ensures { IsTrue result ↔ spec.StandAmong (spec.without_stars wanted.entry) subtags.entry }
{
    for subtag in wanted {
        if subtag != "*" && !pass(&mut subtags, subtag) {
            return false;
        }
    }
    true
}

/// Reads subtags until one equals `wanted`, ignoring case, and then returns `true`. Returns `false` if it reads another
/// single-character subtag first, or if no subtags are left.
fn pass(subtags: &mut Subtags<'_>, wanted: &str) -> bool
    ensures found { result ≡ true → (more : List (List ℕ)) → spec.StandAmong more subtags.new
        ↔ spec.StandAmong (wanted.now ∷ more) subtags.old }
    ensures missed { result ≡ false → (more : List (List ℕ)) → spec.StandAmong (wanted.now ∷ more) subtags.old → ⊥ }
{
    while let Some(subtag) = subtags.next() {
        if case_insensitive_eq(wanted.as_bytes(), subtag.as_bytes()) {
            return true;
        }
        if subtag.len() == 1 {
            return false;
        }
    }
    false
}
