//! The subtags that may follow a primary language subtag (RFC 5646 section 2.2.2).
ghost use Rattle.std.specs.Prelude.{◌≡◌};
ghost use Rattle.langtag_language.specs.Decided as test;

use langtag_scan::{Subtags, is_extended};

/// Returns whether at most `room` subtags are left, and all of them are extended language subtags.
pub(crate) fn are_extended_within(room: usize, subtags: Subtags<'_>) -> bool
    ensures { result ≡ test.are_extended_within room subtags.entry }
{
    let mut free = room;
    for subtag in subtags {
        if free == 0 || !is_extended(subtag.as_bytes()) {
            return false;
        }
        free -= 1;
    }
    true
}
