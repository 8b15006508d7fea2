//! Whether a tag is written from right to left.
ghost use Rattle.std.specs.Prelude.{◌≡◌, false};
ghost use Rattle.langtag_scan.specs.Grammar.{IsTag};
ghost use Rattle.langtag_cldr.specs.Direction as spec;

use crate::tag::tag_of;
use langtag_likely::is_right_to_left;

/// Returns whether a tag is written from right to left, by its script or, if it has none, by its likely script: true
/// for he, pa-PK and az-Arab, false for ar-Latn, for und, for a private-use tag, and for a string that is not a tag.
#[unsafe(no_mangle)]
pub extern "C" fn langtag_is_right_to_left(bytes: &[u8]) -> bool
    ensures tag { IsTag bytes.now → result ≡ spec.is_right_to_left bytes.now }
    ensures no_tag { (IsTag bytes.now → ⊥) → result ≡ false }
{
    match tag_of(bytes) {
        Some(tag) => is_right_to_left(tag),
        None => false,
    }
}
