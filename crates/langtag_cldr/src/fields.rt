//! The string of a field, which is empty if the field is absent or unknown.
ghost use Rattle.std.specs.Prelude.{◌≡◌};
ghost use Rattle.langtag_cldr.specs.Definitions.{known, or_other};

use langtag_scan::case_insensitive_eq;

/// Returns the first string, or the second string if the first is empty.
pub fn or_other<'a>(text: &'a [u8], other: &'a [u8]) -> &'a [u8]
    ensures { result.now ≡ or_other text.now other.now }
{
    if text.is_empty() { other } else { text }
}

/// Returns a string, or the empty string if it is the code for an unknown field.
pub fn known<'a>(unknown: &[u8], text: &'a [u8]) -> &'a [u8]
    ensures { result.now ≡ known unknown.now text.now }
{
    if case_insensitive_eq(unknown, text) {
        b""
    } else {
        text
    }
}
