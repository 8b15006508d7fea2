//! Which keys and values may be set.
ghost use Rattle.std.specs.Prelude.{◌≡◌};
ghost use Rattle.langtag_scan.specs.Grammar.{subtags};
ghost use Rattle.langtag_keyword.specs.Edit as spec;

use langtag_scan::{Subtags, is_extension_subtag};

/// Returns whether a string consists of a letter or a digit, and then a letter.
#[tactic(auto, unfolding(langtag_scan::specs::Class::is_letter, langtag_scan::specs::Class::is_digit))]
pub fn is_unicode_key(text: &[u8]) -> bool
    ensures { result ≡ spec.is_unicode_key text.now }
{
    match text {
        [first, second] => first.is_ascii_alphanumeric() && second.is_ascii_alphabetic(),
        _ => false,
    }
}

/// Returns the offset of the first subtag of a value that does not consist of three to eight letters or digits.
#[tactic(auto, using(crate::proofs::SubtagTexts::counted_subtags))]
pub fn invalid_type(value: &str) -> Option<usize>
    ensures { result ≡ spec.invalid_type (subtags value.now) }
{
    let mut offset = 0;
    for subtag in Subtags::new(value) {
        if !is_type(subtag.as_bytes()) {
            return Some(offset);
        }
        offset += subtag.len() + 1;
    }
    None
}

/// Returns whether a subtag consists of three to eight letters or digits.
fn is_type(subtag: &[u8]) -> bool
    ensures { result ≡ spec.is_type subtag.now }
{
    subtag.len() >= 3 && is_extension_subtag(subtag)
}
