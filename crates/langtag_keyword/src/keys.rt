//! Which subtags of an extension are keys.
ghost use Rattle.std.specs.Prelude.{◌≡◌};
ghost use Rattle.langtag_keyword.specs.Keys.{opens_keyword};
ghost use Rattle.langtag_keyword.specs.Transform as spec;

/// An extension that has keys.
///
/// ```
/// use langtag_unicode::Keys;
///
/// Keys::Unicode.has(b"ca"); // true
/// Keys::Transform.has(b"ca"); // false
/// Keys::Transform.has(b"m0"); // true
/// ```
#[derive(Clone, Copy, Debug, Drop)]
pub enum Keys {
    /// `u`, whose keys have two characters (RFC 6067 section 2.1).
    Unicode,
    /// `t`, whose keys are a letter and a digit (RFC 6497 section 2.2).
    Transform,
}

impl Keys {
    /// Returns whether a subtag is a key of the extension: `Keys::Transform.has(b"m0")` is `true`.
    pub fn has(self, subtag: &[u8]) -> bool
        ensures is_key { result ≡ opens_keyword self subtag.now }
        ensures cloned { (keys copy : Keys) → ⟦<Keys as Clone>⟧.is_clone keys copy → copy ≡ keys }
        ensures clone_succeeds { (keys : Keys) → ⟦<Keys as Clone>⟧.is_infallible keys }
    {
        match self {
            Keys::Unicode => subtag.len() == 2,
            Keys::Transform => is_field_key(subtag),
        }
    }
}

/// Returns whether a subtag is a letter and a digit.
#[tactic(auto, unfolding(langtag_scan::specs::Class::is_letter, langtag_scan::specs::Class::is_digit))]
fn is_field_key(subtag: &[u8]) -> bool
    ensures { result ≡ spec.is_field_key subtag.now }
{
    match subtag {
        [letter, digit] => letter.is_ascii_alphabetic() && digit.is_ascii_digit(),
        _ => false,
    }
}
