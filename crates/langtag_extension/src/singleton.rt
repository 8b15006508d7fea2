//! The singleton, which begins an extension (RFC 5646 section 2.2.6).
ghost use Rattle.std.specs.Prelude.{◌≡◌, ◌==◌, ◌&&◌, ◌||◌, ◌∷◌, [], Some, IsTrue, IfOk, IfErr, is_ok, not};
ghost use Rattle.langtag_scan.specs.Prelude.{is_ascii_alphabetic, is_ascii_digit};
ghost use Rattle.langtag_scan.specs.Class as class;
ghost use Rattle.langtag_extension.specs.Spelling.{is_singleton_text};

use langtag_scan::is_singleton;
use std::convert::TryFrom;
use std::fmt;
use std::fmt::Debug;
use thiserror::Error;

/// The error for a byte, character or text that is not a singleton. It contains what was given.
///
/// ```
/// use langtag_extension::Singleton;
///
/// Singleton::new(b'x').err().map(|error| error.0); // Some(b'x')
/// ```
#[derive(Debug, Drop, Error)]
#[error("invalid extension identifier")]
#[error_bound(T: Debug + Drop)]
pub struct InvalidSingleton<T>(pub T);

/// The letter or digit, other than `x` and `X`, that begins an extension (RFC 5646 section 2.2.6), such as `u` in
/// `u-co-phonebk`.
///
/// It stores the exact byte, and compares and hashes by that byte: `u` and `U` begin the same extension, but are
/// different singletons.
///
/// ```
/// use langtag_extension::Singleton;
///
/// Singleton::new(b'u')?.unwrap(); // b'u'
/// Singleton::from_string("u")? == Singleton::new(b'U')?; // false
/// ```
#[derive(Clone, Copy, Debug, PartialEq, Eq, PartialOrd, Ord, Hash)]
pub struct Singleton {
    byte: u8,
    ghost in_class: { IsTrue (class.is_singleton byte) },
}

impl Singleton {
    ghost use Rattle.langtag_extension.specs.Compared.{SingletonsCompareByByte};
    ghost use Rattle.langtag_extension.specs.Text.{singleton_byte};

    /// Returns the singleton for a byte: `Singleton::new(b'u')` is `Ok`. Singletons compare and hash by their exact
    /// bytes.
    ///
    /// # Errors
    ///
    /// Returns the byte if it is not an ASCII letter or digit, or is `x` or `X`: `Singleton::new(b'x')` is
    /// `Err(InvalidSingleton(b'x'))`.
    #[tactic(auto, using(crate::proofs::Numbers::singleton_numbers))]
    pub fn new(c: u8) -> Result<Self, InvalidSingleton<u8>>
        ensures accepts { is_ok result ≡ class.is_singleton c }
        ensures by_number { is_ok result ≡ ((is_ascii_alphabetic c || is_ascii_digit c) && not ((c == 120) || (c == 88))) }
        ensures same_byte { IfOk result (λ singleton. singleton_byte singleton ≡ c) }
        ensures given_back { IfErr result (λ error. error.0 ≡ c) }

        ensures compared { SingletonsCompareByByte }
        ensures cloned { (singleton copy : Singleton) → ⟦<Singleton as Clone>⟧.is_clone singleton copy → copy ≡ singleton }
        ensures clone_succeeds { (singleton : Singleton) → ⟦<Singleton as Clone>⟧.is_infallible singleton }
    {
        if !is_singleton(c) {
            return Err(InvalidSingleton(c));
        }
        Ok(Singleton { byte: c })
    }

    /// Wraps a byte that is known to be a singleton, without checking it.
    pub(crate) fn from_checked(byte: u8) -> Self
        requires { IsTrue (class.is_singleton byte) }
        ensures { singleton_byte result ≡ byte }
    {
        Singleton { byte }
    }

    /// Returns the singleton for a string of one byte: `Singleton::from_string("u")` is `Ok`.
    ///
    /// # Errors
    ///
    /// Returns the string if it is not one byte, or if that byte is not a singleton: `Singleton::from_string("uu")` is
    /// `Err(InvalidSingleton("uu"))`.
    pub fn from_string(str: &str) -> Result<Self, InvalidSingleton<&str>>
        ensures accepts { is_ok result ≡ is_singleton_text str.now }
        ensures same_byte { IfOk result (λ singleton. str.now ≡ singleton_byte singleton ∷ []) }
        ensures given_back { IfErr result (λ error. error.0 ≡ str.entry) }
    {
        if let [c] = str.as_bytes()
            && let Ok(singleton) = Singleton::new(*c)
        {
            return Ok(singleton);
        }
        Err(InvalidSingleton(str))
    }

    /// Returns the byte, in its original case: `Singleton::new(b'U')?.unwrap()` is `b'U'`.
    pub fn unwrap(self) -> u8
        ensures same_byte { result ≡ singleton_byte self }
        ensures in_class { IsTrue (class.is_singleton result) }
    {
        self.byte
    }
}

impl TryFrom<u8> for Singleton {
    ghost use Rattle.langtag_extension.specs.Conversion.{ConvertsToSingleton};

    type Error = InvalidSingleton<u8>;

    ghost try_from_gives = { ConvertsToSingleton };

    fn try_from(c: u8) -> Result<Self, InvalidSingleton<u8>> {
        Singleton::new(c)
    }
}

impl TryFrom<char> for Singleton {
    ghost use Rattle.langtag_extension.specs.Conversion.{ConvertsToSingleton};

    type Error = InvalidSingleton<char>;

    ghost try_from_gives = { ConvertsToSingleton };

    #[tactic(auto, using(crate::proofs::ExtensionLookUp::singleton_is_ascii))]
    fn try_from(c: char) -> Result<Self, InvalidSingleton<char>> {
        if !c.is_ascii() {
            return Err(InvalidSingleton(c));
        }
        match Singleton::new(c as u8) {
            Ok(singleton) => Ok(singleton),
            Err(_) => Err(InvalidSingleton(c)),
        }
    }
}

impl fmt::Display for Singleton {
    ghost use Rattle.langtag_extension.specs.Text.{singleton_byte};

    ghost output = { λ singleton. Some (singleton_byte singleton ∷ []) };

    #[tactic(auto, using(crate::proofs::ExtensionLookUp::encode_singleton))]
    fn fmt<W: fmt::Write>(&self, f: &mut fmt::Formatter<W>) -> fmt::Result {
        f.write_char(self.byte as char)
    }
}
