//! A subtag of a private use part (RFC 5646 section 2.2.7).
ghost use Rattle.std.specs.Prelude.{◌≡◌, ◌&&◌, ◌||◌, length, Some, IsTrue, IfOk, IfErr, is_ok, string_bytes};
ghost use Rattle.langtag_scan.specs.Grammar.{is_ascii_alphabetic, is_ascii_digit, is_in_range};
ghost use Rattle.langtag_scan.specs.Grammar.{list_all, are_alike, is_private_subtag};

use langtag_scan::{Caseless, is_private_subtag};
use std::alloc::{AllocError, Global};
use std::fmt;
use std::fmt::Debug;
use thiserror::Error;

/// The error for a string that is not a private use subtag. It contains the string.
///
/// ```
/// use langtag_private::PrivateUseSubtag;
///
/// let error = PrivateUseSubtag::new("").err();
/// error.map(|error| error.0); // Some("")
/// ```
#[derive(Debug, Drop, Error)]
#[error("invalid private use subtag")]
#[error_bound(T: Debug + Drop)]
pub struct InvalidPrivateUseSubtag<T>(pub T);

/// A private use subtag (RFC 5646 section 2.2.7): one to eight letters and digits, such as `twain` in `en-x-twain`.
///
/// Two private use subtags are equal if their strings differ only in the case of ASCII letters, such as `twain` and
/// `TWAIN`.
///
/// ```
/// use langtag_private::PrivateUseSubtag;
///
/// let subtag = PrivateUseSubtag::new("twain")?;
/// subtag.as_str(); // "twain"
/// subtag == PrivateUseSubtag::new("TWAIN")?; // true
/// ```
#[derive(Clone, Copy, Debug, PartialEq, Eq, PartialOrd, Ord, Hash)]
pub struct PrivateUseSubtag<'a> {
    text: Caseless<&'a str>,
    ghost in_class: { IsTrue (is_private_subtag text.0.now) },
}

impl<'a> PrivateUseSubtag<'a> {
    ghost use Rattle.langtag_private.specs.Compared.{PrivateUseSubtagsCompareByCase};
    ghost use Rattle.langtag_private.specs.Text.{private_use_subtag_text, private_use_subtag_buf_text};

    /// Parses a string as a private use subtag: `PrivateUseSubtag::new("twain")` is `Ok`.
    ///
    /// # Errors
    ///
    /// Returns the string if it is not one to eight letters and digits: `PrivateUseSubtag::new("a-b")` is
    /// `Err(InvalidPrivateUseSubtag("a-b"))`.
    #[tactic(auto, using(crate::proofs::Numbers::private_subtag_numbers))]
    pub fn new(text: &'a str) -> Result<PrivateUseSubtag<'a>, InvalidPrivateUseSubtag<&'a str>>
        ensures accepts { is_ok result ≡ is_private_subtag text.now }
        ensures by_number { is_ok result ≡
            (is_in_range 1 8 (length text.now) && list_all (λ b. is_ascii_alphabetic b || is_ascii_digit b) text.now) }
        ensures same_text { IfOk result (λ subtag. private_use_subtag_text subtag ≡ text.now) }
        ensures given_back { IfErr result (λ error. error.0 ≡ text.entry) }
    {
        if !is_private_subtag(text.as_bytes()) {
            return Err(InvalidPrivateUseSubtag(text));
        }
        Ok(PrivateUseSubtag::from_checked(text))
    }

    /// Wraps a string that is known to be a private use subtag, without checking it.
    /// `PrivateUseSubtag::from_checked(subtag.as_str())` is equal to `subtag`.
    pub fn from_checked(text: &'a str) -> PrivateUseSubtag<'a>
        requires { IsTrue (is_private_subtag text.now) }
        ensures { private_use_subtag_text result ≡ text.now }
    {
        PrivateUseSubtag {
            text: Caseless(text),
        }
    }

    /// Returns the string, in its original case: `PrivateUseSubtag::new("TWAIN")?.as_str()` is `"TWAIN"`.
    pub fn as_str(&self) -> &'a str
        ensures same_text { result.now ≡ private_use_subtag_text self.now }
        ensures in_class { IsTrue (is_private_subtag result.now) }
    {
        self.text.0
    }

    /// Returns the string as bytes: `PrivateUseSubtag::new("TWAIN")?.as_bytes()` is `b"TWAIN"`.
    pub fn as_bytes(&self) -> &'a [u8]
        ensures { result.now ≡ private_use_subtag_text self.now }
    {
        self.as_str().as_bytes()
    }

    /// Returns whether another string equals this string, ignoring the case of ASCII letters:
    /// `PrivateUseSubtag::new("twain")?.eq_str("TWAIN")` is `true`. Comparisons and hashes also ignore case.
    #[tactic(auto, using(langtag_scan::proofs::CaseOrder::bytes_ends_first, langtag_scan::proofs::CaseLaw::alike_private_subtag))]
    pub fn eq_str(&self, other: &str) -> bool
        ensures test { result ≡ are_alike (private_use_subtag_text self.now) other.now }
        ensures in_class { IsTrue result → IsTrue (is_private_subtag other.now) }

        ensures compared { PrivateUseSubtagsCompareByCase }
        ensures cloned { (copy : PrivateUseSubtag) → ⟦<PrivateUseSubtag<'a> as Clone>⟧.is_clone self.now copy → copy ≡ self.now }
        ensures clone_succeeds { ⟦<PrivateUseSubtag<'a> as Clone>⟧.is_infallible self.now }
    {
        self.text == Caseless(other)
    }

    /// Copies the string into an owned value: `PrivateUseSubtag::new("TWAIN")?.try_to_owned(alloc)?.as_str()` is
    /// `"TWAIN"`.
    ///
    /// # Errors
    ///
    /// Returns an error if allocation fails.
    pub fn try_to_owned(&self, alloc: Global) -> Result<PrivateUseSubtagBuf, AllocError>
        ensures { IfOk result (λ owned. private_use_subtag_buf_text owned ≡ private_use_subtag_text self.now) }
    {
        let text = String::from_str(alloc, self.as_str())?;
        Ok(PrivateUseSubtagBuf {
            text: Caseless(text),
        })
    }
}

impl fmt::Display for PrivateUseSubtag<'_> {
    ghost use Rattle.langtag_private.specs.Text.{private_use_subtag_text};

    ghost output = { λ subtag. Some (private_use_subtag_text subtag) };

    fn fmt<W: fmt::Write>(&self, f: &mut fmt::Formatter<W>) -> fmt::Result {
        f.write_str(self.as_str())
    }
}

/// A private use subtag that owns its text.
///
/// ```
/// use langtag_private::PrivateUseSubtag;
///
/// let owned = PrivateUseSubtag::new("twain")?.try_to_owned(alloc)?;
/// owned.as_private_use_subtag() == PrivateUseSubtag::new("TWAIN")?; // true
/// owned.into_string().as_str(); // "twain"
/// ```
#[derive(Debug, Drop, PartialEq, Eq, PartialOrd, Ord, Hash)]
pub struct PrivateUseSubtagBuf {
    text: Caseless<String>,
    ghost in_class: { IsTrue (is_private_subtag (string_bytes text.0)) },
}

impl PrivateUseSubtagBuf {
    ghost use Rattle.langtag_private.specs.Compared.{PrivateUseSubtagBufsCompareByCase};
    ghost use Rattle.langtag_private.specs.Text.{private_use_subtag_text, private_use_subtag_buf_text};
    ghost use Rattle.langtag_private.specs.Text.{private_use_subtag_buf_string};

    /// Parses a `String` as a subtag and keeps it, without copying.
    ///
    /// # Errors
    ///
    /// Returns the same `String` if it is not one to eight letters and digits, such as `a-b`.
    ///
    /// ```
    /// use langtag_private::PrivateUseSubtagBuf;
    /// use std::str::FromStr;
    ///
    /// PrivateUseSubtagBuf::new(String::from_str(alloc, "twain")?)?.as_str(); // "twain"
    /// PrivateUseSubtagBuf::new(String::from_str(alloc, "a-b")?).is_err(); // true
    /// ```
    pub fn new(text: String) -> Result<PrivateUseSubtagBuf, InvalidPrivateUseSubtag<String>>
        ensures accepts { is_ok result ≡ is_private_subtag (string_bytes text) }
        ensures same_text { IfOk result (λ subtag. private_use_subtag_buf_text subtag ≡ string_bytes text) }
        ensures same_string { IfOk result (λ subtag. private_use_subtag_buf_string subtag ≡ text) }
        ensures given_back { IfErr result (λ error. error.0 ≡ text) }
    {
        if !is_private_subtag(text.as_bytes()) {
            return Err(InvalidPrivateUseSubtag(text));
        }
        Ok(PrivateUseSubtagBuf {
            text: Caseless(text),
        })
    }

    /// Borrows the subtag: `PrivateUseSubtag::new("TWAIN")?.try_to_owned(alloc)?.as_private_use_subtag().as_str()` is
    /// `"TWAIN"`.
    #[tactic(auto, using(langtag_scan::proofs::CaseOrder::bytes_ends_first))]
    pub fn as_private_use_subtag(&self) -> PrivateUseSubtag<'_>
        ensures same_text { private_use_subtag_text result ≡ private_use_subtag_buf_text self.now }

        ensures compared { PrivateUseSubtagBufsCompareByCase }
    {
        PrivateUseSubtag::from_checked(self.as_str())
    }

    /// Returns the string, in its original case: `PrivateUseSubtag::new("TWAIN")?.try_to_owned(alloc)?.as_str()` is
    /// `"TWAIN"`.
    pub fn as_str(&self) -> &str
        ensures same_text { result.now ≡ private_use_subtag_buf_text self.now }
        ensures in_class { IsTrue (is_private_subtag result.now) }
    {
        self.text.0.as_str()
    }

    /// Returns the `String`, without copying it: `PrivateUseSubtag::new("TWAIN")?.try_to_owned(alloc)?.into_string()`
    /// is `"TWAIN"`.
    pub fn into_string(self) -> String
        ensures same_text { string_bytes result ≡ private_use_subtag_buf_text self }
        ensures same_string { result ≡ private_use_subtag_buf_string self }
        ensures in_class { IsTrue (is_private_subtag (string_bytes result)) }
    {
        self.text.0
    }
}

impl fmt::Display for PrivateUseSubtagBuf {
    ghost use Rattle.langtag_private.specs.Text.{private_use_subtag_buf_text};

    ghost output = { λ subtag. Some (private_use_subtag_buf_text subtag) };

    fn fmt<W: fmt::Write>(&self, f: &mut fmt::Formatter<W>) -> fmt::Result {
        f.write_str(self.as_str())
    }
}
