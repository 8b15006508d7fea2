//! The primary language subtag (RFC 5646 section 2.2.1).
ghost use Rattle.std.specs.Prelude.{◌≡◌, ◌&&◌, length, Some, IsTrue, IfOk, IfErr, is_ok, string_bytes};
ghost use Rattle.langtag_scan.specs.Grammar.{is_ascii_alphabetic, is_in_range, list_all, are_alike, is_primary};

use langtag_scan::{Caseless, is_primary};
use std::alloc::{AllocError, Global};
use std::fmt;
use std::fmt::Debug;
use thiserror::Error;

/// The error for a string that is not a primary language subtag. It contains the string.
///
/// ```
/// use langtag_language::PrimaryLanguage;
///
/// let error = PrimaryLanguage::new("f").err();
/// error.map(|error| error.0); // Some("f")
/// ```
#[derive(Debug, Drop, Error)]
#[error("invalid primary language")]
#[error_bound(T: Debug + Drop)]
pub struct InvalidPrimaryLanguage<T>(pub T);

/// A primary language subtag (RFC 5646 section 2.2.1): two to eight letters, such as `fr`.
///
/// Two primary language subtags are equal if their strings differ only in the case of ASCII letters, such as `fr` and
/// `FR`.
///
/// ```
/// use langtag_language::PrimaryLanguage;
///
/// let language = PrimaryLanguage::new("fr")?;
/// language.as_str(); // "fr"
/// language == PrimaryLanguage::new("FR")?; // true
/// ```
#[derive(Clone, Copy, Debug, PartialEq, Eq, PartialOrd, Ord, Hash)]
pub struct PrimaryLanguage<'a> {
    text: Caseless<&'a str>,
    ghost in_class: { IsTrue (is_primary text.0.now) },
}

impl<'a> PrimaryLanguage<'a> {
    ghost use Rattle.langtag_language.specs.Compared.{PrimaryLanguagesCompareByCase};
    ghost use Rattle.langtag_language.specs.Text.{primary_language_text, primary_language_buf_text};

    /// Parses a string as a primary language subtag: `PrimaryLanguage::new("fr")` is `Ok`.
    ///
    /// # Errors
    ///
    /// Returns the string if it is not two to eight letters: `PrimaryLanguage::new("f")` is
    /// `Err(InvalidPrimaryLanguage("f"))`.
    #[tactic(auto, using(crate::proofs::Numbers::primary_numbers))]
    pub fn new(text: &'a str) -> Result<PrimaryLanguage<'a>, InvalidPrimaryLanguage<&'a str>>
        ensures accepts { is_ok result ≡ is_primary text.now }
        ensures by_number { is_ok result ≡ (is_in_range 2 8 (length text.now) && list_all is_ascii_alphabetic text.now) }
        ensures same_text { IfOk result (λ primary. primary_language_text primary ≡ text.now) }
        ensures given_back { IfErr result (λ error. error.0 ≡ text.entry) }
    {
        if !is_primary(text.as_bytes()) {
            return Err(InvalidPrimaryLanguage(text));
        }
        Ok(PrimaryLanguage::from_checked(text))
    }

    /// Wraps a string that is known to be a primary language subtag, without checking it.
    /// `PrimaryLanguage::from_checked(primary.as_str())` is equal to `primary`.
    pub fn from_checked(text: &'a str) -> PrimaryLanguage<'a>
        requires { IsTrue (is_primary text.now) }
        ensures { primary_language_text result ≡ text.now }
    {
        PrimaryLanguage {
            text: Caseless(text),
        }
    }

    /// Returns the string, in its original case: `PrimaryLanguage::new("FR")?.as_str()` is `"FR"`.
    pub fn as_str(&self) -> &'a str
        ensures same_text { result.now ≡ primary_language_text self.now }
        ensures in_class { IsTrue (is_primary result.now) }
    {
        self.text.0
    }

    /// Returns the string as bytes: `PrimaryLanguage::new("FR")?.as_bytes()` is `b"FR"`.
    pub fn as_bytes(&self) -> &'a [u8]
        ensures { result.now ≡ primary_language_text self.now }
    {
        self.as_str().as_bytes()
    }

    /// Returns whether another string equals this string, ignoring the case of ASCII letters:
    /// `PrimaryLanguage::new("fr")?.eq_str("FR")` is `true`. Comparisons and hashes also ignore case.
    #[tactic(auto, using(langtag_scan::proofs::CaseOrder::bytes_ends_first, langtag_scan::proofs::CaseLaw::alike_primary))]
    pub fn eq_str(&self, other: &str) -> bool
        ensures test { result ≡ are_alike (primary_language_text self.now) other.now }
        ensures in_class { IsTrue result → IsTrue (is_primary other.now) }

        ensures compared { PrimaryLanguagesCompareByCase }
        ensures cloned { (copy : PrimaryLanguage) → ⟦<PrimaryLanguage<'a> as Clone>⟧.is_clone self.now copy → copy ≡ self.now }
        ensures clone_succeeds { ⟦<PrimaryLanguage<'a> as Clone>⟧.is_infallible self.now }
    {
        self.text == Caseless(other)
    }

    /// Copies the string into an owned value: `PrimaryLanguage::new("FR")?.try_to_owned(alloc)?.as_str()` is `"FR"`.
    ///
    /// # Errors
    ///
    /// Returns an error if allocation fails.
    pub fn try_to_owned(&self, alloc: Global) -> Result<PrimaryLanguageBuf, AllocError>
        ensures { IfOk result (λ owned. primary_language_buf_text owned ≡ primary_language_text self.now) }
    {
        let text = String::from_str(alloc, self.as_str())?;
        Ok(PrimaryLanguageBuf {
            text: Caseless(text),
        })
    }
}

impl fmt::Display for PrimaryLanguage<'_> {
    ghost use Rattle.langtag_language.specs.Text.{primary_language_text};

    ghost output = { λ primary. Some (primary_language_text primary) };

    fn fmt<W: fmt::Write>(&self, f: &mut fmt::Formatter<W>) -> fmt::Result {
        f.write_str(self.as_str())
    }
}

/// A primary language subtag that owns its text.
///
/// ```
/// use langtag_language::PrimaryLanguage;
///
/// let owned = PrimaryLanguage::new("fr")?.try_to_owned(alloc)?;
/// owned.as_primary_language() == PrimaryLanguage::new("FR")?; // true
/// owned.into_string().as_str(); // "fr"
/// ```
#[derive(Debug, Drop, PartialEq, Eq, PartialOrd, Ord, Hash)]
pub struct PrimaryLanguageBuf {
    text: Caseless<String>,
    ghost in_class: { IsTrue (is_primary (string_bytes text.0)) },
}

impl PrimaryLanguageBuf {
    ghost use Rattle.langtag_language.specs.Compared.{PrimaryLanguageBufsCompareByCase};
    ghost use Rattle.langtag_language.specs.Text.{primary_language_text, primary_language_buf_text, primary_language_buf_string};

    /// Parses a `String` as a subtag and keeps it, without copying.
    ///
    /// # Errors
    ///
    /// Returns the same `String` if it is not two to eight letters, such as `f`.
    ///
    /// ```
    /// use langtag_language::PrimaryLanguageBuf;
    /// use std::str::FromStr;
    ///
    /// PrimaryLanguageBuf::new(String::from_str(alloc, "fr")?)?.as_str(); // "fr"
    /// PrimaryLanguageBuf::new(String::from_str(alloc, "f")?).is_err(); // true
    /// ```
    pub fn new(text: String) -> Result<PrimaryLanguageBuf, InvalidPrimaryLanguage<String>>
        ensures accepts { is_ok result ≡ is_primary (string_bytes text) }
        ensures same_text { IfOk result (λ primary. primary_language_buf_text primary ≡ string_bytes text) }
        ensures same_string { IfOk result (λ primary. primary_language_buf_string primary ≡ text) }
        ensures given_back { IfErr result (λ error. error.0 ≡ text) }
    {
        if !is_primary(text.as_bytes()) {
            return Err(InvalidPrimaryLanguage(text));
        }
        Ok(PrimaryLanguageBuf {
            text: Caseless(text),
        })
    }

    /// Borrows the subtag: `PrimaryLanguage::new("FR")?.try_to_owned(alloc)?.as_primary_language().as_str()` is `"FR"`.
    #[tactic(auto, using(langtag_scan::proofs::CaseOrder::bytes_ends_first))]
    pub fn as_primary_language(&self) -> PrimaryLanguage<'_>
        ensures same_text { primary_language_text result ≡ primary_language_buf_text self.now }

        ensures compared { PrimaryLanguageBufsCompareByCase }
    {
        PrimaryLanguage::from_checked(self.as_str())
    }

    /// Returns the string, in its original case: `PrimaryLanguage::new("FR")?.try_to_owned(alloc)?.as_str()` is `"FR"`.
    pub fn as_str(&self) -> &str
        ensures same_text { result.now ≡ primary_language_buf_text self.now }
        ensures in_class { IsTrue (is_primary result.now) }
    {
        self.text.0.as_str()
    }

    /// Returns the `String`, without copying it: `PrimaryLanguage::new("FR")?.try_to_owned(alloc)?.into_string()` is
    /// `"FR"`.
    pub fn into_string(self) -> String
        ensures same_text { string_bytes result ≡ primary_language_buf_text self }
        ensures same_string { result ≡ primary_language_buf_string self }
        ensures in_class { IsTrue (is_primary (string_bytes result)) }
    {
        self.text.0
    }
}

impl fmt::Display for PrimaryLanguageBuf {
    ghost use Rattle.langtag_language.specs.Text.{primary_language_buf_text};

    ghost output = { λ primary. Some (primary_language_buf_text primary) };

    fn fmt<W: fmt::Write>(&self, f: &mut fmt::Formatter<W>) -> fmt::Result {
        f.write_str(self.as_str())
    }
}
