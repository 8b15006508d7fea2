//! A subtag of an extension (RFC 5646 section 2.2.6).
ghost use Rattle.std.specs.Prelude.{◌≡◌, ◌&&◌, ◌||◌, Some, IsTrue, IfOk, IfErr, is_ok, length, string_bytes};
ghost use Rattle.langtag_scan.specs.Grammar.{is_ascii_alphabetic, is_ascii_digit, is_in_range};
ghost use Rattle.langtag_scan.specs.Grammar.{list_all, are_alike, is_extension_subtag};

use langtag_scan::{Caseless, is_extension_subtag};
use std::alloc::{AllocError, Global};
use std::fmt;
use std::fmt::Debug;
use thiserror::Error;

/// The error for a string that is not a subtag of an extension. It contains the string.
///
/// ```
/// use langtag_extension::ExtensionSubtag;
///
/// let error = ExtensionSubtag::new("c").err();
/// error.map(|error| error.0); // Some("c")
/// ```
#[derive(Debug, Drop, Error)]
#[error("invalid extension subtag")]
#[error_bound(T: Debug + Drop)]
pub struct InvalidExtensionSubtag<T>(pub T);

/// A subtag of an extension (RFC 5646 section 2.2.6): two to eight letters and digits, such as `phonebk` in
/// `u-co-phonebk`.
///
/// Two subtags are equal if their strings differ only in the case of ASCII letters, such as `co` and `CO`.
///
/// ```
/// use langtag_extension::ExtensionSubtag;
///
/// let subtag = ExtensionSubtag::new("co")?;
/// subtag.as_str(); // "co"
/// subtag == ExtensionSubtag::new("CO")?; // true
/// ```
#[derive(Clone, Copy, Debug, PartialEq, Eq, PartialOrd, Ord, Hash)]
pub struct ExtensionSubtag<'a> {
    text: Caseless<&'a str>,
    ghost in_class: { IsTrue (is_extension_subtag text.0.now) },
}

impl<'a> ExtensionSubtag<'a> {
    ghost use Rattle.langtag_extension.specs.Compared.{ExtensionSubtagsCompareByCase};
    ghost use Rattle.langtag_extension.specs.Text.{extension_subtag_text, extension_subtag_buf_text};

    /// Parses a string as a subtag: `ExtensionSubtag::new("co")` is `Ok`.
    ///
    /// # Errors
    ///
    /// Returns the string if it is not two to eight letters and digits: `ExtensionSubtag::new("c")` is
    /// `Err(InvalidExtensionSubtag("c"))`.
    #[tactic(auto, using(crate::proofs::Numbers::extension_subtag_numbers))]
    pub fn new(text: &'a str) -> Result<ExtensionSubtag<'a>, InvalidExtensionSubtag<&'a str>>
        ensures accepts { is_ok result ≡ is_extension_subtag text.now }
        ensures by_number { is_ok result ≡
            (is_in_range 2 8 (length text.now) && list_all (λ b. is_ascii_alphabetic b || is_ascii_digit b) text.now) }
        ensures same_text { IfOk result (λ subtag. extension_subtag_text subtag ≡ text.now) }
        ensures given_back { IfErr result (λ error. error.0 ≡ text.entry) }
    {
        if !is_extension_subtag(text.as_bytes()) {
            return Err(InvalidExtensionSubtag(text));
        }
        Ok(ExtensionSubtag::from_checked(text))
    }

    /// Wraps a string that is known to be a subtag of an extension, without checking it.
    /// `ExtensionSubtag::from_checked(subtag.as_str())` is equal to `subtag`.
    pub fn from_checked(text: &'a str) -> ExtensionSubtag<'a>
        requires { IsTrue (is_extension_subtag text.now) }
        ensures { extension_subtag_text result ≡ text.now }
    {
        ExtensionSubtag {
            text: Caseless(text),
        }
    }

    /// Returns the string, in its original case: `ExtensionSubtag::new("CO")?.as_str()` is `"CO"`.
    pub fn as_str(&self) -> &'a str
        ensures same_text { result.now ≡ extension_subtag_text self.now }
        ensures in_class { IsTrue (is_extension_subtag result.now) }
    {
        self.text.0
    }

    /// Returns the string as bytes: `ExtensionSubtag::new("CO")?.as_bytes()` is `b"CO"`.
    pub fn as_bytes(&self) -> &'a [u8]
        ensures { result.now ≡ extension_subtag_text self.now }
    {
        self.as_str().as_bytes()
    }

    /// Returns whether another string equals this string, ignoring the case of ASCII letters:
    /// `ExtensionSubtag::new("co")?.eq_str("CO")` is `true`. Comparisons and hashes also ignore case.
    #[tactic(auto, using(langtag_scan::proofs::CaseOrder::bytes_ends_first, langtag_scan::proofs::CaseLaw::alike_extension_subtag))]
    pub fn eq_str(&self, other: &str) -> bool
        ensures test { result ≡ are_alike (extension_subtag_text self.now) other.now }
        ensures in_class { IsTrue result → IsTrue (is_extension_subtag other.now) }

        ensures compared { ExtensionSubtagsCompareByCase }
        ensures cloned { (copy : ExtensionSubtag) → ⟦<ExtensionSubtag<'a> as Clone>⟧.is_clone self.now copy → copy ≡ self.now }
        ensures clone_succeeds { ⟦<ExtensionSubtag<'a> as Clone>⟧.is_infallible self.now }
    {
        self.text == Caseless(other)
    }

    /// Copies the string into an owned value: `ExtensionSubtag::new("CO")?.try_to_owned(alloc)?.as_str()` is `"CO"`.
    ///
    /// # Errors
    ///
    /// Returns an error if allocation fails.
    pub fn try_to_owned(&self, alloc: Global) -> Result<ExtensionSubtagBuf, AllocError>
        ensures { IfOk result (λ owned. extension_subtag_buf_text owned ≡ extension_subtag_text self.now) }
    {
        let text = String::from_str(alloc, self.as_str())?;
        Ok(ExtensionSubtagBuf {
            text: Caseless(text),
        })
    }
}

impl fmt::Display for ExtensionSubtag<'_> {
    ghost use Rattle.langtag_extension.specs.Text.{extension_subtag_text};

    ghost output = { λ subtag. Some (extension_subtag_text subtag) };

    fn fmt<W: fmt::Write>(&self, f: &mut fmt::Formatter<W>) -> fmt::Result {
        f.write_str(self.as_str())
    }
}

/// A subtag of an extension that owns its text.
///
/// ```
/// use langtag_extension::ExtensionSubtag;
///
/// let owned = ExtensionSubtag::new("co")?.try_to_owned(alloc)?;
/// owned.as_extension_subtag() == ExtensionSubtag::new("CO")?; // true
/// owned.into_string().as_str(); // "co"
/// ```
#[derive(Debug, Drop, PartialEq, Eq, PartialOrd, Ord, Hash)]
pub struct ExtensionSubtagBuf {
    text: Caseless<String>,
    ghost in_class: { IsTrue (is_extension_subtag (string_bytes text.0)) },
}

impl ExtensionSubtagBuf {
    ghost use Rattle.langtag_extension.specs.Compared.{ExtensionSubtagBufsCompareByCase};
    ghost use Rattle.langtag_extension.specs.Text.{extension_subtag_text, extension_subtag_buf_string, extension_subtag_buf_text};

    /// Parses a `String` as a subtag and keeps it, without copying.
    ///
    /// # Errors
    ///
    /// Returns the same `String` if it is not two to eight letters and digits, such as `c`.
    ///
    /// ```
    /// use langtag_extension::ExtensionSubtagBuf;
    /// use std::str::FromStr;
    ///
    /// ExtensionSubtagBuf::new(String::from_str(alloc, "co")?)?.as_str(); // "co"
    /// ExtensionSubtagBuf::new(String::from_str(alloc, "c")?).is_err(); // true
    /// ```
    pub fn new(text: String) -> Result<ExtensionSubtagBuf, InvalidExtensionSubtag<String>>
        ensures accepts { is_ok result ≡ is_extension_subtag (string_bytes text) }
        ensures same_text { IfOk result (λ subtag. extension_subtag_buf_text subtag ≡ string_bytes text) }
        ensures same_string { IfOk result (λ subtag. extension_subtag_buf_string subtag ≡ text) }
        ensures given_back { IfErr result (λ error. error.0 ≡ text) }
    {
        if !is_extension_subtag(text.as_bytes()) {
            return Err(InvalidExtensionSubtag(text));
        }
        Ok(ExtensionSubtagBuf {
            text: Caseless(text),
        })
    }

    /// Borrows the subtag: `ExtensionSubtag::new("CO")?.try_to_owned(alloc)?.as_extension_subtag().as_str()` is `"CO"`.
    #[tactic(auto, using(langtag_scan::proofs::CaseOrder::bytes_ends_first))]
    pub fn as_extension_subtag(&self) -> ExtensionSubtag<'_>
        ensures same_text { extension_subtag_text result ≡ extension_subtag_buf_text self.now }

        ensures compared { ExtensionSubtagBufsCompareByCase }
    {
        ExtensionSubtag::from_checked(self.as_str())
    }

    /// Returns the string, in its original case: `ExtensionSubtag::new("CO")?.try_to_owned(alloc)?.as_str()` is `"CO"`.
    pub fn as_str(&self) -> &str
        ensures same_text { result.now ≡ extension_subtag_buf_text self.now }
        ensures in_class { IsTrue (is_extension_subtag result.now) }
    {
        self.text.0.as_str()
    }

    /// Returns the `String`, without copying it: `ExtensionSubtag::new("CO")?.try_to_owned(alloc)?.into_string()` is
    /// `"CO"`.
    pub fn into_string(self) -> String
        ensures same_text { string_bytes result ≡ extension_subtag_buf_text self }
        ensures same_string { result ≡ extension_subtag_buf_string self }
        ensures in_class { IsTrue (is_extension_subtag (string_bytes result)) }
    {
        self.text.0
    }
}

impl fmt::Display for ExtensionSubtagBuf {
    ghost use Rattle.langtag_extension.specs.Text.{extension_subtag_buf_text};

    ghost output = { λ subtag. Some (extension_subtag_buf_text subtag) };

    fn fmt<W: fmt::Write>(&self, f: &mut fmt::Formatter<W>) -> fmt::Result {
        f.write_str(self.as_str())
    }
}
