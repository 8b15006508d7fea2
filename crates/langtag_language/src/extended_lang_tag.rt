//! The extended language subtag (RFC 5646 section 2.2.2).
ghost use Rattle.std.specs.Prelude.{◌≡◌, ◌==◌, ◌&&◌, length, Some, IsTrue, IfOk, IfErr, is_ok, string_bytes};
ghost use Rattle.langtag_scan.specs.Grammar.{is_ascii_alphabetic, list_all, are_alike, is_extended};

use langtag_scan::{Caseless, is_extended};
use std::alloc::{AllocError, Global};
use std::fmt;
use std::fmt::Debug;
use thiserror::Error;

/// The error for a string that is not an extended language subtag. It contains the string.
///
/// ```
/// use langtag_language::ExtendedLangTag;
///
/// let error = ExtendedLangTag::new("yu").err();
/// error.map(|error| error.0); // Some("yu")
/// ```
#[derive(Debug, Drop, Error)]
#[error("invalid extended language subtag")]
#[error_bound(T: Debug + Drop)]
pub struct InvalidExtendedLangTag<T>(pub T);

/// An extended language subtag (RFC 5646 section 2.2.2): three letters, such as `yue` in `zh-yue`.
///
/// Two extended language subtags are equal if their strings differ only in the case of ASCII letters, such as `yue` and
/// `YUE`.
///
/// ```
/// use langtag_language::ExtendedLangTag;
///
/// let subtag = ExtendedLangTag::new("yue")?;
/// subtag.as_str(); // "yue"
/// subtag == ExtendedLangTag::new("YUE")?; // true
/// ```
#[derive(Clone, Copy, Debug, PartialEq, Eq, PartialOrd, Ord, Hash)]
pub struct ExtendedLangTag<'a> {
    text: Caseless<&'a str>,
    ghost in_class: { IsTrue (is_extended text.0.now) },
}

impl<'a> ExtendedLangTag<'a> {
    ghost use Rattle.langtag_language.specs.Compared.{ExtendedLangTagsCompareByCase};
    ghost use Rattle.langtag_language.specs.Text.{extended_lang_tag_text, extended_lang_tag_buf_text};

    /// Parses a string as an extended language subtag: `ExtendedLangTag::new("yue")` is `Ok`.
    ///
    /// # Errors
    ///
    /// Returns the string if it is not three letters: `ExtendedLangTag::new("yu")` is
    /// `Err(InvalidExtendedLangTag("yu"))`.
    #[tactic(auto, using(crate::proofs::Numbers::extended_numbers))]
    pub fn new(text: &'a str) -> Result<ExtendedLangTag<'a>, InvalidExtendedLangTag<&'a str>>
        ensures accepts { is_ok result ≡ is_extended text.now }
        ensures by_number { is_ok result ≡ ((length text.now == 3) && list_all is_ascii_alphabetic text.now) }
        ensures same_text { IfOk result (λ extended. extended_lang_tag_text extended ≡ text.now) }
        ensures given_back { IfErr result (λ error. error.0 ≡ text.entry) }
    {
        if !is_extended(text.as_bytes()) {
            return Err(InvalidExtendedLangTag(text));
        }
        Ok(ExtendedLangTag::from_checked(text))
    }

    /// Wraps a string that is known to be an extended language subtag, without checking it.
    /// `ExtendedLangTag::from_checked(extended.as_str())` is equal to `extended`.
    pub fn from_checked(text: &'a str) -> ExtendedLangTag<'a>
        requires { IsTrue (is_extended text.now) }
        ensures { extended_lang_tag_text result ≡ text.now }
    {
        ExtendedLangTag {
            text: Caseless(text),
        }
    }

    /// Returns the string, in its original case: `ExtendedLangTag::new("YUE")?.as_str()` is `"YUE"`.
    pub fn as_str(&self) -> &'a str
        ensures same_text { result.now ≡ extended_lang_tag_text self.now }
        ensures in_class { IsTrue (is_extended result.now) }
    {
        self.text.0
    }

    /// Returns the string as bytes: `ExtendedLangTag::new("YUE")?.as_bytes()` is `b"YUE"`.
    pub fn as_bytes(&self) -> &'a [u8]
        ensures { result.now ≡ extended_lang_tag_text self.now }
    {
        self.as_str().as_bytes()
    }

    /// Returns whether another string equals this string, ignoring the case of ASCII letters:
    /// `ExtendedLangTag::new("yue")?.eq_str("YUE")` is `true`. Comparisons and hashes also ignore case.
    #[tactic(auto, using(langtag_scan::proofs::CaseOrder::bytes_ends_first, langtag_scan::proofs::CaseLaw::alike_extended))]
    pub fn eq_str(&self, other: &str) -> bool
        ensures test { result ≡ are_alike (extended_lang_tag_text self.now) other.now }
        ensures in_class { IsTrue result → IsTrue (is_extended other.now) }

        ensures compared { ExtendedLangTagsCompareByCase }
        ensures cloned { (copy : ExtendedLangTag) → ⟦<ExtendedLangTag<'a> as Clone>⟧.is_clone self.now copy → copy ≡ self.now }
        ensures clone_succeeds { ⟦<ExtendedLangTag<'a> as Clone>⟧.is_infallible self.now }
    {
        self.text == Caseless(other)
    }

    /// Copies the string into an owned value: `ExtendedLangTag::new("YUE")?.try_to_owned(alloc)?.as_str()` is `"YUE"`.
    ///
    /// # Errors
    ///
    /// Returns an error if allocation fails.
    pub fn try_to_owned(&self, alloc: Global) -> Result<ExtendedLangTagBuf, AllocError>
        ensures { IfOk result (λ owned. extended_lang_tag_buf_text owned ≡ extended_lang_tag_text self.now) }
    {
        let text = String::from_str(alloc, self.as_str())?;
        Ok(ExtendedLangTagBuf {
            text: Caseless(text),
        })
    }
}

impl fmt::Display for ExtendedLangTag<'_> {
    ghost use Rattle.langtag_language.specs.Text.{extended_lang_tag_text};

    ghost output = { λ extended. Some (extended_lang_tag_text extended) };

    fn fmt<W: fmt::Write>(&self, f: &mut fmt::Formatter<W>) -> fmt::Result {
        f.write_str(self.as_str())
    }
}

/// An extended language subtag that owns its text.
///
/// ```
/// use langtag_language::ExtendedLangTag;
///
/// let owned = ExtendedLangTag::new("yue")?.try_to_owned(alloc)?;
/// owned.as_extended_lang_tag() == ExtendedLangTag::new("YUE")?; // true
/// owned.into_string().as_str(); // "yue"
/// ```
#[derive(Debug, Drop, PartialEq, Eq, PartialOrd, Ord, Hash)]
pub struct ExtendedLangTagBuf {
    text: Caseless<String>,
    ghost in_class: { IsTrue (is_extended (string_bytes text.0)) },
}

impl ExtendedLangTagBuf {
    ghost use Rattle.langtag_language.specs.Compared.{ExtendedLangTagBufsCompareByCase};
    ghost use Rattle.langtag_language.specs.Text.{extended_lang_tag_text, extended_lang_tag_buf_text};
    ghost use Rattle.langtag_language.specs.Text.{extended_lang_tag_buf_string};

    /// Parses a `String` as a subtag and keeps it, without copying.
    ///
    /// # Errors
    ///
    /// Returns the same `String` if it is not three letters, such as `yu`.
    ///
    /// ```
    /// use langtag_language::ExtendedLangTagBuf;
    /// use std::str::FromStr;
    ///
    /// ExtendedLangTagBuf::new(String::from_str(alloc, "yue")?)?.as_str(); // "yue"
    /// ExtendedLangTagBuf::new(String::from_str(alloc, "yu")?).is_err(); // true
    /// ```
    pub fn new(text: String) -> Result<ExtendedLangTagBuf, InvalidExtendedLangTag<String>>
        ensures accepts { is_ok result ≡ is_extended (string_bytes text) }
        ensures same_text { IfOk result (λ extended. extended_lang_tag_buf_text extended ≡ string_bytes text) }
        ensures same_string { IfOk result (λ extended. extended_lang_tag_buf_string extended ≡ text) }
        ensures given_back { IfErr result (λ error. error.0 ≡ text) }
    {
        if !is_extended(text.as_bytes()) {
            return Err(InvalidExtendedLangTag(text));
        }
        Ok(ExtendedLangTagBuf {
            text: Caseless(text),
        })
    }

    /// Borrows the subtag: `ExtendedLangTag::new("YUE")?.try_to_owned(alloc)?.as_extended_lang_tag().as_str()` is
    /// `"YUE"`.
    #[tactic(auto, using(langtag_scan::proofs::CaseOrder::bytes_ends_first))]
    pub fn as_extended_lang_tag(&self) -> ExtendedLangTag<'_>
        ensures same_text { extended_lang_tag_text result ≡ extended_lang_tag_buf_text self.now }

        ensures compared { ExtendedLangTagBufsCompareByCase }
    {
        ExtendedLangTag::from_checked(self.as_str())
    }

    /// Returns the string, in its original case: `ExtendedLangTag::new("YUE")?.try_to_owned(alloc)?.as_str()` is
    /// `"YUE"`.
    pub fn as_str(&self) -> &str
        ensures same_text { result.now ≡ extended_lang_tag_buf_text self.now }
        ensures in_class { IsTrue (is_extended result.now) }
    {
        self.text.0.as_str()
    }

    /// Returns the `String`, without copying it: `ExtendedLangTag::new("YUE")?.try_to_owned(alloc)?.into_string()` is
    /// `"YUE"`.
    pub fn into_string(self) -> String
        ensures same_text { string_bytes result ≡ extended_lang_tag_buf_text self }
        ensures same_string { result ≡ extended_lang_tag_buf_string self }
        ensures in_class { IsTrue (is_extended (string_bytes result)) }
    {
        self.text.0
    }
}

impl fmt::Display for ExtendedLangTagBuf {
    ghost use Rattle.langtag_language.specs.Text.{extended_lang_tag_buf_text};

    ghost output = { λ extended. Some (extended_lang_tag_buf_text extended) };

    fn fmt<W: fmt::Write>(&self, f: &mut fmt::Formatter<W>) -> fmt::Result {
        f.write_str(self.as_str())
    }
}
