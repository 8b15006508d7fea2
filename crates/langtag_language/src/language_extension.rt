//! The extended subtags of a language as one string (RFC 5646 section 2.2.2).
ghost use Rattle.std.specs.Prelude.{◌≡◌, ◌↔◌, Some, IsTrue, IfOk, IfErr, is_ok, string_bytes};
ghost use Rattle.langtag_scan.specs.Grammar.{are_alike, subtags};
ghost use Rattle.langtag_language.specs.Language.{IsLanguageExtension, SpellsLanguageExtension};
ghost use Rattle.langtag_language.specs.Decided as test;

use crate::extended_subtags::are_extended_within;
use crate::language_extension_iter::LanguageExtensionIter;
use langtag_scan::{Caseless, Subtags};
use std::alloc::{AllocError, Global};
use std::fmt;
use std::fmt::Debug;
use thiserror::Error;

/// The error for a string that is not a language extension. It contains the string.
///
/// ```
/// use langtag_language::LanguageExtension;
///
/// let error = LanguageExtension::new("min-").err();
/// error.map(|error| error.0); // Some("min-")
/// ```
#[derive(Debug, Drop, Error)]
#[error("invalid language extension")]
#[error_bound(T: Debug + Drop)]
pub struct InvalidLanguageExtension<T>(pub T);

/// The extended subtags of a language (RFC 5646 section 2.2.2): one to three, joined by hyphens, such as `min-nan`.
///
/// Two language extensions are equal if their strings differ only in the case of ASCII letters, such as `min-nan` and
/// `MIN-NAN`.
///
/// ```
/// use langtag_language::LanguageExtension;
///
/// let extension = LanguageExtension::new("min-nan")?;
/// extension.as_str(); // "min-nan"
/// extension == LanguageExtension::new("MIN-NAN")?; // true
/// ```
#[derive(Clone, Copy, Debug, PartialEq, Eq, PartialOrd, Ord, Hash)]
pub struct LanguageExtension<'a> {
    text: Caseless<&'a str>,
    ghost in_class: { IsTrue (test.is_language_extension text.0.now) },
}

#[tactic(auto, using(crate::proofs::Rules::extension_rules))]
impl<'a> LanguageExtension<'a> {
    ghost use Rattle.langtag_language.specs.Compared.{LanguageExtensionsCompareByCase};
    ghost use Rattle.langtag_language.specs.Text.{language_extension_text, language_extension_buf_text, extended_subtags_left};

    /// Parses a string as a language extension: `LanguageExtension::new("min-nan")` is `Ok`.
    ///
    /// # Errors
    ///
    /// Returns the string if it is not one to three extended subtags joined by hyphens:
    /// `LanguageExtension::new("min-")` is `Err(InvalidLanguageExtension("min-"))`.
    pub fn new(text: &'a str) -> Result<LanguageExtension<'a>, InvalidLanguageExtension<&'a str>>
        ensures accepts { IsTrue (is_ok result) ↔ (IsLanguageExtension text.now) }
        ensures same_text { IfOk result (λ extension. language_extension_text extension ≡ text.now) }
        ensures given_back { IfErr result (λ error. error.0 ≡ text.entry) }
    {
        if !is_language_extension(text) {
            return Err(InvalidLanguageExtension(text));
        }
        Ok(LanguageExtension::from_checked(text))
    }

    /// Wraps a string that is known to be a language extension, without checking it.
    /// `LanguageExtension::from_checked(extension.as_str())` is equal to `extension`.
    pub fn from_checked(text: &'a str) -> LanguageExtension<'a>
        requires { IsLanguageExtension text.now }
        ensures { language_extension_text result ≡ text.now }
    {
        LanguageExtension {
            text: Caseless(text),
        }
    }

    /// Returns the string, in its original case: `LanguageExtension::new("MIN-NAN")?.as_str()` is `"MIN-NAN"`.
    pub fn as_str(&self) -> &'a str
        ensures same_text { result.now ≡ language_extension_text self.now }
        ensures in_class { IsLanguageExtension result.now }
    {
        self.text.0
    }

    /// Returns the string as bytes: `LanguageExtension::new("MIN-NAN")?.as_bytes()` is `b"MIN-NAN"`.
    pub fn as_bytes(&self) -> &'a [u8]
        ensures { result.now ≡ language_extension_text self.now }
    {
        self.as_str().as_bytes()
    }

    /// Returns whether another string equals this string, ignoring the case of ASCII letters:
    /// `LanguageExtension::new("min-nan")?.eq_str("MIN-NAN")` is `true`. Comparisons and hashes also ignore case.
    #[tactic(auto, using(langtag_scan::proofs::CaseOrder::bytes_ends_first, crate::proofs::Rules::alike_language_extension))]
    pub fn eq_str(&self, other: &str) -> bool
        ensures test { result ≡ are_alike (language_extension_text self.now) other.now }
        ensures in_class { IsTrue result → IsLanguageExtension other.now }

        ensures compared { LanguageExtensionsCompareByCase }
        ensures cloned { (copy : LanguageExtension) → ⟦<LanguageExtension<'a> as Clone>⟧.is_clone self.now copy
            → copy ≡ self.now }
        ensures clone_succeeds { ⟦<LanguageExtension<'a> as Clone>⟧.is_infallible self.now }
    {
        self.text == Caseless(other)
    }

    /// Copies the string into an owned value: `LanguageExtension::new("MIN-NAN")?.try_to_owned(alloc)?.as_str()` is
    /// `"MIN-NAN"`.
    ///
    /// # Errors
    ///
    /// Returns an error if allocation fails.
    pub fn try_to_owned(&self, alloc: Global) -> Result<LanguageExtensionBuf, AllocError>
        ensures { IfOk result (λ owned. language_extension_buf_text owned ≡ language_extension_text self.now) }
    {
        let text = String::from_str(alloc, self.as_str())?;
        Ok(LanguageExtensionBuf {
            text: Caseless(text),
        })
    }

    /// Returns an iterator over the extended subtags: `LanguageExtension::new("min-nan")?.iter()` yields `min` and
    /// `nan`.
    ///
    /// ```
    /// use langtag_language::LanguageExtension;
    ///
    /// let mut subtags = LanguageExtension::new("min-nan")?.iter();
    /// subtags.next().map(|subtag| subtag.as_str()); // Some("min")
    /// ```
    pub fn iter(&self) -> LanguageExtensionIter<'a>
        ensures list { extended_subtags_left result ≡ subtags (language_extension_text self.now) }
        ensures spells { SpellsLanguageExtension (extended_subtags_left result) (language_extension_text self.now) }

        ensures cloned { (walk copy : LanguageExtensionIter) → ⟦<LanguageExtensionIter<'a> as Clone>⟧.is_clone walk copy
            → extended_subtags_left copy ≡ extended_subtags_left walk }
        ensures clone_succeeds { (walk : LanguageExtensionIter) → ⟦<LanguageExtensionIter<'a> as Clone>⟧.is_infallible walk }
    {
        LanguageExtensionIter::new(self.as_str())
    }
}

/// Returns whether the string is one to three extended subtags, joined by hyphens.
fn is_language_extension(text: &str) -> bool
    ensures { result ≡ test.is_language_extension text.now }
{
    !text.is_empty() && are_extended_within(3, Subtags::new(text))
}

impl fmt::Display for LanguageExtension<'_> {
    ghost use Rattle.langtag_language.specs.Text.{language_extension_text};

    ghost output = { λ extension. Some (language_extension_text extension) };

    fn fmt<W: fmt::Write>(&self, f: &mut fmt::Formatter<W>) -> fmt::Result {
        f.write_str(self.as_str())
    }
}

/// A language extension that owns its text.
///
/// ```
/// use langtag_language::LanguageExtension;
///
/// let owned = LanguageExtension::new("min-nan")?.try_to_owned(alloc)?;
/// owned.as_language_extension() == LanguageExtension::new("MIN-NAN")?; // true
/// owned.into_string().as_str(); // "min-nan"
/// ```
#[derive(Debug, Drop, PartialEq, Eq, PartialOrd, Ord, Hash)]
pub struct LanguageExtensionBuf {
    text: Caseless<String>,
    ghost in_class: { IsTrue (test.is_language_extension (string_bytes text.0)) },
}

#[tactic(auto, using(crate::proofs::Rules::extension_rules))]
impl LanguageExtensionBuf {
    ghost use Rattle.langtag_language.specs.Compared.{LanguageExtensionBufsCompareByCase};
    ghost use Rattle.langtag_language.specs.Text.{language_extension_text, language_extension_buf_text};
    ghost use Rattle.langtag_language.specs.Text.{language_extension_buf_string};

    /// Parses a `String` as a language extension and keeps it, without copying.
    ///
    /// # Errors
    ///
    /// Returns the same `String` if it is not one to three extended subtags joined by hyphens, such as `min-`.
    ///
    /// ```
    /// use langtag_language::LanguageExtensionBuf;
    /// use std::str::FromStr;
    ///
    /// LanguageExtensionBuf::new(String::from_str(alloc, "min-nan")?)?.as_str(); // "min-nan"
    /// LanguageExtensionBuf::new(String::from_str(alloc, "min-")?).is_err(); // true
    /// ```
    pub fn new(text: String) -> Result<LanguageExtensionBuf, InvalidLanguageExtension<String>>
        ensures accepts { IsTrue (is_ok result) ↔ (IsLanguageExtension (string_bytes text)) }
        ensures same_text { IfOk result (λ extension. language_extension_buf_text extension ≡ string_bytes text) }
        ensures same_string { IfOk result (λ extension. language_extension_buf_string extension ≡ text) }
        ensures given_back { IfErr result (λ error. error.0 ≡ text) }
    {
        if !is_language_extension(text.as_str()) {
            return Err(InvalidLanguageExtension(text));
        }
        Ok(LanguageExtensionBuf {
            text: Caseless(text),
        })
    }

    /// Borrows the language extension:
    /// `LanguageExtension::new("MIN-NAN")?.try_to_owned(alloc)?.as_language_extension().as_str()` is `"MIN-NAN"`.
    #[tactic(auto, using(langtag_scan::proofs::CaseOrder::bytes_ends_first))]
    pub fn as_language_extension(&self) -> LanguageExtension<'_>
        ensures same_text { language_extension_text result ≡ language_extension_buf_text self.now }

        ensures compared { LanguageExtensionBufsCompareByCase }
    {
        LanguageExtension::from_checked(self.as_str())
    }

    /// Returns the string, in its original case: `LanguageExtension::new("MIN-NAN")?.try_to_owned(alloc)?.as_str()` is
    /// `"MIN-NAN"`.
    pub fn as_str(&self) -> &str
        ensures same_text { result.now ≡ language_extension_buf_text self.now }
        ensures in_class { IsLanguageExtension result.now }
    {
        self.text.0.as_str()
    }

    /// Returns the `String`, without copying it:
    /// `LanguageExtension::new("MIN-NAN")?.try_to_owned(alloc)?.into_string()` is `"MIN-NAN"`.
    pub fn into_string(self) -> String
        ensures same_text { string_bytes result ≡ language_extension_buf_text self }
        ensures same_string { result ≡ language_extension_buf_string self }
        ensures in_class { IsLanguageExtension (string_bytes result) }
    {
        self.text.0
    }
}

impl fmt::Display for LanguageExtensionBuf {
    ghost use Rattle.langtag_language.specs.Text.{language_extension_buf_text};

    ghost output = { λ extension. Some (language_extension_buf_text extension) };

    fn fmt<W: fmt::Write>(&self, f: &mut fmt::Formatter<W>) -> fmt::Result {
        f.write_str(self.as_str())
    }
}
