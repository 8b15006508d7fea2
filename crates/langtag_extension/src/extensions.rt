//! The extensions of a tag (RFC 5646 section 2.2.6).
ghost use Rattle.std.specs.Prelude.{◌≡◌, ◌↔◌, Some, List, [], IsTrue, IfOk, IfErr, is_ok, map, string_bytes, option_map};
ghost use Rattle.langtag_scan.specs.Grammar.{option_map_or, are_alike};
ghost use Rattle.langtag_scan.specs.Record as model;
ghost use Rattle.langtag_extension.specs.Spelling.{SpellsExtensions, IsExtensions, extension_spelling, find_extension};
ghost use Rattle.langtag_extension.specs.Decided.{is_extensions_text};

use crate::extension::{Extension, is_extension};
use crate::extension_iter::ExtensionIter;
use crate::extension_texts::ExtensionTexts;
use crate::extensions_iter::ExtensionsIter;
use crate::singleton::Singleton;
use langtag_scan::Caseless;
use std::alloc::{AllocError, Global};
use std::fmt;
use std::fmt::Debug;
use thiserror::Error;

/// The error for a string that is not a list of extensions. It contains the string.
///
/// ```
/// use langtag_extension::Extensions;
///
/// let error = Extensions::new("a-bb-u").err();
/// error.map(|error| error.0); // Some("a-bb-u")
/// ```
#[derive(Debug, Drop, Error)]
#[error("invalid extensions")]
#[error_bound(T: Debug + Drop)]
pub struct InvalidExtensions<T>(pub T);

/// The extensions of a tag (RFC 5646 section 2.2.6), joined by hyphens, such as `a-ext1-ext2-u-co-phonebk`. The empty
/// string means no extensions.
///
/// A singleton may occur twice: a tag with such a list is well formed but not valid (section 2.2.9). Two lists of
/// extensions are equal if their strings differ only in the case of ASCII letters, such as `u-co` and `U-CO`.
///
/// ```
/// use langtag_extension::Extensions;
///
/// let extensions = Extensions::new("a-bb-u-co")?;
/// extensions.as_str(); // "a-bb-u-co"
/// extensions == Extensions::new("A-BB-U-CO")?; // true
/// ```
#[derive(Clone, Copy, Debug, PartialEq, Eq, PartialOrd, Ord, Hash)]
pub struct Extensions<'a> {
    text: Caseless<&'a str>,
    ghost in_class: { IsTrue (is_extensions_text text.0.now) },
}

#[tactic(auto, using(crate::proofs::Rules::extensions_rules))]
impl<'a> Extensions<'a> {
    ghost use Rattle.langtag_extension.specs.Compared.{ExtensionListsCompareByCase};
    ghost use Rattle.langtag_extension.specs.Text.{singleton_byte, extension_text, extension_subtags_left};
    ghost use Rattle.langtag_extension.specs.Text.{extensions_text, extensions_buf_text, extensions_left};

    /// No extensions: `Extensions::EMPTY.as_str()` is `""`.
    pub const EMPTY: Extensions<'static> = Extensions { text: Caseless("") };

    /// Parses a string as extensions: `Extensions::new("a-ext1-u-co")` and `Extensions::new("")` are `Ok`.
    ///
    /// # Errors
    ///
    /// Returns the string if it is not a list of extensions joined by hyphens: `Extensions::new("u-")` is
    /// `Err(InvalidExtensions("u-"))`.
    pub fn new(text: &'a str) -> Result<Extensions<'a>, InvalidExtensions<&'a str>>
        ensures accepts { IsTrue (is_ok result) ↔ IsExtensions text.now }
        ensures same_text { IfOk result (λ extensions. extensions_text extensions ≡ text.now) }
        ensures given_back { IfErr result (λ error. error.0 ≡ text.entry) }
    {
        if !are_extensions(text) {
            return Err(InvalidExtensions(text));
        }
        Ok(Extensions::from_checked(text))
    }

    /// Wraps a string that is known to be a list of extensions, without checking it.
    /// `Extensions::from_checked(extensions.as_str())` is equal to `extensions`.
    pub fn from_checked(text: &'a str) -> Extensions<'a>
        requires { IsExtensions text.now }
        ensures { extensions_text result ≡ text.now }
    {
        Extensions {
            text: Caseless(text),
        }
    }

    /// Returns the string, in its original case: `Extensions::new("U-CO")?.as_str()` is `"U-CO"`.
    pub fn as_str(&self) -> &'a str
        ensures same_text { result.now ≡ extensions_text self.now }
        ensures in_class { IsExtensions result.now }
    {
        self.text.0
    }

    /// Returns the string as bytes: `Extensions::new("U-CO")?.as_bytes()` is `b"U-CO"`.
    pub fn as_bytes(&self) -> &'a [u8]
        ensures { result.now ≡ extensions_text self.now }
    {
        self.as_str().as_bytes()
    }

    /// Returns whether another string equals this string, ignoring the case of ASCII letters:
    /// `Extensions::new("u-co")?.eq_str("U-CO")` is `true`. Comparisons and hashes also ignore case.
    #[tactic(auto, using(langtag_scan::proofs::CaseOrder::bytes_ends_first, crate::proofs::Rules::alike_extensions))]
    pub fn eq_str(&self, other: &str) -> bool
        ensures test { result ≡ are_alike (extensions_text self.now) other.now }
        ensures in_class { IsTrue result → IsExtensions other.now }

        ensures compared { ExtensionListsCompareByCase }
        ensures cloned { (copy : Extensions) → ⟦<Extensions<'a> as Clone>⟧.is_clone self.now copy → copy ≡ self.now }
        ensures clone_succeeds { ⟦<Extensions<'a> as Clone>⟧.is_infallible self.now }
    {
        self.text == Caseless(other)
    }

    /// Copies the string into an owned value: `Extensions::new("U-CO")?.try_to_owned(alloc)?.as_str()` is `"U-CO"`.
    ///
    /// # Errors
    ///
    /// Returns an error if allocation fails.
    pub fn try_to_owned(&self, alloc: Global) -> Result<ExtensionsBuf, AllocError>
        ensures { IfOk result (λ owned. extensions_buf_text owned ≡ extensions_text self.now) }
    {
        let text = String::from_str(alloc, self.as_str())?;
        Ok(ExtensionsBuf {
            text: Caseless(text),
        })
    }

    /// Returns an iterator over the extensions, including extensions with a repeated singleton: `a-bb` and `A-cc` for
    /// `a-bb-A-cc`.
    ///
    /// ```
    /// use langtag_extension::Extensions;
    ///
    /// let mut extensions = Extensions::new("a-bb-A-cc")?.iter();
    /// extensions.next().map(|extension| extension.as_str()); // Some("a-bb")
    /// extensions.next().map(|extension| extension.as_str()); // Some("A-cc")
    /// ```
    #[tactic(auto, using(crate::proofs::Rules::extension_texts_spelled))]
    pub fn iter(&self) -> ExtensionsIter<'a>
        ensures list { (es : List model.Extension) → SpellsExtensions es (extensions_text self.now)
            → extensions_left result ≡ map extension_spelling es }

        ensures cloned { (walk copy : ExtensionsIter) → ⟦<ExtensionsIter<'a> as Clone>⟧.is_clone walk copy
            → extensions_left copy ≡ extensions_left walk }
        ensures clone_succeeds { (walk : ExtensionsIter) → ⟦<ExtensionsIter<'a> as Clone>⟧.is_infallible walk }
    {
        ExtensionsIter::new(self.as_str())
    }

    /// Returns the first extension with the singleton, ignoring case: `A` finds `a-bb` in `a-bb-A-cc`.
    ///
    /// ```
    /// use langtag_extension::{Extensions, Singleton};
    ///
    /// let found = Extensions::new("a-bb-A-cc")?.get(Singleton::new(b'A')?);
    /// found.map(|extension| extension.as_str()); // Some("a-bb")
    /// ```
    pub fn get(&self, singleton: Singleton) -> Option<Extension<'a>>
        ensures first_match { (es : List model.Extension) → SpellsExtensions es (extensions_text self.now) →
            option_map extension_text result ≡ option_map extension_spelling (find_extension (singleton_byte singleton) es) }
    {
        self.iter()
            .find(|extension| extension.has_singleton(singleton))
    }

    /// Returns an iterator over the subtags of the extension that `get` returns, or over no subtags if `get` returns
    /// `None`: `co` and `phonebk` for the singleton `u` in `a-bb-u-co-phonebk`.
    ///
    /// ```
    /// use langtag_extension::{Extensions, Singleton};
    ///
    /// let mut subtags = Extensions::new("a-bb-u-co-phonebk")?.iter_extension(Singleton::new(b'u')?);
    /// subtags.next().map(|subtag| subtag.as_str()); // Some("co")
    /// ```
    #[tactic(auto, using(crate::proofs::ExtensionLookUp::subtags_not_found))]
    pub fn iter_extension(&self, singleton: Singleton) -> ExtensionIter<'a>
        ensures list { (es : List model.Extension) → SpellsExtensions es (extensions_text self.now) →
            extension_subtags_left result ≡ option_map_or (λ e. e.subtags) (find_extension (singleton_byte singleton) es) [] }
    {
        let Some(extension) = self.get(singleton) else {
            return ExtensionIter::empty();
        };
        extension.iter()
    }
}

impl Default for Extensions<'_> {
    ghost use Rattle.langtag_extension.specs.Text.{extensions_text};

    ghost is_default = { λ extensions. extensions_text extensions ≡ [] };

    fn default() -> Self {
        Extensions::EMPTY
    }
}

impl fmt::Display for Extensions<'_> {
    ghost use Rattle.langtag_extension.specs.Text.{extensions_text};

    ghost output = { λ extensions. Some (extensions_text extensions) };

    fn fmt<W: fmt::Write>(&self, f: &mut fmt::Formatter<W>) -> fmt::Result {
        f.write_str(self.as_str())
    }
}

/// Extensions that own their text.
///
/// ```
/// use langtag_extension::Extensions;
///
/// let owned = Extensions::new("a-bb-u-co")?.try_to_owned(alloc)?;
/// owned.as_extensions() == Extensions::new("A-BB-U-CO")?; // true
/// owned.into_string().as_str(); // "a-bb-u-co"
/// ```
#[derive(Debug, Drop, PartialEq, Eq, PartialOrd, Ord, Hash)]
pub struct ExtensionsBuf {
    text: Caseless<String>,
    ghost in_class: { IsTrue (is_extensions_text (string_bytes text.0)) },
}

#[tactic(auto, using(crate::proofs::Rules::extensions_rules))]
impl ExtensionsBuf {
    ghost use Rattle.langtag_extension.specs.Compared.{ExtensionsBufsCompareByCase};
    ghost use Rattle.langtag_extension.specs.Text.{extensions_text, extensions_buf_string, extensions_buf_text};

    /// Parses a `String` as extensions and keeps it, without copying.
    ///
    /// # Errors
    ///
    /// Returns the same `String` if it is not a list of extensions joined by hyphens, such as `u-`.
    ///
    /// ```
    /// use langtag_extension::ExtensionsBuf;
    /// use std::str::FromStr;
    ///
    /// ExtensionsBuf::new(String::from_str(alloc, "a-ext1-u-co")?)?.as_str(); // "a-ext1-u-co"
    /// ExtensionsBuf::new(String::from_str(alloc, "u-")?).is_err(); // true
    /// ```
    pub fn new(text: String) -> Result<ExtensionsBuf, InvalidExtensions<String>>
        ensures accepts { IsTrue (is_ok result) ↔ IsExtensions (string_bytes text) }
        ensures same_text { IfOk result (λ extensions. extensions_buf_text extensions ≡ string_bytes text) }
        ensures same_string { IfOk result (λ extensions. extensions_buf_string extensions ≡ text) }
        ensures given_back { IfErr result (λ error. error.0 ≡ text) }
    {
        if !are_extensions(text.as_str()) {
            return Err(InvalidExtensions(text));
        }
        Ok(ExtensionsBuf {
            text: Caseless(text),
        })
    }

    /// Borrows the extensions: `Extensions::new("U-CO")?.try_to_owned(alloc)?.as_extensions().as_str()` is `"U-CO"`.
    #[tactic(auto, using(langtag_scan::proofs::CaseOrder::bytes_ends_first))]
    pub fn as_extensions(&self) -> Extensions<'_>
        ensures same_text { extensions_text result ≡ extensions_buf_text self.now }

        ensures compared { ExtensionsBufsCompareByCase }
    {
        Extensions::from_checked(self.as_str())
    }

    /// Returns the string, in its original case: `Extensions::new("U-CO")?.try_to_owned(alloc)?.as_str()` is `"U-CO"`.
    pub fn as_str(&self) -> &str
        ensures same_text { result.now ≡ extensions_buf_text self.now }
        ensures in_class { IsExtensions result.now }
    {
        self.text.0.as_str()
    }

    /// Returns the `String`, without copying it: `Extensions::new("U-CO")?.try_to_owned(alloc)?.into_string()` is
    /// `"U-CO"`.
    pub fn into_string(self) -> String
        ensures same_text { string_bytes result ≡ extensions_buf_text self }
        ensures same_string { result ≡ extensions_buf_string self }
        ensures in_class { IsExtensions (string_bytes result) }
    {
        self.text.0
    }
}

impl fmt::Display for ExtensionsBuf {
    ghost use Rattle.langtag_extension.specs.Text.{extensions_buf_text};

    ghost output = { λ extensions. Some (extensions_buf_text extensions) };

    fn fmt<W: fmt::Write>(&self, f: &mut fmt::Formatter<W>) -> fmt::Result {
        f.write_str(self.as_str())
    }
}

/// Returns whether the string is empty or a list of extensions joined by hyphens.
fn are_extensions(text: &str) -> bool
    ensures { result ≡ is_extensions_text text.now }
{
    ExtensionTexts::new(text).all(|text| is_extension(text))
}
