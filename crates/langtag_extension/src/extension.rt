//! An extension (RFC 5646 section 2.2.6).
ghost use Rattle.std.specs.Prelude.{◌≡◌, ◌↔◌, Some, IsTrue, IfOk, IfErr, is_ok, slice_index, string_bytes};
ghost use Rattle.langtag_scan.specs.Grammar.{are_alike};
ghost use Rattle.langtag_scan.specs.Record as model;
ghost use Rattle.langtag_extension.specs.Spelling.{SpellsExtension, IsExtension};
ghost use Rattle.langtag_extension.specs.Decided.{are_extension_subtags, is_extension_text, opens_alike, is_singleton_alone};

use crate::extension_iter::ExtensionIter;
use crate::singleton::Singleton;
use langtag_scan::{Caseless, Subtags, into_smallcase, is_extension_subtag, is_singleton};
use std::alloc::{AllocError, Global};
use std::fmt;
use std::fmt::Debug;
use thiserror::Error;

/// The error for a string that is not an extension. It contains the string.
///
/// ```
/// use langtag_extension::Extension;
///
/// let error = Extension::new("u").err();
/// error.map(|error| error.0); // Some("u")
/// ```
#[derive(Debug, Drop, Error)]
#[error("invalid extension")]
#[error_bound(T: Debug + Drop)]
pub struct InvalidExtension<T>(pub T);

/// An extension (RFC 5646 section 2.2.6): a singleton and one or more subtags of two to eight letters and digits, such
/// as `u-co-phonebk`.
///
/// Two extensions are equal if their strings differ only in the case of ASCII letters, such as `u-co` and `U-CO`.
///
/// ```
/// use langtag_extension::Extension;
///
/// let extension = Extension::new("u-co")?;
/// extension.as_str(); // "u-co"
/// extension == Extension::new("U-CO")?; // true
/// ```
#[derive(Clone, Copy, Debug, PartialEq, Eq, PartialOrd, Ord, Hash)]
pub struct Extension<'a> {
    text: Caseless<&'a str>,
    ghost in_class: { IsTrue (is_extension_text text.0.now) },
}

#[tactic(auto, using(crate::proofs::Rules::extension_rules))]
impl<'a> Extension<'a> {
    ghost use Rattle.langtag_extension.specs.Compared.{ExtensionsCompareByCase};
    ghost use Rattle.langtag_extension.specs.Text.{singleton_byte, extension_text, extension_buf_text, extension_subtags_left};

    /// Parses a string as an extension: `Extension::new("u-co-phonebk")` is `Ok`.
    ///
    /// # Errors
    ///
    /// Returns the string if it is not one extension: `Extension::new("a")`, which has no subtag, is
    /// `Err(InvalidExtension("a"))`. Other examples are `a-bb-b-cc`, which is two extensions, and `x-bb`, which is a
    /// private use part.
    pub fn new(text: &'a str) -> Result<Extension<'a>, InvalidExtension<&'a str>>
        ensures accepts { IsTrue (is_ok result) ↔ IsExtension text.now }
        ensures same_text { IfOk result (λ extension. extension_text extension ≡ text.now) }
        ensures given_back { IfErr result (λ error. error.0 ≡ text.entry) }
    {
        if !is_extension(text) {
            return Err(InvalidExtension(text));
        }
        Ok(Extension::from_checked(text))
    }

    /// Wraps a string that is known to be an extension, without checking it.
    /// `Extension::from_checked(extension.as_str())` is equal to `extension`.
    pub fn from_checked(text: &'a str) -> Extension<'a>
        requires { IsExtension text.now }
        ensures { extension_text result ≡ text.now }
    {
        Extension {
            text: Caseless(text),
        }
    }

    /// Returns the string, in its original case: `Extension::new("U-CO")?.as_str()` is `"U-CO"`.
    pub fn as_str(&self) -> &'a str
        ensures same_text { result.now ≡ extension_text self.now }
        ensures in_class { IsExtension result.now }
    {
        self.text.0
    }

    /// Returns the string as bytes: `Extension::new("U-CO")?.as_bytes()` is `b"U-CO"`.
    pub fn as_bytes(&self) -> &'a [u8]
        ensures { result.now ≡ extension_text self.now }
    {
        self.as_str().as_bytes()
    }

    /// Returns whether another string equals this string, ignoring the case of ASCII letters:
    /// `Extension::new("u-co")?.eq_str("U-CO")` is `true`. Comparisons and hashes also ignore case.
    #[tactic(auto, using(langtag_scan::proofs::CaseOrder::bytes_ends_first, crate::proofs::Rules::alike_extension))]
    pub fn eq_str(&self, other: &str) -> bool
        ensures test { result ≡ are_alike (extension_text self.now) other.now }
        ensures in_class { IsTrue result → IsExtension other.now }

        ensures compared { ExtensionsCompareByCase }
        ensures cloned { (copy : Extension) → ⟦<Extension<'a> as Clone>⟧.is_clone self.now copy → copy ≡ self.now }
        ensures clone_succeeds { ⟦<Extension<'a> as Clone>⟧.is_infallible self.now }
    {
        self.text == Caseless(other)
    }

    /// Copies the string into an owned value: `Extension::new("U-CO")?.try_to_owned(alloc)?.as_str()` is `"U-CO"`.
    ///
    /// # Errors
    ///
    /// Returns an error if allocation fails.
    pub fn try_to_owned(&self, alloc: Global) -> Result<ExtensionBuf, AllocError>
        ensures { IfOk result (λ owned. extension_buf_text owned ≡ extension_text self.now) }
    {
        let text = String::from_str(alloc, self.as_str())?;
        Ok(ExtensionBuf {
            text: Caseless(text),
        })
    }

    /// Returns the singleton of the extension, in its original case: `U` for `U-co-phonebk`.
    ///
    /// ```
    /// use langtag_extension::Extension;
    ///
    /// Extension::new("U-co-phonebk")?.singleton().unwrap(); // b'U'
    /// ```
    pub fn singleton(&self) -> Singleton
        ensures first_byte { singleton_byte result ≡ slice_index (extension_text self.now) 0 }
        ensures member { (e : model.Extension) → SpellsExtension e (extension_text self.now)
            → singleton_byte result ≡ e.singleton }
    {
        Singleton::from_checked(self.as_bytes()[0])
    }

    /// Returns whether the extension begins with the singleton, ignoring case.
    pub(crate) fn has_singleton(&self, singleton: Singleton) -> bool
        ensures { result ≡ opens_alike (singleton_byte singleton) (extension_text self.now) }
    {
        into_smallcase(self.singleton().unwrap()) == into_smallcase(singleton.unwrap())
    }

    /// Returns an iterator over the subtags after the singleton: `co` and `phonebk` for `u-co-phonebk`.
    ///
    /// ```
    /// use langtag_extension::Extension;
    ///
    /// let mut subtags = Extension::new("u-co-phonebk")?.iter();
    /// subtags.next().map(|subtag| subtag.as_str()); // Some("co")
    /// subtags.next().map(|subtag| subtag.as_str()); // Some("phonebk")
    /// ```
    #[tactic(auto, using(crate::proofs::Rules::subtags_spelled))]
    pub fn iter(&self) -> ExtensionIter<'a>
        ensures list { (e : model.Extension) → SpellsExtension e (extension_text self.now)
            → extension_subtags_left result ≡ e.subtags }

        ensures cloned { (walk copy : ExtensionIter) → ⟦<ExtensionIter<'a> as Clone>⟧.is_clone walk copy
            → extension_subtags_left copy ≡ extension_subtags_left walk }
        ensures clone_succeeds { (walk : ExtensionIter) → ⟦<ExtensionIter<'a> as Clone>⟧.is_infallible walk }
    {
        ExtensionIter::new(self.as_str())
    }
}

impl fmt::Display for Extension<'_> {
    ghost use Rattle.langtag_extension.specs.Text.{extension_text};

    ghost output = { λ extension. Some (extension_text extension) };

    fn fmt<W: fmt::Write>(&self, f: &mut fmt::Formatter<W>) -> fmt::Result {
        f.write_str(self.as_str())
    }
}

/// An extension that owns its text.
///
/// ```
/// use langtag_extension::Extension;
///
/// let owned = Extension::new("u-co")?.try_to_owned(alloc)?;
/// owned.as_extension() == Extension::new("U-CO")?; // true
/// owned.into_string().as_str(); // "u-co"
/// ```
#[derive(Debug, Drop, PartialEq, Eq, PartialOrd, Ord, Hash)]
pub struct ExtensionBuf {
    text: Caseless<String>,
    ghost in_class: { IsTrue (is_extension_text (string_bytes text.0)) },
}

#[tactic(auto, using(crate::proofs::Rules::extension_rules))]
impl ExtensionBuf {
    ghost use Rattle.langtag_extension.specs.Compared.{ExtensionBufsCompareByCase};
    ghost use Rattle.langtag_extension.specs.Text.{extension_text, extension_buf_string, extension_buf_text};

    /// Parses a `String` as an extension and keeps it, without copying.
    ///
    /// # Errors
    ///
    /// Returns the same `String` if it is not one extension, such as `a`.
    ///
    /// ```
    /// use langtag_extension::ExtensionBuf;
    /// use std::str::FromStr;
    ///
    /// ExtensionBuf::new(String::from_str(alloc, "u-co")?)?.as_str(); // "u-co"
    /// ExtensionBuf::new(String::from_str(alloc, "a")?).is_err(); // true
    /// ```
    pub fn new(text: String) -> Result<ExtensionBuf, InvalidExtension<String>>
        ensures accepts { IsTrue (is_ok result) ↔ IsExtension (string_bytes text) }
        ensures same_text { IfOk result (λ extension. extension_buf_text extension ≡ string_bytes text) }
        ensures same_string { IfOk result (λ extension. extension_buf_string extension ≡ text) }
        ensures given_back { IfErr result (λ error. error.0 ≡ text) }
    {
        if !is_extension(text.as_str()) {
            return Err(InvalidExtension(text));
        }
        Ok(ExtensionBuf {
            text: Caseless(text),
        })
    }

    /// Borrows the extension: `Extension::new("U-CO")?.try_to_owned(alloc)?.as_extension().as_str()` is `"U-CO"`.
    #[tactic(auto, using(langtag_scan::proofs::CaseOrder::bytes_ends_first))]
    pub fn as_extension(&self) -> Extension<'_>
        ensures same_text { extension_text result ≡ extension_buf_text self.now }

        ensures compared { ExtensionBufsCompareByCase }
    {
        Extension::from_checked(self.as_str())
    }

    /// Returns the string, in its original case: `Extension::new("U-CO")?.try_to_owned(alloc)?.as_str()` is `"U-CO"`.
    pub fn as_str(&self) -> &str
        ensures same_text { result.now ≡ extension_buf_text self.now }
        ensures in_class { IsExtension result.now }
    {
        self.text.0.as_str()
    }

    /// Returns the `String`, without copying it: `Extension::new("U-CO")?.try_to_owned(alloc)?.into_string()` is
    /// `"U-CO"`.
    pub fn into_string(self) -> String
        ensures same_text { string_bytes result ≡ extension_buf_text self }
        ensures same_string { result ≡ extension_buf_string self }
        ensures in_class { IsExtension (string_bytes result) }
    {
        self.text.0
    }
}

impl fmt::Display for ExtensionBuf {
    ghost use Rattle.langtag_extension.specs.Text.{extension_buf_text};

    ghost output = { λ extension. Some (extension_buf_text extension) };

    fn fmt<W: fmt::Write>(&self, f: &mut fmt::Formatter<W>) -> fmt::Result {
        f.write_str(self.as_str())
    }
}

/// Returns whether the string is a singleton and at least one subtag of an extension, joined by hyphens.
pub(crate) fn is_extension(text: &str) -> bool
    ensures { result ≡ is_extension_text text.now }
{
    let mut subtags = Subtags::new(text);
    let opened = subtags
        .next()
        .is_some_and(|opening| is_singleton_alone(opening.as_bytes()));
    let followed = subtags
        .next()
        .is_some_and(|first| is_extension_subtag(first.as_bytes()));
    opened && followed && all_are_extension_subtags(subtags)
}

/// Returns whether the bytes are only a singleton.
fn is_singleton_alone(bytes: &[u8]) -> bool
    ensures { result ≡ is_singleton_alone bytes.now }
{
    match bytes {
        [byte] => is_singleton(*byte),
        _ => false,
    }
}

/// Returns whether all subtags that are left are subtags of an extension.
fn all_are_extension_subtags(mut subtags: Subtags<'_>) -> bool
    ensures { result ≡ are_extension_subtags subtags.entry }
{
    subtags.all(|subtag| is_extension_subtag(subtag.as_bytes()))
}
