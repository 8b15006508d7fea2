//! The private use part of a tag (RFC 5646 section 2.2.7).
ghost use Rattle.std.specs.Prelude.{◌≡◌, ◌↔◌, Some, IsTrue, IfOk, IfErr, is_ok, drop, string_bytes};
ghost use Rattle.langtag_scan.specs.Grammar.{are_alike, subtags};
ghost use Rattle.langtag_private.specs.PrivateUse.{IsPrivateUse, EachPrivateUseSpelling};
ghost use Rattle.langtag_private.specs.Decided as test;

use crate::private_use_iter::PrivateUseIter;
use langtag_scan::{Caseless, Subtags, is_mark, is_private_subtag};
use std::alloc::{AllocError, Global};
use std::fmt;
use std::fmt::Debug;
use thiserror::Error;

/// The error for a string that is not a private use part. It contains the string.
///
/// ```
/// use langtag_private::PrivateUse;
///
/// let error = PrivateUse::new("x").err();
/// error.map(|error| error.0); // Some("x")
/// ```
#[derive(Debug, Drop, Error)]
#[error("invalid private use")]
#[error_bound(T: Debug + Drop)]
pub struct InvalidPrivateUse<T>(pub T);

/// A private use part (RFC 5646 section 2.2.7): `x` or `X`, and one or more subtags after it, joined by hyphens, such
/// as `x-twain`. It may be the end of a tag, or a whole tag.
///
/// Two private use parts are equal if their strings differ only in the case of ASCII letters, such as `x-twain` and
/// `X-TWAIN`.
///
/// ```
/// use langtag_private::PrivateUse;
///
/// let part = PrivateUse::new("x-twain")?;
/// part.as_str(); // "x-twain"
/// part == PrivateUse::new("X-TWAIN")?; // true
/// ```
#[derive(Clone, Copy, Debug, PartialEq, Eq, PartialOrd, Ord, Hash)]
pub struct PrivateUse<'a> {
    text: Caseless<&'a str>,
    ghost in_class: { IsTrue (test.is_private_use_text text.0.now) },
}

#[tactic(auto, using(crate::proofs::Rules::private_rules))]
impl<'a> PrivateUse<'a> {
    ghost use Rattle.langtag_private.specs.Compared.{PrivateUsesCompareByCase};
    ghost use Rattle.langtag_private.specs.Text.{private_use_text, private_use_buf_text, private_use_subtags_left};

    /// Parses a string as a private use part: `PrivateUse::new("x-twain")` is `Ok`.
    ///
    /// # Errors
    ///
    /// Returns the string if it is not a private use part: `PrivateUse::new("x")` is `Err(InvalidPrivateUse("x"))`.
    pub fn new(text: &'a str) -> Result<PrivateUse<'a>, InvalidPrivateUse<&'a str>>
        ensures accepts { IsTrue (is_ok result) ↔ (IsPrivateUse text.now) }
        ensures same_text { IfOk result (λ private_use. private_use_text private_use ≡ text.now) }
        ensures given_back { IfErr result (λ error. error.0 ≡ text.entry) }
    {
        if !is_private_use(text) {
            return Err(InvalidPrivateUse(text));
        }
        Ok(PrivateUse::from_checked(text))
    }

    /// Wraps a string that is known to be a private use part, without checking it.
    /// `PrivateUse::from_checked(private_use.as_str())` is equal to `private_use`.
    pub fn from_checked(text: &'a str) -> PrivateUse<'a>
        requires { IsPrivateUse text.now }
        ensures { private_use_text result ≡ text.now }
    {
        PrivateUse {
            text: Caseless(text),
        }
    }

    /// Returns the string, in its original case: `PrivateUse::new("X-TWAIN")?.as_str()` is `"X-TWAIN"`.
    pub fn as_str(&self) -> &'a str
        ensures same_text { result.now ≡ private_use_text self.now }
        ensures in_class { IsPrivateUse result.now }
    {
        self.text.0
    }

    /// Returns the string as bytes: `PrivateUse::new("X-TWAIN")?.as_bytes()` is `b"X-TWAIN"`.
    pub fn as_bytes(&self) -> &'a [u8]
        ensures { result.now ≡ private_use_text self.now }
    {
        self.as_str().as_bytes()
    }

    /// Returns whether another string equals this string, ignoring the case of ASCII letters:
    /// `PrivateUse::new("x-twain")?.eq_str("X-TWAIN")` is `true`. Comparisons and hashes also ignore case.
    #[tactic(auto, using(langtag_scan::proofs::CaseOrder::bytes_ends_first, crate::proofs::Rules::alike_private_use))]
    pub fn eq_str(&self, other: &str) -> bool
        ensures test { result ≡ are_alike (private_use_text self.now) other.now }
        ensures in_class { IsTrue result → IsPrivateUse other.now }

        ensures compared { PrivateUsesCompareByCase }
        ensures cloned { (copy : PrivateUse) → ⟦<PrivateUse<'a> as Clone>⟧.is_clone self.now copy → copy ≡ self.now }
        ensures clone_succeeds { ⟦<PrivateUse<'a> as Clone>⟧.is_infallible self.now }
    {
        self.text == Caseless(other)
    }

    /// Copies the string into an owned value: `PrivateUse::new("X-TWAIN")?.try_to_owned(alloc)?.as_str()` is
    /// `"X-TWAIN"`.
    ///
    /// # Errors
    ///
    /// Returns an error if allocation fails.
    pub fn try_to_owned(&self, alloc: Global) -> Result<PrivateUseBuf, AllocError>
        ensures { IfOk result (λ owned. private_use_buf_text owned ≡ private_use_text self.now) }
    {
        let text = String::from_str(alloc, self.as_str())?;
        Ok(PrivateUseBuf {
            text: Caseless(text),
        })
    }

    /// Returns an iterator over the subtags after the first `x`: `PrivateUse::new("x-a-x")?.iter()` yields `a` and `x`.
    ///
    /// ```
    /// use langtag_private::PrivateUse;
    ///
    /// let mut subtags = PrivateUse::new("x-a-x")?.iter();
    /// subtags.next().map(|subtag| subtag.as_str()); // Some("a")
    /// subtags.next().map(|subtag| subtag.as_str()); // Some("x")
    /// ```
    #[tactic(auto, using(crate::proofs::Rules::others_spelled))]
    pub fn iter(&self) -> PrivateUseIter<'a>
        ensures list { private_use_subtags_left result ≡ drop 1 (subtags (private_use_text self.now)) }
        ensures members { EachPrivateUseSpelling (private_use_text self.now)
            (λ members. private_use_subtags_left result ≡ members) }

        ensures cloned { (walk copy : PrivateUseIter) → ⟦<PrivateUseIter<'a> as Clone>⟧.is_clone walk copy
            → private_use_subtags_left copy ≡ private_use_subtags_left walk }
        ensures clone_succeeds { (walk : PrivateUseIter) → ⟦<PrivateUseIter<'a> as Clone>⟧.is_infallible walk }
    {
        PrivateUseIter::new(self.as_str())
    }
}

/// Returns whether the string is `x` or `X` and at least one private use subtag, joined by hyphens.
fn is_private_use(text: &str) -> bool
    ensures { result ≡ test.is_private_use_text text.now }
{
    let mut subtags = Subtags::new(text);
    let marked = subtags
        .next()
        .is_some_and(|mark| is_mark_alone(mark.as_bytes()));
    let followed = subtags
        .next()
        .is_some_and(|first| is_private_subtag(first.as_bytes()));
    marked && followed && are_private(subtags)
}

/// Returns whether the bytes are only `x` or `X`.
fn is_mark_alone(bytes: &[u8]) -> bool
    ensures { result ≡ test.is_mark_alone bytes.now }
{
    match bytes {
        [byte] => is_mark(*byte),
        _ => false,
    }
}

/// Returns whether all subtags that are left are private use subtags.
fn are_private(mut subtags: Subtags<'_>) -> bool
    ensures { result ≡ test.are_private subtags.entry }
{
    subtags.all(|subtag| is_private_subtag(subtag.as_bytes()))
}

impl fmt::Display for PrivateUse<'_> {
    ghost use Rattle.langtag_private.specs.Text.{private_use_text};

    ghost output = { λ private_use. Some (private_use_text private_use) };

    fn fmt<W: fmt::Write>(&self, f: &mut fmt::Formatter<W>) -> fmt::Result {
        f.write_str(self.as_str())
    }
}

/// A private use part that owns its text.
///
/// ```
/// use langtag_private::PrivateUse;
///
/// let owned = PrivateUse::new("x-twain")?.try_to_owned(alloc)?;
/// owned.as_private_use() == PrivateUse::new("X-TWAIN")?; // true
/// owned.into_string().as_str(); // "x-twain"
/// ```
#[derive(Debug, Drop, PartialEq, Eq, PartialOrd, Ord, Hash)]
pub struct PrivateUseBuf {
    text: Caseless<String>,
    ghost in_class: { IsTrue (test.is_private_use_text (string_bytes text.0)) },
}

#[tactic(auto, using(crate::proofs::Rules::private_rules))]
impl PrivateUseBuf {
    ghost use Rattle.langtag_private.specs.Compared.{PrivateUseBufsCompareByCase};
    ghost use Rattle.langtag_private.specs.Text.{private_use_text, private_use_buf_text, private_use_buf_string};

    /// Parses a `String` as a private use part and keeps it, without copying.
    ///
    /// # Errors
    ///
    /// Returns the same `String` if it is not a private use part, such as `x`.
    ///
    /// ```
    /// use langtag_private::PrivateUseBuf;
    /// use std::str::FromStr;
    ///
    /// PrivateUseBuf::new(String::from_str(alloc, "x-twain")?)?.as_str(); // "x-twain"
    /// PrivateUseBuf::new(String::from_str(alloc, "x")?).is_err(); // true
    /// ```
    pub fn new(text: String) -> Result<PrivateUseBuf, InvalidPrivateUse<String>>
        ensures accepts { IsTrue (is_ok result) ↔ (IsPrivateUse (string_bytes text)) }
        ensures same_text { IfOk result (λ private_use. private_use_buf_text private_use ≡ string_bytes text) }
        ensures same_string { IfOk result (λ private_use. private_use_buf_string private_use ≡ text) }
        ensures given_back { IfErr result (λ error. error.0 ≡ text) }
    {
        if !is_private_use(text.as_str()) {
            return Err(InvalidPrivateUse(text));
        }
        Ok(PrivateUseBuf {
            text: Caseless(text),
        })
    }

    /// Borrows the private use part: `PrivateUse::new("X-TWAIN")?.try_to_owned(alloc)?.as_private_use().as_str()` is
    /// `"X-TWAIN"`.
    #[tactic(auto, using(langtag_scan::proofs::CaseOrder::bytes_ends_first))]
    pub fn as_private_use(&self) -> PrivateUse<'_>
        ensures same_text { private_use_text result ≡ private_use_buf_text self.now }

        ensures compared { PrivateUseBufsCompareByCase }
    {
        PrivateUse::from_checked(self.as_str())
    }

    /// Returns the string, in its original case: `PrivateUse::new("X-TWAIN")?.try_to_owned(alloc)?.as_str()` is
    /// `"X-TWAIN"`.
    pub fn as_str(&self) -> &str
        ensures same_text { result.now ≡ private_use_buf_text self.now }
        ensures in_class { IsPrivateUse result.now }
    {
        self.text.0.as_str()
    }

    /// Returns the `String`, without copying it: `PrivateUse::new("X-TWAIN")?.try_to_owned(alloc)?.into_string()` is
    /// `"X-TWAIN"`.
    pub fn into_string(self) -> String
        ensures same_text { string_bytes result ≡ private_use_buf_text self }
        ensures same_string { result ≡ private_use_buf_string self }
        ensures in_class { IsPrivateUse (string_bytes result) }
    {
        self.text.0
    }
}

impl fmt::Display for PrivateUseBuf {
    ghost use Rattle.langtag_private.specs.Text.{private_use_buf_text};

    ghost output = { λ private_use. Some (private_use_buf_text private_use) };

    fn fmt<W: fmt::Write>(&self, f: &mut fmt::Formatter<W>) -> fmt::Result {
        f.write_str(self.as_str())
    }
}
