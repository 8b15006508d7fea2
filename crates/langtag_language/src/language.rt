//! The language of a tag (RFC 5646 sections 2.2.1 and 2.2.2).
ghost use Rattle.std.specs.Prelude.{◌≡◌, ◌↔◌, ◌∷◌, [], Some, IsTrue, is_ok, drop, slice_get};
ghost use Rattle.std.specs.Prelude.{IsNone, IfSome, IfOk, IfErr, string_bytes};
ghost use Rattle.langtag_scan.specs.Grammar.{are_alike, subtags};
ghost use Rattle.langtag_language.specs.Language.{IsLanguage, EachLanguageSpelling, SpellsLanguageExtension};
ghost use Rattle.langtag_language.specs.Decided as test;

use crate::extended_subtags::are_extended_within;
use crate::language_extension::LanguageExtension;
use crate::language_extension_iter::LanguageExtensionIter;
use crate::primary_language::PrimaryLanguage;
use langtag_scan::{Caseless, Subtags, is_primary, segment_end};
use std::alloc::{AllocError, Global};
use std::fmt;
use std::fmt::Debug;
use thiserror::Error;

/// The error for a string that is not a language. It contains the string.
///
/// ```
/// use langtag_language::Language;
///
/// let error = Language::new("zh_yue").err();
/// error.map(|error| error.0); // Some("zh_yue")
/// ```
#[derive(Debug, Drop, Error)]
#[error("invalid language")]
#[error_bound(T: Debug + Drop)]
pub struct InvalidLanguage<T>(pub T);

/// The language of a tag: a primary subtag (RFC 5646 section 2.2.1), such as `fr`, and up to three extended subtags
/// (section 2.2.2), as in `zh-min-nan`. Extended subtags follow only a primary subtag of two or three letters.
///
/// Two languages are equal if their strings differ only in the case of ASCII letters, such as `zh-yue` and `ZH-YUE`.
///
/// ```
/// use langtag_language::Language;
///
/// let language = Language::new("zh-yue")?;
/// language.as_str(); // "zh-yue"
/// language == Language::new("ZH-YUE")?; // true
/// ```
#[derive(Clone, Copy, Debug, PartialEq, Eq, PartialOrd, Ord, Hash)]
pub struct Language<'a> {
    text: Caseless<&'a str>,
    ghost in_class: { IsTrue (test.is_language text.0.now) },
}

#[tactic(auto, using(crate::proofs::Rules::language_rules))]
impl<'a> Language<'a> {
    ghost use Rattle.langtag_language.specs.Compared.{LanguagesCompareByCase};
    ghost use Rattle.langtag_language.specs.Text.{language_text, language_buf_text, primary_language_text};
    ghost use Rattle.langtag_language.specs.Text.{language_extension_text, extension_list, extended_subtags_left};

    /// Parses a string as a language: `Language::new("zh-yue")` is `Ok`.
    ///
    /// # Errors
    ///
    /// Returns the string if it is not a language: `Language::new("zh-")` is `Err(InvalidLanguage("zh-"))`.
    pub fn new(text: &'a str) -> Result<Language<'a>, InvalidLanguage<&'a str>>
        ensures accepts { IsTrue (is_ok result) ↔ (IsLanguage text.now) }
        ensures same_text { IfOk result (λ language. language_text language ≡ text.now) }
        ensures given_back { IfErr result (λ error. error.0 ≡ text.entry) }
    {
        if !is_language(text) {
            return Err(InvalidLanguage(text));
        }
        Ok(Language::from_checked(text))
    }

    /// Wraps a string that is known to be a language, without checking it. `Language::from_checked(language.as_str())`
    /// is equal to `language`.
    pub fn from_checked(text: &'a str) -> Language<'a>
        requires { IsLanguage text.now }
        ensures { language_text result ≡ text.now }
    {
        Language {
            text: Caseless(text),
        }
    }

    /// Returns the string, in its original case: `Language::new("ZH-YUE")?.as_str()` is `"ZH-YUE"`.
    pub fn as_str(&self) -> &'a str
        ensures same_text { result.now ≡ language_text self.now }
        ensures in_class { IsLanguage result.now }
    {
        self.text.0
    }

    /// Returns the string as bytes: `Language::new("ZH-YUE")?.as_bytes()` is `b"ZH-YUE"`.
    pub fn as_bytes(&self) -> &'a [u8]
        ensures { result.now ≡ language_text self.now }
    {
        self.as_str().as_bytes()
    }

    /// Returns whether another string equals this string, ignoring the case of ASCII letters:
    /// `Language::new("zh-yue")?.eq_str("ZH-YUE")` is `true`. Comparisons and hashes also ignore case.
    #[tactic(auto, using(langtag_scan::proofs::CaseOrder::bytes_ends_first, crate::proofs::Rules::alike_language))]
    pub fn eq_str(&self, other: &str) -> bool
        ensures test { result ≡ are_alike (language_text self.now) other.now }
        ensures in_class { IsTrue result → IsLanguage other.now }

        ensures compared { LanguagesCompareByCase }
        ensures cloned { (copy : Language) → ⟦<Language<'a> as Clone>⟧.is_clone self.now copy → copy ≡ self.now }
        ensures clone_succeeds { ⟦<Language<'a> as Clone>⟧.is_infallible self.now }
    {
        self.text == Caseless(other)
    }

    /// Copies the string into an owned value: `Language::new("ZH-YUE")?.try_to_owned(alloc)?.as_str()` is `"ZH-YUE"`.
    ///
    /// # Errors
    ///
    /// Returns an error if allocation fails.
    pub fn try_to_owned(&self, alloc: Global) -> Result<LanguageBuf, AllocError>
        ensures { IfOk result (λ owned. language_buf_text owned ≡ language_text self.now) }
    {
        let text = String::from_str(alloc, self.as_str())?;
        Ok(LanguageBuf {
            text: Caseless(text),
        })
    }

    /// Returns the primary subtag: `Language::new("zh-yue")?.primary().as_str()` is `"zh"`.
    #[tactic(auto, using(crate::proofs::Members::members_spelled))]
    pub fn primary(&self) -> PrimaryLanguage<'a>
        ensures list { slice_get (subtags (language_text self.now)) 0 ≡ Some (primary_language_text result) }
        ensures member { EachLanguageSpelling (language_text self.now)
            (λ primary extended. primary_language_text result ≡ primary) }
    {
        self.split().0
    }

    /// Returns the extended subtags as one string, or `None` if there are none: `min-nan` for `zh-min-nan`.
    ///
    /// ```
    /// use langtag_language::Language;
    ///
    /// let extension = Language::new("zh-min-nan")?.extension();
    /// extension.map(|extension| extension.as_str()); // Some("min-nan")
    /// ```
    #[tactic(auto, using(crate::proofs::Members::members_spelled, crate::proofs::Members::present_extension))]
    pub fn extension(&self) -> Option<LanguageExtension<'a>>
        ensures absent { EachLanguageSpelling (language_text self.now) (λ primary extended. IsNone result ↔ (extended ≡ [])) }
        ensures members { EachLanguageSpelling (language_text self.now) (λ primary extended.
            IfSome result (λ extension. SpellsLanguageExtension extended (language_extension_text extension))) }
    {
        self.split().1
    }

    /// Returns an iterator over the extended subtags: `Language::new("zh-min-nan")?.extension_subtags()` yields `min`
    /// and `nan`.
    ///
    /// ```
    /// use langtag_language::Language;
    ///
    /// let mut subtags = Language::new("zh-min-nan")?.extension_subtags();
    /// subtags.next().map(|subtag| subtag.as_str()); // Some("min")
    /// ```
    pub fn extension_subtags(&self) -> LanguageExtensionIter<'a>
        ensures list { extended_subtags_left result ≡ drop 1 (subtags (language_text self.now)) }
        ensures members { EachLanguageSpelling (language_text self.now)
            (λ primary extended. extended_subtags_left result ≡ extended) }
    {
        let (_, extension) = self.split();
        match extension {
            Some(extension) => extension.iter(),
            None => LanguageExtensionIter::empty(),
        }
    }

    /// Returns the primary subtag, and the extension if there is one.
    #[tactic(auto, using(crate::proofs::FirstHyphen::language_alone, crate::proofs::FirstHyphen::language_cut, langtag_scan::proofs::SubtagLists::splits))]
    fn split(&self) -> (PrimaryLanguage<'a>, Option<LanguageExtension<'a>>)
        ensures { subtags (language_text self.now) ≡ primary_language_text result.0 ∷ extension_list result.1 }
    {
        let text = self.as_str();
        let end = segment_end(text.as_bytes(), 0);
        if end == text.len() {
            return (PrimaryLanguage::from_checked(text), None);
        }
        let primary = PrimaryLanguage::from_checked(&text[..end]);
        let extension = LanguageExtension::from_checked(&text[end + 1..]);
        (primary, Some(extension))
    }
}

/// Returns whether the string is a language: a primary subtag, and at most three extended subtags, which only a primary
/// subtag of two or three letters may have.
fn is_language(text: &str) -> bool
    ensures { result ≡ test.is_language text.now }
{
    let mut subtags = Subtags::new(text);
    let Some(primary) = subtags.next() else {
        return false;
    };
    let room = if primary.len() <= 3 { 3 } else { 0 };
    is_primary(primary.as_bytes()) && are_extended_within(room, subtags)
}

impl fmt::Display for Language<'_> {
    ghost use Rattle.langtag_language.specs.Text.{language_text};

    ghost output = { λ language. Some (language_text language) };

    fn fmt<W: fmt::Write>(&self, f: &mut fmt::Formatter<W>) -> fmt::Result {
        f.write_str(self.as_str())
    }
}

/// A language that owns its text.
///
/// ```
/// use langtag_language::Language;
///
/// let owned = Language::new("zh-yue")?.try_to_owned(alloc)?;
/// owned.as_language() == Language::new("ZH-YUE")?; // true
/// owned.into_string().as_str(); // "zh-yue"
/// ```
#[derive(Debug, Drop, PartialEq, Eq, PartialOrd, Ord, Hash)]
pub struct LanguageBuf {
    text: Caseless<String>,
    ghost in_class: { IsTrue (test.is_language (string_bytes text.0)) },
}

#[tactic(auto, using(crate::proofs::Rules::language_rules))]
impl LanguageBuf {
    ghost use Rattle.langtag_language.specs.Compared.{LanguageBufsCompareByCase};
    ghost use Rattle.langtag_language.specs.Text.{language_text, language_buf_text, language_buf_string};

    /// Parses a `String` as a language and keeps it, without copying.
    ///
    /// # Errors
    ///
    /// Returns the same `String` if it is not a language, such as `zh-`.
    ///
    /// ```
    /// use langtag_language::LanguageBuf;
    /// use std::str::FromStr;
    ///
    /// LanguageBuf::new(String::from_str(alloc, "zh-yue")?)?.as_str(); // "zh-yue"
    /// LanguageBuf::new(String::from_str(alloc, "zh-")?).is_err(); // true
    /// ```
    pub fn new(text: String) -> Result<LanguageBuf, InvalidLanguage<String>>
        ensures accepts { IsTrue (is_ok result) ↔ (IsLanguage (string_bytes text)) }
        ensures same_text { IfOk result (λ language. language_buf_text language ≡ string_bytes text) }
        ensures same_string { IfOk result (λ language. language_buf_string language ≡ text) }
        ensures given_back { IfErr result (λ error. error.0 ≡ text) }
    {
        if !is_language(text.as_str()) {
            return Err(InvalidLanguage(text));
        }
        Ok(LanguageBuf {
            text: Caseless(text),
        })
    }

    /// Borrows the language: `Language::new("ZH-YUE")?.try_to_owned(alloc)?.as_language().as_str()` is `"ZH-YUE"`.
    #[tactic(auto, using(langtag_scan::proofs::CaseOrder::bytes_ends_first))]
    pub fn as_language(&self) -> Language<'_>
        ensures same_text { language_text result ≡ language_buf_text self.now }

        ensures compared { LanguageBufsCompareByCase }
    {
        Language::from_checked(self.as_str())
    }

    /// Returns the string, in its original case: `Language::new("ZH-YUE")?.try_to_owned(alloc)?.as_str()` is
    /// `"ZH-YUE"`.
    pub fn as_str(&self) -> &str
        ensures same_text { result.now ≡ language_buf_text self.now }
        ensures in_class { IsLanguage result.now }
    {
        self.text.0.as_str()
    }

    /// Returns the `String`, without copying it: `Language::new("ZH-YUE")?.try_to_owned(alloc)?.into_string()` is
    /// `"ZH-YUE"`.
    pub fn into_string(self) -> String
        ensures same_text { string_bytes result ≡ language_buf_text self }
        ensures same_string { result ≡ language_buf_string self }
        ensures in_class { IsLanguage (string_bytes result) }
    {
        self.text.0
    }
}

impl fmt::Display for LanguageBuf {
    ghost use Rattle.langtag_language.specs.Text.{language_buf_text};

    ghost output = { λ language. Some (language_buf_text language) };

    fn fmt<W: fmt::Write>(&self, f: &mut fmt::Formatter<W>) -> fmt::Result {
        f.write_str(self.as_str())
    }
}
