//! Language ranges (RFC 4647 section 2), borrowed and owned.
ghost use Rattle.std.specs.Prelude.{◌≡◌, ◌<◌, ◌^◌, ◌↔◌, Some, IsTrue, IfOk, IfErr, is_ok, length, string_bytes};
ghost use Rattle.langtag_scan.specs.Grammar.{are_alike};
ghost use Rattle.langtag.specs.Definitions.{lang_tag_text};
ghost use Rattle.langtag_range.specs.Definitions.{MatchesBasic, test_basic, MatchesExtended, test_extended};
ghost use Rattle.langtag_range.specs.Definitions.{fallbacks, is_basic_range, is_language_range};

use crate::fallbacks::Fallbacks;
use langtag::LangTag;
use langtag_range::{is_basic_range, is_language_range, matches_basic, matches_extended};
use langtag_scan::Caseless;
use std::alloc::{AllocError, Global};
use std::fmt;
use std::fmt::Debug;
use thiserror::Error;

/// The error for a string that is not a language range. It contains the string.
///
/// ```
/// use langtag_match::LanguageRange;
///
/// LanguageRange::new("de_CH").err().map(|error| error.0); // Some("de_CH")
/// ```
#[derive(Debug, Drop, Error)]
#[error("invalid language range")]
#[error_bound(T: Debug + Drop)]
pub struct InvalidLanguageRange<T>(pub T);

/// A language range, basic or extended (RFC 4647 sections 2.1 and 2.2): `de-CH`, `*`, `*-CH`, `de-*-DE`.
///
/// A range has one or more subtags. Each subtag is `*`, or one to eight letters and digits. The first subtag has no
/// digits. A range need not be a tag: `de-x` and `a-1` are ranges. Two ranges are equal if their strings differ only in
/// the case of ASCII letters.
///
/// ```
/// use langtag::LangTag;
/// use langtag_match::LanguageRange;
///
/// let range = LanguageRange::new("de-*-DE")?;
/// range.matches_extended(&LangTag::new("de-Latn-DE-1996")?); // true
/// range.matches_basic(&LangTag::new("de-Latn-DE-1996")?); // false
/// ```
#[derive(Clone, Copy, Debug, PartialEq, Eq, PartialOrd, Ord, Hash)]
pub struct LanguageRange<'a> {
    text: Caseless<&'a str>,
    ghost in_class: { IsTrue (is_language_range text.0.now) },
}

impl<'a> LanguageRange<'a> {
    ghost use Rattle.langtag_match.specs.Compared.{LanguageRangesCompareByCase};
    ghost use Rattle.langtag_match.specs.Text.{language_range_text, language_range_buf_text, fallbacks_left};

    /// Parses a string as a range: `LanguageRange::new("de-*-DE")` is `Ok`.
    ///
    /// # Errors
    ///
    /// Returns the string if it is not a range: `LanguageRange::new("de_DE")` is `Err(InvalidLanguageRange("de_DE"))`.
    pub fn new(text: &'a str) -> Result<LanguageRange<'a>, InvalidLanguageRange<&'a str>>
        ensures accepts { is_ok result ≡ is_language_range text.now }
        ensures same_text { IfOk result (λ range. language_range_text range ≡ text.now) }
        ensures given_back { IfErr result (λ error. error.0 ≡ text.entry) }
    {
        if !is_language_range(text) {
            return Err(InvalidLanguageRange(text));
        }
        Ok(LanguageRange::from_checked(text))
    }

    /// Wraps a string that is known to be a language range, without checking it.
    /// `LanguageRange::from_checked(range.as_str())` is equal to `range`.
    pub fn from_checked(text: &'a str) -> LanguageRange<'a>
        requires { IsTrue (is_language_range text.now) }
        ensures { language_range_text result ≡ text.now }
    {
        LanguageRange {
            text: Caseless(text),
        }
    }

    /// Returns the string, in its original case: `LanguageRange::new("de-ch")?.as_str()` is `"de-ch"`.
    pub fn as_str(&self) -> &'a str
        ensures same_text { result.now ≡ language_range_text self.now }
        ensures in_class { IsTrue (is_language_range result.now) }
    {
        self.text.0
    }

    /// Returns whether another string equals this string, ignoring the case of ASCII letters:
    /// `LanguageRange::new("de-CH")?.eq_str("DE-ch")` is `true`. Comparisons and hashes also ignore case.
    #[tactic(auto, using(langtag_scan::proofs::CaseOrder::bytes_ends_first))]
    pub fn eq_str(&self, other: &str) -> bool
        ensures test { result ≡ are_alike (language_range_text self.now) other.now }

        ensures compared { LanguageRangesCompareByCase }
        ensures cloned { (copy : LanguageRange) → ⟦<LanguageRange<'a> as Clone>⟧.is_clone self.now copy → copy ≡ self.now }
        ensures clone_succeeds { ⟦<LanguageRange<'a> as Clone>⟧.is_infallible self.now }
    {
        self.text == Caseless(other)
    }

    /// Returns whether the range is a basic range (RFC 4647 section 2.1): `true` for `de-CH` and `*`, `false` for
    /// `*-CH`.
    ///
    /// ```
    /// use langtag_match::LanguageRange;
    ///
    /// LanguageRange::new("de-CH")?.is_basic(); // true
    /// LanguageRange::new("*-CH")?.is_basic(); // false
    /// ```
    pub fn is_basic(&self) -> bool
        ensures { result ≡ is_basic_range (language_range_text self.now) }
    {
        is_basic_range(self.as_str())
    }

    /// Returns whether the range matches a tag by basic filtering (RFC 4647 section 3.3.1): `de-DE` matches
    /// `de-DE-1996`, but neither `de-Deva` nor `de-Latn-DE`.
    ///
    /// This method is meant for basic ranges. In other ranges, `*` equals no subtag, so `de-*` matches nothing.
    ///
    /// ```
    /// use langtag::LangTag;
    /// use langtag_match::LanguageRange;
    ///
    /// let range = LanguageRange::new("de-DE")?;
    /// range.matches_basic(&LangTag::new("de-DE-1996")?); // true
    /// range.matches_basic(&LangTag::new("de-Latn-DE")?); // false
    /// ```
    pub fn matches_basic(&self, tag: &LangTag<'_>) -> bool
        ensures matches { IsTrue result ↔ MatchesBasic (language_range_text self.now) (lang_tag_text tag.now) }
        // law: the statement of RFC 4647 as a computed test
        ensures test { result ≡ test_basic (language_range_text self.now) (lang_tag_text tag.now) }
    {
        matches_basic(self.as_str(), tag.as_str())
    }

    /// Returns whether the range matches a tag by extended filtering (RFC 4647 section 3.3.2): `de-DE` and `de-*-DE`
    /// match `de-Latn-DE-1996`. They do not match `de-x-DE`, because a singleton is never skipped.
    ///
    /// ```
    /// use langtag::LangTag;
    /// use langtag_match::LanguageRange;
    ///
    /// let range = LanguageRange::new("de-DE")?;
    /// range.matches_extended(&LangTag::new("de-Latn-DE-1996")?); // true
    /// range.matches_extended(&LangTag::new("de-x-DE")?); // false
    /// ```
    pub fn matches_extended(&self, tag: &LangTag<'_>) -> bool
        ensures matches { IsTrue result ↔ MatchesExtended (language_range_text self.now) (lang_tag_text tag.now) }
        // law: the statement of RFC 4647 as a computed test
        ensures test { result ≡ test_extended (language_range_text self.now) (lang_tag_text tag.now) }
    {
        matches_extended(self.as_str(), tag.as_str())
    }

    /// Returns an iterator over the range and its fallbacks, the longest first (RFC 4647 section 3.4): `zh-Hant-TW`,
    /// `zh-Hant` and `zh`. [`look_up`](crate::look_up) tries them in this order.
    ///
    /// ```
    /// use langtag_match::LanguageRange;
    ///
    /// let mut fallbacks = LanguageRange::new("zh-Hant-TW")?.fallbacks();
    /// fallbacks.next().map(|range| range.as_str()); // Some("zh-Hant-TW")
    /// fallbacks.next().map(|range| range.as_str()); // Some("zh-Hant")
    /// ```
    pub fn fallbacks(&self) -> Fallbacks<'a>
        ensures list { fallbacks_left result ≡ fallbacks (language_range_text self.now) }
        ensures few { length (fallbacks_left result) < 2 ^ 64 }

        ensures cloned { (walk copy : Fallbacks) → ⟦<Fallbacks<'a> as Clone>⟧.is_clone walk copy
            → fallbacks_left copy ≡ fallbacks_left walk }
        ensures clone_succeeds { (walk : Fallbacks) → ⟦<Fallbacks<'a> as Clone>⟧.is_infallible walk }
    {
        Fallbacks::new(*self)
    }

    /// Copies the string into an owned value: `LanguageRange::new("de-*")?.try_to_owned(alloc)?.as_str()` is `"de-*"`.
    ///
    /// # Errors
    ///
    /// Returns an error if allocation fails.
    pub fn try_to_owned(&self, alloc: Global) -> Result<LanguageRangeBuf, AllocError>
        ensures { IfOk result (λ owned. language_range_buf_text owned ≡ language_range_text self.now) }
    {
        let text = String::from_str(alloc, self.as_str())?;
        Ok(LanguageRangeBuf {
            text: Caseless(text),
        })
    }
}

impl fmt::Display for LanguageRange<'_> {
    ghost use Rattle.langtag_match.specs.Text.{language_range_text};

    ghost output = { λ range. Some (language_range_text range) };

    fn fmt<W: fmt::Write>(&self, f: &mut fmt::Formatter<W>) -> fmt::Result {
        f.write_str(self.as_str())
    }
}

/// A language range that owns its text.
///
/// ```
/// use langtag_match::LanguageRange;
///
/// let owned = LanguageRange::new("de-*")?.try_to_owned(alloc)?;
/// owned.as_language_range() == LanguageRange::new("DE-*")?; // true
/// ```
#[derive(Debug, Drop, PartialEq, Eq, PartialOrd, Ord, Hash)]
pub struct LanguageRangeBuf {
    text: Caseless<String>,
    ghost in_class: { IsTrue (is_language_range (string_bytes text.0)) },
}

impl LanguageRangeBuf {
    ghost use Rattle.langtag_match.specs.Compared.{LanguageRangeBufsCompareByCase};
    ghost use Rattle.langtag_match.specs.Text.{language_range_text, language_range_buf_string, language_range_buf_text};

    /// Parses a `String` as a range and keeps it, without copying.
    ///
    /// # Errors
    ///
    /// Returns the same `String` if it is not a range, such as `de-`.
    ///
    /// ```
    /// use langtag_match::LanguageRangeBuf;
    /// use std::str::FromStr;
    ///
    /// LanguageRangeBuf::new(String::from_str(alloc, "de-*")?)?.as_str(); // "de-*"
    /// LanguageRangeBuf::new(String::from_str(alloc, "de-")?).is_err(); // true
    /// ```
    pub fn new(text: String) -> Result<LanguageRangeBuf, InvalidLanguageRange<String>>
        ensures accepts { is_ok result ≡ is_language_range (string_bytes text) }
        ensures same_text { IfOk result (λ range. language_range_buf_text range ≡ string_bytes text) }
        ensures same_string { IfOk result (λ range. language_range_buf_string range ≡ text) }
        ensures given_back { IfErr result (λ error. error.0 ≡ text) }
    {
        if !is_language_range(text.as_str()) {
            return Err(InvalidLanguageRange(text));
        }
        Ok(LanguageRangeBuf {
            text: Caseless(text),
        })
    }

    /// Borrows the range: `LanguageRange::new("de")?.try_to_owned(alloc)?.as_language_range().is_basic()` is `true`.
    #[tactic(auto, using(langtag_scan::proofs::CaseOrder::bytes_ends_first))]
    pub fn as_language_range(&self) -> LanguageRange<'_>
        ensures same_text { language_range_text result ≡ language_range_buf_text self.now }

        ensures compared { LanguageRangeBufsCompareByCase }
    {
        LanguageRange::from_checked(self.as_str())
    }

    /// Returns the string, in its original case: `LanguageRange::new("de-ch")?.try_to_owned(alloc)?.as_str()` is
    /// `"de-ch"`.
    pub fn as_str(&self) -> &str
        ensures same_text { result.now ≡ language_range_buf_text self.now }
        ensures in_class { IsTrue (is_language_range result.now) }
    {
        self.text.0.as_str()
    }

    /// Returns the `String`, without copying it: `LanguageRange::new("de-ch")?.try_to_owned(alloc)?.into_string()` is
    /// `"de-ch"`.
    pub fn into_string(self) -> String
        ensures same_text { string_bytes result ≡ language_range_buf_text self }
        ensures same_string { result ≡ language_range_buf_string self }
        ensures in_class { IsTrue (is_language_range (string_bytes result)) }
    {
        self.text.0
    }
}

impl fmt::Display for LanguageRangeBuf {
    ghost use Rattle.langtag_match.specs.Text.{language_range_buf_text};

    ghost output = { λ range. Some (language_range_buf_text range) };

    fn fmt<W: fmt::Write>(&self, f: &mut fmt::Formatter<W>) -> fmt::Result {
        f.write_str(self.as_str())
    }
}
