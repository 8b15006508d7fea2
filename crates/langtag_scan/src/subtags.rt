//! An iterator over the subtags of a string (RFC 5646 section 2.1), which works from both ends and copies nothing.
ghost use Rattle.std.specs.Prelude.{◌≡◌, ◌++◌, ◌∷◌, List, ℕ, [], Some, All, MatchOption, ⊤};
ghost use Rattle.langtag_scan.specs.Grammar.{YieldsFirstRef, YieldsLastRef, item_count};
ghost use Rattle.langtag_scan.specs.Grammar.{join, subtags, segments_left, IsHyphenFree};

use crate::segment::{segment_end, segment_start};
use std::alloc::AllocError;
use std::marker::Model;

/// An iterator over the subtags of a string, from either end. Each subtag is a slice of the string, and contains no
/// hyphen.
///
/// A hyphen at either end of the string gives an empty subtag, and so do two hyphens in a row: `a--b-` has `a`, an
/// empty subtag, `b` and an empty subtag.
///
/// ```
/// use langtag::LangTag;
///
/// let mut subtags = LangTag::new("zh-Hant-TW")?.subtags();
/// subtags.next(); // Some("zh")
/// subtags.next_back(); // Some("TW")
/// ```
#[derive(Debug, Drop)]
pub struct Subtags<'a> {
    rest: Option<&'a str>,
}

impl<'a> Model for Subtags<'a> {
    ghost Value = { List (List ℕ) };

    ghost view = { λ walk. segments_left walk.rest };
}

impl<'a> Subtags<'a> {
    /// Returns an iterator over all subtags of a string. The empty string has none.
    ///
    /// ```
    /// use langtag_scan::Subtags;
    ///
    /// let mut subtags = Subtags::new("fr-FR");
    /// subtags.next(); // Some("fr")
    /// subtags.next(); // Some("FR")
    /// subtags.next(); // None
    /// ```
    pub fn new(text: &'a str) -> Self
        ensures list { result ≡ subtags text.now }
        ensures joined { join result ≡ text.now }
        ensures hyphen_free { All IsHyphenFree result }

        ensures cloned { (walk copy : Subtags) → ⟦<Subtags<'a> as Clone>⟧.is_clone walk copy → copy ≡ walk }
        ensures clone_succeeds { (walk : Subtags) → ⟦<Subtags<'a> as Clone>⟧.is_infallible walk }
    {
        if text.is_empty() {
            return Subtags::empty();
        }
        Subtags { rest: Some(text) }
    }

    /// Returns an iterator over no subtags: `Subtags::empty().next()` is `None`.
    pub fn empty() -> Self
        ensures { result ≡ [] }
    {
        Subtags { rest: None }
    }
}

impl Clone for Subtags<'_> {
    ghost is_clone = { λ walk copy. copy ≡ walk };

    ghost is_infallible = { λ _. ⊤ };

    fn clone(&self) -> Result<Self, AllocError> {
        Ok(Subtags { rest: self.rest })
    }
}

impl<'a> Iterator for Subtags<'a> {
    type Item = &'a str;

    ghost next_gives = { YieldsFirstRef (λ walk. walk) };

    ghost remaining = { item_count (λ walk. walk) };

    fn next(&mut self) -> Option<&'a str> {
        let (first, rest) = split_first(self.rest?);
        self.rest = rest;
        Some(first)
    }
}

impl<'a> DoubleEndedIterator for Subtags<'a> {
    ghost next_back_gives = { YieldsLastRef (λ walk. walk) };

    fn next_back(&mut self) -> Option<&'a str> {
        let (prefix, last) = split_last(self.rest?);
        self.rest = prefix;
        Some(last)
    }
}

/// Returns the string before the first hyphen and the string after it. If there is no hyphen, returns the whole string
/// and `None`.
#[tactic(auto, using(crate::proofs::SubtagLists::splits))]
fn split_first<'a>(text: &'a str) -> (&'a str, Option<&'a str>)
    ensures hyphen_free { IsHyphenFree result.0.now }
    ensures joined { MatchOption result.1 (text.now ≡ result.0.now)
        (λ rest. text.now ≡ result.0.now ++ 45 ∷ rest.now) }
{
    let end = segment_end(text.as_bytes(), 0);
    if end == text.len() {
        return (text, None);
    }
    (&text[..end], Some(&text[end + 1..]))
}

/// Returns the string before the last hyphen and the string after it. If there is no hyphen, returns `None` and the
/// whole text.
#[tactic(auto, using(crate::proofs::SubtagLists::splits))]
fn split_last<'a>(text: &'a str) -> (Option<&'a str>, &'a str)
    ensures hyphen_free { IsHyphenFree result.1.now }
    ensures joined { MatchOption result.0 (text.now ≡ result.1.now)
        (λ prefix. text.now ≡ prefix.now ++ 45 ∷ result.1.now) }
{
    let start = segment_start(text.as_bytes(), text.len());
    if start == 0 {
        return (None, text);
    }
    (Some(&text[..start - 1]), &text[start..])
}
