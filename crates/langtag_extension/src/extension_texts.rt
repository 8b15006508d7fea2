//! An iterator over the strings of the extensions in a string.
ghost use Rattle.std.specs.Prelude.{◌≡◌, ◌++◌, ◌∷◌, List, ℕ, IsTrue, MatchOption, drop, ⊤};
ghost use Rattle.langtag_scan.specs.Grammar.{YieldsFirstRef, item_count, list_all, segments, segments_left};
ghost use Rattle.langtag_extension.specs.ExtensionTexts.{IsFirstExtension, extension_texts, texts_left, goes_on, opens};

use langtag_scan::segment_end;
use std::alloc::AllocError;
use std::marker::Model;

/// An iterator over the strings of extensions. The whole string is split before each subtag of one byte.
#[derive(Debug, Drop)]
pub(crate) struct ExtensionTexts<'a> {
    rest: Option<&'a str>,
}

impl<'a> Model for ExtensionTexts<'a> {
    ghost Value = { List (List ℕ) };

    ghost view = { λ texts. texts_left texts.rest };
}

impl<'a> ExtensionTexts<'a> {
    /// Returns an iterator over the extensions of a string. The empty string has none.
    pub(crate) fn new(text: &'a str) -> Self
        ensures { result ≡ extension_texts text.now }
    {
        if text.is_empty() {
            return ExtensionTexts { rest: None };
        }
        ExtensionTexts { rest: Some(text) }
    }
}

impl Clone for ExtensionTexts<'_> {
    ghost is_clone = { λ texts copy. copy ≡ texts };

    ghost is_infallible = { λ _. ⊤ };

    fn clone(&self) -> Result<Self, AllocError> {
        Ok(ExtensionTexts { rest: self.rest })
    }
}

impl<'a> Iterator for ExtensionTexts<'a> {
    type Item = &'a str;

    ghost next_gives = { YieldsFirstRef (λ texts. texts) };

    ghost remaining = { item_count (λ texts. texts) };

    fn next(&mut self) -> Option<&'a str> {
        let text = self.rest?;
        let (first, rest) = split_extension(text);
        self.rest = rest;
        Some(first)
    }
}

/// Returns the string of the first extension, and the string of the other extensions if there are any, without the
/// hyphen in between.
#[tactic(auto, using(langtag_scan::proofs::SubtagLists::splits))]
fn split_extension<'a>(text: &'a str) -> (&'a str, Option<&'a str>)
    ensures joined { MatchOption result.1 (text.now ≡ result.0.now) (λ rest. text.now ≡ result.0.now ++ 45 ∷ rest.now) }
    ensures one { IsTrue (list_all goes_on (drop 1 (segments result.0.now))) }
    ensures next { IsTrue (opens (segments_left result.1)) }
{
    let end = first_extension_end(text.as_bytes());
    if end == text.len() {
        return (text, None);
    }
    (&text[..end], Some(&text[end + 1..]))
}

/// Returns where the first extension of a string ends: at the first hyphen that is followed by a subtag of one byte, or
/// at the end of the string. The first subtag, which is the singleton, does not end the extension.
pub fn first_extension_end(text: &[u8]) -> usize
    ensures { IsFirstExtension text.now result }
{
    let mut end = segment_end(text, 0);
    while end < text.len() {
        let next = segment_end(text, end + 1);
        if next == end + 2 {
            return end;
        }
        end = next;
    }
    end
}
