//! An iterator over the extended subtags of a language.
ghost use Rattle.std.specs.Prelude.{◌≡◌, ◌≤◌, IsTrue, [], length, ⊤};
ghost use Rattle.langtag_scan.specs.Grammar.{YieldsFirstBy, item_count, subtags};
ghost use Rattle.langtag_language.specs.Decided.{are_extended, is_language_extension};

use crate::extended_lang_tag::ExtendedLangTag;
use langtag_scan::Subtags;
use std::alloc::AllocError;

/// An iterator over extended subtags (RFC 5646 section 2.2.2): `min` and `nan` for `min-nan`.
///
/// ```
/// use langtag_language::LanguageExtension;
///
/// let mut items = LanguageExtension::new("min-nan")?.iter();
/// items.next().map(|item| item.as_str()); // Some("min")
/// items.next().map(|item| item.as_str()); // Some("nan")
/// items.next(); // None
/// ```
#[derive(Debug, Drop)]
pub struct LanguageExtensionIter<'a> {
    rest: Subtags<'a>,
    ghost in_class: { IsTrue (are_extended rest) },
    ghost few: { length rest ≤ 3 },
}

impl<'a> LanguageExtensionIter<'a> {
    ghost use Rattle.langtag_language.specs.Text.{extended_subtags_left};

    /// Returns an iterator over no extended subtags: `LanguageExtensionIter::empty().next()` is `None`.
    pub fn empty() -> Self
        ensures { extended_subtags_left result ≡ [] }
    {
        LanguageExtensionIter {
            rest: Subtags::empty(),
        }
    }

    /// Returns an iterator over the subtags of a language extension.
    #[tactic(auto, using(crate::proofs::Rules::extension_members))]
    pub(crate) fn new(text: &'a str) -> Self
        requires { IsTrue (is_language_extension text.now) }
        ensures { extended_subtags_left result ≡ subtags text.now }
    {
        LanguageExtensionIter {
            rest: Subtags::new(text),
        }
    }
}

impl Default for LanguageExtensionIter<'_> {
    ghost use Rattle.langtag_language.specs.Text.{extended_subtags_left};

    ghost is_default = { λ subtags. extended_subtags_left subtags ≡ [] };

    fn default() -> Self {
        LanguageExtensionIter::empty()
    }
}

impl Clone for LanguageExtensionIter<'_> {
    ghost use Rattle.langtag_language.specs.Text.{extended_subtags_left};

    ghost is_clone = { λ walk copy. extended_subtags_left copy ≡ extended_subtags_left walk };

    ghost is_infallible = { λ _. ⊤ };

    fn clone(&self) -> Result<Self, AllocError> {
        let rest = self.rest.clone()?;
        Ok(LanguageExtensionIter { rest })
    }
}

impl<'a> Iterator for LanguageExtensionIter<'a> {
    ghost use Rattle.langtag_language.specs.Text.{extended_lang_tag_text, extended_subtags_left};

    type Item = ExtendedLangTag<'a>;

    ghost next_gives = { YieldsFirstBy extended_lang_tag_text extended_subtags_left };

    ghost remaining = { item_count extended_subtags_left };

    fn next(&mut self) -> Option<ExtendedLangTag<'a>> {
        let text = self.rest.next()?;
        Some(ExtendedLangTag::from_checked(text))
    }
}
