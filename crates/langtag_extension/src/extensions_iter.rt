//! An iterator over the extensions of a tag.
ghost use Rattle.std.specs.Prelude.{◌≡◌, ◌<◌, ◌^◌, IsTrue, length, ⊤};
ghost use Rattle.langtag_scan.specs.Prelude.{YieldsFirstBy, item_count};
ghost use Rattle.langtag_extension.specs.Decided.{are_extension_texts, is_extensions_text};
ghost use Rattle.langtag_extension.specs.ExtensionTexts.{extension_texts};

use crate::extension::Extension;
use crate::extension_texts::ExtensionTexts;
use std::alloc::AllocError;

/// An iterator over extensions (RFC 5646 section 2.2.6), in the order of the string: `a-ext1` and `u-co` for
/// `a-ext1-u-co`.
///
/// ```
/// use langtag_extension::Extensions;
///
/// let mut items = Extensions::new("a-bb-u-co")?.iter();
/// items.next().map(|item| item.as_str()); // Some("a-bb")
/// items.next().map(|item| item.as_str()); // Some("u-co")
/// items.next(); // None
/// ```
#[derive(Debug, Drop)]
pub struct ExtensionsIter<'a> {
    rest: ExtensionTexts<'a>,
    ghost in_class: { IsTrue (are_extension_texts rest) },
    ghost few: { length rest < 2 ^ 64 },
}

impl<'a> ExtensionsIter<'a> {
    ghost use Rattle.langtag_extension.specs.Text.{extensions_left};

    /// Returns an iterator over the extensions of a string.
    #[tactic(auto, using(crate::proofs::ExtensionLookUp::few_extensions))]
    pub(crate) fn new(text: &'a str) -> Self
        requires { IsTrue (is_extensions_text text.now) }
        ensures { extensions_left result ≡ extension_texts text.now }
    {
        ExtensionsIter {
            rest: ExtensionTexts::new(text),
        }
    }
}

impl Clone for ExtensionsIter<'_> {
    ghost use Rattle.langtag_extension.specs.Text.{extensions_left};

    ghost is_clone = { λ walk copy. extensions_left copy ≡ extensions_left walk };

    ghost is_infallible = { λ _. ⊤ };

    fn clone(&self) -> Result<Self, AllocError> {
        let rest = self.rest.clone()?;
        Ok(ExtensionsIter { rest })
    }
}

impl<'a> Iterator for ExtensionsIter<'a> {
    ghost use Rattle.langtag_extension.specs.Text.{extension_text, extensions_left};

    type Item = Extension<'a>;

    ghost next_gives = { YieldsFirstBy extension_text extensions_left };

    ghost remaining = { item_count extensions_left };

    #[tactic(auto, using(crate::proofs::Rules::extension_rules))]
    fn next(&mut self) -> Option<Extension<'a>> {
        let text = self.rest.next()?;
        Some(Extension::from_checked(text))
    }
}
