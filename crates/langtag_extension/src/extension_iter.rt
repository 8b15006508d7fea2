//! An iterator over the subtags of an extension.
ghost use Rattle.std.specs.Prelude.{◌≡◌, ◌<◌, ◌^◌, [], IsTrue, drop, length, ⊤};
ghost use Rattle.langtag_scan.specs.Grammar.{YieldsFirstBy, item_count, subtags};
ghost use Rattle.langtag_extension.specs.Decided.{are_extension_subtags, is_extension_text};

use crate::extension_subtag::ExtensionSubtag;
use langtag_scan::Subtags;
use std::alloc::AllocError;

/// An iterator over the subtags of an extension (RFC 5646 section 2.2.6), without the singleton: `co` and `phonebk` for
/// `u-co-phonebk`.
///
/// ```
/// use langtag_extension::Extension;
///
/// let mut items = Extension::new("u-co-eor")?.iter();
/// items.next().map(|item| item.as_str()); // Some("co")
/// items.next().map(|item| item.as_str()); // Some("eor")
/// items.next(); // None
/// ```
#[derive(Debug, Drop)]
pub struct ExtensionIter<'a> {
    rest: Subtags<'a>,
    ghost in_class: { IsTrue (are_extension_subtags rest) },
    ghost few: { length rest < 2 ^ 64 },
}

impl<'a> ExtensionIter<'a> {
    ghost use Rattle.langtag_extension.specs.Text.{extension_subtags_left};

    /// Returns an iterator over no subtags: `ExtensionIter::empty().count()` is `0`.
    pub fn empty() -> Self
        ensures { extension_subtags_left result ≡ [] }
    {
        ExtensionIter {
            rest: Subtags::empty(),
        }
    }

    /// Returns an iterator over the subtags of an extension, without its singleton.
    #[tactic(auto, using(crate::proofs::Rules::after_singleton))]
    pub(crate) fn new(text: &'a str) -> Self
        requires { IsTrue (is_extension_text text.now) }
        ensures { extension_subtags_left result ≡ drop 1 (subtags text.now) }
    {
        ExtensionIter {
            rest: after_singleton(text),
        }
    }
}

/// Returns the subtags of a string except the first, which is the singleton.
fn after_singleton<'a>(text: &'a str) -> Subtags<'a>
    ensures { result ≡ drop 1 (subtags text.now) }
{
    let mut rest = Subtags::new(text);
    let _singleton = rest.next();
    rest
}

impl Default for ExtensionIter<'_> {
    ghost use Rattle.langtag_extension.specs.Text.{extension_subtags_left};

    ghost is_default = { λ walk. extension_subtags_left walk ≡ [] };

    fn default() -> Self {
        ExtensionIter::empty()
    }
}

impl Clone for ExtensionIter<'_> {
    ghost use Rattle.langtag_extension.specs.Text.{extension_subtags_left};

    ghost is_clone = { λ walk copy. extension_subtags_left copy ≡ extension_subtags_left walk };

    ghost is_infallible = { λ _. ⊤ };

    fn clone(&self) -> Result<Self, AllocError> {
        let rest = self.rest.clone()?;
        Ok(ExtensionIter { rest })
    }
}

impl<'a> Iterator for ExtensionIter<'a> {
    ghost use Rattle.langtag_extension.specs.Text.{extension_subtag_text, extension_subtags_left};

    type Item = ExtensionSubtag<'a>;

    ghost next_gives = { YieldsFirstBy extension_subtag_text extension_subtags_left };

    ghost remaining = { item_count extension_subtags_left };

    fn next(&mut self) -> Option<ExtensionSubtag<'a>> {
        let text = self.rest.next()?;
        Some(ExtensionSubtag::from_checked(text))
    }
}
