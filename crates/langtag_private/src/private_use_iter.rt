//! An iterator over the subtags of a private use part.
ghost use Rattle.std.specs.Prelude.{◌≡◌, ◌<◌, ◌^◌, IsTrue, [], drop, length, ⊤};
ghost use Rattle.langtag_scan.specs.Grammar.{YieldsFirstBy, item_count, subtags};
ghost use Rattle.langtag_private.specs.Decided.{are_private, is_private_use_text};

use crate::private_use_subtag::PrivateUseSubtag;
use langtag_scan::Subtags;
use std::alloc::AllocError;

/// An iterator over private use subtags (RFC 5646 section 2.2.7): `a` and `b` for `x-a-b`.
///
/// ```
/// use langtag_private::PrivateUse;
///
/// let mut items = PrivateUse::new("x-a-b")?.iter();
/// items.next().map(|item| item.as_str()); // Some("a")
/// items.next().map(|item| item.as_str()); // Some("b")
/// items.next(); // None
/// ```
#[derive(Debug, Drop)]
pub struct PrivateUseIter<'a> {
    rest: Subtags<'a>,
    ghost in_class: { IsTrue (are_private rest) },
    ghost few: { length rest < 2 ^ 64 },
}

impl<'a> PrivateUseIter<'a> {
    ghost use Rattle.langtag_private.specs.Text.{private_use_subtags_left};

    /// Returns an iterator over no subtags: `PrivateUseIter::empty().next()` is `None`.
    pub fn empty() -> Self
        ensures { private_use_subtags_left result ≡ [] }
    {
        PrivateUseIter {
            rest: Subtags::empty(),
        }
    }

    /// Returns an iterator over the subtags of a private use part, without the `x` or `X` that begins it.
    #[tactic(auto, using(crate::proofs::Rules::after_mark))]
    pub(crate) fn new(text: &'a str) -> Self
        requires { IsTrue (is_private_use_text text.now) }
        ensures { private_use_subtags_left result ≡ drop 1 (subtags text.now) }
    {
        PrivateUseIter {
            rest: after_mark(text),
        }
    }
}

/// Returns the subtags of a string except the first, which is `x` or `X`.
fn after_mark<'a>(text: &'a str) -> Subtags<'a>
    ensures { result ≡ drop 1 (subtags text.now) }
{
    let mut rest = Subtags::new(text);
    let _mark = rest.next();
    rest
}

impl Default for PrivateUseIter<'_> {
    ghost use Rattle.langtag_private.specs.Text.{private_use_subtags_left};

    ghost is_default = { λ subtags. private_use_subtags_left subtags ≡ [] };

    fn default() -> Self {
        PrivateUseIter::empty()
    }
}

impl Clone for PrivateUseIter<'_> {
    ghost use Rattle.langtag_private.specs.Text.{private_use_subtags_left};

    ghost is_clone = { λ walk copy. private_use_subtags_left copy ≡ private_use_subtags_left walk };

    ghost is_infallible = { λ _. ⊤ };

    fn clone(&self) -> Result<Self, AllocError> {
        let rest = self.rest.clone()?;
        Ok(PrivateUseIter { rest })
    }
}

impl<'a> Iterator for PrivateUseIter<'a> {
    ghost use Rattle.langtag_private.specs.Text.{private_use_subtag_text, private_use_subtags_left};

    type Item = PrivateUseSubtag<'a>;

    ghost next_gives = { YieldsFirstBy private_use_subtag_text private_use_subtags_left };

    ghost remaining = { item_count private_use_subtags_left };

    fn next(&mut self) -> Option<PrivateUseSubtag<'a>> {
        let text = self.rest.next()?;
        Some(PrivateUseSubtag::from_checked(text))
    }
}
