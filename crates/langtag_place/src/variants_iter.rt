//! An iterator over the variants of a tag, from either end.
ghost use Rattle.std.specs.Prelude.{◌≡◌, ◌<◌, ◌^◌, IsTrue, [], length, ⊤};
ghost use Rattle.langtag_scan.specs.Grammar.{YieldsFirstBy, YieldsLastBy, item_count, subtags};
ghost use Rattle.langtag_place.specs.Decided.{are_variants, is_variants};

use crate::variant::Variant;
use crate::variants::Variants;
use langtag_scan::Subtags;
use std::alloc::AllocError;

/// An iterator over variants (RFC 5646 section 2.2.5), in the order of the string and from either end: `rozaj` and
/// `1994` for `rozaj-1994`.
///
/// ```
/// use langtag_place::Variants;
///
/// let mut items = Variants::new("rozaj-1994")?.iter();
/// items.next().map(|item| item.as_str()); // Some("rozaj")
/// items.next().map(|item| item.as_str()); // Some("1994")
/// items.next(); // None
/// ```
#[derive(Debug, Drop)]
pub struct VariantsIter<'a> {
    rest: Subtags<'a>,
    ghost in_class: { IsTrue (are_variants rest) },
    ghost few: { length rest < 2 ^ 64 },
}

impl<'a> VariantsIter<'a> {
    ghost use Rattle.langtag_place.specs.Text.{variants_left};

    /// Returns an iterator over no variants: `VariantsIter::empty().count()` is `0`.
    pub fn empty() -> Self
        ensures { variants_left result ≡ [] }
    {
        Variants::EMPTY.iter()
    }

    /// Returns an iterator over the variants of a string that is known to be a list of variants.
    #[tactic(auto, using(crate::proofs::Rules::few_variants))]
    pub(crate) fn new(text: &'a str) -> Self
        requires { IsTrue (is_variants text.now) }
        ensures { variants_left result ≡ subtags text.now }
    {
        VariantsIter {
            rest: Subtags::new(text),
        }
    }
}

impl Default for VariantsIter<'_> {
    ghost use Rattle.langtag_place.specs.Text.{variants_left};

    ghost is_default = { λ walk. variants_left walk ≡ [] };

    fn default() -> Self {
        VariantsIter::empty()
    }
}

impl Clone for VariantsIter<'_> {
    ghost use Rattle.langtag_place.specs.Text.{variants_left};

    ghost is_clone = { λ walk copy. variants_left copy ≡ variants_left walk };

    ghost is_infallible = { λ _. ⊤ };

    fn clone(&self) -> Result<Self, AllocError> {
        let rest = self.rest.clone()?;
        Ok(VariantsIter { rest })
    }
}

impl<'a> Iterator for VariantsIter<'a> {
    ghost use Rattle.langtag_place.specs.Text.{variant_text, variants_left};

    type Item = Variant<'a>;

    ghost next_gives = { YieldsFirstBy variant_text variants_left };

    ghost remaining = { item_count variants_left };

    fn next(&mut self) -> Option<Variant<'a>> {
        let text = self.rest.next()?;
        Some(Variant::from_checked(text))
    }
}

impl<'a> DoubleEndedIterator for VariantsIter<'a> {
    ghost use Rattle.langtag_place.specs.Text.{variant_text, variants_left};

    ghost next_back_gives = { YieldsLastBy variant_text variants_left };

    fn next_back(&mut self) -> Option<Variant<'a>> {
        let text = self.rest.next_back()?;
        Some(Variant::from_checked(text))
    }
}
