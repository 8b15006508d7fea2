//! The variants of a tag as one string (RFC 5646 section 2.2.5).
ghost use Rattle.std.specs.Prelude.{◌≡◌, ◌↔◌, ◌-◌, ℕ, List, [], Some, IsTrue, IfOk, IfErr};
ghost use Rattle.std.specs.Prelude.{is_ok, length, slice_get, option_map, string_bytes};
ghost use Rattle.langtag_scan.specs.Grammar.{are_alike, subtags};
ghost use Rattle.langtag_place.specs.Decided.{is_variants};
ghost use Rattle.langtag_place.specs.Variants.{IsVariants, SpellsVariants};

use crate::variant::Variant;
use crate::variants_iter::VariantsIter;
use langtag_scan::{Caseless, Subtags, is_variant};
use std::alloc::{AllocError, Global};
use std::fmt;
use std::fmt::Debug;
use thiserror::Error;

/// The error for a string that is not a list of variants. It contains the string.
///
/// ```
/// use langtag_place::Variants;
///
/// let error = Variants::new("rozaj-").err();
/// error.map(|error| error.0); // Some("rozaj-")
/// ```
#[derive(Debug, Drop, Error)]
#[error("invalid variants")]
#[error_bound(T: Debug + Drop)]
pub struct InvalidVariants<T>(pub T);

/// The variants of a tag, joined by hyphens (RFC 5646 section 2.2.5), such as `rozaj-1994`. The empty string means no
/// variants.
///
/// A variant may occur twice: a tag with such a list is well formed but not valid (section 2.2.9). Two lists of
/// variants are equal if their strings differ only in the case of ASCII letters, such as `rozaj` and `ROZAJ`.
///
/// ```
/// use langtag_place::Variants;
///
/// let variants = Variants::new("rozaj-1994")?;
/// variants.as_str(); // "rozaj-1994"
/// variants == Variants::new("ROZAJ-1994")?; // true
/// ```
#[derive(Clone, Copy, Debug, PartialEq, Eq, PartialOrd, Ord, Hash)]
pub struct Variants<'a> {
    text: Caseless<&'a str>,
    ghost in_class: { IsTrue (is_variants text.0.now) },
}

#[tactic(auto, using(crate::proofs::Rules::variants_rules))]
impl<'a> Variants<'a> {
    ghost use Rattle.langtag_place.specs.Compared.{VariantListsCompareByCase};
    ghost use Rattle.langtag_place.specs.Text.{variant_text, variants_text, variants_buf_text, variants_left};

    /// No variants: `Variants::EMPTY.as_str()` is `""`.
    pub const EMPTY: Variants<'static> = Variants { text: Caseless("") };

    /// Parses a string as variants: `Variants::new("rozaj-1994")` and `Variants::new("")` are `Ok`.
    ///
    /// # Errors
    ///
    /// Returns the string if it is not a list of variants joined by hyphens: `Variants::new("rozaj-")` is
    /// `Err(InvalidVariants("rozaj-"))`.
    pub fn new(text: &'a str) -> Result<Variants<'a>, InvalidVariants<&'a str>>
        ensures accepts { IsTrue (is_ok result) ↔ (IsVariants text.now) }
        ensures same_text { IfOk result (λ variants. variants_text variants ≡ text.now) }
        ensures given_back { IfErr result (λ error. error.0 ≡ text.entry) }
    {
        if !all_variants(text) {
            return Err(InvalidVariants(text));
        }
        Ok(Variants::from_checked(text))
    }

    /// Wraps a string that is known to be a list of variants, without checking it.
    /// `Variants::from_checked(variants.as_str())` is equal to `variants`.
    pub fn from_checked(text: &'a str) -> Variants<'a>
        requires { IsVariants text.now }
        ensures { variants_text result ≡ text.now }
    {
        Variants {
            text: Caseless(text),
        }
    }

    /// Returns the string, in its original case: `Variants::new("ROZAJ-1994")?.as_str()` is `"ROZAJ-1994"`.
    pub fn as_str(&self) -> &'a str
        ensures same_text { result.now ≡ variants_text self.now }
        ensures in_class { IsVariants result.now }
    {
        self.text.0
    }

    /// Returns the string as bytes: `Variants::new("ROZAJ-1994")?.as_bytes()` is `b"ROZAJ-1994"`.
    pub fn as_bytes(&self) -> &'a [u8]
        ensures { result.now ≡ variants_text self.now }
    {
        self.as_str().as_bytes()
    }

    /// Returns whether another string equals this string, ignoring the case of ASCII letters:
    /// `Variants::new("rozaj")?.eq_str("ROZAJ")` is `true`. Comparisons and hashes also ignore case.
    #[tactic(auto, using(langtag_scan::proofs::CaseOrder::bytes_ends_first, crate::proofs::Rules::alike_variants))]
    pub fn eq_str(&self, other: &str) -> bool
        ensures test { result ≡ are_alike (variants_text self.now) other.now }
        ensures in_class { IsTrue result → IsVariants other.now }

        ensures compared { VariantListsCompareByCase }
        ensures cloned { (copy : Variants) → ⟦<Variants<'a> as Clone>⟧.is_clone self.now copy → copy ≡ self.now }
        ensures clone_succeeds { ⟦<Variants<'a> as Clone>⟧.is_infallible self.now }
    {
        self.text == Caseless(other)
    }

    /// Copies the string into an owned value: `Variants::new("ROZAJ")?.try_to_owned(alloc)?.as_str()` is `"ROZAJ"`.
    ///
    /// # Errors
    ///
    /// Returns an error if allocation fails.
    pub fn try_to_owned(&self, alloc: Global) -> Result<VariantsBuf, AllocError>
        ensures { IfOk result (λ owned. variants_buf_text owned ≡ variants_text self.now) }
    {
        let text = String::from_str(alloc, self.as_str())?;
        Ok(VariantsBuf {
            text: Caseless(text),
        })
    }

    /// Returns an iterator over the variants, from either end: `rozaj` and `1994` for `rozaj-1994`.
    ///
    /// ```
    /// use langtag_place::Variants;
    ///
    /// let mut variants = Variants::new("rozaj-1994")?.iter();
    /// variants.next().map(|variant| variant.as_str()); // Some("rozaj")
    /// variants.next_back().map(|variant| variant.as_str()); // Some("1994")
    /// ```
    pub fn iter(&self) -> VariantsIter<'a>
        ensures list { variants_left result ≡ subtags (variants_text self.now) }
        ensures spells { SpellsVariants (variants_left result) (variants_text self.now) }

        ensures cloned { (walk copy : VariantsIter) → ⟦<VariantsIter<'a> as Clone>⟧.is_clone walk copy
            → variants_left copy ≡ variants_left walk }
        ensures clone_succeeds { (walk : VariantsIter) → ⟦<VariantsIter<'a> as Clone>⟧.is_infallible walk }
    {
        VariantsIter::new(self.as_str())
    }

    /// Returns the first variant, if there is one: `rozaj` for `rozaj-1994`, `None` for the empty string.
    ///
    /// ```
    /// use langtag_place::Variants;
    ///
    /// Variants::new("rozaj-1994")?.first().map(|variant| variant.as_str()); // Some("rozaj")
    /// ```
    #[tactic(auto, using(crate::proofs::Rules::variants_spelled))]
    pub fn first(&self) -> Option<Variant<'a>>
        ensures member { (variants : List (List ℕ)) → SpellsVariants variants (variants_text self.now)
            → option_map variant_text result ≡ slice_get variants 0 }
    {
        self.iter().next()
    }

    /// Returns the last variant, if there is one: `1994` for `rozaj-1994`.
    ///
    /// ```
    /// use langtag_place::Variants;
    ///
    /// Variants::new("rozaj-1994")?.last().map(|variant| variant.as_str()); // Some("1994")
    /// ```
    pub fn last(&self) -> Option<Variant<'a>>
        ensures member { (variants : List (List ℕ)) → SpellsVariants variants (variants_text self.now)
            → option_map variant_text result ≡ slice_get variants (length variants - 1) }
    {
        self.iter().next_back()
    }
}

impl Default for Variants<'_> {
    ghost use Rattle.langtag_place.specs.Text.{variants_text};

    ghost is_default = { λ variants. variants_text variants ≡ [] };

    fn default() -> Self {
        Variants::EMPTY
    }
}

impl fmt::Display for Variants<'_> {
    ghost use Rattle.langtag_place.specs.Text.{variants_text};

    ghost output = { λ variants. Some (variants_text variants) };

    fn fmt<W: fmt::Write>(&self, f: &mut fmt::Formatter<W>) -> fmt::Result {
        f.write_str(self.as_str())
    }
}

/// Variants that own their text.
///
/// ```
/// use langtag_place::Variants;
///
/// let owned = Variants::new("rozaj-1994")?.try_to_owned(alloc)?;
/// owned.as_variants() == Variants::new("ROZAJ-1994")?; // true
/// owned.into_string().as_str(); // "rozaj-1994"
/// ```
#[derive(Debug, Drop, PartialEq, Eq, PartialOrd, Ord, Hash)]
pub struct VariantsBuf {
    text: Caseless<String>,
    ghost in_class: { IsTrue (is_variants (string_bytes text.0)) },
}

#[tactic(auto, using(crate::proofs::Rules::variants_rules))]
impl VariantsBuf {
    ghost use Rattle.langtag_place.specs.Compared.{VariantsBufsCompareByCase};
    ghost use Rattle.langtag_place.specs.Text.{variants_text, variants_buf_string, variants_buf_text};

    /// Parses a `String` as variants and keeps it, without copying.
    ///
    /// # Errors
    ///
    /// Returns the same `String` if it is not a list of variants joined by hyphens, such as `rozaj-`.
    ///
    /// ```
    /// use langtag_place::VariantsBuf;
    /// use std::str::FromStr;
    ///
    /// VariantsBuf::new(String::from_str(alloc, "rozaj-1994")?)?.as_str(); // "rozaj-1994"
    /// VariantsBuf::new(String::from_str(alloc, "rozaj-")?).is_err(); // true
    /// ```
    pub fn new(text: String) -> Result<VariantsBuf, InvalidVariants<String>>
        ensures accepts { IsTrue (is_ok result) ↔ (IsVariants (string_bytes text)) }
        ensures same_text { IfOk result (λ variants. variants_buf_text variants ≡ string_bytes text) }
        ensures same_string { IfOk result (λ variants. variants_buf_string variants ≡ text) }
        ensures given_back { IfErr result (λ error. error.0 ≡ text) }
    {
        if !all_variants(text.as_str()) {
            return Err(InvalidVariants(text));
        }
        Ok(VariantsBuf {
            text: Caseless(text),
        })
    }

    /// Borrows the variants: `Variants::new("ROZAJ")?.try_to_owned(alloc)?.as_variants().as_str()` is `"ROZAJ"`.
    #[tactic(auto, using(langtag_scan::proofs::CaseOrder::bytes_ends_first))]
    pub fn as_variants(&self) -> Variants<'_>
        ensures same_text { variants_text result ≡ variants_buf_text self.now }

        ensures compared { VariantsBufsCompareByCase }
    {
        Variants::from_checked(self.as_str())
    }

    /// Returns the string, in its original case: `Variants::new("ROZAJ")?.try_to_owned(alloc)?.as_str()` is `"ROZAJ"`.
    pub fn as_str(&self) -> &str
        ensures same_text { result.now ≡ variants_buf_text self.now }
        ensures in_class { IsVariants result.now }
    {
        self.text.0.as_str()
    }

    /// Returns the `String`, without copying it: `Variants::new("ROZAJ")?.try_to_owned(alloc)?.into_string()` is
    /// `"ROZAJ"`.
    pub fn into_string(self) -> String
        ensures same_text { string_bytes result ≡ variants_buf_text self }
        ensures same_string { result ≡ variants_buf_string self }
        ensures in_class { IsVariants (string_bytes result) }
    {
        self.text.0
    }
}

impl fmt::Display for VariantsBuf {
    ghost use Rattle.langtag_place.specs.Text.{variants_buf_text};

    ghost output = { λ variants. Some (variants_buf_text variants) };

    fn fmt<W: fmt::Write>(&self, f: &mut fmt::Formatter<W>) -> fmt::Result {
        f.write_str(self.as_str())
    }
}

/// Returns whether a string is empty or a list of variants joined by hyphens.
fn all_variants(text: &str) -> bool
    ensures { result ≡ is_variants text.now }
{
    Subtags::new(text).all(|subtag| is_variant(subtag.as_bytes()))
}
