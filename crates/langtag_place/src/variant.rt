//! The variant subtag (RFC 5646 section 2.2.5).
ghost use Rattle.std.specs.Prelude.{◌≡◌, ◌==◌, ◌&&◌, ◌||◌, Some, IsTrue, IfOk, IfErr, is_ok, length, slice_index, string_bytes};
ghost use Rattle.langtag_scan.specs.Grammar.{is_ascii_alphabetic, is_ascii_digit, is_in_range, list_all, are_alike, is_variant};

use langtag_scan::{Caseless, is_variant};
use std::alloc::{AllocError, Global};
use std::fmt;
use std::fmt::Debug;
use thiserror::Error;

/// The error for a string that is not a variant. It contains the string.
///
/// ```
/// use langtag_place::Variant;
///
/// let error = Variant::new("roz").err();
/// error.map(|error| error.0); // Some("roz")
/// ```
#[derive(Debug, Drop, Error)]
#[error("invalid variant")]
#[error_bound(T: Debug + Drop)]
pub struct InvalidVariant<T>(pub T);

/// A variant subtag (RFC 5646 section 2.2.5): five to eight letters and digits, such as `rozaj`, or a digit followed by
/// three letters or digits, such as `1996`.
///
/// Two variants are equal if their strings differ only in the case of ASCII letters, such as `rozaj` and `ROZAJ`.
///
/// ```
/// use langtag_place::Variant;
///
/// let variant = Variant::new("rozaj")?;
/// variant.as_str(); // "rozaj"
/// variant == Variant::new("ROZAJ")?; // true
/// ```
#[derive(Clone, Copy, Debug, PartialEq, Eq, PartialOrd, Ord, Hash)]
pub struct Variant<'a> {
    text: Caseless<&'a str>,
    ghost in_class: { IsTrue (is_variant text.0.now) },
}

impl<'a> Variant<'a> {
    ghost use Rattle.langtag_place.specs.Compared.{VariantsCompareByCase};
    ghost use Rattle.langtag_place.specs.Text.{variant_text, variant_buf_text};

    /// Parses a string as a variant: `Variant::new("rozaj")` is `Ok`.
    ///
    /// # Errors
    ///
    /// Returns the string if it is neither five to eight letters and digits nor a digit followed by three letters or
    /// digits: `Variant::new("roza")` is `Err(InvalidVariant("roza"))`.
    #[tactic(auto, using(crate::proofs::Numbers::variant_numbers))]
    pub fn new(text: &'a str) -> Result<Variant<'a>, InvalidVariant<&'a str>>
        ensures accepts { is_ok result ≡ is_variant text.now }
        ensures by_number { is_ok result ≡
            ((is_in_range 5 8 (length text.now) && list_all (λ b. is_ascii_alphabetic b || is_ascii_digit b) text.now)
            || ((length text.now == 4) && list_all (λ b. is_ascii_alphabetic b || is_ascii_digit b) text.now
            && is_ascii_digit (slice_index text.now 0))) }
        ensures same_text { IfOk result (λ variant. variant_text variant ≡ text.now) }
        ensures given_back { IfErr result (λ error. error.0 ≡ text.entry) }
    {
        if !is_variant(text.as_bytes()) {
            return Err(InvalidVariant(text));
        }
        Ok(Variant::from_checked(text))
    }

    /// Wraps a string that is known to be a variant, without checking it. `Variant::from_checked(variant.as_str())` is
    /// equal to `variant`.
    pub fn from_checked(text: &'a str) -> Variant<'a>
        requires { IsTrue (is_variant text.now) }
        ensures { variant_text result ≡ text.now }
    {
        Variant {
            text: Caseless(text),
        }
    }

    /// Returns the string, in its original case: `Variant::new("ROZAJ")?.as_str()` is `"ROZAJ"`.
    pub fn as_str(&self) -> &'a str
        ensures same_text { result.now ≡ variant_text self.now }
        ensures in_class { IsTrue (is_variant result.now) }
    {
        self.text.0
    }

    /// Returns the string as bytes: `Variant::new("ROZAJ")?.as_bytes()` is `b"ROZAJ"`.
    pub fn as_bytes(&self) -> &'a [u8]
        ensures { result.now ≡ variant_text self.now }
    {
        self.as_str().as_bytes()
    }

    /// Returns whether another string equals this string, ignoring the case of ASCII letters:
    /// `Variant::new("rozaj")?.eq_str("ROZAJ")` is `true`. Comparisons and hashes also ignore case.
    #[tactic(auto, using(langtag_scan::proofs::CaseOrder::bytes_ends_first, langtag_scan::proofs::CaseLaw::alike_variant))]
    pub fn eq_str(&self, other: &str) -> bool
        ensures test { result ≡ are_alike (variant_text self.now) other.now }
        ensures in_class { IsTrue result → IsTrue (is_variant other.now) }

        ensures compared { VariantsCompareByCase }
        ensures cloned { (copy : Variant) → ⟦<Variant<'a> as Clone>⟧.is_clone self.now copy → copy ≡ self.now }
        ensures clone_succeeds { ⟦<Variant<'a> as Clone>⟧.is_infallible self.now }
    {
        self.text == Caseless(other)
    }

    /// Copies the string into an owned value: `Variant::new("ROZAJ")?.try_to_owned(alloc)?.as_str()` is `"ROZAJ"`.
    ///
    /// # Errors
    ///
    /// Returns an error if allocation fails.
    pub fn try_to_owned(&self, alloc: Global) -> Result<VariantBuf, AllocError>
        ensures { IfOk result (λ owned. variant_buf_text owned ≡ variant_text self.now) }
    {
        let text = String::from_str(alloc, self.as_str())?;
        Ok(VariantBuf {
            text: Caseless(text),
        })
    }
}

impl fmt::Display for Variant<'_> {
    ghost use Rattle.langtag_place.specs.Text.{variant_text};

    ghost output = { λ variant. Some (variant_text variant) };

    fn fmt<W: fmt::Write>(&self, f: &mut fmt::Formatter<W>) -> fmt::Result {
        f.write_str(self.as_str())
    }
}

/// A variant that owns its text.
///
/// ```
/// use langtag_place::Variant;
///
/// let owned = Variant::new("rozaj")?.try_to_owned(alloc)?;
/// owned.as_variant() == Variant::new("ROZAJ")?; // true
/// owned.into_string().as_str(); // "rozaj"
/// ```
#[derive(Debug, Drop, PartialEq, Eq, PartialOrd, Ord, Hash)]
pub struct VariantBuf {
    text: Caseless<String>,
    ghost in_class: { IsTrue (is_variant (string_bytes text.0)) },
}

impl VariantBuf {
    ghost use Rattle.langtag_place.specs.Compared.{VariantBufsCompareByCase};
    ghost use Rattle.langtag_place.specs.Text.{variant_text, variant_buf_string, variant_buf_text};

    /// Parses a `String` as a variant and keeps it, without copying.
    ///
    /// # Errors
    ///
    /// Returns the same `String` if it is neither five to eight letters and digits nor a digit followed by three
    /// letters or digits. An example is `roza`.
    ///
    /// ```
    /// use langtag_place::VariantBuf;
    /// use std::str::FromStr;
    ///
    /// VariantBuf::new(String::from_str(alloc, "rozaj")?)?.as_str(); // "rozaj"
    /// VariantBuf::new(String::from_str(alloc, "roza")?).is_err(); // true
    /// ```
    pub fn new(text: String) -> Result<VariantBuf, InvalidVariant<String>>
        ensures accepts { is_ok result ≡ is_variant (string_bytes text) }
        ensures same_text { IfOk result (λ variant. variant_buf_text variant ≡ string_bytes text) }
        ensures same_string { IfOk result (λ variant. variant_buf_string variant ≡ text) }
        ensures given_back { IfErr result (λ error. error.0 ≡ text) }
    {
        if !is_variant(text.as_bytes()) {
            return Err(InvalidVariant(text));
        }
        Ok(VariantBuf {
            text: Caseless(text),
        })
    }

    /// Borrows the variant: `Variant::new("ROZAJ")?.try_to_owned(alloc)?.as_variant().as_str()` is `"ROZAJ"`.
    #[tactic(auto, using(langtag_scan::proofs::CaseOrder::bytes_ends_first))]
    pub fn as_variant(&self) -> Variant<'_>
        ensures same_text { variant_text result ≡ variant_buf_text self.now }

        ensures compared { VariantBufsCompareByCase }
    {
        Variant::from_checked(self.as_str())
    }

    /// Returns the string, in its original case: `Variant::new("ROZAJ")?.try_to_owned(alloc)?.as_str()` is `"ROZAJ"`.
    pub fn as_str(&self) -> &str
        ensures same_text { result.now ≡ variant_buf_text self.now }
        ensures in_class { IsTrue (is_variant result.now) }
    {
        self.text.0.as_str()
    }

    /// Returns the `String`, without copying it: `Variant::new("ROZAJ")?.try_to_owned(alloc)?.into_string()` is
    /// `"ROZAJ"`.
    pub fn into_string(self) -> String
        ensures same_text { string_bytes result ≡ variant_buf_text self }
        ensures same_string { result ≡ variant_buf_string self }
        ensures in_class { IsTrue (is_variant (string_bytes result)) }
    {
        self.text.0
    }
}

impl fmt::Display for VariantBuf {
    ghost use Rattle.langtag_place.specs.Text.{variant_buf_text};

    ghost output = { λ variant. Some (variant_buf_text variant) };

    fn fmt<W: fmt::Write>(&self, f: &mut fmt::Formatter<W>) -> fmt::Result {
        f.write_str(self.as_str())
    }
}
