//! Variants that occur twice in a list. A tag with such variants is well formed but not valid (RFC 5646 section 2.2.5).
ghost use Rattle.std.specs.Prelude.{◌≡◌, ◌≤◌, length, take};
ghost use Rattle.langtag_scan.specs.Grammar.{list_any, are_alike, subtags};
ghost use Rattle.langtag_place.specs.Repeat.{repeat_index};
ghost use Rattle.langtag_place.specs.Text.{variant_text, variants_text};

use crate::variant::Variant;
use crate::variant_blocks::first_repeated_of_many;
use crate::variants::Variants;

/// If the string of the variants has at most this many bytes, and so at most 28 variants, each variant is compared with
/// all variants before it.
const FEW: usize = 143;

/// The number of variants in a block of a longer list. Each variant takes nine bytes of stack, so a block takes 10 kB.
const BLOCK: usize = 1152;

/// Returns the index of the first of these variants that equals an earlier variant, ignoring case.
pub fn first_repeated_variant(variants: Variants<'_>) -> Option<usize>
    ensures { result ≡ repeat_index are_alike (subtags (variants_text variants.entry)) }
{
    if variants.as_str().len() > FEW {
        return first_repeated_of_many::<BLOCK>(variants);
    }
    first_repeated_of_few(variants)
}

/// Returns what [`first_repeated_variant`] returns, by comparing each variant with the variants before it.
#[tactic(auto, using(crate::proofs::RepeatLaws::few_steps))]
fn first_repeated_of_few(variants: Variants<'_>) -> Option<usize>
    requires few { length (variants_text variants) ≤ 143 }
    ensures { result ≡ repeat_index are_alike (subtags (variants_text variants.entry)) }
{
    for (index, variant) in variants.iter().enumerate() {
        if is_among_first(variants, index, variant) {
            return Some(index);
        }
    }
    None
}

/// Returns whether a variant equals one of the first `count` variants of a list, ignoring case
/// (RFC 5646 section 2.2.5). If the list is shorter, all its variants are compared.
///
/// ```
/// use langtag_place::{Variant, Variants, is_among_first};
///
/// let variants = Variants::new("rozaj-1996-1996")?;
/// is_among_first(variants, 2, Variant::new("1996")?); // true
/// is_among_first(variants, 1, Variant::new("1996")?); // false
/// ```
pub fn is_among_first(variants: Variants<'_>, count: usize, variant: Variant<'_>) -> bool
    ensures { result ≡ list_any (are_alike (variant_text variant.entry)) (take count (subtags (variants_text variants.entry))) }
{
    variants
        .iter()
        .take(count)
        .any(|earlier| variant == earlier)
}
