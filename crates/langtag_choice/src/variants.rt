//! The variants of a range, and how many of them a tag lacks.
ghost use Rattle.std.specs.Prelude.{◌≡◌, ◌∷◌, ◌&&◌, ◌<◌, ◌≤◌, [], ℕ, IfSome, IsTrue, List, false, length};
ghost use Rattle.langtag_scan.specs.Grammar.{are_alike, is_single};
ghost use Rattle.langtag_scan.specs.Prelude.{list_any, option_map_or};
ghost use Rattle.langtag_range.specs.Definitions.{basic_text, hyphened, is_language_range};
ghost use Rattle.langtag_cldr.specs.Definitions.{counts};
ghost use Rattle.langtag_choice.specs.Variants as spec;

use langtag_range::split_at_either;
use langtag_scan::{case_insensitive_eq, is_variant};

/// Returns the number of variants of a range.
#[tactic(auto, using(crate::proofs::VariantTexts::range_count))]
pub(crate) fn variant_count(range: &[u8]) -> usize
    requires { IsTrue (is_language_range (hyphened range.now)) }
    ensures { result ≡ length (spec.variants_of (basic_text range.now)) }
{
    let mut count = 0;
    let mut left = after_first(range);
    while let Some((_, rest)) = split_variant(left) {
        count += 1;
        left = rest;
    }
    count
}

/// Returns how many of the variants of a range a tag lacks.
#[tactic(auto, using(crate::proofs::VariantTexts::missing_count))]
pub(crate) fn lacking_variants(range: &[u8], tag: &[u8]) -> usize
    requires { IsTrue (is_language_range (hyphened range.now)) }
    ensures { result ≡ spec.lacking (basic_text range.now) tag.now }
{
    let mut count = 0;
    let mut left = after_first(range);
    while let Some((variant, rest)) = split_variant(left) {
        if !has_variant(tag, variant) {
            count += 1;
        }
        left = rest;
    }
    count
}

/// Returns whether a tag has variants.
#[tactic(auto, using(crate::proofs::VariantTexts::lacking_all))]
pub(crate) fn has_variants(tag: &[u8]) -> bool
    ensures { result ≡ false → (range : List ℕ) → spec.lacking range tag.now ≡ length (spec.variants_of range) }
{
    split_variant(after_first(tag)).is_some()
}

/// Returns whether a tag has a variant.
fn has_variant(tag: &[u8], variant: &[u8]) -> bool
    ensures { result ≡ list_any (are_alike variant.now) (spec.text_variants tag.now) }
{
    let mut left = after_first(tag);
    while let Some((own, rest)) = split_variant(left) {
        if case_insensitive_eq(variant, own) {
            return true;
        }
        left = rest;
    }
    false
}

/// Returns the string after the first subtag, in which the variants are. If the first subtag has a single character, as
/// in `x-a`, the string has no variants, and an empty string is returned.
#[tactic(auto, using(crate::proofs::VariantTexts::first_off))]
fn after_first(text: &[u8]) -> &[u8]
    ensures variants { spec.variant_parts result.now ≡ spec.text_variants text.now }
    ensures within { length result.now ≤ length text.now }
{
    let (first, rest) = split_at_either(text, b'-', b'_');
    if first.len() == 1 { b"" } else { rest }
}

/// Returns the first variant before a singleton, and the string after the variant.
#[tactic(auto, using(langtag_cldr::proofs::CommonTexts::next_part, langtag_range::proofs::WantedTexts::shorter))]
fn split_variant(text: &[u8]) -> Option<(&[u8], &[u8])>
    ensures first { spec.variant_parts text.now
        ≡ option_map_or (λ found. found.0.now ∷ spec.variant_parts found.1.now) result [] }
    ensures shorter { IfSome result (λ found. length found.1.now < length text.now) }
{
    let mut left = text;
    while !left.is_empty() {
        let (subtag, rest) = split_at_either(left, b'-', b'_');
        if is_singleton(subtag) {
            return None;
        }
        if is_variant(subtag) {
            return Some((subtag, rest));
        }
        left = rest;
    }
    None
}

/// Returns whether a subtag has a single character, other than `*`.
fn is_singleton(subtag: &[u8]) -> bool
    ensures { result ≡ (counts subtag.now && is_single subtag.now) }
{
    match subtag {
        [byte] => *byte != b'*',
        _ => false,
    }
}
