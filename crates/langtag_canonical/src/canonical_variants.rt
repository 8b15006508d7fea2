//! Whether variants are their own canonical forms (RFC 5646 section 4.5).
ghost use Rattle.std.specs.Prelude.{◌≡◌, ◌↔◌, true};
ghost use Rattle.langtag_scan.specs.Grammar.{subtags};
ghost use Rattle.langtag.specs.Definitions.{variants_text};
ghost use Rattle.langtag_canonical.specs.Canonical.{canonical_variants};

use langtag_fields::preferred_variant;
use langtag_place::Variants;

/// Returns whether none of these variants has a Preferred-Value.
#[tactic(auto, using(crate::proofs::ReplacedSubtags::variants_stay))]
pub(crate) fn are_canonical_variants(variants: Variants<'_>) -> bool
    ensures { (result ≡ true) ↔ (canonical_variants (subtags (variants_text variants.entry))
        ≡ subtags (variants_text variants.entry)) }
{
    for variant in variants.iter() {
        if preferred_variant(variant).is_some() {
            return false;
        }
    }
    true
}
