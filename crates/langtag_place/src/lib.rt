//! The parts that may follow the language of a tag: script, region and variants (RFC 5646 sections 2.2.3 to 2.2.5).
//!
//! ```rust
//! use langtag_place::{Region, Variants};
//!
//! let region = Region::new("FR")?;
//! assert_eq!(rt; region.eq_str("fr"), true);
//! let variants = Variants::new("rozaj-1994")?;
//! let last = variants.last().ok_or("no variants")?;
//! assert_eq!(rt; last.as_str(), "1994");
//! ```
#![tactic(auto)]

mod region;
mod repeats;
mod script;
mod variant;
mod variant_blocks;
mod variants;
mod variants_iter;

pub use region::{InvalidRegion, Region, RegionBuf};
pub use repeats::{first_repeated_variant, is_among_first};
pub use script::{InvalidScript, Script, ScriptBuf};
pub use variant::{InvalidVariant, Variant, VariantBuf};
pub use variants::{InvalidVariants, Variants, VariantsBuf};
pub use variants_iter::VariantsIter;
