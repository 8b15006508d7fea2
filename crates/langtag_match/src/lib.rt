//! Matching of language tags by RFC 4647: language ranges, which tags they match, and the tag for an Accept-Language
//! header (RFC 9110 section 12.5.4).
//!
//! ```
//! use langtag::LangTag;
//! use langtag_match::{AcceptLanguage, LanguageRange, look_up};
//!
//! let range = LanguageRange::new("de-*-DE")?;
//! range.matches_extended(&LangTag::new("de-Latn-DE-1996")?); // true
//! range.matches_extended(&LangTag::new("de-x-DE")?);         // false: no singleton may be left out
//! LanguageRange::new("de-DE")?.matches_basic(&LangTag::new("de-de-1996")?); // true
//!
//! let (english, german) = (LangTag::new("en")?, LangTag::new("de")?);
//! look_up(&[LanguageRange::new("de-CH")?], &[english, german], english).as_str(); // "de"
//! let accepted = AcceptLanguage::new(alloc, "en;q=0.5, de-CH")?;
//! accepted.ranges()[0].range.as_str();            // "de-CH"
//! accepted.look_up(&[english, german], english).as_str(); // "de"
//! ```
#![tactic(auto)]

mod accept_language;
mod accept_language_error;
mod element;
mod fallbacks;
mod filter;
mod filter_rule;
mod language_range;
mod lookup;
mod weighted_range;

pub use accept_language::{AcceptLanguage, tag_for_header};
pub use accept_language_error::{AcceptLanguageError, ElementPart};
pub use element::{Element, element_at};
pub use fallbacks::Fallbacks;
pub use filter::{Filtered, filter_basic, filter_extended};
pub use langtag_range::{
    WantedRange, WantedRanges, is_empty_element, listed_range, locale_place, split_wanted,
    wanted_ranges, weight_of,
};
pub use language_range::{InvalidLanguageRange, LanguageRange, LanguageRangeBuf};
pub use lookup::look_up;
pub use weighted_range::WeightedRange;
