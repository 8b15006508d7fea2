//! The IANA Language Subtag Registry: which subtags are registered and what their records say (RFC 5646 section 3.1).
//! It decides which tags are valid (section 2.2.9), what the canonical form of a tag is (section 4.5), and which
//! variants and extended languages follow none of their prefixes (section 3.1.8).
//!
//! ```
//! use langtag::{LangTag, NormalLangTag};
//! use langtag_language::PrimaryLanguage;
//! use langtag_registry::{
//!     InvalidSubtag, canonical, is_registered_language, misplaced_variant, preferred_language, validate,
//! };
//!
//! validate(LangTag::new("de-CH-1996")?).is_ok();              // true
//! let fault = validate(LangTag::new("qt-FR")?).err();
//! matches!(fault, Some(InvalidSubtag::Language(language)) if language.as_str() == "qt"); // true
//!
//! is_registered_language(PrimaryLanguage::new("fr")?);        // true
//! preferred_language(PrimaryLanguage::new("iw")?).map(|language| language.as_str()); // Some("he")
//! canonical(alloc, LangTag::new("iw-BU")?)?.as_str();         // "he-MM"
//! let misplaced = misplaced_variant(NormalLangTag::new("fr-nedis")?);
//! misplaced.map(|variant| variant.as_str());                  // Some("nedis"): it goes with `sl`
//! ```
#![tactic(auto)]

mod invalid_subtag;
mod misplaced;
mod validity;

pub use invalid_subtag::InvalidSubtag;
pub use langtag_canonical::{canonical, extlang_form, is_canonical, write_canonical};
pub use langtag_fields::{
    FILE_DATE, extlang_prefix, is_deprecated_extlang, is_deprecated_language, is_deprecated_region,
    is_deprecated_tag, is_deprecated_variant, is_registered_extlang, is_registered_language,
    is_registered_region, is_registered_script, is_registered_variant, macrolanguage,
    preferred_language, preferred_region, preferred_tag, preferred_variant, suppress_script,
};
pub use misplaced::{misplaced_extlang, misplaced_variant};
pub use validity::{fault_at, validate};
