//! Language tags (RFC 5646 section 2.1): parses them, takes them apart, compares them ignoring case, and edits them.
//!
//! A [`LangTag`] is a tag of any kind: normal, for private use, or grandfathered:
//!
//! ```
//! use langtag::{Kind, LangTag};
//!
//! let tag = LangTag::new("zh-Hant-TW-x-mine")?;
//! tag.kind();                                       // Kind::Normal
//! tag.script().map(|script| script.as_str());       // Some("Hant")
//! tag.eq_str("ZH-hant-tw-X-mine");                  // true
//! LangTag::new("I-Klingon")?.is_grandfathered();    // true
//! LangTag::new("zh_Hant").err().map(|error| error.0); // Some("zh_Hant")
//! ```
//!
//! A [`NormalLangTag`] is a tag that is made of parts. It stores where the parts end, so each part is a slice of the
//! string:
//!
//! ```
//! use langtag::{NormalLangTag, Script};
//!
//! let tag = NormalLangTag::new("sl-IT-rozaj-x-mine")?;
//! tag.language().as_str();                          // "sl"
//! tag.region().map(|region| region.as_str());       // Some("IT")
//! tag.variants().first().map(|first| first.as_str()); // Some("rozaj")
//! tag.script();                                     // None
//! tag.eq_str("SL-it-ROZAJ-x-mine");                 // true
//!
//! let mut owned = tag.try_to_owned(alloc)?;
//! owned.set_script(alloc, Some(Script::new("Latn")?))?;
//! owned.as_str();                                   // "sl-Latn-IT-rozaj-x-mine"
//! ```
//!
//! Each part has a borrowed and an owned type, such as [`Script`] and `ScriptBuf`. This crate exports all these
//! types, and also the parser over bytes, [`recognise`].
#![tactic(auto)]

mod edit;
mod fields;
mod grandfathered;
mod kind;
mod lang_tag;
mod lang_tag_buf;
mod lengths;
mod normal_lang_tag;
mod normal_lang_tag_buf;
mod part;
mod private_use_lang_tag;
mod push;
mod recognise_text;
mod recognised;
mod recommended_case;
mod refusal;
mod repeats;
mod text_of_parts;
mod typed_lang_tag;
mod written;

pub use grandfathered::{GRANDFATHERED, GrandfatheredLangTag, InvalidGrandfatheredTag};
pub use kind::Kind;
pub use lang_tag::{InvalidLangTag, LangTag};
pub use lang_tag_buf::LangTagBuf;
pub use langtag_extension::{
    Extension, ExtensionBuf, ExtensionIter, ExtensionSubtag, ExtensionSubtagBuf, Extensions,
    ExtensionsBuf, ExtensionsIter, InvalidExtension, InvalidExtensionSubtag, InvalidExtensions,
    InvalidSingleton, Singleton,
};
pub use langtag_language::{
    ExtendedLangTag, ExtendedLangTagBuf, InvalidExtendedLangTag, InvalidLanguage,
    InvalidLanguageExtension, InvalidPrimaryLanguage, Language, LanguageBuf, LanguageExtension,
    LanguageExtensionBuf, LanguageExtensionIter, PrimaryLanguage, PrimaryLanguageBuf,
};
pub use langtag_place::{
    InvalidRegion, InvalidScript, InvalidVariant, InvalidVariants, Region, RegionBuf, Script,
    ScriptBuf, Variant, VariantBuf, Variants, VariantsBuf, VariantsIter, is_among_first,
};
pub use langtag_private::{
    InvalidPrivateUse, InvalidPrivateUseSubtag, PrivateUse, PrivateUseBuf, PrivateUseIter,
    PrivateUseSubtag, PrivateUseSubtagBuf,
};
pub use langtag_scan::{
    ByteSource, Ends, Found, Metered, Subtags, case_insensitive_cmp, case_insensitive_eq,
    case_insensitive_hash, into_smallcase, is_extended, is_extension_subtag, is_mark, is_primary,
    is_private_subtag, is_region, is_script, is_singleton, is_variant, recognise, recognise_normal,
    segment_end, segment_start, viable_len,
};
pub use langtag_text::{
    EditError, InRecommendedCase, Replacement, is_in_recommended_case, make_recommended_case,
};
pub use normal_lang_tag::{InvalidNormalLangTag, NormalLangTag};
pub use normal_lang_tag_buf::NormalLangTagBuf;
pub use part::{Part, put_part};
pub use private_use_lang_tag::{PrivateUseLangTag, PrivateUseLangTagBuf};
pub use refusal::{Refusal, RefusalKind};
pub use typed_lang_tag::TypedLangTag;

// For this repository.
pub use fields::{region_field, script_field};
pub use part::write_part;
pub use push::push_private_use;
pub use written::tag_of;
