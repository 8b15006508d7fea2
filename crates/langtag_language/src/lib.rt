//! The language of a tag: its primary subtag and its extended subtags (RFC 5646 sections 2.2.1 and 2.2.2).
//!
//! `zh-min-nan` is a [`Language`]. Its [`PrimaryLanguage`] is `zh`, and its [`LanguageExtension`] is `min-nan`, with
//! the [`ExtendedLangTag`]s `min` and `nan`. Each type has an owned form, such as `LanguageBuf`.
//!
//! ```rust
//! use langtag_language::Language;
//!
//! let language = Language::new("zh-min-nan")?;
//! assert_eq!(rt; language.primary().as_str(), "zh");
//! let extension = language.extension().ok_or("no extended subtags")?;
//! assert_eq!(rt; extension.as_str(), "min-nan");
//! ```
//!
//! A returned part borrows its bytes from the string. It is proved that its bytes equal the bytes in the string, but
//! not that they are at the same address.
#![tactic(auto)]

mod extended_lang_tag;
mod extended_subtags;
mod language;
mod language_extension;
mod language_extension_iter;
mod primary_language;

pub use extended_lang_tag::{ExtendedLangTag, ExtendedLangTagBuf, InvalidExtendedLangTag};
pub use language::{InvalidLanguage, Language, LanguageBuf};
pub use language_extension::{InvalidLanguageExtension, LanguageExtension, LanguageExtensionBuf};
pub use language_extension_iter::LanguageExtensionIter;
pub use primary_language::{InvalidPrimaryLanguage, PrimaryLanguage, PrimaryLanguageBuf};
