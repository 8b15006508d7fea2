//! Unicode's extensions of language tags: the attributes and keywords of `u` (RFC 6067), and the language and fields of
//! `t` (RFC 6497). UTS #35, part 1, defines both.
//!
//! ```
//! use langtag::LangTag;
//! use langtag_unicode::{keyword, transform};
//!
//! keyword(LangTag::new("ar-u-ca-islamic-civil-nu-latn")?, "ca"); // Some("islamic-civil")
//! transform(LangTag::new("und-t-ja-latn-m0-hepburn")?).and_then(|it| it.language()); // Some("ja-latn")
//! ```
#![tactic(auto)]

mod attributes_iter;
mod extension_text;
mod form;
mod keyword_setters;
mod keywords_iter;
mod laws;
mod owned_keywords;
mod set_keyword_error;
mod transform_extension;
mod transformation;
mod unicode_extension;

pub use attributes_iter::AttributesIter;
pub use form::{extensions_form, write_extensions_form};
pub use keyword_setters::{write_with_keyword, write_without_keyword};
pub use keywords_iter::KeywordsIter;
pub use langtag_keyword::{Keys, KeywordError};
pub use owned_keywords::{remove_keyword, set_keyword};
pub use set_keyword_error::SetKeywordError;
pub use transform_extension::transform;
pub use transformation::Transformation;
pub use unicode_extension::{KeyValue, attributes, keyword, keywords};
