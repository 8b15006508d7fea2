//! Unicode locale identifiers, and their canonical form (UTS #35, part 1, section 'Unicode Locale Identifier' and Annex C).
//!
//! ```
//! use langtag::LangTag;
//! use langtag_locale::{is_locale, locale_form};
//!
//! is_locale(LangTag::new("de-u-co-phonebk")?); // true
//! let form = locale_form(alloc, LangTag::new("ger-UK")?)?;
//! form.as_ref().map(|form| form.as_str()); // Some("de-GB")
//! ```
#![tactic(auto)]

mod canonical_locale;
mod laws;
mod locale;
mod locale_extensions;
mod locale_fields;
mod locale_for;
mod locale_tables;
mod locale_variants;
mod range_locale;
mod resolved;
mod resolved_extensions;
mod resolved_fields;
mod resolved_keywords;
mod wish;

pub use canonical_locale::{locale_form, write_locale_form};
pub use locale::is_locale;
pub use resolved::{resolved_locale, write_resolved_locale};
