//! The parents of a tag, from Unicode's CLDR. If a catalogue has no string for `pt-AO`, look for the string of its
//! parent `pt-PT`, and then for that of `pt`. If CLDR lists the language and does not replace the region, as it does `UK`, a parent is
//! written in the same script as the tag. So `zh-TW` leads to `zh-Hant` and never to `zh`. A script that the tag names is named again before the language
//! alone: `zh-Hans-CN` leads to `zh-CN`, `zh-Hans` and `zh`.
//!
//! ```
//! use langtag::LangTag;
//! use langtag_parent::{Parents, parent};
//!
//! Parents::new(LangTag::new("es-MX")?).count(); // 3: `es-MX`, `es-419` and `es`
//! parent(LangTag::new("zh-Hant")?).is_none(); // true
//! ```
#![tactic(auto)]

mod base;
mod laws;
mod parent_base;
mod parent_tag;
mod parents;
mod scripts;
mod stated;
mod tables;
mod tag_parent;

pub use parent_tag::ParentTag;
pub use parents::Parents;
pub use tag_parent::{nth_parent, parent};
