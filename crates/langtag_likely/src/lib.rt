//! Likely subtags (UTS #35, part 1, section 'Likely Subtags') from Unicode's CLDR. They are the most likely script and
//! region of a language, which can be added to a tag or removed from it. The crate also finds the writing direction of
//! a tag.
//!
//! ```
//! use langtag::LangTag;
//! use langtag_likely::{maximized, minimized};
//!
//! maximized(alloc, LangTag::new("zh-TW")?)?.as_str();      // "zh-Hant-TW"
//! minimized(alloc, LangTag::new("zh-Hant-TW")?)?.as_str(); // "zh-TW"
//! ```
#![tactic(auto)]

mod direction;
mod fields;
mod forms;
mod put;

pub use direction::is_right_to_left;
pub use forms::{maximized, minimized, write_maximized, write_minimized};
pub use langtag_cldr::{CLDR_VERSION, suggested_language, suggested_region};

// For this repository.
pub use fields::{fields_of, is_read, marked_region};
