//! The tags for the names of POSIX locales (IEEE Std 1003.1, section 8.2), and the names for tags. The names as Java,
//! Android, .NET, ICU and Apple's systems write them are read, too.
//!
//! ```
//! use langtag::LangTag;
//! use langtag_posix::{from_posix, to_posix};
//!
//! from_posix(alloc, "sr_RS@latin")?.as_str();              // "sr-Latn-RS"
//! to_posix(alloc, LangTag::new("sr-Latn-RS")?)?.as_deref(); // Some("sr_RS@latin")
//! ```
#![tactic(auto)]

mod keyword_names;
mod locale_name;
mod modifiers;
mod platform_names;
mod posix;
mod posix_error;
mod posix_name;
mod posix_parts;
mod posix_text;
mod posix_variant;

pub use locale_name::{to_posix, write_to_posix};
pub use modifiers::unknown_modifier;
pub use posix::{from_posix, write_from_posix};
pub use posix_error::PosixError;
