//! Strings of language ranges: which strings are ranges (RFC 4647), which tags they match, and how ranges, lists,
//! headers and names of POSIX locales are read. The crate `langtag_match` exports the public items.
//!
//! ```
//! use langtag_match::{listed_range, locale_place, weight_of};
//!
//! listed_range(b" de_CH ").map(|range| range.weight); // Some(1000)
//! locale_place(b"de_CH.UTF-8"); // b"de_CH"
//! weight_of(b"q=0.5"); // Some(500)
//! ```
#![tactic(auto)]

mod basic;
mod basic_form;
mod extended;
mod fallback;
mod listed;
mod locale;
mod plain_element;
mod range_text;
mod split;
mod wanted;
mod wanted_element;
mod weight;
mod white_space;

pub use listed::listed_range;
pub use locale::locale_place;
pub use wanted::{WantedRange, WantedRanges, split_wanted, wanted_ranges};
pub use weight::weight_of;
pub use white_space::is_empty_element;

// For this repository.
pub use basic::matches_basic;
pub use basic_form::is_range;
pub use extended::matches_extended;
pub use fallback::{ends_in_single, shortened_len};
pub use range_text::{is_basic_range, is_language_range};
pub use split::{len_before, split_at_byte, split_at_either};
pub use wanted_element::is_separator;
pub use white_space::trimmed_place;
