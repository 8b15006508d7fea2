//! Language tags for C, and for languages that call C: a static library over plain bytes. It does not allocate, keeps
//! no state, and calls no function of the program. `bindings/include/langtag.h` declares its functions.
//!
//! The documentation of a function is its comment in that header, so it speaks of C: an argument marked with "(out)" is
//! only written, and names in capitals are those of the header.
//!
//! A slice is passed as a pointer and a length. Bytes need not be UTF-8. No function requires more of its arguments
//! than their types do. No pointer may be NULL: a contract cannot speak of NULL, so a check could not be proved. So a
//! keyword is removed by `langtag_without_keyword`, and not by NULL as its value. A kind is a `u32`, with an enum in the
//! header, because compilers differ in the width of an enum.
#![tactic(auto)]

mod accepted;
mod base;
mod best_match;
mod canonical;
mod choice;
mod compare;
mod direction;
mod extension_walk;
mod extensions_form;
mod fallback;
mod grandfathered;
mod header_look_up;
mod items;
mod keyword;
mod likely;
mod locale_form;
mod look_up;
mod members;
mod parent;
mod parse;
mod part;
mod posix;
mod prepare;
mod range;
mod range_place;
mod recommend;
mod refused;
mod registry_date;
mod repeats;
mod site;
mod span;
mod spanned;
mod spanned_ranges;
mod spanned_tags;
mod suggestion;
mod suitable;
mod tag;
mod transform;
mod validity;
mod viable;
mod walk;
mod with_keyword;
mod with_part;
