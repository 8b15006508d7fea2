//! The canonical form of a tag by IANA's registry, and its form with extended languages (RFC 5646 section 4.5).
#![tactic(auto)]

mod canonical_form;
mod canonical_language;
mod canonical_parts;
mod canonical_variants;
mod extension_order;
mod extlang_forms;
mod form;

pub use canonical_form::{canonical, is_canonical, write_canonical};
pub use extlang_forms::extlang_form;
