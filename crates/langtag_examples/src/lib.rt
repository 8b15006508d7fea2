//! Proved examples of what programs do with `langtag` and `langtag_match`: one file for each use.
#![tactic(auto)]

mod catalogue;
mod request;
mod script;
mod source;

pub use catalogue::Catalogue;
pub use request::tag_for_request;
pub use script::script_or;
pub use source::{Pieces, are_tag};
