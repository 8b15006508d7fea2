//! The private use part of a tag (RFC 5646 section 2.2.7), which may also be a tag of its own.
//!
//! `x-a-x-b` is a [`PrivateUse`] with the [`PrivateUseSubtag`]s `a`, `x` and `b`. Both types have an owned form, such
//! as `PrivateUseBuf`.
//!
//! ```rust
//! use langtag_private::PrivateUse;
//!
//! let private_use = PrivateUse::new("x-a-x-b")?;
//! assert_eq!(rt; private_use.iter().count(), 3);
//! let first = private_use.iter().next().ok_or("no subtags")?;
//! assert_eq!(rt; first.as_str(), "a");
//! ```
//!
//! A returned subtag borrows its bytes from the string. It is proved that its bytes equal the bytes in the string, but
//! not that they are at the same address.
#![tactic(auto)]

mod private_use;
mod private_use_iter;
mod private_use_subtag;

pub use private_use::{InvalidPrivateUse, PrivateUse, PrivateUseBuf};
pub use private_use_iter::PrivateUseIter;
pub use private_use_subtag::{InvalidPrivateUseSubtag, PrivateUseSubtag, PrivateUseSubtagBuf};
