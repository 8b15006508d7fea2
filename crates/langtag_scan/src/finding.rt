//! What a recogniser finds out about a tag, as an enum with a case for each kind.
use crate::ends::Ends;

/// The kind of a tag (RFC 5646 section 2.1), with what a recogniser finds out about tags of that kind.
#[derive(Clone, Copy)]
pub(crate) enum Finding {
    /// A normal tag, with the ends of its parts.
    Normal(Ends),
    /// A private use tag.
    PrivateUse,
    /// An irregular grandfathered tag, with its index in the table.
    Irregular(usize),
}
