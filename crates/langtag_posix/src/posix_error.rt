//! Why a POSIX locale name has no tag.
ghost use Rattle.std.specs.Prelude.{◌≡◌};
ghost use Rattle.langtag_posix.specs.declared.posix_error.PosixError.TheVariants.{Memory};

use std::alloc::AllocError;
use thiserror::Error;

/// The error for a POSIX locale name: why it has no tag.
///
/// ```
/// use langtag_posix::{PosixError, from_posix};
///
/// matches!(from_posix(alloc, "POSIX"), Err(PosixError::NoTag(name)) if name == "POSIX"); // true
/// ```
#[derive(Debug, Drop, Error)]
pub enum PosixError<'a> {
    /// The name, which gives no tag: `C`, `POSIX`, the empty string, or a string that is not a tag, such as `en_` and `No. 5`.
    #[error("no locale's name that says a language: {0}")]
    NoTag(&'a str),
    /// Allocation failed.
    #[error("out of memory")]
    Memory(AllocError),
}

impl<'a> From<AllocError> for PosixError<'a> {
    ghost from_gives = { λ error refusal. refusal ≡ Memory error };

    fn from(error: AllocError) -> Self {
        PosixError::Memory(error)
    }
}
