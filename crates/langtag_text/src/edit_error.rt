//! Why a tag could not be edited.
ghost use Rattle.std.specs.Prelude.{◌≡◌};
ghost use Rattle.langtag_text.specs.declared.edit_error.EditError.TheVariants.{Memory};

use std::alloc::AllocError;
use thiserror::Error;

/// The error of a setter: why the part was neither set nor removed. The tag is unchanged.
///
/// ```
/// use langtag::{EditError, LangTag};
///
/// let mut tag = LangTag::new("x-a")?.try_to_owned(alloc)?;
/// tag.set_script(alloc, None); // Err(EditError::NotNormal)
/// ```
#[derive(Clone, Copy, Debug, PartialEq, Eq, Error)]
pub enum EditError {
    /// The tag is not a normal tag, so it has no parts: `x-a` and `i-klingon`, for example (RFC 5646 section 2.1).
    #[error("not a normal language tag")]
    NotNormal,
    /// Allocation failed.
    #[error("out of memory")]
    Memory(AllocError),
}

impl From<AllocError> for EditError {
    ghost from_gives = { λ error refusal. refusal ≡ Memory error };

    fn from(error: AllocError) -> Self {
        EditError::Memory(error)
    }
}
