//! Why a keyword of an owned tag could not be set.
ghost use Rattle.std.specs.Prelude.{◌≡◌};
ghost use Rattle.langtag_unicode.specs.declared.set_keyword_error.SetKeywordError.TheVariants.{Memory};

use langtag_keyword::KeywordError;
use std::alloc::AllocError;
use thiserror::Error;

/// The error of [`set_keyword`](crate::set_keyword) and [`remove_keyword`](crate::remove_keyword): why a keyword was
/// neither set nor removed. The tag is unchanged.
///
/// ```
/// use langtag::LangTag;
/// use langtag_unicode::{KeywordError, SetKeywordError, set_keyword};
///
/// let mut tag = LangTag::new("x-a")?.try_to_owned(alloc)?;
/// set_keyword(&mut tag, alloc, "ca", "roc"); // Err(SetKeywordError::Keyword(KeywordError::NotNormal))
/// ```
#[derive(Clone, Copy, Debug, PartialEq, Eq, Error)]
pub enum SetKeywordError {
    /// The key or the value cannot be in a keyword, or the tag is not normal.
    #[error("{0}")]
    Keyword(KeywordError),
    /// Allocation failed.
    #[error("out of memory")]
    Memory(AllocError),
}

impl From<AllocError> for SetKeywordError {
    ghost from_gives = { λ error refusal. refusal ≡ Memory error };

    fn from(error: AllocError) -> Self {
        SetKeywordError::Memory(error)
    }
}
