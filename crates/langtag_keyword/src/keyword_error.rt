//! Why a keyword could not be set.
use thiserror::Error;

/// The error of [`write_with_keyword`](crate::write_with_keyword) and
/// [`write_without_keyword`](crate::write_without_keyword): why a keyword was neither set nor removed.
///
/// ```
/// use langtag::LangTag;
/// use langtag_unicode::{KeywordError, SetKeywordError, set_keyword};
///
/// let mut tag = LangTag::new("de")?.try_to_owned(alloc)?;
/// set_keyword(&mut tag, alloc, "c4", "roc"); // Err(SetKeywordError::Keyword(KeywordError::Key))
/// set_keyword(&mut tag, alloc, "ca", "roc-c"); // Err(SetKeywordError::Keyword(KeywordError::Value(4)))
/// ```
#[derive(Clone, Copy, Debug, PartialEq, Eq, Error)]
pub enum KeywordError {
    /// The key is not a letter or a digit followed by a letter (UTS #35, part 1, `ukey`).
    #[error("not a key of the extension u")]
    Key,
    /// At this byte offset, the value has a subtag that does not consist of three to eight letters or digits (UTS #35,
    /// part 1, `uvalue`).
    #[error("not a value of a key: a subtag needs three to eight letters or digits")]
    Value(usize),
    /// The tag is not normal: a tag such as `x-a` or `i-klingon` has no extensions (RFC 5646 section 2.1).
    #[error("not a normal language tag")]
    NotNormal,
}
