//! Private-use tags (RFC 5646 section 2.2.7).
use langtag_private::{PrivateUse, PrivateUseBuf};

/// A private-use tag, such as `x-fr-CH`. Its whole string is a private use part.
///
/// ```
/// use langtag::PrivateUseLangTag;
///
/// PrivateUseLangTag::new("x-fr-CH")?.iter().count(); // 2
/// ```
pub type PrivateUseLangTag<'a> = PrivateUse<'a>;

/// A private-use tag that owns its text.
///
/// ```
/// use langtag::{PrivateUseLangTag, PrivateUseLangTagBuf};
///
/// let owned: PrivateUseLangTagBuf = PrivateUseLangTag::new("x-fr-CH")?.try_to_owned(alloc)?;
/// owned.as_str(); // "x-fr-CH"
/// ```
pub type PrivateUseLangTagBuf = PrivateUseBuf;
