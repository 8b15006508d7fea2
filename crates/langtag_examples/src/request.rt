//! The language in which a request is answered, by its Accept-Language header (RFC 9110 section 12.5.4).
ghost use Rattle.std.specs.Prelude.{IfOk, IsNone, IsOk};
ghost use Rattle.langtag_examples.specs.Request.{IsTagFor};

use langtag::LangTag;
use langtag_match::{AcceptLanguageError, tag_for_header};
use std::alloc::{AllocError, Global};

/// Returns the tag in which to answer a request: from `en` and `de-CH` it chooses `de-CH` for the header `fr,
/// de-ch-1996;q=0.9`. It returns the default if the request has no header, or a malformed header.
///
/// # Errors
///
/// Returns an error if allocation fails. The server can then use the default.
pub fn tag_for_request<'t>(
    alloc: Global,
    header: Option<&str>,
    tags: &[LangTag<'t>],
    default: LangTag<'t>,
) -> Result<LangTag<'t>, AllocError>
    ensures chosen { IfOk result (IsTagFor tags.now default.entry header.entry) }
    ensures without_header { IsNone header.entry → IsOk result }
{
    let Some(header) = header else {
        return Ok(default);
    };
    match tag_for_header(alloc, header, tags, default) {
        Ok(tag) => Ok(tag),
        Err(AcceptLanguageError::BadElement { .. }) => Ok(default),
        Err(AcceptLanguageError::Memory(error)) => Err(error),
    }
}
