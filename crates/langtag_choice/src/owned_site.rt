//! A site that owns what it prepared.
ghost use Rattle.std.specs.Prelude.{◌≡◌, IfOk};
ghost use Rattle.langtag_choice.specs.Sites.{prepared_tags};

use crate::prepared_tag::PreparedTag;
use crate::site::Site;
use langtag::LangTag;
use std::alloc::{AllocError, Global};

/// A [`Site`] that owns its prepared tags.
///
/// ```
/// use langtag::LangTag;
/// use langtag_choice::OwnedSite;
///
/// let tags = [LangTag::new("en")?, LangTag::new("zh-Hant")?];
/// let site = OwnedSite::new(alloc, &tags)?;
/// site.as_site().best_for_header(b"zh-TW,zh;q=0.9"); // Some(1)
/// ```
#[derive(Drop)]
pub struct OwnedSite<'t> {
    tags: Vec<PreparedTag<'t>>,
}

impl<'t> OwnedSite<'t> {
    /// Prepares tags.
    ///
    /// # Errors
    ///
    /// Returns an error if allocation fails.
    pub fn new(alloc: Global, tags: &[LangTag<'t>]) -> Result<OwnedSite<'t>, AllocError>
        ensures { IfOk result (λ site. prepared_tags site.tags.items ≡ tags.now) }
    {
        let mut prepared = Vec::new(alloc);
        for tag in tags {
            prepared
                .push(PreparedTag::new(*tag))
                .map_err(AllocError::from)?;
        }
        Ok(OwnedSite { tags: prepared })
    }

    /// Returns the site.
    pub fn as_site(&self) -> Site<'_, 't>
        ensures { result.tags.now ≡ self.now.tags.items }
    {
        Site::new(self.tags.as_slice())
    }
}
