//! Tags as spans of a string.
ghost use Rattle.langtag_c.specs.TagsAt.{tags_at};

use crate::span::Span;
use crate::spanned::{bytes_in, tag_in};
use langtag::LangTag;
use langtag_choice::TagList;

/// A string, and spans of it that are tags.
#[derive(Clone, Copy)]
pub(crate) struct SpannedTags<'a> {
    pub(crate) text: &'a [u8],
    pub(crate) spans: &'a [Span],
}

#[tactic(auto, using(crate::proofs::TagsAt::one_tag_at, crate::proofs::TagsAt::tags_at_index))]
impl TagList for SpannedTags<'_> {
    ghost texts = { λ tags. tags_at tags.text.now tags.spans.now };

    fn count(&self) -> usize {
        self.spans.len()
    }

    fn tag_at(&self, index: usize) -> Option<LangTag<'_>> {
        tag_in(self.text, self.spans[index])
    }

    fn bytes_at(&self, index: usize) -> &[u8] {
        bytes_in(self.text, self.spans[index])
    }
}
