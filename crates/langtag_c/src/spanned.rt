//! Spans of a string as tags and as language ranges.
ghost use Rattle.std.specs.Prelude.{◌≡◌, [], IfSome, IsTrue, option_map};
ghost use Rattle.langtag.specs.Definitions.{lang_tag_text};
ghost use Rattle.langtag_range.specs.Definitions.{is_language_range, hyphened, written_element};
ghost use Rattle.langtag_c.specs.Spanned.{IsTagAt, range_at};
ghost use Rattle.langtag_c.specs.Spans.{HasBytes, span_text};

use crate::span::Span;
use crate::tag::tag_of;
use langtag::LangTag;
use langtag_range::{WantedRange, listed_range};

/// Returns a span of a string as a tag, or `None` if it is not one.
pub(crate) fn tag_in<'a>(text: &'a [u8], span: Span) -> Option<LangTag<'a>>
    ensures { IsTagAt text.now span (option_map lang_tag_text result) }
{
    tag_of(span.of(text)?)
}

/// Returns the bytes of a span of a string, or no bytes if the span reaches beyond the string.
pub(crate) fn bytes_in<'a>(text: &'a [u8], span: Span) -> &'a [u8]
    ensures bytes { HasBytes text.now span → result.now ≡ span_text text.now span }
    ensures beyond { (HasBytes text.now span → ⊥) → result.now ≡ [] }
{
    span.of(text).unwrap_or(b"")
}

/// Returns a span of a string as a language range, or `None` if it is not one.
#[tactic(auto, using(crate::proofs::TagsAt::range_there, crate::proofs::TagsAt::no_range))]
pub(crate) fn range_in<'a>(text: &'a [u8], span: Span) -> Option<WantedRange<'a>>
    ensures range { option_map written_element result ≡ range_at text.now span }
    ensures in_class { IfSome result (λ found. IsTrue (is_language_range (hyphened found.bytes.now))) }
{
    listed_range(span.of(text)?)
}
