//! Where the variants and the singletons of a tag are in its text (RFC 5646 sections 2.2.5 and 2.2.6).
ghost use Rattle.std.specs.Prelude.{◌≡◌, Some};
ghost use Rattle.langtag_scan.specs.Grammar.{EachRecord};
ghost use Rattle.langtag.specs.Definitions.{normal_lang_tag_text};
ghost use Rattle.langtag_c.specs.Members.{member_span, singleton_place, variant_place};

use crate::span::Span;
use langtag::NormalLangTag;

/// Returns where the variant at an index is in a tag.
pub(crate) fn variant_at(tag: &NormalLangTag<'_>, wanted: usize) -> Option<Span>
    ensures { EachRecord (normal_lang_tag_text tag.now) (λ r. result ≡ member_span (variant_place r) r.variants (Some wanted)) }
{
    tag.variants()
        .iter()
        .scan(tag.ends().region, |end, variant| {
            let start = *end + 1;
            let len = variant.as_str().len();
            *end = start + len;
            Some(Span { start, len })
        })
        .nth(wanted)
}

/// Returns where the singleton of the extension at an index is in a tag.
pub(crate) fn singleton_at(tag: &NormalLangTag<'_>, wanted: usize) -> Option<Span>
    ensures { EachRecord (normal_lang_tag_text tag.now)
        (λ r. result ≡ member_span (singleton_place r) r.extensions (Some wanted)) }
{
    tag.extensions()
        .iter()
        .scan(tag.ends().variants, |end, extension| {
            let start = *end + 1;
            *end = start + extension.as_str().len();
            Some(Span { start, len: 1 })
        })
        .nth(wanted)
}
