//! Walks over the subtags and the extensions of a part, without allocating.
ghost use Rattle.std.specs.Prelude.{◌≡◌, ◌↔◌, ◌∷◌, List, IsTrue, false};
ghost use Rattle.langtag_scan.specs.Grammar.{Extension};
ghost use Rattle.langtag.specs.Definitions.{extension_spelling, SpellsExtensions};
ghost use Rattle.langtag_c.specs.Spans.{HasBytes, span_text};
ghost use Rattle.langtag_c.specs.Walks.{TakesSubtag, TakesExtension};

use crate::span::Span;
use langtag_extension::first_extension_end;
use langtag_scan::segment_end;

/// Removes the first subtag from `rest`, and writes it to `subtag` (out). `rest` then begins after the next hyphen.
/// Begin with a copy of the span of a part:
///
/// ```c
/// const char *text = "sl-rozaj-1994";
/// size_t len = strlen(text);
/// langtag_parts parts;
/// langtag_parse(text, len, &parts);
/// langtag_span rest = parts.variants, variant;
/// while (langtag_next_subtag(text, len, &rest, &variant))
///     printf("%.*s ", (int)variant.len, text + variant.start); // rozaj 1994
/// ```
///
/// Returns false if and only if `rest` is empty or reaches beyond the string, and then leaves both spans unchanged. So
/// an empty subtag after the last hyphen is not returned: "a-" has one subtag. In "a--b", the second of three subtags
/// is empty.
#[unsafe(no_mangle)]
pub extern "C" fn langtag_next_subtag(bytes: &[u8], rest: &mut Span, subtag: &mut Span) -> bool
    ensures some { IsTrue result ↔ HasBytes bytes.now rest.old }
    ensures taken { IsTrue result → TakesSubtag bytes.now rest.old rest.new subtag.new }
    ensures nothing { result ≡ false → (rest.new ≡ rest.old) × (subtag.new ≡ subtag.old) }
{
    let Some(part) = rest.of(bytes) else {
        return false;
    };
    *subtag = rest.take_first(segment_end(part, 0));
    true
}

/// Removes the first extension, such as u-co-pinyin, from `rest`, as `langtag_next_subtag` removes a subtag. Begin with
/// `parts.extensions`. From any other span, the bytes before the first hyphen that is followed by a subtag of one byte
/// are removed.
#[unsafe(no_mangle)]
pub extern "C" fn langtag_next_extension(
    bytes: &[u8],
    rest: &mut Span,
    extension: &mut Span,
) -> bool
    ensures some { IsTrue result ↔ HasBytes bytes.now rest.old }
    ensures taken { IsTrue result → TakesExtension bytes.now rest.old rest.new extension.new }
    // law: the first extension of those that spell the span
    ensures extension { IsTrue result → (first : Extension) (others : List Extension) →
        SpellsExtensions (first ∷ others) (span_text bytes.now rest.old) →
        (span_text bytes.now extension.new ≡ extension_spelling first) × SpellsExtensions others (span_text bytes.now rest.new) }
    ensures nothing { result ≡ false → (rest.new ≡ rest.old) × (extension.new ≡ extension.old) }
{
    let Some(part) = rest.of(bytes) else {
        return false;
    };
    *extension = rest.take_first(first_extension_end(part));
    true
}
