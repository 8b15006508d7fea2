//! The extensions of a tag, with the keywords of a range in `u`.
ghost use Rattle.std.specs.Prelude.{◌≡◌, List, flat_map};
ghost use Rattle.langtag_scan.specs.Grammar.{AllByRecursion, subtags, IsSubtag};
ghost use Rattle.langtag.specs.Definitions.{SpellsExtension, SpellsExtensions, extension_text, extensions_text, Pushes};
ghost use Rattle.langtag_scan.specs.Record as model;
ghost use Rattle.langtag_keyword.specs.Edit.{at_place, extension_of, with_changed_u};
ghost use Rattle.langtag_keyword.specs.EditText.{replaces};
ghost use Rattle.langtag_locale.specs.WishTexts.{wish_texts};
ghost use Rattle.langtag_locale.specs.Resolved as spec;

use crate::resolved_keywords::{is_resolved_empty, push_resolved};
use crate::wish::Wish;
use langtag::{Extension, Extensions};
use langtag_keyword::{Place, is_at, place_of_unicode, push_rest, subtags_of};
use langtag_text::Output;

/// Appends the extensions, with the keywords of the range in the first `u`. A new `u` stands before the first greater
/// singleton.
pub(crate) fn push_resolved_extensions(
    out: &mut Output<'_>,
    wish: Wish<'_>,
    extensions: Extensions<'_>,
)
    requires { AllByRecursion IsSubtag (wish_texts wish).unicode }
    ensures { (es : List model.Extension) → SpellsExtensions es (extensions_text extensions.entry)
        → Pushes (flat_map model.extension_flat (with_changed_u (spec.resolved_subtags (wish_texts wish.entry)) es)) out.old out.new }
{
    let place = place_of_unicode(extensions);
    let mut rest = extensions.iter();
    while let Some(extension) = rest.next() {
        if is_at(place, extension) {
            push_at(out, wish, place, extension);
            return push_rest(out, rest);
        }
        out.push_subtag(extension.as_bytes());
    }
    push_unicode(out, wish, b'u', "");
}

/// Appends `u` at its place, which is at this extension.
fn push_at(out: &mut Output<'_>, wish: Wish<'_>, place: Place, extension: Extension<'_>)
    requires { AllByRecursion IsSubtag (wish_texts wish).unicode }
    ensures { (e : model.Extension) → SpellsExtension e (extension_text extension.entry)
        → Pushes (flat_map model.extension_flat (at_place (spec.resolved_subtags (wish_texts wish.entry)) (replaces place) e)) out.old
        out.new }
{
    match place {
        Place::OfFirstUnicode => {
            let singleton = extension.singleton().unwrap();
            push_unicode(out, wish, singleton, subtags_of(extension));
        }
        Place::BeforeGreater => {
            push_unicode(out, wish, b'u', "");
            out.push_subtag(extension.as_bytes());
        }
    }
}

/// Appends `u` with the keywords of the range, or nothing if no subtag is left.
fn push_unicode(out: &mut Output<'_>, wish: Wish<'_>, singleton: u8, text: &str)
    requires { AllByRecursion IsSubtag (wish_texts wish).unicode }
    ensures { Pushes (flat_map model.extension_flat
        (extension_of singleton (spec.resolved_subtags (wish_texts wish.entry) (subtags text.now)))) out.old out.new }
{
    if is_resolved_empty(wish, text) {
        return;
    }
    out.push_subtag(&[singleton]);
    push_resolved(out, wish, text);
}
