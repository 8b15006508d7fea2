//! The canonical form of the extensions `u` and `t` (UTS #35, part 1, Annex C).
ghost use Rattle.std.specs.Prelude.{◌≡◌, ◌<◌, ◌∷◌, ◌&&◌, ◌||◌, not, [], List, false, flat_map};
ghost use Rattle.langtag_scan.specs.Grammar.{AllByRecursion, subtags, IsSubtag};
ghost use Rattle.langtag_extension.specs.Spelling.{SpellsExtension, SpellsExtensions};
ghost use Rattle.langtag_extension.specs.Text.{extension_text, extensions_text};
ghost use Rattle.langtag_text.specs.Output.{Pushes};
ghost use Rattle.langtag_scan.specs.Record as model;
ghost use Rattle.langtag_keyword.specs.Form as spec;

use crate::alphabet::push_in_alphabet;
use crate::keys::Keys;
use crate::keyword_form::push_keywords;
use crate::subtags::preceding;
use crate::transform_form::{is_transform, push_transform};
use langtag_extension::{Extension, Extensions};
use langtag_scan::into_smallcase;
use langtag_text::Output;

/// Appends extensions, with the first `u` and the first `t` in canonical form.
pub fn push_extensions(out: &mut Output<'_>, extensions: Extensions<'_>)
    ensures { (es : List model.Extension) → SpellsExtensions es (extensions_text extensions.entry)
        → Pushes (flat_map model.extension_flat (spec.forms_after false false es)) out.old out.new }
{
    let mut after_u = false;
    let mut after_t = false;
    for extension in extensions.iter() {
        push_extension(out, extension, after_u, after_t);
        after_u = is_after(b'u', extension, after_u);
        after_t = is_after(b't', extension, after_t);
    }
}

/// Appends an extension: in canonical form if it is the first `u`, or the first `t` and well-formed, and otherwise
/// unchanged.
fn push_extension(out: &mut Output<'_>, extension: Extension<'_>, after_u: bool, after_t: bool)
    ensures { (e : model.Extension) → SpellsExtension e (extension_text extension.entry)
        → Pushes (model.extension_flat (spec.extension_form after_u after_t e)) out.old out.new }
{
    if is_first(b'u', extension, after_u) {
        return push_unicode(out, subtags_of(extension));
    }
    if is_first_transform(extension, after_t) {
        return push_transform(out, subtags_of(extension));
    }
    out.push_subtag(extension.as_bytes());
}

/// Returns whether an extension is the first `t`, and is well-formed.
fn is_first_transform(extension: Extension<'_>, after_t: bool) -> bool
    ensures { (e : model.Extension) → SpellsExtension e (extension_text extension.entry)
        → result ≡ (spec.is_of 116 e && not after_t && spec.is_transform e.subtags) }
{
    is_first(b't', extension, after_t) && is_transform(subtags_of(extension))
}

/// Returns whether an extension is the first extension with the given singleton.
fn is_first(singleton: u8, extension: Extension<'_>, is_after: bool) -> bool
    ensures { (e : model.Extension) → SpellsExtension e (extension_text extension.entry)
        → result ≡ (spec.is_of singleton e && not is_after) }
{
    is_of(singleton, extension) && !is_after
}

/// Returns whether an extension with the singleton has occurred, up to and including this extension.
fn is_after(singleton: u8, extension: Extension<'_>, is_after: bool) -> bool
    ensures { (e : model.Extension) → SpellsExtension e (extension_text extension.entry)
        → result ≡ (is_after || spec.is_of singleton e) }
{
    is_after || is_of(singleton, extension)
}

/// Returns the subtags after the singleton, joined by hyphens.
pub fn subtags_of<'a>(extension: Extension<'a>) -> &'a str
    ensures subtags { (e : model.Extension) → SpellsExtension e (extension_text extension.entry)
        → subtags result.now ≡ e.subtags }
    ensures each { AllByRecursion IsSubtag (subtags result.now) }
{
    &extension.as_str()[2..]
}

/// Appends the canonical form of the extension `u` with these subtags.
pub fn push_unicode(out: &mut Output<'_>, text: &str)
    requires { AllByRecursion IsSubtag (subtags text.now) }
    ensures { Pushes ((117 ∷ []) ∷ spec.unicode_form (subtags text.now)) out.old out.new }
{
    out.push_subtag(b"u");
    push_in_alphabet(out, preceding(text, Keys::Unicode));
    push_keywords(out, text, Keys::Unicode);
}

/// Returns whether an extension begins with a singleton, ignoring case.
pub fn is_of(singleton: u8, extension: Extension<'_>) -> bool
    ensures { (e : model.Extension) → SpellsExtension e (extension_text extension.entry) → result ≡ spec.is_of singleton e }
{
    into_smallcase(extension.singleton().unwrap()) == singleton
}
