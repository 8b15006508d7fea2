//! Writing the extensions of a tag with a keyword set or removed. A keyword that is set keeps its position, and its key
//! keeps its case, so that all other bytes of the tag stay. ICU and `Intl.Locale` sort all keys.
ghost use Rattle.std.specs.Prelude.{◌≡◌, List, map, flat_map, is_some};
ghost use Rattle.langtag_scan.specs.Grammar.{AllByRecursion, IsWellFormedExtension, subtags};
ghost use Rattle.langtag_extension.specs.Spelling.{SpellsExtension, SpellsExtensions, extension_spelling, find_extension};
ghost use Rattle.langtag_extension.specs.Text.{extension_text, extensions_left, extensions_text};
ghost use Rattle.langtag_text.specs.Output.{Pushes};
ghost use Rattle.langtag_scan.specs.Record as model;
ghost use Rattle.langtag_keyword.specs.Edit as spec;
ghost use Rattle.langtag_keyword.specs.EditText.{edited_by, replaces};

use crate::edited_subtags::{has_others, push_with_keyword, push_without_keyword};
use crate::extension_form::subtags_of;
use crate::subtags::nonempty;
use langtag_extension::{Extension, Extensions, ExtensionsIter, Singleton};
use langtag_scan::into_smallcase;
use langtag_text::Output;

/// A key and its new value, or `None` to remove the key.
#[derive(Clone, Copy, Drop)]
pub struct KeywordEdit<'a> {
    pub key: &'a str,
    pub value: Option<&'a str>,
}

/// Where the edited `u` goes among the extensions of a tag.
#[derive(Clone, Copy, Drop)]
pub enum Place {
    /// In place of the first `u`.
    OfFirstUnicode,
    /// Before the first extension with a greater singleton or, if there is none, to the end: the tag has no `u`.
    BeforeGreater,
}

/// Appends extensions, with a keyword set or removed in the first `u`.
pub fn push_edited(out: &mut Output<'_>, extensions: Extensions<'_>, edit: KeywordEdit<'_>)
    ensures { (es : List model.Extension) → SpellsExtensions es (extensions_text extensions.entry)
        → Pushes (flat_map model.extension_flat (spec.with_changed_u (edited_by edit.entry) es)) out.old out.new }
{
    let place = place_of_unicode(extensions);
    let mut rest = extensions.iter();
    while let Some(extension) = rest.next() {
        if is_at(place, extension) {
            push_at(out, place, extension, edit);
            return push_rest(out, rest);
        }
        out.push_subtag(extension.as_bytes());
    }
    push_unicode(out, b'u', "", edit);
}

/// Returns where the edited `u` goes.
pub fn place_of_unicode(extensions: Extensions<'_>) -> Place
    ensures { (es : List model.Extension) → SpellsExtensions es (extensions_text extensions.entry)
        → replaces result ≡ is_some (find_extension 117 es) }
{
    match Singleton::new(b'u') {
        Ok(singleton) if extensions.get(singleton).is_some() => Place::OfFirstUnicode,
        _ => Place::BeforeGreater,
    }
}

/// Returns whether the place is at this extension.
pub fn is_at(place: Place, extension: Extension<'_>) -> bool
    ensures { (e : model.Extension) → SpellsExtension e (extension_text extension.entry)
        → result ≡ spec.is_place_of_u (replaces place) e }
{
    let singleton = into_smallcase(extension.singleton().unwrap());
    match place {
        Place::OfFirstUnicode => singleton == b'u',
        Place::BeforeGreater => singleton > b'u',
    }
}

/// Appends the edited `u` at its place, which is at this extension.
fn push_at(out: &mut Output<'_>, place: Place, extension: Extension<'_>, edit: KeywordEdit<'_>)
    ensures { (e : model.Extension) → SpellsExtension e (extension_text extension.entry)
        → Pushes (flat_map model.extension_flat (spec.at_place (edited_by edit.entry) (replaces place) e)) out.old out.new }
{
    match place {
        Place::OfFirstUnicode => {
            let singleton = extension.singleton().unwrap();
            push_unicode(out, singleton, subtags_of(extension), edit);
        }
        Place::BeforeGreater => {
            push_unicode(out, b'u', "", edit);
            out.push_subtag(extension.as_bytes());
        }
    }
}

/// Appends the remaining extensions of an iterator.
pub fn push_rest(out: &mut Output<'_>, rest: ExtensionsIter<'_>)
    ensures { (es : List model.Extension) → AllByRecursion IsWellFormedExtension es → extensions_left rest.entry ≡ map extension_spelling es
        → Pushes (flat_map model.extension_flat es) out.old out.new }
{
    for extension in rest {
        out.push_subtag(extension.as_bytes());
    }
}

/// Appends an extension with its edited subtags, or nothing if no subtag is left.
fn push_unicode(out: &mut Output<'_>, singleton: u8, text: &str, edit: KeywordEdit<'_>)
    ensures { Pushes (flat_map model.extension_flat (spec.extension_of singleton (edited_by edit.entry (subtags text.now))))
        out.old out.new }
{
    let Some(value) = edit.value else {
        return push_others(out, singleton, text, edit.key);
    };
    out.push_subtag(&[singleton]);
    push_with_keyword(out, text, edit.key, value);
}

/// Appends an extension without the keywords of a key, or nothing if no subtag is left.
fn push_others(out: &mut Output<'_>, singleton: u8, text: &str, key: &str)
    ensures { Pushes (flat_map model.extension_flat
        (spec.extension_of singleton (spec.without_keyword key.now (subtags text.now)))) out.old out.new }
{
    if has_others(text, key) {
        out.push_subtag(&[singleton]);
        push_without_keyword(out, nonempty(text), key);
    }
}
