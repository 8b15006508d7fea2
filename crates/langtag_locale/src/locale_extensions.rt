//! The extensions in the form of a Unicode locale identifier (UTS #35, part 1, Annex C).
ghost use Rattle.std.specs.Prelude.{◌≡◌, ◌∷◌, [], IsTrue, List, flat_map, option_map};
ghost use Rattle.langtag_scan.specs.Grammar.{AllByRecursion, is_singleton, segments, segments_left, subtags, IsSubtag};
ghost use Rattle.langtag.specs.Definitions.{SpellsExtension, SpellsExtensions, extension_text, extensions_text, Pushes};
ghost use Rattle.langtag_text.specs.Fields.{subtag_of};
ghost use Rattle.langtag_cldr.specs.Definitions.{field_texts};
ghost use Rattle.langtag_scan.specs.Record as model;
ghost use Rattle.langtag_locale.specs.Allowed.{AreAllowed, IsAllowed};
ghost use Rattle.langtag_keyword.specs.Form.{is_language_id, is_transform};
ghost use Rattle.langtag_keyword.specs.Identifier.{AreVariants};
ghost use Rattle.langtag_keyword.specs.Identifier.{first_subtag, identifier_flat};
ghost use Rattle.langtag_keyword.specs.Keywords.{before_key};
ghost use Rattle.langtag_locale.specs.LocaleForm as spec;
ghost use Rattle.langtag_keyword.specs.Transform.{is_field_key};

use crate::locale_fields::identifier_form;
use crate::locale_variants::push_variants;
use langtag::{Extension, Extensions, Singleton, into_smallcase};
use langtag_cldr::{TagFields, language_replaced};
use langtag_extension::{SINGLETONS, singletons_of};
use langtag_keyword::{
    Keys, is_of, preceding, push_keywords, push_unicode, split_first, subtags_of, take_region,
    take_script,
};
use langtag_text::Output;

/// Appends the extensions in their forms, in the order of their singletons.
pub(crate) fn push_locale_extensions(out: &mut Output<'_>, extensions: Extensions<'_>)
    requires { AreAllowed (extensions_text extensions) }
    ensures { (es : List model.Extension) → SpellsExtensions es (extensions_text extensions.entry)
        → Pushes (flat_map model.extension_flat (spec.extensions_in_order es)) out.old out.new }
{
    if extensions.as_str().is_empty() {
        return;
    }
    let present = singletons_of(extensions);
    for singleton in SINGLETONS {
        if !present[usize::from(into_smallcase(singleton))] {
            continue;
        }
        push_extension_at(out, extensions, singleton);
    }
}

/// Appends the extension with a singleton in its form, if there is such an extension.
fn push_extension_at(out: &mut Output<'_>, extensions: Extensions<'_>, singleton: u8)
    requires singleton { IsTrue (is_singleton singleton) }
    requires allowed { AreAllowed (extensions_text extensions) }
    ensures { (es : List model.Extension) → SpellsExtensions es (extensions_text extensions.entry)
        → Pushes (flat_map model.extension_flat (spec.extension_at es singleton)) out.old out.new }
{
    let Ok(singleton) = Singleton::new(singleton) else {
        unreachable!()
    };
    if let Some(extension) = extensions.get(singleton) {
        push_extension(out, extension);
    }
}

/// Appends an extension in its form.
fn push_extension(out: &mut Output<'_>, extension: Extension<'_>)
    requires { IsAllowed (extension_text extension) }
    ensures { (e : model.Extension) → SpellsExtension e (extension_text extension.entry)
        → Pushes (model.extension_flat (spec.locale_extension_form e)) out.old out.new }
{
    if is_of(b'u', extension) {
        return push_unicode(out, subtags_of(extension));
    }
    if is_of(b't', extension) {
        return push_locale_transform(out, subtags_of(extension));
    }
    out.push_subtag(extension.as_bytes());
}

/// Appends the form of the extension `t` with these subtags.
fn push_locale_transform(out: &mut Output<'_>, text: &str)
    requires each { AllByRecursion IsSubtag (subtags text.now) }
    requires allowed { IsTrue (is_transform (subtags text.now)) }
    ensures { Pushes ((116 ∷ []) ∷ spec.locale_transform_form (subtags text.now)) out.old out.new }
{
    out.push_subtag(b"t");
    push_locale_language(out, text);
    push_keywords(out, text, Keys::Transform);
}

/// Appends the form of the language before the fields.
fn push_locale_language(out: &mut Output<'_>, text: &str)
    requires each { AllByRecursion IsSubtag (subtags text.now) }
    requires allowed { IsTrue (is_transform (subtags text.now)) }
    ensures { Pushes (spec.transform_language_form (before_key is_field_key (subtags text.now))) out.old out.new }
{
    if let Some(language) = preceding(text, Keys::Transform) {
        push_locale_language_id(out, language);
    }
}

/// Appends the form of a language identifier, given as a string.
fn push_locale_language_id(out: &mut Output<'_>, text: &str)
    requires { IsTrue (is_language_id (segments text.now)) }
    ensures { Pushes (spec.transform_language_form (segments text.now)) out.old out.new }
{
    let (language, rest) = split_first(text);
    let (script, rest) = take_script(rest);
    let (region, variants) = take_region(rest);
    let fields = TagFields {
        language: language.as_bytes(),
        script: text_of(script),
        region: text_of(region),
    };
    push_identifier(out, fields, variants);
}

/// Returns the string of a subtag, or the empty string if there is no subtag.
fn text_of<'a>(subtag: Option<&'a str>) -> &'a [u8]
    ensures { result.now ≡ first_subtag (model.one_flat (option_map (λ t. t.now) subtag.entry)) }
{
    match subtag {
        Some(subtag) => subtag.as_bytes(),
        None => b"",
    }
}

/// Appends the form of a language identifier with these fields and variants.
pub(crate) fn push_identifier(out: &mut Output<'_>, fields: TagFields<'_>, variants: Option<&str>)
    requires { AreVariants (segments_left variants) }
    ensures { Pushes (identifier_flat (spec.identifier_form (segments_left variants.entry) (field_texts fields.entry))
        (spec.new_variants (segments_left variants.entry) (field_texts fields.entry))) out.old out.new }
{
    let replaced = language_replaced(fields);
    let form = identifier_form(replaced, variants);
    out.push_subtag(form.language);
    push_field(out, form.script);
    push_field(out, form.region);
    push_variants(out, replaced.language, variants);
}

/// Appends a field, unless it is empty.
pub(crate) fn push_field(out: &mut Output<'_>, field: &[u8])
    ensures { Pushes (model.one_flat (subtag_of field.now)) out.old out.new }
{
    if !field.is_empty() {
        out.push_subtag(field);
    }
}
