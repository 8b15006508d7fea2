//! The subtags of an extension of a tag, as one string.
ghost use Rattle.std.specs.Prelude.{[], IsTrue};
ghost use Rattle.langtag_scan.specs.Grammar.{subtags};
ghost use Rattle.langtag.specs.Definitions.{PartOf, lang_tag_text, are_extension_subtags, singleton_byte};
ghost use Rattle.langtag_keyword.specs.Keywords as spec;

use langtag::{LangTag, Singleton};

/// Returns the subtags of the first extension with a singleton, joined by hyphens, or the empty string if there is no
/// such extension.
pub(crate) fn extension_text<'a>(tag: LangTag<'a>, singleton: Singleton) -> &'a str
    ensures subtags { PartOf (lang_tag_text tag.entry) (spec.subtags_of (singleton_byte singleton)) [] (subtags result.now) }
    ensures in_class { IsTrue (are_extension_subtags (subtags result.now)) }
{
    match tag.extensions().get(singleton) {
        Some(extension) => &extension.as_str()[2..],
        None => "",
    }
}

/// Returns the subtags of the first extension `u` of a tag, joined by hyphens.
pub(crate) fn unicode_text<'a>(tag: LangTag<'a>) -> &'a str
    ensures subtags { PartOf (lang_tag_text tag.entry) (spec.subtags_of 117) [] (subtags result.now) }
    ensures in_class { IsTrue (are_extension_subtags (subtags result.now)) }
{
    match Singleton::new(b'u') {
        Ok(singleton) => extension_text(tag, singleton),
        Err(_) => "",
    }
}
