//! What a range asks of the locale to format with.
ghost use Rattle.std.specs.Prelude.{◌≡◌, IsTrue};
ghost use Rattle.langtag.specs.Definitions.{normal_lang_tag_text};
ghost use Rattle.langtag_scan.specs.Grammar.{AllByRecursion, subtags, IsSubtag};
ghost use Rattle.langtag_scan.specs.Record as model;
ghost use Rattle.langtag_text.specs.FieldClasses.{is_region_field};
ghost use Rattle.langtag_locale.specs.Resolved as spec;

use crate::canonical_locale::fields_of;
use crate::locale_fields::identifier_form;
use langtag::{NormalLangTag, Singleton, case_insensitive_eq};
use langtag_cldr::{known, language_replaced};
use langtag_keyword::{is_among, nonempty, subtags_of};

/// What a range asks for: its region, and the keywords of its `u`.
#[derive(Clone, Copy)]
pub(crate) struct Wish<'a> {
    /// The region, or the empty string.
    pub(crate) region: &'a [u8],
    /// The subtags of `u`, or the empty string.
    pub(crate) unicode: &'a str,
    pub ghost region_class: { IsTrue (is_region_field region.now) },
}

impl<'a> Wish<'a> {
    ghost use Rattle.langtag_locale.specs.WishTexts.{wish_texts};

    /// Returns what a range with this Unicode locale identifier asks for.
    pub(crate) fn of(locale: NormalLangTag<'a>) -> Wish<'a>
        ensures wish { model.EachRecord (normal_lang_tag_text locale.entry) (λ r. wish_texts result ≡ spec.wish_of r) }
        ensures each { AllByRecursion IsSubtag (wish_texts result).unicode }
    {
        Wish {
            region: asked_region(locale),
            unicode: unicode_subtags(locale),
        }
    }

    /// Returns what a range asks of a tag. If the language of the tag is `und`, its region stays.
    pub(crate) fn for_tag(self, tag: NormalLangTag<'_>) -> Wish<'a>
        requires { AllByRecursion IsSubtag (wish_texts self).unicode }
        ensures wish { model.EachRecord (normal_lang_tag_text tag.entry)
            (λ r. wish_texts result ≡ spec.wish_for r (wish_texts self.entry)) }
        ensures each { AllByRecursion IsSubtag (wish_texts result).unicode }
    {
        if case_insensitive_eq(tag.language().primary().as_bytes(), b"und") {
            return Wish {
                region: b"",
                unicode: self.unicode,
            };
        }
        self
    }

    /// Returns whether `rg` and `sd` of a tag are removed, because the range says where its user is.
    pub(crate) fn removes_subdivisions(self) -> bool
        ensures { result ≡ spec.removes_subdivisions (wish_texts self.entry) }
    {
        !self.region.is_empty() || is_among(nonempty(self.unicode), b"rg")
    }
}

/// Returns the region in the form of a Unicode locale identifier, or the empty string if it is absent or unknown.
fn asked_region<'a>(locale: NormalLangTag<'a>) -> &'a [u8]
    ensures region { model.EachRecord (normal_lang_tag_text locale.entry) (λ r. result.now ≡ (spec.wish_of r).region) }
    ensures in_class { IsTrue (is_region_field result.now) }
{
    let replaced = language_replaced(fields_of(locale));
    let form = identifier_form(replaced, nonempty(locale.variants().as_str()));
    known(b"ZZ", form.region)
}

/// Returns the subtags of `u`, or the empty string if there is no `u`.
fn unicode_subtags<'a>(locale: NormalLangTag<'a>) -> &'a str
    ensures subtags { model.EachRecord (normal_lang_tag_text locale.entry) (λ r. subtags result.now ≡ (spec.wish_of r).unicode) }
    ensures each { AllByRecursion IsSubtag (subtags result.now) }
{
    let Ok(singleton) = Singleton::new(b'u') else {
        unreachable!()
    };
    match locale.extensions().get(singleton) {
        Some(extension) => subtags_of(extension),
        None => "",
    }
}
