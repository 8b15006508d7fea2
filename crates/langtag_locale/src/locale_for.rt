//! The Unicode locale identifier whose form is the form of a tag (UTS #35, part 1, Annex C). A tag that is not such an
//! identifier is replaced before its form is written. It then gets the form of its canonical form (RFC 5646 section
//! 4.5), unless CLDR does not have the Preferred-Value yet (data/unicode/ahead-of-cldr.txt). `zh-yue-hepburn-heploc`
//! differs, too: it gets the form of `yue-hepburn-heploc`. So does `es-rSL`, whose canonical form is `rsl`: Android writes
//! `es-SL` so.
ghost use Rattle.std.specs.Prelude.{◌≡◌, IfSome, List, None, Some, ℕ};
ghost use Rattle.langtag_scan.specs.Grammar.{EachRecord, Spells};
ghost use Rattle.langtag.specs.Definitions.{lang_tag_text, normal_lang_tag_text};
ghost use Rattle.langtag_locale.specs.Locale.{IsReadLocale};
ghost use Rattle.langtag_locale.specs.LocaleForm as spec;

use crate::locale::is_read_record;
use langtag::{ExtendedLangTag, LangTag, NormalLangTag};
use langtag_fields::{is_registered_extlang, preferred_tag};

/// Returns the Unicode locale identifier, as it is read, whose form is the form of a tag: the tag itself, its
/// Preferred-Value, or the tag from its extended language on. Returns `None` if the tag has no form.
pub(crate) fn locale_for<'a>(tag: LangTag<'a>) -> Option<NormalLangTag<'a>>
    ensures is_locale { IfSome result (λ locale. IsReadLocale (normal_lang_tag_text locale)) }
    ensures form { IfSome result (λ locale. (form : List ℕ) → spec.IsLocaleForm (normal_lang_tag_text locale) (Some form)
        → spec.IsWholeForm (lang_tag_text tag.entry) (Some form)) }
    ensures none { result ≡ None → spec.IsWholeForm (lang_tag_text tag.entry) None }
{
    if let Some(locale) = as_locale(tag) {
        return Some(locale);
    }
    if let Some(value) = preferred_tag(tag) {
        return as_locale(value);
    }
    if tag.is_grandfathered() {
        return None;
    }
    as_locale(from_extlang(tag.as_normal()?)?)
}

/// Returns a tag as a normal tag if it is a Unicode locale identifier as it is read.
fn as_locale<'a>(tag: LangTag<'a>) -> Option<NormalLangTag<'a>>
    ensures some { IfSome result (λ locale. (normal_lang_tag_text locale ≡ lang_tag_text tag.entry) × IsReadLocale
        (lang_tag_text tag.entry)) }
    ensures none { result ≡ None → IsReadLocale (lang_tag_text tag.entry) → ⊥ }
{
    let normal = tag.as_normal()?;
    if !is_read_record(normal) {
        return None;
    }
    Some(normal)
}

/// Returns a tag from its extended language on: `yue-HK` for `zh-yue-HK`. Returns `None` if the extended language is not
/// registered, or not the only one.
fn from_extlang<'a>(tag: NormalLangTag<'a>) -> Option<LangTag<'a>>
    ensures some { IfSome result (λ rest. EachRecord (normal_lang_tag_text tag.entry)
        (λ r. Spells (spec.extlang_replaced r) (lang_tag_text rest))) }
    ensures none { result ≡ None → EachRecord (normal_lang_tag_text tag.entry) (λ r. spec.extlang_replaced r ≡ r) }
{
    let language = tag.language();
    let extlang = ExtendedLangTag::new(language.extension()?.as_str()).ok()?;
    if !is_registered_extlang(extlang) {
        return None;
    }
    let start = language.primary().as_str().len() + 1;
    Some(LangTag::from_checked(&tag.as_str()[start..]))
}
