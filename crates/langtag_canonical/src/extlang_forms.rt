//! The extlang form of a tag (RFC 5646 section 4.5).
ghost use Rattle.std.specs.Prelude.{◌≡◌, IsNone, IfSome, IfOk, string_bytes};
ghost use Rattle.langtag_scan.specs.Grammar.{EachRecord, Spells};
ghost use Rattle.langtag.specs.Definitions.{EachLanguageSpelling, IsLanguage, SpellsLanguage, language_text};
ghost use Rattle.langtag.specs.Definitions.{lang_tag_text, lang_tag_buf_text, normal_lang_tag_buf_text};
ghost use Rattle.langtag_canonical.specs.Canonical as form;
ghost use Rattle.langtag_canonical.specs.Canonical.{IsExtlangForm, extlang_primary, extlang_extended, extlang_record};

use crate::canonical_form::canonical;
use langtag::{LangTag, LangTagBuf, NormalLangTagBuf};
use langtag_fields::prefix_of_language;
use langtag_language::Language;
use std::alloc::{AllocError, Global};

/// Returns the extlang form of a tag (RFC 5646 section 4.5). It is the canonical form, with a prefix before a
/// language that is also registered as an extended language: `zh-hak-CN` for `hak-CN` and `zh-hak-CN`, `he` for `iw`.
/// A language with three extended subtags, which no valid tag has, stays as it is.
///
/// # Errors
///
/// Returns an error if allocation fails.
///
/// ```
/// use langtag::LangTag;
/// use langtag_registry::extlang_form;
///
/// extlang_form(alloc, LangTag::new("hak-CN")?)?.as_str(); // "zh-hak-CN"
/// ```
#[tactic(auto, using(crate::proofs::ExtlangForms::other_form))]
pub fn extlang_form(alloc: Global, tag: LangTag<'_>) -> Result<LangTagBuf, AllocError>
    ensures { IfOk result (λ form. IsExtlangForm (lang_tag_text tag.entry) (lang_tag_buf_text form)) }
{
    match canonical(alloc, tag)?.into_normal() {
        Ok(form) => Ok(with_prefix(alloc, form)?.into_lang_tag()),
        Err(form) => Ok(form),
    }
}

/// Returns a tag with the prefix of its language before it.
fn with_prefix(alloc: Global, mut form: NormalLangTagBuf) -> Result<NormalLangTagBuf, AllocError>
    ensures { IfOk result (λ new. EachRecord (normal_lang_tag_buf_text form)
        (λ r. Spells (extlang_record r) (normal_lang_tag_buf_text new))) }
{
    let Some(text) = prefixed_language(alloc, form.as_normal_lang_tag().language())? else {
        return Ok(form);
    };
    form.set_language(alloc, Language::from_checked(text.as_str()))?;
    Ok(form)
}

/// Returns a language with its prefix before it, if it is also an extended language: `zh-hak` for `hak`.
fn prefixed_language(alloc: Global, language: Language<'_>) -> Result<Option<String>, AllocError>
    ensures in_class { IfOk result (λ text. IfSome text (λ new. IsLanguage (string_bytes new))) }
    ensures stays { IfOk result (λ text. IsNone text → EachLanguageSpelling (language_text language.entry)
        (λ primary extended. (extlang_primary primary extended ≡ primary) × (extlang_extended primary extended ≡ extended))) }
    ensures becomes { IfOk result (λ text. IfSome text (λ new. EachLanguageSpelling (language_text language.entry)
        (λ primary extended. SpellsLanguage (extlang_primary primary extended) (extlang_extended primary extended)
        (string_bytes new)))) }
{
    if is_full(language) {
        return Ok(None);
    }
    let Some(prefix) = prefix_of_language(language.primary()) else {
        return Ok(None);
    };
    let mut text = String::from_str(alloc, prefix.as_str())?;
    text.push_str("-")?;
    text.push_str(language.as_str())?;
    Ok(Some(text))
}

/// Returns whether a language has three extended subtags, which leave no room for another.
fn is_full(language: Language<'_>) -> bool
    ensures { EachLanguageSpelling (language_text language.entry) (λ primary extended. result ≡ form.is_full extended) }
{
    language.extension_subtags().count() == 3
}
