//! Unicode locale identifiers (UTS #35, part 1, section 'Unicode Locale Identifier').
ghost use Rattle.std.specs.Prelude.{◌≡◌, ◌&&◌, ◌==◌, List, false, is_none, length, map};
ghost use Rattle.langtag_scan.specs.Grammar.{are_alike, list_all, subtags};
ghost use Rattle.langtag.specs.Definitions.{PartOf, are_alike_bytes, lang_tag_text, normal_lang_tag_text, repeat, SpellsExtension};
ghost use Rattle.langtag.specs.Definitions.{SpellsExtensions, extension_text, extensions_text};
ghost use Rattle.langtag_scan.specs.Record as model;
ghost use Rattle.langtag_keyword.specs.Form.{is_unicode_language};
ghost use Rattle.langtag_likely.specs.Marked.{as_read};
ghost use Rattle.langtag_locale.specs.Locale as spec;

use langtag::{Extension, Extensions, LangTag, NormalLangTag, Subtags};
use langtag_keyword::{Keys, is_of, is_transform, is_unicode_key, is_unicode_language, subtags_of};
use langtag_likely::marked_region;

/// Returns whether a tag is a Unicode locale identifier (UTS #35, part 1, section 'Unicode Locale Identifier'), as
/// JavaScript's `Intl` requires.
///
/// Such a tag has a language of two, three, or five to eight letters, and no extended language. No variant and no
/// singleton is repeated. Each key of `u` ends with a letter. In `t`, the language meets the same rules, and each field
/// has a value. Other extensions and private use may be anything that RFC 5646 allows.
///
/// `x-a`, `i-klingon`, `zh-yue` and `und-t-m0` are tags, but they are not Unicode locale identifiers.
///
/// Repeated variants are found by `NormalLangTag::repeated_variant`, which needs up to 16 KiB of stack, and takes quadratic
/// time beyond 1,152 variants. The time is also quadratic in the number of variants in the language of `t`.
///
/// ```
/// use langtag::LangTag;
/// use langtag_locale::is_locale;
///
/// is_locale(LangTag::new("de-1996-u-co-phonebk-x-a")?); // true
/// is_locale(LangTag::new("zh-yue")?); // false
/// is_locale(LangTag::new("de-u-c1-abc")?); // false
/// ```
pub fn is_locale(tag: LangTag<'_>) -> bool
    // law: true if and only if the tag is one of the Unicode locale identifiers (`is_locale_record`)
    ensures locale { PartOf (lang_tag_text tag.entry) spec.is_locale_record false result }
{
    match tag.as_normal() {
        Some(normal) => is_locale_record(normal),
        None => false,
    }
}

/// Returns whether a normal tag is a Unicode locale identifier.
pub(crate) fn is_locale_record(tag: NormalLangTag<'_>) -> bool
    ensures { model.EachRecord (normal_lang_tag_text tag.entry) (λ r. result ≡ spec.is_locale_record r) }
{
    has_unicode_language(tag) && has_locale_parts(tag)
}

/// Returns whether a normal tag is a Unicode locale identifier, as it is read: `es-rUS` is read as `es-US`.
#[tactic(auto, using(crate::proofs::ReadRecords::parts_read))]
pub(crate) fn is_read_record(tag: NormalLangTag<'_>) -> bool
    ensures { model.EachRecord (normal_lang_tag_text tag.entry) (λ r. result ≡ spec.is_locale_record (as_read r)) }
{
    has_read_language(tag) && has_locale_parts(tag)
}

/// Returns whether the language of a tag is allowed, and has no extended subtags.
fn has_unicode_language(tag: NormalLangTag<'_>) -> bool
    ensures { model.EachRecord (normal_lang_tag_text tag.entry)
        (λ r. result ≡ (is_unicode_language r.primary && length r.extended == 0)) }
{
    let language = tag.language();
    is_unicode_language(language.primary().as_str()) && language.extension().is_none()
}

/// Returns whether the language of a tag is allowed, and has no extended subtags but a region with Android's mark.
#[tactic(auto, using(crate::proofs::ReadRecords::language_read))]
fn has_read_language(tag: NormalLangTag<'_>) -> bool
    ensures { model.EachRecord (normal_lang_tag_text tag.entry)
        (λ r. result ≡ (is_unicode_language (as_read r).primary && length (as_read r).extended == 0)) }
{
    has_unicode_language(tag)
        || (!marked_region(tag).is_empty()
            && is_unicode_language(tag.language().primary().as_str()))
}

/// Returns whether no variant and no singleton is repeated, and each extension is allowed.
fn has_locale_parts(tag: NormalLangTag<'_>) -> bool
    ensures { model.EachRecord (normal_lang_tag_text tag.entry) (λ r. result ≡ (is_none (repeat are_alike r.variants)
        && is_none (repeat are_alike_bytes (map (λ e. e.singleton) r.extensions)) && list_all spec.is_locale_extension r.extensions)) }
{
    tag.repeated_variant().is_none()
        && tag.repeated_singleton().is_none()
        && are_locale_extensions(tag.extensions())
}

/// Returns whether each extension is allowed.
fn are_locale_extensions(extensions: Extensions<'_>) -> bool
    ensures { (es : List model.Extension) → SpellsExtensions es (extensions_text extensions.entry)
        → result ≡ list_all spec.is_locale_extension es }
{
    for extension in extensions.iter() {
        if !is_locale_extension(extension) {
            return false;
        }
    }
    true
}

/// Returns whether an extension is allowed.
fn is_locale_extension(extension: Extension<'_>) -> bool
    ensures { (e : model.Extension) → SpellsExtension e (extension_text extension.entry) → result ≡ spec.is_locale_extension e }
{
    if is_of(b'u', extension) {
        return are_unicode_subtags(subtags_of(extension));
    }
    if is_of(b't', extension) {
        return is_transform(subtags_of(extension));
    }
    true
}

/// Returns whether each subtag may be in `u`.
fn are_unicode_subtags(text: &str) -> bool
    ensures { result ≡ list_all spec.is_unicode_subtag (subtags text.now) }
{
    Subtags::new(text).all(|subtag| is_unicode_subtag(subtag.as_bytes()))
}

/// Returns whether a subtag may be in `u`: a key has to end with a letter.
fn is_unicode_subtag(subtag: &[u8]) -> bool
    ensures { result ≡ spec.is_unicode_subtag subtag.now }
{
    !Keys::Unicode.has(subtag) || is_unicode_key(subtag)
}
