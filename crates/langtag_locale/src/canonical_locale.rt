//! The canonical form of a Unicode locale identifier (UTS #35, part 1, Annex C). The annex repeats its rules until none
//! applies. Here they are seven steps, and the generator in data/unicode tests what the steps assume. If several
//! regions replace a region, the likely region is taken if it is among them. `maximized` takes the first, as Add Likely
//! Subtags says; over CLDR's languages the two differ only for Azerbaijani.
ghost use Rattle.std.specs.Prelude.{◌≡◌, ◌≤◌, ◌<◌, ◌+◌, IfOk, IfSome, IsTrue, None, Some, option_map};
ghost use Rattle.langtag.specs.Definitions.{lang_tag_buf_text, lang_tag_text, normal_lang_tag_text, EachLanguageSpelling};
ghost use Rattle.langtag.specs.Definitions.{language_text, IsCounted, WritesWhole};
ghost use Rattle.langtag_text.specs.FieldClasses.{is_language_field};
ghost use Rattle.langtag_cldr.specs.Definitions.{field_texts};
ghost use Rattle.langtag_scan.specs.Record as model;
ghost use Rattle.langtag_likely.specs.Marked.{as_read};
ghost use Rattle.langtag_locale.specs.Locale as identifier;
ghost use Rattle.langtag_locale.specs.LocaleForm as spec;

use crate::locale_extensions::{push_identifier, push_locale_extensions};
use crate::locale_for::locale_for;
use langtag::{
    LangTag, LangTagBuf, Language, NormalLangTag, push_private_use, region_field, script_field,
    tag_of,
};
use langtag_cldr::{TagFields, or_other};
use langtag_keyword::nonempty;
use langtag_likely::marked_region;
use langtag_text::{Output, make_recommended_case};
use std::alloc::{AllocError, Global};

/// How many bytes longer than its tag a form is expected to be at most. A longer form is right, too, but takes longer.
const SPARE: usize = 32;

/// Returns the canonical form of a tag as a Unicode locale identifier (UTS #35, part 1, Annex C): `ger-UK` becomes
/// `de-GB`, `sh` becomes `sr-Latn`, and `hy-SU` becomes `hy-AM`.
///
/// [`write_locale_form`] says what changes, and which tags have no form.
///
/// The time is quadratic in the number of variants and of attributes beyond 512. It needs as much stack as `is_locale`.
///
/// # Errors
///
/// Returns an error if allocation fails.
///
/// ```
/// use langtag::LangTag;
/// use langtag_locale::locale_form;
///
/// let form = locale_form(alloc, LangTag::new("ger-UK-u-ca-islamicc")?)?;
/// form.as_ref().map(|form| form.as_str()); // Some("de-GB-u-ca-islamic-civil")
/// locale_form(alloc, LangTag::new("x-a")?)?.is_none(); // true
/// ```
pub fn locale_form(alloc: Global, tag: LangTag<'_>) -> Result<Option<LangTagBuf>, AllocError>
    // law: the form of a Unicode locale identifier. Any other tag has that of its Preferred-Value, or of the tag from its
    // extended language on, or `None`
    ensures form { IfOk result (λ form. spec.IsWholeForm (lang_tag_text tag.entry) (option_map lang_tag_buf_text form)) }
    // law: the form is a Unicode locale identifier, and its own form
    ensures settled { IfOk result (λ form. IfSome form (λ form. spec.IsOwnForm (lang_tag_buf_text form))) }
    // law: alike tags have the same form
    ensures any_case { IfOk result (λ form. spec.IsFormInAnyCase (lang_tag_text tag.entry) (option_map lang_tag_buf_text form)) }
{
    let Some(locale) = locale_for(tag) else {
        return Ok(None);
    };
    Ok(Some(tag_of(form_bytes(alloc, locale)?)))
}

/// Returns the bytes of the form of a Unicode locale identifier. The buffer has a guessed length. If it is too short,
/// the bytes are written again.
fn form_bytes(alloc: Global, tag: NormalLangTag<'_>) -> Result<Vec<u8>, AllocError>
    requires { identifier.IsReadLocale (normal_lang_tag_text tag) }
    ensures { IfOk result (λ bytes. model.EachRecord (normal_lang_tag_text tag.entry) (λ r. bytes.items ≡ spec.locale_text (as_read r))) }
{
    let mut bytes = vec![in alloc; 0; tag.as_str().len().saturating_add(SPARE)]?;
    let len = write_locale_parts(tag, &mut bytes);
    if len > bytes.len() {
        return counted_form_bytes(alloc, tag);
    }
    bytes.truncate(len);
    Ok(bytes)
}

/// Returns the bytes of the form, which are counted before they are written.
fn counted_form_bytes(alloc: Global, tag: NormalLangTag<'_>) -> Result<Vec<u8>, AllocError>
    requires { identifier.IsReadLocale (normal_lang_tag_text tag) }
    ensures { IfOk result (λ bytes. model.EachRecord (normal_lang_tag_text tag.entry) (λ r. bytes.items ≡ spec.locale_text (as_read r))) }
{
    let mut bytes = vec![in alloc; 0; put_parts(tag, &mut [])]?;
    put_parts(tag, &mut bytes);
    make_recommended_case(&mut bytes);
    Ok(bytes)
}

/// Writes the canonical form of a tag as a Unicode locale identifier (UTS #35, part 1, Annex C) to a buffer, and returns
/// its length in bytes: `ger-UK` becomes `de-GB`, `sh` becomes `sr-Latn`, and `hy-SU` becomes `hy-AM`.
///
/// The language, the script, the region and the variants are replaced by CLDR's aliases, in the tag and in the language
/// of `t`. Variants are put in alphabetical order, and extensions in the order of their singletons. `u` and the fields of
/// `t` get the form of `extensions_form`. The script is in titlecase, the region in uppercase, and everything else in
/// lowercase. Other extensions and private use stay, except for their case: `en-x-true` is its own form.
///
/// `r` before a region, as Android writes it, is left out: `es-rUS` becomes `es-US`. But an extended language that is
/// registered for the language before it is one, as in `sgn-rsl`.
///
/// Norwegian Sign Language, `sgn-NO`, becomes `nsl`, as in IANA's registry. CLDR has `nsi` there, which is Nigerian.
///
/// If the tag is not a Unicode locale identifier, as [`is_locale`](crate::is_locale) finds, it is replaced first. A tag
/// with a Preferred-Value in IANA's registry becomes that value: `i-klingon` becomes `tlh`. In any other tag, a
/// registered extended language replaces the language before it: `zh-yue-HK` becomes `yue-HK`. Returns `None` if the
/// result is not a Unicode locale identifier, either, as in `x-a`, `i-default` and `und-t-m0`.
///
/// If the buffer is too short, its bytes are not specified, and the length says how long a buffer must be. It does not
/// allocate. The time is quadratic in the number of variants and of attributes beyond 512. It needs as much stack as
/// `is_locale`.
///
/// ```
/// use langtag::LangTag;
/// use langtag_locale::write_locale_form;
///
/// let mut buffer = [0; 16];
/// write_locale_form(LangTag::new("ger-UK")?, &mut buffer); // Some(5)
/// buffer.get(..5); // Some(&b"de-GB"[..])
/// write_locale_form(LangTag::new("zh-yue")?, &mut buffer); // Some(3)
/// write_locale_form(LangTag::new("x-a")?, &mut buffer); // None
/// ```
pub fn write_locale_form(tag: LangTag<'_>, buffer: &mut [u8]) -> Option<usize>
    ensures form { IfSome result (λ len. WritesWhole (λ form. spec.IsWholeForm (lang_tag_text tag.entry) (Some form)) buffer.old
        buffer.new len) }
    // law: `None` if and only if there is none
    ensures none { result ≡ None → spec.IsWholeForm (lang_tag_text tag.entry) None }
    ensures unchanged { result ≡ None → buffer.new ≡ buffer.old }
{
    let locale = locale_for(tag)?;
    Some(write_locale_parts(locale, buffer))
}

/// Writes the form of a Unicode locale identifier.
fn write_locale_parts(tag: NormalLangTag<'_>, buffer: &mut [u8]) -> usize
    requires { identifier.IsReadLocale (normal_lang_tag_text tag) }
    ensures { model.EachRecord (normal_lang_tag_text tag.entry)
        (λ r. WritesWhole (λ form. form ≡ spec.locale_text (as_read r)) buffer.old buffer.new result) }
{
    let len = put_parts(tag, buffer);
    if len > buffer.len() {
        return len;
    }
    make_recommended_case(&mut buffer[..len]);
    len
}

/// Writes as much of the form, before its case is changed, as fits into a buffer, and returns its full length.
fn put_parts(tag: NormalLangTag<'_>, buffer: &mut [u8]) -> usize
    requires { identifier.IsReadLocale (normal_lang_tag_text tag) }
    ensures { model.EachRecord (normal_lang_tag_text tag.entry)
        (λ r. IsCounted (model.spell (spec.locale_record (as_read r))) buffer.old buffer.new result) }
{
    let mut out = Output::new(buffer);
    push_identifier(&mut out, fields_of(tag), nonempty(tag.variants().as_str()));
    push_locale_extensions(&mut out, tag.extensions());
    push_private_use(&mut out, tag.private_use());
    out.len()
}

/// Returns the primary language, the script and the region of a tag. After a language, `r` and a region are read as Android
/// writes them.
#[tactic(auto, using(crate::proofs::ReadRecords::read_fields, langtag_likely::proofs::MarkLaws::either_region))]
pub(crate) fn fields_of<'a>(tag: NormalLangTag<'a>) -> TagFields<'a>
    ensures { model.EachRecord (normal_lang_tag_text tag.entry) (λ r. field_texts result ≡ spec.record_fields (as_read r)) }
{
    TagFields {
        language: primary_field(tag.language()),
        script: script_field(tag.script()),
        region: or_other(region_field(tag.region()), marked_region(tag)),
    }
}

#[tactic(auto, using(langtag_text::proofs::FieldClasses::from_primary))]
fn primary_field<'a>(language: Language<'a>) -> &'a [u8]
    ensures field { EachLanguageSpelling (language_text language.entry) (λ primary extended. result.now ≡ primary) }
    ensures in_class { IsTrue (is_language_field result.now) }
{
    language.primary().as_bytes()
}
