//! The locale to format with: a tag that was chosen for a range, with the region and the keywords of the range. ICU's
//! `makeResolvedLocale` also copies the script, so that text in Simplified Chinese would be formatted as Traditional Chinese.
ghost use Rattle.std.specs.Prelude.{◌≡◌, ◌⊎◌, IfOk, IfSome, None};
ghost use Rattle.langtag.specs.Definitions.{lang_tag_buf_text, lang_tag_text, normal_lang_tag_text};
ghost use Rattle.langtag.specs.Definitions.{IsCounted, IsGrandfathered, WritesWhole};
ghost use Rattle.langtag_scan.specs.Grammar.{AllByRecursion, IsNormal, IsSubtag};
ghost use Rattle.langtag_scan.specs.Record as model;
ghost use Rattle.langtag_locale.specs.WishTexts.{wish_texts};
ghost use Rattle.langtag_locale.specs.Resolved as spec;

use crate::locale_extensions::push_field;
use crate::range_locale::{MOST_NAMED, range_locale};
use crate::resolved_extensions::push_resolved_extensions;
use crate::resolved_fields::{new_region, push_region, script_with};
use crate::wish::Wish;
use langtag::{LangTag, LangTagBuf, NormalLangTag, push_private_use, region_field, tag_of};
use langtag_text::{Output, write_text};
use std::alloc::{AllocError, Global};

/// Returns the locale to format dates and numbers with, next to text in a tag that was chosen for a range: `en-GB-u-hc-h12`
/// for the range `en-GB-u-hc-h12` and the tag `en`.
///
/// [`write_resolved_locale`] says what comes from the range.
///
/// # Errors
///
/// Returns an error if allocation fails.
///
/// ```
/// use langtag::LangTag;
/// use langtag_locale::resolved_locale;
///
/// let locale = resolved_locale(alloc, b"en-GB-u-hc-h12", LangTag::new("en")?)?;
/// locale.as_str(); // "en-GB-u-hc-h12"
/// resolved_locale(alloc, b"zh-HK", LangTag::new("zh-CN")?)?.as_str(); // "zh-Hans-HK"
/// ```
pub fn resolved_locale(
    alloc: Global,
    range: &[u8],
    tag: LangTag<'_>,
) -> Result<LangTagBuf, AllocError>
    ensures resolved { IfOk result (λ locale. spec.IsResolved range.now (lang_tag_text tag.entry) (lang_tag_buf_text locale)) }
{
    let Some(normal) = resolvable(tag) else {
        return tag.try_to_owned(alloc);
    };
    let mut room = [0; MOST_NAMED];
    let Some(locale) = range_locale(range, &mut room) else {
        return tag.try_to_owned(alloc);
    };
    let wish = Wish::of(locale).for_tag(normal);
    Ok(tag_of(resolved_bytes(alloc, wish, normal)?))
}

/// Returns the bytes of a normal tag with what a range asks of it. They are counted before they are written.
fn resolved_bytes(
    alloc: Global,
    wish: Wish<'_>,
    tag: NormalLangTag<'_>,
) -> Result<Vec<u8>, AllocError>
    requires { AllByRecursion IsSubtag (wish_texts wish).unicode }
    ensures { IfOk result (λ bytes. model.EachRecord (normal_lang_tag_text tag.entry)
        (λ r. bytes.items ≡ model.spell (spec.resolved_record (wish_texts wish.entry) r))) }
{
    let mut bytes = vec![in alloc; 0; put_resolved(wish, tag, &mut [])]?;
    put_resolved(wish, tag, &mut bytes);
    Ok(bytes)
}

/// Writes the locale to format dates and numbers with, next to text in a tag that was chosen for a range, and returns its
/// length in bytes: `de-AT` for the range `de-AT` and the tag `de-DE`.
///
/// The region comes from the range, and so do all keywords of `u`, in the form of [`write_locale_form`]. The language, the
/// script, the variants, the attributes, the other extensions and private use are those of the tag, and stay byte for byte.
///
/// - If the script of the tag would not be likely with the new region, it is written: `zh-Hans-HK` for `zh-HK` and `zh-CN`.
/// - If the range has no region, or `ZZ`, or if the language of the tag is `und`, the region of the tag stays.
/// - Other keywords of the tag stay. If the range has a region or the keyword `rg`, the keywords `rg` and `sd` of the tag are
///   removed. Each keyword of the range stands before the first greater key.
/// - A range with `_`, such as `de_AT`, is read as the name of a POSIX locale, and `es-rUS` as Android writes it.
///
/// The tag stays unchanged if it is for private use or grandfathered, or if the range has no form as a Unicode locale identifier,
/// such as `*`.
///
/// If the buffer is too short, its bytes are not specified, and the length says how long a buffer must be. It does not allocate.
/// The time grows with the product of the lengths of the extensions `u`.
///
/// [`write_locale_form`]: crate::write_locale_form
///
/// ```
/// use langtag::LangTag;
/// use langtag_locale::write_resolved_locale;
///
/// let mut buffer = [0; 16];
/// write_resolved_locale(b"de_AT", LangTag::new("de-DE")?, &mut buffer); // 5
/// buffer.get(..5); // Some(&b"de-AT"[..])
/// write_resolved_locale(b"*", LangTag::new("de")?, &mut buffer); // 2
/// ```
pub fn write_resolved_locale(range: &[u8], tag: LangTag<'_>, buffer: &mut [u8]) -> usize
    ensures resolved { WritesWhole (spec.IsResolved range.now (lang_tag_text tag.entry)) buffer.old buffer.new result }
{
    let Some(normal) = resolvable(tag) else {
        return write_kept(tag, buffer);
    };
    let mut room = [0; MOST_NAMED];
    match range_locale(range, &mut room) {
        Some(locale) => put_resolved(Wish::of(locale).for_tag(normal), normal, buffer),
        None => write_kept(tag, buffer),
    }
}

/// Writes a tag as it is.
fn write_kept(tag: LangTag<'_>, buffer: &mut [u8]) -> usize
    ensures { WritesWhole (λ new. new ≡ lang_tag_text tag.entry) buffer.old buffer.new result }
{
    write_text(tag.as_bytes(), buffer)
}

/// Returns a tag as a normal tag, unless it is grandfathered.
fn resolvable<'a>(tag: LangTag<'a>) -> Option<NormalLangTag<'a>>
    ensures some { IfSome result (λ normal. (normal_lang_tag_text normal ≡ lang_tag_text tag.entry) × IsNormal (lang_tag_text tag.entry)
        × (IsGrandfathered (lang_tag_text tag.entry) → ⊥)) }
    ensures none { result ≡ None → (IsNormal (lang_tag_text tag.entry) → ⊥) ⊎ IsGrandfathered (lang_tag_text tag.entry) }
{
    if tag.is_grandfathered() {
        return None;
    }
    tag.as_normal()
}

/// Writes as much of a normal tag with what a range asks of it as fits into a buffer, and returns its full length.
fn put_resolved(wish: Wish<'_>, tag: NormalLangTag<'_>, buffer: &mut [u8]) -> usize
    requires { AllByRecursion IsSubtag (wish_texts wish).unicode }
    ensures { model.EachRecord (normal_lang_tag_text tag.entry)
        (λ r. IsCounted (model.spell (spec.resolved_record (wish_texts wish.entry) r)) buffer.old buffer.new result) }
{
    let mut out = Output::new(buffer);
    let region = new_region(tag, wish.region);
    out.push_subtag(tag.language().as_bytes());
    push_field(&mut out, script_with(tag, region));
    push_region(&mut out, region, region_field(tag.region()));
    push_field(&mut out, tag.variants().as_str().as_bytes());
    push_resolved_extensions(&mut out, wish, tag.extensions());
    push_private_use(&mut out, tag.private_use());
    out.len()
}
