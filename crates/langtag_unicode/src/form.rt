//! The canonical form of a tag's extensions `u` and `t` (UTS #35, part 1, Annex C).
ghost use Rattle.std.specs.Prelude.{◌≡◌, [], IfOk, None};
ghost use Rattle.langtag_scan.specs.Grammar.{to_variants};
ghost use Rattle.langtag.specs.Definitions.{lang_tag_buf_text, lang_tag_text, normal_lang_tag_text};
ghost use Rattle.langtag.specs.Definitions.{IsOnlyForm, IsAlikeForm, IsCounted, Pushes, WritesWhole};
ghost use Rattle.langtag_scan.specs.Record as model;
ghost use Rattle.langtag_keyword.specs.Form as spec;
ghost use Rattle.langtag_unicode.specs.ExtensionsForm.{IsExtensionsForm};

use langtag::{LangTag, LangTagBuf, NormalLangTag, push_private_use, tag_of};
use langtag_keyword::push_extensions;
use langtag_text::{Output, write_text};
use std::alloc::{AllocError, Global};

/// How many bytes longer than its tag a form is expected to be at most. A longer form is right, too, but takes longer.
const SPARE: usize = 32;

/// Returns a tag with its extensions `u` and `t` in canonical form (UTS #35, part 1, Annex C): `en-u-nu-thai-ca-gregory-kn-true`
/// becomes `en-u-ca-gregory-kn-nu-thai`.
///
/// Attributes, keywords and fields are put in alphabetical order, each once and in lowercase. If a key is repeated,
/// its first value counts. Types and subdivisions that CLDR replaces become their replacements. The value `true` is
/// left out of `u`. The variants in the language of `t` are put in alphabetical order.
///
/// All other bytes of the tag stay, and so does a tag without these extensions. Only the first `u` and the first `t`
/// are changed. A `t` that UTS #35 does not allow, such as `t-m0` or `t-zh-yue`, stays as it is. The order of the
/// extensions stays, too; `langtag_registry::canonical` sorts them.
///
/// The time is quadratic in the number of attributes beyond 512, and of variants in the language of `t`. It needs up to
/// 16 KiB of stack.
///
/// # Errors
///
/// Returns an error if allocation fails.
///
/// ```
/// use langtag::LangTag;
/// use langtag_unicode::extensions_form;
///
/// let tag = LangTag::new("en-u-nu-thai-CA-islamicc-kn-true")?;
/// extensions_form(alloc, tag)?.as_str(); // "en-u-ca-islamic-civil-kn-nu-thai"
/// extensions_form(alloc, LangTag::new("en-x-true")?)?.as_str(); // "en-x-true"
/// ```
pub fn extensions_form(alloc: Global, tag: LangTag<'_>) -> Result<LangTagBuf, AllocError>
    ensures form { IfOk result (λ form. IsExtensionsForm (lang_tag_text tag.entry) (lang_tag_buf_text form)) }
    // law: a tag has only one such form
    ensures one { IfOk result (λ form. IsOnlyForm spec.extensions_record (lang_tag_text tag.entry) (lang_tag_buf_text form)) }
    // law: doing it again changes nothing
    ensures settled { IfOk result (λ form. IsExtensionsForm (lang_tag_buf_text form) (lang_tag_buf_text form)) }
    // law: alike tags have alike forms
    ensures alike { IfOk result (λ form. IsAlikeForm IsExtensionsForm (lang_tag_text tag.entry) (lang_tag_buf_text form)) }
{
    Ok(tag_of(form_bytes(alloc, tag)?))
}

/// Returns the bytes of the form. The buffer has a guessed length. If it is too short, the bytes are written again.
fn form_bytes(alloc: Global, tag: LangTag<'_>) -> Result<Vec<u8>, AllocError>
    ensures { IfOk result (λ bytes. IsExtensionsForm (lang_tag_text tag.entry) bytes.items) }
{
    let mut bytes = vec![in alloc; 0; tag.as_bytes().len().saturating_add(SPARE)]?;
    let len = write_extensions_form(tag, &mut bytes);
    if len > bytes.len() {
        return counted_form_bytes(alloc, tag);
    }
    bytes.truncate(len);
    Ok(bytes)
}

/// Returns the bytes of the form, which are counted before they are written.
fn counted_form_bytes(alloc: Global, tag: LangTag<'_>) -> Result<Vec<u8>, AllocError>
    ensures { IfOk result (λ bytes. IsExtensionsForm (lang_tag_text tag.entry) bytes.items) }
{
    let mut bytes = vec![in alloc; 0; write_extensions_form(tag, &mut [])]?;
    write_extensions_form(tag, &mut bytes);
    Ok(bytes)
}

/// Writes a tag with its extensions `u` and `t` in canonical form to a buffer, as `extensions_form` returns it, and
/// returns its length in bytes. If the buffer is too short, its bytes are not specified, and the length says how long a
/// buffer must be. It does not allocate.
///
/// ```
/// use langtag::LangTag;
/// use langtag_unicode::write_extensions_form;
///
/// let mut buffer = [0; 16];
/// let length = write_extensions_form(LangTag::new("de-u-kn-true")?, &mut buffer);
/// buffer.get(..length); // Some(&b"de-u-kn"[..])
/// ```
pub fn write_extensions_form(tag: LangTag<'_>, buffer: &mut [u8]) -> usize
    ensures form { WritesWhole (IsExtensionsForm (lang_tag_text tag.entry)) buffer.old buffer.new result }
{
    match tag.as_normal() {
        Some(normal) => put_parts(normal, buffer),
        None => write_text(tag.as_bytes(), buffer),
    }
}

/// Writes as much of a tag with its extensions in canonical form as fits into a buffer, and returns the length of
/// that tag.
fn put_parts(tag: NormalLangTag<'_>, buffer: &mut [u8]) -> usize
    ensures { model.EachRecord (normal_lang_tag_text tag.entry)
        (λ r. IsCounted (model.spell (spec.extensions_record r)) buffer.old buffer.new result) }
{
    let mut out = Output::new(buffer);
    push_head(&mut out, tag);
    push_extensions(&mut out, tag.extensions());
    push_private_use(&mut out, tag.private_use());
    out.len()
}

/// Appends the part of a tag before its extensions.
pub(crate) fn push_head(out: &mut Output<'_>, tag: NormalLangTag<'_>)
    ensures { model.EachRecord (normal_lang_tag_text tag.entry) (λ r. Pushes (to_variants r) out.old out.new) }
{
    let text = tag.as_str();
    out.push_subtag(&text.as_bytes()[..tag.ends().variants]);
}
