//! Setting and removing keywords (RFC 6067 section 2.1).
ghost use Rattle.std.specs.Prelude.{◌≡◌, ◌↔◌, ◌<◌, ◌≤◌, ◌+◌, ◌^◌, ℕ, List, [], None};
ghost use Rattle.std.specs.Prelude.{Some, IfOk, IsErrOf, IsTrue, OnErr, is_ok, length};
ghost use Rattle.langtag_scan.specs.Grammar.{subtags, IsNormal};
ghost use Rattle.langtag.specs.Definitions.{lang_tag_text, normal_lang_tag_text, IsForm, IsCounted, Writes};
ghost use Rattle.langtag_scan.specs.Record as model;
ghost use Rattle.langtag_keyword.specs.Edit as spec;
ghost use Rattle.langtag_keyword.specs.EditText.{edited_record_by};

use crate::form::push_head;
use langtag::{LangTag, NormalLangTag, push_private_use};
use langtag_keyword::{KeywordEdit, KeywordError, invalid_type, is_unicode_key, push_edited};
use langtag_text::Output;

/// Writes a tag with a value of a key of the extension `u` (RFC 6067 section 2.1) to a buffer, and returns its length
/// in bytes. With `buddhist` for `ca`, `th-u-ca-gregory-nu-thai` becomes `th-u-ca-buddhist-nu-thai`, and `de` becomes
/// `de-u-ca-buddhist`. With an empty value, the key has no value, which means `true`.
///
/// A key that the tag already has keeps its position and its case, and its repetitions are removed. A new key is put
/// before the first greater key, and a new extension `u` before the first greater singleton. All other bytes stay.
///
/// If the buffer is too short, it stays unchanged, and the length says how long a buffer must be. The lengths of the
/// tag, the key and the value, and 4 more bytes, are always enough. It does not allocate.
///
/// # Errors
///
/// Returns an error if the key or the value cannot be in a keyword, or if the tag is not a normal tag. The buffer is
/// then unchanged.
///
/// ```
/// use langtag::LangTag;
/// use langtag_unicode::write_with_keyword;
///
/// let mut buffer = [0; 32];
/// let length = write_with_keyword(LangTag::new("de-x-a")?, "ca", "buddhist", &mut buffer)?;
/// buffer.get(..length); // Some(&b"de-u-ca-buddhist-x-a"[..])
/// ```
pub fn write_with_keyword(
    tag: LangTag<'_>,
    key: &str,
    value: &str,
    buffer: &mut [u8],
) -> Result<usize, KeywordError>
    ensures set { length (lang_tag_text tag.entry) + length key.now + length value.now + 4 < 2 ^ 64 →
        IfOk result (λ len. Writes (IsForm (spec.edited_record key.now (Some (subtags value.now))) (lang_tag_text tag.entry))
        buffer.old buffer.new len) }
    ensures bounded { length (lang_tag_text tag.entry) + length key.now + length value.now + 4 < 2 ^ 64
        → IfOk result (λ len. len ≤ length (lang_tag_text tag.entry) + length key.now + length value.now + 4) }
    ensures unchanged { OnErr result (buffer.new ≡ buffer.old) }
    ensures refused { (error : KeywordError) → spec.keyword_error key.now (subtags value.now) ≡ Some error
        → IsErrOf result error }
    ensures not_normal { spec.keyword_error key.now (subtags value.now) ≡ None → IsErrOf result KeywordError.NotNormal
        ↔ (IsNormal (lang_tag_text tag.entry) → ⊥) }
    ensures accepts { spec.keyword_error key.now (subtags value.now) ≡ None → IsTrue (is_ok result)
        ↔ IsNormal (lang_tag_text tag.entry) }

    ensures cloned { (error copy : KeywordError) → ⟦<KeywordError as Clone>⟧.is_clone error copy → copy ≡ error }
    ensures clone_succeeds { (error : KeywordError) → ⟦<KeywordError as Clone>⟧.is_infallible error }
{
    if let Some(error) = keyword_error(key, value) {
        return Err(error);
    }
    let value = Some(value);
    write_edited(tag, KeywordEdit { key, value }, buffer)
}

/// Writes a tag without a key of the extension `u` (RFC 6067 section 2.1) to a buffer, and returns its length in bytes:
/// without `ca`, `th-u-ca-gregory-nu-thai` becomes `th-u-nu-thai`. Each keyword of the key is removed from the first `u`,
/// and so is this `u` if nothing else is in it. All other bytes stay.
///
/// If the buffer is too short, it stays unchanged, and the length says how long a buffer must be. The length of the
/// tag is always enough. It does not allocate.
///
/// # Errors
///
/// Returns an error if the key cannot be in a keyword, or if the tag is not a normal tag. The buffer is then
/// unchanged.
///
/// ```
/// use langtag::LangTag;
/// use langtag_unicode::write_without_keyword;
///
/// let mut buffer = [0; 32];
/// let length = write_without_keyword(LangTag::new("de-u-ca-buddhist-x-a")?, "ca", &mut buffer)?;
/// buffer.get(..length); // Some(&b"de-x-a"[..])
/// ```
pub fn write_without_keyword(
    tag: LangTag<'_>,
    key: &str,
    buffer: &mut [u8],
) -> Result<usize, KeywordError>
    ensures removed { IfOk result (λ len. Writes (IsForm (spec.edited_record key.now None) (lang_tag_text tag.entry)) buffer.old
        buffer.new len) }
    ensures bounded { IfOk result (λ len. len ≤ length (lang_tag_text tag.entry)) }
    ensures unchanged { OnErr result (buffer.new ≡ buffer.old) }
    ensures refused { (error : KeywordError) → spec.keyword_error key.now [] ≡ Some error → IsErrOf result error }
    ensures not_normal { spec.keyword_error key.now [] ≡ None → IsErrOf result KeywordError.NotNormal
        ↔ (IsNormal (lang_tag_text tag.entry) → ⊥) }
    ensures accepts { spec.keyword_error key.now [] ≡ None → IsTrue (is_ok result) ↔ IsNormal (lang_tag_text tag.entry) }
{
    if let Some(error) = keyword_error(key, "") {
        return Err(error);
    }
    write_edited(tag, KeywordEdit { key, value: None }, buffer)
}

/// Returns why a key and a value cannot be a keyword, or `None` if they can.
pub(crate) fn keyword_error(key: &str, value: &str) -> Option<KeywordError>
    ensures { result ≡ spec.keyword_error key.now (subtags value.now) }
{
    if !is_unicode_key(key.as_bytes()) {
        return Some(KeywordError::Key);
    }
    Some(KeywordError::Value(invalid_type(value)?))
}

/// Writes a tag with a keyword set or removed.
fn write_edited(
    tag: LangTag<'_>,
    edit: KeywordEdit<'_>,
    buffer: &mut [u8],
) -> Result<usize, KeywordError>
    ensures written { ((new : List ℕ) → IsForm (edited_record_by edit.entry) (lang_tag_text tag.entry) new → length new < 2 ^ 64) →
        IfOk result (λ len. Writes (IsForm (edited_record_by edit.entry) (lang_tag_text tag.entry)) buffer.old buffer.new len) }
    ensures unchanged { OnErr result (buffer.new ≡ buffer.old) }
    ensures not_normal { IsErrOf result KeywordError.NotNormal ↔ (IsNormal (lang_tag_text tag.entry) → ⊥) }
    ensures accepts { IsTrue (is_ok result) ↔ IsNormal (lang_tag_text tag.entry) }
{
    match tag.as_normal() {
        Some(normal) => Ok(write_edited_parts(normal, edit, buffer)),
        None => Err(KeywordError::NotNormal),
    }
}

/// Writes a normal tag with a keyword set or removed.
fn write_edited_parts(tag: NormalLangTag<'_>, edit: KeywordEdit<'_>, buffer: &mut [u8]) -> usize
    ensures { model.EachRecord (normal_lang_tag_text tag.entry) (λ r. length (model.spell (edited_record_by edit.entry r)) < 2 ^ 64
        → Writes (λ new. new ≡ model.spell (edited_record_by edit.entry r)) buffer.old buffer.new result) }
{
    let len = put_parts(tag, edit, &mut []);
    if len <= buffer.len() {
        put_parts(tag, edit, buffer);
    }
    len
}

/// Writes as much of a normal tag with a keyword set or removed as fits into a buffer, and returns the full length of
/// that tag.
pub(crate) fn put_parts(tag: NormalLangTag<'_>, edit: KeywordEdit<'_>, buffer: &mut [u8]) -> usize
    ensures { model.EachRecord (normal_lang_tag_text tag.entry)
        (λ r. IsCounted (model.spell (edited_record_by edit.entry r)) buffer.old buffer.new result) }
{
    let mut out = Output::new(buffer);
    push_head(&mut out, tag);
    push_edited(&mut out, tag.extensions(), edit);
    push_private_use(&mut out, tag.private_use());
    out.len()
}
