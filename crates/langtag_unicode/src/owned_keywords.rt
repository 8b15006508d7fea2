//! Setting and removing keywords of a tag that owns its text (RFC 6067 section 2.1).
ghost use Rattle.std.specs.Prelude.{◌≡◌, ◌↔◌, [], None, Some, IfOk, IsErrOf, OnErr, OnOk, alloc_error, IsOkUnless};
ghost use Rattle.langtag_scan.specs.Grammar.{subtags, IsNormal};
ghost use Rattle.langtag.specs.Definitions.{lang_tag_buf_text, normal_lang_tag_text, IsForm};
ghost use Rattle.langtag_scan.specs.Record as model;
ghost use Rattle.langtag_keyword.specs.Edit as spec;
ghost use Rattle.langtag_keyword.specs.EditText.{edited_record_by, is_allowed};

use crate::keyword_setters::{keyword_error, put_parts};
use crate::set_keyword_error::SetKeywordError;
use langtag::{LangTagBuf, NormalLangTag, tag_of};
use langtag_keyword::{KeywordEdit, KeywordError};
use std::alloc::{AllocError, Global};

/// Sets the value of a key of the extension `u` (RFC 6067 section 2.1): with `buddhist` for `ca`, `de-x-a` becomes
/// `de-u-ca-buddhist-x-a`. With an empty value, the key has no value, which means `true`.
///
/// The new string is the one that [`write_with_keyword`](crate::write_with_keyword) writes. It is allocated once,
/// exactly its length.
///
/// # Errors
///
/// Returns `SetKeywordError::Keyword` if the key or the value cannot be in a keyword, or if the tag is not a normal tag,
/// and `SetKeywordError::Memory` if allocation fails. The tag is then unchanged.
///
/// ```
/// use langtag::LangTag;
/// use langtag_unicode::set_keyword;
///
/// let mut tag = LangTag::new("de-x-a")?.try_to_owned(alloc)?;
/// set_keyword(&mut tag, alloc, "ca", "buddhist")?;
/// tag.as_str(); // "de-u-ca-buddhist-x-a"
/// ```
pub fn set_keyword(
    tag: &mut LangTagBuf,
    alloc: Global,
    key: &str,
    value: &str,
) -> Result<(), SetKeywordError>
    ensures set { OnOk result (IsForm (spec.edited_record key.now (Some (subtags value.now))) (lang_tag_buf_text tag.old)
        (lang_tag_buf_text tag.new)) }
    ensures refused { (error : KeywordError) → spec.keyword_error key.now (subtags value.now) ≡ Some error
        → IsErrOf result (SetKeywordError.Keyword error) }
    ensures not_normal { spec.keyword_error key.now (subtags value.now) ≡ None
        → IsErrOf result (SetKeywordError.Keyword KeywordError.NotNormal) ↔ (IsNormal (lang_tag_buf_text tag.old) → ⊥) }
    // law: an allowed keyword of a normal tag is refused only if allocation fails
    ensures memory { spec.keyword_error key.now (subtags value.now) ≡ None → IsNormal (lang_tag_buf_text tag.old)
        → IsOkUnless result (SetKeywordError.Memory alloc_error) }
    // law: after an error the tag is as it was
    ensures unchanged { OnErr result (tag.new ≡ tag.old) }

    ensures cloned { (error copy : SetKeywordError) → ⟦<SetKeywordError as Clone>⟧.is_clone error copy → copy ≡ error }
    ensures clone_succeeds { (error : SetKeywordError) → ⟦<SetKeywordError as Clone>⟧.is_infallible error }
{
    if let Some(error) = keyword_error(key, value) {
        return Err(SetKeywordError::Keyword(error));
    }
    let value = Some(value);
    apply(tag, alloc, KeywordEdit { key, value })
}

/// Removes a key of the extension `u` (RFC 6067 section 2.1): without `ca`, `th-u-ca-gregory-nu-thai` becomes
/// `th-u-nu-thai`. Each keyword of the key is removed from the first `u`, and so is this `u` if nothing else is in it.
///
/// It allocates the new string, as [`set_keyword`] does, even if the tag does not have the key.
///
/// # Errors
///
/// Returns `SetKeywordError::Keyword` if the key cannot be in a keyword, or if the tag is not a normal tag, and
/// `SetKeywordError::Memory` if allocation fails. The tag is then unchanged.
///
/// ```
/// use langtag::LangTag;
/// use langtag_unicode::remove_keyword;
///
/// let mut tag = LangTag::new("th-u-ca-gregory-nu-thai")?.try_to_owned(alloc)?;
/// remove_keyword(&mut tag, alloc, "ca")?;
/// tag.as_str(); // "th-u-nu-thai"
/// ```
pub fn remove_keyword(tag: &mut LangTagBuf, alloc: Global, key: &str) -> Result<(), SetKeywordError>
    ensures removed { OnOk result (IsForm (spec.edited_record key.now None) (lang_tag_buf_text tag.old)
        (lang_tag_buf_text tag.new)) }
    ensures refused { (error : KeywordError) → spec.keyword_error key.now [] ≡ Some error
        → IsErrOf result (SetKeywordError.Keyword error) }
    ensures not_normal { spec.keyword_error key.now [] ≡ None
        → IsErrOf result (SetKeywordError.Keyword KeywordError.NotNormal) ↔ (IsNormal (lang_tag_buf_text tag.old) → ⊥) }
    // law: an allowed keyword of a normal tag is refused only if allocation fails
    ensures memory { spec.keyword_error key.now [] ≡ None → IsNormal (lang_tag_buf_text tag.old)
        → IsOkUnless result (SetKeywordError.Memory alloc_error) }
    // law: after an error the tag is as it was
    ensures unchanged { OnErr result (tag.new ≡ tag.old) }
{
    if let Some(error) = keyword_error(key, "") {
        return Err(SetKeywordError::Keyword(error));
    }
    apply(tag, alloc, KeywordEdit { key, value: None })
}

/// Applies an edit to a tag. The new string is complete before the old string is dropped.
fn apply(tag: &mut LangTagBuf, alloc: Global, edit: KeywordEdit<'_>) -> Result<(), SetKeywordError>
    requires { is_allowed edit }
    ensures edited { OnOk result (IsForm (edited_record_by edit.entry) (lang_tag_buf_text tag.old) (lang_tag_buf_text tag.new)) }
    ensures not_normal { IsErrOf result (SetKeywordError.Keyword KeywordError.NotNormal)
        ↔ (IsNormal (lang_tag_buf_text tag.old) → ⊥) }
    ensures memory { IsNormal (lang_tag_buf_text tag.old) → IsOkUnless result (SetKeywordError.Memory alloc_error) }
    ensures unchanged { OnErr result (tag.new ≡ tag.old) }
{
    let Some(normal) = tag.as_lang_tag().as_normal() else {
        return Err(SetKeywordError::Keyword(KeywordError::NotNormal));
    };
    *tag = edited(alloc, normal, edit)?;
    Ok(())
}

/// Returns a normal tag with a keyword set or removed.
fn edited(
    alloc: Global,
    tag: NormalLangTag<'_>,
    edit: KeywordEdit<'_>,
) -> Result<LangTagBuf, AllocError>
    requires { is_allowed edit }
    ensures { IfOk result (λ new. model.EachRecord (normal_lang_tag_text tag.entry)
        (λ r. lang_tag_buf_text new ≡ model.spell (edited_record_by edit.entry r))) }
{
    Ok(tag_of(edited_bytes(alloc, tag, edit)?))
}

/// Returns the bytes of a normal tag with a keyword set or removed. It allocates once, exactly the length of the
/// string.
fn edited_bytes(
    alloc: Global,
    tag: NormalLangTag<'_>,
    edit: KeywordEdit<'_>,
) -> Result<Vec<u8>, AllocError>
    ensures { IfOk result (λ bytes. model.EachRecord (normal_lang_tag_text tag.entry)
        (λ r. bytes.items ≡ model.spell (edited_record_by edit.entry r))) }
{
    let mut bytes = vec![in alloc; 0; put_parts(tag, edit, &mut [])]?;
    put_parts(tag, edit, &mut bytes);
    Ok(bytes)
}
