//! The canonical form of a tag (RFC 5646 section 4.5).
ghost use Rattle.std.specs.Prelude.{◌≡◌, ◌↔◌, ℕ, ◌<◌, List, length, unwrap_or, true, IfOk};
ghost use Rattle.langtag_scan.specs.Grammar.{Alike, EachRecord};
ghost use Rattle.langtag.specs.Definitions.{lang_tag_text, lang_tag_buf_text, normal_lang_tag_text, WritesWhole};
ghost use Rattle.langtag_canonical.specs.CanonicalLaws.{IsOnlyCanonicalForm, IsFormInAnyCase, IsValidForm, HasNoExtlang};
ghost use Rattle.langtag_canonical.specs.Canonical.{IsReplacedForm, IsCanonicalForm, canonical_text};
ghost use Rattle.langtag_fields.specs.Fields as field;
ghost use Rattle.langtag_canonical.specs.Form.{IsCanonicalAs};
ghost use Rattle.langtag_canonical.specs.declared.form.Form.TheVariants.{Parts};

use crate::canonical_parts::put_canonical_parts;
use crate::form::{Form, form_of};
use langtag::{LangTag, LangTagBuf, NormalLangTag, tag_of};
use langtag_fields::preferred_for;
use langtag_text::{make_recommended_case, write_text};
use std::alloc::{AllocError, Global};

/// An upper bound on the number of bytes of a whole tag that has a Preferred-Value.
const LONGEST_REPLACED: usize = 16;

/// A guess at how many bytes longer than the tag the canonical form is.
const SPARE: usize = 32;

/// Returns the canonical form of a tag (RFC 5646 section 4.5) in the recommended case (section 2.1.1): `he` for `iw`, `de-AT`
/// for `DE-at`, `yue` for `zh-yue`, `en-MM` for `en-BU`, `jbo` for `art-lojban`, and `en-a-aaa-b-ccc` for `en-b-ccc-a-aaa`.
///
/// Tags that differ only in case have the same form, so the form can be a key. Variants keep their order. The tag
/// need not be valid: subtags that are not registered stay, and so do two extended languages with the language before
/// them. This is the form of RFC 5646; Unicode's CLDR replaces more. Canonicalizing the result again does not change
/// it. For this, step 2 is repeated after step 3 (`sgn-DD` becomes `gsg`), and a language that replaces an extended
/// language may be replaced, too (`ar-ajp` becomes `apc`).
///
/// The form of a valid tag is valid, unless two variants become the same, as in `ja-heploc-alalc97`. The form of a
/// valid tag has no extended language, unless it is `zh-min`.
///
/// # Errors
///
/// Returns an error if allocation fails.
///
/// ```
/// use langtag::LangTag;
/// use langtag_registry::canonical;
///
/// canonical(alloc, LangTag::new("IW-bu")?)?.as_str(); // "he-MM"
/// canonical(alloc, LangTag::new("zh-yue")?)?.as_str(); // "yue"
/// ```
#[tactic(auto, using(crate::proofs::OneForm::one_canonical, crate::proofs::CanonicalCase::same_canonical, crate::proofs::CanonicalCase::canonical_twice, crate::proofs::CanonicalCase::valid_canonical, crate::proofs::CanonicalCase::apart_canonical, crate::proofs::CanonicalCase::no_extlang_canonical))]
pub fn canonical(alloc: Global, tag: LangTag<'_>) -> Result<LangTagBuf, AllocError>
    ensures canonical { IfOk result (λ form. IsCanonicalForm (lang_tag_text tag.entry) (lang_tag_buf_text form)) }

    // law: a tag has only one such form
    ensures one { IfOk result (λ form. IsOnlyCanonicalForm (lang_tag_text tag.entry) (lang_tag_buf_text form)) }
    // law: doing it again changes nothing
    ensures settled { IfOk result (λ form. IsCanonicalForm (lang_tag_buf_text form) (lang_tag_buf_text form)) }
    // law: alike tags have the same form
    ensures any_case { IfOk result (λ form. IsFormInAnyCase (lang_tag_text tag.entry) (lang_tag_buf_text form)) }
    // law: when the form of a valid tag is valid
    ensures valid { IfOk result (λ form. IsValidForm (lang_tag_text tag.entry) (lang_tag_buf_text form)) }
    // law: of valid tags only `zh-min` keeps an extended language
    ensures no_extlang { IfOk result (λ form. HasNoExtlang (lang_tag_text tag.entry) (lang_tag_buf_text form)) }
{
    form_as_tag(alloc, tag)
}

/// Returns whether a tag is its own canonical form (RFC 5646 section 4.5): `true` for `he`, `zh-min` and `x-iw`,
/// `false` for `iw` and `en-b-ccc-a-aaa`. Case is ignored, so it is `true` for `HE`. It does not allocate.
///
/// ```
/// use langtag::LangTag;
/// use langtag_registry::is_canonical;
///
/// is_canonical(LangTag::new("HE")?); // true
/// is_canonical(LangTag::new("iw")?); // false
/// ```
#[tactic(auto, using(crate::proofs::AlikeForms::canonical_in_any_case))]
pub fn is_canonical(tag: LangTag<'_>) -> bool
    ensures canonical { (result ≡ true) ↔ IsReplacedForm (lang_tag_text tag.entry) (lang_tag_text tag.entry) }
    ensures any_case { (other : List ℕ) → Alike (lang_tag_text tag.entry) other → (result ≡ true) ↔ IsReplacedForm other other }
{
    matches!(form_of(tag), Form::Same)
}

/// Writes the canonical form of a tag to a buffer, as `canonical` returns it, and returns its length in bytes. If
/// the buffer is too short, it stays unchanged, and the length says how long a buffer must be. It does not allocate.
///
/// ```
/// use langtag::LangTag;
/// use langtag_registry::write_canonical;
///
/// let mut buffer = [0; 16];
/// let length = write_canonical(LangTag::new("en-BU")?, &mut buffer);
/// buffer.get(..length); // Some(&b"en-MM"[..])
/// ```
#[tactic(auto, using(crate::proofs::CanonicalParts::form_written))]
pub fn write_canonical(tag: LangTag<'_>, buffer: &mut [u8]) -> usize
    ensures canonical { WritesWhole (IsCanonicalForm (lang_tag_text tag.entry)) buffer.old buffer.new result }
    ensures untouched { length buffer.old < result → buffer.new ≡ buffer.old }
{
    let len = write_replaced(tag, buffer);
    if len > buffer.len() {
        return len;
    }
    make_recommended_case(&mut buffer[..len]);
    len
}

/// Writes a tag after the steps of section 4.5 to a buffer, and returns its length in bytes.
#[tactic(auto, using(crate::proofs::CanonicalParts::form_written))]
fn write_replaced(tag: LangTag<'_>, buffer: &mut [u8]) -> usize
    ensures steps { WritesWhole (IsReplacedForm (lang_tag_text tag.entry)) buffer.old buffer.new result }
    ensures untouched { length buffer.old < result → buffer.new ≡ buffer.old }
{
    match form_of(tag) {
        Form::Same => write_text(tag.as_bytes(), buffer),
        Form::Whole(preferred) => write_text(preferred.as_bytes(), buffer),
        Form::Parts(normal) => write_canonical_parts(normal, buffer),
    }
}

/// Returns the canonical form of a tag.
#[tactic(auto, using(crate::proofs::CanonicalParts::form_is_tag, langtag::proofs::KeptFound::found_kept))]
fn form_as_tag(alloc: Global, tag: LangTag<'_>) -> Result<LangTagBuf, AllocError>
    ensures { IfOk result (λ form. IsCanonicalForm (lang_tag_text tag.entry) (lang_tag_buf_text form)) }
{
    let mut form = replaced_tag(alloc, tag)?;
    form.make_recommended_case();
    Ok(form)
}

/// Returns a tag after the steps of section 4.5. If it is a copy of the tag or of a Preferred-Value, it is not parsed again.
#[tactic(auto, using(crate::proofs::CanonicalParts::form_is_tag, langtag::proofs::KeptFound::found_kept))]
fn replaced_tag(alloc: Global, tag: LangTag<'_>) -> Result<LangTagBuf, AllocError>
    ensures { IfOk result (λ form. IsReplacedForm (lang_tag_text tag.entry) (lang_tag_buf_text form)) }
{
    match form_of(tag) {
        Form::Same => tag.try_to_owned(alloc),
        Form::Whole(preferred) => preferred.try_to_owned(alloc),
        Form::Parts(normal) => Ok(tag_of(bytes_of_parts(alloc, tag, normal)?)),
    }
}

/// Returns the bytes of the canonical form of a tag, as [`write_canonical_parts`] writes them. The buffer has a guessed length. If it
/// is too short, the bytes are written again.
#[tactic(auto, using(langtag_text::proofs::Taken::whole_taken))]
fn bytes_of_parts(
    alloc: Global,
    tag: LangTag<'_>,
    normal: NormalLangTag<'_>,
) -> Result<Vec<u8>, AllocError>
    requires { IsCanonicalAs (lang_tag_text tag) (Parts normal) }
    ensures { IfOk result (λ bytes. IsReplacedForm (lang_tag_text tag.entry) bytes.items) }
{
    let mut bytes = vec![in alloc; 0; tag.as_bytes().len().saturating_add(SPARE)]?;
    let len = write_canonical_parts(normal, &mut bytes);
    if len > bytes.len() {
        return counted_bytes(alloc, normal);
    }
    bytes.truncate(len);
    Ok(bytes)
}

/// Returns the bytes of the form, which are counted before they are written.
fn counted_bytes(alloc: Global, tag: NormalLangTag<'_>) -> Result<Vec<u8>, AllocError>
    ensures { IfOk result (λ bytes. EachRecord (normal_lang_tag_text tag.entry) (λ r. bytes.items ≡ canonical_text r)) }
{
    let mut bytes = vec![in alloc; 0; write_canonical_parts(tag, &mut [])]?;
    write_canonical_parts(tag, &mut bytes);
    Ok(bytes)
}

/// Writes a tag with its parts in their canonical forms, or the Preferred-Value of the tag that these parts make up.
#[tactic(auto, using(langtag_fields::proofs::WholeTags::none_longer))]
fn write_canonical_parts(tag: NormalLangTag<'_>, buffer: &mut [u8]) -> usize
    ensures form { EachRecord (normal_lang_tag_text tag.entry)
        (λ r. WritesWhole (λ form. form ≡ canonical_text r) buffer.old buffer.new result) }
    ensures untouched { length buffer.old < result → buffer.new ≡ buffer.old }
{
    let mut start = [0; LONGEST_REPLACED];
    let len = put_canonical_parts(tag, &mut start);
    if let Some(parts) = start.get(..len) {
        return write_text(preferred_to(parts), buffer);
    }
    if len <= buffer.len() {
        put_canonical_parts(tag, buffer);
    }
    len
}

/// Returns the Preferred-Value of a whole tag, or the string itself if it has none: `gsg` for `sgn-DE`, which is
/// `sgn-DD` with its parts in their canonical forms.
fn preferred_to(parts: &[u8]) -> &[u8]
    ensures { result.now ≡ unwrap_or (field.preferred_tag parts.now) parts.now }
{
    match preferred_for(parts) {
        Some(preferred) => preferred.as_bytes(),
        None => parts,
    }
}
