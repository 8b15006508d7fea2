//! The maximal and minimal forms of a tag (UTS #35, part 1, section 'Likely Subtags'). UTS #35 replaces deprecated
//! subtags before it adds likely subtags. Here they are replaced only for the lookup, because a call that adds subtags
//! should change none. `minimized` keeps a deprecated region such as `SU`, because `maximized` could not restore it.
ghost use Rattle.std.specs.Prelude.{◌≡◌, ◌+◌, ◌-◌, ◌^◌, ◌≤◌, flat_map, length, min, IfOk, option_map};
ghost use Rattle.langtag_scan.specs.Grammar.{EachRecord, IsTag};
ghost use Rattle.langtag.specs.Definitions.{lang_tag_text, lang_tag_buf_text, normal_lang_tag_text};
ghost use Rattle.langtag.specs.Definitions.{Writes, IsOnlyForm, IsAlikeForm};
ghost use Rattle.langtag_cldr.specs.Definitions.{add_likely_subtags, remove_likely_subtags, field_texts};
ghost use Rattle.langtag_likely.specs.Maximal.{IsMaximalForm, IsMinimalForm, fields_of, if_read, maximal_record, minimal_record};
ghost use Rattle.langtag_likely.specs.MaximalLaws.{KeepsOthers, TellsAsMaximal, UndoesMaximal, UndoesMinimal};

use crate::fields::{fields_of, is_read};
use crate::put::{changed, whole};
use langtag::{LangTag, LangTagBuf, NormalLangTag, tag_of};
use langtag_cldr::{TagFields, add_likely_subtags, remove_likely_subtags};
use langtag_text::write_pieces;
use std::alloc::{AllocError, Global};

/// Adds the likely subtags to a tag (UTS #35, Add Likely Subtags): `zh-TW` becomes `zh-Hant-TW`, `en` and `und` become
/// `en-Latn-US`, and `de-1996` becomes `de-Latn-DE-1996`.
///
/// Subtags of the tag stay, with their case. Only `und`, `Zzzz` and `ZZ`, which mean an unknown language, script or
/// region, are replaced. Deprecated subtags stay, too, and get the likely subtags of their replacements: `iw` becomes
/// `iw-Hebr-IL`. To replace them, call `langtag_locale::locale_form` first. Variants, extensions and private use stay. A
/// tag without known likely subtags, such as `x-a` or `qaa`, stays unchanged. So does a tag whose extended language is
/// not registered for its language (RFC 5646 section 2.2.2), such as `es-rUS`, which is how Android writes `es-US`.
///
/// # Errors
///
/// Returns an error if allocation fails.
///
/// ```
/// use langtag::LangTag;
/// use langtag_likely::maximized;
///
/// maximized(alloc, LangTag::new("zh-TW")?)?.as_str(); // "zh-Hant-TW"
/// ```
pub fn maximized(alloc: Global, tag: LangTag<'_>) -> Result<LangTagBuf, AllocError>
    ensures maximal { IfOk result (λ form. IsMaximalForm (lang_tag_text tag.entry) (lang_tag_buf_text form)) }
    // law: a tag has only one such form
    ensures one { IfOk result (λ form. IsOnlyForm maximal_record (lang_tag_text tag.entry) (lang_tag_buf_text form)) }
    // law: doing it again changes nothing
    ensures settled { IfOk result (λ form. IsMaximalForm (lang_tag_buf_text form) (lang_tag_buf_text form)) }
    // law: alike tags have alike forms
    ensures alike { IfOk result (λ form. IsAlikeForm IsMaximalForm (lang_tag_text tag.entry) (lang_tag_buf_text form)) }
    // law: each undoes the other, ignoring case for the maximal form
    ensures undoes { IfOk result (λ form. UndoesMinimal (lang_tag_text tag.entry) (lang_tag_buf_text form)) }
    // law: everything but language, script and region stays
    ensures others { IfOk result (λ form. KeepsOthers (lang_tag_text tag.entry) (lang_tag_buf_text form)) }
{
    build(alloc, tag, &maximal_pieces(tag))
}

/// Removes the likely subtags from a tag (UTS #35, Remove Likely Subtags): `zh-Hant-TW` becomes `zh-TW`, and
/// `en-Latn-US` becomes `en`. If it is enough to keep either the script or the region, the region is kept.
///
/// # Errors
///
/// Returns an error if allocation fails.
///
/// ```
/// use langtag::LangTag;
/// use langtag_likely::minimized;
///
/// minimized(alloc, LangTag::new("zh-Hant-TW")?)?.as_str(); // "zh-TW"
/// ```
pub fn minimized(alloc: Global, tag: LangTag<'_>) -> Result<LangTagBuf, AllocError>
    ensures minimal { IfOk result (λ form. IsMinimalForm (lang_tag_text tag.entry) (lang_tag_buf_text form)) }
    // law: a tag has only one such form
    ensures one { IfOk result (λ form. IsOnlyForm minimal_record (lang_tag_text tag.entry) (lang_tag_buf_text form)) }
    // law: doing it again changes nothing
    ensures settled { IfOk result (λ form. IsMinimalForm (lang_tag_buf_text form) (lang_tag_buf_text form)) }
    // law: alike tags have alike forms
    ensures alike { IfOk result (λ form. IsAlikeForm IsMinimalForm (lang_tag_text tag.entry) (lang_tag_buf_text form)) }
    // law: each undoes the other, ignoring case for the maximal form
    ensures undoes { IfOk result (λ form. UndoesMaximal (lang_tag_text tag.entry) (lang_tag_buf_text form)) }
    // law: minimal forms are alike if and only if maximal forms are
    ensures tells { IfOk result (λ form. TellsAsMaximal (lang_tag_text tag.entry) (lang_tag_buf_text form)) }
    // law: everything but language, script and region stays
    ensures others { IfOk result (λ form. KeepsOthers (lang_tag_text tag.entry) (lang_tag_buf_text form)) }
{
    build(alloc, tag, &minimal_pieces(tag))
}

/// Writes a tag with its likely subtags to a buffer, as `maximized` returns it, and returns its length in bytes. If
/// the buffer is too short, it stays unchanged, and the length says how long a buffer must be. It does not allocate.
///
/// ```
/// use langtag::LangTag;
/// use langtag_likely::write_maximized;
///
/// let mut buffer = [0; 16];
/// let length = write_maximized(LangTag::new("zh-TW")?, &mut buffer);
/// buffer.get(..length); // Some(&b"zh-Hant-TW"[..])
/// ```
pub fn write_maximized(tag: LangTag<'_>, buffer: &mut [u8]) -> usize
    ensures { Writes (IsMaximalForm (lang_tag_text tag.entry)) buffer.old buffer.new result }
{
    write_pieces(&maximal_pieces(tag), buffer)
}

/// Writes a tag without its likely subtags to a buffer, as `minimized` returns it, and returns its length in bytes.
/// If the buffer is too short, it stays unchanged. It does not allocate.
///
/// ```
/// use langtag::LangTag;
/// use langtag_likely::write_minimized;
///
/// let mut buffer = [0; 16];
/// let length = write_minimized(LangTag::new("zh-Hant-TW")?, &mut buffer);
/// buffer.get(..length); // Some(&b"zh-TW"[..])
/// ```
pub fn write_minimized(tag: LangTag<'_>, buffer: &mut [u8]) -> usize
    ensures { Writes (IsMinimalForm (lang_tag_text tag.entry)) buffer.old buffer.new result }
{
    write_pieces(&minimal_pieces(tag), buffer)
}

/// Returns the fields of a tag with likely subtags. Returns `None` if no row fits, or if the extended language of the tag
/// is not registered.
#[inline(always)]
fn most_fields(tag: NormalLangTag<'_>) -> Option<TagFields<'_>>
    ensures { EachRecord (normal_lang_tag_text tag.entry)
        (λ r. option_map field_texts result ≡ if_read r (add_likely_subtags (fields_of r))) }
{
    if !is_read(tag) {
        return None;
    }
    add_likely_subtags(fields_of(tag))
}

/// Returns the fields of a tag without likely subtags. Returns `None` if no row fits, or if the extended language of the
/// tag is not registered.
#[inline(always)]
fn fewest_fields(tag: NormalLangTag<'_>) -> Option<TagFields<'_>>
    ensures { EachRecord (normal_lang_tag_text tag.entry)
        (λ r. option_map field_texts result ≡ if_read r (remove_likely_subtags (fields_of r))) }
{
    if !is_read(tag) {
        return None;
    }
    remove_likely_subtags(fields_of(tag))
}

/// Returns the maximal form of a tag, in pieces.
#[inline(always)]
fn maximal_pieces<'a>(tag: LangTag<'a>) -> [&'a [u8]; 6]
    ensures form { IsMaximalForm (lang_tag_text tag.entry) (flat_map (λ piece. piece.now) result) }
    ensures short { length (flat_map (λ piece. piece.now) result) ≤ length (lang_tag_text tag.entry) + 17 }
{
    match tag.as_normal() {
        Some(normal) => changed(normal, most_fields(normal)),
        None => whole(tag.as_bytes()),
    }
}

/// Returns the minimal form of a tag, in pieces.
#[inline(always)]
fn minimal_pieces<'a>(tag: LangTag<'a>) -> [&'a [u8]; 6]
    ensures form { IsMinimalForm (lang_tag_text tag.entry) (flat_map (λ piece. piece.now) result) }
    ensures short { length (flat_map (λ piece. piece.now) result) ≤ length (lang_tag_text tag.entry) + 17 }
{
    match tag.as_normal() {
        Some(normal) => changed(normal, fewest_fields(normal)),
        None => whole(tag.as_bytes()),
    }
}

/// Returns a buffer that is long enough for the maximal and the minimal form of a tag.
fn form_buffer(alloc: Global, tag: LangTag<'_>) -> Result<Vec<u8>, AllocError>
    ensures { IfOk result (λ buffer. length buffer.items ≡ min (length (lang_tag_text tag.entry) + 17) (2 ^ 64 - 1)) }
{
    // A language has at most 8 letters, a script has 4, and a region 3, with a hyphen before each of the last two.
    vec![in alloc; 0; tag.as_bytes().len().saturating_add(17)]
}

/// Returns the tag of these pieces, which are those of a form of `tag`. It is inlined, so that the loop is unrolled.
#[inline(always)]
fn build(alloc: Global, tag: LangTag<'_>, pieces: &[&[u8]]) -> Result<LangTagBuf, AllocError>
    requires tag { IsTag (flat_map (λ piece. piece.now) pieces.now) }
    requires short { length (flat_map (λ piece. piece.now) pieces.now) ≤ length (lang_tag_text tag) + 17 }
    ensures { IfOk result (λ form. lang_tag_buf_text form ≡ flat_map (λ piece. piece.now) pieces.now) }
{
    let mut bytes = form_buffer(alloc, tag)?;
    let len = write_pieces(pieces, &mut bytes);
    bytes.truncate(len);
    Ok(tag_of(bytes))
}
