//! Unicode locale identifiers, their canonical form, and the locale to format with, in the caller's buffer (UTS #35, part 1).
ghost use Rattle.std.specs.Prelude.{◌≡◌, ◌↔◌, ◌<◌, None, Some, false};
ghost use Rattle.langtag_scan.specs.Grammar.{IsTag};
ghost use Rattle.langtag.specs.Definitions.{PartOf, WritesWhole};
ghost use Rattle.langtag_locale.specs.Locale.{is_locale_record};
ghost use Rattle.langtag_locale.specs.LocaleForm.{IsWholeForm};
ghost use Rattle.langtag_locale.specs.Resolved.{IsResolved};

use crate::tag::tag_of;
use langtag_locale::{is_locale, write_locale_form, write_resolved_locale};

/// Returns whether a string is a Unicode locale identifier (UTS #35, part 1, section "Unicode Locale Identifier"), as
/// Intl of JavaScript requires: true for de-1996-u-co-phonebk, false for x-a, i-klingon, zh-yue and und-t-m0, which are
/// tags, and for a string that is not a tag.
///
/// The language has two, three, or five to eight letters, and no extended language. No variant and no singleton is
/// repeated. Each key of u ends with a letter. In t, the language meets the same rules, and each field has a value.
///
/// Time is quadratic beyond 1,152 variants, and beyond 512 in the language of t: less than a second for 1 MB.
#[unsafe(no_mangle)]
pub extern "C" fn langtag_is_locale(bytes: &[u8]) -> bool
    // law: true if and only if the tag is one of the Unicode locale identifiers (`is_locale_record`)
    ensures locale { PartOf bytes.now is_locale_record false result }
{
    match tag_of(bytes) {
        Some(tag) => is_locale(tag),
        None => false,
    }
}

/// Writes the canonical form of a tag as a Unicode locale identifier to `buffer` (UTS #35, part 1, Annex C), and
/// returns its length: eng becomes en, ger-UK becomes de-GB, and sh becomes sr-Latn. If the buffer is too short, its
/// bytes are unspecified, and the result is the size that is needed.
///
/// ```c
/// char buffer[64];
/// size_t len = langtag_locale_form("ger-UK-u-ca-islamicc", 20, buffer, sizeof buffer);
/// if (len > 0 && len <= sizeof buffer) printf("%.*s\n", (int)len, buffer); // de-GB-u-ca-islamic-civil
/// ```
///
/// CLDR's aliases replace the language, the script, the region and the variants. Variants are put in alphabetical
/// order, and extensions in the order of their singletons. u and t get the form of `langtag_extensions_form`. The script
/// is in titlecase, the region in uppercase, and everything else in lowercase. sgn-NO becomes nsl, as in the IANA
/// registry, where CLDR has nsi.
///
/// A tag that is not a Unicode locale identifier is replaced first. A tag with a Preferred-Value in the IANA registry
/// becomes that value: i-klingon becomes tlh. In any other tag, a registered extended language replaces the language
/// before it: zh-yue-HK becomes yue-HK. If the result is not a Unicode locale identifier, either, the tag has no form.
/// r before a region, as Android writes it, is left out: es-rUS becomes es-US.
///
/// Time is quadratic beyond 512 variants or attributes: up to 2 s for 1 MB.
///
/// Returns 0 and writes nothing if the tag has no form, such as x-a, i-default and und-t-m0, or if the string is not a
/// tag.
#[unsafe(no_mangle)]
pub extern "C" fn langtag_locale_form(bytes: &[u8], buffer: &mut [u8]) -> usize
    ensures form { 0 < result → WritesWhole (λ form. IsWholeForm bytes.now (Some form)) buffer.old buffer.new result }
    // law: 0 if and only if there is none
    ensures none { result ≡ 0 ↔ (IsTag bytes.now → IsWholeForm bytes.now None) }
    ensures nothing { result ≡ 0 → buffer.new ≡ buffer.old }
{
    match tag_of(bytes) {
        Some(tag) => write_locale_form(tag, buffer).unwrap_or(0),
        None => 0,
    }
}

/// Writes the locale to format dates and numbers with, next to text in a tag that was chosen for a range, to `buffer`,
/// and returns its length: en-GB-u-hc-h12 for the range en-GB-u-hc-h12 and the tag en.
///
/// ```c
/// char buffer[64];
/// size_t len = langtag_resolved_locale("zh-HK", 5, "zh-CN", 5, buffer, sizeof buffer);
/// if (len > 0 && len <= sizeof buffer) printf("%.*s\n", (int)len, buffer); // zh-Hans-HK
/// ```
///
/// The region comes from the range, and so do all keywords of u, in the form of `langtag_locale_form`. All other bytes are
/// those of the tag, with these exceptions:
///
/// 1. If the script of the tag would not be likely with the new region, it is written: zh-Hans-HK, not zh-HK.
/// 2. If the range has a region or the keyword rg, the keywords rg and sd of the tag are removed.
///
/// If the range has no region, or ZZ, or if the language of the tag is und, the region of the tag stays. Each keyword of
/// the range stands before the first greater key. A range such as de_AT is read as the name of a POSIX locale, and es-rUS
/// as Android writes it. The tag is written unchanged if it is for private use or grandfathered, or if the range has no
/// form, such as *.
///
/// If the buffer is too short, its bytes are unspecified, and the result is the size that is needed. Time grows with the
/// product of the lengths of both extensions u.
///
/// Returns 0 and writes nothing if the second string is not a tag.
#[unsafe(no_mangle)]
pub extern "C" fn langtag_resolved_locale(range: &[u8], tag: &[u8], buffer: &mut [u8]) -> usize
    ensures resolved { IsTag tag.now → WritesWhole (IsResolved range.now tag.now) buffer.old buffer.new result }
    ensures none { (IsTag tag.now → ⊥) → (result ≡ 0) × (buffer.new ≡ buffer.old) }
{
    match tag_of(tag) {
        Some(tag) => write_resolved_locale(range, tag, buffer),
        None => 0,
    }
}
