//! Lookup that reads languages as CLDR replaces them.
ghost use Rattle.std.specs.Prelude.{◌≡◌, ◌-◌, ◌==◌, ◌&&◌, not, IsTrue, MatchOption, false, length};
ghost use Rattle.langtag_range.specs.Definitions.{basic_text, hyphened, is_language_range, is_separator};
ghost use Rattle.langtag_choice.specs.AsRead as spec;
ghost use Rattle.langtag_choice.specs.Nearness.{lost};
ghost use Rattle.langtag_choice.specs.AsRead.{are_two_codes, behind_first, first_subtag, is_fallback_as_read};

use crate::nearness::is_fallback;
use crate::read_range::ends_subtag;
use langtag_cldr::{basic_len, replaced_form};
use langtag_range::{is_separator, split_at_byte, split_at_either};
use langtag_scan::case_insensitive_eq;

/// Returns the number of bytes that lookup removes from a range to find a tag, or the length of the range if it does not
/// find the tag. It reads languages as CLDR replaces them. `written` is the number for the languages as they are written.
#[tactic(auto, unfolding(crate::specs::AsRead::lost_as_read))]
#[inline(always)]
pub(crate) fn lost_as_read(range: &[u8], tag: &[u8], written: usize) -> usize
    requires in_class { IsTrue (is_language_range (hyphened range.now)) }
    requires written { written ≡ lost (basic_text range.now) tag.now }
    ensures { result ≡ spec.lost_as_read (basic_text range.now) tag.now }
{
    if begin_alike(range, tag) {
        return written;
    }
    match removed_as_read(range, tag) {
        Some(removed) => removed,
        None => written,
    }
}

/// Returns `true` only if a range and a tag have the same two bytes as their first subtags. This is quick, and most tags
/// that are compared begin as the range does.
#[tactic(auto, using(crate::proofs::AsRead::same_first))]
#[inline(always)]
fn begin_alike(range: &[u8], tag: &[u8]) -> bool
    requires { IsTrue (is_language_range (hyphened range.now)) }
    ensures { IsTrue result → are_two_codes (first_subtag (basic_text range.now)) (first_subtag tag.now) ≡ false }
{
    match (range, tag) {
        ([a, b, left @ ..], [c, d, rest @ ..]) => {
            are_equal_letters((*a, *b), (*c, *d)) && (ends_subtag(left) && ends_subtag(rest))
        }
        _ => false,
    }
}

/// Returns whether two pairs of bytes are equal, and neither byte is a separator.
fn are_equal_letters(own: (u8, u8), other: (u8, u8)) -> bool
    ensures { result ≡ (((own.0 == other.0) && (own.1 == other.1)) && (not (is_separator own.0) && not (is_separator own.1))) }
{
    (own.0 == other.0 && own.1 == other.1) && (!is_separator(own.0) && !is_separator(own.1))
}

/// Returns the number of bytes that lookup removes from a range to find a tag that has another code for the language of
/// the range. Returns `None` if the tag has the same code, or if lookup does not find it. Replacements of languages are
/// searched last.
#[inline(never)]
fn removed_as_read(range: &[u8], tag: &[u8]) -> Option<usize>
    requires { IsTrue (is_language_range (hyphened range.now)) }
    ensures { MatchOption result (is_fallback_as_read (basic_text range.now) tag.now ≡ false)
        (λ removed. IsTrue (is_fallback_as_read (basic_text range.now) tag.now) ×
        (removed ≡ length (behind_first (basic_text range.now)) - length (behind_first tag.now))) }
{
    let (own, left) = split_range(range);
    let (other, rest) = split_tag(tag);
    if !is_fallback(left, rest) || !are_two_codes(own, other) {
        return None;
    }
    Some(basic_len(left).saturating_sub(rest.len()))
}

/// Splits a range behind its first subtag.
#[tactic(auto, using(crate::proofs::AsRead::first_read, crate::proofs::AsRead::first_within, crate::proofs::AsRead::range_split))]
fn split_range(range: &[u8]) -> (&[u8], &[u8])
    requires { IsTrue (is_language_range (hyphened range.now)) }
    ensures first { result.0.now ≡ first_subtag (basic_text range.now) }
    ensures behind { basic_text result.1.now ≡ behind_first (basic_text range.now) }
{
    let (first, _) = split_at_either(range, b'-', b'_');
    (first, &range[first.len()..])
}

/// Splits a tag behind its first subtag.
#[tactic(auto, using(crate::proofs::AsRead::first_within, crate::proofs::AsRead::tag_split))]
fn split_tag(tag: &[u8]) -> (&[u8], &[u8])
    ensures first { result.0.now ≡ first_subtag tag.now }
    ensures behind { result.1.now ≡ behind_first tag.now }
{
    let (first, _) = split_at_byte(tag, b'-');
    (first, &tag[first.len()..])
}

/// Returns whether two languages differ, but are read alike.
fn are_two_codes(own: &[u8], other: &[u8]) -> bool
    ensures { result ≡ spec.are_two_codes own.now other.now }
{
    !case_insensitive_eq(own, other)
        && case_insensitive_eq(language_read(own), language_read(other))
}

/// Returns the language by which CLDR replaces a language, if no script or region comes with it, or else the language.
#[tactic(auto, unfolding(crate::specs::AsRead::language_read))]
#[inline(never)]
fn language_read(language: &[u8]) -> &[u8]
    ensures { result.now ≡ spec.language_read language.now }
{
    match replaced_form(language) {
        Some(form) if form.script.is_empty() && form.region.is_empty() => form.language,
        _ => language,
    }
}
