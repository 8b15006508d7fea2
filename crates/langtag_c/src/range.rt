//! Language ranges, and the tags that they match (RFC 4647).
ghost use Rattle.std.specs.Prelude.{◌≡◌, ◌↔◌, IsTrue, MatchOption, false};
ghost use Rattle.langtag_match.specs.Definitions.{MatchesBasic, MatchesExtended, is_language_range};
ghost use Rattle.langtag_match.specs.Text.{language_range_text};
ghost use Rattle.langtag_c.specs.Answers.{IsRangeKind, IsRangeMatch};

use crate::tag::tag_of;
use langtag_match::LanguageRange;

/// Returns which kind of language range a string is, as an enum `langtag_range_kind_answer`.
#[tactic(auto, using(crate::proofs::KindLaws::range_kinds))]
#[unsafe(no_mangle)]
pub extern "C" fn langtag_range_kind(bytes: &[u8]) -> u32
    ensures { IsRangeKind bytes.now result }
{
    match range_of(bytes) {
        None => 0,
        Some(range) if range.is_basic() => 1,
        Some(_) => 2,
    }
}

/// Returns whether a range matches a tag by basic filtering (RFC 4647 section 3.3.1): the range is *, or equals the
/// tag, or the tag begins with the range and a hyphen. Case is ignored. de-DE matches de-DE-1996, but neither de-Deva
/// nor de-Latn-DE.
///
/// Returns false if the first string is not a language range, or the second is not a tag.
#[unsafe(no_mangle)]
pub extern "C" fn langtag_matches_basic(range: &[u8], tag: &[u8]) -> bool
    ensures { IsTrue result ↔ IsRangeMatch MatchesBasic range.now tag.now }
{
    match (range_of(range), tag_of(tag)) {
        (Some(range), Some(tag)) => range.matches_basic(&tag),
        _ => false,
    }
}

/// Returns whether a range matches a tag by extended filtering (RFC 4647 section 3.3.2): de-DE and de-*-DE match
/// de-Latn-DE-1996, but not de-x-DE, since no subtag of one byte may be skipped.
///
/// Returns false if the first string is not a language range, or the second is not a tag.
#[unsafe(no_mangle)]
pub extern "C" fn langtag_matches_extended(range: &[u8], tag: &[u8]) -> bool
    ensures { IsTrue result ↔ IsRangeMatch MatchesExtended range.now tag.now }
{
    match (range_of(range), tag_of(tag)) {
        (Some(range), Some(tag)) => range.matches_extended(&tag),
        _ => false,
    }
}

/// Returns the bytes as a range, or `None` if they are not a range.
#[tactic(auto, using(langtag_range::proofs::BasicForms::utf8_range))]
fn range_of<'a>(bytes: &'a [u8]) -> Option<LanguageRange<'a>>
    ensures { MatchOption result (is_language_range bytes.now ≡ false)
        (λ range. (language_range_text range ≡ bytes.now) × IsTrue (is_language_range bytes.now)) }
{
    let text = str::from_utf8(bytes).ok()?;
    LanguageRange::new(text).ok()
}
