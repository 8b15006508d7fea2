//! The best tag for a user, and the distance of two tags (UTS #35, part 1, section 'Language Matching').
ghost use Rattle.std.specs.Prelude.{◌≡◌, ◌↔◌, ◌-◌, ◌^◌, ◌≤◌, length};
ghost use Rattle.langtag_scan.specs.Grammar.{IsTag};
ghost use Rattle.langtag_match.specs.Definitions.{wanted_elements};
ghost use Rattle.langtag_choice.specs.Distance.{distance_of_texts};
ghost use Rattle.langtag_c.specs.Choice.{IsBest};
ghost use Rattle.langtag_c.specs.Spanned.{ranges_at};

use crate::span::Span;
use crate::spanned_ranges::SpannedRanges;
use crate::spanned_tags::SpannedTags;
use crate::tag::tag_of;
use langtag_choice::{best_among, distance};

/// The result if one of the two strings is not a tag.
const NO_DISTANCE: u32 = u32::MAX;

/// Returns the distance from the tag that a user desires to a supported tag (UTS #35, part 1, Language Matching): 0
/// from zh-TW to zh-Hant, 4 from de-AT to de, 10 from yue to zh-HK, 84 from de to en, and at most 134.
///
/// From 0 to 15 the user reads both: they are the same language, perhaps in another region or script, or nearly the
/// same. Below 50 most users of the desired language understand the supported one. Languages and regions that CLDR
/// replaces count as their replacements: iw counts as he, and ger and deu count as de. Everything after the region is
/// ignored, such as variants, extensions and private use: en-GB-oed counts as en-GB. A tag that the registry replaces as
/// a whole counts as its replacement: i-klingon counts as tlh, and zh-hakka as hak. The distance is 255 if the tags
/// differ and either of them is only und, is a private-use tag, or is i-default, i-enochian or i-mingo.
///
/// Returns `LANGTAG_NO_DISTANCE` if one of the strings is not a tag.
#[unsafe(no_mangle)]
pub extern "C" fn langtag_distance(desired: &[u8], supported: &[u8]) -> u32
    ensures distance { IsTag desired.now → IsTag supported.now → result ≡ distance_of_texts desired.now supported.now }
    ensures no_tag { result ≡ 2 ^ 32 - 1 ↔ (IsTag desired.now × IsTag supported.now → ⊥) }
{
    match (tag_of(desired), tag_of(supported)) {
        (Some(desired), Some(supported)) => u32::from(distance(desired, supported)),
        _ => NO_DISTANCE,
    }
}

/// Returns the index of the best tag for an Accept-Language header, or `tags_len` if none is suitable. The tags are
/// spans of one string. A span that is not a tag, or reaches beyond the string, is skipped.
///
/// ```c
/// const char *header = "zh-TW,zh;q=0.9,en;q=0.8", *have = "en zh-Hans zh-Hant";
/// const langtag_span tags[] = {{0, 2}, {3, 7}, {11, 7}};
/// size_t best = langtag_best_for_header(header, strlen(header), have, strlen(have), tags, 3);
/// printf("%zu\n", best); // 2
/// ```
///
/// Ranges are tried in order of weight. The first range with a tag at a distance below 16 wins, and its nearest tag is
/// chosen (`langtag_distance`). If there is no such range, the limit is 50, and after that, lookup is tried (RFC 4647
/// section 3.4). A tag whose longest matching range has the weight 0 is not chosen. A range "*" chooses nothing, so the
/// program's default is used.
///
/// Among tags at the same distance, these rules decide, one after the other. The tag that has more of the range's
/// variants is better. A tag without the extension t, which marks machine translations, is better, unless the range has
/// t. The tag for which lookup removes fewer subtags from the range is better, where lookup reads `eng` as `en`. The
/// tag with the range's own code is better. A tag whose region is a group with the range's region is better, and the
/// smallest group is best: `es-419` for `es-MX`. A tag with the most likely region of its language is better. One of
/// CLDR's paradigm locales, such as `en-GB`, is better. Otherwise the first in the list is chosen. So list the tags in
/// the order that you prefer.
///
/// Malformed elements are read leniently: _ is read as a hyphen, everything after ., @ or _# is dropped, and a weight
/// that is not a number counts as 1.
///
/// Time is at most proportional to the length of the header times the length of the tags. Limit the header to 8 KiB, as
/// most servers do.
#[unsafe(no_mangle)]
pub extern "C" fn langtag_best_for_header(header: &[u8], bytes: &[u8], tags: &[Span]) -> usize
    ensures best { IsBest (wanted_elements header.now) bytes.now tags.now result }
    ensures within { result ≤ length tags.now }
{
    let spanned = SpannedTags {
        text: bytes,
        spans: tags,
    };
    best_among(header, &spanned).unwrap_or(tags.len())
}

/// Returns the index of the best tag for a list of language ranges, in order of preference, or `tags_len` if none is
/// suitable. The ranges are spans of one string, and the tags are spans of another. The choice is that of
/// `langtag_best_for_header` if all ranges have the same weight. Only a header skips extended ranges, such as de-*.
///
/// A range is read as in a header: zh_TW.UTF-8 is read as zh-TW, and sr_RS@latin as sr-RS. Call `langtag_from_posix`
/// first for the names in LANG and LANGUAGE. An extended range is read without its *: zh-*-Hant is read as zh-Hant. A
/// span is skipped if it is not a range, such as de;q=0, or not a tag, or reaches beyond its text.
#[unsafe(no_mangle)]
pub extern "C" fn langtag_best_for_ranges(
    text: &[u8],
    ranges: &[Span],
    bytes: &[u8],
    tags: &[Span],
) -> usize
    ensures best { IsBest (ranges_at text.now ranges.now) bytes.now tags.now result }
    ensures within { result ≤ length tags.now }
{
    let wanted = SpannedRanges {
        text,
        spans: ranges,
    };
    let spanned = SpannedTags {
        text: bytes,
        spans: tags,
    };
    best_among(wanted, &spanned).unwrap_or(tags.len())
}
