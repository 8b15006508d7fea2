//! The best tag for a user, with the range that it serves and its distance from that range.
ghost use Rattle.std.specs.Prelude.{◌≤◌, length};
ghost use Rattle.langtag_match.specs.Definitions.{wanted_elements};
ghost use Rattle.langtag_c.specs.Choice.{IsBest, IsMatchAt};

use crate::range_place::range_at;
use crate::span::Span;
use crate::spanned_tags::SpannedTags;
use langtag_choice::match_among;

/// The range of a header that the best tag serves, and the distance from the range to the tag.
#[repr(C)]
#[derive(Clone, Copy)]
pub struct BestMatch {
    /// in the header, as it is written: de_CH in "de_CH.UTF-8;q=0.5"
    pub range: Span,
    /// from that range to the tag, as `langtag_distance` returns it
    pub distance: u32,
}

/// Returns what `langtag_best_for_header` returns, and writes the range that the tag serves and the distance from that
/// range to the tag (out). If the distance is 50 or more, only lookup found the tag.
///
/// ```c
/// const char *header = "tlh, gsw;q=0.5", *have = "en de";
/// const langtag_span tags[] = {{0, 2}, {3, 2}};
/// langtag_best_match match;
/// size_t best = langtag_match_for_header(header, strlen(header), have, strlen(have), tags, 2, &match);
/// printf("%zu, for %.*s at %u\n", best, (int)match.range.len, header + match.range.start, match.distance); // 1, for gsw at 8
/// ```
///
/// If no tag is suitable, the range is empty, at the end of the header, and the distance is `LANGTAG_NO_DISTANCE`.
/// `found` is always written.
#[unsafe(no_mangle)]
pub extern "C" fn langtag_match_for_header(
    header: &[u8],
    bytes: &[u8],
    tags: &[Span],
    found: &mut BestMatch,
) -> usize
    // law: the index is that of the chosen tag; the range and the distance belong to the pair of range and tag that was
    // chosen
    ensures found { IsMatchAt header.now bytes.now tags.now result found.new }
    ensures best { IsBest (wanted_elements header.now) bytes.now tags.now result }
    ensures within { result ≤ length tags.now }
{
    let spanned = SpannedTags {
        text: bytes,
        spans: tags,
    };
    let end = Span {
        start: header.len(),
        len: 0,
    };
    let Some(chosen) = match_among(header, &spanned) else {
        *found = BestMatch {
            range: end,
            distance: u32::MAX,
        };
        return tags.len();
    };
    *found = BestMatch {
        range: range_at(header, chosen.place).unwrap_or(end),
        distance: u32::from(chosen.distance),
    };
    chosen.index
}
