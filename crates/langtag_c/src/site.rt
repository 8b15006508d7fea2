//! The best of tags that are prepared once.
ghost use Rattle.std.specs.Prelude.{◌≤◌, length};
ghost use Rattle.langtag_match.specs.Definitions.{wanted_elements};
ghost use Rattle.langtag_c.specs.Spanned.{ranges_at};
ghost use Rattle.langtag_c.specs.Site.{IsBestOf, IsMatchOf, current_tags_at};

use crate::best_match::BestMatch;
use crate::prepare::{PreparedTag, PreparedTags};
use crate::range_place::range_at;
use crate::span::Span;
use crate::spanned_ranges::SpannedRanges;
use langtag_choice::{best_among, match_among};

/// Returns what `langtag_best_for_header` returns for the same string and the spans of the tags. For 40 tags it takes
/// about half of the time, and for a few tags nearly as much. Each tag was prepared by `langtag_prepare` for this string.
/// A tag that was not is skipped: any values of `opaque` are safe.
#[unsafe(no_mangle)]
pub extern "C" fn langtag_site_best_for_header(
    header: &[u8],
    bytes: &[u8],
    tags: &[PreparedTag],
) -> usize
    // law: the choice among the tags that were prepared for their spans
    ensures best { IsBestOf (wanted_elements header.now) (current_tags_at bytes.now tags.now) result }
    ensures within { result ≤ length tags.now }
{
    let site = PreparedTags { text: bytes, tags };
    best_among(header, &site).unwrap_or(tags.len())
}

/// Returns what `langtag_best_for_ranges` returns, among tags that `langtag_prepare` prepared, as
/// `langtag_site_best_for_header` does.
#[unsafe(no_mangle)]
pub extern "C" fn langtag_site_best_for_ranges(
    text: &[u8],
    ranges: &[Span],
    bytes: &[u8],
    tags: &[PreparedTag],
) -> usize
    // law: the choice among the tags that were prepared for their spans
    ensures best { IsBestOf (ranges_at text.now ranges.now) (current_tags_at bytes.now tags.now) result }
    ensures within { result ≤ length tags.now }
{
    let wanted = SpannedRanges {
        text,
        spans: ranges,
    };
    let site = PreparedTags { text: bytes, tags };
    best_among(wanted, &site).unwrap_or(tags.len())
}

/// Returns what `langtag_match_for_header` returns, among tags that `langtag_prepare` prepared, as
/// `langtag_site_best_for_header` does.
#[unsafe(no_mangle)]
pub extern "C" fn langtag_site_match_for_header(
    header: &[u8],
    bytes: &[u8],
    tags: &[PreparedTag],
    found: &mut BestMatch,
) -> usize
    // law: the choice among the tags that were prepared for their spans
    ensures found { IsMatchOf header.now (current_tags_at bytes.now tags.now) result found.new }
    ensures within { result ≤ length tags.now }
{
    let site = PreparedTags { text: bytes, tags };
    let end = Span {
        start: header.len(),
        len: 0,
    };
    let Some(chosen) = match_among(header, &site) else {
        *found = BestMatch {
            range: end,
            distance: u32::MAX,
        };
        return tags.len();
    };
    *found = BestMatch {
        range: range_at(header, chosen.place).unwrap_or(end),
        distance: u32::from(chosen.distance),
    };
    chosen.index
}
