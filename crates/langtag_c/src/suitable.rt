//! All tags that suit a user, best first.
ghost use Rattle.std.specs.Prelude.{◌≡◌, length, take, drop};
ghost use Rattle.langtag_match.specs.Definitions.{wanted_elements};
ghost use Rattle.langtag_choice.specs.Suitable as choice;
ghost use Rattle.langtag_c.specs.Choice.{AreBest};
ghost use Rattle.langtag_c.specs.Spanned.{ranges_at};
ghost use Rattle.langtag_c.specs.TagsAt.{tags_at};

use crate::span::Span;
use crate::spanned_ranges::SpannedRanges;
use crate::spanned_tags::SpannedTags;
use langtag_choice::{RangeList, suitable_count, write_suitable};

/// Writes the indices of the suitable tags for an Accept-Language header to `found` (out), best first, and returns their
/// number. The first is the tag that `langtag_best_for_header` chooses, the next is the tag that it chooses among the
/// others, and so on, as long as one is suitable. If the number is greater than `found_len`, only the best are written.
/// `tags_len` entries are always enough.
///
/// ```c
/// const char *header = "de-CH,fr;q=0.7", *have = "en fr de de-AT";
/// const langtag_span tags[] = {{0, 2}, {3, 2}, {6, 2}, {9, 5}};
/// size_t found[4], count = langtag_suitable_for_header(header, strlen(header), have, strlen(have), tags, 4, found, 4);
/// for (size_t i = 0; i < count; i++) printf("%zu ", found[i]); // 2 3 1
/// ```
///
/// The rest of the array stays unchanged. For every 64 indices, each range of the header is compared with each tag, and
/// each tag with each earlier index, so `found_len` limits the time. A full array costs one more comparison of each range
/// with each tag, for the number.
#[unsafe(no_mangle)]
pub extern "C" fn langtag_suitable_for_header(
    header: &[u8],
    bytes: &[u8],
    tags: &[Span],
    found: &mut [usize],
) -> usize
    ensures suitable { AreBest (wanted_elements header.now) bytes.now tags.now (length found.old) result (take result found.new) }
    ensures rest { drop result found.new ≡ drop result found.old }
{
    let spanned = SpannedTags {
        text: bytes,
        spans: tags,
    };
    write_and_count(header, &spanned, found)
}

/// Writes the indices of the suitable tags for a list of language ranges, as `langtag_suitable_for_header` does for a
/// header. Ranges and tags are read as by `langtag_best_for_ranges`.
#[unsafe(no_mangle)]
pub extern "C" fn langtag_suitable_for_ranges(
    text: &[u8],
    ranges: &[Span],
    bytes: &[u8],
    tags: &[Span],
    found: &mut [usize],
) -> usize
    ensures suitable { AreBest (ranges_at text.now ranges.now) bytes.now tags.now (length found.old) result (take result found.new) }
    ensures rest { drop result found.new ≡ drop result found.old }
{
    let wanted = SpannedRanges {
        text,
        spans: ranges,
    };
    let spanned = SpannedTags {
        text: bytes,
        spans: tags,
    };
    write_and_count(wanted, &spanned, found)
}

/// Writes the indices of the suitable tags to an array, best first, and returns their number. If the array is full and
/// shorter than the list of the tags, they are counted.
fn write_and_count<'a, R: RangeList<'a>>(
    ranges: R,
    tags: &SpannedTags<'_>,
    found: &mut [usize],
) -> usize
    ensures suitable { choice.AreSuitable (R.elements ranges) (tags_at tags.now.text.now tags.now.spans.now) (length found.old)
        (take result found.new) }
    ensures number { result ≡ choice.suitable_count (R.elements ranges) (tags_at tags.now.text.now tags.now.spans.now) }
    ensures rest { drop result found.new ≡ drop result found.old }
{
    let written = write_suitable(ranges, tags, found);
    if written < found.len() || written == tags.spans.len() {
        return written;
    }
    suitable_count(ranges, tags)
}
