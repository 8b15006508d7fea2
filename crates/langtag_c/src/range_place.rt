//! Where a range is in an Accept-Language header (RFC 9110 section 12.5.4), by the ranges before it.
ghost use Rattle.std.specs.Prelude.{◌≡◌, ◌≤◌, None, IfSome, not, position};
ghost use Rattle.langtag_range.specs.Definitions.{is_comma, is_space, items};
ghost use Rattle.langtag_c.specs.RangePlaces.{IsRangeAt, range_count, spaces_before};

use crate::items::is_comma;
use crate::span::Span;
use langtag_range::split_wanted;

/// Returns the span of the range that has this number of ranges before it in a header.
pub(crate) fn range_at(header: &[u8], place: usize) -> Option<Span>
    ensures some { IfSome result (IsRangeAt header.now place) }
    ensures none { result ≡ None → range_count (items header.now) ≤ place }
{
    let mut start = 0;
    let mut left = place;
    for item in header.split(|byte| is_comma(*byte)) {
        if let Some((wanted, _)) = split_wanted(item) {
            if left == 0 {
                return Some(Span {
                    start: start + spaces_before(item),
                    len: wanted.bytes.len(),
                });
            }
            left -= 1;
        }
        start += item.len() + 1;
    }
    None
}

/// Returns the number of spaces and tabs at the start of an item.
fn spaces_before(item: &[u8]) -> usize
    ensures { result ≡ spaces_before item.now }
{
    first_filled(item).unwrap_or(item.len())
}

/// Returns the index of the first byte that is neither a space nor a tab.
fn first_filled(item: &[u8]) -> Option<usize>
    ensures { result ≡ position (λ b. not (is_space b)) item.now }
{
    item.iter().position(|byte| !is_space(*byte))
}

fn is_space(byte: u8) -> bool
    ensures { result ≡ is_space byte }
{
    byte == b' ' || byte == b'\t'
}
