//! The white space around a string in a header (RFC 9110 section 5.6.3).
ghost use Rattle.std.specs.Prelude.{◌≡◌, ◌≤◌, IsTrue, drop, length, reverse, take, slice_range};
ghost use Rattle.langtag_range.specs.Element as spec;

/// Returns whether the string between two commas of a header is empty except for spaces and tabs. Such an element must
/// be skipped (RFC 9110 section 5.6.1.2).
///
/// ```
/// use langtag_match::is_empty_element;
///
/// is_empty_element(b" \t"); // true
/// is_empty_element(b" fr"); // false
/// ```
pub fn is_empty_element(item: &[u8]) -> bool
    ensures { result ≡ spec.is_ows item.now }
{
    item.iter().all(|byte| is_space(*byte))
}

/// Returns the offsets at which a string begins and ends without the white space around it.
pub fn trimmed_place(text: &[u8]) -> (usize, usize)
    ensures ordered { result.0 ≤ result.1 }
    ensures within { result.1 ≤ length text.now }
    ensures space { IsTrue (spec.is_ows (take result.0 text.now)) }
    ensures trimmed { slice_range text.now result.0 result.1 ≡ spec.trimmed text.now }
{
    let start = leading_spaces(text);
    (start, start + len_without_spaces(&text[start..]))
}

/// Returns the number of bytes of white space at the start of a string.
#[tactic(auto, using(crate::proofs::WantedTexts::ows_more, crate::proofs::WantedTexts::from_first_more, crate::proofs::WantedTexts::from_first_stops, crate::proofs::WantedTexts::from_first_ends))]
fn leading_spaces(text: &[u8]) -> usize
    ensures within { result ≤ length text.now }
    ensures space { IsTrue (spec.is_ows (take result text.now)) }
    ensures rest { drop result text.now ≡ spec.from_first text.now }
{
    let mut start = 0;
    while start < text.len() && is_space(text[start]) {
        start += 1;
    }
    start
}

/// Returns the length of a string without the white space at its end.
#[tactic(auto, using(crate::proofs::WantedTexts::last_space, crate::proofs::WantedTexts::last_stops))]
fn len_without_spaces(text: &[u8]) -> usize
    ensures within { result ≤ length text.now }
    ensures rest { take result text.now ≡ reverse (spec.from_first (reverse text.now)) }
{
    let mut len = text.len();
    while len > 0 && is_space(text[len - 1]) {
        len -= 1;
    }
    len
}

fn is_space(byte: u8) -> bool
    ensures { result ≡ spec.is_space byte }
{
    byte == b' ' || byte == b'\t'
}
