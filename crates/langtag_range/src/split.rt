//! Splitting a string at the first byte of a given value.
ghost use Rattle.std.specs.Prelude.{◌≡◌, ◌==◌, ◌||◌, ◌+◌, ◌<◌, ◌≤◌, IfSome, drop, length, take, unwrap_or, position};
ghost use Rattle.langtag_scan.specs.Prelude.{after_first, before_first, position_or_len};

/// Returns the string before the first `mark` and the string after it. If there is no `mark`, returns the whole string
/// and an empty string.
///
/// `split_at_byte(b"fr;q=1", b';')` is `(b"fr", b"q=1")`.
#[tactic(auto, using(crate::proofs::Places::first_or_length))]
pub fn split_at_byte(text: &[u8], mark: u8) -> (&[u8], &[u8])
    ensures before { result.0.now ≡ before_first (λ b. b == mark) text.now }
    ensures after { result.1.now ≡ after_first (λ b. b == mark) text.now }
{
    split_at(text, first_place(text, mark))
}

/// Returns the string before and after the first byte that is `mark` or `other`: `split_at_either(b"zh_TW", b'-',
/// b'_')` is `(b"zh", b"TW")`.
#[tactic(auto, using(crate::proofs::Places::first_or_length))]
pub fn split_at_either(text: &[u8], mark: u8, other: u8) -> (&[u8], &[u8])
    ensures before { result.0.now ≡ before_first (λ b. b == mark || b == other) text.now }
    ensures after { result.1.now ≡ after_first (λ b. b == mark || b == other) text.now }
{
    split_at(text, first_of_either(text, mark, other))
}

/// Returns the number of bytes before the first `mark`, or of all bytes if there is none: `len_before(b"fr;q=1", b';')`
/// is 2.
#[tactic(auto, using(crate::proofs::Places::first_or_length))]
pub fn len_before(text: &[u8], mark: u8) -> usize
    ensures within { result ≤ length text.now }
    ensures first { result ≡ position_or_len (λ b. b == mark) text.now }
{
    first_place(text, mark).unwrap_or(text.len())
}

/// Returns the number of bytes before the first `mark` or `other`, or of all bytes if there is none.
#[tactic(auto, using(crate::proofs::Places::first_or_length))]
pub(crate) fn len_before_either(text: &[u8], mark: u8, other: u8) -> usize
    ensures { result ≤ length text.now }
{
    first_of_either(text, mark, other).unwrap_or(text.len())
}

/// Returns the index of the first `mark`, or `None` if there is none: `first_place(b"q=1", b'=')` is `Some(1)`.
pub(crate) fn first_place(text: &[u8], mark: u8) -> Option<usize>
    ensures { result ≡ position (λ b. b == mark) text.now }
{
    text.iter().position(|byte| *byte == mark)
}

fn first_of_either(text: &[u8], mark: u8, other: u8) -> Option<usize>
    ensures { result ≡ position (λ b. b == mark || b == other) text.now }
{
    text.iter().position(|byte| *byte == mark || *byte == other)
}

/// Returns the string before an index, and the string after the byte at that index. If the index is `None`, returns the
/// whole string and an empty string.
fn split_at(text: &[u8], index: Option<usize>) -> (&[u8], &[u8])
    requires { IfSome index (λ i. i < length text.now) }
    ensures before { result.0.now ≡ take (unwrap_or index (length text.now)) text.now }
    ensures after { result.1.now ≡ drop (unwrap_or index (length text.now) + 1) text.now }
{
    match index {
        Some(index) => (&text[..index], &text[index + 1..]),
        None => (text, b""),
    }
}
