//! Writing the pieces of a string into the caller's buffer.
ghost use Rattle.std.specs.Prelude.{◌≡◌, ◌<◌, ◌≤◌, ◌-◌, ◌^◌, length, flat_map};
ghost use Rattle.langtag_text.specs.Output.{IsCounted};
ghost use Rattle.langtag_text.specs.Writes.{Writes};

use crate::output::Output;

/// Writes pieces of string one after another to a buffer, and returns their total length in bytes: 5 for `en`, `-` and
/// `MM`. If the buffer is too short, it stays unchanged, and the length says how much room is needed. It does not
/// allocate.
///
/// The length is at most `usize::MAX`, even if the pieces overlap and have more bytes in total.
pub fn write_pieces(pieces: &[&[u8]], buffer: &mut [u8]) -> usize
    ensures written { let text = flat_map (λ piece. piece.now) pieces.now in
        length text < 2 ^ 64 → Writes (λ new. new ≡ text) buffer.old buffer.new result }
    ensures too_long { 2 ^ 64 ≤ length (flat_map (λ piece. piece.now) pieces.now)
        → (result ≡ 2 ^ 64 - 1) × (buffer.new ≡ buffer.old) }
{
    let len = put_pieces(pieces, &mut []);
    if len <= buffer.len() {
        put_pieces(pieces, buffer);
    }
    len
}

/// Writes a string to a buffer, like [`write_pieces`] with a single piece, and returns its length in bytes.
pub fn write_text(text: &[u8], buffer: &mut [u8]) -> usize
    ensures { Writes (λ new. new ≡ text.now) buffer.old buffer.new result }
{
    write_pieces(&[text], buffer)
}

/// Writes as much of some pieces as fits into a buffer, and returns their total length.
fn put_pieces(pieces: &[&[u8]], buffer: &mut [u8]) -> usize
    ensures { IsCounted (flat_map (λ piece. piece.now) pieces.now) buffer.old buffer.new result }
{
    let mut out = Output::new(buffer);
    for piece in pieces {
        out.push(piece);
    }
    out.len()
}
