//! The pieces of a string in its recommended case. In each piece, the uppercase letters come before the lowercase
//! letters.
ghost use Rattle.std.specs.Prelude.{◌≡◌};
ghost use Rattle.langtag_text.specs.RecommendedCase.{recommended_text};
ghost use Rattle.langtag_text.specs.Walk.{BeginsWith, later_text};

use langtag_scan::segment_end;

/// A piece of a string in its recommended case (RFC 5646 section 2.1.1). Each subtag before the first single-byte
/// subtag is a piece. The rest of the string is one more piece, which is all lowercase.
#[derive(Clone, Copy, Debug)]
pub(crate) struct Piece {
    /// The length of the piece in bytes.
    pub(crate) len: usize,
    /// The number of bytes at the start of the piece whose letters are uppercase. All letters after these bytes are
    /// lowercase.
    pub(crate) capitals: usize,
}

impl Piece {
    /// Returns the piece at the start of a string. The first subtag is lowercase, whatever its length is.
    pub(crate) fn first(text: &[u8]) -> Piece
        ensures capitals { result.capitals ≡ 0 }
        ensures begins { BeginsWith text.now result.len 0 (recommended_text text.now) }
    {
        Piece {
            capitals: 0,
            ..Piece::later(text)
        }
    }

    /// Returns the piece at the start of `text`, which is the rest of a longer string after a hyphen. No subtag before
    /// that hyphen may have a single byte.
    pub(crate) fn later(text: &[u8]) -> Piece
        ensures { BeginsWith text.now result.len result.capitals (later_text text.now) × BeginsWith text.now result.len 0
            (recommended_text text.now) }
    {
        match segment_end(text, 0) {
            1 => Piece {
                len: text.len(),
                capitals: 0,
            },
            2 => Piece {
                len: 2,
                capitals: 2,
            },
            4 => Piece {
                len: 4,
                capitals: 1,
            },
            len => Piece { len, capitals: 0 },
        }
    }
}
