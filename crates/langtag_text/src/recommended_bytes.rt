//! The bytes of a string in its recommended case, one by one.
ghost use Rattle.std.specs.Prelude.{◌≡◌, ◌++◌, ℕ, List};
ghost use Rattle.langtag_scan.specs.Prelude.{YieldsFirst, item_count};
ghost use Rattle.langtag_text.specs.RecommendedCase.{recommended_text};
ghost use Rattle.langtag_text.specs.Walk.{after_piece, cased};

use crate::piece::Piece;
use std::marker::Model;

/// An iterator over the bytes of a string in its recommended case (RFC 5646 section 2.1.1): `m`, `n`, `-`, `M`, `N` for
/// `MN-mn`.
#[derive(Drop)]
pub(crate) struct RecommendedBytes<'a> {
    /// What is left of the current piece.
    piece: &'a [u8],
    /// The number of bytes at the start of `piece` whose letters are uppercase.
    capitals: usize,
    /// What follows the piece: nothing, or a hyphen and the next pieces.
    rest: &'a [u8],
}

impl<'a> Model for RecommendedBytes<'a> {
    ghost Value = { List ℕ };

    ghost view = { λ walk. cased walk.capitals walk.piece.now ++ after_piece walk.rest.now };
}

impl<'a> RecommendedBytes<'a> {
    /// Returns an iterator over all bytes of a string in its recommended case.
    pub(crate) fn new(text: &'a [u8]) -> Self
        ensures { result ≡ recommended_text text.now }
    {
        let Piece { len, capitals } = Piece::first(text);
        let (piece, rest) = text.split_at(len);
        RecommendedBytes {
            piece,
            capitals,
            rest,
        }
    }
}

impl<'a> Iterator for RecommendedBytes<'a> {
    type Item = u8;

    ghost next_gives = { YieldsFirst (λ walk. walk) };

    ghost remaining = { item_count (λ walk. walk) };

    #[tactic(auto, unfolding(langtag_scan::specs::Case::fold_byte))]
    fn next(&mut self) -> Option<u8> {
        let Some((&byte, piece)) = self.piece.split_first() else {
            let (&hyphen, text) = self.rest.split_first()?;
            let Piece { len, capitals } = Piece::later(text);
            (self.piece, self.rest) = text.split_at(len);
            self.capitals = capitals;
            return Some(hyphen);
        };
        self.piece = piece;
        if self.capitals == 0 {
            return Some(byte.to_ascii_lowercase());
        }
        self.capitals -= 1;
        Some(byte.to_ascii_uppercase())
    }
}
