//! A page: the buffer in which answers are collected before they are written.
ghost use Rattle.std.specs.Prelude.{◌≡◌, ◌+◌, ◌≤◌, List, ℕ, [], ◌++◌, length, take, OnOk, IsOkUnless, flat_map};
ghost use Rattle.std.specs.Io.KnownBytes.{Appends, append_known};
ghost use Rattle.langtag_show.specs.Lines.{ended};
ghost use Rattle.langtag_show.specs.declared.page.TheConstants.{PAGE_LEN};

use crate::show_error::ShowError;
use std::io::Write;
use std::marker::Model;

/// The length of a page in bytes, which holds about two hundred answers to ordinary tags.
const PAGE_LEN: usize = 16_384;

/// A buffer for answers that are not written yet, so that one write is enough for many lines.
///
/// It does not allocate. It is written out before the next read, so no answer waits for input. An answer longer than
/// a page takes several writes, but is written completely and in order.
#[derive(Drop)]
pub(crate) struct Page {
    bytes: [u8; PAGE_LEN],
    len: usize,
}

impl Model for Page {
    ghost Value = { List ℕ };

    ghost view = { λ page. take page.len page.bytes };

    ghost invariant = { λ page. page.len ≤ PAGE_LEN };
}

impl Page {
    /// Returns an empty page.
    pub(crate) fn new() -> Page
        ensures { result ≡ [] }
    {
        Page {
            bytes: [0; PAGE_LEN],
            len: 0,
        }
    }

    /// Adds the pieces of an answer, and the LF that ends it.
    ///
    /// # Errors
    ///
    /// Returns `Write` if the page is full and writing it fails.
    pub(crate) fn put_line<W: Write>(
        &mut self,
        pieces: &[&str],
        output: &mut W,
    ) -> Result<(), ShowError>
        ensures ok { OnOk result (Appends (append_known (W.contents output.old) self.old)
            (append_known (W.contents output.new) self.new) (ended (flat_map (λ piece. piece.now) pieces.now))) }
        ensures err { IsOkUnless result ShowError.Write }
    {
        for piece in pieces {
            self.put(piece, output)?;
        }
        self.put("\n", output)
    }

    /// Adds the next piece of an answer. If the piece does not fit, the page is written out first. A piece longer than
    /// a page is then written directly.
    pub(crate) fn put<W: Write>(&mut self, piece: &str, output: &mut W) -> Result<(), ShowError>
        ensures ok { OnOk result (Appends (append_known (W.contents output.old) self.old)
            (append_known (W.contents output.new) self.new) piece.now) }
        ensures err { IsOkUnless result ShowError.Write }
    {
        if piece.len() <= PAGE_LEN - self.len {
            self.add(piece.as_bytes());
            return Ok(());
        }
        self.put_on_next_page(piece, output)
    }

    /// Writes the page out, and then adds a piece. It is not inlined, so that pieces that fit are added fast.
    #[inline(never)]
    fn put_on_next_page<W: Write>(&mut self, piece: &str, output: &mut W) -> Result<(), ShowError>
        ensures ok { OnOk result (Appends (append_known (W.contents output.old) self.old)
            (append_known (W.contents output.new) self.new) piece.now) }
        ensures err { IsOkUnless result ShowError.Write }
    {
        self.write_out(output)?;
        if piece.len() <= PAGE_LEN {
            self.add(piece.as_bytes());
            return Ok(());
        }
        output
            .write_all(piece.as_bytes())
            .map_err(|_| ShowError::Write)
    }

    /// Adds bytes that fit on the page.
    fn add(&mut self, bytes: &[u8])
        requires { length self.old + length bytes.now ≤ PAGE_LEN }
        ensures { self.new ≡ self.old ++ bytes.now }
    {
        let end = self.len + bytes.len();
        self.bytes[self.len..end].copy_from_slice(bytes);
        self.len = end;
    }

    /// Writes the page out, and empties it.
    pub(crate) fn write_out<W: Write>(&mut self, output: &mut W) -> Result<(), ShowError>
        ensures ok { OnOk result (Appends (W.contents output.old) (W.contents output.new) self.old) }
        ensures empty { OnOk result (self.new ≡ []) }
        ensures err { IsOkUnless result ShowError.Write }
    {
        output
            .write_all(&self.bytes[..self.len])
            .map_err(|_| ShowError::Write)?;
        self.len = 0;
        Ok(())
    }
}
