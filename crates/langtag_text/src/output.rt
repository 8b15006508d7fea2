//! A string that is written into the caller's buffer subtag by subtag.
ghost use Rattle.std.specs.Prelude.{◌≡◌, ◌∷◌, []};
ghost use Rattle.langtag_text.specs.Output.{Appends, Pushes, HasText};

/// A buffer, and the length of the string so far. Bytes that do not fit are counted, but not written.
#[derive(Drop)]
pub struct Output<'a> {
    buffer: &'a mut [u8],
    len: usize,
}

impl<'a> Output<'a> {
    /// Returns an empty output, which writes from the start of a buffer.
    pub fn new(buffer: &'a mut [u8]) -> Output<'a>
        ensures { HasText buffer.entry result [] }
    {
        Output { buffer, len: 0 }
    }

    /// Returns the length of the string so far, in bytes.
    pub fn len(&self) -> usize
        ensures { result ≡ self.now.len }
    {
        self.len
    }

    /// Appends a subtag, or several subtags joined by hyphens. A hyphen comes first, unless the string is still empty.
    pub fn push_subtag(&mut self, subtag: &[u8])
        ensures { Pushes (subtag.now ∷ []) self.old self.new }
    {
        if self.len > 0 {
            self.push(b"-");
        }
        self.push(subtag);
    }

    /// Appends bytes. The length stays at `usize::MAX` if the string has more bytes than that.
    pub fn push(&mut self, bytes: &[u8])
        ensures { Appends bytes.now self.old self.new }
    {
        let end = self.len.saturating_add(bytes.len());
        if end <= self.buffer.len() {
            self.buffer[self.len..end].copy_from_slice(bytes);
        }
        self.len = end;
    }
}
