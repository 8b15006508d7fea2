//! Where a part of a string is.
ghost use Rattle.std.specs.Prelude.{◌≡◌, ◌≤◌, ◌+◌, ◌-◌, ◌<◌, ◌^◌, MatchOption};
ghost use Rattle.langtag_c.specs.Spans.{HasBytes, end_of, span_between, span_text};

/// A span of a string: the offset of its first byte, and its number of bytes. An absent part has no bytes.
#[repr(C)]
#[derive(Clone, Copy)]
pub struct Span {
    pub start: usize,
    pub len: usize,
}

impl Span {
    /// Returns the span between the end of one part and the end of the next, without the hyphen.
    pub(crate) fn between(before: usize, end: usize) -> Span
        ensures span { before ≤ end → result ≡ span_between before end }
        ensures begins { before ≤ end → before ≤ result.start }
        ensures ends { before ≤ end → end_of result ≡ end }
    {
        // If the part is absent, `before` equals `end`, and taking `before` saves a comparison. No caller has a greater `before`, so nothing wraps.
        let start = if before < end { before + 1 } else { before };
        Span {
            start,
            len: end.wrapping_sub(start),
        }
    }

    /// Returns the bytes, if there are any and they are within the string.
    pub(crate) fn of<'a>(&self, text: &'a [u8]) -> Option<&'a [u8]>
        ensures { MatchOption result (HasBytes text.now self.now → ⊥)
            (λ bytes. HasBytes text.now self.now × (bytes.now ≡ span_text text.now self.now)) }
    {
        if self.len == 0 {
            return None;
        }
        let end = self.start.checked_add(self.len)?;
        text.get(self.start..end)
    }

    /// Removes a number of bytes from the start, and the hyphen after them.
    pub(crate) fn take_first(&mut self, len: usize) -> Span
        requires few { len ≤ self.old.len }
        requires within { end_of self.old < 2 ^ 64 }
        ensures first { result ≡ record { start = self.old.start; len = len } }
        ensures rest { self.new ≡ span_between (self.old.start + len) (end_of self.old) }
        ensures begins { self.old.start + len ≤ self.new.start }
        ensures ends { end_of self.new ≡ end_of self.old }
    {
        let first = Span {
            start: self.start,
            len,
        };
        *self = Span::between(self.start + len, self.start + self.len);
        first
    }

    /// Returns the rest of the span after a singleton and a hyphen.
    pub(crate) fn without_singleton(&self) -> Span
        requires within { end_of self.now < 2 ^ 64 }
        requires some { 2 ≤ self.now.len }
        ensures { result ≡ record { start = self.now.start + 2; len = self.now.len - 2 } }
    {
        Span {
            start: self.start + 2,
            len: self.len - 2,
        }
    }
}
