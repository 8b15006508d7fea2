//! A writer for the tests, which does not allocate.
use crate::tests::feed::{Text, line_feeds};
use std::cell::Cell;
use std::io;
use std::io::{ErrorKind, Write};

/// The fault of a writer, which happens once.
#[derive(Clone, Copy)]
pub(crate) enum Fault {
    None,
    /// A write fails.
    Write(u64, ErrorKind),
    /// The flush fails.
    Flush,
}

/// A writer that accepts exactly the expected answers. A write of any other byte fails and accepts nothing, and a write
/// past the end writes nothing.
#[derive(Clone, Copy)]
pub(crate) struct Sheet<'a> {
    wanted: Text<'a>,
    fault: Fault,
    owed: &'a Cell<u64>,
    last: u8,
    pub(crate) writes: u64,
    pub(crate) flushes: u64,
    /// Whether a write had more bytes than were expected.
    pub(crate) is_past_end: bool,
}

impl<'a> Sheet<'a> {
    pub(crate) fn new(wanted: Text<'a>, fault: Fault, owed: &'a Cell<u64>) -> Sheet<'a> {
        Sheet {
            wanted,
            fault,
            owed,
            last: b'\n',
            writes: 0,
            flushes: 0,
            is_past_end: false,
        }
    }

    /// Returns whether all expected answers were written.
    pub(crate) fn has_all(mut self) -> bool {
        self.wanted.next_bytes(1).is_empty()
    }

    /// Returns whether the output consists of whole answers and was not flushed.
    pub(crate) fn has_whole_answers(&self) -> bool {
        self.last == b'\n' && self.flushes == 0
    }
}

impl Write for Sheet<'_> {
    fn write(&mut self, buf: &[u8]) -> io::Result<usize> {
        self.writes = self.writes.saturating_add(1);
        if let Fault::Write(write, kind) = self.fault
            && self.writes == write
        {
            return Err(io::Error::from(kind));
        }
        let mut rest = self.wanted;
        let wanted = rest.next_bytes(buf.len());
        let n = wanted.len();
        if n > buf.len() || &buf[..n] != wanted {
            return Err(io::Error::from(ErrorKind::InvalidData));
        }
        self.wanted = rest;
        self.is_past_end |= n < buf.len() && self.has_all();
        if let Some(last) = wanted.last() {
            self.last = *last;
        }
        self.owed
            .set(self.owed.get().saturating_sub(line_feeds(wanted)));
        Ok(n)
    }

    fn flush(&mut self) -> io::Result<()> {
        self.flushes = self.flushes.saturating_add(1);
        if let Fault::Flush = self.fault {
            return Err(io::Error::from(ErrorKind::Other));
        }
        Ok(())
    }
}
