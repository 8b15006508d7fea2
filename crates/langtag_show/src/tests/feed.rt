//! A reader for the tests, which does not allocate.
use std::cell::Cell;
use std::io;
use std::io::{ErrorKind, Read};

/// A string, then a second string that is repeated, and then a last text.
#[derive(Clone, Copy)]
pub(crate) struct Text<'a> {
    rest: &'a [u8],
    again: &'a [u8],
    rounds: u64,
    last: &'a [u8],
}

impl<'a> Text<'a> {
    pub(crate) fn new(rest: &'a [u8], again: &'a [u8], rounds: u64, last: &'a [u8]) -> Text<'a> {
        Text {
            rest,
            again,
            rounds,
            last,
        }
    }

    /// Returns at most `most` of the next bytes. They are empty only at the end.
    pub(crate) fn next_bytes(&mut self, most: usize) -> &'a [u8] {
        if self.rest.is_empty() {
            if self.rounds > 0 {
                self.rounds -= 1;
                self.rest = self.again;
            } else {
                self.rest = self.last;
                self.last = b"";
            }
        }
        let n = most.min(self.rest.len());
        let (bytes, rest) = self.rest.split_at(n);
        self.rest = rest;
        bytes
    }
}

/// A reader that returns a string, at most `step` bytes for each read, and may fail at one read. It also records
/// whether the answer to a complete line was missing when a read began, which must not happen.
#[derive(Clone, Copy)]
pub(crate) struct Feed<'a> {
    text: Text<'a>,
    step: usize,
    fails_at: Option<(u64, ErrorKind)>,
    owed: &'a Cell<u64>,
    pub(crate) reads: u64,
    /// The number of reads that returned 0.
    pub(crate) ends: u64,
    /// Whether the answer to a complete line was missing when a read began.
    pub(crate) is_late: bool,
}

impl<'a> Feed<'a> {
    pub(crate) fn new(
        text: Text<'a>,
        step: usize,
        fails_at: Option<(u64, ErrorKind)>,
        owed: &'a Cell<u64>,
    ) -> Feed<'a> {
        Feed {
            text,
            step,
            fails_at,
            owed,
            reads: 0,
            ends: 0,
            is_late: false,
        }
    }
}

impl Read for Feed<'_> {
    fn read(&mut self, buf: &mut [u8]) -> io::Result<usize> {
        self.reads = self.reads.saturating_add(1);
        self.is_late |= self.owed.get() > 0;
        if let Some((read, kind)) = self.fails_at
            && self.reads == read
        {
            return Err(io::Error::from(kind));
        }
        let bytes = self.text.next_bytes(buf.len().min(self.step));
        let n = bytes.len().min(buf.len());
        buf[..n].copy_from_slice(&bytes[..n]);
        self.ends = self.ends.saturating_add(u64::from(n == 0));
        self.owed.set(line_feeds(bytes));
        Ok(n)
    }
}

pub(crate) fn line_feeds(text: &[u8]) -> u64 {
    text.iter().filter(|byte| **byte == b'\n').count() as u64
}
