//! Bytes, with a count of the reads.
ghost use Rattle.std.specs.Prelude.{◌≡◌, ◌≤◌, ◌++◌, length};

use crate::source::ByteSource;

/// A byte source that counts its reads. Tests use it to see how far [`recognise`](crate::recognise) reads. Its bytes
/// can be read only through [`ByteSource`].
///
/// ```
/// use langtag_scan::{ByteSource, Metered, recognise};
///
/// let mut source = Metered::new("i-notexist");
/// recognise(&mut source).is_none(); // true
/// source.reads(); // 4
/// ```
#[derive(Drop)]
pub struct Metered<'a> {
    bytes: &'a [u8],
    /// At most one byte, which follows `bytes`.
    end: &'static [u8],
    reads: u128,
    reach: usize,
    ghost short: { length end.now ≤ 1 },
    ghost reached: { reach ≤ length (bytes.now ++ end.now) },
}

impl<'a> Metered<'a> {
    /// Returns a source over the bytes of a string, with no reads yet.
    ///
    /// ```
    /// use langtag_scan::{ByteSource, Metered};
    ///
    /// Metered::new("fr").reads(); // 0
    /// ```
    pub fn new(text: &'a str) -> Self
        ensures bytes { ⟦<Metered<'a> as ByteSource>⟧.bytes result ≡ text.now }
        ensures reads { ⟦<Metered<'a> as ByteSource>⟧.reads result ≡ 0 }
        ensures reach { ⟦<Metered<'a> as ByteSource>⟧.reach result ≡ 0 }
    {
        Metered::of_bytes(text.as_bytes())
    }

    /// Returns a source over bytes, which need not be UTF-8, with no reads yet.
    ///
    /// ```
    /// use langtag_scan::{ByteSource, Metered};
    ///
    /// Metered::of_bytes(b"fr\xFF").len(); // 3
    /// ```
    pub fn of_bytes(bytes: &'a [u8]) -> Self
        ensures bytes { ⟦<Metered<'a> as ByteSource>⟧.bytes result ≡ bytes.now }
        ensures reads { ⟦<Metered<'a> as ByteSource>⟧.reads result ≡ 0 }
        ensures reach { ⟦<Metered<'a> as ByteSource>⟧.reach result ≡ 0 }
    {
        Metered::followed(bytes, b"")
    }

    /// Returns a source over `bytes` followed by `end`, with no reads yet.
    pub(crate) fn followed(bytes: &'a [u8], end: &'static [u8]) -> Self
        requires { length end.now ≤ 1 }
        ensures bytes { ⟦<Metered<'a> as ByteSource>⟧.bytes result ≡ bytes.now ++ end.now }
        ensures reads { ⟦<Metered<'a> as ByteSource>⟧.reads result ≡ 0 }
        ensures reach { ⟦<Metered<'a> as ByteSource>⟧.reach result ≡ 0 }
    {
        Metered {
            bytes,
            end,
            reads: 0,
            reach: 0,
        }
    }
}

impl<'a> ByteSource for Metered<'a> {
    ghost bytes = { λ s. s.bytes.now ++ s.end.now };

    ghost reads = { λ s. s.reads };

    ghost reach = { λ s. s.reach };

    fn len(&self) -> usize {
        self.bytes.len() + self.end.len()
    }

    fn reads(&self) -> u128 {
        self.reads
    }

    fn reach(&self) -> usize {
        self.reach
    }

    fn byte(&mut self, index: usize) -> u8 {
        self.reads += 1;
        if self.reach <= index {
            self.reach = index + 1;
        }
        if index < self.bytes.len() {
            self.bytes[index]
        } else {
            self.end[index - self.bytes.len()]
        }
    }

    ghost reach_within = { λ source. source.reached };
}
