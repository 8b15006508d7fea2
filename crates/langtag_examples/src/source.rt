//! A source of a program's own: bytes in two pieces, such as those of a ring buffer.
ghost use Rattle.std.specs.Prelude.{◌≡◌, ◌++◌, ◌≤◌, ◌↔◌, IsTrue, length};
ghost use Rattle.langtag_scan.specs.Grammar.{IsTag};

use langtag_scan::{ByteSource, recognise};

/// Bytes in two pieces, which are read as one string.
#[derive(Drop)]
pub struct Pieces<'a> {
    first: &'a [u8],
    second: &'a [u8],
    reads: u128,
    reach: usize,
    ghost reached: { reach ≤ length (first.now ++ second.now) },
}

impl<'a> Pieces<'a> {
    /// Returns a source that was not read.
    pub fn new(first: &'a [u8], second: &'a [u8]) -> Self
        ensures bytes { ⟦<Pieces<'a> as ByteSource>⟧.bytes result ≡ first.now ++ second.now }
        ensures unread { ⟦<Pieces<'a> as ByteSource>⟧.reads result ≡ 0 }
    {
        Pieces {
            first,
            second,
            reads: 0,
            reach: 0,
        }
    }
}

impl<'a> ByteSource for Pieces<'a> {
    ghost bytes = { λ source. source.first.now ++ source.second.now };

    ghost reads = { λ source. source.reads };

    ghost reach = { λ source. source.reach };

    fn len(&self) -> usize {
        self.first.len() + self.second.len()
    }

    fn reads(&self) -> u128 {
        self.reads
    }

    fn reach(&self) -> usize {
        self.reach
    }

    fn byte(&mut self, index: usize) -> u8 {
        self.reads += 1;
        if self.reach <= index {
            self.reach = index + 1;
        }
        if index < self.first.len() {
            return self.first[index];
        }
        self.second[index - self.first.len()]
    }

    ghost reach_within = { λ source. source.reached };
}

/// Returns whether two pieces together are a tag, such as `zh-H` and `ant`. They are not copied.
pub fn are_tag(first: &[u8], second: &[u8]) -> bool
    ensures { IsTrue result ↔ IsTag (first.now ++ second.now) }
{
    recognise(&mut Pieces::new(first, second)).is_some()
}
