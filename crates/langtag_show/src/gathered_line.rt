//! A line that is collected from several reads.
ghost use Rattle.std.specs.Prelude.{◌≡◌, ⊤, ℕ, List, [], ◌++◌, OnOk, OnErr};

use std::alloc::AllocError;

/// The bytes of a line that were read so far. A `Vec` may refuse to grow at any time. As a trait says when bytes may be
/// refused, a contract over it says that a run ends for want of memory at no other time.
pub(crate) trait GatheredLine {
    /// The bytes that were added since the line was last cleared.
    ghost bytes: { Self → List ℕ };

    /// Says whether more bytes may be refused, after the bytes that the line has.
    ghost refuses: { List ℕ → List ℕ → Type 0 };

    /// Returns all bytes of the line.
    fn as_bytes(&self) -> &[u8]
        ensures { result.now ≡ bytes self.now };

    /// Adds bytes at the end.
    ///
    /// # Errors
    ///
    /// Returns an error if there is no room for the bytes. The run then ends, and does not use the line again.
    fn extend(&mut self, more: &[u8]) -> Result<(), AllocError>
        ensures added { OnOk result (bytes self.new ≡ bytes self.old ++ more.now) }
        ensures refused { OnErr result (refuses (bytes self.old) more.now) };

    /// Removes all bytes.
    fn clear(&mut self)
        ensures { bytes self.new ≡ [] };
}

impl GatheredLine for Vec<u8> {
    ghost bytes = { λ line. line.items };

    ghost refuses = { λ held more. ⊤ };

    fn as_bytes(&self) -> &[u8] {
        self.as_slice()
    }

    fn extend(&mut self, more: &[u8]) -> Result<(), AllocError> {
        self.extend_from_slice(more)
    }

    fn clear(&mut self) {
        self.clear();
    }
}
