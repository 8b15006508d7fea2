//! The errors that end a run before it has answered its whole input.
ghost use Rattle.std.specs.Prelude.{◌≡◌, ◌↔◌, IsTrue};

/// An error that ended a run.
#[derive(Clone, Copy, Debug, PartialEq, Eq)]
pub enum ShowError {
    /// Allocation failed for a line. The answers to complete lines before this line are written: to
    /// all lines that ended before the last read, and to the first lines of that read.
    Memory,
    /// A read failed, or the input had not ended after 2^64 - 1 reads. The answers to all complete lines that were read
    /// are written.
    Read,
    /// A write or the flush failed. How much was written is not known.
    Write,
}

impl ShowError {
    ghost use Rattle.langtag_show.specs.ShowError.{message_of, status_of};
    ghost use Rattle.langtag_show.specs.declared.show_error.ShowError.{ShowError};

    /// Returns the string that the program writes to standard error, without the LF. Two values are equal if and only
    /// if they are the same error.
    pub fn text(&self) -> &'static str
        ensures message { result.now ≡ message_of self.now }

        ensures compared { (a b : ShowError) → IsTrue (⟦<ShowError as PartialEq>⟧.eq a b) ↔ (a ≡ b) }
        ensures cloned { (error copy : ShowError) → ⟦<ShowError as Clone>⟧.is_clone error copy → copy ≡ error }
        ensures clone_succeeds { (error : ShowError) → ⟦<ShowError as Clone>⟧.is_infallible error }
    {
        match self {
            ShowError::Memory => "out of memory",
            ShowError::Read => "read failed",
            ShowError::Write => "write failed",
        }
    }

    /// Returns the exit status of the program.
    pub fn status(&self) -> u8
        ensures { result ≡ status_of self.now }
    {
        match self {
            ShowError::Memory => 3,
            ShowError::Read => 4,
            ShowError::Write => 5,
        }
    }
}
