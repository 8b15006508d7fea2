//! The message and the exit status after a run.
ghost use Rattle.std.specs.Prelude.{◌≡◌, ℕ, ◌≤◌, length, take, IsTrue, OnOk, IfErr};
ghost use Rattle.std.specs.Io.KnownBytes.{Appends, Keeps};
ghost use Rattle.std.specs.Process.{exit_status};
ghost use Rattle.langtag_show.specs.ShowError.{WritesFrontOfMessage, status_after};

use crate::show_error::ShowError;
use std::io::{ErrorKind, Write};
use std::process::ExitCode;

/// Writes the error that ended a run, if there was one, to standard error, and returns the exit status.
///
/// An interrupted write is tried again. It stops at the first write that fails or accepts nothing. The status still shows
/// the error.
#[tactic(auto, using(crate::proofs::Written::front_of_line, crate::proofs::Written::line_with_front_of_end))]
pub fn conclude<W: Write>(outcome: Result<(), ShowError>, errors: &mut W) -> ExitCode
    ensures status { exit_status result ≡ status_after outcome }
    ensures quiet { OnOk outcome (Keeps (W.contents errors.old) (W.contents errors.new)) }
    ensures words { IfErr outcome (WritesFrontOfMessage (W.contents errors.old) (W.contents errors.new)) }
{
    match outcome {
        Ok(()) => ExitCode::SUCCESS,
        Err(error) => {
            if write_front(error.text().as_bytes(), errors) {
                write_front(b"\n", errors);
            }
            ExitCode::from(error.status())
        }
    }
}

/// Writes bytes until a write fails or accepts nothing, and tries an interrupted write again. Returns whether all bytes
/// are written. The contract of `write_all` does not say what is written before an error.
fn write_front<W: Write>(bytes: &[u8], writer: &mut W) -> bool
    ensures front { (k : ℕ) × (k ≤ length bytes.now) × Appends (W.contents writer.old) (W.contents writer.new)
        (take k bytes.now) }
    ensures whole { IsTrue result → Appends (W.contents writer.old) (W.contents writer.new) bytes.now }
{
    let mut count = 0;
    // A writer whose every write is interrupted would keep a loop without a limit from ending.
    for _turn in 0..usize::MAX {
        if count == bytes.len() {
            return true;
        }
        match writer.write(&bytes[count..]) {
            Ok(0) => return false,
            Ok(more) => count += more,
            Err(error) if error.kind() == ErrorKind::Interrupted => {}
            Err(_) => return false,
        }
    }
    false
}
