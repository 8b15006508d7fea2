//! Answers each line of standard input: whether it is a language tag (RFC 5646), of which kind, and with which parts.
//!
//! A line ends at LF. A last line without LF is answered if it is not empty. CR is an ordinary byte. There are four
//! answers, one for each kind of tag (section 2.1) and one for a line that is not a tag:
//!
//! - `normal language=L script=S region=R variants=V extensions=E private=P repeats=Q`, where an absent part is empty, and
//!   Q is `yes` if a variant or a singleton occurs twice in the tag (section 2.2.9), and `no` otherwise;
//! - `private` and the tag;
//! - `irregular` and the tag in its registered spelling;
//! - `refused` for a line that is not a tag or not UTF-8.
//!
//! If a read, a write or an allocation fails, the program prints a message to standard error and exits with a status
//! other than 0.
#![tactic(auto)]

mod answer;
mod gathered_line;
mod outcome;
mod page;
mod run;
mod show_error;
#[cfg(test)]
mod tests;

use crate::outcome::conclude;
pub use crate::run::run;
pub use crate::show_error::ShowError;
use std::io;
use std::process::ExitCode;

fn main(rt: HostRuntime) -> ExitCode {
    let ended = run(rt.alloc(), &mut rt.stdin(), &mut io::writer(&rt));
    conclude(ended, &mut rt.stderr())
}
