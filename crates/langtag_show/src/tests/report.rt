//! Tests of `run`, in memory and over readers, writers and memory that fail, and of how the program ends.
use crate::outcome::conclude;
use crate::tests::feed::{Feed, Text};
use crate::tests::sheet::{Fault, Sheet};
use crate::{ShowError, run};
use std::alloc::{AllocError, Global};
use std::cell::Cell;
use std::io::ErrorKind;
use std::process::{Abort, ExitCode};

/// Fails the test if a condition does not hold for a case. A number names the case, such as the length of its text.
///
/// It replaces `assert!`. With `assert!`, each use would have to be proved safe separately, which takes ten times as
/// long as the proof of a call.
fn expect_true(rt: &impl Abort, holds: bool, case: usize) {
    assert!(rt; holds, "of {case}");
}

/// The input and the expected output of a run. The input has a string, the greatest number of bytes for a read, and the
/// number of the read that fails. The output has the answers and the fault of the writer.
#[derive(Clone, Copy)]
struct Given<'a> {
    text: Text<'a>,
    step: usize,
    failing_read: Option<(u64, ErrorKind)>,
    answers: Text<'a>,
    fault: Fault,
}

impl<'a> Given<'a> {
    fn new(text: &'a [u8], step: usize, answers: &'a [u8]) -> Given<'a> {
        Given::of(all(text), step, all(answers))
    }

    fn of(text: Text<'a>, step: usize, answers: Text<'a>) -> Given<'a> {
        Given {
            text,
            step,
            failing_read: None,
            answers,
            fault: Fault::None,
        }
    }
}

fn all<'a>(text: &'a [u8]) -> Text<'a> {
    Text::new(text, b"", 0, b"")
}

/// How a run ended, and how many reads, reads at the end, writes and flushes it made.
#[derive(Clone, Copy)]
struct Ended {
    outcome: Result<(), ShowError>,
    reads: u64,
    ends: u64,
    writes: u64,
    flushes: u64,
    /// Whether the whole expected output was written.
    has_all: bool,
}

impl Ended {
    /// Returns whether the run ended with this outcome, and the whole expected output was written.
    fn is(&self, outcome: Result<(), ShowError>) -> bool {
        self.outcome == outcome && self.has_all
    }

    /// Returns also whether it made this many flushes, and read the end of the input once unless it failed.
    fn is_after(&self, outcome: Result<(), ShowError>, flushes: u64) -> bool {
        self.is(outcome) && self.flushes == flushes && (self.ends == 1 || outcome.is_err())
    }
}

/// Makes a run. If allocation fails, the output must consist of whole answers, and the run is made again. When a read
/// begins, no answer to a complete line may be missing.
fn ran(rt: &impl Abort, alloc: Global, given: Given<'_>) -> Ended {
    let (mut ended, mut are_whole) = run_once(rt, alloc, given);
    if ended.outcome == Err(ShowError::Memory) {
        expect_true(rt, are_whole, given.step);
        (ended, are_whole) = run_once(rt, alloc, given);
    }
    ended
}

fn run_once(rt: &impl Abort, alloc: Global, given: Given<'_>) -> (Ended, bool) {
    let owed = Cell::new(0);
    let mut input = Feed::new(given.text, given.step, given.failing_read, &owed);
    let mut output = Sheet::new(given.answers, given.fault, &owed);
    let outcome = run(alloc, &mut input, &mut output);
    expect_true(rt, !input.is_late, given.step);
    let ended = Ended {
        outcome,
        reads: input.reads,
        ends: input.ends,
        writes: output.writes,
        flushes: output.flushes,
        has_all: output.has_all(),
    };
    (ended, output.has_whole_answers())
}

const FR: &[u8] = b"normal language=fr script= region= variants= extensions= private= repeats=no\n";

const FR_AND_PRIVATE: &[u8] =
    b"normal language=fr script= region= variants= extensions= private= repeats=no\nprivate x-a\n";

const THREE: &[u8] =
    b"normal language=fr script= region= variants= extensions= private= repeats=no\nprivate x-a\nnormal language=en script= region= variants= extensions= private= repeats=no\n";

/// A run: the string, the greatest number of bytes for a read, the fault of the writer, the answers, and the numbers of
/// writes and flushes.
type Run = (&'static [u8], usize, Fault, &'static [u8], u64, u64);

/// Strings with each kind of line, and the answers.
const ANSWERED: &[(&[u8], &[u8])] = &[
    (b"", b""),
    (b"\n", b"refused\n"),
    (b"\n\n", b"refused\nrefused\n"),
    (b"fr\r\n", b"refused\n"),
    (b"\xff\n", b"refused\n"),
    (
        b"fr\0\nfr",
        b"refused\nnormal language=fr script= region= variants= extensions= private= repeats=no\n",
    ),
    (
        b"fr-FR\nde-CH-1996\n",
        b"normal language=fr script= region=FR variants= extensions= private= repeats=no\nnormal language=de script= region=CH variants=1996 extensions= private= repeats=no\n",
    ),
    (
        b"fr-FR\n\nde-CH-1996",
        b"normal language=fr script= region=FR variants= extensions= private= repeats=no\nrefused\nnormal language=de script= region=CH variants=1996 extensions= private= repeats=no\n",
    ),
    (
        b"fr\n\xff\nx-A\ni-AMI",
        b"normal language=fr script= region= variants= extensions= private= repeats=no\nrefused\nprivate x-A\nirregular i-ami\n",
    ),
    (
        b"fr-FR\n\nx-a\ni-ami\nde-CH-1996-1996",
        b"normal language=fr script= region=FR variants= extensions= private= repeats=no\nrefused\nprivate x-a\nirregular i-ami\nnormal language=de script= region=CH variants=1996-1996 extensions= private= repeats=yes\n",
    ),
    (
        b"zh-min-nan-Hant-TW-rozaj-a-bb-u-co-x-y\nfr-a-bb-A-cc\nzh-hakka\nzh_Hant\n",
        b"normal language=zh-min-nan script=Hant region=TW variants=rozaj extensions=a-bb-u-co private=x-y repeats=no\nnormal language=fr script= region= variants= extensions=a-bb-A-cc private= repeats=yes\nnormal language=zh script= region= variants=hakka extensions= private= repeats=no\nrefused\n",
    ),
];

#[test]
fn lines_are_answered_whatever_a_read_returns(rt: HostRuntime) {
    for (text, answers) in ANSWERED {
        for step in [1, 2, 3, 100] {
            let ended = ran(&rt, rt.alloc(), Given::new(text, step, answers));
            expect_true(&rt, ended.is_after(Ok(()), 1), text.len());
        }
    }
}

/// A string, the greatest number of bytes for a read, the number of the read that fails, and the answers.
const FAILING_READS: &[(&[u8], usize, u64, &[u8])] = &[
    (b"fr\nx-", 8, 2, FR),
    (b"fr\n", 3, 1, b""),
    (b"fr\n", 3, 2, FR),
    (b"x-a\nen", 6, 2, b"private x-a\n"),
    (b"x-a\nen\n", 4, 2, b"private x-a\n"),
    (b"fr\nx-a\nfr\nx-a\nen-x", 7, 2, FR_AND_PRIVATE),
];

#[test]
fn a_read_that_fails_ends_the_run(rt: HostRuntime) {
    for (text, step, read, answers) in FAILING_READS {
        for kind in [ErrorKind::Other, ErrorKind::Interrupted] {
            let mut given = Given::new(text, *step, answers);
            given.failing_read = Some((*read, kind));
            let ended = ran(&rt, rt.alloc(), given);
            let is_ended = ended.is_after(Err(ShowError::Read), 0);
            expect_true(&rt, is_ended && ended.reads == *read, text.len());
        }
    }
}

const FIRST_FAILS: Fault = Fault::Write(1, ErrorKind::Other);

const SECOND_FAILS: Fault = Fault::Write(2, ErrorKind::Other);

const INTERRUPTED: Fault = Fault::Write(1, ErrorKind::Interrupted);

/// Runs that a write, or the flush, ends.
const FAILING_WRITES: &[Run] = &[
    (b"fr\n", 3, FIRST_FAILS, b"", 1, 0),
    (b"fr\n", 3, Fault::None, b"", 1, 0),
    (b"fr\n", 3, Fault::Flush, FR, 1, 1),
    (b"fr\nx-a\nen", 3, SECOND_FAILS, FR, 2, 0),
    (b"fr\nx-a\nen", 9, SECOND_FAILS, FR_AND_PRIVATE, 2, 0),
    (&[b'\n'; 5_000], 5000, FIRST_FAILS, b"", 1, 0),
];

/// Runs that succeed. There is one write for the lines of a read, one more for a last line without LF, and one more if a
/// write is interrupted.
const WRITES: &[Run] = &[
    (b"fr\n", 3, INTERRUPTED, FR, 2, 1),
    (b"", 100, Fault::None, b"", 0, 1),
    (b"fr", 1, Fault::None, FR, 1, 1),
    (b"fr\nx-a\nen\n", 100, Fault::None, THREE, 1, 1),
    (b"fr\nx-a\nen", 100, Fault::None, THREE, 2, 1),
    (b"fr\nx-a\nen\n", 7, Fault::None, THREE, 2, 1),
    (b"fr\nx-a\nen\n", 1, Fault::None, THREE, 3, 1),
    (&[b'-'; 20_000], 16384, Fault::None, b"refused\n", 1, 1),
    (&[255; 40_000], 40_000, Fault::None, b"refused\n", 1, 1),
];

#[test]
fn each_run_ends_as_its_writes_do(rt: HostRuntime) {
    for (runs, outcome) in [(FAILING_WRITES, Err(ShowError::Write)), (WRITES, Ok(()))] {
        for (text, step, fault, answers, writes, flushes) in runs {
            let mut given = Given::new(text, *step, answers);
            given.fault = *fault;
            let ended = ran(&rt, rt.alloc(), given);
            let is_ended = ended.is_after(outcome, *flushes);
            expect_true(&rt, is_ended && ended.writes == *writes, text.len());
        }
    }
}

// A read returns at most 16,384 bytes. So 40,000 bytes take three reads, and one more read finds the end.
#[test]
fn a_read_is_of_one_page(rt: HostRuntime) {
    let given = Given::new(&[255; 40_000], 40_000, b"refused\n");
    expect_true(&rt, ran(&rt, rt.alloc(), given).reads == 4, 40_000);
}

/// Returns the answer to a tag for private use of this many bytes, at least three.
fn private_answer(alloc: Global, len: usize) -> Result<String, AllocError> {
    let mut answer = "-a".repeat(alloc, len.saturating_sub(3) / 2)?;
    answer.insert_str(0, "private x")?;
    answer.push_str(if len % 2 == 0 { "-aa\n" } else { "-a\n" })?;
    Ok(answer)
}

/// Returns the same, and makes it again if allocation failed.
fn private_answer_again(rt: &impl Abort, alloc: Global, len: usize) -> String {
    match private_answer(alloc, len) {
        Ok(answer) => answer,
        Err(_) => private_answer(alloc, len)
            .ok()
            .expect(rt, "memory was refused twice"),
    }
}

/// The length of a tag for private use, and the number of writes. The answers fill a page to its last byte, or go
/// over its end: by the LF, by the string, or by a string that is longer than a page.
const PAGES: [(usize, u64); 4] = [(16_375, 1), (16_376, 2), (16_377, 2), (20_000, 3)];

#[test]
fn a_page_is_filled_to_its_last_byte(rt: HostRuntime) {
    for (len, writes) in PAGES {
        let answer = private_answer_again(&rt, rt.alloc(), len);
        let answer = answer.as_str().as_bytes();
        let tag = answer.get(8..len.saturating_add(8)).unwrap_or(&[]);
        let ended = ran(&rt, rt.alloc(), Given::new(tag, 16_384, answer));
        expect_true(&rt, ended.is(Ok(())) && ended.writes == writes, len);
    }
}

#[test]
fn a_last_line_of_each_length_is_flushed_once(rt: HostRuntime) {
    let bytes = [b'-'; 600];
    for len in 0..=600 {
        let line = bytes.get(..len).unwrap_or(&[]);
        let answers: &[u8] = if len > 0 { b"refused\n" } else { b"" };
        let ended = ran(&rt, rt.alloc(), Given::new(line, 100, answers));
        let is_flushed = ended.flushes == 1 && ended.writes == u64::from(len > 0);
        expect_true(&rt, ended.is(Ok(())) && is_flushed, len);
    }
}

const LINES: &[u8] = b"fr\n\nx-a\ni-ami\n";

const ANSWERS: &[u8] =
    b"normal language=fr script= region= variants= extensions= private= repeats=no\nrefused\nprivate x-a\nirregular i-ami\n";

const LONG_LINE: &[u8] = b"--------------------------------------------------\n";

/// Lines and how often they are repeated, the greatest number of bytes for a read, and answers and how often they are
/// repeated.
const MANY_LINES: &[(&[u8], u64, usize, &[u8], u64)] = &[
    (LINES, 1, 100, ANSWERS, 1),
    (LINES, 10, 2, ANSWERS, 10),
    (LINES, 10, 5, ANSWERS, 10),
    (LONG_LINE, 40, 1, b"refused\n", 40),
    (&[b'\n'; 2_000], 1, 2_000, b"refused\n", 2_000),
];

// Before each read, the answers to all earlier lines are written. One row makes two thousand reads of one byte each.
#[test]
fn answers_stand_before_the_next_read(rt: HostRuntime) {
    for (lines, rounds, step, answer, answers) in MANY_LINES {
        let text = Text::new(b"", lines, *rounds, b"");
        let given = Given::of(text, *step, Text::new(b"", answer, *answers, b""));
        let ended = ran(&rt, rt.alloc(), given);
        expect_true(&rt, ended.is(Ok(())), lines.len());
    }
}

// The input is 21,000 bytes of short lines. checks/refused refuses each block of more than 4,096 bytes.
#[test]
fn short_lines_are_gathered_one_by_one(rt: HostRuntime) {
    let text = Text::new(b"", LINES, 1_500, b"");
    let given = Given::of(text, 100, Text::new(b"", ANSWERS, 1_500, b""));
    let ended = ran(&rt, rt.alloc(), given);
    expect_true(&rt, ended.is(Ok(())), 1_500);
}

// A line that is wholly within one read needs no memory. checks/refused refuses all memory for these lines.
#[test]
fn lines_within_a_read_without_memory(rt: HostRuntime) {
    for text in [b"fr\nx-a\n".as_slice(), b"fr\nx-a\n\n"] {
        let mut given = Given::new(text, 100, FR_AND_PRIVATE);
        if text.len() > 7 {
            given.answers = Text::new(FR_AND_PRIVATE, b"", 0, b"refused\n");
        }
        let ended = ran(&rt, rt.alloc(), given);
        expect_true(&rt, ended.is(Ok(())), text.len());
    }
}

const A: &[u8] = b"-a-a-a-a-a-a-a-a-a-a-a-a-a-a-a-a-a-a-a-a";

/// An input: its start, a string, and how often that string follows. Then the report: its start, a string, how often
/// that text follows, and its end.
type Long<'a> = (&'a [u8], &'a [u8], u64, &'a [u8], &'a [u8], u64, &'a [u8]);

const LONG_LINES: &[Long<'static>] = &[
    (b"", &[b'a'; 20_000], 3, b"refused", b"", 0, b"\n"),
    (b"x", A, 500, b"private x", A, 500, b"\n"),
    (
        b"en-x",
        A,
        500,
        b"normal language=en script= region= variants= extensions= private=x",
        A,
        500,
        b" repeats=no\n",
    ),
    (b"", &[255; 10_000], 3, b"refused", b"", 0, b"\n"),
];

// Lines of 60,000 bytes and of 20,000 bytes, and a line that is not UTF-8. If the buffer cannot grow, exactly the
// answers before the long line are written, because they do not allocate.
#[test]
fn the_answers_before_a_long_line_stand(rt: HostRuntime) {
    for (first, again, rounds, start, part, parts, end) in LONG_LINES {
        let text = Text::new(first, again, *rounds, b"");
        let mut given = Given::of(text, 20_000, Text::new(start, part, *parts, end));
        let ended = ran(&rt, rt.alloc(), given);
        expect_true(&rt, ended.is(Ok(())), first.len());
        given.text = Text::new(LINES, again, *rounds, b"");
        given.answers = all(ANSWERS);
        let (ended, are_whole) = run_once(&rt, rt.alloc(), given);
        if ended.outcome == Err(ShowError::Memory) {
            expect_true(
                &rt,
                ended.has_all && are_whole && ended.writes == 1,
                first.len(),
            );
        }
    }
}

/// The outcome of a run, the message for it, the exit status of the program, and the debug text.
const OUTCOMES: [(Result<(), ShowError>, &[u8], u8, &str); 4] = [
    (Ok(()), b"", 0, "Ok(())"),
    (Err(ShowError::Memory), b"out of memory\n", 3, "Err(Memory)"),
    (Err(ShowError::Read), b"read failed\n", 4, "Err(Read)"),
    (Err(ShowError::Write), b"write failed\n", 5, "Err(Write)"),
];

/// Returns the debug text of an outcome, and makes it again if allocation failed.
fn debug_text(rt: &impl Abort, alloc: Global, outcome: Result<(), ShowError>) -> String {
    match format!(in alloc; "{outcome:?}") {
        Ok(text) => text,
        Err(_) => format!(in alloc; "{outcome:?}")
            .ok()
            .expect(rt, "memory was refused twice"),
    }
}

#[test]
fn each_outcome_is_said(rt: HostRuntime) {
    let owed = Cell::new(0);
    for (outcome, words, status, shown) in OUTCOMES {
        let mut errors = Sheet::new(all(words), Fault::None, &owed);
        let is_said = conclude(outcome, &mut errors) == ExitCode::from(status);
        let is_exact = errors.has_all() && !errors.is_past_end;
        expect_true(&rt, is_said && is_exact, words.len());
        let mut interrupted = Sheet::new(all(words), INTERRUPTED, &owed);
        let is_said = conclude(outcome, &mut interrupted) == ExitCode::from(status);
        let is_exact = interrupted.has_all() && !interrupted.is_past_end;
        expect_true(&rt, is_said && is_exact, words.len());
        let mut full = Sheet::new(all(b""), Fault::None, &owed);
        let is_said = conclude(outcome, &mut full) == ExitCode::from(status);
        expect_true(&rt, is_said, words.len());
        let debug = debug_text(&rt, rt.alloc(), outcome);
        expect_true(&rt, debug.as_str() == shown, words.len());
    }
}
