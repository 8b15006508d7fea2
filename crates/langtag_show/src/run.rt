//! A run: reads the input, and writes the answer to each line. The contract does not say when an error is returned, and
//! says nothing about the output after a `Write` error. After a `Memory` error, every line that was complete before the
//! last read has been answered. How many lines of the last read are answered is not specified. What the operating
//! system's standard input and output do is shown only by the stored runs and by checks/process.
ghost use Rattle.std.specs.Prelude.{◌≡◌, ◌≢◌, ⊤, ℕ, List, [], ◌∷◌, ◌++◌, OnOk, IfErr, IsErrOf, IsOkUnless, position};
ghost use Rattle.std.specs.Io.KnownBytes.{Appends, append_known};
ghost use Rattle.langtag_show.specs.Lines.{IsCutInto, NoLineFeed, is_line_feed, complete_lines, rest_of, last_line};
ghost use Rattle.langtag_show.specs.Report.{AreAnswers, AreWritten, HasRun, HasStopped};
ghost use Rattle.langtag_show.specs.ShowAnswer.{IsShowAnswer};

use crate::answer::put_answer;
use crate::gathered_line::GatheredLine;
use crate::page::Page;
use crate::show_error::ShowError;
use std::alloc::Global;
use std::io::{Read, Write};

/// The greatest number of bytes for a read.
const BUFFER_LEN: usize = 16_384;

const LINE_FEED: u8 = b'\n';

/// Writes the answer to each line of the input, each followed by LF, and flushes once at the end.
///
/// Answers are collected on a page, which is written when it is full and before the next read. The page and the buffer
/// for reads have fixed sizes. Memory is allocated only for a line that, with its LF, is not wholly within one read.
///
/// # Errors
///
/// Returns `Memory` if allocation fails for a line. Returns `Read` at the first error of the reader, which may be an
/// interruption, and if the input has not ended after 2^64 - 1 reads. Returns `Write` if `write_all` or the flush
/// fails.
pub fn run<R: Read, W: Write>(alloc: Global, input: &mut R, output: &mut W) -> Result<(), ShowError>
    ensures report { HasRun (λ held more. ⊤) result (R.remaining input.old) (R.remaining input.new)
        (W.contents output.old) (W.contents output.new) }

    ensures cut { (i : List ℕ) → IsCutInto i (complete_lines i) (rest_of i) }
    ensures one_cut { (i : List ℕ) (lines others : List (List ℕ)) (rest other : List ℕ) →
        IsCutInto i lines rest → IsCutInto i others other → (lines ≡ others) × (rest ≡ other) }
    ensures one_answer { (line text other : List ℕ) → IsShowAnswer line text → IsShowAnswer line other → text ≡ other }
    ensures one_report { (lines : List (List ℕ)) (texts others : List ℕ) →
        AreAnswers lines texts → AreAnswers lines others → texts ≡ others }
{
    run_in(Vec::new(alloc), input, output)
}

/// Does what [`run`] does, and collects a line that is not wholly within one read in the given `line`. Its contract says
/// for any such line that the run ends for want of memory only if the line refused bytes.
fn run_in<L: GatheredLine + Drop, R: Read, W: Write>(
    mut line: L,
    input: &mut R,
    output: &mut W,
) -> Result<(), ShowError>
    ensures report { HasRun L.refuses result (R.remaining input.old) (R.remaining input.new) (W.contents output.old)
        (W.contents output.new) }
{
    line.clear();
    let mut page = Page::new();
    let mut buffer = [0; BUFFER_LEN];
    for _ in 0..u64::MAX {
        let Ok(count) = input.read(&mut buffer) else {
            return Err(ShowError::Read);
        };
        if count == 0 {
            return finish(line.as_bytes(), &mut page, output);
        }
        take_bytes(&mut line, &buffer[..count], &mut page, output)?;
    }
    Err(ShowError::Read)
}

/// Adds bytes to the line that is being collected, and writes the answer to each line that they complete.
///
/// If it returns `Ok`, the page is empty again, so no answer waits for the next bytes.
fn take_bytes<L: GatheredLine, W: Write>(
    line: &mut L,
    bytes: &[u8],
    page: &mut Page,
    output: &mut W,
) -> Result<(), ShowError>
    requires free { NoLineFeed (L.bytes line.old) }
    requires written { page.old ≡ [] }
    ensures ok { OnOk result (AreWritten (W.contents output.old) (W.contents output.new)
        (complete_lines (L.bytes line.old ++ bytes.now))) }
    ensures rest { OnOk result (L.bytes line.new ≡ rest_of (L.bytes line.old ++ bytes.now)) }
    ensures empty { OnOk result (page.new ≡ []) }
    ensures memory { IsErrOf result ShowError.Memory →
        HasStopped L.refuses (W.contents output.old) (W.contents output.new)
        (L.bytes line.old) bytes.now }
    ensures other { IfErr result (λ e. e ≢ ShowError.Read) }
{
    let mut left = bytes;
    while let Some(len) = line_len(left) {
        end_line(line, &left[..len], page, output)?;
        left = &left[len + 1..];
    }
    gather(line, left, page, output)?;
    page.write_out(output)
}

/// Returns the number of bytes before the first LF, if there is one.
fn line_len(bytes: &[u8]) -> Option<usize>
    ensures { result ≡ position is_line_feed bytes.now }
{
    bytes.iter().position(|byte| *byte == LINE_FEED)
}

/// Ends the line that is being collected with these bytes, and adds its answer to the page. If the whole line is in
/// these bytes, it is not copied.
fn end_line<L: GatheredLine, W: Write>(
    line: &mut L,
    end: &[u8],
    page: &mut Page,
    output: &mut W,
) -> Result<(), ShowError>
    ensures ok { OnOk result (AreWritten (append_known (W.contents output.old) page.old) (append_known (W.contents output.new) page.new)
        ((L.bytes line.old ++ end.now) ∷ [])) }
    ensures cleared { OnOk result (L.bytes line.new ≡ []) }
    ensures memory { IsErrOf result ShowError.Memory → Appends (W.contents output.old) (W.contents output.new) page.old }
    ensures refused { IsErrOf result ShowError.Memory → L.refuses (L.bytes line.old) end.now }
    ensures other { IfErr result (λ e. e ≢ ShowError.Read) }
{
    if line.as_bytes().is_empty() {
        return put_answer(end, page, output);
    }
    gather(line, end, page, output)?;
    put_answer(line.as_bytes(), page, output)?;
    line.clear();
    Ok(())
}

/// Adds bytes to the line that is being collected.
///
/// If there is not enough memory, the page is written out, so that the answers to the lines before it are not lost.
fn gather<L: GatheredLine, W: Write>(
    line: &mut L,
    bytes: &[u8],
    page: &mut Page,
    output: &mut W,
) -> Result<(), ShowError>
    ensures gathered { OnOk result (L.bytes line.new ≡ L.bytes line.old ++ bytes.now) }
    ensures kept { OnOk result (append_known (W.contents output.new) page.new ≡ append_known (W.contents output.old) page.old) }
    ensures memory { IsErrOf result ShowError.Memory → Appends (W.contents output.old) (W.contents output.new) page.old }
    ensures refused { IsErrOf result ShowError.Memory → L.refuses (L.bytes line.old) bytes.now }
    ensures other { IfErr result (λ e. e ≢ ShowError.Read) }
{
    if line.extend(bytes).is_err() {
        return Err(out_of_memory(page, output));
    }
    Ok(())
}

/// Writes the page out after an allocation failed, and returns the error that ends the run.
fn out_of_memory<W: Write>(page: &mut Page, output: &mut W) -> ShowError
    ensures written { result ≡ ShowError.Memory → Appends (W.contents output.old) (W.contents output.new) page.old }
    ensures other { result ≢ ShowError.Read }
{
    match page.write_out(output) {
        Ok(()) => ShowError::Memory,
        Err(error) => error,
    }
}

/// Writes the answer to the rest of the input if it is not empty, and flushes.
fn finish<W: Write>(rest: &[u8], page: &mut Page, output: &mut W) -> Result<(), ShowError>
    requires { page.old ≡ [] }
    ensures ok { OnOk result (AreWritten (W.contents output.old) (W.contents output.new) (last_line rest.now)) }
    ensures err { IsOkUnless result ShowError.Write }
{
    if !rest.is_empty() {
        put_answer(rest, page, output)?;
        page.write_out(output)?;
    }
    output.flush().map_err(|_| ShowError::Write)
}
