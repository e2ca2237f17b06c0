//! A run: reads a text and writes the report on it.

ghost use Rattle.std.specs.Prelude.{◌≡◌, ◌+◌, ◌<◌, ◌≤◌, length, Err, IfOk, IfErr, IfSome, OnOk, true, false};
ghost use Rattle.std.specs.Io.{appended_bytes, StartsWith};
ghost use Rattle.std.specs.Io.KnownBytes.{Consumes, IsAtEnd};
ghost use Rattle.tcrewrite_lib.specs.Retries.{retries_left};
ghost use Rattle.tcrewrite_lib.specs.Answer.{report_of};
ghost use Rattle.tcrewrite_lib.specs.Text.{looked_at, most_text};
ghost use Rattle.tcrewrite_lib.specs.Report.{IsReport, no_memory};
ghost use Rattle.tcrewrite_lib.specs.Run.{IsTextOf, Reports, RunReports};
ghost use Rattle.tcrewrite_lib.specs.declared.run.TextError.TheVariants.{OutOfMemory};

use crate::answer::{Answer, MOST_TEXT, answer_text};
use crate::retries::Retries;
use crate::write::write_all;
use std::alloc::{AllocError, Allocator};
use std::io::{Read, Write};
use tc_capture::MessageType;

// The maximum number of bytes of one read.
const MOST_PART: usize = 4096;

/// The reason why a run ended early.
#[derive(Drop, PartialEq, Eq, Debug)]
pub enum RunError {
    /// The reader failed.
    Read,

    /// The writer failed.
    Write,
}

// The reason why there is no text.
#[derive(Drop)]
enum TextError {
    // The reader failed.
    Fault,

    // Memory ran out.
    OutOfMemory,
}

impl From<AllocError> for TextError {
    ghost from_gives = { λ _ e. e ≡ OutOfMemory };

    fn from(_e: AllocError) -> TextError {
        TextError::OutOfMemory
    }
}

// Appends the bytes of one read. Returns whether there may be more.
fn read_part<A: Allocator, R: Read>(
    reader: &mut R,
    text: &mut Vec<u8, A>,
    retries: &mut Retries,
) -> Result<bool, TextError>
    requires { length text.old.items ≤ most_text }
    ensures starts { StartsWith text.new.items text.old.items }
    ensures bytes { OnOk result (Consumes (R.remaining reader.old) (R.remaining reader.new)
        (appended_bytes text.old.items text.new.items)) }
    ensures bound { length text.new.items ≤ most_text + 1 }
    ensures end { IfOk result (λ more. more ≡ false → IsAtEnd (R.remaining reader.new)) }
    ensures falls { IfOk result (λ more.
        more ≡ true
        → length text.old.items + retries_left retries.new
        < length text.new.items + retries_left retries.old) }
{
    let mut part = [0u8; MOST_PART];
    let room = MOST_PART.min(MOST_TEXT + 1 - text.len());
    match reader.read(&mut part[..room]) {
        Ok(0) => Ok(false),
        Ok(count) => {
            text.extend_from_slice(&part[..count])?;
            Ok(true)
        }
        Err(fault) => {
            if retries.tries_again(&fault) {
                Ok(true)
            } else {
                Err(TextError::Fault)
            }
        }
    }
}

// Reads a text to its end, or up to the byte that makes it too long.
fn read_text<A: Allocator, R: Read>(
    alloc: A,
    reader: &mut R,
    retries: &mut Retries,
) -> Result<Vec<u8, A>, TextError>
    ensures { IfOk result (λ text.
        IsTextOf (R.remaining reader.old) (R.remaining reader.new) text.items) }
{
    let mut text = Vec::new(alloc);
    'parts: while text.len() <= MOST_TEXT {
        if !read_part(reader, &mut text, retries)? {
            break;
        }
    }
    Ok(text)
}

// The report on the bytes of the reader.
fn prepare<A: Allocator + Copy, R: Read>(
    alloc: A,
    mode: MessageType,
    reader: &mut R,
    retries: &mut Retries,
) -> Result<Answer<A>, TextError>
    ensures { IfOk result (λ answer. IfSome (R.remaining reader.old) (λ all.
        Consumes (R.remaining reader.old) (R.remaining reader.new) (looked_at all)
        × IsReport mode (looked_at all) (report_of answer))) }
{
    let text = read_text(alloc, reader, retries)?;
    Ok(answer_text(alloc, mode, text)?)
}

// Writes a report and returns its status.
fn finish<W: Write>(writer: &mut W, text: &str, status: u8) -> Result<u8, RunError>
    ensures written { IfOk result (λ s.
        Reports (W.contents writer.old) (W.contents writer.new) s
        (record { text = text.now; status = status })) }
    ensures fault { IfErr result (λ e. e ≡ RunError.Write) }
{
    match write_all(writer, text.as_bytes()) {
        Ok(()) => Ok(status),
        Err(_) => Err(RunError::Write),
    }
}

// Writes that memory ran out, and returns the status for that.
fn finish_without_memory<W: Write>(writer: &mut W) -> Result<u8, RunError>
    ensures written { IfOk result (λ status.
        Reports (W.contents writer.old) (W.contents writer.new) status no_memory) }
    ensures fault { IfErr result (λ e. e ≡ RunError.Write) }
{
    finish(writer, "refused OutOfMemory\n", 1)
}

/// Reads a text, writes the report on it, and returns the exit status. It allocates nothing while it writes. Reads
/// that are interrupted are tried again, 1,024 times in all, and so is each write.
pub fn run<A: Allocator + Copy, R: Read, W: Write>(
    alloc: A,
    mode: MessageType,
    reader: &mut R,
    writer: &mut W,
) -> Result<u8, RunError>
    ensures report { IfOk result (λ status.
        RunReports mode (R.remaining reader.old) (R.remaining reader.new)
        (W.contents writer.old) (W.contents writer.new) status) }
    ensures nothing_written { result ≡ Err RunError.Read → writer.new ≡ writer.old }
{
    let mut retries = Retries::new();
    match prepare(alloc, mode, reader, &mut retries) {
        Ok(answer) => finish(writer, answer.text.as_str(), answer.status),
        Err(TextError::OutOfMemory) => finish_without_memory(writer),
        Err(TextError::Fault) => Err(RunError::Read),
    }
}

/// Writes that memory ran out before a text was read, and returns the exit status.
pub(crate) fn without_memory<W: Write>(writer: &mut W) -> Result<u8, RunError>
    ensures { IfOk result (λ status.
        Reports (W.contents writer.old) (W.contents writer.new) status no_memory) }
{
    finish_without_memory(writer)
}
