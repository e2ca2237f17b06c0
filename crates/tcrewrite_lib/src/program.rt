//! The program: its arguments, its streams and its exit status.

ghost use Rattle.std.specs.Prelude.{◌≡◌, ◌≢◌, ◌↔◌, ◌⊎◌, ℕ, Result, IfOk, IfErr, map, string_bytes};
ghost use Rattle.std.specs.Vec.Iter.{into_iter_items};
ghost use Rattle.std.specs.IoError.{error_kind};
ghost use Rattle.tcrewrite_lib.specs.Arguments.{HasMode};
ghost use Rattle.tcrewrite_lib.specs.Report.{no_memory};
ghost use Rattle.tcrewrite_lib.specs.Run.{status_of, Reports, RunReports};
ghost use Rattle.tc_capture.specs.declared.kind.MessageType.{MessageType};
ghost use Rattle.tcrewrite_lib.specs.declared.program.Arguments.TheVariants.{Report, Usage, NoMemory};
ghost use Rattle.tcrewrite_lib.specs.declared.run.RunError.{RunError};

use crate::run::{RunError, run, without_memory};
use crate::write::fail_with;
use std::alloc::Allocator;
use std::env::{self, Args};
use std::io::{self, Error, ErrorKind, Input, Print, Read, Write};
use std::process::ExitCode;
use std::rt::Env;
use tc_capture::MessageType;

/// Parsed command-line arguments.
#[derive(PartialEq, Eq, Clone, Copy, Debug)]
pub enum Arguments {
    /// Report on a message of this type.
    Report(MessageType),

    /// Unknown arguments: the usage is printed.
    Usage,

    /// The arguments couldn't be read, because memory ran out.
    NoMemory,
}

/// Parses the arguments. The first is the program's name.
pub fn parse_arguments<A: Allocator>(arguments: &[String<A>]) -> Arguments
    ensures report { (mode : MessageType)
        → (result ≡ Report mode) ↔ HasMode (map string_bytes arguments.now) mode }
    ensures read { result ≢ NoMemory }
{
    match arguments {
        [] | [_] => Arguments::Report(MessageType::Tc),
        [_, word] => match MessageType::from_word(word.as_str()) {
            Some(mode) => Arguments::Report(mode),
            None => Arguments::Usage,
        },
        _ => Arguments::Usage,
    }
}

// The result if the arguments couldn't be read: memory ran out, or one of them isn't UTF-8, so it names no type of
// message.
fn arguments_of_fault(fault: &Error) -> Arguments
    ensures memory { (result ≡ NoMemory) ↔ (error_kind fault.now ≡ ErrorKind.OutOfMemory) }
    ensures no_report { (mode : MessageType) → result ≢ Report mode }
{
    if fault.kind() == ErrorKind::OutOfMemory {
        Arguments::NoMemory
    } else {
        Arguments::Usage
    }
}

/// Parses the program's arguments as they were read. If one isn't UTF-8, they are unknown.
pub fn read_arguments<A: Allocator>(alloc: A, arguments: Result<Args<A>, Error>) -> Arguments
    ensures read { IfOk arguments (λ words. (result ≡ NoMemory)
        ⊎ ((mode : MessageType) → (result ≡ Report mode)
        ↔ HasMode (map string_bytes (into_iter_items words)) mode)) }
    ensures fault { IfErr arguments (λ fault.
        (result ≡ NoMemory) ↔ (error_kind fault ≡ ErrorKind.OutOfMemory)) }
    ensures no_report { IfErr arguments (λ fault. (mode : MessageType) → result ≢ Report mode) }
{
    match arguments {
        Ok(words) => match Vec::from_iter(alloc, words) {
            Ok(words) => parse_arguments(&words),
            Err(_) => Arguments::NoMemory,
        },
        Err(fault) => arguments_of_fault(&fault),
    }
}

/// Runs the program: reads its arguments, reports on the text of standard input on standard output, and returns the
/// exit status. If there is no report, it writes the reason to `errors`.
pub fn tcrewrite<R: Env + AllocGlobal + Input + Print, E: Write>(
    rt: &R,
    errors: &mut E,
) -> ExitCode {
    let request = read_arguments(rt.alloc(), env::args(rt));
    let (mut reader, mut writer) = (rt.reader(), io::writer(rt));
    ExitCode::from(serve(rt.alloc(), request, &mut reader, &mut writer, errors))
}

/// Runs the program with these arguments and streams, and returns the exit status: that of the report, 2 for a usage
/// error, and 3 if a stream failed.
pub fn serve<A: Allocator + Copy, R: Read, W: Write, E: Write>(
    alloc: A,
    request: Arguments,
    reader: &mut R,
    writer: &mut W,
    errors: &mut E,
) -> u8
    // The status is that of some outcome of a run; if that is a report, it was written.
    ensures report { (mode : MessageType) → request ≡ Report mode
        → (outcome : Result ℕ RunError) × (result ≡ status_of outcome)
        × IfOk outcome (RunReports mode (R.remaining reader.old) (R.remaining reader.new)
        (W.contents writer.old) (W.contents writer.new)) }
    ensures no_memory { request ≡ NoMemory
        → (outcome : Result ℕ RunError) × (result ≡ status_of outcome)
        × IfOk outcome (λ status.
        Reports (W.contents writer.old) (W.contents writer.new) status no_memory) }
    ensures usage { request ≡ Usage → (result ≡ 2) × (writer.new ≡ writer.old) }
{
    match request {
        Arguments::Report(mode) => exit_status(run(alloc, mode, reader, writer), errors),
        Arguments::NoMemory => exit_status(without_memory(writer), errors),
        Arguments::Usage => fail_with(errors, "usage: tcrewrite [tc|action]\n", 2),
    }
}

/// The exit status of a run: that of its report, or 3 if a stream failed, which it writes to `errors`.
pub fn exit_status<E: Write>(outcome: Result<u8, RunError>, errors: &mut E) -> u8
    ensures { result ≡ status_of outcome }
{
    match outcome {
        Ok(status) => status,
        Err(RunError::Read) => fail_with(errors, "read failed\n", 3),
        Err(RunError::Write) => fail_with(errors, "write failed\n", 3),
    }
}
