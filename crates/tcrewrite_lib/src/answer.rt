//! Reports in memory.

ghost use Rattle.std.specs.Prelude.{◌≡◌, ◌≢◌, IfOk, IsTrue, codes, string_bytes};
ghost use Rattle.hex.specs.declared.error.FromHexError.TheVariants.{OutOfMemory};
ghost use Rattle.tcrewrite_lib.specs.Answer.{report_of};
ghost use Rattle.tcrewrite_lib.specs.Report.{one_line, yes_or_no, bytes_line, accepted, ReportsAs, ReportsBytes, IsReport};
ghost use Rattle.tcrewrite_lib.specs.Text.{is_space, without_spaces};

use hex::FromHexError;
use std::alloc::{AllocError, Allocator};
use tc_capture::MessageType;
use tc_wire::{DecodeError, TcActionMessage, TcMessage, WholeMessage};

/// The maximum length of a text in bytes.
pub(crate) const MOST_TEXT: usize = 1_048_576;

/// A report in memory, ready to be written.
#[derive(Drop)]
pub(crate) struct Answer<A: Allocator> {
    pub(crate) text: String<A>,
    pub(crate) status: u8,
}

// A report of one line.
fn one_line<A: Allocator>(alloc: A, text: &str, status: u8) -> Result<Answer<A>, AllocError>
    ensures { IfOk result (λ answer. report_of answer ≡ one_line text.now status) }
{
    let text = format!(in alloc; "{text}\n")?;
    Ok(Answer { text, status })
}

fn yes_or_no(holds: bool) -> &'static str
    ensures { result.now ≡ yes_or_no holds }
{
    if holds { "yes" } else { "no" }
}

// The bytes of a message that fits.
fn emitted<A: Allocator, M: WholeMessage<A>>(
    alloc: A,
    message: &M,
) -> Result<Vec<u8, A>, AllocError>
    requires { M.words.Fits (M.message message.now) }
    ensures { IfOk result (λ bytes. bytes.items ≡ M.words.bytes (M.message message.now)) }
{
    let mut bytes = vec![in alloc; 0u8; message.written_len()]?;
    message.write(&mut bytes);
    Ok(bytes)
}

// The line of the emitted bytes, if the message fits.
fn bytes_line<A: Allocator + Copy, M: WholeMessage<A>>(
    alloc: A,
    message: &M,
    fits: bool,
) -> Result<String<A>, AllocError>
    requires { IsTrue fits → M.words.Fits (M.message message.now) }
    ensures { IfOk result (λ text.
        string_bytes text ≡ bytes_line fits (M.words.bytes (M.message message.now))) }
{
    if !fits {
        return Ok(String::new(alloc));
    }
    let bytes = emitted(alloc, message)?;
    let digits = hex::encode(alloc, bytes.as_slice())?;
    format!(in alloc; "bytes {digits}\n")
}

// The lines for an accepted message.
fn accepted<A: Allocator + Copy, M: WholeMessage<A>>(
    alloc: A,
    message: &M,
    fits: bool,
    settled: bool,
    canonical: bool,
) -> Result<String<A>, AllocError>
    requires { IsTrue fits → M.words.Fits (M.message message.now) }
    ensures { IfOk result (λ text.
        string_bytes text ≡ accepted fits settled canonical (M.words.bytes (M.message message.now))) }
{
    let bytes = bytes_line(alloc, message, fits)?;
    let fits = yes_or_no(fits);
    let settled = yes_or_no(settled);
    let canonical = yes_or_no(canonical);
    format!(in alloc; "fits {fits}\nsettled {settled}\ncanonical {canonical}\n{bytes}")
}

// The report on the bytes of a message of one type.
fn answer_as<A: Allocator + Copy, M: WholeMessage<A> + Drop>(
    alloc: A,
    bytes: &[u8],
) -> Result<Answer<A>, AllocError>
    ensures { IfOk result (λ answer.
        ReportsAs M.words bytes.now (report_of answer)) }
{
    match M::read(alloc, bytes) {
        Ok(message) => {
            let fits = message.is_writable();
            let settled = message.is_settled();
            let canonical = M::is_canonical(bytes);
            let text = accepted(alloc, &message, fits, settled, canonical)?;
            Ok(Answer { text, status: 0 })
        }
        Err(DecodeError::OutOfMemory) => Err(AllocError),
        Err(e) => {
            let name = e.name();
            let text = format!(in alloc; "refused {name}\n")?;
            Ok(Answer { text, status: 1 })
        }
    }
}

// The report on the bytes of a message.
fn answer_bytes<A: Allocator + Copy>(
    alloc: A,
    mode: MessageType,
    bytes: &[u8],
) -> Result<Answer<A>, AllocError>
    ensures { IfOk result (λ answer. ReportsBytes mode bytes.now (report_of answer)) }
{
    match mode {
        MessageType::Tc => answer_as::<A, TcMessage<A>>(alloc, bytes),
        MessageType::Action => answer_as::<A, TcActionMessage<A>>(alloc, bytes),
    }
}

// Tab, line feed, form feed, carriage return and space.
fn is_space(byte: u8) -> bool
    ensures { result ≡ is_space byte }
{
    matches!(byte, b'\t' | b'\n' | 12 | b'\r' | b' ')
}

// Removes the spaces of a text.
fn drop_spaces<A: Allocator>(text: &mut Vec<u8, A>)
    ensures { text.new.items ≡ without_spaces text.old.items }
{
    text.retain(|byte| !is_space(*byte))
}

/// The report on a text.
pub(crate) fn answer_text<A: Allocator + Copy>(
    alloc: A,
    mode: MessageType,
    mut text: Vec<u8, A>,
) -> Result<Answer<A>, AllocError>
    ensures { IfOk result (λ answer. IsReport mode text.items (report_of answer)) }
{
    if text.len() > MOST_TEXT {
        return one_line(alloc, "too long", 2);
    }
    drop_spaces(&mut text);
    match hex::decode(alloc, text.as_slice()) {
        Ok(bytes) => answer_bytes(alloc, mode, &bytes),
        Err(fault) => answer_fault(alloc, &fault),
    }
}

// The report on a text that isn't valid hex, or an error if memory ran out.
fn answer_fault<A: Allocator>(alloc: A, fault: &FromHexError) -> Result<Answer<A>, AllocError>
    ensures { IfOk result (λ answer. (fault.now ≢ OutOfMemory)
        × report_of answer ≡ one_line (codes "bad hex") 2) }
{
    match fault {
        FromHexError::OutOfMemory => Err(AllocError),
        _ => one_line(alloc, "bad hex", 2),
    }
}
