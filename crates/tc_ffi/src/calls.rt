//! The calls, for both types of messages.

ghost use Rattle.std.specs.Prelude.{◌≡◌};
ghost use Rattle.tc_wire.specs.Rewriting.{Settles as LeadsTo};
ghost use Rattle.tc_ffi.specs.Calls.{Keeps, KeepsNumber, Rewrites, Settles, Shows};
ghost use Rattle.tc_ffi.specs.Checks.{Checks};

use crate::place::place;
use crate::verdict::{VtcFault, VtcVerdict, fault_of, judged};
use forms_json::{Form, Shown};
use forms_kinds::TcTables;
use std::alloc::Global;
use tc_message_json::HasForm;
use tc_status::{DOES_NOT_FIT, NO_ROOM, OK, OUT_OF_MEMORY, status_of};
use tc_wire::{RewriteError, WholeMessage};

/// The verdict on a message, or its first fault.
pub fn check<M: WholeMessage<Global> + HasForm + Drop>(
    alloc: Global,
    bytes: &[u8],
    verdict: &mut VtcVerdict,
    fault: &mut VtcFault,
) -> u32
    ensures checks { Checks M.words M.what bytes.now verdict.new fault.new result }
    ensures verdict_kept { Keeps verdict.old verdict.new result }
    ensures fault_kept { result ≡ 0 → fault.new ≡ fault.old }
{
    match M::read(alloc, bytes) {
        Ok(message) => {
            *verdict = judged(&message, bytes);
            OK
        }
        Err(e) => {
            *fault = fault_of::<M>(&e, bytes);
            status_of(&e)
        }
    }
}

/// Rewrites a message into the buffer if it fits, and sets its length if it can be encoded.
pub fn rewrite<M: WholeMessage<Global> + Drop>(
    alloc: Global,
    bytes: &[u8],
    buffer: &mut [u8],
    length: &mut usize,
) -> u32
    ensures rewrites { Rewrites M.words bytes.now buffer.old buffer.new length.new result }
    ensures kept { Keeps buffer.old buffer.new result }
    ensures len_kept { KeepsNumber length.old length.new result }
{
    match M::read(alloc, bytes) {
        Ok(message) => match message.measure() {
            None => DOES_NOT_FIT,
            Some(len) => {
                *length = len;
                if buffer.len() < len {
                    return NO_ROOM;
                }
                message.write(buffer);
                OK
            }
        },
        Err(e) => status_of(&e),
    }
}

/// Settles a message into the buffer, like `rewrite`, and sets the number of rewrites.
pub fn settle<M: WholeMessage<Global>>(
    alloc: Global,
    bytes: &[u8],
    buffer: &mut [u8],
    length: &mut usize,
    rewrites: &mut usize,
) -> u32
    ensures settles { Settles M.words bytes.now (LeadsTo M.words M.norm) buffer.old buffer.new length.new rewrites.new result }
    ensures kept { Keeps buffer.old buffer.new result }
    ensures len_kept { KeepsNumber length.old length.new result }
    ensures rewrites_kept { KeepsNumber rewrites.old rewrites.new result }
{
    match M::settle(alloc, bytes) {
        Ok((settled, count)) => {
            *rewrites = count;
            place(&settled, buffer, length)
        }
        Err(RewriteError::Decode(e)) => status_of(&e),
        Err(RewriteError::DoesNotFit) => DOES_NOT_FIT,
        Err(RewriteError::OutOfMemory) => OUT_OF_MEMORY,
    }
}

/// Writes the JSON of bytes of a form, like `rewrite`.
pub fn json(alloc: Global, form: Form, bytes: &[u8], buffer: &mut [u8], length: &mut usize) -> u32
    ensures shows { Shows form bytes.now buffer.old buffer.new length.new result }
    ensures kept { Keeps buffer.old buffer.new result }
    ensures len_kept { KeepsNumber length.old length.new result }
{
    let shown = Shown {
        table: TcTables,
        form,
        bytes,
        alloc,
    };
    match serde_json::to_vec(alloc, &shown) {
        Ok(text) => place(&text, buffer, length),
        Err(_) => OUT_OF_MEMORY,
    }
}
