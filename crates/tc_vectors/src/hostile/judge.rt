//! Properties of every untrusted input.

use crate::calls::{Message, emitted, fault_of, is_canonical, is_cloned, reads_back, settle};
use crate::rewriting::{becomes, cause_of, is_fault, is_outcome, rewritten};
use std::alloc::Global;
use tc_wire::{DecodeError, RewriteError, TcActionMessage, TcMessage};
use tests_data::{Form, Input};

/// A fault in the result of a call, if any.
pub(crate) type Complaint = Option<&'static str>;

/// A fault in how a message is refused, or read and written.
pub(crate) fn judge(alloc: Global, input: &Input) -> Complaint {
    match input.form {
        Form::Tc => judge_as::<TcMessage>(alloc, input),
        Form::Action => judge_as::<TcActionMessage>(alloc, input),
    }
}

fn judge_as<M: Message>(alloc: Global, input: &Input) -> Complaint {
    match &M::parse(alloc, &input.bytes) {
        Ok(message) => judge_read(alloc, input.form, &input.bytes, message),
        Err(fault) => judge_fault(alloc, input.form, &input.bytes, fault),
    }
}

// Bytes that are refused aren't rewritten nor settled for the same fault, and so aren't canonical.
fn judge_fault(alloc: Global, form: Form, bytes: &[u8], fault: &DecodeError) -> Complaint {
    if *fault == DecodeError::OutOfMemory {
        Some("parsing ran out of memory")
    } else if !is_fault(&cause_of(alloc, form, bytes), fault) {
        Some("rewriting or settling has another cause")
    } else {
        judge_refused(form, bytes)
    }
}

fn judge_refused(form: Form, bytes: &[u8]) -> Complaint {
    is_canonical(form, bytes).then_some("canonical bytes are refused")
}

fn judge_read<M: Message>(alloc: Global, form: Form, bytes: &[u8], message: &M) -> Complaint {
    if !matches!(is_cloned(message), Ok(true)) {
        return Some("a clone differs");
    }
    match &emitted(alloc, message) {
        Ok(Some(emitted)) if reads_back(alloc, message, emitted) != message.is_settled() => {
            Some("settled isn't what reads back")
        }
        Ok(Some(emitted)) => judge_written(alloc, form, bytes, emitted),
        Ok(None) => judge_unwritable(alloc, form, bytes),
        Err(_) => Some("emitting ran out of memory"),
    }
}

// A message that doesn't fit isn't rewritten nor settled for that.
fn judge_unwritable(alloc: Global, form: Form, bytes: &[u8]) -> Complaint {
    if cause_of(alloc, form, bytes) != Some(RewriteError::DoesNotFit) {
        Some("rewriting or settling fits")
    } else {
        judge_refused(form, bytes)
    }
}

// The emitted bytes are the input exactly when that is canonical, and they are what rewriting returns.
fn judge_written(alloc: Global, form: Form, bytes: &[u8], emitted: &[u8]) -> Complaint {
    if (emitted == bytes) != is_canonical(form, bytes) {
        Some("canonical isn't emitted unchanged")
    } else if !becomes(alloc, form, bytes, emitted) {
        Some("rewriting isn't reading and writing")
    } else if fault_of(alloc, form, emitted) == Some(DecodeError::OutOfMemory) {
        Some("parsing again ran out of memory")
    } else {
        judge_settled(alloc, form, bytes)
    }
}

// As many rewrites as are counted, and no fewer, lead to canonical bytes, which are what settling returns.
fn judge_settled(alloc: Global, form: Form, bytes: &[u8]) -> Complaint {
    let Ok((settled, count)) = settle(alloc, form, bytes) else {
        return Some("settling has a cause");
    };
    let again = rewritten(alloc, form, bytes, count);
    (!is_outcome(&again, form, &settled, count)).then_some("settling isn't rewriting to the end")
}
