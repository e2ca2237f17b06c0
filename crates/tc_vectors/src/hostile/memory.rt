//! Memory that is refused: whichever request it is, the call fails with out of memory; and calls that make no request.

use crate::calls::{is_canonical, rewrite, settle};
use failing_alloc::Failing;
use std::alloc::{AllocError, Global};
use std::test::Fail;
use tc_wire::{DecodeError, Emitable, RewriteError, TcActionMessage, TcMessage, WholeMessage};
use tests_data::{Expected, Form, Row, made};

/// A fault in the result of a call.
#[derive(Clone, Copy, Debug)]
enum Wrong {
    /// A request was refused and the call didn't fail with out of memory, or it did and none was.
    Memory,
    /// A message is read that has to be refused, refused that has to be read, or refused for another fault.
    Fault,
    Fits,
    Settled,
    Canonical,
    Emitted,
    /// The message or its clone is another.
    Equality,
    /// A message is rewritten or settled to another one.
    Answer,
    /// Each of the first 999 requests was refused in turn, and the call never had its memory.
    Requests,
}

/// True if a call was given all its memory, or a fault in its result.
type Ended = Result<bool, Wrong>;

// A call that failed with out of memory has to have been refused a request.
fn is_refused(failing: &Failing<Global>) -> Ended {
    if failing.has_refused() {
        Ok(false)
    } else {
        Err(Wrong::Memory)
    }
}

// A call that returned something else mustn't have been, and has to return what it does with memory enough, or it has this wrong.
fn is_done(failing: &Failing<Global>, is_right: bool, wrong: Wrong) -> Ended {
    if failing.has_refused() {
        Err(Wrong::Memory)
    } else if is_right {
        Ok(true)
    } else {
        Err(wrong)
    }
}

// Whether the message of a row is rewritten as it is with memory enough.
fn is_rewritten(
    failing: &Failing<Global>,
    row: &Row,
    wanted: &Result<Vec<u8>, RewriteError>,
) -> Ended {
    match (&rewrite(failing, row.input.form, &row.input.bytes), wanted) {
        (Err(RewriteError::OutOfMemory), _) => is_refused(failing),
        (Err(cause), Err(wanted)) => is_done(failing, *cause == *wanted, Wrong::Answer),
        (Ok(bytes), Ok(wanted)) => {
            is_done(
                failing,
                bytes.as_slice() == wanted.as_slice(),
                Wrong::Answer,
            )
        }
        _ => Err(Wrong::Answer),
    }
}

// Whether the message of a row is settled as it is with memory enough.
fn is_settled(
    failing: &Failing<Global>,
    row: &Row,
    wanted: &Result<(Vec<u8>, usize), RewriteError>,
) -> Ended {
    match (&settle(failing, row.input.form, &row.input.bytes), wanted) {
        (Err(RewriteError::OutOfMemory), _) => is_refused(failing),
        (Err(cause), Err(wanted)) => is_done(failing, *cause == *wanted, Wrong::Answer),
        (Ok((bytes, rewrites)), Ok((wanted, wanted_rewrites))) => is_done(
            failing,
            bytes.as_slice() == wanted.as_slice() && *rewrites == *wanted_rewrites,
            Wrong::Answer,
        ),
        _ => Err(Wrong::Answer),
    }
}

// Whether a message is emitted as these bytes.
fn is_emitted<M: Emitable>(message: &M, emitted: &[u8]) -> bool {
    let mut page = [0; 1024];
    if !message.fits() || message.buffer_len() != emitted.len() || emitted.len() > page.len() {
        return false;
    }
    message.emit(&mut page);
    &page[..emitted.len()] == emitted
}

// Whether a message that was read is as its row has it, or what is wrong with it.
fn judge_read<'f, M: WholeMessage<&'f Failing<Global>> + PartialEq>(
    row: &Row,
    message: &M,
) -> Ended {
    let Expected::Accepted {
        fits,
        settled,
        canonical,
        emitted,
    } = &row.expected
    else {
        return Err(Wrong::Fault);
    };
    if message.fits() != *fits {
        Err(Wrong::Fits)
    } else if message.is_settled() != *settled {
        Err(Wrong::Settled)
    } else if is_canonical(row.input.form, &row.input.bytes) != *canonical {
        Err(Wrong::Canonical)
    } else if !is_emitted(message, emitted) {
        Err(Wrong::Emitted)
    } else if *message != *message {
        Err(Wrong::Equality)
    } else {
        Ok(true)
    }
}

// Whether a message is cloned with all its memory, and equals the clone.
fn is_cloned<M: PartialEq + Clone + Drop>(failing: &Failing<Global>, message: &M) -> Ended {
    let copy: Result<M, AllocError> = message.clone();
    match &copy {
        Ok(copy) => is_done(failing, *copy == *message, Wrong::Equality),
        Err(_) => is_refused(failing),
    }
}

// Whether a message is cloned once each request was refused in turn.
fn judge_clone<M: PartialEq + Clone + Drop>(failing: &Failing<Global>, message: &M) -> Ended {
    for at in 1..1000u64 {
        failing.refuse(at);
        if is_cloned(failing, message)? {
            return Ok(true);
        }
    }
    Err(Wrong::Requests)
}

// Whether a message has to be refused for this fault.
fn judge_fault(failing: &Failing<Global>, row: &Row, fault: &DecodeError) -> Ended {
    match (fault, &row.expected) {
        (DecodeError::OutOfMemory, _) => is_refused(failing),
        (_, Expected::Refused(name)) => {
            is_done(failing, fault.name() == name.as_str(), Wrong::Fault)
        }
        _ => Err(Wrong::Fault),
    }
}

// Whether a call was given all its memory; from here on the next request would be refused.
fn has_ended(failing: &Failing<Global>) -> bool {
    let has_ended = !failing.has_refused();
    failing.refuse(1);
    has_ended
}

// Whether the message of a row is read with all its memory and as it has to be, without a request since, and cloned.
fn is_read_as<'f, M: WholeMessage<&'f Failing<Global>> + PartialEq + Clone + Drop>(
    failing: &'f Failing<Global>,
    row: &Row,
) -> Ended {
    match &M::parse(failing, &row.input.bytes) {
        Ok(message) if has_ended(failing) => {
            judge_read(row, message)?;
            is_done(failing, true, Wrong::Memory)?;
            judge_clone(failing, message)
        }
        Ok(_) => Err(Wrong::Memory),
        Err(fault) => judge_fault(failing, row, fault),
    }
}

// Whether the message of a row is read as it has to be.
fn is_read(failing: &Failing<Global>, row: &Row) -> Ended {
    match row.input.form {
        Form::Tc => is_read_as::<TcMessage<&Failing<Global>>>(failing, row),
        Form::Action => is_read_as::<TcActionMessage<&Failing<Global>>>(failing, row),
    }
}

/// The results of rewriting and settling a message with enough memory.
#[derive(Drop)]
struct Wanted {
    rewritten: Result<Vec<u8>, RewriteError>,
    settled: Result<(Vec<u8>, usize), RewriteError>,
}

// Whether the three calls are done where the request of this number is refused in each.
fn are_done(failing: &Failing<Global>, at: u64, row: &Row, wanted: &Wanted) -> Ended {
    failing.refuse(at);
    let is_read = is_read(failing, row)?;
    failing.refuse(at);
    let is_rewritten = is_rewritten(failing, row, &wanted.rewritten)?;
    failing.refuse(at);
    let is_settled = is_settled(failing, row, &wanted.settled)?;
    Ok(is_read && is_rewritten && is_settled)
}

// How many requests were refused, one after the other, until none was.
fn refusals(failing: &Failing<Global>, row: &Row, wanted: &Wanted) -> Result<u64, Wrong> {
    for at in 1..1000u64 {
        if are_done(failing, at, row, wanted)? {
            return Ok(at - 1);
        }
    }
    Err(Wrong::Requests)
}

// How many requests of the message of a row were refused.
fn refusals_of(alloc: Global, row: &Row) -> Result<u64, Wrong> {
    let wanted = Wanted {
        rewritten: rewrite(alloc, row.input.form, &row.input.bytes),
        settled: settle(alloc, row.input.form, &row.input.bytes),
    };
    refusals(&Failing::new(alloc, 0), row, &wanted)
}

#[test]
fn every_refused_allocation_is_reported(rt: HostRuntime) -> Result<(), Fail> {
    let alloc = rt.alloc();
    let mut count = 0u64;
    for row in &made(alloc)? {
        let refusals = refusals_of(alloc, row);
        assert!(rt; refusals.is_ok(), "{refusals:?}: {:?}", row.input);
        count = count.wrapping_add(refusals.unwrap_or(0));
    }
    assert!(rt; count == 249, "{count} refusals");
    Ok(())
}
