//! Memory in bytes, counted by a heap of a given size: what a parse takes, what a message holds, and that all of it is given back.

use crate::messages::FQ_CODEL;
use crate::upgrade::{SFQ, made as made_by_hand};
use linked_list_allocator::LocalHeap;
use std::alloc::{AllocError, Global};
use std::mem::size_of;
use std::test::Fail;
use tc_wire::{DecodeError, ParseableBytes, TcActionMessage, TcAttribute, TcMessage, TcOption};
use tests_data::{Form, Row, captured, large_messages, made};

/// The bytes that the heap takes for this size: units of 16, and at least one.
fn block(size: usize) -> usize {
    size.max(16).saturating_add(15) / 16 * 16
}

/// The bytes that the heap takes for so many attributes.
fn attributes(count: usize) -> usize {
    block(count.saturating_mul(size_of::<TcAttribute<&LocalHeap>>()))
}

/// The bytes that the heap takes for so many options.
fn options(count: usize) -> usize {
    block(count.saturating_mul(size_of::<TcOption<&LocalHeap>>()))
}

fn held_as<'h, M: ParseableBytes<&'h LocalHeap> + Drop>(
    heap: &'h LocalHeap,
    bytes: &[u8],
) -> Result<usize, DecodeError> {
    let message = M::parse(heap, bytes)?;
    let held = heap.used();
    drop(message);
    Ok(held)
}

/// The bytes of a heap that a parsed message holds, or why it isn't parsed, and the bytes that are taken once it is dropped.
fn held_by(heap: &LocalHeap, form: Form, bytes: &[u8]) -> (Result<usize, DecodeError>, usize) {
    let held = match form {
        Form::Tc => held_as::<TcMessage<&LocalHeap>>(heap, bytes),
        Form::Action => held_as::<TcActionMessage<&LocalHeap>>(heap, bytes),
    };
    (held, heap.used())
}

/// The bytes of a heap of this size that the stored message holds, and the bytes that are taken once it is dropped.
fn held_in(alloc: Global, size: usize) -> Result<(Result<usize, DecodeError>, usize), AllocError> {
    Ok(held_by(&LocalHeap::new(alloc, size)?, Form::Tc, &FQ_CODEL))
}

// A list has room for an attribute for every eight of its bytes at first: for three in 28 bytes, and for one option in eight. With the eight
// letters of the kind, that is what the message holds, and all that its parse takes.
#[test]
fn a_parse_takes_what_the_message_holds(rt: HostRuntime) -> Result<(), Fail> {
    let alloc = rt.alloc();
    let held = attributes(3)
        .saturating_add(options(1))
        .saturating_add(block(8));
    assert!(rt; held_in(alloc, 65536)? == (Ok(held), 0));
    assert!(rt; held_in(alloc, held)? == (Ok(held), 0));
    let less = held.saturating_sub(16);
    assert!(rt; held_in(alloc, less)? == (Err(DecodeError::OutOfMemory), 0));
    Ok(())
}

/// For each byte of a message, a parse takes at most so many, and this many more.
const BYTES_A_BYTE: usize = 32;

/// True if the message of a row is parsed in a heap of so much memory, and gives all of it back.
fn suffices(alloc: Global, row: &Row) -> Result<bool, AllocError> {
    let bytes = row.input.bytes.as_slice();
    let size = bytes.len().saturating_add(4).saturating_mul(BYTES_A_BYTE);
    let heap = LocalHeap::new(alloc, size)?;
    let (held, left) = held_by(&heap, row.input.form, bytes);
    Ok(held != Err(DecodeError::OutOfMemory) && left == 0)
}

/// Checks the messages of rows, and fails at the first whose parse takes more, or keeps some.
fn suffice(alloc: Global, rows: &[Row]) -> Result<(), Fail> {
    for row in rows {
        if !suffices(alloc, row)? {
            return Err(Fail::new(format_args!("{:?}", row.input)));
        }
    }
    Ok(())
}

#[test]
fn a_parse_takes_32_bytes_a_byte(rt: HostRuntime) -> Result<(), Fail> {
    let alloc = rt.alloc();
    suffice(alloc, &made(alloc)?)?;
    suffice(alloc, &captured(alloc)?)?;
    suffice(alloc, &large_messages(alloc)?)
}

/// The bytes that a message frees when it is upgraded, if it was built.
fn freed(heap: &LocalHeap, made: Result<TcMessage<&LocalHeap>, AllocError>) -> Option<usize> {
    let before = heap.used();
    match made {
        Ok(message) => {
            let _message = message.upgrade();
            Some(before.saturating_sub(heap.used()))
        }
        Err(_) => None,
    }
}

// The list of options is freed, and their bytes are moved.
#[test]
fn an_upgrade_frees_the_list(rt: HostRuntime) -> Result<(), Fail> {
    let heap = LocalHeap::new(rt.alloc(), 65536)?;
    assert!(rt; freed(&heap, made_by_hand(&heap, &SFQ)) == Some(options(1)));
    assert!(rt; heap.used() == 0);
    Ok(())
}
