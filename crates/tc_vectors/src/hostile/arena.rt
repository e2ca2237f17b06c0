//! Messages in an arena: it is emptied after each, and may take no more than it is given.

use crate::messages::FQ_CODEL;
use bumpalo::Bump;
use std::alloc::Global;
use std::test::Fail;
use tc_wire::{DecodeError, Emitable, ParseableBytes, TcActionMessage, TcMessage};
use tests_data::{Expected, Form, Row, captured, large_messages, made};

fn length_as<'a, M: ParseableBytes<&'a Bump> + Emitable + Drop>(
    arena: &'a Bump,
    bytes: &[u8],
) -> Result<Option<usize>, DecodeError> {
    Ok(M::parse(arena, bytes)?.checked_len())
}

/// The length of the message that bytes are parsed as in the arena, or why they aren't parsed.
fn length_in(arena: &Bump, bytes: &[u8], form: Form) -> Result<Option<usize>, DecodeError> {
    match form {
        Form::Tc => length_as::<TcMessage<&Bump>>(arena, bytes),
        Form::Action => length_as::<TcActionMessage<&Bump>>(arena, bytes),
    }
}

/// True if the message of a row is parsed in the arena as the row says.
fn is_as_expected(arena: &Bump, row: &Row) -> bool {
    let length = length_in(arena, &row.input.bytes, row.input.form);
    match (&row.expected, length) {
        (Expected::Refused(name), Err(fault)) => fault.name() == name.as_str(),
        (Expected::Accepted { fits, emitted, .. }, Ok(length)) => {
            if *fits {
                length == Some(emitted.len())
            } else {
                length.is_none()
            }
        }
        _ => false,
    }
}

/// Parses the message of each row in the arena, which is emptied after each; fails at the first that isn't as the row
/// says.
fn parse_all(arena: &mut Bump, rows: &[Row]) -> Result<(), Fail> {
    for row in rows {
        if !is_as_expected(arena, row) {
            return Err(Fail::new(format_args!("{:?}", row.input)));
        }
        arena.reset()?;
    }
    Ok(())
}

/// An arena with room for so many bytes, which takes no more.
fn arena_of(alloc: Global, size: usize) -> Result<Bump, Fail> {
    let arena = Bump::try_with_capacity(alloc, size)?;
    arena.set_allocation_limit(Some(arena.allocated_bytes()));
    Ok(arena)
}

#[test]
fn an_arena_serves_message_after_message(rt: HostRuntime) -> Result<(), Fail> {
    let alloc = rt.alloc();
    let mut arena = arena_of(alloc, 1 << 16)?;
    parse_all(&mut arena, &made(alloc)?)?;
    parse_all(&mut arena, &captured(alloc)?)
}

/// True if the message of a row has no room in the arena.
fn is_too_large(arena: &Bump, row: Option<&Row>) -> bool {
    match row {
        Some(row) => length_in(arena, &row.input.bytes, Form::Tc) == Err(DecodeError::OutOfMemory),
        None => false,
    }
}

/// True if the first of the large messages has none.
fn is_full(alloc: Global, arena: &Bump) -> bool {
    match &large_messages(alloc) {
        Ok(rows) => is_too_large(arena, rows.first()),
        Err(_) => false,
    }
}

#[test]
fn a_full_arena_is_out_of_memory(rt: HostRuntime) -> Result<(), Fail> {
    let mut arena = arena_of(rt.alloc(), 4096)?;
    assert!(rt; is_full(rt.alloc(), &arena));
    arena.reset()?;
    assert!(rt; length_in(&arena, &FQ_CODEL, Form::Tc) == Ok(Some(48)));
    Ok(())
}
