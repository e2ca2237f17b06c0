//! Large messages: a list of many attributes, a selector of as many keys as it can count, a long text, and a warning of many NULs.

use crate::input::{Form, Input};
use crate::row::{Expected, Row};
use std::alloc::{AllocError, Global};

/// The number of attributes in the list.
pub const MANY_ATTRIBUTES: u32 = 4096;

/// The number of keys in the selector, also its `nkeys`.
pub const MANY_KEYS: u8 = 255;

/// The number of letters in the text.
pub const MANY_LETTERS: usize = 60_000;

/// The number of NULs at the end of the warning.
pub const MANY_NULS: usize = 300;

// The message of these attributes, which is canonical.
fn canonical(alloc: Global, frames: &[&[u8]]) -> Result<Row, AllocError> {
    let input = Input::of_frames(alloc, Form::Tc, frames)?;
    let expected = emitted_as(true, input.bytes.to_vec(alloc)?);
    Ok(Row { input, expected })
}

// What is expected of a message that is emitted as these bytes.
fn emitted_as(is_canonical: bool, emitted: Vec<u8>) -> Expected {
    Expected::Accepted {
        fits: true,
        settled: is_canonical,
        canonical: is_canonical,
        emitted,
    }
}

// A list of TCA_CHAIN attributes with the numbers from 0 on.
fn many_attributes(alloc: Global) -> Result<Row, AllocError> {
    let mut frames = Vec::new(alloc);
    for chain in 0..MANY_ATTRIBUTES {
        let [a, b, c, d] = chain.to_le_bytes();
        frames.extend_from_slice(&[8, 0, 11, 0, a, b, c, d])?;
    }
    canonical(alloc, &[&frames])
}

// A selector, whose keys match the numbers from 0 on at offset 16.
fn selector(alloc: Global) -> Result<Vec<u8>, AllocError> {
    let fields = [1, 0, MANY_KEYS, 0, 0, 0, 0, 0, 0, 0, 0, 0, 0, 0, 0, 0];
    let mut selector = fields.to_vec(alloc)?;
    for key in 0..MANY_KEYS {
        let fields = [
            0xff, 0xff, 0xff, 0xff, 0, 0, 0, key, 16, 0, 0, 0, 0, 0, 0, 0,
        ];
        selector.extend_from_slice(&fields)?;
    }
    Ok(selector)
}

// The kind u32, and its options: the selector, in two attributes of 4104 and 4100 bytes.
fn many_keys(alloc: Global) -> Result<Row, AllocError> {
    let selector = selector(alloc)?;
    let fronts = [8, 16, 2, 0, 4, 16, 5, 0];
    canonical(alloc, &[b"\x08\0\x01\0u32\0", &fronts, &selector])
}

// A kind of many letters, which is none of the six: an attribute of 60005 bytes, and its padding.
fn many_letters(alloc: Global) -> Result<Row, AllocError> {
    let text = vec![in alloc; b'a'; MANY_LETTERS]?;
    canonical(alloc, &[&[0x65, 0xea, 1, 0], &text, &[0; 4]])
}

// The action message with the warning, of one letter and the NULs in 305 bytes and their padding, which loses one NUL when it is written.
fn warning(alloc: Global) -> Result<Row, AllocError> {
    let read = [&[0x31, 1, 5, 0, b'a'], [0; MANY_NULS + 3].as_slice()];
    let written = [&[0x30, 1, 5, 0, b'a'], [0; MANY_NULS - 1].as_slice()];
    let input = Input::of_frames(alloc, Form::Action, &read)?;
    let emitted = Input::of_frames(alloc, Form::Action, &written)?.bytes;
    let expected = emitted_as(false, emitted);
    Ok(Row { input, expected })
}

// The large message of this number.
fn large_message(alloc: Global, place: u8) -> Result<Row, AllocError> {
    match place {
        0 => many_attributes(alloc),
        1 => many_keys(alloc),
        2 => many_letters(alloc),
        _ => warning(alloc),
    }
}

/// The four large messages: the list, the selector, the text, and the warning.
pub fn large_messages(alloc: Global) -> Result<Vec<Row>, AllocError> {
    let mut rows = Vec::new(alloc);
    for place in 0..4 {
        rows.push(large_message(alloc, place)?)?;
    }
    Ok(rows)
}
