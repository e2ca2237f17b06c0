//! Tables of known answers, a row a line and its cells parted by bars, and how rows of attributes are checked.

ghost use Rattle.std.specs.Prelude.{◌<◌};

use nla_frames::{Nla, NlaBuffer, Parseable, Res, Settle};
use std::alloc::{AllocError, Global};
use std::fmt::Debug;
use std::str::Split;
use std::test::Fail;

/// The rows of a table: one at least, since no text at all is a row that can't be cut.
pub(crate) fn rows(table: &str) -> Split<'_, char> {
    table.trim().split('\n')
}

/// The cells of a row: two, and a third, which is empty where the row has two. A row of fewer or more can't be cut.
pub(crate) fn cells(row: &str) -> Option<(&str, &str, &str)> {
    let mut cells = row.split('|');
    match (cells.next(), cells.next(), cells.next(), cells.next()) {
        (Some(first), Some(second), third, None) => {
            Some((first.trim(), second.trim(), third.unwrap_or("").trim()))
        }
        _ => None,
    }
}

/// The cells of a row of two.
pub(crate) fn pair(row: &str) -> Option<(&str, &str)> {
    match cells(row) {
        Some((first, second, third)) if third.is_empty() => Some((first, second)),
        _ => None,
    }
}

fn digit(letter: u8) -> u8
    ensures { result < 16 }
{
    match letter {
        b'0'..=b'9' => letter - b'0',
        b'a'..=b'f' => letter - b'a' + 10,
        _ => 0,
    }
}

/// The bytes of a header and of frames. The frames are in hex, with spaces between bytes or without.
pub(crate) fn bytes_of(alloc: Global, header: &[u8], frames: &str) -> Result<Vec<u8>, AllocError> {
    let mut bytes = header.to_vec(alloc)?;
    for word in frames.split(' ') {
        for pair in word.as_bytes().chunks(2) {
            if let [high, low] = pair {
                bytes.push(16 * digit(*high) + digit(*low))?;
            }
        }
    }
    Ok(bytes)
}

/// True if these are the bytes of frames in hex.
pub(crate) fn is_hex(bytes: &[u8], frames: &str) -> bool {
    let mut left = bytes;
    for word in frames.split(' ') {
        for pair in word.as_bytes().chunks(2) {
            match (pair, left) {
                ([high, low], [byte, after @ ..]) if *byte == 16 * digit(*high) + digit(*low) => {
                    left = after;
                }
                _ => return false,
            }
        }
    }
    left.is_empty()
}

/// The text that is written: the one that was read if the row has no other.
pub(crate) fn or_same<'a>(read: &'a str, written: &'a str) -> &'a str {
    if written.is_empty() { read } else { written }
}

/// True if a value has this `Debug` text.
pub(crate) fn is_shown<T: Debug>(alloc: Global, value: &T, text: &str) -> bool {
    match format!(in alloc; "{value:?}") {
        Ok(shown) => shown.as_str() == text,
        Err(_) => false,
    }
}

/// True if an attribute is written as this frame in hex.
pub(crate) fn is_written<T: Nla>(attribute: &T, frame: &str) -> bool {
    let mut buffer = [0x55; 640];
    if !attribute.fits() {
        return false;
    }
    let len = attribute.frame_len();
    if len > buffer.len() {
        return false;
    }
    attribute.emit_frame(&mut buffer);
    is_hex(&buffer[..len], frame)
}

/// True if an attribute has this text, and is written as this frame in hex.
pub(crate) fn is_attribute<T: Nla + Debug>(
    alloc: Global,
    attribute: &T,
    text: &str,
    frame: &str,
) -> bool {
    is_shown(alloc, attribute, text) && is_written(attribute, frame)
}

/// True if a value is settled.
pub(crate) fn settles<T: Settle + Drop>(value: T) -> bool {
    value.is_settled()
}

/// True if a frame is parsed as an attribute of this text, and that written as this frame in hex.
fn is_parsed_as<T: Parseable<Global> + Nla + Debug + Drop>(
    alloc: Global,
    frame: &[u8],
    text: &str,
    written: &str,
) -> Res<bool> {
    let attribute = T::parse(alloc, &NlaBuffer::new_checked(frame)?)?;
    Ok(is_attribute(alloc, &attribute, text, written))
}

/// True if a frame is parsed as an attribute of the second cell's text, and that written as the third cell, or as it came where that is empty.
fn is_known<T: Parseable<Global> + Nla + Debug + Drop>(alloc: Global, row: &str) -> Res<bool> {
    match cells(row) {
        Some((frame, text, written)) => {
            let bytes = bytes_of(alloc, &[], frame)?;
            is_parsed_as::<T>(alloc, &bytes, text, or_same(frame, written))
        }
        None => Ok(false),
    }
}

/// Checks each row, and fails at the first that is read or written otherwise.
pub(crate) fn are_known<T: Parseable<Global> + Nla + Debug + Drop>(
    alloc: Global,
    table: &str,
) -> Result<(), Fail> {
    for row in rows(table) {
        if !matches!(is_known::<T>(alloc, row), Ok(true)) {
            return Err(Fail::new(row));
        }
    }
    Ok(())
}
