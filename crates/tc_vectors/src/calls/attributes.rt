//! Comparisons of attributes and options with what they have to be.

use crate::tables::{is_attribute, is_shown};
use std::alloc::{AllocError, Global};
use std::fmt::Debug;
use tc_wire::{
    Nla, NlaBuffer, ParseableBytes, ParseableParametrized, Res, Settle, TcAttribute, TcOption,
    VecTcAttribute, VecTcOption, parse_frames_with,
};

// True if a frame is parsed under a kind as an attribute of this text, which is settled there and written as this frame in hex.
fn is_parsed_as<T: ParseableParametrized<Global> + Nla + Settle + Debug + Drop>(
    alloc: Global,
    kind: &str,
    frame: &[u8],
    text: &str,
    written: &str,
) -> Res<bool> {
    let attribute = T::parse_with_param(alloc, &NlaBuffer::new_checked(frame)?, kind)?;
    Ok(attribute.is_settled_under(kind) && is_attribute(alloc, &attribute, text, written))
}

/// True if a frame is parsed under a kind as an option of this text, which is settled there and written as this frame in hex.
pub(crate) fn is_read_option(
    alloc: Global,
    kind: &str,
    frame: &[u8],
    text: &str,
    written: &str,
) -> Res<bool> {
    is_parsed_as::<TcOption>(alloc, kind, frame, text, written)
}

fn settles_under<T: Settle + Drop>(kind: &str, made: Result<T, AllocError>) -> bool {
    match &made {
        Ok(value) => value.is_settled_under(kind),
        Err(_) => false,
    }
}

/// True if an attribute was made that is settled under a kind.
pub(crate) fn is_settled_attribute(kind: &str, made: Result<TcAttribute, AllocError>) -> bool {
    settles_under(kind, made)
}

/// True if an option was made that is settled under a kind.
pub(crate) fn is_settled_option(kind: &str, made: Result<TcOption, AllocError>) -> bool {
    settles_under(kind, made)
}

/// True if bytes are parsed as a message's attributes of this text.
pub(crate) fn are_attributes(alloc: Global, bytes: &[u8], text: &str) -> Res<bool> {
    Ok(is_shown(alloc, &VecTcAttribute::parse(alloc, bytes)?.0, text))
}

/// True if the frame of a TCA_OPTIONS attribute is parsed as options of a kind of this text.
pub(crate) fn are_options(alloc: Global, kind: &str, frame: &[u8], text: &str) -> Res<bool> {
    let frame = NlaBuffer::new_checked(frame)?;
    Ok(is_shown(
        alloc,
        &VecTcOption::parse_with_param(alloc, &frame, kind)?.0,
        text,
    ))
}

/// True if a frame that was cut off is parsed as a list of one option of a kind, of this text.
pub(crate) fn is_cut_option(alloc: Global, kind: &str, frame: &[u8], text: &str) -> Res<bool> {
    let frame = NlaBuffer::new_checked(frame)?;
    let options: Vec<TcOption> = parse_frames_with(alloc, &[frame], kind)?;
    Ok(is_shown(alloc, &options, text))
}
