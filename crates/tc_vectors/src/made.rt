//! Attributes and messages made by hand. What is made is passed on as it is, made or not, so that nothing that is dropped is held where a call fails.

use nla_frames::DefaultNla;
use std::alloc::{AllocError, Allocator, Global};
use tc_records::TcHeader;
use tc_wire::{TcAttribute, TcMessage, TcOption};

pub(crate) fn kind<A: Allocator>(alloc: A, text: &str) -> Result<TcAttribute<A>, AllocError> {
    Ok(TcAttribute::Kind(text.to_string(alloc)?))
}

/// An attribute that is kept raw.
pub(crate) fn kept<A: Allocator>(
    alloc: A,
    word: u16,
    value: &[u8],
) -> Result<DefaultNla<A>, AllocError> {
    Ok(DefaultNla::new(word, value.to_vec(alloc)?))
}

/// An option that no table has.
pub(crate) fn other<A: Allocator>(
    alloc: A,
    word: u16,
    value: &[u8],
) -> Result<TcOption<A>, AllocError> {
    Ok(TcOption::Other(kept(alloc, word, value)?))
}

/// Raw options.
pub(crate) fn raw<A: Allocator>(
    alloc: A,
    word: u16,
    value: &[u8],
) -> Result<TcAttribute<A>, AllocError> {
    Ok(TcAttribute::OptionsRaw(kept(alloc, word, value)?))
}

/// The attribute of these options.
pub(crate) fn options<A: Allocator>(
    list: Result<Vec<TcOption<A>, A>, AllocError>,
) -> Result<TcAttribute<A>, AllocError> {
    Ok(TcAttribute::Options(list?))
}

/// Options of this one alone.
pub(crate) fn option(
    alloc: Global,
    option: Result<TcOption, AllocError>,
) -> Result<TcAttribute, AllocError> {
    options(pushed(Ok(Vec::new(alloc)), option))
}

/// A list with one item more.
pub(crate) fn pushed<T: Drop, A: Allocator>(
    list: Result<Vec<T, A>, AllocError>,
    item: Result<T, AllocError>,
) -> Result<Vec<T, A>, AllocError> {
    let mut list = list?;
    list.push(item?)?;
    Ok(list)
}

/// The message of an empty header and these attributes.
pub(crate) fn message<A: Allocator>(
    attributes: Result<Vec<TcAttribute<A>, A>, AllocError>,
) -> Result<TcMessage<A>, AllocError> {
    Ok(TcMessage::from_parts(TcHeader::default(), attributes?))
}
