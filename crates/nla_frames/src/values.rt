//! Plain values: numbers of a width in either byte order, texts, addresses and bytes.

pub mod bytes;
pub mod read;
pub mod write;
