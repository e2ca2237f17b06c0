//! pcapng blocks.

mod read;

use crate::order::Order;
pub(crate) use read::{SECTION, next_block};

/// A block: its byte order, its type and its body.
#[derive(Clone, Copy, Debug)]
pub(crate) struct Block<'a> {
    pub(crate) order: Order,
    pub(crate) kind: u32,
    pub(crate) body: &'a [u8],
}
