//! Pieces of a capture.

use crate::error::Res;
use crate::packet::Packet;

/// A piece of a capture: a packet, a header, or another block.
#[derive(Clone, Copy, Debug)]
pub struct Piece<'a> {
    /// Its length in bytes.
    pub used: usize,
    /// The packet in it. `None` for a header, for a pcapng block without a packet, and for a time in a stream. An
    /// error if a pcapng block is whole but can't be read.
    pub packet: Res<Option<Packet<'a>>>,
}
