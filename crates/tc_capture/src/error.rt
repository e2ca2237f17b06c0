//! Errors of reading a capture.

use thiserror::Error;

/// The result of reading a capture.
pub type Res<T> = Result<T, CaptureError>;

/// The reason why the front of some bytes can't be read. All numbers are in bytes, except numbers of interfaces.
#[derive(Clone, Copy, PartialEq, Eq, Error, Debug)]
pub enum CaptureError {
    /// The bytes end too early: the piece at their front needs at least `needed` bytes, and `left` are there.
    #[error("{needed} bytes needed, {left} left")]
    Short { needed: usize, left: usize },

    /// `nlmsg_len` doesn't cover its own header of sixteen bytes.
    #[error("message length {length} under 16")]
    MessageTooShort { length: usize },

    /// The header of a pcap file has no known magic number.
    #[error("no pcap header")]
    NotPcap,

    /// A pcapng section has no byte order magic.
    #[error("section without byte order")]
    NoByteOrder,

    /// The length of a block is under twelve or not a multiple of four.
    #[error("block length {length}")]
    BlockLength { length: usize },

    /// The length at the end of a block differs from the one at its beginning.
    #[error("block of {length} bytes ends with the length {end}")]
    BlockEnd { length: usize, end: usize },

    /// The fields of a block need `needed` bytes, and its body has `left`.
    #[error("block body of {left} bytes, {needed} needed")]
    BodyTooShort { needed: usize, left: usize },

    /// A packet names an interface that its section doesn't describe.
    #[error("unknown interface {interface}")]
    NoInterface { interface: usize },

    /// A section describes more than 64 interfaces.
    #[error("too many interfaces")]
    TooManyInterfaces,
}
