//! Errors of reading.

ghost use Rattle.std.specs.Prelude.{◌≡◌};
ghost use Rattle.nla_frames.specs.declared.error.DecodeError.TheVariants.{OutOfMemory};

use std::alloc::{AllocError, AllocFailed};
use thiserror::Error;

/// The result of reading.
pub type Res<T> = Result<T, DecodeError>;

/// The reason why bytes can't be read: the first fault from left to right. All numbers are in bytes.
#[derive(Drop, PartialEq, Eq, Error, Debug)]
pub enum DecodeError {
    /// A header or fixed record has `len` bytes and needs `needed`.
    #[error("buffer of {len} bytes, {needed} needed")]
    BufferTooSmall { len: usize, needed: usize },

    /// One to three bytes are left where a frame should begin, or none if a single frame is read.
    #[error("frame header of {left} bytes")]
    FrameHeaderShort { left: usize },

    /// A frame's `length` exceeds what is left.
    #[error("frame of {length} bytes, {left} left")]
    FrameTooLong { length: usize, left: usize },

    /// A frame's `length` doesn't cover its own header of four bytes.
    #[error("frame length {length} under 4")]
    FrameTooShort { length: usize },

    /// A payload has `got` bytes, and its type requires `expected`.
    #[error("value of {got} bytes, {expected} expected")]
    WrongLength { expected: usize, got: usize },

    /// A text isn't UTF-8.
    #[error("text is not UTF-8")]
    NotUtf8,

    /// A u32 selector has `len` bytes and needs `needed` for its head and its `nkeys` keys.
    #[error("selector of {len} bytes, {needed} needed")]
    SelectorShort { len: usize, needed: usize },

    /// fq_codel statistics have `len` bytes, too few for the number of their type.
    #[error("statistics of {len} bytes, 4 needed")]
    XstatsShort { len: usize },

    /// An action has no `Kind`.
    #[error("action without kind")]
    MissingKind,

    /// An action has more than one `Kind`.
    #[error("action with several kinds")]
    DuplicateKind,

    /// The allocator failed.
    #[error("out of memory")]
    OutOfMemory,
}

impl From<AllocError> for DecodeError {
    ghost from_gives = { λ _ e. e ≡ OutOfMemory };

    fn from(_e: AllocError) -> DecodeError {
        DecodeError::OutOfMemory
    }
}

impl<T: Drop> From<AllocFailed<T>> for DecodeError {
    ghost from_gives = { λ _ e. e ≡ OutOfMemory };

    fn from(_e: AllocFailed<T>) -> DecodeError {
        DecodeError::OutOfMemory
    }
}

impl DecodeError {
    ghost use Rattle.nla_frames.specs.Fault.{name_of};

    /// The variant's name, such as `FrameTooLong`.
    pub fn name(&self) -> &'static str
        ensures { result.now ≡ name_of self.now }
    {
        match self {
            DecodeError::BufferTooSmall { .. } => "BufferTooSmall",
            DecodeError::FrameHeaderShort { .. } => "FrameHeaderShort",
            DecodeError::FrameTooLong { .. } => "FrameTooLong",
            DecodeError::FrameTooShort { .. } => "FrameTooShort",
            DecodeError::WrongLength { .. } => "WrongLength",
            DecodeError::NotUtf8 => "NotUtf8",
            DecodeError::SelectorShort { .. } => "SelectorShort",
            DecodeError::XstatsShort { .. } => "XstatsShort",
            DecodeError::MissingKind => "MissingKind",
            DecodeError::DuplicateKind => "DuplicateKind",
            DecodeError::OutOfMemory => "OutOfMemory",
        }
    }
}
