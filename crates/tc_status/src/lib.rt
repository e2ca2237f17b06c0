//! The status codes of calls from C (`VTC_*` of `bindings/vtc.h`): 0, the number of the first fault of the bytes, or
//! another cause.
//!
//! ```rust
//! assert!(rt; status_of(&DecodeError::NotUtf8) == 6);
//! ```
#![tactic(auto)]

ghost use Rattle.std.specs.Prelude.{◌≡◌, ◌<◌};
ghost use Rattle.tc_status.specs.Status.{status_of, numbers_of};

use nla_frames::DecodeError;

/// Success.
pub const OK: u32 = 0;

/// Out of memory.
pub const OUT_OF_MEMORY: u32 = 11;

/// The message can't be encoded: an attribute's value would have more than 65531 bytes.
pub const DOES_NOT_FIT: u32 = 12;

/// The buffer is too small.
pub const NO_ROOM: u32 = 13;

/// No attribute is left.
pub const END: u32 = 14;

/// A text isn't JSON.
pub const NOT_JSON: u32 = 15;

/// The JSON describes no message.
pub const NO_MESSAGE: u32 = 16;

/// The status of a fault: 1 to 10, and 11 for `OutOfMemory`.
pub fn status_of(fault: &DecodeError) -> u32
    ensures number { result ≡ status_of fault.now }
    ensures some { 0 < result }
{
    match fault {
        DecodeError::BufferTooSmall { .. } => 1,
        DecodeError::FrameHeaderShort { .. } => 2,
        DecodeError::FrameTooLong { .. } => 3,
        DecodeError::FrameTooShort { .. } => 4,
        DecodeError::WrongLength { .. } => 5,
        DecodeError::NotUtf8 => 6,
        DecodeError::SelectorShort { .. } => 7,
        DecodeError::XstatsShort { .. } => 8,
        DecodeError::MissingKind => 9,
        DecodeError::DuplicateKind => 10,
        DecodeError::OutOfMemory => 11,
    }
}

/// The numbers in a fault's fields, in order. 0 for fields that it doesn't have.
pub fn numbers_of(fault: &DecodeError) -> (usize, usize)
    ensures { result ≡ numbers_of fault.now }
{
    match fault {
        DecodeError::BufferTooSmall { len, needed } | DecodeError::SelectorShort { len, needed } =>
            { (*len, *needed) }
        DecodeError::FrameHeaderShort { left } => (*left, 0),
        DecodeError::FrameTooLong { length, left } => (*length, *left),
        DecodeError::FrameTooShort { length } => (*length, 0),
        DecodeError::WrongLength { expected, got } => (*expected, *got),
        DecodeError::XstatsShort { len } => (*len, 0),
        DecodeError::NotUtf8
        | DecodeError::MissingKind
        | DecodeError::DuplicateKind
        | DecodeError::OutOfMemory => (0, 0),
    }
}
