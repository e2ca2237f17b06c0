//! The range of each plain type, as contracts of empty functions: a call proves that its argument is in range.

ghost use Rattle.std.specs.Prelude.{◌<◌, ◌^◌};
ghost use Rattle.nla_frames.specs.Value.{IsBytes, IsText};

/// A `u8` has one byte.
pub fn u8_is_in_range(number: u8)
    ensures { number < 256 ^ 1 }
{}

/// A `u16` has two bytes.
pub fn u16_is_in_range(number: u16)
    ensures { number < 256 ^ 2 }
{}

/// A `u32` has four bytes.
pub fn u32_is_in_range(number: u32)
    ensures { number < 256 ^ 4 }
{}

/// Each `u8` of a slice is a byte.
pub fn bytes_are_in_range(bytes: &[u8])
    ensures { IsBytes bytes.now }
{}

/// A `str` is UTF-8.
pub fn text_is_utf8(text: &str)
    ensures { IsText text.now }
{}
