//! Writing plain values, each at the front of a buffer. The rest of the buffer is unchanged.

ghost use Rattle.std.specs.Prelude.{◌≡◌, ℕ, List, ◌∷◌, [], length};
ghost use Rattle.std.specs.Prelude.{◌≤◌, ◌<◌, ◌^◌};
ghost use Rattle.nla_frames.specs.Emission.{Measures, Writes, HasRoom};
ghost use Rattle.nla_frames.specs.Value.{IsBytes, IsText, le_bytes, be_bytes, terminated};

use crate::nla::NLA_VALUE_MAX_SIZE;
use crate::values::bytes::{u16_be_bytes, u16_bytes, u32_be_bytes, u32_bytes, u64_bytes};

/// The number of bytes, or `None` if they are too many for a value.
pub fn checked_value_len(bytes: &[u8]) -> Option<usize>
    ensures { Measures result (length bytes.now ≤ 65531) bytes.now }
{
    if bytes.len() <= NLA_VALUE_MAX_SIZE {
        Some(bytes.len())
    } else {
        None
    }
}

/// Writes the bytes and returns their number.
pub fn put_bytes(buffer: &mut [u8], bytes: &[u8]) -> usize
    requires { HasRoom bytes.now buffer.old }
    ensures written { Writes bytes.now buffer.old buffer.new }
    ensures length { result ≡ length bytes.now }
    ensures typed { IsBytes bytes.now }
{
    buffer[..bytes.len()].copy_from_slice(bytes);
    bytes.len()
}

/// Writes a text and one NUL after it, and returns the length of both.
pub fn put_text(buffer: &mut [u8], text: &str) -> usize
    requires { HasRoom (terminated text.now) buffer.old }
    ensures written { Writes (terminated text.now) buffer.old buffer.new }
    ensures length { result ≡ length (terminated text.now) }
    ensures typed { IsText text.now }
{
    let len = put_bytes(buffer, text.as_bytes());
    buffer[len] = 0;
    len + 1
}

/// Writes a number of one byte, and returns 1.
pub fn put_u8(buffer: &mut [u8], value: u8) -> usize
    requires { HasRoom (le_bytes 1 value) buffer.old }
    ensures written { Writes (le_bytes 1 value) buffer.old buffer.new }
    ensures length { result ≡ 1 }
    ensures typed { value < 256 ^ 1 }
{
    buffer[0] = value;
    1
}

/// Writes a number of two bytes, little-endian.
pub fn emit_u16(buffer: &mut [u8], value: u16)
    requires { HasRoom (le_bytes 2 value) buffer.old }
    ensures { Writes (le_bytes 2 value) buffer.old buffer.new }
{
    put_bytes(buffer, &u16_bytes(value));
}

/// Writes a number of four bytes, little-endian.
pub fn emit_u32(buffer: &mut [u8], value: u32)
    requires { HasRoom (le_bytes 4 value) buffer.old }
    ensures { Writes (le_bytes 4 value) buffer.old buffer.new }
{
    put_bytes(buffer, &u32_bytes(value));
}

/// Writes a number of two bytes, big-endian.
pub fn emit_u16_be(buffer: &mut [u8], value: u16)
    requires { HasRoom (be_bytes 2 value) buffer.old }
    ensures { Writes (be_bytes 2 value) buffer.old buffer.new }
{
    put_bytes(buffer, &u16_be_bytes(value));
}

/// Writes a number of four bytes, big-endian.
pub fn emit_u32_be(buffer: &mut [u8], value: u32)
    requires { HasRoom (be_bytes 4 value) buffer.old }
    ensures { Writes (be_bytes 4 value) buffer.old buffer.new }
{
    put_bytes(buffer, &u32_be_bytes(value));
}

/// Writes a number of two bytes, little-endian, and returns 2.
pub fn put_u16(buffer: &mut [u8], value: u16) -> usize
    requires { HasRoom (le_bytes 2 value) buffer.old }
    ensures written { Writes (le_bytes 2 value) buffer.old buffer.new }
    ensures length { result ≡ 2 }
    ensures typed { value < 256 ^ 2 }
{
    emit_u16(buffer, value);
    2
}

/// Writes a number of four bytes, little-endian, and returns 4.
pub fn put_u32(buffer: &mut [u8], value: u32) -> usize
    requires { HasRoom (le_bytes 4 value) buffer.old }
    ensures written { Writes (le_bytes 4 value) buffer.old buffer.new }
    ensures length { result ≡ 4 }
    ensures typed { value < 256 ^ 4 }
{
    emit_u32(buffer, value);
    4
}

/// Writes a number of eight bytes, little-endian, and returns 8.
pub fn put_u64(buffer: &mut [u8], value: u64) -> usize
    requires { HasRoom (le_bytes 8 value) buffer.old }
    ensures written { Writes (le_bytes 8 value) buffer.old buffer.new }
    ensures length { result ≡ 8 }
    ensures typed { value < 256 ^ 8 }
{
    put_bytes(buffer, &u64_bytes(value))
}

/// Writes a number of two bytes, big-endian, and returns 2.
pub fn put_u16_be(buffer: &mut [u8], value: u16) -> usize
    requires { HasRoom (be_bytes 2 value) buffer.old }
    ensures written { Writes (be_bytes 2 value) buffer.old buffer.new }
    ensures length { result ≡ 2 }
    ensures typed { value < 256 ^ 2 }
{
    emit_u16_be(buffer, value);
    2
}

/// Writes a number of four bytes, big-endian, and returns 4.
pub fn put_u32_be(buffer: &mut [u8], value: u32) -> usize
    requires { HasRoom (be_bytes 4 value) buffer.old }
    ensures written { Writes (be_bytes 4 value) buffer.old buffer.new }
    ensures length { result ≡ 4 }
    ensures typed { value < 256 ^ 4 }
{
    emit_u32_be(buffer, value);
    4
}
