//! The values of attributes, with width, byte order and mask.

ghost use Rattle.std.specs.Prelude.{◌≡◌, ◌<◌, ◌↔◌, IsTrue, length};
ghost use Rattle.nla_frames.specs.Emission.{Measures, Writes, HasRoom};
ghost use Rattle.nla_frames.specs.Value.{terminated, strip};
ghost use Rattle.tc_values.specs.Value.{value_bytes, ValueFits, TypedValue, SettledAs};

use crate::body::{Body, NoBody};
use nla_frames::laws::in_range::{
    bytes_are_in_range, text_is_utf8, u8_is_in_range, u16_is_in_range, u32_is_in_range,
};
use nla_frames::{
    NLA_VALUE_MAX_SIZE, checked_value_len, put_bytes, put_text, put_u8, put_u16, put_u16_be,
    put_u32, put_u32_be, strip_nul,
};

/// The value of an attribute as it is encoded. Numbers are little-endian unless their name ends in `Be`.
#[derive(Drop)]
pub enum Value<'a, N = NoBody> {
    /// No bytes: the attribute's presence means true.
    Presence(bool),
    /// One byte: 1 or 0.
    Truth(bool),
    U8(u8),
    U16(u16),
    U32(u32),
    U16Be(u16),
    U32Be(u32),
    /// One byte, of which the lowest bit is kept.
    Bits1(u8),
    /// One byte, of which the lowest three bits are kept.
    Bits3(u8),
    /// Four bytes, little-endian, of which the lowest twenty bits are kept.
    Bits20(u32),
    /// An IPv4 address.
    Octets4([u8; 4]),
    /// A MAC address.
    Octets6([u8; 6]),
    Octets8([u8; 8]),
    /// Sixteen bytes, such as an IPv6 address.
    Octets16([u8; 16]),
    Bytes(&'a [u8]),
    /// A text, encoded with one NUL after it.
    Text(&'a str),
    /// A text, encoded without a NUL: `TCA_EXT_WARN_MSG`.
    Warning(&'a str),
    /// The payload of an attribute kept raw.
    Kept(&'a [u8]),
    /// A nested payload.
    Nested(N),
}

impl<'a, N: Body> Value<'a, N> {
    /// The encoded length in bytes, or `None` if it can't be encoded.
    #[inline(always)]
    pub fn checked_len(&self) -> Option<usize>
        ensures { Measures result (ValueFits N.Fits self.now) (value_bytes N.bytes self.now) }
    {
        match self {
            Value::Presence(_) => Some(0),
            Value::Truth(_) | Value::U8(_) | Value::Bits1(_) | Value::Bits3(_) => Some(1),
            Value::U16(_) | Value::U16Be(_) => Some(2),
            Value::U32(_) | Value::U32Be(_) | Value::Bits20(_) => Some(4),
            Value::Octets4(octets) => checked_value_len(octets),
            Value::Octets6(octets) => checked_value_len(octets),
            Value::Octets8(octets) => checked_value_len(octets),
            Value::Octets16(octets) => checked_value_len(octets),
            Value::Bytes(bytes) | Value::Kept(bytes) => checked_value_len(bytes),
            Value::Warning(text) => checked_value_len(text.as_bytes()),
            Value::Text(text) => checked_text_len(text),
            Value::Nested(nested) => nested.checked_len(),
        }
    }

    /// Writes the value at the front of the buffer and returns its length in bytes.
    #[inline(always)]
    pub fn put(&self, buffer: &mut [u8]) -> usize
        requires fits { ValueFits N.Fits self.now }
        requires room { HasRoom (value_bytes N.bytes self.now) buffer.old }
        ensures written { Writes (value_bytes N.bytes self.now) buffer.old buffer.new }
        ensures length { result ≡ length (value_bytes N.bytes self.now) }
        ensures typed { TypedValue N.Typed self.now }
    {
        // Does nothing at run time; the clause `typed` follows from its contract.
        self.in_range();
        match self {
            Value::Presence(_) => 0,
            Value::Truth(is_true) => put_u8(buffer, if *is_true { 1 } else { 0 }),
            Value::U8(n) => put_u8(buffer, *n),
            Value::U16(n) => put_u16(buffer, *n),
            Value::U32(n) => put_u32(buffer, *n),
            Value::U16Be(n) => put_u16_be(buffer, *n),
            Value::U32Be(n) => put_u32_be(buffer, *n),
            Value::Bits1(n) => put_u8(buffer, *n % 2),
            Value::Bits3(n) => put_u8(buffer, *n % 8),
            Value::Bits20(n) => put_u32(buffer, *n % 0x10_0000),
            Value::Octets4(octets) => put_bytes(buffer, octets),
            Value::Octets6(octets) => put_bytes(buffer, octets),
            Value::Octets8(octets) => put_bytes(buffer, octets),
            Value::Octets16(octets) => put_bytes(buffer, octets),
            Value::Bytes(bytes) | Value::Kept(bytes) => put_bytes(buffer, bytes),
            Value::Warning(text) => put_bytes(buffer, text.as_bytes()),
            Value::Text(text) => put_text(buffer, text),
            Value::Nested(nested) => nested.put(buffer),
        }
    }

    /// True if encoding it and parsing the bytes under this kind returns it unchanged. `is_read` says whether its table
    /// has the attribute's type.
    pub fn is_settled_under(&self, is_read: bool, kind: &str) -> bool
        ensures settled { IsTrue result ↔ SettledAs N.Settled is_read kind.now self.now }
        ensures typed { IsTrue result → TypedValue N.Typed self.now }
    {
        // Does nothing at run time; the clause `typed` follows from its contract.
        self.in_range();
        match self {
            Value::Kept(_) => !is_read,
            Value::Presence(is_there) => is_read && *is_there,
            Value::Bits1(n) => is_read && *n < 2,
            Value::Bits3(n) => is_read && *n < 8,
            Value::Bits20(n) => is_read && *n < 0x10_0000,
            Value::Warning(text) => is_read && is_stripped(text.as_bytes()),
            Value::Nested(nested) => is_read && nested.is_settled_under(kind),
            _ => is_read,
        }
    }

    // Does nothing at run time. Its contract: each number is in the range of its type, and each text is UTF-8.
    fn in_range(&self)
        ensures { TypedValue (λ _. Unit {0}) self.now }
    {
        match self {
            Value::U8(n) | Value::Bits1(n) | Value::Bits3(n) => u8_is_in_range(*n),
            Value::U16(n) | Value::U16Be(n) => u16_is_in_range(*n),
            Value::U32(n) | Value::U32Be(n) | Value::Bits20(n) => u32_is_in_range(*n),
            Value::Octets4(octets) => bytes_are_in_range(octets),
            Value::Octets6(octets) => bytes_are_in_range(octets),
            Value::Octets8(octets) => bytes_are_in_range(octets),
            Value::Octets16(octets) => bytes_are_in_range(octets),
            Value::Bytes(bytes) | Value::Kept(bytes) => bytes_are_in_range(bytes),
            Value::Text(text) | Value::Warning(text) => text_is_utf8(text),
            Value::Presence(_) | Value::Truth(_) | Value::Nested(_) => {}
        }
    }
}

// The length of a text and its NUL in bytes, or `None` if an attribute can't hold as many.
fn checked_text_len(text: &str) -> Option<usize>
    ensures { Measures result (length text.now < 65531) (terminated text.now) }
{
    if text.len() < NLA_VALUE_MAX_SIZE {
        Some(text.len() + 1)
    } else {
        None
    }
}

// True if the bytes don't end in a NUL.
fn is_stripped(bytes: &[u8]) -> bool
    ensures { IsTrue result ↔ strip bytes.now ≡ bytes.now }
{
    strip_nul(bytes).len() == bytes.len()
}
