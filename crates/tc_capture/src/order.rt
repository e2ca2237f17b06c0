//! Byte order.

ghost use Rattle.std.specs.Prelude.{◌≡◌, ◌+◌, ◌≤◌, length, drop};
ghost use Rattle.tc_capture.specs.Order.{number};

use byteorder::{BigEndian, ByteOrder, LittleEndian};

/// The byte order of numbers.
#[derive(Clone, Copy, PartialEq, Eq, Debug)]
pub enum Order {
    /// Little-endian.
    Little,

    /// Big-endian.
    Big,
}

impl Order {
    /// The number in the two bytes at an offset.
    pub fn u16_at(self, bytes: &[u8], at: usize) -> u16
        requires { at + 2 ≤ length bytes.now }
        ensures { result ≡ number self 2 (drop at bytes.now) }
    {
        let (_, from) = bytes.split_at(at);
        match self {
            Order::Little => LittleEndian::read_u16(from),
            Order::Big => BigEndian::read_u16(from),
        }
    }

    /// The number in the four bytes at an offset.
    pub fn u32_at(self, bytes: &[u8], at: usize) -> u32
        requires { at + 4 ≤ length bytes.now }
        ensures { result ≡ number self 4 (drop at bytes.now) }
    {
        let (_, from) = bytes.split_at(at);
        match self {
            Order::Little => LittleEndian::read_u32(from),
            Order::Big => BigEndian::read_u32(from),
        }
    }

    /// The number in the eight bytes at an offset.
    pub fn u64_at(self, bytes: &[u8], at: usize) -> u64
        requires { at + 8 ≤ length bytes.now }
        ensures { result ≡ number self 8 (drop at bytes.now) }
    {
        let (_, from) = bytes.split_at(at);
        match self {
            Order::Little => LittleEndian::read_u64(from),
            Order::Big => BigEndian::read_u64(from),
        }
    }
}
