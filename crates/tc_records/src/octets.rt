//! A scratch array for the bytes of a record.

ghost use Rattle.std.specs.Prelude.{◌≡◌, ◌≤◌, ◌+◌, ◌++◌, [], length, replicate};
ghost use Rattle.std.specs.Int.{w16, w32, cast_unsigned};
ghost use Rattle.std.specs.Net.Addr.{ipv4_octets};
ghost use Rattle.nla_frames.specs.Value.{le_bytes, be_bytes};
ghost use Rattle.tc_records.specs.Record.{written, filled};

use nla_frames::{i32_bytes, u16_be_bytes, u16_bytes, u32_be_bytes, u32_bytes, u64_bytes};
use std::net::Ipv4Addr;

/// The length of the longest record, `struct tc_stats`, in bytes.
pub(crate) const LONGEST: usize = 40;

/// The bytes written so far, in an array for the longest record. Each call appends a field. Numbers are little-endian,
/// except in `u16_be` and `u32_be`.
#[derive(Drop)]
pub struct Octets {
    bytes: [u8; LONGEST],
    len: usize,
}

impl Octets {
    #[tactic(auto, unfolding(crate::specs::Record::written))]
    pub fn new() -> Octets
        ensures written { written result ≡ [] }
        ensures len { filled result ≡ 0 }
    {
        Octets {
            bytes: [0; LONGEST],
            len: 0,
        }
    }

    /// Appends bytes.
    #[tactic(auto, unfolding(crate::specs::Record::written))]
    pub fn octets(&mut self, octets: &[u8])
        requires { filled self.old + length octets.now ≤ 40 }
        ensures written { written self.new ≡ written self.old ++ octets.now }
        ensures len { filled self.new ≡ filled self.old + length octets.now }
    {
        let end = self.len + octets.len();
        self.bytes[self.len..end].copy_from_slice(octets);
        self.len = end;
    }

    /// Appends padding: up to eight zero bytes.
    pub fn pad(&mut self, count: usize)
        requires few { count ≤ 8 }
        requires room { filled self.old + count ≤ 40 }
        ensures written { written self.new ≡ written self.old ++ replicate count 0 }
        ensures len { filled self.new ≡ filled self.old + count }
    {
        self.octets(&[0; 8][..count]);
    }

    pub fn u8(&mut self, value: u8)
        requires { filled self.old + 1 ≤ 40 }
        ensures written { written self.new ≡ written self.old ++ le_bytes 1 value }
        ensures len { filled self.new ≡ filled self.old + 1 }
    {
        self.octets(&[value]);
    }

    pub fn u16(&mut self, value: u16)
        requires { filled self.old + 2 ≤ 40 }
        ensures written { written self.new ≡ written self.old ++ le_bytes 2 value }
        ensures len { filled self.new ≡ filled self.old + 2 }
    {
        self.octets(&u16_bytes(value));
    }

    pub fn u16_be(&mut self, value: u16)
        requires { filled self.old + 2 ≤ 40 }
        ensures written { written self.new ≡ written self.old ++ be_bytes 2 value }
        ensures len { filled self.new ≡ filled self.old + 2 }
    {
        self.octets(&u16_be_bytes(value));
    }

    pub fn i16(&mut self, value: i16)
        requires { filled self.old + 2 ≤ 40 }
        ensures written { written self.new
            ≡ written self.old ++ le_bytes 2 (cast_unsigned w16 value) }
        ensures len { filled self.new ≡ filled self.old + 2 }
    {
        self.octets(&i16::to_le_bytes(value));
    }

    pub fn u32(&mut self, value: u32)
        requires { filled self.old + 4 ≤ 40 }
        ensures written { written self.new ≡ written self.old ++ le_bytes 4 value }
        ensures len { filled self.new ≡ filled self.old + 4 }
    {
        self.octets(&u32_bytes(value));
    }

    pub fn u32_be(&mut self, value: u32)
        requires { filled self.old + 4 ≤ 40 }
        ensures written { written self.new ≡ written self.old ++ be_bytes 4 value }
        ensures len { filled self.new ≡ filled self.old + 4 }
    {
        self.octets(&u32_be_bytes(value));
    }

    pub fn i32(&mut self, value: i32)
        requires { filled self.old + 4 ≤ 40 }
        ensures written { written self.new
            ≡ written self.old ++ le_bytes 4 (cast_unsigned w32 value) }
        ensures len { filled self.new ≡ filled self.old + 4 }
    {
        self.octets(&i32_bytes(value));
    }

    pub fn u64(&mut self, value: u64)
        requires { filled self.old + 8 ≤ 40 }
        ensures written { written self.new ≡ written self.old ++ le_bytes 8 value }
        ensures len { filled self.new ≡ filled self.old + 8 }
    {
        self.octets(&u64_bytes(value));
    }

    /// Appends an IPv4 address, four bytes.
    pub fn ipv4_addr(&mut self, value: Ipv4Addr)
        requires { filled self.old + 4 ≤ 40 }
        ensures written { written self.new ≡ written self.old ++ ipv4_octets value }
        ensures len { filled self.new ≡ filled self.old + 4 }
    {
        self.octets(&value.octets());
    }

    /// The bytes written so far.
    #[tactic(auto, unfolding(crate::specs::Record::written))]
    pub fn as_slice(&self) -> &[u8]
        requires { filled self.now ≤ 40 }
        ensures { result.now ≡ written self.now }
    {
        &self.bytes[..self.len]
    }
}
