//! A cursor over the fields of a record.

ghost use Rattle.std.specs.Prelude.{◌≡◌, ◌≤◌, ◌+◌, length, take, drop};
ghost use Rattle.std.specs.Int.{w16, w32, cast_unsigned};
ghost use Rattle.std.specs.Net.Addr.{ipv4_octets};
ghost use Rattle.nla_frames.specs.Value.{le_value, be_value};

use std::net::Ipv4Addr;

/// The bytes not read yet. Each call takes a field off the front. Numbers are little-endian, except in `u16_be` and
/// `u32_be`.
#[derive(Drop)]
pub struct Fields<'a>(pub &'a [u8]);

impl<'a> Fields<'a> {
    /// Takes `count` bytes: octets, or padding.
    pub fn octets(&mut self, count: usize) -> &'a [u8]
        requires { count ≤ length self.old.0.now }
        ensures value { result.now ≡ take count self.old.0.now }
        ensures rest { self.new.0.now ≡ drop count self.old.0.now }
        ensures left { length self.old.0.now ≡ count + length self.new.0.now }
    {
        let (front, rest) = self.0.split_at(count);
        self.0 = rest;
        front
    }

    pub fn u8(&mut self) -> u8
        requires { 1 ≤ length self.old.0.now }
        ensures value { result ≡ le_value (take 1 self.old.0.now) }
        ensures rest { self.new.0.now ≡ drop 1 self.old.0.now }
        ensures left { length self.old.0.now ≡ 1 + length self.new.0.now }
    {
        self.octets(1)[0]
    }

    pub fn u16(&mut self) -> u16
        requires { 2 ≤ length self.old.0.now }
        ensures value { result ≡ le_value (take 2 self.old.0.now) }
        ensures rest { self.new.0.now ≡ drop 2 self.old.0.now }
        ensures left { length self.old.0.now ≡ 2 + length self.new.0.now }
    {
        let front = self.octets(2);
        u16::from_le_bytes([front[0], front[1]])
    }

    pub fn u16_be(&mut self) -> u16
        requires { 2 ≤ length self.old.0.now }
        ensures value { result ≡ be_value (take 2 self.old.0.now) }
        ensures rest { self.new.0.now ≡ drop 2 self.old.0.now }
        ensures left { length self.old.0.now ≡ 2 + length self.new.0.now }
    {
        let front = self.octets(2);
        u16::from_be_bytes([front[0], front[1]])
    }

    pub fn i16(&mut self) -> i16
        requires { 2 ≤ length self.old.0.now }
        ensures value { cast_unsigned w16 result ≡ le_value (take 2 self.old.0.now) }
        ensures rest { self.new.0.now ≡ drop 2 self.old.0.now }
        ensures left { length self.old.0.now ≡ 2 + length self.new.0.now }
    {
        let front = self.octets(2);
        i16::from_le_bytes([front[0], front[1]])
    }

    pub fn u32(&mut self) -> u32
        requires { 4 ≤ length self.old.0.now }
        ensures value { result ≡ le_value (take 4 self.old.0.now) }
        ensures rest { self.new.0.now ≡ drop 4 self.old.0.now }
        ensures left { length self.old.0.now ≡ 4 + length self.new.0.now }
    {
        let front = self.octets(4);
        u32::from_le_bytes([front[0], front[1], front[2], front[3]])
    }

    pub fn u32_be(&mut self) -> u32
        requires { 4 ≤ length self.old.0.now }
        ensures value { result ≡ be_value (take 4 self.old.0.now) }
        ensures rest { self.new.0.now ≡ drop 4 self.old.0.now }
        ensures left { length self.old.0.now ≡ 4 + length self.new.0.now }
    {
        let front = self.octets(4);
        u32::from_be_bytes([front[0], front[1], front[2], front[3]])
    }

    pub fn i32(&mut self) -> i32
        requires { 4 ≤ length self.old.0.now }
        ensures value { cast_unsigned w32 result ≡ le_value (take 4 self.old.0.now) }
        ensures rest { self.new.0.now ≡ drop 4 self.old.0.now }
        ensures left { length self.old.0.now ≡ 4 + length self.new.0.now }
    {
        let front = self.octets(4);
        i32::from_le_bytes([front[0], front[1], front[2], front[3]])
    }

    pub fn u64(&mut self) -> u64
        requires { 8 ≤ length self.old.0.now }
        ensures value { result ≡ le_value (take 8 self.old.0.now) }
        ensures rest { self.new.0.now ≡ drop 8 self.old.0.now }
        ensures left { length self.old.0.now ≡ 8 + length self.new.0.now }
    {
        let mut octets = [0; 8];
        octets.copy_from_slice(self.octets(8));
        u64::from_le_bytes(octets)
    }

    /// Takes an IPv4 address, four bytes.
    pub fn ipv4_addr(&mut self) -> Ipv4Addr
        requires { 4 ≤ length self.old.0.now }
        ensures value { ipv4_octets result ≡ take 4 self.old.0.now }
        ensures rest { self.new.0.now ≡ drop 4 self.old.0.now }
        ensures left { length self.old.0.now ≡ 4 + length self.new.0.now }
    {
        let front = self.octets(4);
        Ipv4Addr::from_octets([front[0], front[1], front[2], front[3]])
    }
}
