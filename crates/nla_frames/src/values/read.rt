//! Reading plain values. Numbers, addresses and arrays have a fixed length. Any other fails with `WrongLength`.

ghost use Rattle.std.specs.Prelude.{◌≡◌, string_bytes, length};
ghost use Rattle.nla_frames.specs.Fault.{Returns, seen};
ghost use Rattle.nla_frames.specs.Value.{exactly, le_number, be_number, text, strip};
ghost use Rattle.std.specs.Net.Addr.{ipv4_octets, ipv6_octets};
ghost use Rattle.nla_frames.specs.declared.error.DecodeError.TheVariants.{WrongLength};

use crate::error::{DecodeError, Res};
use std::alloc::Allocator;
use std::net::{Ipv4Addr, Ipv6Addr};

/// Reads a number of one byte. Any other length is `WrongLength`.
pub fn parse_u8(value: &[u8]) -> Res<u8>
    ensures { result ≡ le_number 1 value.now }
{
    match value {
        [a] => Ok(*a),
        _ => Err(wrong_length(1, value)),
    }
}

/// Reads a number of two bytes, little-endian. Any other length is `WrongLength`.
pub fn parse_u16(value: &[u8]) -> Res<u16>
    ensures { result ≡ le_number 2 value.now }
{
    match value {
        [a, b] => Ok(u16::from_le_bytes([*a, *b])),
        _ => Err(wrong_length(2, value)),
    }
}

/// Reads a number of four bytes, little-endian. Any other length is `WrongLength`.
pub fn parse_u32(value: &[u8]) -> Res<u32>
    ensures { result ≡ le_number 4 value.now }
{
    match value {
        [a, b, c, d] => Ok(u32::from_le_bytes([*a, *b, *c, *d])),
        _ => Err(wrong_length(4, value)),
    }
}

/// Reads a number of two bytes, big-endian. Any other length is `WrongLength`.
pub fn parse_u16_be(value: &[u8]) -> Res<u16>
    ensures { result ≡ be_number 2 value.now }
{
    match value {
        [a, b] => Ok(u16::from_be_bytes([*a, *b])),
        _ => Err(wrong_length(2, value)),
    }
}

/// Reads a number of four bytes, big-endian. Any other length is `WrongLength`.
pub fn parse_u32_be(value: &[u8]) -> Res<u32>
    ensures { result ≡ be_number 4 value.now }
{
    match value {
        [a, b, c, d] => Ok(u32::from_be_bytes([*a, *b, *c, *d])),
        _ => Err(wrong_length(4, value)),
    }
}

/// Reads a MAC address of six bytes. Any other length is `WrongLength`.
pub fn parse_mac(value: &[u8]) -> Res<[u8; 6]>
    ensures { result ≡ exactly 6 value.now }
{
    if value.len() != 6 {
        return Err(wrong_length(6, value));
    }
    let mut mac = [0; 6];
    mac.copy_from_slice(value);
    Ok(mac)
}

/// Reads an IPv4 address of four bytes. Any other length is `WrongLength`.
pub fn parse_ipv4_addr(value: &[u8]) -> Res<Ipv4Addr>
    ensures { seen ipv4_octets result ≡ exactly 4 value.now }
{
    match value {
        [a, b, c, d] => Ok(Ipv4Addr::from_octets([*a, *b, *c, *d])),
        _ => Err(wrong_length(4, value)),
    }
}

/// Reads an IPv6 address of sixteen bytes. Any other length is `WrongLength`.
#[tactic(auto, using(crate::proofs::Addresses::octets_again))]
pub fn parse_ipv6_addr(value: &[u8]) -> Res<Ipv6Addr>
    ensures { seen ipv6_octets result ≡ exactly 16 value.now }
{
    if value.len() != 16 {
        return Err(wrong_length(16, value));
    }
    let mut octets = [0; 16];
    octets.copy_from_slice(value);
    Ok(Ipv6Addr::from_octets(octets))
}

/// Reads a text, without the one NUL that may end it. Fails with `NotUtf8` if it isn't UTF-8.
pub fn parse_string<A: Allocator>(alloc: A, value: &[u8]) -> Res<String<A>>
    ensures { Returns (seen string_bytes result) (text value.now) }
{
    let text = match std::str::from_utf8(strip_nul(value)) {
        Ok(text) => text,
        Err(_) => return Err(DecodeError::NotUtf8),
    };
    Ok(String::from_str(alloc, text)?)
}

/// The value without the one NUL that may end it.
#[tactic(auto, unfolding(crate::specs::Value::strip))]
pub fn strip_nul(value: &[u8]) -> &[u8]
    ensures { result.now ≡ strip value.now }
{
    match value {
        [text @ .., 0] => text,
        _ => value,
    }
}

fn wrong_length(expected: usize, value: &[u8]) -> DecodeError
    ensures { result ≡ WrongLength expected (length value.now) }
{
    DecodeError::WrongLength {
        expected,
        got: value.len(),
    }
}
