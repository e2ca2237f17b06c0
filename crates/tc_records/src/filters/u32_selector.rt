//! The selector of a u32 filter, and its keys.

ghost use Rattle.std.specs.Prelude.{◌≡◌, ◌≤◌, ◌<◌, ◌^◌, ◌*◌, List, length, map, refl};
ghost use Rattle.std.specs.List.{AllByRecursion};
ghost use Rattle.std.specs.Int.{w16, cast_unsigned};
ghost use Rattle.std.specs.Ordering.{on};
ghost use Rattle.nla_frames.specs.Fault.{Returns, seen, read_as};
ghost use Rattle.nla_frames.specs.Emission.{Writes, HasRoom};
ghost use Rattle.tc_canon.specs.Layouts.{selector_head, selector_key};
ghost use Rattle.tc_meaning.specs.Tree.{Scalar};
ghost use Rattle.tc_meaning.specs.Layout.{fields_bytes, TypedFields};
ghost use Rattle.tc_meaning.specs.Content.{Selector, read_record, read_keys, read_selector, record_codec, selector_codec};
ghost use Rattle.tc_meaning.specs.Equal.{same_scalars, same_selector, scalars_equiv, scalars_per, selector_equiv, selector_per};
ghost use Rattle.tc_records.specs.Selector.{key_scalars, keys_bytes, head_scalars, selector_of, empty_selector};

use crate::same::both;
use crate::{
    Fields, FixedRecord, Octets, TcU32SelectorFlags, emit_record, is_settled_record, parse_record,
    record_len,
};
use bitflags::Flags;
use nla_frames::laws::in_range::{u8_is_in_range, u16_is_in_range, u32_is_in_range};
use nla_frames::{BytesMeaning, DecodeError, Emitable, Res, SettleBytes, put_bytes};
use std::alloc::{Allocator, Global};

/// The length of `struct tc_u32_key` in bytes.
pub const TC_U32_KEY_LEN: usize = 16;

/// The length of `struct tc_u32_sel` without its keys, in bytes.
pub const TC_U32_SELECTOR_LEN: usize = 16;

/// A comparison with one 32-bit word of the packet, `struct tc_u32_key` of `linux/pkt_cls.h`: the key matches if
/// `word & mask == val`.
///
/// | Offset | Field | Type |
/// |---|---|---|
/// | 0 | `mask` | u32, big-endian |
/// | 4 | `val` | u32, big-endian |
/// | 8 | `off` | i32 |
/// | 12 | `offmask` | i32 |
#[derive(Clone, Default, Drop, Debug)]
pub struct TcU32Key {
    /// The bits to compare, big-endian.
    pub mask: u32,
    /// Their value, big-endian.
    pub val: u32,
    /// The offset of the word in bytes, little-endian.
    pub off: i32,
    /// The bits to use of the offset that was read from the packet, little-endian.
    pub offmask: i32,
}

impl PartialEq for TcU32Key {
    ghost eq = { on key_scalars same_scalars };

    ghost laws = { scalars_per key_scalars };

    fn eq(&self, other: &TcU32Key) -> bool {
        [
            self.mask,
            self.val,
            self.off.cast_unsigned(),
            self.offmask.cast_unsigned(),
        ] == [
            other.mask,
            other.val,
            other.off.cast_unsigned(),
            other.offmask.cast_unsigned(),
        ]
    }
}

impl Eq for TcU32Key {
    ghost laws = { scalars_equiv key_scalars };
}

impl FixedRecord<TC_U32_KEY_LEN> for TcU32Key {
    ghost layout = { selector_key };

    ghost scalars = { key_scalars };

    fn read(fields: &mut Fields<'_>) -> TcU32Key {
        TcU32Key {
            mask: fields.u32_be(),
            val: fields.u32_be(),
            off: fields.i32(),
            offmask: fields.i32(),
        }
    }

    fn write(&self, out: &mut Octets) {
        out.u32_be(self.mask);
        out.u32_be(self.val);
        out.i32(self.off);
        out.i32(self.offmask);
    }

    fn is_settled(&self) -> bool {
        true
    }

    fn copied(&self) -> Self {
        Self { ..*self }
    }

    fn in_range(self, _other: Self) {}

    ghost whole = { refl };
}

impl TcU32Key {
    /// Parses the key at the front of the payload and ignores what follows. Fails with
    /// `BufferTooSmall` if there are fewer bytes.
    pub fn parse(payload: &[u8]) -> Res<TcU32Key>
        ensures { seen key_scalars result ≡ read_record selector_key payload.now }
    {
        parse_record(payload)
    }
}

impl BytesMeaning for TcU32Key {
    ghost Seen = { List Scalar };

    ghost see = { key_scalars };

    ghost codec = { record_codec selector_key };
}

impl Emitable for TcU32Key {
    fn checked_len(&self) -> Option<usize> {
        record_len(self)
    }

    fn emit(&self, buffer: &mut [u8]) {
        emit_record(self, buffer);
    }
}

impl SettleBytes for TcU32Key {
    fn is_settled_under(&self, _kind: &str) -> bool {
        is_settled_record(self)
    }
}

// Reads `count` keys.
fn parse_keys<A: Allocator>(alloc: A, count: u8, fields: Fields<'_>) -> Res<Vec<TcU32Key, A>>
    requires { 16 * count ≤ length fields.0.now }
    ensures { Returns (seen (λ v. map key_scalars v.items) result)
        (read_as (read_keys count fields.entry.0.now)) }
{
    let mut keys = Vec::with_capacity(alloc, count as usize)?;
    let mut fields = fields;
    for _ in 0..count {
        keys.push(TcU32Key::read(&mut fields))?;
    }
    Ok(keys)
}

// Writes the keys at the front of the buffer.
fn put_keys(buffer: &mut [u8], keys: &[TcU32Key])
    requires { HasRoom (keys_bytes (map key_scalars keys.now)) buffer.old }
    ensures written { Writes (keys_bytes (map key_scalars keys.now)) buffer.old buffer.new }
    ensures typed { AllByRecursion (TypedFields selector_key) (map key_scalars keys.now) }
{
    let mut at: usize = 0;
    for key in keys {
        key.emit(&mut buffer[at..]);
        at += TC_U32_KEY_LEN;
    }
}

/// The selector of a u32 filter, `struct tc_u32_sel` of `linux/pkt_cls.h`. The filter matches a packet if all keys do.
/// Numbers are little-endian unless stated otherwise. A byte of padding follows `nkeys`.
///
/// | Offset | Field | Type |
/// |---|---|---|
/// | 0 | `flags` | u8 |
/// | 1 | `offshift` | u8 |
/// | 2 | `nkeys` | u8 |
/// | 3 | padding | 1 byte |
/// | 4 | `offmask` | u16, big-endian |
/// | 6 | `off` | u16 |
/// | 8 | `offoff` | i16 |
/// | 10 | `hoff` | i16 |
/// | 12 | `hmask` | u32, big-endian |
/// | 16 | `keys` | 16 bytes each |
#[derive(Drop)]
#[derive_where(Debug)]
#[derive_where(Clone; A)]
pub struct TcU32Selector<A: Allocator = Global> {
    /// Whether a match ends classification, and how the next header is found.
    pub flags: TcU32SelectorFlags,
    /// The right shift of the offset read from the packet, in bits.
    pub offshift: u8,
    /// The number of keys. A selector can be encoded only if this is the length of `keys`.
    pub nkeys: u8,
    /// The bits to use of the offset read from the packet, big-endian.
    pub offmask: u16,
    /// The fixed offset of the next header, in bytes.
    pub off: u16,
    /// Where in the packet the variable offset is read, in bytes.
    pub offoff: i16,
    /// The offset in the packet of the word to hash, in bytes.
    pub hoff: i16,
    /// The bits of that word to hash, big-endian.
    pub hmask: u32,
    /// The comparisons. All have to match.
    pub keys: Vec<TcU32Key, A>,
}

impl<A: Allocator> TcU32Selector<A> {
    // True if the two are equal except in their keys.
    fn same_head(&self, other: &TcU32Selector<A>) -> bool
        ensures { result ≡ same_scalars (head_scalars self.now) (head_scalars other.now) }
    {
        let offoff = self.offoff.cast_unsigned() == other.offoff.cast_unsigned();
        let hoff = self.hoff.cast_unsigned() == other.hoff.cast_unsigned();
        let rest = both(hoff, both(self.hmask == other.hmask, true));
        let rest = both(self.off == other.off, both(offoff, rest));
        let rest = both(self.offmask == other.offmask, rest);
        let rest = both(self.nkeys == other.nkeys, rest);
        let rest = both(self.offshift == other.offshift, rest);
        both(self.flags.bits() == other.flags.bits(), rest)
    }
}

impl<A: Allocator> PartialEq for TcU32Selector<A> {
    ghost eq = { on selector_of same_selector };

    ghost laws = { selector_per selector_of };

    fn eq(&self, other: &TcU32Selector<A>) -> bool {
        both(self.same_head(other), self.keys == other.keys)
    }
}

impl<A: Allocator> Eq for TcU32Selector<A> {
    ghost laws = { selector_equiv selector_of };
}

impl<A: Allocator> TcU32Selector<A> {
    /// A selector without keys, every number 0. Doesn't allocate.
    pub fn default_in(alloc: A) -> TcU32Selector<A>
        ensures { selector_of result ≡ empty_selector }
    {
        TcU32Selector {
            flags: TcU32SelectorFlags::default(),
            offshift: 0,
            nkeys: 0,
            offmask: 0,
            off: 0,
            offoff: 0,
            hoff: 0,
            hmask: 0,
            keys: Vec::new(alloc),
        }
    }

    /// Parses the selector at the front of the payload with its `nkeys` keys, and ignores what follows. Fails with
    /// `SelectorShort` if there are fewer bytes, with `OutOfMemory` if the allocator does.
    pub fn parse(alloc: A, payload: &[u8]) -> Res<TcU32Selector<A>>
        ensures { Returns (seen selector_of result) (read_selector payload.now) }
    {
        if payload.len() < TC_U32_SELECTOR_LEN {
            return Err(DecodeError::SelectorShort {
                len: payload.len(),
                needed: TC_U32_SELECTOR_LEN,
            });
        }
        let mut fields = Fields(payload);
        let flags = TcU32SelectorFlags::from_bits_retain(fields.u8());
        let offshift = fields.u8();
        let nkeys = fields.u8();
        fields.octets(1);
        let offmask = fields.u16_be();
        let off = fields.u16();
        let offoff = fields.i16();
        let hoff = fields.i16();
        let hmask = fields.u32_be();
        let needed = TC_U32_SELECTOR_LEN + TC_U32_KEY_LEN * nkeys as usize;
        if payload.len() < needed {
            return Err(DecodeError::SelectorShort {
                len: payload.len(),
                needed,
            });
        }
        let keys = parse_keys(alloc, nkeys, fields)?;
        Ok(TcU32Selector {
            flags,
            offshift,
            nkeys,
            offmask,
            off,
            offoff,
            hoff,
            hmask,
            keys,
        })
    }

    /// The bytes of the selector without its keys, with zero padding. `nkeys` is unchanged, even if it isn't the number
    /// of keys.
    pub fn head_bytes(&self) -> [u8; TC_U32_SELECTOR_LEN]
        ensures { result ≡ fields_bytes selector_head (head_scalars self.now) }
    {
        let mut out = Octets::new();
        out.u8(self.flags.bits());
        out.u8(self.offshift);
        out.u8(self.nkeys);
        out.pad(1);
        out.u16_be(self.offmask);
        out.u16(self.off);
        out.i16(self.offoff);
        out.i16(self.hoff);
        out.u32_be(self.hmask);
        let mut bytes = [0; TC_U32_SELECTOR_LEN];
        put_bytes(&mut bytes, out.as_slice());
        bytes
    }
}

impl<A: Allocator> BytesMeaning for TcU32Selector<A> {
    ghost Seen = { Selector };

    ghost see = { selector_of };

    ghost codec = { selector_codec };
}

impl<A: Allocator> Emitable for TcU32Selector<A> {
    fn checked_len(&self) -> Option<usize> {
        if self.nkeys as usize == self.keys.len() {
            Some(TC_U32_SELECTOR_LEN + TC_U32_KEY_LEN * self.nkeys as usize)
        } else {
            None
        }
    }

    fn emit(&self, buffer: &mut [u8]) {
        selector_head_in_range(self);
        put_keys(&mut buffer[TC_U32_SELECTOR_LEN..], &self.keys);
        put_bytes(buffer, &self.head_bytes());
    }
}

impl<A: Allocator> SettleBytes for TcU32Selector<A> {
    fn is_settled_under(&self, _kind: &str) -> bool {
        selector_in_range(self);
        true
    }
}

/// Does nothing. Its contract: each field of a selector and of its keys is in the range of its layout's width.
pub fn selector_in_range<A: Allocator>(selector: &TcU32Selector<A>)
    ensures { selector_codec.Typed (selector_of selector.now) }
{
    selector_head_in_range(selector);
    keys_in_range(&selector.keys);
}

// The same for the fields of the selector itself.
fn selector_head_in_range<A: Allocator>(selector: &TcU32Selector<A>)
    ensures { TypedFields selector_head (head_scalars selector.now) }
{
    u8_is_in_range(selector.flags.bits());
    u8_is_in_range(selector.offshift);
    u8_is_in_range(selector.nkeys);
    u16_is_in_range(selector.offmask);
    u16_is_in_range(selector.off);
    i16_in_range(selector.offoff);
    i16_in_range(selector.hoff);
    u32_is_in_range(selector.hmask);
}

// The same for its keys.
fn keys_in_range(keys: &[TcU32Key])
    ensures { AllByRecursion (TypedFields selector_key) (map key_scalars keys.now) }
{
    for key in keys {
        key.ref_in_range();
    }
}

// The two's complement of an `i16` is in the range of two bytes.
fn i16_in_range(number: i16)
    ensures { cast_unsigned w16 number < 256 ^ 2 }
{}
