//! The filter `u32`.

ghost use Rattle.std.specs.Prelude.{◌≡◌};
ghost use Rattle.tc_canon.specs.Tables.Options.{u32_options};
ghost use Rattle.tc_values.specs.AttributeWords.{on, type_of, table, Attribute, table_codec, table_short, same_attribute, attribute_equiv, attribute_per};
ghost use Rattle.tc_values.specs.Row.{attribute_of, IsRow, ShownAs, reads_at};
ghost use Rattle.tc_options.specs.U32.{u32_option, u32_body};

use crate::filters::types::*;
use bitflags::Flags;
use nla_frames::{
    DefaultNla, FrameMeaning, NLA_TYPE_MASK, Nla, NlaBuffer, Parseable, Res, Settle, parse_list,
    parse_u32,
};
use std::alloc::{Allocator, Global};
use tc_actions::TcAction;
use tc_records::{TcHandle, TcU32OptionFlags, TcU32Selector};
use tc_values::{Either, Items, Record, Value, same_row};

/// The filter `u32`, which compares words of a packet.
#[derive(PartialEq, Eq, Clone, Drop, Debug)]
pub struct TcFilterU32 {}

impl TcFilterU32 {
    /// The name in `TCA_KIND`.
    pub const KIND: &'static str = "u32";
}

/// An option of `u32`. Numbers are little-endian.
///
/// | Type | Option | Value |
/// |---|---|---|
/// | 1 | `ClassId` | u32, a [`TcHandle`] |
/// | 2 to 4 | `Hash`, `Link`, `Divisor` | u32 |
/// | 5 | `Selector` | [`TcU32Selector`] |
/// | 6 | `Police` | bytes |
/// | 7 | `Action` | a list of [`TcAction`] |
/// | 8 to 10 | `Indev`, `Pnct`, `Mark` | bytes |
/// | 11 | `Flags` | u32, [`TcU32OptionFlags`] |
#[derive(Drop)]
#[derive_where(Debug)]
#[derive_where(Clone; A)]
pub enum TcFilterU32Option<A: Allocator = Global> {
    /// The class of matching packets: `TCA_U32_CLASSID` of `linux/pkt_cls.h`.
    ClassId(TcHandle),
    /// Handle of the hash table that holds the filter, with the bucket: `TCA_U32_HASH`.
    Hash(u32),
    /// Handle of the hash table where matching continues: `TCA_U32_LINK`.
    Link(u32),
    /// Number of buckets of a hash table: `TCA_U32_DIVISOR`.
    Divisor(u32),
    /// Keys that are compared with a packet: `TCA_U32_SEL`.
    Selector(TcU32Selector<A>),
    /// A rate limit, as bytes (nested attributes in Linux): `TCA_U32_POLICE`.
    Police(Vec<u8, A>),
    /// Actions on matching packets: `TCA_U32_ACT`.
    Action(Vec<TcAction<A>, A>),
    /// Name of the interface that packets arrive on, as bytes: `TCA_U32_INDEV`.
    Indev(Vec<u8, A>),
    /// Counts of lookups and matches, `struct tc_u32_pcnt` as bytes: `TCA_U32_PCNT`.
    Pnct(Vec<u8, A>),
    /// Value and mask of a packet's mark, `struct tc_u32_mark` as bytes: `TCA_U32_MARK`.
    Mark(Vec<u8, A>),
    /// Hardware offload, requested and reported: `TCA_U32_FLAGS`.
    Flags(TcU32OptionFlags),
    /// Any other type.
    Other(DefaultNla<A>),
}

// Nested values of the options.
type Body<'a, A> = Either<Record<'a, TcU32Selector<A>>, Items<'a, TcAction<A>>>;

impl<A: Allocator> FrameMeaning for TcFilterU32Option<A> {
    ghost Seen = { Attribute };

    ghost see = { u32_option };

    ghost codec = { table_codec (table u32_options) };
}

impl<A: Allocator + Copy> Parseable<A> for TcFilterU32Option<A> {
    fn parse(alloc: A, buf: &NlaBuffer<'_>) -> Res<TcFilterU32Option<A>> {
        let value = buf.value();
        match buf.kind() {
            TCA_U32_CLASSID => Ok(Self::ClassId(TcHandle::from(parse_u32(value)?))),
            TCA_U32_HASH => Ok(Self::Hash(parse_u32(value)?)),
            TCA_U32_LINK => Ok(Self::Link(parse_u32(value)?)),
            TCA_U32_DIVISOR => Ok(Self::Divisor(parse_u32(value)?)),
            TCA_U32_SEL => Ok(Self::Selector(TcU32Selector::parse(alloc, value)?)),
            TCA_U32_POLICE => Ok(Self::Police(Vec::from_slice(alloc, value)?)),
            TCA_U32_ACT => Ok(Self::Action(parse_list(alloc, value)?)),
            TCA_U32_INDEV => Ok(Self::Indev(Vec::from_slice(alloc, value)?)),
            TCA_U32_PCNT => Ok(Self::Pnct(Vec::from_slice(alloc, value)?)),
            TCA_U32_MARK => Ok(Self::Mark(Vec::from_slice(alloc, value)?)),
            TCA_U32_FLAGS => Ok(Self::Flags(TcU32OptionFlags::from_bits_retain(parse_u32(value)?))),
            _ => Ok(Self::Other(DefaultNla::parse(alloc, buf)?)),
        }
    }
}

impl<A: Allocator> TcFilterU32Option<A> {
    // The row; its contract says how the attribute is written, when it fits and when it is settled.
    fn view(&self) -> (u16, Value<'_, Body<'_, A>>)
        ensures { ShownAs u32_body u32_options (u32_option self.now) result.0 result.1 }
    {
        self.row()
    }

    /// The `nla_type` (type and flags) and the value in the format of the type's row. Both of `Other` are as read.
    pub fn row(&self) -> (u16, Value<'_, Body<'_, A>>)
        ensures seen { u32_option self.now ≡ attribute_of u32_body result.0 result.1 }
        ensures row { IsRow u32_body u32_options result.0 result.1 }
    {
        match self {
            Self::ClassId(handle) => (TCA_U32_CLASSID, Value::U32(u32::from(*handle))),
            Self::Hash(n) => (TCA_U32_HASH, Value::U32(*n)),
            Self::Link(n) => (TCA_U32_LINK, Value::U32(*n)),
            Self::Divisor(n) => (TCA_U32_DIVISOR, Value::U32(*n)),
            Self::Selector(selector) => (
                TCA_U32_SEL,
                Value::Nested(Either::Left(Record(selector))),
            ),
            Self::Police(bytes) => (TCA_U32_POLICE, Value::Bytes(bytes)),
            Self::Action(actions) => (TCA_U32_ACT, Value::Nested(Either::Right(Items(actions)))),
            Self::Indev(bytes) => (TCA_U32_INDEV, Value::Bytes(bytes)),
            Self::Pnct(bytes) => (TCA_U32_PCNT, Value::Bytes(bytes)),
            Self::Mark(bytes) => (TCA_U32_MARK, Value::Bytes(bytes)),
            Self::Flags(flags) => (TCA_U32_FLAGS, Value::U32(flags.bits())),
            Self::Other(nla) => (nla.kind(), Value::Kept(nla.value())),
        }
    }
}

// True if the table reads options of the type of this `nla_type`.
fn is_read(word: u16) -> bool
    ensures { result ≡ reads_at u32_options (type_of word) }
{
    matches!(word & NLA_TYPE_MASK, TCA_U32_CLASSID..=TCA_U32_FLAGS)
}

impl<A: Allocator> Nla for TcFilterU32Option<A> {
    fn kind(&self) -> u16 {
        self.view().0
    }

    fn checked_len(&self) -> Option<usize> {
        self.view().1.checked_len()
    }

    fn put_value(&self, buffer: &mut [u8]) -> usize {
        self.view().1.put(buffer)
    }

    ghost is_short = { table_short (table u32_options) };
}

impl<A: Allocator> Settle for TcFilterU32Option<A> {
    fn is_settled_under(&self, kind: &str) -> bool {
        let (word, value) = self.view();
        value.is_settled_under(is_read(word), kind)
    }
}

impl<A: Allocator> PartialEq for TcFilterU32Option<A> {
    ghost eq = { on u32_option same_attribute };

    ghost laws = { attribute_per u32_option };

    fn eq(&self, other: &TcFilterU32Option<A>) -> bool {
        same_row(&self.row(), &other.row())
    }
}

impl<A: Allocator> Eq for TcFilterU32Option<A> {
    ghost laws = { attribute_equiv u32_option };
}
