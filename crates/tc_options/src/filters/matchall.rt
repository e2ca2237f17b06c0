//! The filter `matchall`.

ghost use Rattle.std.specs.Prelude.{◌≡◌};
ghost use Rattle.tc_canon.specs.Tables.Options.{matchall_options};
ghost use Rattle.tc_values.specs.AttributeWords.{on, type_of, table, Attribute, table_codec, table_short, same_attribute, attribute_equiv, attribute_per};
ghost use Rattle.tc_values.specs.Row.{attribute_of, IsRow, ShownAs, reads_at};
ghost use Rattle.tc_options.specs.MatchAll.{matchall_option, action_list};

use crate::filters::types::*;
use nla_frames::{
    DefaultNla, FrameMeaning, NLA_TYPE_MASK, Nla, NlaBuffer, Parseable, Res, Settle, parse_list,
    parse_u32,
};
use std::alloc::{Allocator, Global};
use tc_actions::TcAction;
use tc_records::TcHandle;
use tc_values::{Items, Value, same_row};

/// The filter `matchall`, which every packet matches.
#[derive(PartialEq, Eq, Clone, Drop, Debug)]
pub struct TcFilterMatchAll {}

impl TcFilterMatchAll {
    /// The name in `TCA_KIND`.
    pub const KIND: &'static str = "matchall";
}

/// An option of `matchall`. Numbers are little-endian.
///
/// | Type | Option | Value |
/// |---|---|---|
/// | 1 | `ClassId` | u32, a [`TcHandle`] |
/// | 2 | `Action` | a list of [`TcAction`] |
/// | 3 | `Flags` | u32 |
/// | 4 | `Pnct` | bytes |
#[derive(Drop)]
#[derive_where(Debug)]
#[derive_where(Clone; A)]
pub enum TcFilterMatchAllOption<A: Allocator = Global> {
    /// The class of matching packets: `TCA_MATCHALL_CLASSID` of `linux/pkt_cls.h`.
    ClassId(TcHandle),
    /// Actions on matching packets: `TCA_MATCHALL_ACT`.
    Action(Vec<TcAction<A>, A>),
    /// Count of matching packets, `struct tc_matchall_pcnt` as bytes: `TCA_MATCHALL_PCNT`.
    Pnct(Vec<u8, A>),
    /// Hardware offload, requested and reported: `TCA_MATCHALL_FLAGS`.
    Flags(u32),
    /// Any other type.
    Other(DefaultNla<A>),
}

impl<A: Allocator> FrameMeaning for TcFilterMatchAllOption<A> {
    ghost Seen = { Attribute };

    ghost see = { matchall_option };

    ghost codec = { table_codec (table matchall_options) };
}

impl<A: Allocator + Copy> Parseable<A> for TcFilterMatchAllOption<A> {
    fn parse(alloc: A, buf: &NlaBuffer<'_>) -> Res<TcFilterMatchAllOption<A>> {
        let value = buf.value();
        match buf.kind() {
            TCA_MATCHALL_CLASSID => Ok(Self::ClassId(TcHandle::from(parse_u32(value)?))),
            TCA_MATCHALL_ACT => Ok(Self::Action(parse_list(alloc, value)?)),
            TCA_MATCHALL_FLAGS => Ok(Self::Flags(parse_u32(value)?)),
            TCA_MATCHALL_PCNT => Ok(Self::Pnct(Vec::from_slice(alloc, value)?)),
            _ => Ok(Self::Other(DefaultNla::parse(alloc, buf)?)),
        }
    }
}

impl<A: Allocator> TcFilterMatchAllOption<A> {
    // The row; its contract says how the attribute is written, when it fits and when it is settled.
    fn view(&self) -> (u16, Value<'_, Items<'_, TcAction<A>>>)
        ensures { ShownAs action_list matchall_options (matchall_option self.now)
            result.0 result.1 }
    {
        self.row()
    }

    /// The `nla_type` (type and flags) and the value in the format of the type's row. Both of `Other` are as read.
    pub fn row(&self) -> (u16, Value<'_, Items<'_, TcAction<A>>>)
        ensures seen { matchall_option self.now ≡ attribute_of action_list result.0 result.1 }
        ensures row { IsRow action_list matchall_options result.0 result.1 }
    {
        match self {
            Self::ClassId(handle) => (TCA_MATCHALL_CLASSID, Value::U32(u32::from(*handle))),
            Self::Action(actions) => (TCA_MATCHALL_ACT, Value::Nested(Items(actions))),
            Self::Pnct(bytes) => (TCA_MATCHALL_PCNT, Value::Bytes(bytes)),
            Self::Flags(n) => (TCA_MATCHALL_FLAGS, Value::U32(*n)),
            Self::Other(nla) => (nla.kind(), Value::Kept(nla.value())),
        }
    }
}

// True if the table reads options of the type of this `nla_type`.
fn is_read(word: u16) -> bool
    ensures { result ≡ reads_at matchall_options (type_of word) }
{
    matches!(
        word & NLA_TYPE_MASK,
        TCA_MATCHALL_CLASSID..=TCA_MATCHALL_PCNT
    )
}

impl<A: Allocator> Nla for TcFilterMatchAllOption<A> {
    fn kind(&self) -> u16 {
        self.view().0
    }

    fn checked_len(&self) -> Option<usize> {
        self.view().1.checked_len()
    }

    fn put_value(&self, buffer: &mut [u8]) -> usize {
        self.view().1.put(buffer)
    }

    ghost is_short = { table_short (table matchall_options) };
}

impl<A: Allocator> Settle for TcFilterMatchAllOption<A> {
    fn is_settled_under(&self, kind: &str) -> bool {
        let (word, value) = self.view();
        value.is_settled_under(is_read(word), kind)
    }
}

impl<A: Allocator> PartialEq for TcFilterMatchAllOption<A> {
    ghost eq = { on matchall_option same_attribute };

    ghost laws = { attribute_per matchall_option };

    fn eq(&self, other: &TcFilterMatchAllOption<A>) -> bool {
        same_row(&self.row(), &other.row())
    }
}

impl<A: Allocator> Eq for TcFilterMatchAllOption<A> {
    ghost laws = { attribute_equiv matchall_option };
}
