//! Flower's matches on an MPLS label stack, entry by entry.

ghost use Rattle.std.specs.Prelude.{◌≡◌, List};
ghost use Rattle.tc_canon.specs.Tables.Flower.{lse_options, mpls_options};
ghost use Rattle.tc_values.specs.AttributeWords.{on, type_of, table, Attribute, table_codec, table_short, same_attribute, attribute_equiv, attribute_per};
ghost use Rattle.tc_values.specs.Row.{attribute_of, IsRow, ShownAs, reads_at};
ghost use Rattle.tc_values.specs.Bodies.{nothing};
ghost use Rattle.tc_flower.specs.Mpls.{lse_option, mpls_option, lse_lists};

use nla_frames::{
    DefaultNla, FrameMeaning, NLA_F_NESTED, NLA_TYPE_MASK, Nla, NlaBuffer, Parseable, Res, Settle,
    parse_list, parse_u8, parse_u32,
};
use std::alloc::{Allocator, Global};
use tc_values::{Items, Value, same_row};

// The types of the options of a label stack entry (LSE), `linux/pkt_cls.h`.
pub(crate) const TCA_FLOWER_KEY_MPLS_OPT_LSE_DEPTH: u16 = 1;

pub(crate) const TCA_FLOWER_KEY_MPLS_OPT_LSE_TTL: u16 = 2;

pub(crate) const TCA_FLOWER_KEY_MPLS_OPT_LSE_BOS: u16 = 3;

pub(crate) const TCA_FLOWER_KEY_MPLS_OPT_LSE_TC: u16 = 4;

pub(crate) const TCA_FLOWER_KEY_MPLS_OPT_LSE_LABEL: u16 = 5;

/// A match on one label stack entry (LSE). Numbers are little-endian.
///
/// | Type | Option | Value |
/// |---|---|---|
/// | 1 to 4 | `LseDepth`, `LseTtl`, `LseBos`, `LseTc` | u8 |
/// | 5 | `LseLabel` | u32, of which the lowest 20 bits are written |
#[derive(Drop)]
#[derive_where(Debug)]
#[derive_where(Clone; A)]
pub enum TcFilterFlowerMplsLseOption<A: Allocator = Global> {
    /// The place of the entry in the stack, 1 for the outermost: `TCA_FLOWER_KEY_MPLS_OPT_LSE_DEPTH` of `linux/pkt_cls.h`.
    LseDepth(u8),
    /// The time to live: `TCA_FLOWER_KEY_MPLS_OPT_LSE_TTL`.
    LseTtl(u8),
    /// The bottom-of-stack bit, written as a whole byte: `TCA_FLOWER_KEY_MPLS_OPT_LSE_BOS`.
    LseBos(u8),
    /// The traffic class, written as a whole byte: `TCA_FLOWER_KEY_MPLS_OPT_LSE_TC`.
    LseTc(u8),
    /// The label, of which the lowest 20 bits are written: `TCA_FLOWER_KEY_MPLS_OPT_LSE_LABEL`.
    LseLabel(u32),
    /// Any other type.
    Other(DefaultNla<A>),
}

impl<A: Allocator> FrameMeaning for TcFilterFlowerMplsLseOption<A> {
    ghost Seen = { Attribute };

    ghost see = { lse_option };

    ghost codec = { table_codec (table lse_options) };
}

impl<A: Allocator> Parseable<A> for TcFilterFlowerMplsLseOption<A> {
    fn parse(alloc: A, buf: &NlaBuffer<'_>) -> Res<TcFilterFlowerMplsLseOption<A>> {
        let value = buf.value();
        match buf.kind() {
            TCA_FLOWER_KEY_MPLS_OPT_LSE_DEPTH => Ok(Self::LseDepth(parse_u8(value)?)),
            TCA_FLOWER_KEY_MPLS_OPT_LSE_TTL => Ok(Self::LseTtl(parse_u8(value)?)),
            TCA_FLOWER_KEY_MPLS_OPT_LSE_BOS => Ok(Self::LseBos(parse_u8(value)?)),
            TCA_FLOWER_KEY_MPLS_OPT_LSE_TC => Ok(Self::LseTc(parse_u8(value)?)),
            TCA_FLOWER_KEY_MPLS_OPT_LSE_LABEL => Ok(Self::LseLabel(parse_u32(value)?)),
            _ => Ok(Self::Other(DefaultNla::parse(alloc, buf)?)),
        }
    }
}

impl<A: Allocator> TcFilterFlowerMplsLseOption<A> {
    // The row; its contract says how the option is written, when it fits and when it is settled.
    fn view(&self) -> (u16, Value<'_>)
        ensures { ShownAs nothing lse_options (lse_option self.now) result.0 result.1 }
    {
        self.row()
    }

    /// The `nla_type` (type and flags) and the value in the format of the type's row. Both of `Other` are as read.
    pub fn row(&self) -> (u16, Value<'_>)
        ensures seen { lse_option self.now ≡ attribute_of nothing result.0 result.1 }
        ensures row { IsRow nothing lse_options result.0 result.1 }
    {
        match self {
            Self::LseDepth(n) => (TCA_FLOWER_KEY_MPLS_OPT_LSE_DEPTH, Value::U8(*n)),
            Self::LseTtl(n) => (TCA_FLOWER_KEY_MPLS_OPT_LSE_TTL, Value::U8(*n)),
            Self::LseBos(n) => (TCA_FLOWER_KEY_MPLS_OPT_LSE_BOS, Value::U8(*n)),
            Self::LseTc(n) => (TCA_FLOWER_KEY_MPLS_OPT_LSE_TC, Value::U8(*n)),
            Self::LseLabel(n) => (TCA_FLOWER_KEY_MPLS_OPT_LSE_LABEL, Value::Bits20(*n)),
            Self::Other(nla) => (nla.kind(), Value::Kept(nla.value())),
        }
    }
}

// True if options of an entry of this type are read.
fn is_lse_read(word: u16) -> bool
    ensures { result ≡ reads_at lse_options (type_of word) }
{
    matches!(
        word & NLA_TYPE_MASK,
        TCA_FLOWER_KEY_MPLS_OPT_LSE_DEPTH..=TCA_FLOWER_KEY_MPLS_OPT_LSE_LABEL
    )
}

impl<A: Allocator> Nla for TcFilterFlowerMplsLseOption<A> {
    fn kind(&self) -> u16 {
        self.view().0
    }

    fn checked_len(&self) -> Option<usize> {
        self.view().1.checked_len()
    }

    fn put_value(&self, buffer: &mut [u8]) -> usize {
        self.view().1.put(buffer)
    }

    ghost is_short = { table_short (table lse_options) };
}

impl<A: Allocator> Settle for TcFilterFlowerMplsLseOption<A> {
    fn is_settled_under(&self, kind: &str) -> bool {
        let (word, value) = self.view();
        value.is_settled_under(is_lse_read(word), kind)
    }
}

impl<A: Allocator> PartialEq for TcFilterFlowerMplsLseOption<A> {
    ghost eq = { on lse_option same_attribute };

    ghost laws = { attribute_per lse_option };

    fn eq(&self, other: &TcFilterFlowerMplsLseOption<A>) -> bool {
        same_row(&self.row(), &other.row())
    }
}

impl<A: Allocator> Eq for TcFilterFlowerMplsLseOption<A> {
    ghost laws = { attribute_equiv lse_option };
}

// The type of a label stack entry, `linux/pkt_cls.h`.
pub(crate) const TCA_FLOWER_KEY_MPLS_OPTS_LSE: u16 = 1;

/// A match on the MPLS label stack.
///
/// | Type | Option | Value |
/// |---|---|---|
/// | 1, with the nested flag when written | `Lse` | list of [`TcFilterFlowerMplsLseOption`] |
#[derive(Drop)]
#[derive_where(Debug)]
#[derive_where(Clone; A)]
pub enum TcFilterFlowerMplsOption<A: Allocator = Global> {
    /// A label stack entry, nested: `TCA_FLOWER_KEY_MPLS_OPTS_LSE` of `linux/pkt_cls.h`.
    Lse(Vec<TcFilterFlowerMplsLseOption<A>, A>),
    /// Any other type.
    Other(DefaultNla<A>),
}

impl<A: Allocator> FrameMeaning for TcFilterFlowerMplsOption<A> {
    ghost Seen = { Attribute };

    ghost see = { mpls_option };

    ghost codec = { table_codec (table mpls_options) };
}

impl<A: Allocator + Copy> Parseable<A> for TcFilterFlowerMplsOption<A> {
    fn parse(alloc: A, buf: &NlaBuffer<'_>) -> Res<TcFilterFlowerMplsOption<A>> {
        match buf.kind() {
            TCA_FLOWER_KEY_MPLS_OPTS_LSE => Ok(Self::Lse(parse_list(alloc, buf.value())?)),
            _ => Ok(Self::Other(DefaultNla::parse(alloc, buf)?)),
        }
    }
}

impl<A: Allocator> TcFilterFlowerMplsOption<A> {
    // The row; its contract says how the option is written, when it fits and when it is settled.
    fn view(&self) -> (u16, Value<'_, Items<'_, TcFilterFlowerMplsLseOption<A>>>)
        ensures { ShownAs lse_lists mpls_options (mpls_option self.now) result.0 result.1 }
    {
        self.row()
    }

    /// The `nla_type` (type and flags) and the value in the format of the type's row. Both of `Other` are as read.
    pub fn row(&self) -> (u16, Value<'_, Items<'_, TcFilterFlowerMplsLseOption<A>>>)
        ensures seen { mpls_option self.now ≡ attribute_of lse_lists result.0 result.1 }
        ensures row { IsRow lse_lists mpls_options result.0 result.1 }
    {
        match self {
            Self::Lse(entries) => (
                TCA_FLOWER_KEY_MPLS_OPTS_LSE | NLA_F_NESTED,
                Value::Nested(Items(entries)),
            ),
            Self::Other(nla) => (nla.kind(), Value::Kept(nla.value())),
        }
    }
}

// True if options of MPLS of this type are read.
fn is_mpls_read(word: u16) -> bool
    ensures { result ≡ reads_at mpls_options (type_of word) }
{
    word & NLA_TYPE_MASK == TCA_FLOWER_KEY_MPLS_OPTS_LSE
}

impl<A: Allocator> Nla for TcFilterFlowerMplsOption<A> {
    fn kind(&self) -> u16 {
        self.view().0
    }

    fn checked_len(&self) -> Option<usize> {
        self.view().1.checked_len()
    }

    fn put_value(&self, buffer: &mut [u8]) -> usize {
        self.view().1.put(buffer)
    }

    ghost is_short = { table_short (table mpls_options) };
}

impl<A: Allocator> Settle for TcFilterFlowerMplsOption<A> {
    fn is_settled_under(&self, kind: &str) -> bool {
        let (word, value) = self.view();
        value.is_settled_under(is_mpls_read(word), kind)
    }
}

impl<A: Allocator> PartialEq for TcFilterFlowerMplsOption<A> {
    ghost eq = { on mpls_option same_attribute };

    ghost laws = { attribute_per mpls_option };

    fn eq(&self, other: &TcFilterFlowerMplsOption<A>) -> bool {
        same_row(&self.row(), &other.row())
    }
}

impl<A: Allocator> Eq for TcFilterFlowerMplsOption<A> {
    ghost laws = { attribute_equiv mpls_option };
}
