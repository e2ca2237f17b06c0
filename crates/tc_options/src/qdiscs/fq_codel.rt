//! The qdisc `fq_codel`: fair queueing with controlled delay.

ghost use Rattle.std.specs.Prelude.{◌≡◌, IsTrue, List};
ghost use Rattle.tc_canon.specs.Tables.Options.{fq_codel_options};
ghost use Rattle.tc_values.specs.AttributeWords.{on, type_of, table, Attribute, table_codec, table_short, same_attribute, attribute_equiv, attribute_per};
ghost use Rattle.tc_values.specs.Row.{attribute_of, IsRow, ShownAs, reads_at};
ghost use Rattle.tc_values.specs.Bodies.{nothing};
ghost use Rattle.tc_options.specs.FqCodel.{fq_codel_option};

use crate::qdiscs::types::*;
use nla_frames::{
    DefaultNla, FrameMeaning, NLA_TYPE_MASK, Nla, NlaBuffer, Parseable, Res, Settle, parse_u8,
    parse_u32,
};
use std::alloc::{Allocator, Global};
pub use tc_actions::TcQdiscFqCodel;
use tc_values::{Value, same_row};

/// An option of `fq_codel`, each a little-endian number.
///
/// | Type | Option | Value |
/// |---|---|---|
/// | 1 to 9 | `Target`, `Limit`, `Interval`, `Ecn`, `Flows`, `Quantum`, `CeThreshold`, `DropBatchSize`, `MemoryLimit` | u32 |
/// | 10, 11 | `CeThresholdSelector`, `CeThresholdMask` | u8 |
#[derive(Drop)]
#[derive_where(Debug)]
#[derive_where(Clone; A)]
pub enum TcQdiscFqCodelOption<A: Allocator = Global> {
    /// The delay to aim at, in microseconds: `TCA_FQ_CODEL_TARGET` of `linux/pkt_sched.h`.
    Target(u32),
    /// The most packets to hold: `TCA_FQ_CODEL_LIMIT`.
    Limit(u32),
    /// The interval over which delay is watched, in microseconds: `TCA_FQ_CODEL_INTERVAL`.
    Interval(u32),
    /// Whether congestion is marked rather than dropped: `TCA_FQ_CODEL_ECN`.
    Ecn(u32),
    /// The number of flows: `TCA_FQ_CODEL_FLOWS`.
    Flows(u32),
    /// The bytes that a flow may send at a turn: `TCA_FQ_CODEL_QUANTUM`.
    Quantum(u32),
    /// The delay above which packets are marked, in microseconds: `TCA_FQ_CODEL_CE_THRESHOLD`.
    CeThreshold(u32),
    /// The most packets to drop at once: `TCA_FQ_CODEL_DROP_BATCH_SIZE`.
    DropBatchSize(u32),
    /// The most bytes of memory: `TCA_FQ_CODEL_MEMORY_LIMIT`.
    MemoryLimit(u32),
    /// Which packets the threshold is for: `TCA_FQ_CODEL_CE_THRESHOLD_SELECTOR`.
    CeThresholdSelector(u8),
    /// The bits of the traffic class that the selector looks at: `TCA_FQ_CODEL_CE_THRESHOLD_MASK`.
    CeThresholdMask(u8),
    /// Any other type.
    Other(DefaultNla<A>),
}

impl<A: Allocator> FrameMeaning for TcQdiscFqCodelOption<A> {
    ghost Seen = { Attribute };

    ghost see = { fq_codel_option };

    ghost codec = { table_codec (table fq_codel_options) };
}

impl<A: Allocator> Parseable<A> for TcQdiscFqCodelOption<A> {
    fn parse(alloc: A, buf: &NlaBuffer<'_>) -> Res<TcQdiscFqCodelOption<A>> {
        let value = buf.value();
        match buf.kind() {
            TCA_FQ_CODEL_TARGET => Ok(Self::Target(parse_u32(value)?)),
            TCA_FQ_CODEL_LIMIT => Ok(Self::Limit(parse_u32(value)?)),
            TCA_FQ_CODEL_INTERVAL => Ok(Self::Interval(parse_u32(value)?)),
            TCA_FQ_CODEL_ECN => Ok(Self::Ecn(parse_u32(value)?)),
            TCA_FQ_CODEL_FLOWS => Ok(Self::Flows(parse_u32(value)?)),
            TCA_FQ_CODEL_QUANTUM => Ok(Self::Quantum(parse_u32(value)?)),
            TCA_FQ_CODEL_CE_THRESHOLD => Ok(Self::CeThreshold(parse_u32(value)?)),
            TCA_FQ_CODEL_DROP_BATCH_SIZE => Ok(Self::DropBatchSize(parse_u32(value)?)),
            TCA_FQ_CODEL_MEMORY_LIMIT => Ok(Self::MemoryLimit(parse_u32(value)?)),
            TCA_FQ_CODEL_CE_THRESHOLD_SELECTOR => Ok(Self::CeThresholdSelector(parse_u8(value)?)),
            TCA_FQ_CODEL_CE_THRESHOLD_MASK => Ok(Self::CeThresholdMask(parse_u8(value)?)),
            _ => Ok(Self::Other(DefaultNla::parse(alloc, buf)?)),
        }
    }
}

impl<A: Allocator> TcQdiscFqCodelOption<A> {
    // The row; its contract says how the attribute is written, when it fits and when it is settled.
    fn view(&self) -> (u16, Value<'_>)
        ensures { ShownAs nothing fq_codel_options (fq_codel_option self.now) result.0 result.1 }
    {
        self.row()
    }

    /// The `nla_type` (type and flags) and the value in the format of the type's row. Both of `Other` are as read.
    pub fn row(&self) -> (u16, Value<'_>)
        ensures seen { fq_codel_option self.now ≡ attribute_of nothing result.0 result.1 }
        ensures row { IsRow nothing fq_codel_options result.0 result.1 }
    {
        match self {
            Self::Target(n) => (TCA_FQ_CODEL_TARGET, Value::U32(*n)),
            Self::Limit(n) => (TCA_FQ_CODEL_LIMIT, Value::U32(*n)),
            Self::Interval(n) => (TCA_FQ_CODEL_INTERVAL, Value::U32(*n)),
            Self::Ecn(n) => (TCA_FQ_CODEL_ECN, Value::U32(*n)),
            Self::Flows(n) => (TCA_FQ_CODEL_FLOWS, Value::U32(*n)),
            Self::Quantum(n) => (TCA_FQ_CODEL_QUANTUM, Value::U32(*n)),
            Self::CeThreshold(n) => (TCA_FQ_CODEL_CE_THRESHOLD, Value::U32(*n)),
            Self::DropBatchSize(n) => (TCA_FQ_CODEL_DROP_BATCH_SIZE, Value::U32(*n)),
            Self::MemoryLimit(n) => (TCA_FQ_CODEL_MEMORY_LIMIT, Value::U32(*n)),
            Self::CeThresholdSelector(n) => (TCA_FQ_CODEL_CE_THRESHOLD_SELECTOR, Value::U8(*n)),
            Self::CeThresholdMask(n) => (TCA_FQ_CODEL_CE_THRESHOLD_MASK, Value::U8(*n)),
            Self::Other(nla) => (nla.kind(), Value::Kept(nla.value())),
        }
    }
}

// True if the table reads options of the type of this `nla_type`.
fn is_read(word: u16) -> bool
    ensures { result ≡ reads_at fq_codel_options (type_of word) }
{
    matches!(
        word & NLA_TYPE_MASK,
        TCA_FQ_CODEL_TARGET..=TCA_FQ_CODEL_CE_THRESHOLD_MASK
    )
}

impl<A: Allocator> Nla for TcQdiscFqCodelOption<A> {
    fn kind(&self) -> u16 {
        self.view().0
    }

    fn checked_len(&self) -> Option<usize> {
        self.view().1.checked_len()
    }

    fn put_value(&self, buffer: &mut [u8]) -> usize {
        self.view().1.put(buffer)
    }

    ghost is_short = { table_short (table fq_codel_options) };
}

impl<A: Allocator> Settle for TcQdiscFqCodelOption<A> {
    fn is_settled_under(&self, kind: &str) -> bool {
        let (word, value) = self.view();
        value.is_settled_under(is_read(word), kind)
    }
}

impl<A: Allocator> PartialEq for TcQdiscFqCodelOption<A> {
    ghost eq = { on fq_codel_option same_attribute };

    ghost laws = { attribute_per fq_codel_option };

    fn eq(&self, other: &TcQdiscFqCodelOption<A>) -> bool {
        same_row(&self.row(), &other.row())
    }
}

impl<A: Allocator> Eq for TcQdiscFqCodelOption<A> {
    ghost laws = { attribute_equiv fq_codel_option };
}
