//! The attributes in `TCA_STATS2` and `TCA_ACT_STATS`.

ghost use Rattle.std.specs.Prelude.{◌≡◌};
ghost use Rattle.tc_canon.specs.Tables.Statistics.{stats2};
ghost use Rattle.tc_values.specs.AttributeWords.{on, type_of, table, Attribute, table_codec, table_short, same_attribute, attribute_equiv, attribute_per};
ghost use Rattle.tc_values.specs.Row.{attribute_of, IsRow, ShownAs, reads_at};
ghost use Rattle.tc_actions.specs.Stats2.{tc_stats2, stats2_body};

use crate::stats::types::{TCA_STATS_APP, TCA_STATS_BASIC, TCA_STATS_BASIC_HW, TCA_STATS_QUEUE};
use crate::stats::xstats::TcXstats;
use nla_frames::{
    DefaultNla, FrameMeaning, NLA_TYPE_MASK, Nla, NlaBuffer, Parseable, ParseableParametrized, Res,
    Settle,
};
use std::alloc::{Allocator, Global};
use tc_records::{TcStatsBasic, TcStatsQueue};
use tc_values::{Either, Record, Value, same_row};

/// An attribute with statistics, nested in `TCA_STATS2` of a message or in `TCA_ACT_STATS` of an action.
///
/// | Type | Statistics | Value |
/// |---|---|---|
/// | 1 | `Basic` | [`TcStatsBasic`] |
/// | 3 | `Queue` | [`TcStatsQueue`] |
/// | 4 | `App` | [`TcXstats`], by the kind in force |
/// | 7 | `BasicHw` | [`TcStatsBasic`] |
#[derive(Drop)]
#[derive_where(Debug)]
#[derive_where(Clone; A)]
pub enum TcStats2<A: Allocator = Global> {
    /// The qdisc's own statistics: `TCA_STATS_APP` of `linux/gen_stats.h`.
    App(TcXstats<A>),
    /// Bytes and packets: `TCA_STATS_BASIC`.
    Basic(TcStatsBasic),
    /// Length of the queue, drops, requeues and overlimits: `TCA_STATS_QUEUE`.
    Queue(TcStatsQueue),
    /// Bytes and packets that the hardware handled: `TCA_STATS_BASIC_HW`.
    BasicHw(TcStatsBasic),
    /// Any other type.
    Other(DefaultNla<A>),
}

// Nested values of the attributes.
type Body<'a, A> = Either<
    Record<'a, TcXstats<A>>,
    Either<Record<'a, TcStatsBasic>, Record<'a, TcStatsQueue>>,
>;

impl<A: Allocator> FrameMeaning for TcStats2<A> {
    ghost Seen = { Attribute };

    ghost see = { tc_stats2 };

    ghost codec = { table_codec (table stats2) };
}

impl<A: Allocator> ParseableParametrized<A> for TcStats2<A> {
    fn parse_with_param(alloc: A, buf: &NlaBuffer<'_>, kind: &str) -> Res<TcStats2<A>> {
        let value = buf.value();
        match buf.kind() {
            TCA_STATS_BASIC => Ok(Self::Basic(TcStatsBasic::parse(value)?)),
            TCA_STATS_QUEUE => Ok(Self::Queue(TcStatsQueue::parse(value)?)),
            TCA_STATS_APP => Ok(Self::App(TcXstats::parse_with_param(alloc, buf, kind)?)),
            TCA_STATS_BASIC_HW => Ok(Self::BasicHw(TcStatsBasic::parse(value)?)),
            _ => Ok(Self::Other(DefaultNla::parse(alloc, buf)?)),
        }
    }
}

impl<A: Allocator> TcStats2<A> {
    // The row; its contract says how the attribute is written, when it fits and when it is settled.
    fn view(&self) -> (u16, Value<'_, Body<'_, A>>)
        ensures { ShownAs stats2_body stats2 (tc_stats2 self.now) result.0 result.1 }
    {
        self.row()
    }

    /// The `nla_type` (type and flags) and the value in the format of the type's row. Both of `Other` are as read.
    pub fn row(&self) -> (u16, Value<'_, Body<'_, A>>)
        ensures seen { tc_stats2 self.now ≡ attribute_of stats2_body result.0 result.1 }
        ensures row { IsRow stats2_body stats2 result.0 result.1 }
    {
        match self {
            Self::App(stats) => (TCA_STATS_APP, Value::Nested(Either::Left(Record(stats)))),
            Self::Basic(stats) => (
                TCA_STATS_BASIC,
                Value::Nested(Either::Right(Either::Left(Record(stats)))),
            ),
            Self::Queue(stats) => (
                TCA_STATS_QUEUE,
                Value::Nested(Either::Right(Either::Right(Record(stats)))),
            ),
            Self::BasicHw(stats) => (
                TCA_STATS_BASIC_HW,
                Value::Nested(Either::Right(Either::Left(Record(stats)))),
            ),
            Self::Other(nla) => (nla.kind(), Value::Kept(nla.value())),
        }
    }
}

// True if the table reads statistics of the type of this `nla_type`.
fn is_read(word: u16) -> bool
    ensures { result ≡ reads_at stats2 (type_of word) }
{
    matches!(
        word & NLA_TYPE_MASK,
        TCA_STATS_BASIC | TCA_STATS_QUEUE | TCA_STATS_APP | TCA_STATS_BASIC_HW
    )
}

impl<A: Allocator> Nla for TcStats2<A> {
    fn kind(&self) -> u16 {
        self.view().0
    }

    fn checked_len(&self) -> Option<usize> {
        self.view().1.checked_len()
    }

    fn put_value(&self, buffer: &mut [u8]) -> usize {
        self.view().1.put(buffer)
    }

    ghost is_short = { table_short (table stats2) };
}

impl<A: Allocator> Settle for TcStats2<A> {
    fn is_settled_under(&self, kind: &str) -> bool {
        let (word, value) = self.view();
        value.is_settled_under(is_read(word), kind)
    }
}

impl<A: Allocator> PartialEq for TcStats2<A> {
    ghost eq = { on tc_stats2 same_attribute };

    ghost laws = { attribute_per tc_stats2 };

    fn eq(&self, other: &TcStats2<A>) -> bool {
        same_row(&self.row(), &other.row())
    }
}

impl<A: Allocator> Eq for TcStats2<A> {
    ghost laws = { attribute_equiv tc_stats2 };
}
