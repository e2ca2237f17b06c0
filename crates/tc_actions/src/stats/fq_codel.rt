//! The qdisc `fq_codel`, and its statistics.

ghost use Rattle.std.specs.Prelude.{◌≡◌, ◌≤◌, ◌↔◌, [], IsTrue, length, take, drop};
ghost use Rattle.std.specs.Ordering.{on};
ghost use Rattle.nla_frames.specs.Fault.{Returns, seen};
ghost use Rattle.nla_frames.specs.Value.{IsBytes, le_value};
ghost use Rattle.tc_meaning.specs.Tree.{Content};
ghost use Rattle.tc_meaning.specs.Equal.{same_content, content_equiv, content_per};
ghost use Rattle.tc_actions.specs.FqCodelXstats.{fq_codel_xstats, fq_codel_xstats_codec, IsNoNumber};

use crate::stats::types::{TCA_FQ_CODEL_XSTATS_CLASS, TCA_FQ_CODEL_XSTATS_QDISC};
use nla_frames::laws::in_range::bytes_are_in_range;
use nla_frames::{
    BytesMeaning, DecodeError, Emitable, ParseableBytes, Res, SettleBytes, emit_u32, put_bytes,
};
use std::alloc::{Allocator, Global};
use tc_records::{
    TC_FQ_CODEL_CL_STATS_LEN, TC_FQ_CODEL_QD_STATS_LEN, TcFqCodelClStats, TcFqCodelQdStats,
};

/// The qdisc `fq_codel`.
#[derive(PartialEq, Eq, Clone, Drop, Debug)]
pub struct TcQdiscFqCodel {}

impl TcQdiscFqCodel {
    /// The name in `TCA_KIND`.
    pub const KIND: &'static str = "fq_codel";
}

// Length in bytes of the number before a record.
const XSTATS_NUMBER_LEN: usize = 4;

/// The statistics of `fq_codel`, `struct tc_fq_codel_xstats` of `linux/pkt_sched.h`: a little-endian u32 that names
/// a record, and the record.
///
/// | Number | Statistics | Record |
/// |---|---|---|
/// | 0 | `Qdisc` | [`TcFqCodelQdStats`] |
/// | 1 | `Class` | [`TcFqCodelClStats`] |
#[derive(Drop)]
#[derive_where(Debug)]
#[derive_where(Clone; A)]
pub enum TcFqCodelXstats<A: Allocator = Global> {
    /// Of the qdisc: `TCA_FQ_CODEL_XSTATS_QDISC`.
    Qdisc(TcFqCodelQdStats),
    /// Of one flow, which is a class: `TCA_FQ_CODEL_XSTATS_CLASS`.
    Class(TcFqCodelClStats),
    /// All bytes, number included, if the number is any other.
    Other(Vec<u8, A>),
}

impl<A: Allocator> BytesMeaning for TcFqCodelXstats<A> {
    ghost Seen = { Content };

    ghost see = { fq_codel_xstats };

    ghost codec = { fq_codel_xstats_codec };
}

impl<A: Allocator> ParseableBytes<A> for TcFqCodelXstats<A> {
    /// Reads statistics. Bytes after the record are ignored. Fails with `XstatsShort` if there are fewer than four bytes,
    /// and with `BufferTooSmall` if the record is cut off (its lengths don't count the number).
    fn parse(alloc: A, bytes: &[u8]) -> Res<TcFqCodelXstats<A>> {
        if bytes.len() < XSTATS_NUMBER_LEN {
            return Err(DecodeError::XstatsShort { len: bytes.len() });
        }
        let (number, payload) = split_number(bytes);
        match number {
            TCA_FQ_CODEL_XSTATS_QDISC => Ok(Self::Qdisc(TcFqCodelQdStats::parse(payload)?)),
            TCA_FQ_CODEL_XSTATS_CLASS => Ok(Self::Class(TcFqCodelClStats::parse(payload)?)),
            _ => Ok(Self::Other(Vec::from_slice(alloc, bytes)?)),
        }
    }
}

impl<A: Allocator> Emitable for TcFqCodelXstats<A> {
    fn checked_len(&self) -> Option<usize> {
        match self {
            Self::Qdisc(_) => Some(XSTATS_NUMBER_LEN + TC_FQ_CODEL_QD_STATS_LEN),
            Self::Class(_) => Some(XSTATS_NUMBER_LEN + TC_FQ_CODEL_CL_STATS_LEN),
            Self::Other(bytes) => Some(bytes.len()),
        }
    }

    fn emit(&self, buffer: &mut [u8]) {
        match self {
            Self::Qdisc(stats) => {
                stats.emit(&mut buffer[XSTATS_NUMBER_LEN..]);
                emit_u32(buffer, TCA_FQ_CODEL_XSTATS_QDISC);
            }
            Self::Class(stats) => {
                stats.emit(&mut buffer[XSTATS_NUMBER_LEN..]);
                emit_u32(buffer, TCA_FQ_CODEL_XSTATS_CLASS);
            }
            Self::Other(bytes) => {
                put_bytes(buffer, bytes);
            }
        }
    }
}

impl<A: Allocator> SettleBytes for TcFqCodelXstats<A> {
    fn is_settled_under(&self, kind: &str) -> bool {
        match self {
            Self::Qdisc(stats) => stats.is_settled_under(kind),
            Self::Class(stats) => stats.is_settled_under(kind),
            Self::Other(bytes) => is_no_number(bytes),
        }
    }
}

impl<A: Allocator> TcFqCodelXstats<A> {
    /// True if encoding and parsing gives the statistics back: an `Other` has at least four bytes and begins with
    /// neither of the two numbers.
    pub fn is_settled(&self) -> bool
        ensures settled { IsTrue result
            ↔ fq_codel_xstats_codec.Settled [] (fq_codel_xstats self.now) }
        ensures typed { IsTrue result → fq_codel_xstats_codec.Typed (fq_codel_xstats self.now) }
    {
        self.is_settled_under("")
    }
}

// The first four bytes as a number, and the bytes after them.
fn split_number(bytes: &[u8]) -> (u32, &[u8])
    requires { 4 ≤ length bytes.now }
    ensures number { result.0 ≡ le_value (take 4 bytes.now) }
    ensures rest { result.1.now ≡ drop 4 bytes.now }
{
    let (front, rest) = bytes.split_at(XSTATS_NUMBER_LEN);
    (
        u32::from_le_bytes([front[0], front[1], front[2], front[3]]),
        rest,
    )
}

// True if the bytes begin with a number that names no record.
fn is_no_number(bytes: &[u8]) -> bool
    ensures settled { IsTrue result ↔ IsNoNumber bytes.now }
    ensures typed { IsBytes bytes.now }
{
    // Does nothing at run time: it says that each byte is below 256.
    bytes_are_in_range(bytes);
    bytes.len() >= XSTATS_NUMBER_LEN && split_number(bytes).0 > TCA_FQ_CODEL_XSTATS_CLASS
}

impl<A: Allocator> PartialEq for TcFqCodelXstats<A> {
    ghost eq = { on fq_codel_xstats same_content };

    ghost laws = { content_per fq_codel_xstats };

    fn eq(&self, other: &TcFqCodelXstats<A>) -> bool {
        match (self, other) {
            (Self::Qdisc(one), Self::Qdisc(another)) => one == another,
            (Self::Class(one), Self::Class(another)) => one == another,
            (Self::Other(one), Self::Other(another)) => one == another,
            _ => false,
        }
    }
}

impl<A: Allocator> Eq for TcFqCodelXstats<A> {
    ghost laws = { content_equiv fq_codel_xstats };
}
