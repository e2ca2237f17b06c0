//! A qdisc's own statistics.

ghost use Rattle.std.specs.Prelude.{◌≡◌, true};
ghost use Rattle.std.specs.Ordering.{on};
ghost use Rattle.nla_frames.specs.Fault.{Returns, seen};
ghost use Rattle.nla_frames.specs.Buffer.{frame_of};
ghost use Rattle.tc_meaning.specs.Tree.{Content};
ghost use Rattle.tc_meaning.specs.Content.{xstats_codec};
ghost use Rattle.tc_meaning.specs.Equal.{same_content, content_equiv, content_per};
ghost use Rattle.tc_actions.specs.Xstats.{tc_xstats};

use crate::stats::fq_codel::{TcFqCodelXstats, TcQdiscFqCodel};
use nla_frames::laws::in_range::bytes_are_in_range;
use nla_frames::{BytesMeaning, Emitable, NlaBuffer, ParseableBytes, Res, SettleBytes, put_bytes};
use std::alloc::{Allocator, Global};

/// A qdisc's own statistics, in the format of the kind in force: the last `TCA_KIND` before them.
#[derive(Drop)]
#[derive_where(Debug)]
#[derive_where(Clone; A)]
pub enum TcXstats<A: Allocator = Global> {
    /// Under the kind `fq_codel`.
    FqCodel(TcFqCodelXstats<A>),
    /// Under any other kind, as raw bytes.
    Other(Vec<u8, A>),
}

impl<A: Allocator> BytesMeaning for TcXstats<A> {
    ghost Seen = { Content };

    ghost see = { tc_xstats };

    ghost codec = { xstats_codec };
}

impl<A: Allocator> TcXstats<A> {
    /// Reads a frame's value as statistics of `kind`. Only those of `fq_codel` can be malformed, with the faults of
    /// [`TcFqCodelXstats`].
    pub fn parse_with_param(alloc: A, buf: &NlaBuffer<'_>, kind: &str) -> Res<TcXstats<A>>
        ensures { Returns (seen tc_xstats result)
            (xstats_codec.read kind.now (frame_of buf.now).value) }
    {
        if kind == TcQdiscFqCodel::KIND {
            return Ok(Self::FqCodel(TcFqCodelXstats::parse(alloc, buf.value())?));
        }
        Ok(Self::Other(Vec::from_slice(alloc, buf.value())?))
    }
}

impl<A: Allocator> Emitable for TcXstats<A> {
    fn checked_len(&self) -> Option<usize> {
        match self {
            Self::FqCodel(stats) => stats.checked_len(),
            Self::Other(bytes) => Some(bytes.len()),
        }
    }

    fn emit(&self, buffer: &mut [u8]) {
        match self {
            Self::FqCodel(stats) => stats.emit(buffer),
            Self::Other(bytes) => {
                put_bytes(buffer, bytes);
            }
        }
    }
}

impl<A: Allocator> SettleBytes for TcXstats<A> {
    fn is_settled_under(&self, kind: &str) -> bool {
        match self {
            Self::FqCodel(stats) => stats.is_settled() && kind == TcQdiscFqCodel::KIND,
            Self::Other(bytes) => {
                // Does nothing at run time: it says that each byte is below 256.
                bytes_are_in_range(bytes);
                kind != TcQdiscFqCodel::KIND
            }
        }
    }
}

impl<A: Allocator> PartialEq for TcXstats<A> {
    ghost eq = { on tc_xstats same_content };

    ghost laws = { content_per tc_xstats };

    fn eq(&self, other: &TcXstats<A>) -> bool {
        match (self, other) {
            (Self::FqCodel(one), Self::FqCodel(another)) => one == another,
            (Self::Other(one), Self::Other(another)) => one == another,
            _ => false,
        }
    }
}

impl<A: Allocator> Eq for TcXstats<A> {
    ghost laws = { content_equiv tc_xstats };
}
