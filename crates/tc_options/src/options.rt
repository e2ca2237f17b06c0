//! Options of qdiscs and filters, in the format of the kind.

ghost use Rattle.std.specs.Prelude.{◌≡◌, ◌↔◌, List, IsTrue, IfOk};
ghost use Rattle.std.specs.Ordering.{on};
ghost use Rattle.nla_frames.specs.Fault.{Returns, IfRefused, seen};
ghost use Rattle.nla_frames.specs.Buffer.{frame_of};
ghost use Rattle.tc_canon.specs.Descriptor.{by_kind, is_known};
ghost use Rattle.tc_canon.specs.Tables.Options.{option_kinds};
ghost use Rattle.tc_meaning.specs.Tree.{Attribute};
ghost use Rattle.tc_meaning.specs.Meaning.{table_codec};
ghost use Rattle.tc_meaning.specs.Short.{table_short};
ghost use Rattle.tc_meaning.specs.Equal.{same_attribute, attribute_equiv, attribute_per};
ghost use Rattle.tc_options.specs.Options.{tc_option, listed, read_options, ReadsOptions, OptionsFault};

use crate::filters::bpf::{TcFilterBpf, TcFilterBpfOption};
use crate::filters::cls_u32::{TcFilterU32, TcFilterU32Option};
use crate::filters::matchall::{TcFilterMatchAll, TcFilterMatchAllOption};
use crate::one_kind::{Bpf, Flower, FqCodel, Ingress, MatchAll, U32, read_list_of};
use crate::qdiscs::fq_codel::{TcQdiscFqCodel, TcQdiscFqCodelOption};
use crate::qdiscs::ingress::{TcQdiscIngress, TcQdiscIngressOption};
use nla_frames::laws::in_range::bytes_are_in_range;
use nla_frames::{
    DefaultNla, FrameMeaning, FrameReader, Nla, NlaBuffer, Parseable, ParseableParametrized, Res,
    Settle,
};
use std::alloc::{Allocator, Global};
use tc_flower::{TcFilterFlower, TcFilterFlowerOption};
use tc_values::is_settled_of_kind;

/// One option of a message, in the variant of the message's kind.
#[derive(Drop)]
#[derive_where(Debug)]
#[derive_where(Clone; A)]
pub enum TcOption<A: Allocator = Global> {
    /// Under the kind `fq_codel`.
    FqCodel(TcQdiscFqCodelOption<A>),
    /// Under the kind `ingress`.
    Ingress(TcQdiscIngressOption<A>),
    /// Under the kind `flower`.
    Flower(TcFilterFlowerOption<A>),
    /// Under the kind `u32`.
    U32(TcFilterU32Option<A>),
    /// Under the kind `matchall`.
    MatchAll(TcFilterMatchAllOption<A>),
    /// Under the kind `bpf`.
    Bpf(TcFilterBpfOption<A>),
    /// Under any other kind.
    Other(DefaultNla<A>),
}

/// True if options of the kind are typed: `fq_codel`, `ingress`, `flower`, `u32`, `matchall` and `bpf`.
pub fn is_known_kind(kind: &str) -> bool
    ensures { result ≡ is_known option_kinds kind.now }
{
    kind == TcQdiscFqCodel::KIND
        || kind == TcQdiscIngress::KIND
        || kind == TcFilterFlower::KIND
        || kind == TcFilterU32::KIND
        || kind == TcFilterMatchAll::KIND
        || kind == TcFilterBpf::KIND
}

impl<A: Allocator> FrameMeaning for TcOption<A> {
    ghost Seen = { Attribute };

    ghost see = { tc_option };

    ghost codec = { table_codec (by_kind option_kinds) };
}

impl<A: Allocator + Copy> ParseableParametrized<A> for TcOption<A> {
    fn parse_with_param(alloc: A, buf: &NlaBuffer<'_>, kind: &str) -> Res<TcOption<A>> {
        if kind == TcQdiscFqCodel::KIND {
            return FqCodel.read(alloc, buf);
        }
        if kind == TcQdiscIngress::KIND {
            return Ingress.read(alloc, buf);
        }
        if kind == TcFilterFlower::KIND {
            return Flower.read(alloc, buf);
        }
        if kind == TcFilterU32::KIND {
            return U32.read(alloc, buf);
        }
        if kind == TcFilterMatchAll::KIND {
            return MatchAll.read(alloc, buf);
        }
        if kind == TcFilterBpf::KIND {
            return Bpf.read(alloc, buf);
        }
        Ok(TcOption::Other(DefaultNla::parse(alloc, buf)?))
    }
}

impl<A: Allocator> Nla for TcOption<A> {
    fn kind(&self) -> u16 {
        match self {
            TcOption::FqCodel(option) => option.kind(),
            TcOption::Ingress(option) => option.kind(),
            TcOption::Flower(option) => option.kind(),
            TcOption::U32(option) => option.kind(),
            TcOption::MatchAll(option) => option.kind(),
            TcOption::Bpf(option) => option.kind(),
            TcOption::Other(nla) => nla.kind(),
        }
    }

    fn checked_len(&self) -> Option<usize> {
        match self {
            TcOption::FqCodel(option) => option.checked_len(),
            TcOption::Ingress(option) => option.checked_len(),
            TcOption::Flower(option) => option.checked_len(),
            TcOption::U32(option) => option.checked_len(),
            TcOption::MatchAll(option) => option.checked_len(),
            TcOption::Bpf(option) => option.checked_len(),
            TcOption::Other(nla) => nla.checked_len(),
        }
    }

    fn put_value(&self, buffer: &mut [u8]) -> usize {
        match self {
            TcOption::FqCodel(option) => option.put_value(buffer),
            TcOption::Ingress(option) => option.put_value(buffer),
            TcOption::Flower(option) => option.put_value(buffer),
            TcOption::U32(option) => option.put_value(buffer),
            TcOption::MatchAll(option) => option.put_value(buffer),
            TcOption::Bpf(option) => option.put_value(buffer),
            TcOption::Other(nla) => nla.put_value(buffer),
        }
    }

    ghost is_short = { table_short (by_kind option_kinds) };
}

impl<A: Allocator> Settle for TcOption<A> {
    fn is_settled_under(&self, kind: &str) -> bool {
        match self {
            TcOption::FqCodel(option) => is_settled_of_kind(option, TcQdiscFqCodel::KIND, kind),
            TcOption::Ingress(option) => is_settled_of_kind(option, TcQdiscIngress::KIND, kind),
            TcOption::Flower(option) => is_settled_of_kind(option, TcFilterFlower::KIND, kind),
            TcOption::U32(option) => is_settled_of_kind(option, TcFilterU32::KIND, kind),
            TcOption::MatchAll(option) => is_settled_of_kind(option, TcFilterMatchAll::KIND, kind),
            TcOption::Bpf(option) => is_settled_of_kind(option, TcFilterBpf::KIND, kind),
            TcOption::Other(nla) => nla.is_settled_under(kind) && !is_known_kind(kind),
        }
    }
}

impl<A: Allocator> PartialEq for TcOption<A> {
    ghost eq = { on tc_option same_attribute };

    ghost laws = { attribute_per tc_option };

    fn eq(&self, other: &TcOption<A>) -> bool {
        match (self, other) {
            (Self::FqCodel(one), Self::FqCodel(another)) => one == another,
            (Self::Ingress(one), Self::Ingress(another)) => one == another,
            (Self::Flower(one), Self::Flower(another)) => one == another,
            (Self::U32(one), Self::U32(another)) => one == another,
            (Self::MatchAll(one), Self::MatchAll(another)) => one == another,
            (Self::Bpf(one), Self::Bpf(another)) => one == another,
            (Self::Other(one), Self::Other(another)) => one == another,
            _ => false,
        }
    }
}

impl<A: Allocator> Eq for TcOption<A> {
    ghost laws = { attribute_equiv tc_option };
}

/// The options in one frame: a list under a known kind. Under any other kind one `Other` with the whole frame.
#[derive(Drop)]
pub struct VecTcOption<A: Allocator = Global>(pub Vec<TcOption<A>, A>);

impl<A: Allocator + Copy> VecTcOption<A> {
    /// Reads the options in a frame of this kind, or returns their first fault.
    pub fn parse_with_param(alloc: A, buf: &NlaBuffer<'_>, kind: &str) -> Res<VecTcOption<A>>
        ensures found { IfOk result (λ options.
            ReadsOptions kind.now (frame_of buf.now) (listed options)) }
        // A refusal is the first fault.
        ensures refused { IfRefused result (OptionsFault kind.now (frame_of buf.now)) }
        // The result is what the reading function computes, unless memory ran out.
        ensures exact { Returns (seen listed result) (read_options kind.now (frame_of buf.now)) }
    {
        // Does nothing at run time: it says that the value is bytes, for the clauses `found` and `refused`.
        bytes_are_in_range(buf.value());
        read_by_kind(alloc, buf, kind)
    }
}

// Reads the options; the kind is compared once, not per option.
fn read_by_kind<A: Allocator + Copy>(
    alloc: A,
    buf: &NlaBuffer<'_>,
    kind: &str,
) -> Res<VecTcOption<A>>
    ensures { Returns (seen listed result) (read_options kind.now (frame_of buf.now)) }
{
    if kind == TcQdiscFqCodel::KIND {
        return read_list_of(alloc, buf.value(), &FqCodel);
    }
    if kind == TcQdiscIngress::KIND {
        return read_list_of(alloc, buf.value(), &Ingress);
    }
    if kind == TcFilterFlower::KIND {
        return read_list_of(alloc, buf.value(), &Flower);
    }
    if kind == TcFilterU32::KIND {
        return read_list_of(alloc, buf.value(), &U32);
    }
    if kind == TcFilterMatchAll::KIND {
        return read_list_of(alloc, buf.value(), &MatchAll);
    }
    if kind == TcFilterBpf::KIND {
        return read_list_of(alloc, buf.value(), &Bpf);
    }
    let mut options = Vec::new(alloc);
    options.push(TcOption::Other(DefaultNla::parse(alloc, buf)?))?;
    Ok(VecTcOption(options))
}
