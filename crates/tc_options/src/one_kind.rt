//! Readers of the options of one kind, for lists whose kind is known before their first option.

ghost use Rattle.std.specs.Prelude.{codes};
ghost use Rattle.nla_frames.specs.Fault.{Returns, seen};
ghost use Rattle.nla_frames.specs.Reading.{read_list, keep};
ghost use Rattle.tc_options.specs.Options.{listed, read_option};

use crate::filters::bpf::TcFilterBpfOption;
use crate::filters::cls_u32::TcFilterU32Option;
use crate::filters::matchall::TcFilterMatchAllOption;
use crate::options::{TcOption, VecTcOption};
use crate::qdiscs::fq_codel::TcQdiscFqCodelOption;
use crate::qdiscs::ingress::TcQdiscIngressOption;
use nla_frames::{FrameReader, NlaBuffer, Parseable, Res, parse_list_by};
use std::alloc::Allocator;
use tc_flower::TcFilterFlowerOption;

/// Reads options of `fq_codel`.
#[derive(Drop)]
pub(crate) struct FqCodel;

impl<A: Allocator> FrameReader<A, TcOption<A>> for FqCodel {
    ghost kind = { λ _. codes "fq_codel" };

    #[inline(always)]
    fn read(&self, alloc: A, buf: &NlaBuffer<'_>) -> Res<TcOption<A>> {
        Ok(TcOption::FqCodel(TcQdiscFqCodelOption::parse(alloc, buf)?))
    }
}

/// Reads options of `ingress`.
#[derive(Drop)]
pub(crate) struct Ingress;

impl<A: Allocator> FrameReader<A, TcOption<A>> for Ingress {
    ghost kind = { λ _. codes "ingress" };

    #[inline(always)]
    fn read(&self, alloc: A, buf: &NlaBuffer<'_>) -> Res<TcOption<A>> {
        Ok(TcOption::Ingress(TcQdiscIngressOption::parse(alloc, buf)?))
    }
}

/// Reads options of `flower`.
#[derive(Drop)]
pub(crate) struct Flower;

impl<A: Allocator + Copy> FrameReader<A, TcOption<A>> for Flower {
    ghost kind = { λ _. codes "flower" };

    #[inline(always)]
    fn read(&self, alloc: A, buf: &NlaBuffer<'_>) -> Res<TcOption<A>> {
        Ok(TcOption::Flower(TcFilterFlowerOption::parse(alloc, buf)?))
    }
}

/// Reads options of `u32`.
#[derive(Drop)]
pub(crate) struct U32;

impl<A: Allocator + Copy> FrameReader<A, TcOption<A>> for U32 {
    ghost kind = { λ _. codes "u32" };

    #[inline(always)]
    fn read(&self, alloc: A, buf: &NlaBuffer<'_>) -> Res<TcOption<A>> {
        Ok(TcOption::U32(TcFilterU32Option::parse(alloc, buf)?))
    }
}

/// Reads options of `matchall`.
#[derive(Drop)]
pub(crate) struct MatchAll;

impl<A: Allocator + Copy> FrameReader<A, TcOption<A>> for MatchAll {
    ghost kind = { λ _. codes "matchall" };

    #[inline(always)]
    fn read(&self, alloc: A, buf: &NlaBuffer<'_>) -> Res<TcOption<A>> {
        Ok(TcOption::MatchAll(TcFilterMatchAllOption::parse(alloc, buf)?))
    }
}

/// Reads options of `bpf`.
#[derive(Drop)]
pub(crate) struct Bpf;

impl<A: Allocator> FrameReader<A, TcOption<A>> for Bpf {
    ghost kind = { λ _. codes "bpf" };

    #[inline(always)]
    fn read(&self, alloc: A, buf: &NlaBuffer<'_>) -> Res<TcOption<A>> {
        Ok(TcOption::Bpf(TcFilterBpfOption::parse(alloc, buf)?))
    }
}

/// Reads a list of options of one kind, or returns the first fault.
pub(crate) fn read_list_of<A: Allocator + Copy, K: FrameReader<A, TcOption<A>>>(
    alloc: A,
    bytes: &[u8],
    reader: &K,
) -> Res<VecTcOption<A>>
    ensures { Returns (seen listed result)
        (read_list read_option keep (K.kind reader.now) bytes.now) }
{
    Ok(VecTcOption(parse_list_by(alloc, bytes, reader)?))
}
