//! The qdisc `ingress`.

ghost use Rattle.tc_canon.specs.Tables.Options.{ingress_options};
ghost use Rattle.tc_values.specs.AttributeWords.{on, table, Attribute, table_codec, table_short, same_attribute, attribute_equiv, attribute_per};
ghost use Rattle.tc_options.specs.Ingress.{ingress_option};

use nla_frames::{DefaultNla, FrameMeaning, Nla, NlaBuffer, Parseable, Res, Settle};
use std::alloc::{Allocator, Global};

/// The qdisc `ingress`, to which filters of incoming packets are attached. It queues nothing.
#[derive(PartialEq, Eq, Clone, Drop, Debug)]
pub struct TcQdiscIngress {}

impl TcQdiscIngress {
    /// The name in `TCA_KIND`.
    pub const KIND: &'static str = "ingress";
}

/// An option of `ingress`. The kernel names none, so each is kept raw.
#[derive(Drop)]
#[derive_where(Debug)]
#[derive_where(Clone; A)]
pub enum TcQdiscIngressOption<A: Allocator = Global> {
    /// Any type.
    Other(DefaultNla<A>),
}

impl<A: Allocator> FrameMeaning for TcQdiscIngressOption<A> {
    ghost Seen = { Attribute };

    ghost see = { ingress_option };

    ghost codec = { table_codec (table ingress_options) };
}

impl<A: Allocator> Parseable<A> for TcQdiscIngressOption<A> {
    fn parse(alloc: A, buf: &NlaBuffer<'_>) -> Res<TcQdiscIngressOption<A>> {
        Ok(Self::Other(DefaultNla::parse(alloc, buf)?))
    }
}

impl<A: Allocator> Nla for TcQdiscIngressOption<A> {
    fn kind(&self) -> u16 {
        match self {
            Self::Other(nla) => nla.kind(),
        }
    }

    fn checked_len(&self) -> Option<usize> {
        match self {
            Self::Other(nla) => nla.checked_len(),
        }
    }

    fn put_value(&self, buffer: &mut [u8]) -> usize {
        match self {
            Self::Other(nla) => nla.put_value(buffer),
        }
    }

    ghost is_short = { table_short (table ingress_options) };
}

impl<A: Allocator> Settle for TcQdiscIngressOption<A> {
    fn is_settled_under(&self, kind: &str) -> bool {
        match self {
            Self::Other(nla) => nla.is_settled_under(kind),
        }
    }
}

impl<A: Allocator> PartialEq for TcQdiscIngressOption<A> {
    ghost eq = { on ingress_option same_attribute };

    ghost laws = { attribute_per ingress_option };

    fn eq(&self, other: &TcQdiscIngressOption<A>) -> bool {
        match (self, other) {
            (Self::Other(one), Self::Other(another)) => one == another,
        }
    }
}

impl<A: Allocator> Eq for TcQdiscIngressOption<A> {
    ghost laws = { attribute_equiv ingress_option };
}
