//! The action `tunnel_key`.

ghost use Rattle.std.specs.Prelude.{◌≡◌};
ghost use Rattle.tc_canon.specs.Tables.Actions.{tunnel_key_options};
ghost use Rattle.tc_values.specs.AttributeWords.{on, type_of, table, Attribute, table_codec, table_short, same_attribute, attribute_equiv, attribute_per};
ghost use Rattle.tc_values.specs.Row.{attribute_of, IsRow, ShownAs, reads_at};
ghost use Rattle.tc_actions.specs.TunnelKey.{tunnel_key_option, tunnel_key_body};

use crate::actions::types::*;
use nla_frames::{
    DefaultNla, FrameMeaning, NLA_TYPE_MASK, Nla, NlaBuffer, Parseable, Res, Settle,
    parse_ipv4_addr, parse_ipv6_addr, parse_u8, parse_u16_be, parse_u32_be,
};
use std::alloc::{Allocator, Global};
use std::net::{Ipv4Addr, Ipv6Addr};
use tc_records::{TcTunnelKey, Tcf};
use tc_values::{Either, Record, Value, same_row};

/// The action `tunnel_key`, which sets or removes a packet's tunnel header.
#[derive(PartialEq, Eq, Clone, Drop, Debug)]
pub struct TcActionTunnelKey {}

impl TcActionTunnelKey {
    /// The name in `TCA_ACT_KIND`.
    pub const KIND: &'static str = "tunnel_key";
}

/// An option of the action `tunnel_key`.
///
/// | Type | Option | Value |
/// |---|---|---|
/// | 1 | `Tm` | [`Tcf`] |
/// | 2 | `Parms` | [`TcTunnelKey`] |
/// | 3, 4 | `EncIpv4Src`, `EncIpv4Dst` | IPv4 address |
/// | 5, 6 | `EncIpv6Src`, `EncIpv6Dst` | IPv6 address |
/// | 7 | `EncKeyId` | u32, big-endian |
/// | 9 | `EncDstPort` | u16, big-endian |
/// | 10 | `NoCsum` | u8, 0 or not |
/// | 12, 13 | `EncTos`, `EncTtl` | u8 |
#[derive(Drop)]
#[derive_where(Debug)]
#[derive_where(Clone; A)]
pub enum TcActionTunnelKeyOption<A: Allocator = Global> {
    /// Times of creation and use: `TCA_TUNNEL_KEY_TM` of `linux/tc_act/tc_tunnel_key.h`.
    Tm(Tcf),
    /// Whether the header is set or removed: `TCA_TUNNEL_KEY_PARMS`.
    Parms(TcTunnelKey),
    /// The IPv4 address of the tunnel's source: `TCA_TUNNEL_KEY_ENC_IPV4_SRC`.
    EncIpv4Src(Ipv4Addr),
    /// The IPv4 address of the tunnel's destination: `TCA_TUNNEL_KEY_ENC_IPV4_DST`.
    EncIpv4Dst(Ipv4Addr),
    /// The IPv6 address of the tunnel's source: `TCA_TUNNEL_KEY_ENC_IPV6_SRC`.
    EncIpv6Src(Ipv6Addr),
    /// The IPv6 address of the tunnel's destination: `TCA_TUNNEL_KEY_ENC_IPV6_DST`.
    EncIpv6Dst(Ipv6Addr),
    /// The tunnel's identifier, big-endian: `TCA_TUNNEL_KEY_ENC_KEY_ID`.
    EncKeyId(u32),
    /// The UDP port of the tunnel's destination, big-endian: `TCA_TUNNEL_KEY_ENC_DST_PORT`.
    EncDstPort(u16),
    /// Whether the tunnel's UDP header goes without a checksum. Any byte but 0 is true, written as 1: `TCA_TUNNEL_KEY_NO_CSUM`.
    NoCsum(bool),
    /// The type of service in the tunnel's IP header: `TCA_TUNNEL_KEY_ENC_TOS`.
    EncTos(u8),
    /// The hop limit in the tunnel's IP header: `TCA_TUNNEL_KEY_ENC_TTL`.
    EncTtl(u8),
    /// Any other type.
    Other(DefaultNla<A>),
}

// Nested values of the options.
type Body<'a> = Either<Record<'a, Tcf>, Record<'a, TcTunnelKey>>;

impl<A: Allocator> FrameMeaning for TcActionTunnelKeyOption<A> {
    ghost Seen = { Attribute };

    ghost see = { tunnel_key_option };

    ghost codec = { table_codec (table tunnel_key_options) };
}

impl<A: Allocator> Parseable<A> for TcActionTunnelKeyOption<A> {
    #[inline(always)]
    fn parse(alloc: A, buf: &NlaBuffer<'_>) -> Res<TcActionTunnelKeyOption<A>> {
        let value = buf.value();
        match buf.kind() {
            TCA_TUNNEL_KEY_TM => Ok(Self::Tm(Tcf::parse(value)?)),
            TCA_TUNNEL_KEY_PARMS => Ok(Self::Parms(TcTunnelKey::parse(value)?)),
            TCA_TUNNEL_KEY_ENC_IPV4_SRC => Ok(Self::EncIpv4Src(parse_ipv4_addr(value)?)),
            TCA_TUNNEL_KEY_ENC_IPV4_DST => Ok(Self::EncIpv4Dst(parse_ipv4_addr(value)?)),
            TCA_TUNNEL_KEY_ENC_IPV6_SRC => Ok(Self::EncIpv6Src(parse_ipv6_addr(value)?)),
            TCA_TUNNEL_KEY_ENC_IPV6_DST => Ok(Self::EncIpv6Dst(parse_ipv6_addr(value)?)),
            TCA_TUNNEL_KEY_ENC_KEY_ID => Ok(Self::EncKeyId(parse_u32_be(value)?)),
            TCA_TUNNEL_KEY_ENC_DST_PORT => Ok(Self::EncDstPort(parse_u16_be(value)?)),
            TCA_TUNNEL_KEY_NO_CSUM => Ok(Self::NoCsum(parse_u8(value)? != 0)),
            TCA_TUNNEL_KEY_ENC_TOS => Ok(Self::EncTos(parse_u8(value)?)),
            TCA_TUNNEL_KEY_ENC_TTL => Ok(Self::EncTtl(parse_u8(value)?)),
            _ => Ok(Self::Other(DefaultNla::parse(alloc, buf)?)),
        }
    }
}

impl<A: Allocator> TcActionTunnelKeyOption<A> {
    // The row; its contract says how the attribute is written, when it fits and when it is settled.
    #[inline(always)]
    fn view(&self) -> (u16, Value<'_, Body<'_>>)
        ensures { ShownAs tunnel_key_body tunnel_key_options (tunnel_key_option self.now)
            result.0 result.1 }
    {
        self.row()
    }

    /// The `nla_type` (type and flags) and the value in the format of the type's row. Both of `Other` are as read.
    #[inline(always)]
    pub fn row(&self) -> (u16, Value<'_, Body<'_>>)
        ensures seen { tunnel_key_option self.now ≡ attribute_of tunnel_key_body result.0 result.1 }
        ensures row { IsRow tunnel_key_body tunnel_key_options result.0 result.1 }
    {
        match self {
            Self::Tm(times) => (
                TCA_TUNNEL_KEY_TM,
                Value::Nested(Either::Left(Record(times))),
            ),
            Self::Parms(parms) => (
                TCA_TUNNEL_KEY_PARMS,
                Value::Nested(Either::Right(Record(parms))),
            ),
            Self::EncIpv4Src(address) => (
                TCA_TUNNEL_KEY_ENC_IPV4_SRC,
                Value::Octets4(address.octets()),
            ),
            Self::EncIpv4Dst(address) => (
                TCA_TUNNEL_KEY_ENC_IPV4_DST,
                Value::Octets4(address.octets()),
            ),
            Self::EncIpv6Src(address) => (
                TCA_TUNNEL_KEY_ENC_IPV6_SRC,
                Value::Octets16(address.octets()),
            ),
            Self::EncIpv6Dst(address) => (
                TCA_TUNNEL_KEY_ENC_IPV6_DST,
                Value::Octets16(address.octets()),
            ),
            Self::EncKeyId(n) => (TCA_TUNNEL_KEY_ENC_KEY_ID, Value::U32Be(*n)),
            Self::EncDstPort(n) => (TCA_TUNNEL_KEY_ENC_DST_PORT, Value::U16Be(*n)),
            Self::NoCsum(is_set) => (TCA_TUNNEL_KEY_NO_CSUM, Value::Truth(*is_set)),
            Self::EncTos(n) => (TCA_TUNNEL_KEY_ENC_TOS, Value::U8(*n)),
            Self::EncTtl(n) => (TCA_TUNNEL_KEY_ENC_TTL, Value::U8(*n)),
            Self::Other(nla) => (nla.kind(), Value::Kept(nla.value())),
        }
    }
}

// True if the table reads options of the type of this `nla_type`.
fn is_read(word: u16) -> bool
    ensures { result ≡ reads_at tunnel_key_options (type_of word) }
{
    matches!(
        word & NLA_TYPE_MASK,
        TCA_TUNNEL_KEY_TM..=TCA_TUNNEL_KEY_ENC_KEY_ID
            | TCA_TUNNEL_KEY_ENC_DST_PORT
            | TCA_TUNNEL_KEY_NO_CSUM
            | TCA_TUNNEL_KEY_ENC_TOS
            | TCA_TUNNEL_KEY_ENC_TTL
    )
}

impl<A: Allocator> Nla for TcActionTunnelKeyOption<A> {
    fn kind(&self) -> u16 {
        self.view().0
    }

    fn checked_len(&self) -> Option<usize> {
        self.view().1.checked_len()
    }

    fn put_value(&self, buffer: &mut [u8]) -> usize {
        self.view().1.put(buffer)
    }

    ghost is_short = { table_short (table tunnel_key_options) };
}

impl<A: Allocator> Settle for TcActionTunnelKeyOption<A> {
    fn is_settled_under(&self, kind: &str) -> bool {
        let (word, value) = self.view();
        value.is_settled_under(is_read(word), kind)
    }
}

impl<A: Allocator> PartialEq for TcActionTunnelKeyOption<A> {
    ghost eq = { on tunnel_key_option same_attribute };

    ghost laws = { attribute_per tunnel_key_option };

    fn eq(&self, other: &TcActionTunnelKeyOption<A>) -> bool {
        same_row(&self.row(), &other.row())
    }
}

impl<A: Allocator> Eq for TcActionTunnelKeyOption<A> {
    ghost laws = { attribute_equiv tunnel_key_option };
}
