//! Reading options.

ghost use Rattle.std.specs.Prelude.{◌≡◌, ◌&&◌, not, false, List, IsTrue};
ghost use Rattle.nla_frames.specs.Buffer.{frame_of};
ghost use Rattle.nla_frames.specs.Fault.{Returns, seen};
ghost use Rattle.nla_frames.specs.Frame.{type_of};
ghost use Rattle.nla_frames.specs.Value.{exactly};
ghost use Rattle.tc_canon.specs.Descriptor.{le, be, array};
ghost use Rattle.tc_canon.specs.Tables.Flower.{flower_options};
ghost use Rattle.tc_values.specs.Row.{reads_at};
ghost use Rattle.tc_flower.specs.Flower.{flower_option};
ghost use Rattle.tc_flower.specs.Held.{are_labels};
ghost use Rattle.tc_flower.specs.Reading.{flower_read};
ghost use Rattle.tc_flower.specs.Spans.{holds, spans, is_in};

use crate::filters::flower::options::*;
use nla_frames::{
    DecodeError, DefaultNla, NLA_TYPE_MASK, NlaBuffer, Parseable, Res, parse_ipv4_addr,
    parse_ipv6_addr, parse_list, parse_mac, parse_string, parse_u8, parse_u16, parse_u16_be,
    parse_u32, parse_u32_be,
};
use std::alloc::Allocator;

impl<A: Allocator + Copy> Parseable<A> for TcFilterFlowerOption<A> {
    #[inline(always)]
    fn parse(alloc: A, buf: &NlaBuffer<'_>) -> Res<TcFilterFlowerOption<A>> {
        Self::read(alloc, buf)
    }
}

impl<A: Allocator + Copy> TcFilterFlowerOption<A> {
    // One arm for the types that have the same value.
    #[tactic(auto, using(crate::proofs::FlowerReads::in_dev_read, crate::proofs::FlowerReads::bos_read, crate::proofs::FlowerReads::tc_read, crate::proofs::FlowerReads::label_read))]
    #[inline(always)]
    fn read(alloc: A, buf: &NlaBuffer<'_>) -> Res<Self>
        ensures { Returns (seen flower_option result) (flower_read (frame_of buf.now)) }
    {
        match buf.kind() {
            TCA_FLOWER_INDEV => Ok(Self::InDev(parse_string(alloc, buf.value())?)),
            TCA_FLOWER_ACT => Ok(Self::Actions(parse_list(alloc, buf.value())?)),
            TCA_FLOWER_KEY_ETH_DST..=TCA_FLOWER_KEY_ETH_SRC_MASK
            | TCA_FLOWER_KEY_ARP_SHA..=TCA_FLOWER_KEY_ARP_THA_MASK => Self::read_mac(buf),
            TCA_FLOWER_KEY_ETH_TYPE
            | TCA_FLOWER_KEY_TCP_SRC..=TCA_FLOWER_KEY_UDP_DST
            | TCA_FLOWER_KEY_VLAN_ETH_TYPE
            | TCA_FLOWER_KEY_TCP_SRC_MASK..=TCA_FLOWER_KEY_ENC_UDP_DST_PORT_MASK
            | TCA_FLOWER_KEY_TCP_FLAGS..=TCA_FLOWER_KEY_TCP_FLAGS_MASK
            | TCA_FLOWER_KEY_CVLAN_ETH_TYPE
            | TCA_FLOWER_KEY_PORT_SRC_MIN..=TCA_FLOWER_KEY_PORT_DST_MAX => Self::read_u16_be(buf),
            TCA_FLOWER_KEY_IP_PROTO
            | TCA_FLOWER_KEY_VLAN_PRIO
            | TCA_FLOWER_KEY_ICMPV4_CODE..=TCA_FLOWER_KEY_ICMPV6_TYPE_MASK
            | TCA_FLOWER_KEY_ARP_OP..=TCA_FLOWER_KEY_ARP_OP_MASK
            | TCA_FLOWER_KEY_MPLS_TTL
            | TCA_FLOWER_KEY_IP_TOS..=TCA_FLOWER_KEY_IP_TTL_MASK
            | TCA_FLOWER_KEY_CVLAN_PRIO
            | TCA_FLOWER_KEY_ENC_IP_TOS..=TCA_FLOWER_KEY_ENC_IP_TTL_MASK => Self::read_u8(buf),
            TCA_FLOWER_KEY_IPV4_SRC..=TCA_FLOWER_KEY_IPV4_DST_MASK
            | TCA_FLOWER_KEY_ENC_IPV4_SRC..=TCA_FLOWER_KEY_ENC_IPV4_DST_MASK
            | TCA_FLOWER_KEY_ARP_SIP..=TCA_FLOWER_KEY_ARP_TIP_MASK => Self::read_ipv4(buf),
            TCA_FLOWER_KEY_IPV6_SRC..=TCA_FLOWER_KEY_IPV6_DST_MASK
            | TCA_FLOWER_KEY_ENC_IPV6_SRC..=TCA_FLOWER_KEY_ENC_IPV6_DST_MASK => Self::read_ipv6(
                buf,
            ),
            TCA_FLOWER_FLAGS
            | TCA_FLOWER_IN_HW_COUNT
            | TCA_FLOWER_KEY_CT_MARK..=TCA_FLOWER_KEY_CT_MARK_MASK
            | TCA_FLOWER_KEY_HASH..=TCA_FLOWER_KEY_HASH_MASK => Self::read_u32(buf),
            TCA_FLOWER_KEY_VLAN_ID
            | TCA_FLOWER_KEY_CVLAN_ID
            | TCA_FLOWER_KEY_CT_STATE..=TCA_FLOWER_KEY_CT_ZONE_MASK => Self::read_u16(buf),
            TCA_FLOWER_KEY_ENC_KEY_ID | TCA_FLOWER_KEY_FLAGS..=TCA_FLOWER_KEY_FLAGS_MASK =>
                Self::read_u32_be(buf),
            TCA_FLOWER_KEY_MPLS_BOS => Ok(Self::MplsBos(parse_u8(buf.value())?)),
            TCA_FLOWER_KEY_MPLS_TC => Ok(Self::MplsTc(parse_u8(buf.value())?)),
            TCA_FLOWER_KEY_MPLS_LABEL => Ok(Self::MplsLabel(parse_u32(buf.value())?)),
            TCA_FLOWER_KEY_CT_LABELS..=TCA_FLOWER_KEY_CT_LABELS_MASK => Self::read_labels(buf),
            TCA_FLOWER_KEY_MPLS_OPTS => Ok(Self::MplsOpts(parse_list(alloc, buf.value())?)),
            _ => Self::read_other(alloc, buf),
        }
    }

    // An option that is kept raw.
    #[tactic(auto, using(crate::proofs::FlowerReads::other_read))]
    #[inline(always)]
    fn read_other(alloc: A, buf: &NlaBuffer<'_>) -> Res<Self>
        requires { is_in (spans flower_options) (type_of (frame_of buf.now).word) ≡ false }
        ensures { Returns (seen flower_option result) (flower_read (frame_of buf.now)) }
    {
        Ok(Self::Other(DefaultNla::parse(alloc, buf)?))
    }
}

// True if options of this type are read.
pub(crate) fn is_read(word: u16) -> bool
    ensures { result ≡ reads_at flower_options (type_of word) }
{
    is_in_spans(word)
}

fn is_in_spans(word: u16) -> bool
    ensures { result ≡ is_in (spans flower_options) (type_of word) }
{
    matches!(word & NLA_TYPE_MASK, TCA_FLOWER_INDEV..=TCA_FLOWER_KEY_ENC_IP_TTL_MASK | TCA_FLOWER_IN_HW_COUNT..=TCA_FLOWER_KEY_HASH_MASK)
}

// Reading by the type of the value.
impl<A: Allocator> TcFilterFlowerOption<A> {
    // An option that holds a MAC address.
    #[tactic(auto, using(crate::proofs::FlowerReads::mac_read))]
    #[inline(always)]
    fn read_mac(buf: &NlaBuffer<'_>) -> Res<Self>
        requires { IsTrue (holds (array 6) flower_options (type_of (frame_of buf.now).word)) }
        ensures { Returns (seen flower_option result) (flower_read (frame_of buf.now)) }
    {
        Ok(Self::of_mac(buf.kind(), parse_mac(buf.value())?))
    }

    // An option that holds an IPv4 address.
    #[tactic(auto, using(crate::proofs::FlowerReads::ipv4_read))]
    #[inline(always)]
    fn read_ipv4(buf: &NlaBuffer<'_>) -> Res<Self>
        requires { IsTrue (holds (array 4) flower_options (type_of (frame_of buf.now).word)) }
        ensures { Returns (seen flower_option result) (flower_read (frame_of buf.now)) }
    {
        Ok(Self::of_ipv4(buf.kind(), parse_ipv4_addr(buf.value())?))
    }

    // An option that holds an IPv6 address.
    #[tactic(auto, using(crate::proofs::FlowerReads::ipv6_read))]
    #[inline(always)]
    fn read_ipv6(buf: &NlaBuffer<'_>) -> Res<Self>
        requires { IsTrue (holds (array 16) flower_options (type_of (frame_of buf.now).word)
            && not (are_labels (type_of (frame_of buf.now).word))) }
        ensures { Returns (seen flower_option result) (flower_read (frame_of buf.now)) }
    {
        Ok(Self::of_ipv6(buf.kind(), parse_ipv6_addr(buf.value())?))
    }

    // An option that holds labels in connection tracking.
    #[tactic(auto, using(crate::proofs::FlowerReads::labels_read))]
    #[inline(always)]
    fn read_labels(buf: &NlaBuffer<'_>) -> Res<Self>
        requires { IsTrue (are_labels (type_of (frame_of buf.now).word)) }
        ensures { Returns (seen flower_option result) (flower_read (frame_of buf.now)) }
    {
        Ok(Self::of_labels(buf.kind(), parse_labels(buf.value())?))
    }

    // An option that holds a number of one byte.
    #[tactic(auto, using(crate::proofs::FlowerReads::u8_read))]
    #[inline(always)]
    fn read_u8(buf: &NlaBuffer<'_>) -> Res<Self>
        requires { IsTrue (holds (le 1) flower_options (type_of (frame_of buf.now).word)) }
        ensures { Returns (seen flower_option result) (flower_read (frame_of buf.now)) }
    {
        Ok(Self::of_u8(buf.kind(), parse_u8(buf.value())?))
    }

    // An option that holds a number of two bytes.
    #[tactic(auto, using(crate::proofs::FlowerReads::u16_read))]
    #[inline(always)]
    fn read_u16(buf: &NlaBuffer<'_>) -> Res<Self>
        requires { IsTrue (holds (le 2) flower_options (type_of (frame_of buf.now).word)) }
        ensures { Returns (seen flower_option result) (flower_read (frame_of buf.now)) }
    {
        Ok(Self::of_u16(buf.kind(), parse_u16(buf.value())?))
    }

    // An option that holds a number of two bytes, big-endian.
    #[tactic(auto, using(crate::proofs::FlowerReads::u16_be_read))]
    #[inline(always)]
    fn read_u16_be(buf: &NlaBuffer<'_>) -> Res<Self>
        requires { IsTrue (holds (be 2) flower_options (type_of (frame_of buf.now).word)) }
        ensures { Returns (seen flower_option result) (flower_read (frame_of buf.now)) }
    {
        Ok(Self::of_u16_be(buf.kind(), parse_u16_be(buf.value())?))
    }

    // An option that holds a number of four bytes.
    #[tactic(auto, using(crate::proofs::FlowerReads::u32_read))]
    #[inline(always)]
    fn read_u32(buf: &NlaBuffer<'_>) -> Res<Self>
        requires { IsTrue (holds (le 4) flower_options (type_of (frame_of buf.now).word)) }
        ensures { Returns (seen flower_option result) (flower_read (frame_of buf.now)) }
    {
        Ok(Self::of_u32(buf.kind(), parse_u32(buf.value())?))
    }

    // An option that holds a number of four bytes, big-endian.
    #[tactic(auto, using(crate::proofs::FlowerReads::u32_be_read))]
    #[inline(always)]
    fn read_u32_be(buf: &NlaBuffer<'_>) -> Res<Self>
        requires { IsTrue (holds (be 4) flower_options (type_of (frame_of buf.now).word)) }
        ensures { Returns (seen flower_option result) (flower_read (frame_of buf.now)) }
    {
        Ok(Self::of_u32_be(buf.kind(), parse_u32_be(buf.value())?))
    }
}

// The sixteen bytes of a label of connection tracking.
fn parse_labels(value: &[u8]) -> Res<[u8; 16]>
    ensures { result ≡ exactly 16 value.now }
{
    if value.len() != 16 {
        return Err(DecodeError::WrongLength {
            expected: 16,
            got: value.len(),
        });
    }
    let mut labels = [0; 16];
    labels.copy_from_slice(value);
    Ok(labels)
}
