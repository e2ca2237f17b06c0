//! Splits an option into type and value, and builds it from both.

ghost use Rattle.std.specs.Prelude.{◌≡◌, ◌&&◌, not, IsTrue};
ghost use Rattle.std.specs.Net.Addr.{ipv4_octets, ipv6_octets};
ghost use Rattle.tc_canon.specs.Descriptor.{le, be, array};
ghost use Rattle.tc_canon.specs.Tables.Flower.{flower_options};
ghost use Rattle.tc_meaning.specs.Tree.{known, number, is_bytes, number_of};
ghost use Rattle.tc_flower.specs.Flower.{flower_option};
ghost use Rattle.tc_flower.specs.Held.{held_at, is_held_at, are_labels, IsListHeld};
ghost use Rattle.tc_flower.specs.Spans.{holds};

use crate::filters::flower::mpls::TcFilterFlowerMplsOption;
use crate::filters::flower::options::*;
use nla_frames::{DefaultNla, NLA_TYPE_MASK, Nla};
use std::alloc::Allocator;
use std::net::{Ipv4Addr, Ipv6Addr};
use tc_actions::TcAction;

// The value of an option.
#[derive(Drop)]
pub(crate) enum Held<'a, A: Allocator> {
    // Handle of a class.
    ClassId(u32),
    // Name of an interface.
    Name(&'a String<A>),
    Actions(&'a Vec<TcAction<A>, A>),
    // A MAC address.
    Mac([u8; 6]),
    // An IPv4 address.
    Ipv4(Ipv4Addr),
    // An IPv6 address.
    Ipv6(Ipv6Addr),
    // Labels of connection tracking.
    Labels([u8; 16]),
    // A number of one byte.
    U8(u8),
    // A number of two bytes.
    U16(u16),
    // A number of two bytes, big-endian.
    U16Be(u16),
    // A number of four bytes.
    U32(u32),
    // A number of four bytes, big-endian.
    U32Be(u32),
    // The lowest bit of a number of one byte.
    Bits1(u8),
    // The lowest three bits of a number of one byte.
    Bits3(u8),
    // The lowest twenty bits of a number of four bytes.
    Bits20(u32),
    MplsOpts(&'a Vec<TcFilterFlowerMplsOption<A>, A>),
    // An attribute that is kept raw.
    Other(&'a DefaultNla<A>),
}

// Any of these options, and its value.
macro_rules! any_of {
    ($held:ident in $($option:ident),*) => { $(Self::$option($held))|* };
}

// The type of an option, by its variant. The type of `Other` is in its attribute.
macro_rules! type_of {
    ($option:expr; $($variant:ident = $kind:ident),*) => {
        match $option {
            $(Self::$variant(_) => $kind,)*
            Self::Other(nla) => nla.kind() & NLA_TYPE_MASK,
        }
    };
}

impl<A: Allocator> TcFilterFlowerOption<A> {
    // Type and value of the option.
    #[inline(always)]
    pub(crate) fn parts(&self) -> (u16, Held<'_, A>)
        ensures seen { flower_option self.now ≡ held_at result.0 result.1 }
        ensures typed { IsTrue (is_held_at result.1 result.0) }
        ensures list { IsListHeld self.now result.1 }
    {
        (self.number(), self.held())
    }

    #[inline(always)]
    fn number(&self) -> u16
        ensures { result ≡ number_of (flower_option self.now) }
    {
        type_of!(self;
            ClassId = TCA_FLOWER_CLASSID, InDev = TCA_FLOWER_INDEV, Actions = TCA_FLOWER_ACT,
            EthDst = TCA_FLOWER_KEY_ETH_DST, EthDstMask = TCA_FLOWER_KEY_ETH_DST_MASK,
            EthSrc = TCA_FLOWER_KEY_ETH_SRC, EthSrcMask = TCA_FLOWER_KEY_ETH_SRC_MASK,
            EthType = TCA_FLOWER_KEY_ETH_TYPE, IpProto = TCA_FLOWER_KEY_IP_PROTO,
            Ipv4Src = TCA_FLOWER_KEY_IPV4_SRC, Ipv4SrcMask = TCA_FLOWER_KEY_IPV4_SRC_MASK,
            Ipv4Dst = TCA_FLOWER_KEY_IPV4_DST, Ipv4DstMask = TCA_FLOWER_KEY_IPV4_DST_MASK,
            Ipv6Src = TCA_FLOWER_KEY_IPV6_SRC, Ipv6SrcMask = TCA_FLOWER_KEY_IPV6_SRC_MASK,
            Ipv6Dst = TCA_FLOWER_KEY_IPV6_DST, Ipv6DstMask = TCA_FLOWER_KEY_IPV6_DST_MASK,
            TcpSrc = TCA_FLOWER_KEY_TCP_SRC, TcpDst = TCA_FLOWER_KEY_TCP_DST,
            UdpSrc = TCA_FLOWER_KEY_UDP_SRC, UdpDst = TCA_FLOWER_KEY_UDP_DST,
            Flags = TCA_FLOWER_FLAGS, VlanId = TCA_FLOWER_KEY_VLAN_ID,
            VlanPrio = TCA_FLOWER_KEY_VLAN_PRIO, VlanEthType = TCA_FLOWER_KEY_VLAN_ETH_TYPE,
            EncKeyId = TCA_FLOWER_KEY_ENC_KEY_ID, EncKeyIpv4Src = TCA_FLOWER_KEY_ENC_IPV4_SRC,
            EncKeyIpv4SrcMask = TCA_FLOWER_KEY_ENC_IPV4_SRC_MASK,
            EncKeyIpv4Dst = TCA_FLOWER_KEY_ENC_IPV4_DST,
            EncKeyIpv4DstMask = TCA_FLOWER_KEY_ENC_IPV4_DST_MASK,
            EncKeyIpv6Src = TCA_FLOWER_KEY_ENC_IPV6_SRC,
            EncKeyIpv6SrcMask = TCA_FLOWER_KEY_ENC_IPV6_SRC_MASK,
            EncKeyIpv6Dst = TCA_FLOWER_KEY_ENC_IPV6_DST,
            EncKeyIpv6DstMask = TCA_FLOWER_KEY_ENC_IPV6_DST_MASK,
            TcpSrcMask = TCA_FLOWER_KEY_TCP_SRC_MASK, TcpDstMask = TCA_FLOWER_KEY_TCP_DST_MASK,
            UdpSrcMask = TCA_FLOWER_KEY_UDP_SRC_MASK, UdpDstMask = TCA_FLOWER_KEY_UDP_DST_MASK,
            SctpSrcMask = TCA_FLOWER_KEY_SCTP_SRC_MASK, SctpDstMask = TCA_FLOWER_KEY_SCTP_DST_MASK,
            SctpSrc = TCA_FLOWER_KEY_SCTP_SRC, SctpDst = TCA_FLOWER_KEY_SCTP_DST,
            EncKeyUdpSrcPort = TCA_FLOWER_KEY_ENC_UDP_SRC_PORT,
            EncKeyUdpSrcPortMask = TCA_FLOWER_KEY_ENC_UDP_SRC_PORT_MASK,
            EncKeyUdpDstPort = TCA_FLOWER_KEY_ENC_UDP_DST_PORT,
            EncKeyUdpDstPortMask = TCA_FLOWER_KEY_ENC_UDP_DST_PORT_MASK,
            KeyFlags = TCA_FLOWER_KEY_FLAGS, KeyFlagsMask = TCA_FLOWER_KEY_FLAGS_MASK,
            Icmpv4Code = TCA_FLOWER_KEY_ICMPV4_CODE,
            Icmpv4CodeMask = TCA_FLOWER_KEY_ICMPV4_CODE_MASK,
            Icmpv4Type = TCA_FLOWER_KEY_ICMPV4_TYPE,
            Icmpv4TypeMask = TCA_FLOWER_KEY_ICMPV4_TYPE_MASK,
            Icmpv6Code = TCA_FLOWER_KEY_ICMPV6_CODE,
            Icmpv6CodeMask = TCA_FLOWER_KEY_ICMPV6_CODE_MASK,
            Icmpv6Type = TCA_FLOWER_KEY_ICMPV6_TYPE,
            Icmpv6TypeMask = TCA_FLOWER_KEY_ICMPV6_TYPE_MASK, ArpSip = TCA_FLOWER_KEY_ARP_SIP,
            ArpSipMask = TCA_FLOWER_KEY_ARP_SIP_MASK, ArpTip = TCA_FLOWER_KEY_ARP_TIP,
            ArpTipMask = TCA_FLOWER_KEY_ARP_TIP_MASK, ArpOp = TCA_FLOWER_KEY_ARP_OP,
            ArpOpMask = TCA_FLOWER_KEY_ARP_OP_MASK, ArpSha = TCA_FLOWER_KEY_ARP_SHA,
            ArpShaMask = TCA_FLOWER_KEY_ARP_SHA_MASK, ArpTha = TCA_FLOWER_KEY_ARP_THA,
            ArpThaMask = TCA_FLOWER_KEY_ARP_THA_MASK, MplsTtl = TCA_FLOWER_KEY_MPLS_TTL,
            MplsBos = TCA_FLOWER_KEY_MPLS_BOS, MplsTc = TCA_FLOWER_KEY_MPLS_TC,
            MplsLabel = TCA_FLOWER_KEY_MPLS_LABEL, TcpFlags = TCA_FLOWER_KEY_TCP_FLAGS,
            TcpFlagsMask = TCA_FLOWER_KEY_TCP_FLAGS_MASK, IpTos = TCA_FLOWER_KEY_IP_TOS,
            IpTosMask = TCA_FLOWER_KEY_IP_TOS_MASK, IpTtl = TCA_FLOWER_KEY_IP_TTL,
            IpTtlMask = TCA_FLOWER_KEY_IP_TTL_MASK, CvlanId = TCA_FLOWER_KEY_CVLAN_ID,
            CvlanPrio = TCA_FLOWER_KEY_CVLAN_PRIO, CvlanEthType = TCA_FLOWER_KEY_CVLAN_ETH_TYPE,
            EncKeyIpTos = TCA_FLOWER_KEY_ENC_IP_TOS,
            EncKeyIpTosMask = TCA_FLOWER_KEY_ENC_IP_TOS_MASK,
            EncKeyIpTtl = TCA_FLOWER_KEY_ENC_IP_TTL,
            EncKeyIpTtlMask = TCA_FLOWER_KEY_ENC_IP_TTL_MASK, InHwCount = TCA_FLOWER_IN_HW_COUNT,
            PortSrcMin = TCA_FLOWER_KEY_PORT_SRC_MIN, PortSrcMax = TCA_FLOWER_KEY_PORT_SRC_MAX,
            PortDstMin = TCA_FLOWER_KEY_PORT_DST_MIN, PortDstMax = TCA_FLOWER_KEY_PORT_DST_MAX,
            CtState = TCA_FLOWER_KEY_CT_STATE, CtStateMask = TCA_FLOWER_KEY_CT_STATE_MASK,
            CtZone = TCA_FLOWER_KEY_CT_ZONE, CtZoneMask = TCA_FLOWER_KEY_CT_ZONE_MASK,
            CtMark = TCA_FLOWER_KEY_CT_MARK, CtMarkMask = TCA_FLOWER_KEY_CT_MARK_MASK,
            CtLabels = TCA_FLOWER_KEY_CT_LABELS, CtLabelsMask = TCA_FLOWER_KEY_CT_LABELS_MASK,
            MplsOpts = TCA_FLOWER_KEY_MPLS_OPTS, KeyHash = TCA_FLOWER_KEY_HASH,
            KeyHashMask = TCA_FLOWER_KEY_HASH_MASK)
    }

    #[inline(always)]
    fn held(&self) -> Held<'_, A>
        ensures seen { flower_option self.now
            ≡ held_at (number_of (flower_option self.now)) result }
        ensures typed { IsTrue (is_held_at result (number_of (flower_option self.now))) }
        ensures list { IsListHeld self.now result }
    {
        match self {
            Self::ClassId(n) => Held::ClassId(*n),
            Self::InDev(name) => Held::Name(name),
            Self::Actions(actions) => Held::Actions(actions),
            any_of!(mac in EthDst, EthDstMask, EthSrc, EthSrcMask, ArpSha, ArpShaMask, ArpTha,
                ArpThaMask) => Held::Mac(*mac),
            any_of!(ip in Ipv4Src, Ipv4SrcMask, Ipv4Dst, Ipv4DstMask, EncKeyIpv4Src,
                EncKeyIpv4SrcMask, EncKeyIpv4Dst, EncKeyIpv4DstMask, ArpSip, ArpSipMask, ArpTip,
                ArpTipMask) => Held::Ipv4(*ip),
            any_of!(ip in Ipv6Src, Ipv6SrcMask, Ipv6Dst, Ipv6DstMask, EncKeyIpv6Src,
                EncKeyIpv6SrcMask, EncKeyIpv6Dst, EncKeyIpv6DstMask) => Held::Ipv6(*ip),
            Self::CtLabels(labels) | Self::CtLabelsMask(labels) => Held::Labels(*labels),
            any_of!(n in IpProto, VlanPrio, Icmpv4Code, Icmpv4CodeMask, Icmpv4Type, Icmpv4TypeMask,
                Icmpv6Code, Icmpv6CodeMask, Icmpv6Type, Icmpv6TypeMask, ArpOp, ArpOpMask, MplsTtl,
                IpTos, IpTosMask, IpTtl, IpTtlMask, CvlanPrio, EncKeyIpTos, EncKeyIpTosMask,
                EncKeyIpTtl, EncKeyIpTtlMask) => Held::U8(*n),
            any_of!(n in VlanId, CvlanId, CtState, CtStateMask, CtZone,
                CtZoneMask) => Held::U16(*n),
            any_of!(n in EthType, TcpSrc, TcpDst, UdpSrc, UdpDst, VlanEthType, TcpSrcMask,
                TcpDstMask, UdpSrcMask, UdpDstMask, SctpSrcMask, SctpDstMask, SctpSrc, SctpDst,
                EncKeyUdpSrcPort, EncKeyUdpSrcPortMask, EncKeyUdpDstPort, EncKeyUdpDstPortMask,
                TcpFlags, TcpFlagsMask, CvlanEthType, PortSrcMin, PortSrcMax, PortDstMin,
                PortDstMax) => Held::U16Be(*n),
            any_of!(n in Flags, InHwCount, CtMark, CtMarkMask, KeyHash,
                KeyHashMask) => Held::U32(*n),
            Self::EncKeyId(n) | Self::KeyFlags(n) | Self::KeyFlagsMask(n) => Held::U32Be(*n),
            Self::MplsBos(n) => Held::Bits1(*n),
            Self::MplsTc(n) => Held::Bits3(*n),
            Self::MplsLabel(n) => Held::Bits20(*n),
            Self::MplsOpts(options) => Held::MplsOpts(options),
            Self::Other(nla) => Held::Other(nla),
        }
    }
}

// Options from type and value.
impl<A: Allocator> TcFilterFlowerOption<A> {
    // The option of a type that holds a MAC address.
    #[inline(always)]
    pub(crate) fn of_mac(kind: u16, mac: [u8; 6]) -> Self
        requires { IsTrue (holds (array 6) flower_options kind) }
        ensures { flower_option result ≡ known kind (is_bytes mac) }
    {
        match kind {
            TCA_FLOWER_KEY_ETH_DST => Self::EthDst(mac),
            TCA_FLOWER_KEY_ETH_DST_MASK => Self::EthDstMask(mac),
            TCA_FLOWER_KEY_ETH_SRC => Self::EthSrc(mac),
            TCA_FLOWER_KEY_ETH_SRC_MASK => Self::EthSrcMask(mac),
            TCA_FLOWER_KEY_ARP_SHA => Self::ArpSha(mac),
            TCA_FLOWER_KEY_ARP_SHA_MASK => Self::ArpShaMask(mac),
            TCA_FLOWER_KEY_ARP_THA => Self::ArpTha(mac),
            _ => Self::ArpThaMask(mac),
        }
    }

    // The option of a type that holds an IPv4 address.
    #[inline(always)]
    pub(crate) fn of_ipv4(kind: u16, ip: Ipv4Addr) -> Self
        requires { IsTrue (holds (array 4) flower_options kind) }
        ensures { flower_option result ≡ known kind (is_bytes (ipv4_octets ip)) }
    {
        match kind {
            TCA_FLOWER_KEY_IPV4_SRC => Self::Ipv4Src(ip),
            TCA_FLOWER_KEY_IPV4_SRC_MASK => Self::Ipv4SrcMask(ip),
            TCA_FLOWER_KEY_IPV4_DST => Self::Ipv4Dst(ip),
            TCA_FLOWER_KEY_IPV4_DST_MASK => Self::Ipv4DstMask(ip),
            TCA_FLOWER_KEY_ENC_IPV4_SRC => Self::EncKeyIpv4Src(ip),
            TCA_FLOWER_KEY_ENC_IPV4_SRC_MASK => Self::EncKeyIpv4SrcMask(ip),
            TCA_FLOWER_KEY_ENC_IPV4_DST => Self::EncKeyIpv4Dst(ip),
            TCA_FLOWER_KEY_ENC_IPV4_DST_MASK => Self::EncKeyIpv4DstMask(ip),
            TCA_FLOWER_KEY_ARP_SIP => Self::ArpSip(ip),
            TCA_FLOWER_KEY_ARP_SIP_MASK => Self::ArpSipMask(ip),
            TCA_FLOWER_KEY_ARP_TIP => Self::ArpTip(ip),
            _ => Self::ArpTipMask(ip),
        }
    }

    // The option of a type that holds an IPv6 address.
    #[inline(always)]
    pub(crate) fn of_ipv6(kind: u16, ip: Ipv6Addr) -> Self
        requires { IsTrue (holds (array 16) flower_options kind && not (are_labels kind)) }
        ensures { flower_option result ≡ known kind (is_bytes (ipv6_octets ip)) }
    {
        match kind {
            TCA_FLOWER_KEY_IPV6_SRC => Self::Ipv6Src(ip),
            TCA_FLOWER_KEY_IPV6_SRC_MASK => Self::Ipv6SrcMask(ip),
            TCA_FLOWER_KEY_IPV6_DST => Self::Ipv6Dst(ip),
            TCA_FLOWER_KEY_IPV6_DST_MASK => Self::Ipv6DstMask(ip),
            TCA_FLOWER_KEY_ENC_IPV6_SRC => Self::EncKeyIpv6Src(ip),
            TCA_FLOWER_KEY_ENC_IPV6_SRC_MASK => Self::EncKeyIpv6SrcMask(ip),
            TCA_FLOWER_KEY_ENC_IPV6_DST => Self::EncKeyIpv6Dst(ip),
            _ => Self::EncKeyIpv6DstMask(ip),
        }
    }

    // The option of a type that holds labels in connection tracking.
    #[inline(always)]
    pub(crate) fn of_labels(kind: u16, labels: [u8; 16]) -> Self
        requires { IsTrue (are_labels kind) }
        ensures { flower_option result ≡ known kind (is_bytes labels) }
    {
        match kind {
            TCA_FLOWER_KEY_CT_LABELS => Self::CtLabels(labels),
            _ => Self::CtLabelsMask(labels),
        }
    }

    // The option of a type that holds a number of one byte.
    #[inline(always)]
    pub(crate) fn of_u8(kind: u16, n: u8) -> Self
        requires { IsTrue (holds (le 1) flower_options kind) }
        ensures { flower_option result ≡ known kind (number n) }
    {
        match kind {
            TCA_FLOWER_KEY_IP_PROTO => Self::IpProto(n),
            TCA_FLOWER_KEY_VLAN_PRIO => Self::VlanPrio(n),
            TCA_FLOWER_KEY_ICMPV4_CODE => Self::Icmpv4Code(n),
            TCA_FLOWER_KEY_ICMPV4_CODE_MASK => Self::Icmpv4CodeMask(n),
            TCA_FLOWER_KEY_ICMPV4_TYPE => Self::Icmpv4Type(n),
            TCA_FLOWER_KEY_ICMPV4_TYPE_MASK => Self::Icmpv4TypeMask(n),
            TCA_FLOWER_KEY_ICMPV6_CODE => Self::Icmpv6Code(n),
            TCA_FLOWER_KEY_ICMPV6_CODE_MASK => Self::Icmpv6CodeMask(n),
            TCA_FLOWER_KEY_ICMPV6_TYPE => Self::Icmpv6Type(n),
            TCA_FLOWER_KEY_ICMPV6_TYPE_MASK => Self::Icmpv6TypeMask(n),
            TCA_FLOWER_KEY_ARP_OP => Self::ArpOp(n),
            TCA_FLOWER_KEY_ARP_OP_MASK => Self::ArpOpMask(n),
            TCA_FLOWER_KEY_MPLS_TTL => Self::MplsTtl(n),
            TCA_FLOWER_KEY_IP_TOS => Self::IpTos(n),
            TCA_FLOWER_KEY_IP_TOS_MASK => Self::IpTosMask(n),
            TCA_FLOWER_KEY_IP_TTL => Self::IpTtl(n),
            TCA_FLOWER_KEY_IP_TTL_MASK => Self::IpTtlMask(n),
            TCA_FLOWER_KEY_CVLAN_PRIO => Self::CvlanPrio(n),
            TCA_FLOWER_KEY_ENC_IP_TOS => Self::EncKeyIpTos(n),
            TCA_FLOWER_KEY_ENC_IP_TOS_MASK => Self::EncKeyIpTosMask(n),
            TCA_FLOWER_KEY_ENC_IP_TTL => Self::EncKeyIpTtl(n),
            _ => Self::EncKeyIpTtlMask(n),
        }
    }

    // The option of a type that holds a number of two bytes.
    #[inline(always)]
    pub(crate) fn of_u16(kind: u16, n: u16) -> Self
        requires { IsTrue (holds (le 2) flower_options kind) }
        ensures { flower_option result ≡ known kind (number n) }
    {
        match kind {
            TCA_FLOWER_KEY_VLAN_ID => Self::VlanId(n),
            TCA_FLOWER_KEY_CVLAN_ID => Self::CvlanId(n),
            TCA_FLOWER_KEY_CT_STATE => Self::CtState(n),
            TCA_FLOWER_KEY_CT_STATE_MASK => Self::CtStateMask(n),
            TCA_FLOWER_KEY_CT_ZONE => Self::CtZone(n),
            _ => Self::CtZoneMask(n),
        }
    }

    // The option of a type that holds a number of two bytes, big-endian.
    #[inline(always)]
    pub(crate) fn of_u16_be(kind: u16, n: u16) -> Self
        requires { IsTrue (holds (be 2) flower_options kind) }
        ensures { flower_option result ≡ known kind (number n) }
    {
        match kind {
            TCA_FLOWER_KEY_ETH_TYPE => Self::EthType(n),
            TCA_FLOWER_KEY_TCP_SRC => Self::TcpSrc(n),
            TCA_FLOWER_KEY_TCP_DST => Self::TcpDst(n),
            TCA_FLOWER_KEY_UDP_SRC => Self::UdpSrc(n),
            TCA_FLOWER_KEY_UDP_DST => Self::UdpDst(n),
            TCA_FLOWER_KEY_VLAN_ETH_TYPE => Self::VlanEthType(n),
            TCA_FLOWER_KEY_TCP_SRC_MASK => Self::TcpSrcMask(n),
            TCA_FLOWER_KEY_TCP_DST_MASK => Self::TcpDstMask(n),
            TCA_FLOWER_KEY_UDP_SRC_MASK => Self::UdpSrcMask(n),
            TCA_FLOWER_KEY_UDP_DST_MASK => Self::UdpDstMask(n),
            TCA_FLOWER_KEY_SCTP_SRC_MASK => Self::SctpSrcMask(n),
            TCA_FLOWER_KEY_SCTP_DST_MASK => Self::SctpDstMask(n),
            TCA_FLOWER_KEY_SCTP_SRC => Self::SctpSrc(n),
            TCA_FLOWER_KEY_SCTP_DST => Self::SctpDst(n),
            TCA_FLOWER_KEY_ENC_UDP_SRC_PORT => Self::EncKeyUdpSrcPort(n),
            TCA_FLOWER_KEY_ENC_UDP_SRC_PORT_MASK => Self::EncKeyUdpSrcPortMask(n),
            TCA_FLOWER_KEY_ENC_UDP_DST_PORT => Self::EncKeyUdpDstPort(n),
            TCA_FLOWER_KEY_ENC_UDP_DST_PORT_MASK => Self::EncKeyUdpDstPortMask(n),
            TCA_FLOWER_KEY_TCP_FLAGS => Self::TcpFlags(n),
            TCA_FLOWER_KEY_TCP_FLAGS_MASK => Self::TcpFlagsMask(n),
            TCA_FLOWER_KEY_CVLAN_ETH_TYPE => Self::CvlanEthType(n),
            TCA_FLOWER_KEY_PORT_SRC_MIN => Self::PortSrcMin(n),
            TCA_FLOWER_KEY_PORT_SRC_MAX => Self::PortSrcMax(n),
            TCA_FLOWER_KEY_PORT_DST_MIN => Self::PortDstMin(n),
            _ => Self::PortDstMax(n),
        }
    }

    // The option of a type that holds a number of four bytes.
    #[inline(always)]
    pub(crate) fn of_u32(kind: u16, n: u32) -> Self
        requires { IsTrue (holds (le 4) flower_options kind) }
        ensures { flower_option result ≡ known kind (number n) }
    {
        match kind {
            TCA_FLOWER_FLAGS => Self::Flags(n),
            TCA_FLOWER_IN_HW_COUNT => Self::InHwCount(n),
            TCA_FLOWER_KEY_CT_MARK => Self::CtMark(n),
            TCA_FLOWER_KEY_CT_MARK_MASK => Self::CtMarkMask(n),
            TCA_FLOWER_KEY_HASH => Self::KeyHash(n),
            _ => Self::KeyHashMask(n),
        }
    }

    // The option of a type that holds a number of four bytes, big-endian.
    #[inline(always)]
    pub(crate) fn of_u32_be(kind: u16, n: u32) -> Self
        requires { IsTrue (holds (be 4) flower_options kind) }
        ensures { flower_option result ≡ known kind (number n) }
    {
        match kind {
            TCA_FLOWER_KEY_ENC_KEY_ID => Self::EncKeyId(n),
            TCA_FLOWER_KEY_FLAGS => Self::KeyFlags(n),
            _ => Self::KeyFlagsMask(n),
        }
    }
}
