//! The options of flower: matches on packets, and actions.

ghost use Rattle.tc_canon.specs.Tables.Flower.{flower_options};
ghost use Rattle.tc_values.specs.AttributeWords.{on, table, Attribute, table_codec, table_short, same_attribute, attribute_equiv, attribute_per};
ghost use Rattle.tc_flower.specs.Flower.{flower_option};

use crate::filters::flower::mpls::TcFilterFlowerMplsOption;
use nla_frames::{DefaultNla, FrameMeaning, Nla, Settle};
use std::alloc::{Allocator, Global};
use std::net::{Ipv4Addr, Ipv6Addr};
use tc_actions::TcAction;
use tc_values::same_row;

mod copy;
mod debug;
mod held;
mod read;
mod row;

/// The filter `flower`.
#[derive(PartialEq, Eq, Clone, Drop, Debug)]
pub struct TcFilterFlower {}

impl TcFilterFlower {
    /// The name in `TCA_KIND`.
    pub const KIND: &'static str = "flower";
}

// The types of the options, `linux/pkt_cls.h`.
pub(crate) const TCA_FLOWER_CLASSID: u16 = 1;

pub(crate) const TCA_FLOWER_INDEV: u16 = 2;

pub(crate) const TCA_FLOWER_ACT: u16 = 3;

pub(crate) const TCA_FLOWER_KEY_ETH_DST: u16 = 4;

pub(crate) const TCA_FLOWER_KEY_ETH_DST_MASK: u16 = 5;

pub(crate) const TCA_FLOWER_KEY_ETH_SRC: u16 = 6;

pub(crate) const TCA_FLOWER_KEY_ETH_SRC_MASK: u16 = 7;

pub(crate) const TCA_FLOWER_KEY_ETH_TYPE: u16 = 8;

pub(crate) const TCA_FLOWER_KEY_IP_PROTO: u16 = 9;

pub(crate) const TCA_FLOWER_KEY_IPV4_SRC: u16 = 10;

pub(crate) const TCA_FLOWER_KEY_IPV4_SRC_MASK: u16 = 11;

pub(crate) const TCA_FLOWER_KEY_IPV4_DST: u16 = 12;

pub(crate) const TCA_FLOWER_KEY_IPV4_DST_MASK: u16 = 13;

pub(crate) const TCA_FLOWER_KEY_IPV6_SRC: u16 = 14;

pub(crate) const TCA_FLOWER_KEY_IPV6_SRC_MASK: u16 = 15;

pub(crate) const TCA_FLOWER_KEY_IPV6_DST: u16 = 16;

pub(crate) const TCA_FLOWER_KEY_IPV6_DST_MASK: u16 = 17;

pub(crate) const TCA_FLOWER_KEY_TCP_SRC: u16 = 18;

pub(crate) const TCA_FLOWER_KEY_TCP_DST: u16 = 19;

pub(crate) const TCA_FLOWER_KEY_UDP_SRC: u16 = 20;

pub(crate) const TCA_FLOWER_KEY_UDP_DST: u16 = 21;

pub(crate) const TCA_FLOWER_FLAGS: u16 = 22;

pub(crate) const TCA_FLOWER_KEY_VLAN_ID: u16 = 23;

pub(crate) const TCA_FLOWER_KEY_VLAN_PRIO: u16 = 24;

pub(crate) const TCA_FLOWER_KEY_VLAN_ETH_TYPE: u16 = 25;

pub(crate) const TCA_FLOWER_KEY_ENC_KEY_ID: u16 = 26;

pub(crate) const TCA_FLOWER_KEY_ENC_IPV4_SRC: u16 = 27;

pub(crate) const TCA_FLOWER_KEY_ENC_IPV4_SRC_MASK: u16 = 28;

pub(crate) const TCA_FLOWER_KEY_ENC_IPV4_DST: u16 = 29;

pub(crate) const TCA_FLOWER_KEY_ENC_IPV4_DST_MASK: u16 = 30;

pub(crate) const TCA_FLOWER_KEY_ENC_IPV6_SRC: u16 = 31;

pub(crate) const TCA_FLOWER_KEY_ENC_IPV6_SRC_MASK: u16 = 32;

pub(crate) const TCA_FLOWER_KEY_ENC_IPV6_DST: u16 = 33;

pub(crate) const TCA_FLOWER_KEY_ENC_IPV6_DST_MASK: u16 = 34;

pub(crate) const TCA_FLOWER_KEY_TCP_SRC_MASK: u16 = 35;

pub(crate) const TCA_FLOWER_KEY_TCP_DST_MASK: u16 = 36;

pub(crate) const TCA_FLOWER_KEY_UDP_SRC_MASK: u16 = 37;

pub(crate) const TCA_FLOWER_KEY_UDP_DST_MASK: u16 = 38;

pub(crate) const TCA_FLOWER_KEY_SCTP_SRC_MASK: u16 = 39;

pub(crate) const TCA_FLOWER_KEY_SCTP_DST_MASK: u16 = 40;

pub(crate) const TCA_FLOWER_KEY_SCTP_SRC: u16 = 41;

pub(crate) const TCA_FLOWER_KEY_SCTP_DST: u16 = 42;

pub(crate) const TCA_FLOWER_KEY_ENC_UDP_SRC_PORT: u16 = 43;

pub(crate) const TCA_FLOWER_KEY_ENC_UDP_SRC_PORT_MASK: u16 = 44;

pub(crate) const TCA_FLOWER_KEY_ENC_UDP_DST_PORT: u16 = 45;

pub(crate) const TCA_FLOWER_KEY_ENC_UDP_DST_PORT_MASK: u16 = 46;

pub(crate) const TCA_FLOWER_KEY_FLAGS: u16 = 47;

pub(crate) const TCA_FLOWER_KEY_FLAGS_MASK: u16 = 48;

pub(crate) const TCA_FLOWER_KEY_ICMPV4_CODE: u16 = 49;

pub(crate) const TCA_FLOWER_KEY_ICMPV4_CODE_MASK: u16 = 50;

pub(crate) const TCA_FLOWER_KEY_ICMPV4_TYPE: u16 = 51;

pub(crate) const TCA_FLOWER_KEY_ICMPV4_TYPE_MASK: u16 = 52;

pub(crate) const TCA_FLOWER_KEY_ICMPV6_CODE: u16 = 53;

pub(crate) const TCA_FLOWER_KEY_ICMPV6_CODE_MASK: u16 = 54;

pub(crate) const TCA_FLOWER_KEY_ICMPV6_TYPE: u16 = 55;

pub(crate) const TCA_FLOWER_KEY_ICMPV6_TYPE_MASK: u16 = 56;

pub(crate) const TCA_FLOWER_KEY_ARP_SIP: u16 = 57;

pub(crate) const TCA_FLOWER_KEY_ARP_SIP_MASK: u16 = 58;

pub(crate) const TCA_FLOWER_KEY_ARP_TIP: u16 = 59;

pub(crate) const TCA_FLOWER_KEY_ARP_TIP_MASK: u16 = 60;

pub(crate) const TCA_FLOWER_KEY_ARP_OP: u16 = 61;

pub(crate) const TCA_FLOWER_KEY_ARP_OP_MASK: u16 = 62;

pub(crate) const TCA_FLOWER_KEY_ARP_SHA: u16 = 63;

pub(crate) const TCA_FLOWER_KEY_ARP_SHA_MASK: u16 = 64;

pub(crate) const TCA_FLOWER_KEY_ARP_THA: u16 = 65;

pub(crate) const TCA_FLOWER_KEY_ARP_THA_MASK: u16 = 66;

pub(crate) const TCA_FLOWER_KEY_MPLS_TTL: u16 = 67;

pub(crate) const TCA_FLOWER_KEY_MPLS_BOS: u16 = 68;

pub(crate) const TCA_FLOWER_KEY_MPLS_TC: u16 = 69;

pub(crate) const TCA_FLOWER_KEY_MPLS_LABEL: u16 = 70;

pub(crate) const TCA_FLOWER_KEY_TCP_FLAGS: u16 = 71;

pub(crate) const TCA_FLOWER_KEY_TCP_FLAGS_MASK: u16 = 72;

pub(crate) const TCA_FLOWER_KEY_IP_TOS: u16 = 73;

pub(crate) const TCA_FLOWER_KEY_IP_TOS_MASK: u16 = 74;

pub(crate) const TCA_FLOWER_KEY_IP_TTL: u16 = 75;

pub(crate) const TCA_FLOWER_KEY_IP_TTL_MASK: u16 = 76;

pub(crate) const TCA_FLOWER_KEY_CVLAN_ID: u16 = 77;

pub(crate) const TCA_FLOWER_KEY_CVLAN_PRIO: u16 = 78;

pub(crate) const TCA_FLOWER_KEY_CVLAN_ETH_TYPE: u16 = 79;

pub(crate) const TCA_FLOWER_KEY_ENC_IP_TOS: u16 = 80;

pub(crate) const TCA_FLOWER_KEY_ENC_IP_TOS_MASK: u16 = 81;

pub(crate) const TCA_FLOWER_KEY_ENC_IP_TTL: u16 = 82;

pub(crate) const TCA_FLOWER_KEY_ENC_IP_TTL_MASK: u16 = 83;

pub(crate) const TCA_FLOWER_IN_HW_COUNT: u16 = 86;

pub(crate) const TCA_FLOWER_KEY_PORT_SRC_MIN: u16 = 87;

pub(crate) const TCA_FLOWER_KEY_PORT_SRC_MAX: u16 = 88;

pub(crate) const TCA_FLOWER_KEY_PORT_DST_MIN: u16 = 89;

pub(crate) const TCA_FLOWER_KEY_PORT_DST_MAX: u16 = 90;

pub(crate) const TCA_FLOWER_KEY_CT_STATE: u16 = 91;

pub(crate) const TCA_FLOWER_KEY_CT_STATE_MASK: u16 = 92;

pub(crate) const TCA_FLOWER_KEY_CT_ZONE: u16 = 93;

pub(crate) const TCA_FLOWER_KEY_CT_ZONE_MASK: u16 = 94;

pub(crate) const TCA_FLOWER_KEY_CT_MARK: u16 = 95;

pub(crate) const TCA_FLOWER_KEY_CT_MARK_MASK: u16 = 96;

pub(crate) const TCA_FLOWER_KEY_CT_LABELS: u16 = 97;

pub(crate) const TCA_FLOWER_KEY_CT_LABELS_MASK: u16 = 98;

pub(crate) const TCA_FLOWER_KEY_MPLS_OPTS: u16 = 99;

pub(crate) const TCA_FLOWER_KEY_HASH: u16 = 100;

pub(crate) const TCA_FLOWER_KEY_HASH_MASK: u16 = 101;

/// An option of `flower`. Numbers are little-endian unless noted.
///
/// | Type | Option | Value |
/// |---|---|---|
/// | 1, emitted but never parsed | `ClassId` | u32 |
/// | 2 | `InDev` | text |
/// | 3 | `Actions` | list of [`TcAction`] |
/// | 4 to 7 | `EthDst`, `EthDstMask`, `EthSrc`, `EthSrcMask` | MAC address |
/// | 8 | `EthType` | u16, big-endian |
/// | 9 | `IpProto` | u8 |
/// | 10 to 13 | `Ipv4Src`, `Ipv4SrcMask`, `Ipv4Dst`, `Ipv4DstMask` | IPv4 address |
/// | 14 to 17 | `Ipv6Src`, `Ipv6SrcMask`, `Ipv6Dst`, `Ipv6DstMask` | IPv6 address |
/// | 18 to 21 | `TcpSrc`, `TcpDst`, `UdpSrc`, `UdpDst` | u16, big-endian |
/// | 22 | `Flags` | u32 |
/// | 23 | `VlanId` | u16 |
/// | 24 | `VlanPrio` | u8 |
/// | 25 | `VlanEthType` | u16, big-endian |
/// | 26 | `EncKeyId` | u32, big-endian |
/// | 27 to 30 | `EncKeyIpv4Src`, `EncKeyIpv4SrcMask`, `EncKeyIpv4Dst`, `EncKeyIpv4DstMask` | IPv4 address |
/// | 31 to 34 | `EncKeyIpv6Src`, `EncKeyIpv6SrcMask`, `EncKeyIpv6Dst`, `EncKeyIpv6DstMask` | IPv6 address |
/// | 35 to 38 | `TcpSrcMask`, `TcpDstMask`, `UdpSrcMask`, `UdpDstMask` | u16, big-endian |
/// | 39 to 42 | `SctpSrcMask`, `SctpDstMask`, `SctpSrc`, `SctpDst` | u16, big-endian |
/// | 43 to 46 | `EncKeyUdpSrcPort`, `EncKeyUdpSrcPortMask`, `EncKeyUdpDstPort`, `EncKeyUdpDstPortMask` | u16, big-endian |
/// | 47, 48 | `KeyFlags`, `KeyFlagsMask` | u32, big-endian |
/// | 49 to 52 | `Icmpv4Code`, `Icmpv4CodeMask`, `Icmpv4Type`, `Icmpv4TypeMask` | u8 |
/// | 53 to 56 | `Icmpv6Code`, `Icmpv6CodeMask`, `Icmpv6Type`, `Icmpv6TypeMask` | u8 |
/// | 57 to 60 | `ArpSip`, `ArpSipMask`, `ArpTip`, `ArpTipMask` | IPv4 address |
/// | 61, 62 | `ArpOp`, `ArpOpMask` | u8 |
/// | 63 to 66 | `ArpSha`, `ArpShaMask`, `ArpTha`, `ArpThaMask` | MAC address |
/// | 67 | `MplsTtl` | u8 |
/// | 68 | `MplsBos` | u8, of which the lowest bit is written |
/// | 69 | `MplsTc` | u8, of which the lowest three bits are written |
/// | 70 | `MplsLabel` | u32, of which the lowest 20 bits are written |
/// | 71, 72 | `TcpFlags`, `TcpFlagsMask` | u16, big-endian |
/// | 73 to 76 | `IpTos`, `IpTosMask`, `IpTtl`, `IpTtlMask` | u8 |
/// | 77 | `CvlanId` | u16 |
/// | 78 | `CvlanPrio` | u8 |
/// | 79 | `CvlanEthType` | u16, big-endian |
/// | 80 to 83 | `EncKeyIpTos`, `EncKeyIpTosMask`, `EncKeyIpTtl`, `EncKeyIpTtlMask` | u8 |
/// | 86 | `InHwCount` | u32 |
/// | 87 to 90 | `PortSrcMin`, `PortSrcMax`, `PortDstMin`, `PortDstMax` | u16, big-endian |
/// | 91 to 94 | `CtState`, `CtStateMask`, `CtZone`, `CtZoneMask` | u16 |
/// | 95, 96 | `CtMark`, `CtMarkMask` | u32 |
/// | 97, 98 | `CtLabels`, `CtLabelsMask` | sixteen bytes |
/// | 99, with the nested flag when written | `MplsOpts` | list of [`TcFilterFlowerMplsOption`] |
/// | 100, 101 | `KeyHash`, `KeyHashMask` | u32 |
#[derive(Drop)]
pub enum TcFilterFlowerOption<A: Allocator = Global> {
    /// The class of matching packets, little-endian. Emitted but never parsed: an attribute of this type is read as
    /// [`Self::Other`]. `TCA_FLOWER_CLASSID` of `linux/pkt_cls.h`.
    ClassId(u32),
    /// The name of the device that packets come in by: `TCA_FLOWER_INDEV`.
    InDev(String<A>),
    /// The actions on packets that match: `TCA_FLOWER_ACT`.
    Actions(Vec<TcAction<A>, A>),
    /// The destination MAC address: `TCA_FLOWER_KEY_ETH_DST`.
    EthDst([u8; 6]),
    /// The mask of the destination MAC address: `TCA_FLOWER_KEY_ETH_DST_MASK`.
    EthDstMask([u8; 6]),
    /// The source MAC address: `TCA_FLOWER_KEY_ETH_SRC`.
    EthSrc([u8; 6]),
    /// The mask of the source MAC address: `TCA_FLOWER_KEY_ETH_SRC_MASK`.
    EthSrcMask([u8; 6]),
    /// The Ethernet type, big-endian: `TCA_FLOWER_KEY_ETH_TYPE`.
    EthType(u16),
    /// The protocol in the IP header: `TCA_FLOWER_KEY_IP_PROTO`.
    IpProto(u8),
    /// The source IPv4 address: `TCA_FLOWER_KEY_IPV4_SRC`.
    Ipv4Src(Ipv4Addr),
    /// The mask of the source IPv4 address: `TCA_FLOWER_KEY_IPV4_SRC_MASK`.
    Ipv4SrcMask(Ipv4Addr),
    /// The destination IPv4 address: `TCA_FLOWER_KEY_IPV4_DST`.
    Ipv4Dst(Ipv4Addr),
    /// The mask of the destination IPv4 address: `TCA_FLOWER_KEY_IPV4_DST_MASK`.
    Ipv4DstMask(Ipv4Addr),
    /// The source IPv6 address: `TCA_FLOWER_KEY_IPV6_SRC`.
    Ipv6Src(Ipv6Addr),
    /// The mask of the source IPv6 address: `TCA_FLOWER_KEY_IPV6_SRC_MASK`.
    Ipv6SrcMask(Ipv6Addr),
    /// The destination IPv6 address: `TCA_FLOWER_KEY_IPV6_DST`.
    Ipv6Dst(Ipv6Addr),
    /// The mask of the destination IPv6 address: `TCA_FLOWER_KEY_IPV6_DST_MASK`.
    Ipv6DstMask(Ipv6Addr),
    /// The source port of TCP, big-endian: `TCA_FLOWER_KEY_TCP_SRC`.
    TcpSrc(u16),
    /// The destination port of TCP, big-endian: `TCA_FLOWER_KEY_TCP_DST`.
    TcpDst(u16),
    /// The source port of UDP, big-endian: `TCA_FLOWER_KEY_UDP_SRC`.
    UdpSrc(u16),
    /// The destination port of UDP, big-endian: `TCA_FLOWER_KEY_UDP_DST`.
    UdpDst(u16),
    /// Flags: skip hardware offload, skip software, and whether the filter is offloaded, little-endian: `TCA_FLOWER_FLAGS`.
    Flags(u32),
    /// The number of the VLAN, little-endian: `TCA_FLOWER_KEY_VLAN_ID`.
    VlanId(u16),
    /// The priority in the VLAN tag: `TCA_FLOWER_KEY_VLAN_PRIO`.
    VlanPrio(u8),
    /// The Ethernet type after the VLAN tag, big-endian: `TCA_FLOWER_KEY_VLAN_ETH_TYPE`.
    VlanEthType(u16),
    /// The tunnel's key, big-endian: `TCA_FLOWER_KEY_ENC_KEY_ID`.
    EncKeyId(u32),
    /// The tunnel's source IPv4 address: `TCA_FLOWER_KEY_ENC_IPV4_SRC`.
    EncKeyIpv4Src(Ipv4Addr),
    /// The mask of the tunnel's source IPv4 address: `TCA_FLOWER_KEY_ENC_IPV4_SRC_MASK`.
    EncKeyIpv4SrcMask(Ipv4Addr),
    /// The tunnel's destination IPv4 address: `TCA_FLOWER_KEY_ENC_IPV4_DST`.
    EncKeyIpv4Dst(Ipv4Addr),
    /// The mask of the tunnel's destination IPv4 address: `TCA_FLOWER_KEY_ENC_IPV4_DST_MASK`.
    EncKeyIpv4DstMask(Ipv4Addr),
    /// The tunnel's source IPv6 address: `TCA_FLOWER_KEY_ENC_IPV6_SRC`.
    EncKeyIpv6Src(Ipv6Addr),
    /// The mask of the tunnel's source IPv6 address: `TCA_FLOWER_KEY_ENC_IPV6_SRC_MASK`.
    EncKeyIpv6SrcMask(Ipv6Addr),
    /// The tunnel's destination IPv6 address: `TCA_FLOWER_KEY_ENC_IPV6_DST`.
    EncKeyIpv6Dst(Ipv6Addr),
    /// The mask of the tunnel's destination IPv6 address: `TCA_FLOWER_KEY_ENC_IPV6_DST_MASK`.
    EncKeyIpv6DstMask(Ipv6Addr),
    /// The mask of the source port of TCP, big-endian: `TCA_FLOWER_KEY_TCP_SRC_MASK`.
    TcpSrcMask(u16),
    /// The mask of the destination port of TCP, big-endian: `TCA_FLOWER_KEY_TCP_DST_MASK`.
    TcpDstMask(u16),
    /// The mask of the source port of UDP, big-endian: `TCA_FLOWER_KEY_UDP_SRC_MASK`.
    UdpSrcMask(u16),
    /// The mask of the destination port of UDP, big-endian: `TCA_FLOWER_KEY_UDP_DST_MASK`.
    UdpDstMask(u16),
    /// The mask of the source port of SCTP, big-endian: `TCA_FLOWER_KEY_SCTP_SRC_MASK`.
    SctpSrcMask(u16),
    /// The mask of the destination port of SCTP, big-endian: `TCA_FLOWER_KEY_SCTP_DST_MASK`.
    SctpDstMask(u16),
    /// The source port of SCTP, big-endian: `TCA_FLOWER_KEY_SCTP_SRC`.
    SctpSrc(u16),
    /// The destination port of SCTP, big-endian: `TCA_FLOWER_KEY_SCTP_DST`.
    SctpDst(u16),
    /// The tunnel's source port of UDP, big-endian: `TCA_FLOWER_KEY_ENC_UDP_SRC_PORT`.
    EncKeyUdpSrcPort(u16),
    /// The mask of the tunnel's source port of UDP, big-endian: `TCA_FLOWER_KEY_ENC_UDP_SRC_PORT_MASK`.
    EncKeyUdpSrcPortMask(u16),
    /// The tunnel's destination port of UDP, big-endian: `TCA_FLOWER_KEY_ENC_UDP_DST_PORT`.
    EncKeyUdpDstPort(u16),
    /// The mask of the tunnel's destination port of UDP, big-endian: `TCA_FLOWER_KEY_ENC_UDP_DST_PORT_MASK`.
    EncKeyUdpDstPortMask(u16),
    /// Flags of the packet, such as being a fragment, big-endian: `TCA_FLOWER_KEY_FLAGS`.
    KeyFlags(u32),
    /// The mask of the flags of the packet, big-endian: `TCA_FLOWER_KEY_FLAGS_MASK`.
    KeyFlagsMask(u32),
    /// The code of ICMP version 4: `TCA_FLOWER_KEY_ICMPV4_CODE`.
    Icmpv4Code(u8),
    /// The mask of the code of ICMP version 4: `TCA_FLOWER_KEY_ICMPV4_CODE_MASK`.
    Icmpv4CodeMask(u8),
    /// The type of ICMP version 4: `TCA_FLOWER_KEY_ICMPV4_TYPE`.
    Icmpv4Type(u8),
    /// The mask of the type of ICMP version 4: `TCA_FLOWER_KEY_ICMPV4_TYPE_MASK`.
    Icmpv4TypeMask(u8),
    /// The code of ICMP version 6: `TCA_FLOWER_KEY_ICMPV6_CODE`.
    Icmpv6Code(u8),
    /// The mask of the code of ICMP version 6: `TCA_FLOWER_KEY_ICMPV6_CODE_MASK`.
    Icmpv6CodeMask(u8),
    /// The type of ICMP version 6: `TCA_FLOWER_KEY_ICMPV6_TYPE`.
    Icmpv6Type(u8),
    /// The mask of the type of ICMP version 6: `TCA_FLOWER_KEY_ICMPV6_TYPE_MASK`.
    Icmpv6TypeMask(u8),
    /// The sender's IPv4 address in ARP: `TCA_FLOWER_KEY_ARP_SIP`.
    ArpSip(Ipv4Addr),
    /// The mask of the sender's IPv4 address in ARP: `TCA_FLOWER_KEY_ARP_SIP_MASK`.
    ArpSipMask(Ipv4Addr),
    /// The target's IPv4 address in ARP: `TCA_FLOWER_KEY_ARP_TIP`.
    ArpTip(Ipv4Addr),
    /// The mask of the target's IPv4 address in ARP: `TCA_FLOWER_KEY_ARP_TIP_MASK`.
    ArpTipMask(Ipv4Addr),
    /// The operation of ARP: `TCA_FLOWER_KEY_ARP_OP`.
    ArpOp(u8),
    /// The mask of the operation of ARP: `TCA_FLOWER_KEY_ARP_OP_MASK`.
    ArpOpMask(u8),
    /// The sender's MAC address in ARP: `TCA_FLOWER_KEY_ARP_SHA`.
    ArpSha([u8; 6]),
    /// The mask of the sender's MAC address in ARP: `TCA_FLOWER_KEY_ARP_SHA_MASK`.
    ArpShaMask([u8; 6]),
    /// The target's MAC address in ARP: `TCA_FLOWER_KEY_ARP_THA`.
    ArpTha([u8; 6]),
    /// The mask of the target's MAC address in ARP: `TCA_FLOWER_KEY_ARP_THA_MASK`.
    ArpThaMask([u8; 6]),
    /// The time to live of the outermost MPLS entry: `TCA_FLOWER_KEY_MPLS_TTL`.
    MplsTtl(u8),
    /// The bottom-of-stack bit of the outermost MPLS entry. The lowest bit is written: `TCA_FLOWER_KEY_MPLS_BOS`.
    MplsBos(u8),
    /// The traffic class of the outermost MPLS entry. The lowest three bits are written: `TCA_FLOWER_KEY_MPLS_TC`.
    MplsTc(u8),
    /// The label of the outermost MPLS entry, little-endian. The lowest 20 bits are written: `TCA_FLOWER_KEY_MPLS_LABEL`.
    MplsLabel(u32),
    /// The flags of TCP, big-endian: `TCA_FLOWER_KEY_TCP_FLAGS`.
    TcpFlags(u16),
    /// The mask of the flags of TCP, big-endian: `TCA_FLOWER_KEY_TCP_FLAGS_MASK`.
    TcpFlagsMask(u16),
    /// The type of service of IP, or the traffic class of IPv6: `TCA_FLOWER_KEY_IP_TOS`.
    IpTos(u8),
    /// The mask of the type of service of IP: `TCA_FLOWER_KEY_IP_TOS_MASK`.
    IpTosMask(u8),
    /// The time to live of IP, or the hop limit of IPv6: `TCA_FLOWER_KEY_IP_TTL`.
    IpTtl(u8),
    /// The mask of the time to live of IP: `TCA_FLOWER_KEY_IP_TTL_MASK`.
    IpTtlMask(u8),
    /// The number of the inner VLAN, little-endian: `TCA_FLOWER_KEY_CVLAN_ID`.
    CvlanId(u16),
    /// The priority in the inner VLAN tag: `TCA_FLOWER_KEY_CVLAN_PRIO`.
    CvlanPrio(u8),
    /// The Ethernet type after the inner VLAN tag, big-endian: `TCA_FLOWER_KEY_CVLAN_ETH_TYPE`.
    CvlanEthType(u16),
    /// The tunnel's type of service of IP: `TCA_FLOWER_KEY_ENC_IP_TOS`.
    EncKeyIpTos(u8),
    /// The mask of the tunnel's type of service of IP: `TCA_FLOWER_KEY_ENC_IP_TOS_MASK`.
    EncKeyIpTosMask(u8),
    /// The tunnel's time to live of IP: `TCA_FLOWER_KEY_ENC_IP_TTL`.
    EncKeyIpTtl(u8),
    /// The mask of the tunnel's time to live of IP: `TCA_FLOWER_KEY_ENC_IP_TTL_MASK`.
    EncKeyIpTtlMask(u8),
    /// How many devices keep the filter in hardware, little-endian: `TCA_FLOWER_IN_HW_COUNT`.
    InHwCount(u32),
    /// The first source port of a range, big-endian: `TCA_FLOWER_KEY_PORT_SRC_MIN`.
    PortSrcMin(u16),
    /// The last source port of a range, big-endian: `TCA_FLOWER_KEY_PORT_SRC_MAX`.
    PortSrcMax(u16),
    /// The first destination port of a range, big-endian: `TCA_FLOWER_KEY_PORT_DST_MIN`.
    PortDstMin(u16),
    /// The last destination port of a range, big-endian: `TCA_FLOWER_KEY_PORT_DST_MAX`.
    PortDstMax(u16),
    /// The state in connection tracking, as flags, little-endian: `TCA_FLOWER_KEY_CT_STATE`.
    CtState(u16),
    /// The mask of the state in connection tracking, little-endian: `TCA_FLOWER_KEY_CT_STATE_MASK`.
    CtStateMask(u16),
    /// The zone of connection tracking, little-endian: `TCA_FLOWER_KEY_CT_ZONE`.
    CtZone(u16),
    /// The mask of the zone of connection tracking, little-endian: `TCA_FLOWER_KEY_CT_ZONE_MASK`.
    CtZoneMask(u16),
    /// The mark in connection tracking, little-endian: `TCA_FLOWER_KEY_CT_MARK`.
    CtMark(u32),
    /// The mask of the mark in connection tracking, little-endian: `TCA_FLOWER_KEY_CT_MARK_MASK`.
    CtMarkMask(u32),
    /// The labels in connection tracking: `TCA_FLOWER_KEY_CT_LABELS`.
    CtLabels([u8; 16]),
    /// The mask of the labels in connection tracking: `TCA_FLOWER_KEY_CT_LABELS_MASK`.
    CtLabelsMask([u8; 16]),
    /// Options that match the MPLS label stack, nested: `TCA_FLOWER_KEY_MPLS_OPTS`.
    MplsOpts(Vec<TcFilterFlowerMplsOption<A>, A>),
    /// The hash of the packet, little-endian: `TCA_FLOWER_KEY_HASH`.
    KeyHash(u32),
    /// The mask of the hash of the packet, little-endian: `TCA_FLOWER_KEY_HASH_MASK`.
    KeyHashMask(u32),
    /// Any other type.
    Other(DefaultNla<A>),
}

impl<A: Allocator> FrameMeaning for TcFilterFlowerOption<A> {
    ghost Seen = { Attribute };

    ghost see = { flower_option };

    ghost codec = { table_codec (table flower_options) };
}

impl<A: Allocator> Nla for TcFilterFlowerOption<A> {
    fn kind(&self) -> u16 {
        self.view().0
    }

    fn checked_len(&self) -> Option<usize> {
        self.view().1.checked_len()
    }

    fn put_value(&self, buffer: &mut [u8]) -> usize {
        self.view().1.put(buffer)
    }

    ghost is_short = { table_short (table flower_options) };
}

impl<A: Allocator> Settle for TcFilterFlowerOption<A> {
    fn is_settled_under(&self, kind: &str) -> bool {
        let (word, value) = self.view();
        value.is_settled_under(read::is_read(word), kind)
    }
}

impl<A: Allocator> PartialEq for TcFilterFlowerOption<A> {
    ghost eq = { on flower_option same_attribute };

    ghost laws = { attribute_per flower_option };

    fn eq(&self, other: &TcFilterFlowerOption<A>) -> bool {
        same_row(&self.row(), &other.row())
    }
}

impl<A: Allocator> Eq for TcFilterFlowerOption<A> {
    ghost laws = { attribute_equiv flower_option };
}
