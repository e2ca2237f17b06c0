//! `Debug` of options, with the text that a derived one has.

use crate::filters::flower::options::TcFilterFlowerOption;
use crate::filters::flower::options::held::Held;
use std::alloc::Allocator;
use std::fmt::{Debug, Formatter, Result, Write};

// Writes `Name(value)`, as a derived `Debug` writes a variant with one field.
fn variant<W: Write, T: Debug>(f: &mut Formatter<W>, name: &str, held: &T) -> Result {
    f.debug_tuple(name).field(held).finish()
}

impl<A: Allocator> Debug for TcFilterFlowerOption<A> {
    fn fmt<W: Write>(&self, f: &mut Formatter<W>) -> Result {
        let (_, held) = self.parts();
        let name = self.name();
        match held {
            Held::Name(device) => variant(f, name, device),
            Held::Actions(actions) => variant(f, name, actions),
            Held::Mac(mac) => variant(f, name, &mac),
            Held::Ipv4(ip) => variant(f, name, &ip),
            Held::Ipv6(ip) => variant(f, name, &ip),
            Held::Labels(labels) => variant(f, name, &labels),
            Held::U8(n) | Held::Bits1(n) | Held::Bits3(n) => variant(f, name, &n),
            Held::U16(n) | Held::U16Be(n) => variant(f, name, &n),
            Held::ClassId(n) | Held::U32(n) | Held::U32Be(n) | Held::Bits20(n) => variant(
                f, name, &n,
            ),
            Held::MplsOpts(options) => variant(f, name, options),
            Held::Other(nla) => variant(f, name, nla),
        }
    }
}

// The name of an option's variant, of these variants.
macro_rules! name_of {
    ($option:expr; $($variant:ident),*) => {
        match $option {
            $(Self::$variant(_) => stringify!($variant),)*
        }
    };
}

impl<A: Allocator> TcFilterFlowerOption<A> {
    // The variant's name.
    fn name(&self) -> &'static str {
        name_of!(self;
            ClassId, InDev, Actions, EthDst, EthDstMask, EthSrc, EthSrcMask, EthType, IpProto,
            Ipv4Src, Ipv4SrcMask, Ipv4Dst, Ipv4DstMask, Ipv6Src, Ipv6SrcMask, Ipv6Dst, Ipv6DstMask,
            TcpSrc, TcpDst, UdpSrc, UdpDst, Flags, VlanId, VlanPrio, VlanEthType, EncKeyId,
            EncKeyIpv4Src, EncKeyIpv4SrcMask, EncKeyIpv4Dst, EncKeyIpv4DstMask, EncKeyIpv6Src,
            EncKeyIpv6SrcMask, EncKeyIpv6Dst, EncKeyIpv6DstMask, TcpSrcMask, TcpDstMask, UdpSrcMask,
            UdpDstMask, SctpSrcMask, SctpDstMask, SctpSrc, SctpDst, EncKeyUdpSrcPort,
            EncKeyUdpSrcPortMask, EncKeyUdpDstPort, EncKeyUdpDstPortMask, KeyFlags, KeyFlagsMask,
            Icmpv4Code, Icmpv4CodeMask, Icmpv4Type, Icmpv4TypeMask, Icmpv6Code, Icmpv6CodeMask,
            Icmpv6Type, Icmpv6TypeMask, ArpSip, ArpSipMask, ArpTip, ArpTipMask, ArpOp, ArpOpMask,
            ArpSha, ArpShaMask, ArpTha, ArpThaMask, MplsTtl, MplsBos, MplsTc, MplsLabel, TcpFlags,
            TcpFlagsMask, IpTos, IpTosMask, IpTtl, IpTtlMask, CvlanId, CvlanPrio, CvlanEthType,
            EncKeyIpTos, EncKeyIpTosMask, EncKeyIpTtl, EncKeyIpTtlMask, InHwCount, PortSrcMin,
            PortSrcMax, PortDstMin, PortDstMax, CtState, CtStateMask, CtZone, CtZoneMask, CtMark,
            CtMarkMask, CtLabels, CtLabelsMask, MplsOpts, KeyHash, KeyHashMask, Other)
    }
}
