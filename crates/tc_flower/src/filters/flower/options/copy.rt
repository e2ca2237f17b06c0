//! `Clone` of options.

ghost use Rattle.tc_flower.specs.Flower.{IsCopy};

use crate::filters::flower::mpls::TcFilterFlowerMplsOption;
use crate::filters::flower::options::TcFilterFlowerOption;
use crate::filters::flower::options::held::Held;
use std::alloc::{AllocError, Allocator};
use tc_actions::TcAction;

impl<A: Allocator + Clone> Clone for TcFilterFlowerOption<A> {
    ghost is_clone = { IsCopy ⟦<TcAction<A> as Clone>⟧.is_clone
        ⟦<TcFilterFlowerMplsOption<A> as Clone>⟧.is_clone };

    fn clone(&self) -> Result<TcFilterFlowerOption<A>, AllocError> {
        let (kind, held) = self.parts();
        match held {
            Held::ClassId(n) => Ok(Self::ClassId(n)),
            Held::Name(name) => Ok(Self::InDev(name.clone()?)),
            Held::Actions(actions) => Ok(Self::Actions(actions.clone()?)),
            Held::Mac(mac) => Ok(Self::of_mac(kind, mac)),
            Held::Ipv4(ip) => Ok(Self::of_ipv4(kind, ip)),
            Held::Ipv6(ip) => Ok(Self::of_ipv6(kind, ip)),
            Held::Labels(labels) => Ok(Self::of_labels(kind, labels)),
            Held::U8(n) => Ok(Self::of_u8(kind, n)),
            Held::U16(n) => Ok(Self::of_u16(kind, n)),
            Held::U16Be(n) => Ok(Self::of_u16_be(kind, n)),
            Held::U32(n) => Ok(Self::of_u32(kind, n)),
            Held::U32Be(n) => Ok(Self::of_u32_be(kind, n)),
            Held::Bits1(n) => Ok(Self::MplsBos(n)),
            Held::Bits3(n) => Ok(Self::MplsTc(n)),
            Held::Bits20(n) => Ok(Self::MplsLabel(n)),
            Held::MplsOpts(options) => Ok(Self::MplsOpts(options.clone()?)),
            Held::Other(nla) => Ok(Self::Other(nla.clone()?)),
        }
    }
}
