//! Options as rows of flower's table: `nla_type` and value.

ghost use Rattle.std.specs.Prelude.{◌≡◌};
ghost use Rattle.tc_canon.specs.Tables.Flower.{flower_options};
ghost use Rattle.tc_values.specs.Row.{attribute_of, IsRow, ShownAs};
ghost use Rattle.tc_flower.specs.Flower.{flower_option, flower_lists};

use crate::filters::flower::mpls::TcFilterFlowerMplsOption;
use crate::filters::flower::options::held::Held;
use crate::filters::flower::options::*;
use nla_frames::{NLA_F_NESTED, Nla};
use std::alloc::Allocator;
use tc_actions::TcAction;
use tc_values::{Either, Items, Value};

// Nested lists: actions, or options of MPLS.
type FlowerLists<'a, A> = Either<Items<'a, TcAction<A>>, Items<'a, TcFilterFlowerMplsOption<A>>>;

impl<A: Allocator> TcFilterFlowerOption<A> {
    // The row; its contract says how the option is written, when it fits and when it is settled.
    #[inline(always)]
    pub(crate) fn view(&self) -> (u16, Value<'_, FlowerLists<'_, A>>)
        ensures { ShownAs flower_lists flower_options (flower_option self.now) result.0 result.1 }
    {
        self.row()
    }

    /// The `nla_type` (type and flags) and the value in the format of the type's row. Both of `Other` are as read.
    #[inline(always)]
    pub fn row(&self) -> (u16, Value<'_, FlowerLists<'_, A>>)
        ensures seen { flower_option self.now ≡ attribute_of flower_lists result.0 result.1 }
        ensures row { IsRow flower_lists flower_options result.0 result.1 }
    {
        let (kind, held) = self.parts();
        match held {
            Held::ClassId(n) => (kind, Value::U32(n)),
            Held::Name(name) => (kind, Value::Text(name)),
            Held::Actions(actions) => (kind, Value::Nested(Either::Left(Items(actions)))),
            Held::Mac(mac) => (kind, Value::Octets6(mac)),
            Held::Ipv4(ip) => (kind, Value::Octets4(ip.octets())),
            Held::Ipv6(ip) => (kind, Value::Octets16(ip.octets())),
            Held::Labels(labels) => (kind, Value::Octets16(labels)),
            Held::U8(n) => (kind, Value::U8(n)),
            Held::U16(n) => (kind, Value::U16(n)),
            Held::U16Be(n) => (kind, Value::U16Be(n)),
            Held::U32(n) => (kind, Value::U32(n)),
            Held::U32Be(n) => (kind, Value::U32Be(n)),
            Held::Bits1(n) => (kind, Value::Bits1(n)),
            Held::Bits3(n) => (kind, Value::Bits3(n)),
            Held::Bits20(n) => (kind, Value::Bits20(n)),
            Held::MplsOpts(options) => (
                TCA_FLOWER_KEY_MPLS_OPTS | NLA_F_NESTED,
                Value::Nested(Either::Right(Items(options))),
            ),
            Held::Other(nla) => (nla.kind(), Value::Kept(nla.value())),
        }
    }
}
