//! The flags of network address translation.

use crate::flags::flags;
use bitflags::{Flag, Flags};

/// Flags of network address translation: `TCA_NAT_FLAG_EGRESS` of `linux/tc_act/tc_nat.h`, and in the upper half the
/// kernel's own flags of actions, `TCA_ACT_FLAGS_*` of `net/act_api.h`. Unnamed bits are kept.
#[derive(PartialEq, Eq, Clone, Copy, Default, Debug)]
pub struct TcNatFlags(u32);

#[allow(non_upper_case_globals)]
impl TcNatFlags {
    /// Translate source addresses of outgoing packets. Without it, destinations of incoming ones:
    /// `TCA_NAT_FLAG_EGRESS`.
    pub const Egress: TcNatFlags = TcNatFlags(0x1);

    /// Created for a policer: `TCA_ACT_FLAGS_POLICE`.
    pub const Police: TcNatFlags = TcNatFlags(0x1_0000);

    /// Bound to a filter: `TCA_ACT_FLAGS_BIND`.
    pub const Bind: TcNatFlags = TcNatFlags(0x2_0000);

    /// Replaces the action with its index: `TCA_ACT_FLAGS_REPLACE`.
    pub const Replace: TcNatFlags = TcNatFlags(0x4_0000);

    /// Created without the RTNL lock: `TCA_ACT_FLAGS_NO_RTNL`.
    pub const NoRtnl: TcNatFlags = TcNatFlags(0x8_0000);

    /// At ingress: `TCA_ACT_FLAGS_AT_INGRESS`.
    pub const AtIngress: TcNatFlags = TcNatFlags(0x10_0000);

    const FLAGS: &'static [Flag<TcNatFlags>] =
        flags!(Egress, Police, Bind, Replace, NoRtnl, AtIngress; TcNatFlags(0xFFFF_FFFF));
}

impl Flags for TcNatFlags {
    ghost use Rattle.std.specs.Prelude.{⊤};
    ghost use Rattle.tc_records.specs.NatFlags.{nat_flags_word, nat_flags_table};

    type Bits = u32;

    ghost exact = { ⊤ };

    ghost table = { nat_flags_table };

    ghost set_of = { nat_flags_word };

    fn flags<'a>() -> &'a [Flag<TcNatFlags>] {
        TcNatFlags::FLAGS
    }

    fn bits(&self) -> u32 {
        self.0
    }

    fn from_bits_retain(bits: u32) -> TcNatFlags {
        TcNatFlags(bits)
    }
}
