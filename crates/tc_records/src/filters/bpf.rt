//! The flags of a bpf filter.

use crate::flags::flags;
use bitflags::{Flag, Flags};

/// The flags of a bpf filter, `TCA_BPF_FLAG_*` of `linux/pkt_cls.h`. Unnamed bits are kept.
#[derive(PartialEq, Eq, Clone, Copy, Debug)]
pub struct TcBpfFlags(u32);

#[allow(non_upper_case_globals)]
impl TcBpfFlags {
    /// Direct action: the program's return value is a verdict, `TC_ACT_*` (`TCA_BPF_FLAG_ACT_DIRECT`).
    pub const DirectAction: TcBpfFlags = TcBpfFlags(0x1);

    const FLAGS: &'static [Flag<TcBpfFlags>] = flags!(DirectAction; TcBpfFlags(0xFFFF_FFFF));
}

impl Flags for TcBpfFlags {
    ghost use Rattle.std.specs.Prelude.{⊤};
    ghost use Rattle.tc_records.specs.FilterFlags.{bpf_flags_word, bpf_flags_table};

    type Bits = u32;

    ghost exact = { ⊤ };

    ghost table = { bpf_flags_table };

    ghost set_of = { bpf_flags_word };

    fn flags<'a>() -> &'a [Flag<TcBpfFlags>] {
        TcBpfFlags::FLAGS
    }

    fn bits(&self) -> u32 {
        self.0
    }

    fn from_bits_retain(bits: u32) -> TcBpfFlags {
        TcBpfFlags(bits)
    }
}
