//! The flags of a u32 filter.

use crate::flags::flags;
use bitflags::{Flag, Flags};

/// The flags of a selector, one byte: `TC_U32_*` of `linux/pkt_cls.h`. Unnamed bits are kept.
#[derive(PartialEq, Eq, Clone, Copy, Default, Debug)]
pub struct TcU32SelectorFlags(u8);

#[allow(non_upper_case_globals)]
impl TcU32SelectorFlags {
    /// A match ends classification: `TC_U32_TERMINAL`.
    pub const Terminal: TcU32SelectorFlags = TcU32SelectorFlags(0x1);

    /// The next header is `off` bytes after this one: `TC_U32_OFFSET`.
    pub const Offset: TcU32SelectorFlags = TcU32SelectorFlags(0x2);

    /// The offset of the next header is read from the packet: `TC_U32_VAROFFSET`.
    pub const VarOffset: TcU32SelectorFlags = TcU32SelectorFlags(0x4);

    /// The keys of the next filter count from the next header: `TC_U32_EAT`.
    pub const Eat: TcU32SelectorFlags = TcU32SelectorFlags(0x8);

    const FLAGS: &'static [Flag<TcU32SelectorFlags>] =
        flags!(Terminal, Offset, VarOffset, Eat; TcU32SelectorFlags(0xFF));
}

impl Flags for TcU32SelectorFlags {
    ghost use Rattle.std.specs.Prelude.{⊤};
    ghost use Rattle.tc_records.specs.FilterFlags.{selector_flags_byte, selector_flags_table};

    type Bits = u8;

    ghost exact = { ⊤ };

    ghost table = { selector_flags_table };

    ghost set_of = { selector_flags_byte };

    fn flags<'a>() -> &'a [Flag<TcU32SelectorFlags>] {
        TcU32SelectorFlags::FLAGS
    }

    fn bits(&self) -> u8 {
        self.0
    }

    fn from_bits_retain(bits: u8) -> TcU32SelectorFlags {
        TcU32SelectorFlags(bits)
    }
}

/// Hardware offload (`TCA_CLS_FLAGS_*` of `linux/pkt_cls.h`): requested (`SkipHw`, `SkipSw`) and reported (`InHw`,
/// `NotInHw`). Unnamed bits are kept.
#[derive(PartialEq, Eq, Clone, Copy, Debug)]
pub struct TcU32OptionFlags(u32);

#[allow(non_upper_case_globals)]
impl TcU32OptionFlags {
    /// Don't offload to hardware: `TCA_CLS_FLAGS_SKIP_HW`.
    pub const SkipHw: TcU32OptionFlags = TcU32OptionFlags(0x1);

    /// Don't process in software: `TCA_CLS_FLAGS_SKIP_SW`.
    pub const SkipSw: TcU32OptionFlags = TcU32OptionFlags(0x2);

    /// Offloaded to hardware: `TCA_CLS_FLAGS_IN_HW`.
    pub const InHw: TcU32OptionFlags = TcU32OptionFlags(0x4);

    /// Not offloaded to hardware: `TCA_CLS_FLAGS_NOT_IN_HW`.
    pub const NotInHw: TcU32OptionFlags = TcU32OptionFlags(0x8);

    /// Report why an offload failed: `TCA_CLS_FLAGS_VERBOSE`.
    pub const Verbose: TcU32OptionFlags = TcU32OptionFlags(0x10);

    const FLAGS: &'static [Flag<TcU32OptionFlags>] =
        flags!(SkipHw, SkipSw, InHw, NotInHw, Verbose; TcU32OptionFlags(0xFFFF_FFFF));
}

impl Flags for TcU32OptionFlags {
    ghost use Rattle.std.specs.Prelude.{⊤};
    ghost use Rattle.tc_records.specs.FilterFlags.{option_flags_word, option_flags_table};

    type Bits = u32;

    ghost exact = { ⊤ };

    ghost table = { option_flags_table };

    ghost set_of = { option_flags_word };

    fn flags<'a>() -> &'a [Flag<TcU32OptionFlags>] {
        TcU32OptionFlags::FLAGS
    }

    fn bits(&self) -> u32 {
        self.0
    }

    fn from_bits_retain(bits: u32) -> TcU32OptionFlags {
        TcU32OptionFlags(bits)
    }
}
