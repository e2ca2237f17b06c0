//! The flags of an action message.

use crate::flags::flags;
use bitflags::{Flag, Flags};

/// Options of a dump of actions: `TCA_ACT_FLAG_*` of `linux/rtnetlink.h`. Unnamed bits are kept. Flags are ordered as
/// their words.
#[derive(PartialEq, Eq, PartialOrd, Ord, Hash, Clone, Copy, Default, Debug)]
pub struct TcActionMessageFlags(u32);

#[allow(non_upper_case_globals)]
impl TcActionMessageFlags {
    /// Allow more than 32 actions in a message: `TCA_ACT_FLAG_LARGE_DUMP_ON`.
    pub const LargeDump: TcActionMessageFlags = TcActionMessageFlags(0x1);

    /// Dump only the essential attributes of each action: `TCA_ACT_FLAG_TERSE_DUMP`.
    pub const TerseDump: TcActionMessageFlags = TcActionMessageFlags(0x2);

    const FLAGS: &'static [Flag<TcActionMessageFlags>] =
        flags!(LargeDump, TerseDump; TcActionMessageFlags(0xFFFF_FFFF));
}

impl Flags for TcActionMessageFlags {
    ghost use Rattle.std.specs.Prelude.{⊤};
    ghost use Rattle.tc_records.specs.MessageFlags.{message_flags_word, message_flags_table};

    type Bits = u32;

    ghost exact = { ⊤ };

    ghost table = { message_flags_table };

    ghost set_of = { message_flags_word };

    fn flags<'a>() -> &'a [Flag<TcActionMessageFlags>] {
        TcActionMessageFlags::FLAGS
    }

    fn bits(&self) -> u32 {
        self.0
    }

    fn from_bits_retain(bits: u32) -> TcActionMessageFlags {
        TcActionMessageFlags(bits)
    }
}
