//! The flags of an action message, with the selector of the valid ones.

ghost use Rattle.std.specs.Prelude.{◌≡◌, ◌≤◌, List, [], length, take};
ghost use Rattle.nla_frames.specs.Value.{le_value};
ghost use Rattle.nla_frames.specs.Fault.{seen};
ghost use Rattle.nla_frames.specs.Buffer.{frame_of};
ghost use Rattle.tc_meaning.specs.Tree.{Scalar};
ghost use Rattle.tc_meaning.specs.Layout.{fields_bytes};
ghost use Rattle.tc_meaning.specs.Content.{pair_codec, flags_pair};
ghost use Rattle.tc_action_messages.specs.Flags.{flags_words, flags_codec};

use bitflags::Flags;
use nla_frames::laws::in_range::u32_is_in_range;
use nla_frames::{
    DecodeError, FrameMeaning, Nla, NlaBuffer, Parseable, Res, Settle, put_bytes, u32_bytes,
};
use std::alloc::Allocator;
use tc_records::TcActionMessageFlags;

/// The attribute type, `TCA_ROOT_FLAGS` of `linux/rtnetlink.h`.
pub const TCA_ROOT_FLAGS: u16 = 2;

/// Length in bytes.
pub const FLAGS_LEN: usize = 8;

/// Flags and the selector of the valid ones, `struct nla_bitfield32` of `linux/netlink.h`: two little-endian u32.
/// Ordered by flags, then selector.
#[derive(PartialEq, Eq, PartialOrd, Ord, Hash, Clone, Copy, Default, Debug)]
pub struct TcActionMessageFlagsWithSelector {
    /// The flags.
    pub flags: TcActionMessageFlags,
    /// Mask of the valid flags. Others are ignored.
    pub selector: TcActionMessageFlags,
}

impl TcActionMessageFlagsWithSelector {
    /// Flags with themselves as the selector.
    pub fn new(flags: TcActionMessageFlags) -> Self
        ensures flags { result.flags ≡ flags }
        ensures selector { result.selector ≡ flags }
    {
        Self {
            flags,
            selector: flags,
        }
    }

    /// Flags with this selector.
    pub fn new_with_selector(flags: TcActionMessageFlags, selector: TcActionMessageFlags) -> Self
        ensures flags { result.flags ≡ flags }
        ensures selector { result.selector ≡ selector }
    {
        Self { flags, selector }
    }

    // Reads exactly eight bytes.
    fn of_value(value: &[u8]) -> Res<Self>
        ensures { seen flags_words result ≡ pair_codec.read [] value.now }
    {
        if value.len() != FLAGS_LEN {
            return Err(DecodeError::WrongLength {
                expected: FLAGS_LEN,
                got: value.len(),
            });
        }
        let flags = TcActionMessageFlags::from_bits_retain(word_of(value));
        let selector = TcActionMessageFlags::from_bits_retain(word_of(&value[4..]));
        Ok(Self { flags, selector })
    }

    // Their bytes.
    fn to_bytes(&self) -> [u8; FLAGS_LEN]
        ensures { result ≡ fields_bytes flags_pair (flags_words self.now) }
    {
        let [f0, f1, f2, f3] = u32_bytes(self.flags.bits());
        let [s0, s1, s2, s3] = u32_bytes(self.selector.bits());
        [f0, f1, f2, f3, s0, s1, s2, s3]
    }

    // Their words have four bytes.
    fn in_range(&self)
        ensures { pair_codec.Typed (flags_words self.now) }
    {
        u32_is_in_range(self.flags.bits());
        u32_is_in_range(self.selector.bits());
    }
}

// The first four bytes as a number.
fn word_of(bytes: &[u8]) -> u32
    requires { 4 ≤ length bytes.now }
    ensures { result ≡ le_value (take 4 bytes.now) }
{
    let (front, _) = bytes.split_at(4);
    u32::from_le_bytes([front[0], front[1], front[2], front[3]])
}

impl FrameMeaning for TcActionMessageFlagsWithSelector {
    ghost Seen = { List Scalar };

    ghost see = { flags_words };

    ghost codec = { flags_codec };
}

impl<A: Allocator> Parseable<A> for TcActionMessageFlagsWithSelector {
    /// Reads a frame of any type. Fails with `WrongLength` unless its value has eight bytes. Takes no memory.
    fn parse(_alloc: A, buf: &NlaBuffer<'_>) -> Res<TcActionMessageFlagsWithSelector>
        ensures { seen flags_words result ≡ flags_codec.read [] (frame_of buf.now) }
    {
        Self::of_value(buf.value())
    }
}

impl Nla for TcActionMessageFlagsWithSelector {
    fn kind(&self) -> u16 {
        TCA_ROOT_FLAGS
    }

    fn checked_len(&self) -> Option<usize> {
        Some(FLAGS_LEN)
    }

    fn put_value(&self, buffer: &mut [u8]) -> usize {
        self.in_range();
        put_bytes(buffer, &self.to_bytes())
    }

    ghost is_short = { λ words fits. fits.1 };
}

impl Settle for TcActionMessageFlagsWithSelector {
    /// Always true.
    fn is_settled_under(&self, _kind: &str) -> bool {
        self.in_range();
        true
    }
}
