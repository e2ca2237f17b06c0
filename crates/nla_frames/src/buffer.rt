//! The first frame of some bytes.

ghost use Rattle.std.specs.Prelude.{◌≡◌, ◌≤◌, ◌<◌, ◌+◌, ◌^◌, ◌↔◌, length, IsTrue, IsBitSet};
ghost use Rattle.nla_frames.specs.Frame.{type_of};
ghost use Rattle.nla_frames.specs.Fault.{seen};
ghost use Rattle.nla_frames.specs.Cutting.{next_frame};

mod front;

use crate::error::Res;
use crate::nla::{NLA_F_NESTED, NLA_F_NET_BYTEORDER, NLA_HEADER_SIZE, NLA_TYPE_MASK};
pub(crate) use front::split_first;

/// A netlink attribute in a buffer, `struct nlattr` of `linux/netlink.h`: its word (`nla_type`) and its value (the
/// payload), borrowed.
#[derive(Clone, Copy, PartialEq, Eq, Debug)]
pub struct NlaBuffer<'a> {
    word: u16,
    value: &'a [u8],
    ghost short: { length value.now ≤ 65531 },
}

impl<'a> NlaBuffer<'a> {
    ghost use Rattle.std.specs.Prelude.{IfOk, IfErr};
    ghost use Rattle.nla_frames.specs.Buffer.{frame_of, first_of};
    ghost use Rattle.nla_frames.specs.FirstFrame.{StartsWith, HasBrokenFront};

    /// Reads the first frame of the bytes. What follows it is ignored. Fails with `FrameHeaderShort` (also for no
    /// bytes), `FrameTooLong` or `FrameTooShort` if the bytes don't begin with a whole frame.
    pub fn new_checked(bytes: &'a [u8]) -> Res<Self>
        ensures found { IfOk result (λ frame. StartsWith bytes.now (frame_of frame)) }
        ensures refused { IfErr result (HasBrokenFront bytes.now) }
        ensures exact { seen frame_of result ≡ first_of (next_frame bytes.now) }
    {
        let (frame, _) = split_first(bytes)?;
        Ok(frame)
    }

    /// `nla_len`: the length of header and value in bytes, without padding.
    pub fn length(&self) -> u16
        ensures { result ≡ 4 + length (frame_of self.now).value }
    {
        self.value.len() as u16 + NLA_HEADER_SIZE as u16
    }

    /// The type: the word without its two flags, `nla_type & NLA_TYPE_MASK`.
    pub fn kind(&self) -> u16
        ensures { result ≡ type_of (frame_of self.now).word }
    {
        self.word & NLA_TYPE_MASK
    }

    /// `nla_type`: the type and the two flags.
    pub fn word(&self) -> u16
        ensures { result ≡ (frame_of self.now).word }
    {
        self.word
    }

    /// True if the word has `NLA_F_NESTED`.
    pub fn nested_flag(&self) -> bool
        ensures { IsTrue result ↔ IsBitSet (frame_of self.now).word 15 }
    {
        self.word & NLA_F_NESTED != 0
    }

    /// True if the word has `NLA_F_NET_BYTEORDER`.
    pub fn network_byte_order_flag(&self) -> bool
        ensures { IsTrue result ↔ IsBitSet (frame_of self.now).word 14 }
    {
        self.word & NLA_F_NET_BYTEORDER != 0
    }

    /// The bytes of the value, without padding.
    pub fn value(&self) -> &'a [u8]
        ensures bytes { result.now ≡ (frame_of self.now).value }
        ensures short { length result.now ≤ 65531 }
    {
        self.value
    }
}
