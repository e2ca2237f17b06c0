//! The bytes of a u32 filter's selector.

ghost use Rattle.std.specs.Prelude.{◌≡◌};
ghost use Rattle.nla_frames.specs.Fault.{seen};
ghost use Rattle.tc_canon.specs.Layouts.{selector_head};
ghost use Rattle.tc_meaning.specs.Layout.{fields_bytes};
ghost use Rattle.tc_records.specs.Selector.{head_scalars};
ghost use Rattle.tc_raw.specs.Buffers.{checked_head, raw_bytes};

use crate::raw::Raw;
use nla_frames::{DecodeError, Res};
use std::alloc::Allocator;
use tc_records::{TC_U32_KEY_LEN, TC_U32_SELECTOR_LEN, TcU32Selector};

/// Marks the bytes of a selector without its keys.
#[derive(Drop)]
pub struct SelectorHead;

/// The bytes of a selector without its keys, `struct tc_u32_sel` of `linux/pkt_cls.h`, including padding.
pub type TcU32SelectorBuffer = Raw<SelectorHead, TC_U32_SELECTOR_LEN>;

impl Raw<SelectorHead, TC_U32_SELECTOR_LEN> {
    /// Copies the head of the selector at the front. Fails with `SelectorShort` if its `nkeys` keys don't follow.
    pub fn new_checked(bytes: &[u8]) -> Res<TcU32SelectorBuffer>
        ensures { seen raw_bytes result ≡ checked_head bytes.now }
    {
        if bytes.len() < TC_U32_SELECTOR_LEN {
            return Err(DecodeError::SelectorShort {
                len: bytes.len(),
                needed: TC_U32_SELECTOR_LEN,
            });
        }
        let needed = TC_U32_SELECTOR_LEN + TC_U32_KEY_LEN * bytes[2] as usize;
        if bytes.len() < needed {
            return Err(DecodeError::SelectorShort {
                len: bytes.len(),
                needed,
            });
        }
        TcU32SelectorBuffer::read_from_prefix(bytes)
    }
}

impl<A: Allocator> From<&TcU32Selector<A>> for Raw<SelectorHead, TC_U32_SELECTOR_LEN> {
    ghost from_gives = { λ selector raw. raw_bytes raw
        ≡ fields_bytes selector_head (head_scalars selector.now) };

    fn from(selector: &TcU32Selector<A>) -> TcU32SelectorBuffer {
        Raw::of_bytes(selector.head_bytes())
    }
}
