//! An attribute of any type, kept raw.

ghost use Rattle.std.specs.Prelude.{◌≡◌};
ghost use Rattle.nla_frames.specs.DefaultNla.{kept_frame, kept_codec, any_frame};
ghost use Rattle.nla_frames.specs.Frame.{Frame};

use crate::buffer::NlaBuffer;
use crate::error::Res;
use crate::laws::in_range::{bytes_are_in_range, u16_is_in_range};
use crate::meaning::{CanonMeaning, FrameMeaning};
use crate::nla::Nla;
use crate::parse::Parseable;
use crate::settle::Settle;
use crate::values::write::{checked_value_len, put_bytes};
use std::alloc::{Allocator, Global};

/// An attribute of any type, kept raw: its `nla_type` with both flags, and its payload.
#[derive(Drop)]
#[derive_where(PartialEq, Eq, Debug)]
#[derive_where(Clone; A)]
pub struct DefaultNla<A: Allocator = Global> {
    word: u16,
    value: Vec<u8, A>,
}

impl<A: Allocator> DefaultNla<A> {
    /// An attribute with this `nla_type`, flags included, and this payload.
    pub fn new(word: u16, value: Vec<u8, A>) -> DefaultNla<A>
        ensures { kept_frame result ≡ record { word = word; value = value.items } }
    {
        DefaultNla { word, value }
    }

    /// The payload.
    pub fn value(&self) -> &[u8]
        ensures { result.now ≡ (kept_frame self.now).value }
    {
        &self.value
    }
}

impl<A: Allocator> FrameMeaning for DefaultNla<A> {
    ghost Seen = { Frame };

    ghost see = { kept_frame };

    ghost codec = { kept_codec };
}

impl<A: Allocator> CanonMeaning for DefaultNla<A> {
    ghost Canon = { any_frame };
}

impl<A: Allocator> Parseable<A> for DefaultNla<A> {
    fn parse(alloc: A, buf: &NlaBuffer<'_>) -> Res<DefaultNla<A>> {
        let value = Vec::from_slice(alloc, buf.value())?;
        Ok(DefaultNla {
            word: buf.word(),
            value,
        })
    }
}

impl<A: Allocator> Nla for DefaultNla<A> {
    fn kind(&self) -> u16 {
        self.word
    }

    fn checked_len(&self) -> Option<usize> {
        checked_value_len(&self.value)
    }

    fn put_value(&self, buffer: &mut [u8]) -> usize {
        u16_is_in_range(self.word);
        put_bytes(buffer, &self.value)
    }

    ghost is_short = { λ _ fits. fits };
}

impl<A: Allocator> Settle for DefaultNla<A> {
    fn is_settled_under(&self, _kind: &str) -> bool {
        u16_is_in_range(self.word);
        bytes_are_in_range(&self.value);
        true
    }
}
