//! An iterator over frames.

use crate::buffer::{NlaBuffer, split_first};
use crate::error::Res;

/// An iterator over the frames of some bytes. It yields the frames, then the first fault, if any.
#[derive(Drop)]
pub struct NlasIterator<'a> {
    rest: &'a [u8],
}

impl<'a> NlasIterator<'a> {
    ghost use Rattle.std.specs.Prelude.{◌≡◌};
    ghost use Rattle.nla_frames.specs.Cutting.{cut, items_of};
    ghost use Rattle.nla_frames.specs.Iterator.{items_left};

    /// The frames of these bytes.
    pub fn new(bytes: &'a [u8]) -> Self
        ensures { items_left result ≡ items_of (cut bytes.now) }
    {
        NlasIterator { rest: bytes }
    }
}

impl<'a> Iterator for NlasIterator<'a> {
    ghost use Rattle.std.specs.Iterator.{YieldsFirstBy, item_count};
    ghost use Rattle.nla_frames.specs.Fault.{seen};
    ghost use Rattle.nla_frames.specs.Buffer.{frame_of};
    ghost use Rattle.nla_frames.specs.Iterator.{items_left};

    type Item = Res<NlaBuffer<'a>>;

    ghost next_gives = { YieldsFirstBy (seen frame_of) items_left };

    ghost remaining = { item_count items_left };

    fn next(&mut self) -> Option<Res<NlaBuffer<'a>>> {
        if self.rest.is_empty() {
            return None;
        }
        match split_first(self.rest) {
            Ok((frame, after)) => {
                self.rest = after;
                Some(Ok(frame))
            }
            Err(e) => {
                self.rest = &[];
                Some(Err(e))
            }
        }
    }
}
