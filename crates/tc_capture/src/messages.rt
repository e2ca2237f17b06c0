//! An iterator over the messages of a packet.

ghost use Rattle.std.specs.Prelude.{◌≡◌};
ghost use Rattle.tc_capture.specs.Messages.{are_zeros};

use crate::error::Res;
use crate::message::{NetlinkMessage, next_message};

/// An iterator over the netlink messages of some bytes. It yields the messages, then the first fault, if any. Zeros at
/// the end are ignored.
#[derive(Drop)]
pub struct Messages<'a> {
    rest: &'a [u8],
}

impl<'a> Messages<'a> {
    ghost use Rattle.std.specs.Prelude.{◌≡◌, length};
    ghost use Rattle.tc_capture.specs.Messages.{messages_in, messages_left, left_of};

    /// The messages of these bytes.
    pub fn new(bytes: &'a [u8]) -> Self
        ensures messages { messages_left result ≡ messages_in bytes.now }
        ensures left { left_of result ≡ bytes.now }
    {
        Messages { rest: bytes }
    }

    /// The number of bytes left. 0 after a fault.
    pub fn bytes_left(&self) -> usize
        ensures { result ≡ length (left_of self.now) }
    {
        self.rest.len()
    }
}

impl<'a> Iterator for Messages<'a> {
    ghost use Rattle.std.specs.Iterator.{YieldsFirstBy, item_count};
    ghost use Rattle.tc_capture.specs.Outcome.{seen};
    ghost use Rattle.tc_capture.specs.Message.{message_of};
    ghost use Rattle.tc_capture.specs.Messages.{messages_left};

    type Item = Res<NetlinkMessage<'a>>;

    ghost next_gives = { YieldsFirstBy (seen message_of) messages_left };

    ghost remaining = { item_count messages_left };

    fn next(&mut self) -> Option<Res<NetlinkMessage<'a>>> {
        if are_zeros(self.rest) {
            return None;
        }
        match next_message(self.rest) {
            Ok((message, after)) => {
                self.rest = after;
                Some(Ok(message))
            }
            Err(e) => {
                self.rest = &[];
                Some(Err(e))
            }
        }
    }
}

// True if all bytes are zero.
fn are_zeros(bytes: &[u8]) -> bool
    ensures { result ≡ are_zeros bytes.now }
{
    bytes.iter().all(|byte| *byte == 0)
}
