//! The netlink messages in a packet.

ghost use Rattle.std.specs.Prelude.{◌≡◌};
ghost use Rattle.tc_capture.specs.Outcome.{seen};
ghost use Rattle.tc_capture.specs.Packet.{contents_of, contents_in};

use super::{COOKED_HEADER_LEN, Contents, Link, Packet};
use crate::error::{CaptureError, Res};
use crate::order::Order;

impl<'a> Packet<'a> {
    /// The contents of the packet, with its netlink messages if they are of `NETLINK_ROUTE`. Fails with `Short` if it
    /// ends within the cooked header.
    pub fn contents(&self) -> Res<Contents<'a>>
        ensures { seen contents_of result ≡ contents_in self.now.link self.now.bytes.now }
    {
        match self.link {
            Link::Plain => Ok(Contents::Route {
                packet_type: None,
                messages: self.bytes,
            }),
            Link::Cooked => cooked(self.bytes),
            Link::Other(number) => Ok(Contents::LinkType(number)),
        }
    }
}

fn cooked(bytes: &[u8]) -> Res<Contents<'_>>
    ensures { seen contents_of result ≡ contents_in Link.Cooked bytes.now }
{
    if bytes.len() < COOKED_HEADER_LEN {
        return Err(CaptureError::Short {
            needed: COOKED_HEADER_LEN,
            left: bytes.len(),
        });
    }
    let family = Order::Big.u16_at(bytes, 14);
    if family != 0 {
        return Ok(Contents::Family(family));
    }
    let (_, messages) = bytes.split_at(COOKED_HEADER_LEN);
    Ok(Contents::Route {
        packet_type: Some(Order::Big.u16_at(bytes, 0)),
        messages,
    })
}
