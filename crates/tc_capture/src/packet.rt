//! Packets of a capture.

ghost use Rattle.std.specs.Prelude.{◌≡◌};
ghost use Rattle.tc_capture.specs.Packet.{link_of};

mod netlink;

use crate::time::Time;

/// The length of the cooked header of `LINKTYPE_NETLINK` in bytes.
pub const COOKED_HEADER_LEN: usize = 16;

/// The header before the netlink messages of a packet, according to its link type.
#[derive(Clone, Copy, PartialEq, Eq, Debug)]
pub enum Link {
    /// No header.
    Plain,

    /// The cooked header of `LINKTYPE_NETLINK`.
    Cooked,

    /// Another link type, with this number: the packet isn't netlink.
    Other(u32),
}

/// The contents of a packet.
#[derive(Clone, Copy, Debug)]
pub enum Contents<'a> {
    /// Messages of `NETLINK_ROUTE`, as far as they were captured.
    Route {
        /// The packet type of the cooked header, if there is one (`PACKET_OUTGOING` is 4).
        packet_type: Option<u16>,
        messages: &'a [u8],
    },

    /// Messages of another netlink family, with its number in `linux/netlink.h`.
    Family(u16),

    /// A packet of another link type, with this number.
    LinkType(u32),
}

/// The link type with this number in pcap and pcapng.
pub(crate) fn link_of(number: u32) -> Link
    ensures { result ≡ link_of number }
{
    match number {
        253 => Link::Cooked,
        other => Link::Other(other),
    }
}

/// A packet.
#[derive(Clone, Copy, Debug)]
pub struct Packet<'a> {
    /// The time at which it was captured, if known.
    pub time: Option<Time>,
    /// The header before its messages.
    pub link: Link,
    /// False if only its first bytes were captured (snaplen).
    pub is_whole: bool,
    /// The offset of its bytes in the piece.
    pub at: usize,
    /// Its bytes, as far as they were captured.
    pub bytes: &'a [u8],
}
