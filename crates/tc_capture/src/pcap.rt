//! Classic pcap files.

mod read;

use crate::order::Order;
use crate::packet::Link;
pub(crate) use read::{magic_at, next_in_pcap, pcap_header};

/// The length of the file header in bytes.
pub(crate) const PCAP_HEADER_LEN: usize = 24;

/// A variant of the format, recognized by its magic number.
#[derive(Clone, Copy, PartialEq, Eq, Debug)]
pub enum Variant {
    /// `a1b2c3d4`: times in microseconds.
    Microseconds,

    /// `a1b23c4d`: times in nanoseconds.
    Nanoseconds,

    /// `a1b2cd34`, "modified pcap": microseconds, and eight bytes more before each packet (interface, protocol, type).
    Modified,
}

/// The header of a pcap file.
#[derive(Clone, Copy, PartialEq, Eq, Debug)]
pub struct Pcap {
    /// The byte order of the numbers of the file format.
    pub order: Order,
    /// The variant of the format.
    pub variant: Variant,
    /// The header before the netlink messages of a packet.
    pub link: Link,
}
