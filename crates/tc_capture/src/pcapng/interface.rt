//! Interfaces of a pcapng section.

use crate::packet::Link;

/// An interface from which packets were captured.
#[derive(Clone, Copy, PartialEq, Eq, Debug)]
pub struct Interface {
    /// The header before the netlink messages of a packet.
    pub link: Link,
    /// The number of bytes kept of a packet (snaplen). 0 for all.
    pub most: u32,
    /// The number of time units in a second. `None` if it overflows `u64`.
    pub units: Option<u64>,
    /// The seconds to add to each time, in two's complement. `None` if the option has a wrong length.
    pub shift: Option<u64>,
}
