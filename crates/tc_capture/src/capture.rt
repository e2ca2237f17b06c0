//! Captures, read one piece at a time.

mod read;

use crate::pcap::Pcap;
use crate::pcapng::section::Section;
use crate::time::Time;

/// The state of reading a capture of netlink.
#[derive(Drop)]
pub enum Capture {
    /// A stream of netlink messages, as `rtmon` writes it, with the last time in it.
    Stream(Option<Time>),

    /// A file of classic pcap, before its header.
    PcapHeader,

    /// A file of classic pcap, after its header.
    Pcap(Pcap),

    /// A file of pcapng.
    PcapNg(Section),
}
