//! Reading a capture.

ghost use Rattle.std.specs.Prelude.{◌≡◌, Err, OnErr, option_map};
ghost use Rattle.tc_capture.specs.Outcome.{paired};
ghost use Rattle.tc_capture.specs.Front.{front_of};
ghost use Rattle.tc_capture.specs.Capture.{state_of, capture_at, next_piece};

use super::Capture;
use crate::error::Res;
use crate::order::Order;
use crate::pcap::{PCAP_HEADER_LEN, magic_at, next_in_pcap, pcap_header};
use crate::pcapng::SECTION;
use crate::pcapng::section::Section;
use crate::piece::Piece;
use crate::stream::next_in_stream;

impl Capture {
    /// The capture that begins with these four bytes, before they are read. `None` if the format is unknown.
    pub fn of_first(first: &[u8]) -> Option<Capture>
        ensures { option_map state_of result ≡ capture_at first.now }
    {
        if first.len() < 4 {
            return None;
        }
        if magic_at(first).is_some() {
            return Some(Capture::PcapHeader);
        }
        match Order::Little.u32_at(first, 0) {
            SECTION => Some(Capture::PcapNg(Section::new())),
            length if length < 0x100_0000 => Some(Capture::Stream(None)),
            _ => None,
        }
    }

    /// Reads the piece at the front of the bytes that are left. Fails with `Short` if the piece has more bytes, and
    /// with another error if it is broken and the next piece can't be found. Then the capture is unchanged.
    pub fn next<'a>(&mut self, bytes: &'a [u8]) -> Res<Piece<'a>>
        ensures exact { paired result front_of (state_of self.new)
            ≡ next_piece (state_of self.old) bytes.now }
        ensures unchanged { OnErr result (self.new ≡ self.old) }
    {
        match self {
            Capture::Stream(time) => match next_in_stream(*time, bytes) {
                Ok((piece, after)) => {
                    *time = after;
                    Ok(piece)
                }
                Err(e) => Err(e),
            },
            Capture::PcapHeader => match pcap_header(bytes) {
                Ok(file) => {
                    *self = Capture::Pcap(file);
                    Ok(Piece {
                        used: PCAP_HEADER_LEN,
                        packet: Ok(None),
                    })
                }
                Err(e) => Err(e),
            },
            Capture::Pcap(file) => next_in_pcap(file, bytes),
            Capture::PcapNg(section) => section.next(bytes),
        }
    }
}
