//! Reading classic pcap files.

ghost use Rattle.std.specs.Prelude.{◌≡◌, ◌≤◌, ◌+◌, length};
ghost use Rattle.tc_capture.specs.Outcome.{seen};
ghost use Rattle.tc_capture.specs.Packet.{captured_of};
ghost use Rattle.tc_capture.specs.Front.{front_of};
ghost use Rattle.tc_capture.specs.Pcap.{variant_of, magic_at, pcap_header, ticks_per_second, record_header_len};
ghost use Rattle.tc_capture.specs.Pcap.{packet_of_length, next_in_pcap};

use super::{PCAP_HEADER_LEN, Pcap, Variant};
use crate::error::{CaptureError, Res};
use crate::order::Order;
use crate::packet::{Packet, link_of};
use crate::piece::Piece;
use crate::time::time_of;

// The variant of a magic number.
fn variant_of(magic: u32) -> Option<Variant>
    ensures { result ≡ variant_of magic }
{
    match magic {
        0xa1b2_c3d4 => Some(Variant::Microseconds),
        0xa1b2_3c4d => Some(Variant::Nanoseconds),
        0xa1b2_cd34 => Some(Variant::Modified),
        _ => None,
    }
}

// The byte order and the variant, from the magic number.
pub(crate) fn magic_at(bytes: &[u8]) -> Option<(Order, Variant)>
    requires { 4 ≤ length bytes.now }
    ensures { result ≡ magic_at bytes.now }
{
    if let Some(variant) = variant_of(Order::Little.u32_at(bytes, 0)) {
        return Some((Order::Little, variant));
    }
    match variant_of(Order::Big.u32_at(bytes, 0)) {
        Some(variant) => Some((Order::Big, variant)),
        None => None,
    }
}

// The header of a file.
#[tactic(auto, unfolding(crate::specs::Pcap::pcap_header))]
pub(crate) fn pcap_header(bytes: &[u8]) -> Res<Pcap>
    ensures { result ≡ pcap_header bytes.now }
{
    if bytes.len() < PCAP_HEADER_LEN {
        return Err(CaptureError::Short {
            needed: PCAP_HEADER_LEN,
            left: bytes.len(),
        });
    }
    match magic_at(bytes) {
        Some((order, variant)) => Ok(Pcap {
            order,
            variant,
            link: link_of(order.u32_at(bytes, 20) % 65536),
        }),
        None => Err(CaptureError::NotPcap),
    }
}

// The packet at the front.
#[tactic(auto, unfolding(crate::specs::Pcap::next_in_pcap))]
pub(crate) fn next_in_pcap<'a>(file: &Pcap, bytes: &'a [u8]) -> Res<Piece<'a>>
    ensures { seen front_of result ≡ next_in_pcap file.now bytes.now }
{
    let header = record_header_len(file.variant);
    if bytes.len() < header {
        return Err(CaptureError::Short {
            needed: header,
            left: bytes.len(),
        });
    }
    let length = file.order.u32_at(bytes, 8) as usize;
    // If `usize` has 32 bits, a sum that overflows is longer than any slice.
    let whole = header.saturating_add(length);
    if bytes.len() < whole {
        return Err(CaptureError::Short {
            needed: whole,
            left: bytes.len(),
        });
    }
    Ok(Piece {
        used: whole,
        packet: Ok(Some(packet_of_length(file, length, bytes))),
    })
}

// The packet with `long` bytes after its header.
fn packet_of_length<'a>(file: &Pcap, long: usize, bytes: &'a [u8]) -> Packet<'a>
    requires { record_header_len file.now.variant + long ≤ length bytes.now }
    ensures { captured_of result ≡ packet_of_length file.now long bytes.now }
{
    let header = record_header_len(file.variant);
    let per_second = ticks_per_second(file.variant);
    let seconds = file.order.u32_at(bytes, 0) as u64;
    let ticks = seconds * per_second + file.order.u32_at(bytes, 4) as u64;
    let (front, _) = bytes.split_at(header + long);
    let (_, held) = front.split_at(header);
    Packet {
        time: Some(time_of(ticks, per_second)),
        link: file.link,
        is_whole: file.order.u32_at(bytes, 12) as usize <= long,
        at: header,
        bytes: held,
    }
}

// The length of the header of a packet in bytes.
fn record_header_len(variant: Variant) -> usize
    ensures exact { result ≡ record_header_len variant }
    ensures above { 16 ≤ result }
    ensures below { result ≤ 24 }
{
    match variant {
        Variant::Microseconds | Variant::Nanoseconds => 16,
        Variant::Modified => 24,
    }
}

fn ticks_per_second(variant: Variant) -> u64
    ensures exact { result ≡ ticks_per_second variant }
    ensures above { 1 ≤ result }
    ensures below { result ≤ 1000000000 }
{
    match variant {
        Variant::Nanoseconds => 1_000_000_000,
        Variant::Microseconds | Variant::Modified => 1_000_000,
    }
}
