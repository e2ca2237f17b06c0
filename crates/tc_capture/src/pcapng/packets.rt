//! pcapng packets, and the interfaces that they are from.

ghost use Rattle.std.specs.Prelude.{◌≡◌, ◌+◌, ◌≤◌, length};
ghost use Rattle.tc_capture.specs.Outcome.{seen};
ghost use Rattle.tc_capture.specs.Packet.{captured_of};
ghost use Rattle.tc_capture.specs.PcapNg.{interface_in, interface_at, time_after, held_in, timed_of, timed_packet, kept_of, simple_packet};

use super::interface::Interface;
use super::options::{later, shift_in, units_in};
use crate::error::{CaptureError, Res};
use crate::order::Order;
use crate::packet::{Packet, link_of};
use crate::time::{Time, time_of};

// The interface that the body of a block describes.
pub(crate) fn interface_in(order: Order, body: &[u8]) -> Res<Interface>
    ensures { result ≡ interface_in order body.now }
{
    if body.len() < 8 {
        return Err(CaptureError::BodyTooShort {
            needed: 8,
            left: body.len(),
        });
    }
    let (_, options) = body.split_at(8);
    Ok(Interface {
        link: link_of(order.u16_at(body, 0) as u32),
        most: order.u32_at(body, 4),
        units: units_in(order, options),
        shift: shift_in(order, options),
    })
}

// The interface with this number.
fn interface_at(interfaces: &[Option<Interface>], number: usize) -> Res<Interface>
    ensures { result ≡ interface_at interfaces.now number }
{
    match interfaces.get(number) {
        Some(Some(interface)) => Ok(*interface),
        Some(None) | None => Err(CaptureError::NoInterface { interface: number }),
    }
}

// The time after `ticks` time units of the interface.
fn time_after(ticks: u64, interface: Interface) -> Option<Time>
    ensures { result ≡ time_after ticks interface }
{
    match (interface.units, interface.shift) {
        (Some(units), Some(shift)) if units > 0 => later(shift, time_of(ticks, units)),
        _ => None,
    }
}

// The packet with `long` bytes at an offset in a body.
fn held_in<'a>(
    interface: Interface,
    time: Option<Time>,
    is_whole: bool,
    place: usize,
    long: u32,
    body: &'a [u8],
) -> Res<Packet<'a>>
    requires { place ≤ 20 }
    ensures { seen captured_of result ≡ held_in interface time is_whole place long body.now }
{
    // If `usize` has 32 bits, a sum that overflows is longer than any slice.
    let end = place.saturating_add(long as usize);
    if body.len() < end {
        return Err(CaptureError::BodyTooShort {
            needed: end,
            left: body.len(),
        });
    }
    let (front, _) = body.split_at(end);
    let (_, bytes) = front.split_at(place);
    Ok(Packet {
        time,
        link: interface.link,
        is_whole,
        at: 8 + place,
        bytes,
    })
}

// An enhanced packet block.
pub(crate) fn enhanced_packet<'a>(
    interfaces: &[Option<Interface>],
    order: Order,
    body: &'a [u8],
) -> Res<Packet<'a>>
    ensures { seen captured_of result ≡ timed_packet 4 interfaces.now order body.now }
{
    if body.len() < 20 {
        return Err(CaptureError::BodyTooShort {
            needed: 20,
            left: body.len(),
        });
    }
    match interface_at(interfaces, order.u32_at(body, 0) as usize) {
        Ok(interface) => timed_packet(interface, order, body),
        Err(e) => Err(e),
    }
}

// A packet block.
pub(crate) fn packet_block<'a>(
    interfaces: &[Option<Interface>],
    order: Order,
    body: &'a [u8],
) -> Res<Packet<'a>>
    ensures { seen captured_of result ≡ timed_packet 2 interfaces.now order body.now }
{
    if body.len() < 20 {
        return Err(CaptureError::BodyTooShort {
            needed: 20,
            left: body.len(),
        });
    }
    match interface_at(interfaces, order.u16_at(body, 0) as usize) {
        Ok(interface) => timed_packet(interface, order, body),
        Err(e) => Err(e),
    }
}

// The fields after the interface, which both blocks have.
fn timed_packet<'a>(interface: Interface, order: Order, body: &'a [u8]) -> Res<Packet<'a>>
    requires { 20 ≤ length body.now }
    ensures { seen captured_of result ≡ timed_of interface order body.now }
{
    let long = order.u32_at(body, 12);
    let ticks = order.u32_at(body, 4) as u64 * 0x1_0000_0000 + order.u32_at(body, 8) as u64;
    let is_whole = order.u32_at(body, 16) <= long;
    held_in(
        interface,
        time_after(ticks, interface),
        is_whole,
        20,
        long,
        body,
    )
}

// The number of bytes kept of a packet.
fn kept_of(most: u32, long: u32) -> u32
    ensures { result ≡ kept_of most long }
{
    if most == 0 { long } else { long.min(most) }
}

// A simple packet block, which belongs to the first interface.
pub(crate) fn simple_packet<'a>(
    interfaces: &[Option<Interface>],
    order: Order,
    body: &'a [u8],
) -> Res<Packet<'a>>
    ensures { seen captured_of result ≡ simple_packet interfaces.now order body.now }
{
    if body.len() < 4 {
        return Err(CaptureError::BodyTooShort {
            needed: 4,
            left: body.len(),
        });
    }
    match interface_at(interfaces, 0) {
        Ok(interface) => {
            let long = order.u32_at(body, 0);
            let kept = kept_of(interface.most, long);
            held_in(interface, None, long <= kept, 4, kept, body)
        }
        Err(e) => Err(e),
    }
}
