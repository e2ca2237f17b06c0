//! Streams of netlink messages, with nothing between them.

ghost use Rattle.std.specs.Prelude.{◌≡◌, ◌≤◌, length};
ghost use Rattle.byteorder.specs.Endian.{little_number};
ghost use Rattle.tc_capture.specs.Outcome.{seen};
ghost use Rattle.tc_capture.specs.Front.{front_of};
ghost use Rattle.tc_capture.specs.Stream.{is_time, time_at_front, front_of_length, next_in_stream};

use crate::error::{CaptureError, Res};
use crate::kind::NLMSG_TSTAMP;
use crate::message::NLMSG_HEADER_LEN;
use crate::order::Order;
use crate::packet::{Link, Packet};
use crate::piece::Piece;
use crate::time::{Time, time_of};

// The message at the front, after a time, and the time after it.
#[tactic(auto, unfolding(crate::specs::Stream::next_in_stream))]
pub(crate) fn next_in_stream(time: Option<Time>, bytes: &[u8]) -> Res<(Piece<'_>, Option<Time>)>
    ensures { seen (λ x. (front_of x.0, x.1)) result ≡ next_in_stream time bytes.now }
{
    if bytes.len() < NLMSG_HEADER_LEN {
        return Err(CaptureError::Short {
            needed: NLMSG_HEADER_LEN,
            left: bytes.len(),
        });
    }
    let length = Order::Little.u32_at(bytes, 0) as usize;
    if length < NLMSG_HEADER_LEN {
        return Err(CaptureError::MessageTooShort { length });
    }
    // If `usize` has 32 bits, a sum that overflows is longer than any slice.
    let whole = length.saturating_add((4 - length % 4) % 4);
    if bytes.len() < whole {
        return Err(CaptureError::Short {
            needed: whole,
            left: bytes.len(),
        });
    }
    Ok(front_of_length(whole, time, bytes))
}

// The message in the first `used` bytes.
fn front_of_length(used: usize, time: Option<Time>, bytes: &[u8]) -> (Piece<'_>, Option<Time>)
    requires header { 16 ≤ length bytes.now }
    requires whole { used ≤ length bytes.now }
    requires all { little_number 4 bytes.now ≤ used }
    ensures { (front_of result.0, result.1) ≡ front_of_length used time bytes.now }
{
    if is_time(bytes) {
        let piece = Piece {
            used,
            packet: Ok(None),
        };
        return (piece, Some(time_at_front(bytes)));
    }
    let (front, _) = bytes.split_at(used);
    let packet = Packet {
        time,
        link: Link::Plain,
        is_whole: true,
        at: 0,
        bytes: front,
    };
    let piece = Piece {
        used,
        packet: Ok(Some(packet)),
    };
    (piece, time)
}

// True if the message at the front is a time.
fn is_time(bytes: &[u8]) -> bool
    requires { 16 ≤ length bytes.now }
    ensures { result ≡ is_time bytes.now }
{
    Order::Little.u16_at(bytes, 4) == NLMSG_TSTAMP && Order::Little.u32_at(bytes, 0) >= 24
}

// The time in the message at the front.
fn time_at_front(bytes: &[u8]) -> Time
    requires { 24 ≤ length bytes.now }
    ensures { result ≡ time_at_front bytes.now }
{
    let seconds = Order::Little.u32_at(bytes, 16) as u64;
    let microseconds = Order::Little.u32_at(bytes, 20) as u64;
    time_of(seconds * 1_000_000 + microseconds, 1_000_000)
}
