//! One netlink message.

ghost use Rattle.std.specs.Prelude.{◌≡◌, ◌≤◌, length};
ghost use Rattle.tc_capture.specs.Outcome.{seen};
ghost use Rattle.tc_capture.specs.Message.{message_of, message_of_length, next_message};

use crate::error::{CaptureError, Res};
use crate::order::Order;

/// The length of `struct nlmsghdr` in bytes.
pub const NLMSG_HEADER_LEN: usize = 16;

/// A netlink message: the fields of `struct nlmsghdr` of `linux/netlink.h`, little-endian, and the payload.
///
/// | Offset | Field | Type |
/// |---|---|---|
/// | 0 | `nlmsg_len`, of header and payload | u32 |
/// | 4 | `kind` | u16 |
/// | 6 | `flags` | u16 |
/// | 8 | `sequence` | u32 |
/// | 12 | `port` | u32 |
#[derive(Clone, Copy, Debug)]
pub struct NetlinkMessage<'a> {
    /// `nlmsg_type`.
    pub kind: u16,
    /// `nlmsg_flags`, the `NLM_F_` bits.
    pub flags: u16,
    /// `nlmsg_seq`.
    pub sequence: u32,
    /// `nlmsg_pid`, the port of the sender or 0.
    pub port: u32,
    /// The bytes after the header, without padding.
    pub payload: &'a [u8],
}

/// Reads the first message of some bytes, and returns it with the bytes after its padding, which may be cut short at
/// the end. Fails with `Short` or `MessageTooShort` if no whole message is there.
#[tactic(auto, unfolding(crate::specs::Message::next_message))]
pub fn next_message(bytes: &[u8]) -> Res<(NetlinkMessage<'_>, &[u8])>
    ensures { seen (λ x. (message_of x.0, x.1.now)) result ≡ next_message bytes.now }
{
    if bytes.len() < NLMSG_HEADER_LEN {
        return Err(CaptureError::Short {
            needed: NLMSG_HEADER_LEN,
            left: bytes.len(),
        });
    }
    let length = Order::Little.u32_at(bytes, 0) as usize;
    if length < NLMSG_HEADER_LEN {
        return Err(CaptureError::MessageTooShort { length });
    }
    if bytes.len() < length {
        return Err(CaptureError::Short {
            needed: length,
            left: bytes.len(),
        });
    }
    let (_, after) = bytes.split_at(length);
    let (_, rest) = after.split_at(after.len().min((4 - length % 4) % 4));
    Ok((message_of_length(length, bytes), rest))
}

pub(crate) fn message_of_length(long: usize, bytes: &[u8]) -> NetlinkMessage<'_>
    requires header { 16 ≤ long }
    requires whole { long ≤ length bytes.now }
    ensures { message_of result ≡ message_of_length long bytes.now }
{
    let (front, _) = bytes.split_at(long);
    let (_, payload) = front.split_at(NLMSG_HEADER_LEN);
    NetlinkMessage {
        kind: Order::Little.u16_at(bytes, 4),
        flags: Order::Little.u16_at(bytes, 6),
        sequence: Order::Little.u32_at(bytes, 8),
        port: Order::Little.u32_at(bytes, 12),
        payload,
    }
}
