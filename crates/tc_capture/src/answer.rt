//! Answers of the kernel to requests.

ghost use Rattle.std.specs.Prelude.{◌≡◌, ◌≤◌, length, option_map};
ghost use Rattle.tc_capture.specs.Outcome.{seen};
ghost use Rattle.tc_capture.specs.Message.{message_of};
ghost use Rattle.tc_capture.specs.Answer.{answer_of, is_capped, error_at, request_at, offset_of, answer_in};

use crate::entries::{Entries, entry_in};
use crate::error::{CaptureError, Res};
use crate::kind::NLMSG_ERROR;
use crate::message::{NLMSG_HEADER_LEN, NetlinkMessage, message_of_length, next_message};
use crate::order::Order;

// The types of the attributes `NLMSGERR_ATTR_MSG` and `NLMSGERR_ATTR_OFFS`.
const TEXT: u16 = 1;

const OFFSET: u16 = 2;

/// An answer of the kernel to a request: `struct nlmsgerr` of `linux/netlink.h`, and the extended acknowledgement
/// after it.
#[derive(Clone, Copy, Debug)]
pub struct Answer<'a> {
    /// The number of the error, such as 22 for `EINVAL`. 0 for an acknowledgement.
    pub error: u32,
    /// The request. With `NLM_F_CAPPED` only its netlink header.
    pub request: NetlinkMessage<'a>,
    /// True if the kernel quoted only the netlink header of the request (`NLM_F_CAPPED`).
    pub is_capped: bool,
    /// The kernel's error message (`NLMSGERR_ATTR_MSG`), a text that ends in NUL.
    pub text: Option<&'a [u8]>,
    /// The offset of the fault in the request, in bytes from the beginning of the netlink header
    /// (`NLMSGERR_ATTR_OFFS`).
    pub offset: Option<u32>,
}

/// The answer in a netlink message. `None` if its type isn't `NLMSG_ERROR`, or if the request in it isn't whole.
#[tactic(auto, unfolding(crate::specs::Answer::answer_in))]
pub fn answer_in<'a>(message: &NetlinkMessage<'a>) -> Option<Answer<'a>>
    ensures { option_map answer_of result ≡ answer_in (message_of message.now) }
{
    if message.kind != NLMSG_ERROR {
        return None;
    }
    if message.payload.len() < 4 {
        return None;
    }
    let (_, quoted) = message.payload.split_at(4);
    let is_capped = is_capped(message.flags);
    match request_at(is_capped, quoted) {
        Ok((request, attributes)) => Some(Answer {
            error: error_at(message.payload),
            request,
            is_capped,
            text: entry_in(Entries::Attributes, TEXT, attributes),
            offset: offset_of(entry_in(Entries::Attributes, OFFSET, attributes)),
        }),
        Err(_) => None,
    }
}

// True if the flag `NLM_F_CAPPED` is set.
fn is_capped(flags: u16) -> bool
    ensures { result ≡ is_capped flags }
{
    flags / 0x100 % 2 == 1
}

// The number of the error.
fn error_at(bytes: &[u8]) -> u32
    requires { 4 ≤ length bytes.now }
    ensures { result ≡ error_at bytes.now }
{
    Order::Little.u32_at(bytes, 0).wrapping_neg()
}

// The request at the front, all of it or its header, and the bytes after it.
fn request_at(is_capped: bool, bytes: &[u8]) -> Res<(NetlinkMessage<'_>, &[u8])>
    ensures { seen (λ x. (message_of x.0, x.1.now)) result ≡ request_at is_capped bytes.now }
{
    if !is_capped {
        return next_message(bytes);
    }
    if bytes.len() < NLMSG_HEADER_LEN {
        return Err(CaptureError::Short {
            needed: NLMSG_HEADER_LEN,
            left: bytes.len(),
        });
    }
    let (_, rest) = bytes.split_at(NLMSG_HEADER_LEN);
    Ok((message_of_length(NLMSG_HEADER_LEN, bytes), rest))
}

// The number in an attribute of four bytes.
fn offset_of(value: Option<&[u8]>) -> Option<u32>
    ensures { result ≡ offset_of (option_map (λ value. value.now) value.entry) }
{
    match value {
        Some(value) if value.len() == 4 => Some(Order::Little.u32_at(value, 0)),
        _ => None,
    }
}
