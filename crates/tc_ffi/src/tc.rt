//! Calls on traffic control messages.

ghost use Rattle.nla_frames.specs.Value.{IsBytes};
ghost use Rattle.tc_wire.specs.Facade.{tc_words};
ghost use Rattle.tc_wire.specs.Rewriting.{SettlesTc};
ghost use Rattle.forms_kinds.specs.Table.{tc_message};
ghost use Rattle.tc_faults.specs.declared.what.What.TheVariants.{Qdisc};
ghost use Rattle.tc_message_json.specs.Made.{IsGiven, IsMadeOf};
ghost use Rattle.tc_ffi.specs.Calls.{IsRewritten, IsSettled, IsShown};
ghost use Rattle.tc_ffi.specs.Checks.{IsChecked};
ghost use Rattle.tc_ffi.specs.Makes.{IsCanonical, IsMade};

use crate::verdict::{VtcFault, VtcVerdict};
use crate::{calls, make};
use forms_kinds::TC_MESSAGE;
use std::alloc::Global;
use tc_wire::TcMessage;

/// The verdict on a message, or its first fault.
#[unsafe(no_mangle)]
pub extern "C" fn vtc_check(
    alloc: Global,
    bytes: &[u8],
    verdict: &mut VtcVerdict,
    fault: &mut VtcFault,
) -> u32
    ensures { IsChecked tc_words Qdisc bytes.now verdict.old verdict.new fault.old fault.new result }
{
    calls::check::<TcMessage>(alloc, bytes, verdict, fault)
}

/// Rewrites a message into the buffer, and sets its length.
#[unsafe(no_mangle)]
pub extern "C" fn vtc_rewrite(
    alloc: Global,
    bytes: &[u8],
    buffer: &mut [u8],
    length: &mut usize,
) -> u32
    ensures { IsRewritten tc_words bytes.now buffer.old buffer.new length.old length.new result }
{
    calls::rewrite::<TcMessage>(alloc, bytes, buffer, length)
}

/// Settles a message into the buffer, and sets its length and the number of rewrites.
#[unsafe(no_mangle)]
pub extern "C" fn vtc_settle(
    alloc: Global,
    bytes: &[u8],
    buffer: &mut [u8],
    length: &mut usize,
    rewrites: &mut usize,
) -> u32
    ensures { IsSettled tc_words bytes.now SettlesTc buffer.old buffer.new length.old length.new rewrites.old rewrites.new result }
{
    calls::settle::<TcMessage>(alloc, bytes, buffer, length, rewrites)
}

/// Writes the JSON of any bytes into the buffer, and sets its length.
#[unsafe(no_mangle)]
pub extern "C" fn vtc_json(
    alloc: Global,
    bytes: &[u8],
    buffer: &mut [u8],
    length: &mut usize,
) -> u32
    ensures { IsShown tc_message bytes.now buffer.old buffer.new length.old length.new result }
{
    calls::json(alloc, TC_MESSAGE, bytes, buffer, length)
}

/// Builds the canonical bytes of a JSON message in the buffer, and sets their number, or writes the reason why there are none as a
/// text into the second buffer, cut if it is too long, and sets its length.
#[unsafe(no_mangle)]
pub extern "C" fn vtc_make(
    alloc: Global,
    json: &[u8],
    buffer: &mut [u8],
    length: &mut usize,
    why: &mut [u8],
    why_length: &mut usize,
) -> u32
    ensures { IsMade tc_message (IsCanonical tc_words) (IsMadeOf tc_words tc_message) json.now buffer.old buffer.new length.old length.new
        why.old why.new why_length.new result }
{
    make::make::<TcMessage>(alloc, json, buffer, length, why, why_length)
}

/// Builds bytes from JSON without checking them. Otherwise like `vtc_make`.
#[unsafe(no_mangle)]
pub extern "C" fn vtc_make_as_given(
    alloc: Global,
    json: &[u8],
    buffer: &mut [u8],
    length: &mut usize,
    why: &mut [u8],
    why_length: &mut usize,
) -> u32
    ensures { IsMade tc_message IsBytes (IsGiven tc_message) json.now buffer.old buffer.new length.old length.new
        why.old why.new why_length.new result }
{
    make::make_as_given::<TcMessage>(alloc, json, buffer, length, why, why_length)
}
