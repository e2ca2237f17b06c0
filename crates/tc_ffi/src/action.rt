//! Calls on action messages.

ghost use Rattle.nla_frames.specs.Value.{IsBytes};
ghost use Rattle.tc_wire.specs.Facade.{action_words};
ghost use Rattle.tc_wire.specs.Rewriting.{SettlesAct};
ghost use Rattle.forms_kinds.specs.Table.{action_message};
ghost use Rattle.tc_faults.specs.declared.what.What.TheVariants.{Action};
ghost use Rattle.tc_message_json.specs.Made.{IsGiven, IsMadeOf};
ghost use Rattle.tc_ffi.specs.Calls.{IsRewritten, IsSettled, IsShown};
ghost use Rattle.tc_ffi.specs.Checks.{IsChecked};
ghost use Rattle.tc_ffi.specs.Makes.{IsCanonical, IsMade};

use crate::verdict::{VtcFault, VtcVerdict};
use crate::{calls, make};
use forms_kinds::ACTION_MESSAGE;
use std::alloc::Global;
use tc_wire::TcActionMessage;

/// The verdict on a message, or its first fault.
#[unsafe(no_mangle)]
pub extern "C" fn vtc_action_check(
    alloc: Global,
    bytes: &[u8],
    verdict: &mut VtcVerdict,
    fault: &mut VtcFault,
) -> u32
    ensures { IsChecked action_words Action bytes.now verdict.old verdict.new fault.old fault.new result }
{
    calls::check::<TcActionMessage>(alloc, bytes, verdict, fault)
}

/// Rewrites a message into the buffer, and sets its length.
#[unsafe(no_mangle)]
pub extern "C" fn vtc_action_rewrite(
    alloc: Global,
    bytes: &[u8],
    buffer: &mut [u8],
    length: &mut usize,
) -> u32
    ensures { IsRewritten action_words bytes.now buffer.old buffer.new length.old length.new result }
{
    calls::rewrite::<TcActionMessage>(alloc, bytes, buffer, length)
}

/// Settles a message into the buffer, and sets its length and the number of rewrites.
#[unsafe(no_mangle)]
pub extern "C" fn vtc_action_settle(
    alloc: Global,
    bytes: &[u8],
    buffer: &mut [u8],
    length: &mut usize,
    rewrites: &mut usize,
) -> u32
    ensures { IsSettled action_words bytes.now SettlesAct buffer.old buffer.new length.old length.new rewrites.old rewrites.new result }
{
    calls::settle::<TcActionMessage>(alloc, bytes, buffer, length, rewrites)
}

/// Writes the JSON of any bytes into the buffer, and sets its length.
#[unsafe(no_mangle)]
pub extern "C" fn vtc_action_json(
    alloc: Global,
    bytes: &[u8],
    buffer: &mut [u8],
    length: &mut usize,
) -> u32
    ensures { IsShown action_message bytes.now buffer.old buffer.new length.old length.new result }
{
    calls::json(alloc, ACTION_MESSAGE, bytes, buffer, length)
}

/// Builds the canonical bytes of a JSON message in the buffer, and sets their number, or writes the reason why there are none as a
/// text into the second buffer, cut if it is too long, and sets its length.
#[unsafe(no_mangle)]
pub extern "C" fn vtc_action_make(
    alloc: Global,
    json: &[u8],
    buffer: &mut [u8],
    length: &mut usize,
    why: &mut [u8],
    why_length: &mut usize,
) -> u32
    ensures { IsMade action_message (IsCanonical action_words) (IsMadeOf action_words action_message) json.now buffer.old buffer.new length.old length.new
        why.old why.new why_length.new result }
{
    make::make::<TcActionMessage>(alloc, json, buffer, length, why, why_length)
}

/// Builds bytes from JSON without checking them. Otherwise like `vtc_action_make`.
#[unsafe(no_mangle)]
pub extern "C" fn vtc_action_make_as_given(
    alloc: Global,
    json: &[u8],
    buffer: &mut [u8],
    length: &mut usize,
    why: &mut [u8],
    why_length: &mut usize,
) -> u32
    ensures { IsMade action_message IsBytes (IsGiven action_message) json.now buffer.old buffer.new length.old length.new
        why.old why.new why_length.new result }
{
    make::make_as_given::<TcActionMessage>(alloc, json, buffer, length, why, why_length)
}
