//! `vtc_index` and `vtc_action_index`: all attributes of a message.

ghost use Rattle.std.specs.Prelude.{◌≡◌, length};
ghost use Rattle.tc_index.specs.Nodes.{tc_nodes, action_nodes, FillsBy, KeepsAfter};
ghost use Rattle.tc_ffi_index.specs.Nodes.{node_at};

use crate::node::VtcNode;
use tc_index::{fill_action, fill_tc};

/// Writes the attributes of a traffic control message, each before those nested in it, into as many slots as there are,
/// and returns the number of attributes before the first malformed frame. 0 if the bytes are shorter than the header.
#[unsafe(no_mangle)]
pub extern "C" fn vtc_index(bytes: &[u8], slots: &mut [VtcNode]) -> usize
    ensures count { result ≡ length (tc_nodes bytes.now) }
    ensures slots { FillsBy node_at (tc_nodes bytes.now) slots.old slots.new }
    ensures after { KeepsAfter (tc_nodes bytes.now) slots.old slots.new }
{
    fill_tc(bytes, slots)
}

/// Like `vtc_index`, for an action message.
#[unsafe(no_mangle)]
pub extern "C" fn vtc_action_index(bytes: &[u8], slots: &mut [VtcNode]) -> usize
    ensures count { result ≡ length (action_nodes bytes.now) }
    ensures slots { FillsBy node_at (action_nodes bytes.now) slots.old slots.new }
    ensures after { KeepsAfter (action_nodes bytes.now) slots.old slots.new }
{
    fill_action(bytes, slots)
}
