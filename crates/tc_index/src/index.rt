//! All attributes of a message, written into an array.

ghost use Rattle.std.specs.Prelude.{◌≡◌, ◌+◌, ◌<◌, ◌^◌, Option, Some, length, map, slice_set};
ghost use Rattle.tc_index.specs.Tables.{table_of};
ghost use Rattle.tc_index.specs.Attributes.{message_items};
ghost use Rattle.tc_index.specs.Views.{NodeView, placed_of, node_of, node_view, left_in, sets_if};
ghost use Rattle.tc_index.specs.Nodes.{nodes_of, tc_nodes, action_nodes, Fills, FillsBy, KeepsAfter, Puts};

use crate::attribute::{Attribute, Node};
use crate::level::Level;
use crate::table::Table;

/// The element type of an array of attributes.
pub trait Slot: Copy {
    /// The attribute in this slot.
    ghost seen: { Self → Option NodeView };

    /// The slot for an attribute.
    fn of(attribute: &Attribute<'_>) -> Self
        ensures { seen result ≡ Some (node_of (placed_of attribute.now)) };
}

impl Slot for Node {
    ghost seen = { λ node. Some (node_view node) };

    fn of(attribute: &Attribute<'_>) -> Node {
        attribute.node()
    }
}

/// Writes the attributes of a traffic control message, each before those nested in it, into as many slots as there are,
/// and returns the number of attributes before the first malformed frame. 0 if the bytes are shorter than the header.
#[tactic(auto, using(crate::proofs::Filling::fills_nodes))]
pub fn index_tc(bytes: &[u8], slots: &mut [Node]) -> usize
    ensures count { result ≡ length (tc_nodes bytes.now) }
    ensures slots { Fills (tc_nodes bytes.now) slots.old slots.new }
{
    fill_tc(bytes, slots)
}

/// Like [`index_tc`], for an action message.
#[tactic(auto, using(crate::proofs::Filling::fills_nodes))]
pub fn index_action(bytes: &[u8], slots: &mut [Node]) -> usize
    ensures count { result ≡ length (action_nodes bytes.now) }
    ensures slots { Fills (action_nodes bytes.now) slots.old slots.new }
{
    fill_action(bytes, slots)
}

/// Like [`index_tc`], with slots of any type.
#[tactic(auto, unfolding(crate::specs::Attributes::tc_items))]
pub fn fill_tc<S: Slot>(bytes: &[u8], slots: &mut [S]) -> usize
    ensures count { result ≡ length (tc_nodes bytes.now) }
    ensures slots { FillsBy S.seen (tc_nodes bytes.now) slots.old slots.new }
    ensures after { KeepsAfter (tc_nodes bytes.now) slots.old slots.new }
{
    fill(bytes, 20, Table::Message, true, slots)
}

/// Like [`index_action`], with slots of any type.
#[tactic(auto, unfolding(crate::specs::Attributes::action_items))]
pub fn fill_action<S: Slot>(bytes: &[u8], slots: &mut [S]) -> usize
    ensures count { result ≡ length (action_nodes bytes.now) }
    ensures slots { FillsBy S.seen (action_nodes bytes.now) slots.old slots.new }
    ensures after { KeepsAfter (action_nodes bytes.now) slots.old slots.new }
{
    fill(bytes, 4, Table::ActionMessage, false, slots)
}

fn fill<S: Slot>(
    bytes: &[u8],
    header: usize,
    table: Table,
    sets_kind: bool,
    slots: &mut [S],
) -> usize
    ensures count { let nodes = nodes_of (message_items 4 header (table_of table) (sets_if sets_kind) bytes.now) in
        result ≡ length nodes }
    ensures slots { let nodes = nodes_of (message_items 4 header (table_of table) (sets_if sets_kind) bytes.now) in
        FillsBy S.seen nodes slots.old slots.new }
    ensures after { let nodes = nodes_of (message_items 4 header (table_of table) (sets_if sets_kind) bytes.now) in
        KeepsAfter nodes slots.old slots.new }
{
    let mut count = 0;
    if header <= bytes.len() {
        let level = Level::of_message(bytes, header, table, sets_kind);
        put_list(&level, 0, slots, &mut count);
    }
    count
}

/// Appends the attributes of a list at this depth to the slots, up to the first malformed frame. True if there is none.
fn put_list<S: Slot>(list: &Level<'_>, depth: u8, slots: &mut [S], count: &mut usize) -> bool
    requires { count.old + length (nodes_of (left_in depth list.now)) < 2 ^ 64 }
    ensures { Puts S.seen (left_in depth list.now) count.old slots.old count.new slots.new result }
{
    let mut level = *list;
    while !level.rest.is_empty() {
        match level.take_first(depth) {
            Ok(attribute) => {
                put(slots, *count, S::of(&attribute));
                *count += 1;
                if depth < 4 {
                    if let Some(inner) = Level::in_attribute(&attribute) {
                        if !put_list(&inner, depth + 1, slots, count) {
                            return false;
                        }
                    }
                }
            }
            Err(_) => return false,
        }
    }
    true
}

/// Writes a slot, if the index is in the array.
fn put<S: Slot>(slots: &mut [S], index: usize, slot: S)
    ensures put { slots.new ≡ slice_set slots.old index slot }
    ensures seen { map S.seen slots.new ≡ slice_set (map S.seen slots.old) index (S.seen slot) }
{
    if index < slots.len() {
        slots[index] = slot;
    }
}
