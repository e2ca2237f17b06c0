//! An attribute of a message as C sees it.

ghost use Rattle.std.specs.Prelude.{◌≡◌, Some};
ghost use Rattle.tc_ffi_index.specs.Nodes.{table_at, node_at};

use tc_index::{Attribute, Slot, Table};

/// An attribute of a message: `struct vtc_node`.
#[repr(C)]
#[derive(Clone, Copy)]
pub struct VtcNode {
    /// The offset of its value in the message, in bytes.
    pub offset: usize,
    /// The length of its value in bytes, without padding.
    pub len: usize,
    /// `nla_type`: the type and the two flags.
    pub word: u16,
    /// The number of its type's table: `VTC_TABLE_*`.
    pub table: u8,
    /// The number of attributes that it is nested in.
    pub depth: u8,
}

impl Slot for VtcNode {
    ghost seen = { node_at };

    fn of(attribute: &Attribute<'_>) -> VtcNode {
        VtcNode {
            offset: attribute.offset,
            len: attribute.value.len(),
            word: attribute.word,
            table: number_of(attribute.table),
            depth: attribute.depth,
        }
    }
}

/// The number of a table.
fn number_of(table: Table) -> u8
    ensures { table_at result ≡ Some table }
{
    match table {
        Table::Message => 0,
        Table::ActionMessage => 1,
        Table::Stats2 => 2,
        Table::Actions => 3,
        Table::Action => 4,
        Table::ActionOptions => 5,
        Table::Mirror => 6,
        Table::Nat => 7,
        Table::TunnelKey => 8,
        Table::Options => 9,
        Table::FqCodel => 10,
        Table::Ingress => 11,
        Table::Flower => 12,
        Table::U32 => 13,
        Table::MatchAll => 14,
        Table::Bpf => 15,
        Table::Mpls => 16,
        Table::Lse => 17,
    }
}
