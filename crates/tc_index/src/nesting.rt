//! Which attributes nest others, and with which table.

ghost use Rattle.std.specs.Prelude.{◌≡◌, List, ℕ, option_map};
ghost use Rattle.nla_frames.specs.Cutting.{cut, items_of};
ghost use Rattle.tc_canon.specs.Descriptor.{by_kind};
ghost use Rattle.tc_canon.specs.Tables.Actions.{action_option_kinds};
ghost use Rattle.tc_canon.specs.Tables.Options.{option_kinds};
ghost use Rattle.tc_index.specs.Tables.{table_of, rows_in};
ghost use Rattle.tc_index.specs.Nesting.{class_at, class_in, list_in, first_kind, known_table, table_under};
ghost use Rattle.tc_index.specs.Views.{list_found};

use crate::table::Table;
use nla_frames::{NlasIterator, strip_nul};

/// The table of the attributes nested in an attribute, and the kind there. `None` if its value isn't a list.
pub fn list_in<'a>(
    table: Table,
    number: u16,
    kind: &'a [u8],
    value: &'a [u8],
) -> Option<(Table, &'a [u8])>
    ensures { list_found result
        ≡ list_in (class_in (table_of table) number kind.now) kind.now value.now }
{
    match table {
        Table::Actions => Some((Table::Action, first_kind(value))),
        _ => match inner_table(table, number, kind) {
            Some(inner) => Some((inner, kind)),
            None => None,
        },
    }
}

/// The table of the attributes nested in an attribute of this type.
#[tactic(auto, using(crate::proofs::Rows::no_list, crate::proofs::Rows::flower_no_list, crate::proofs::Rows::options_list))]
fn inner_table(table: Table, number: u16, kind: &[u8]) -> Option<Table>
    ensures { (value : List ℕ) → option_map (λ t. (table_of t, kind.now)) result
        ≡ list_in (class_at (rows_in table) number kind.now) kind.now value }
{
    match table {
        Table::Message => match number {
            2 => options_table(kind),
            7 => Some(Table::Stats2),
            _ => None,
        },
        Table::ActionMessage => match number {
            1 => Some(Table::Actions),
            _ => None,
        },
        Table::Action => match number {
            2 => Some(action_options_table(kind)),
            4 => Some(Table::Stats2),
            _ => None,
        },
        Table::Flower => match number {
            3 => Some(Table::Actions),
            99 => Some(Table::Mpls),
            _ => None,
        },
        Table::Mpls => match number {
            1 => Some(Table::Lse),
            _ => None,
        },
        Table::U32 => match number {
            7 => Some(Table::Actions),
            _ => None,
        },
        Table::MatchAll => match number {
            2 => Some(Table::Actions),
            _ => None,
        },
        _ => None,
    }
}

/// The table of a message's options. `None` for an unknown kind.
fn options_table(kind: &[u8]) -> Option<Table>
    ensures { option_map table_of result ≡ known_table option_kinds kind.now }
{
    if kind == b"fq_codel".as_slice() {
        Some(Table::FqCodel)
    } else if kind == b"ingress".as_slice() {
        Some(Table::Ingress)
    } else if kind == b"flower".as_slice() {
        Some(Table::Flower)
    } else if kind == b"u32".as_slice() {
        Some(Table::U32)
    } else if kind == b"matchall".as_slice() {
        Some(Table::MatchAll)
    } else if kind == b"bpf".as_slice() {
        Some(Table::Bpf)
    } else {
        None
    }
}

/// The table of an action's options. `ActionOptions`, without rows, for an unknown kind.
fn action_options_table(kind: &[u8]) -> Table
    ensures { table_of result ≡ table_under (by_kind action_option_kinds) kind.now }
{
    if kind == b"mirred".as_slice() {
        Table::Mirror
    } else if kind == b"nat".as_slice() {
        Table::Nat
    } else if kind == b"tunnel_key".as_slice() {
        Table::TunnelKey
    } else {
        Table::ActionOptions
    }
}

/// The kind in the first `TCA_ACT_KIND` of an action. Empty if there is none.
fn first_kind(value: &[u8]) -> &[u8]
    ensures { result.now ≡ first_kind (items_of (cut value.now)) }
{
    for frame in NlasIterator::new(value) {
        match frame {
            Ok(frame) => {
                if frame.kind() == 1 {
                    return strip_nul(frame.value());
                }
            }
            Err(_) => return &[],
        }
    }
    &[]
}
