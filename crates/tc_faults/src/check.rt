//! The codec's check of the value of each attribute type.

ghost use Rattle.std.specs.Prelude.{◌≡◌, List, ℕ, slice_index_or};
ghost use Rattle.tc_index.specs.Tables.{rows_in, table_of};
ghost use Rattle.tc_index.specs.Nesting.{class_in};
ghost use Rattle.tc_faults.specs.Fault.{value_fault};
ghost use Rattle.tc_faults.specs.Check.{check_fault, checks_of};
ghost use Rattle.tc_faults.specs.declared.check.Check.TheVariants as asks;

use Check::{Any, Fields, Selector, Text, Xstats};
use tc_index::Table;

// The check of a value.
#[derive(Clone, Copy)]
pub(crate) enum Check {
    // None. The attributes of a list have their own checks.
    Any,
    // Exactly n bytes.
    Bytes(usize),
    // At least n bytes: a record, and bytes after it.
    Fields(usize),
    // UTF-8, before a final NUL.
    Text,
    // A u32 selector with all its keys.
    Selector,
    // The statistics of the kind.
    Xstats,
    // The attributes of an action, with exactly one kind.
    Action,
}

// The check of an attribute type in a table.
pub(crate) fn check_of(table: Table, number: u16) -> Check
    ensures { (k value : List ℕ) → check_fault result k value ≡ value_fault (class_in (table_of table) number k) k value }
{
    match table {
        Table::Actions => Check::Action,
        _ => check_at(checks(table), number),
    }
}

fn check_at(checks: &'static [Check], number: u16) -> Check
    ensures { result ≡ slice_index_or checks.now number asks.Any }
{
    match checks.get(usize::from(number)) {
        Some(check) => *check,
        None => Check::Any,
    }
}

// The checks of a table's types, from type 0.
fn checks(table: Table) -> &'static [Check]
    ensures { result.now ≡ checks_of (rows_in table) }
{
    match table {
        Table::Message => &MESSAGE,
        Table::ActionMessage => &ACTION_MESSAGE,
        Table::Stats2 => &STATS2,
        Table::Action => &ACTION,
        Table::Mirror => &MIRROR,
        Table::Nat => &NAT,
        Table::TunnelKey => &TUNNEL_KEY,
        Table::FqCodel => &FQ_CODEL,
        Table::Flower => &FLOWER,
        Table::U32 => &U32,
        Table::MatchAll => &MATCHALL,
        Table::Bpf => &BPF,
        Table::Mpls => &MPLS,
        Table::Lse => &LSE,
        Table::Actions | Table::ActionOptions | Table::Options | Table::Ingress => &[],
    }
}

// Values of a fixed width.
const ONE: Check = Check::Bytes(1);

const TWO: Check = Check::Bytes(2);

const FOUR: Check = Check::Bytes(4);

const SIX: Check = Check::Bytes(6);

const EIGHT: Check = Check::Bytes(8);

const SIXTEEN: Check = Check::Bytes(16);

const MESSAGE: [Check; 13] = [
    Any,
    Text,
    Any,
    Fields(40),
    Xstats,
    Any,
    Any,
    Any,
    Any,
    Any,
    Any,
    FOUR,
    ONE,
];

const ACTION_MESSAGE: [Check; 6] = [Any, Any, EIGHT, FOUR, FOUR, Text];

const STATS2: [Check; 8] = [
    Any,
    Fields(16),
    Any,
    Fields(20),
    Xstats,
    Any,
    Any,
    Fields(16),
];

const ACTION: [Check; 11] = [Any, Text, Any, FOUR, Any, Any, Any, Any, Any, Any, FOUR];

const MIRROR: [Check; 3] = [Any, Fields(32), Fields(28)];

const NAT: [Check; 3] = [Any, Fields(36), Fields(32)];

const TUNNEL_KEY: [Check; 14] = [
    Any,
    Fields(32),
    Fields(24),
    FOUR,
    FOUR,
    SIXTEEN,
    SIXTEEN,
    FOUR,
    Any,
    TWO,
    ONE,
    Any,
    ONE,
    ONE,
];

const FQ_CODEL: [Check; 12] = [
    Any, FOUR, FOUR, FOUR, FOUR, FOUR, FOUR, FOUR, FOUR, FOUR, ONE, ONE,
];

const FLOWER: [Check; 102] = [
    Any, Any, Text, Any, SIX, SIX, SIX, SIX, TWO, ONE, FOUR, FOUR, FOUR, FOUR, SIXTEEN, SIXTEEN,
    SIXTEEN, SIXTEEN, TWO, TWO, TWO, TWO, FOUR, TWO, ONE, TWO, FOUR, FOUR, FOUR, FOUR, FOUR,
    SIXTEEN, SIXTEEN, SIXTEEN, SIXTEEN, TWO, TWO, TWO, TWO, TWO, TWO, TWO, TWO, TWO, TWO, TWO, TWO,
    FOUR, FOUR, ONE, ONE, ONE, ONE, ONE, ONE, ONE, ONE, FOUR, FOUR, FOUR, FOUR, ONE, ONE, SIX, SIX,
    SIX, SIX, ONE, ONE, ONE, FOUR, TWO, TWO, ONE, ONE, ONE, ONE, TWO, ONE, TWO, ONE, ONE, ONE, ONE,
    Any, Any, FOUR, TWO, TWO, TWO, TWO, TWO, TWO, TWO, TWO, FOUR, FOUR, SIXTEEN, SIXTEEN, Any,
    FOUR, FOUR,
];

const U32: [Check; 12] = [
    Any, FOUR, FOUR, FOUR, FOUR, Selector, Any, Any, Any, Any, Any, FOUR,
];

const MATCHALL: [Check; 5] = [Any, FOUR, Any, FOUR, Any];

const BPF: [Check; 12] = [
    Any, Any, Any, FOUR, Any, Any, FOUR, Text, FOUR, FOUR, EIGHT, FOUR,
];

const MPLS: [Check; 2] = [Any, Any];

const LSE: [Check; 6] = [Any, ONE, ONE, ONE, ONE, FOUR];
