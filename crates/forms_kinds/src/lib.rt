//! The attributes, records and named numbers of Linux's traffic control, as a table for `forms_json`. They are defined in the files below
//! `kinds/`. `kinds/generate` writes the parts here from them.
#![tactic(auto)]

mod parts;

ghost use Rattle.forms_kinds.specs.Table.{tc_tables};

use forms_values::{Part, Tables};
pub use parts::{ACTION_LIST, ACTION_MESSAGE, PLACES, TC_LIST, TC_MESSAGE};

/// The table of Linux's traffic control. It allocates nothing.
#[derive(Clone, Copy)]
pub struct TcTables;

impl Tables for TcTables {
    ghost parts_of = { λ t. tc_tables };

    fn part(self, place: usize) -> Part<'static> {
        parts::tc_tables(place)
    }

    #[tactic(auto, using(crate::proofs::Distinct::names_are_distinct))]
    fn names_distinct(self, _place: usize) -> bool {
        true
    }
}
