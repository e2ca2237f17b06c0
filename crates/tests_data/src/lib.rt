//! Data for tests: messages, made by hand and captured, and others made from them (cut, changed, with attributes of all
//! types and many lengths).
#![tactic(auto)]

mod changes;
mod input;
mod large;
mod long;
mod row;
mod rows;
mod sweep;

pub use changes::cut_and_changed;
pub use input::{Form, Input};
pub use large::{MANY_ATTRIBUTES, MANY_KEYS, MANY_LETTERS, MANY_NULS, large_messages};
pub use long::too_long;
pub use row::{Expected, Row, row_of};
pub use rows::{captured, made};
pub use sweep::{ACTION_KINDS, KINDS, LAST_TYPE, LENGTHS, all_around, swept};
