//! All attributes of a traffic control message, each before those nested in it, without allocating.
#![tactic(auto)]

mod attribute;
mod attributes;
mod index;
pub mod laws;
mod level;
mod nesting;
mod table;
pub mod tree;

pub use attribute::{Attribute, BrokenFrame, Node};
pub use attributes::Attributes;
pub use index::{Slot, fill_action, fill_tc, index_action, index_tc};
pub use nesting::list_in;
pub use table::Table;
