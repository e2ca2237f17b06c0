//! The attribute tables of Linux traffic control as data, and tests of whether messages are canonical.
#![tactic(auto)]

mod actions;
mod contents;
mod flower;
mod front;
mod kinds;
mod lists;
mod messages;
mod options;
mod records;
mod statistics;

pub use actions::{canon_action, canon_action_options, canon_actions};
pub use flower::{canon_lse, canon_mpls};
pub use messages::{is_canonical_action, is_canonical_tc};
pub use options::canon_options;
pub use statistics::canon_stats2;
