//! Laws of whole messages that only `tc_wire` needs: rewriting, frames at other places, and the upgrade from version 1
//! of reading. Each is the contract of an empty function.
#![tactic(auto)]

pub mod places;
pub mod rewriting;
pub mod versions;
