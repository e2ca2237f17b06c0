//! Laws of captures: no byte of a file is lost, and a written file is read as it was written.
#![tactic(auto)]

pub mod files;
pub mod fronts;
pub mod parts;
