//! The calls from C that don't allocate, declared in `bindings/vtc.h`: whether bytes are canonical, all attributes of a
//! message, the next attribute of a list.
#![tactic(auto)]

pub mod index;
pub mod next;
pub mod node;
#[cfg(test)]
mod tests;
pub mod verdicts;
pub mod version;
