//! The meaning of the attribute tables of Linux traffic control: abstract values, how they are read and written, and
//! the laws between reading and writing.
#![tactic(auto)]

pub mod laws;
