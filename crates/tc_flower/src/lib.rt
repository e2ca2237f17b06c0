//! The flower filter, with its matches on MPLS label stacks.
//!
//! Calls that take an allocator fail with `OutOfMemory` if it fails.
#![tactic(auto)]

pub mod filters;
pub mod laws;

pub use filters::flower::mpls::{TcFilterFlowerMplsLseOption, TcFilterFlowerMplsOption};
pub use filters::flower::options::{TcFilterFlower, TcFilterFlowerOption};
