//! Traffic control messages and their attributes, each read under the last kind before it, and the upgrade from version 1.
//!
//! Calls that take an allocator fail with `OutOfMemory` if it fails.
#![tactic(auto)]

pub mod attribute;
pub mod laws;
pub mod message;
mod types;
mod upgrade;

pub use attribute::{TcAttribute, VecTcAttribute};
pub use message::TcMessage;
pub use types::TCA_OPTIONS;
