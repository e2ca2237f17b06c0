//! Action messages (`RTM_*ACTION`) and their attributes.
//!
//! Calls that take an allocator fail with `OutOfMemory` if it fails.
#![tactic(auto)]

pub mod attribute;
pub mod flags;
pub mod laws;
pub mod message;

pub use attribute::{Pair, TcActionMessageAttribute};
pub use flags::TcActionMessageFlagsWithSelector;
pub use message::TcActionMessage;
