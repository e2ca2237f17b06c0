//! The records of actions.

pub mod action;
pub mod header;
pub mod message_flags;
pub mod mirror;
pub mod nat;
pub mod nat_flag;
pub mod tcf;
pub mod tunnel_key;
