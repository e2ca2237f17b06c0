//! Actions, their attributes and their options.

pub mod action;
pub mod attribute;
pub mod mirror;
pub mod nat;
mod one_kind;
pub mod option;
pub mod scan;
pub mod tunnel_key;
mod types;
