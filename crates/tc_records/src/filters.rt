//! The records and the flags of filters.

pub mod bpf;
pub mod u32_flags;
pub mod u32_selector;
