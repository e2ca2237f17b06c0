//! Filters.

pub mod bpf;
pub mod cls_u32;
pub mod matchall;
mod types;
