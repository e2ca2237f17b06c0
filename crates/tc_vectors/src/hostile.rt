//! Untrusted bytes, and memory that is refused.

mod alone;
mod arena;
mod fronts;
mod heap;
mod judge;
mod memory;
mod untrusted;
