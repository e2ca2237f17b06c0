//! The parts that messages are made of: records and actions; and the failing allocator.

mod actions;
mod records;
mod refusals;
