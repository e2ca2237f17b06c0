//! Filters.

pub mod flower;
