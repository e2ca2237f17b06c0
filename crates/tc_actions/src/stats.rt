//! Statistics of qdiscs, classes and actions.

pub mod fq_codel;
pub mod stats2;
mod types;
pub mod xstats;
