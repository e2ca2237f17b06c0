//! The records of qdiscs.

pub mod fq_codel;
