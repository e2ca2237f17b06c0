//! Queueing disciplines (qdiscs).

pub mod fq_codel;
pub mod ingress;
mod types;
