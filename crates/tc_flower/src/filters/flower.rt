//! The filter `flower`.

pub mod mpls;
pub mod options;
