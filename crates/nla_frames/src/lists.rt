//! Lists of attributes, one frame after the other.

pub mod read;
pub mod write;
