//! pcapng files.

mod block;
pub mod interface;
mod options;
mod packets;
pub mod section;

pub(crate) use block::SECTION;
