//! The records of statistics.

pub mod basic;
pub mod compat;
pub mod queue;

pub use basic::{TC_STATS_BASIC_LEN, TcStatsBasic};
pub use compat::{TC_STATS_LEN, TcStats};
pub use queue::{TC_STATS_QUEUE_LEN, TcStatsQueue};
