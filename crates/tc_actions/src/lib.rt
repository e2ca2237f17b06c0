//! Actions, with the options of each kind, and statistics.
//!
//! Calls that take an allocator fail with `OutOfMemory` if it fails.
#![tactic(auto)]

pub mod actions;
pub mod laws;
pub mod stats;

pub use actions::action::TcAction;
pub use actions::attribute::TcActionAttribute;
pub use actions::mirror::{TcActionMirror, TcActionMirrorOption};
pub use actions::nat::{TcActionNat, TcActionNatOption};
pub use actions::option::{TcActionOption, read_options};
pub use actions::tunnel_key::{TcActionTunnelKey, TcActionTunnelKeyOption};
pub use stats::fq_codel::{TcFqCodelXstats, TcQdiscFqCodel};
pub use stats::stats2::TcStats2;
pub use stats::xstats::TcXstats;
