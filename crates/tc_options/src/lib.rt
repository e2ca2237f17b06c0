//! The options of qdiscs and filters, each list in the format of the message's kind.
//!
//! Calls that take an allocator fail with `OutOfMemory` if it fails.
#![tactic(auto)]

pub mod filters;
pub mod laws;
mod one_kind;
pub mod options;
pub mod qdiscs;

pub use filters::bpf::{TcFilterBpf, TcFilterBpfOption};
pub use filters::cls_u32::{TcFilterU32, TcFilterU32Option};
pub use filters::matchall::{TcFilterMatchAll, TcFilterMatchAllOption};
pub use options::{TcOption, VecTcOption, is_known_kind};
pub use qdiscs::fq_codel::{TcQdiscFqCodel, TcQdiscFqCodelOption};
pub use qdiscs::ingress::{TcQdiscIngress, TcQdiscIngressOption};
pub use tc_flower::{TcFilterFlower, TcFilterFlowerOption};
