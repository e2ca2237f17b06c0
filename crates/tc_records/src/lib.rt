//! The fixed records of traffic control, with the named numbers and the flags in them: a trait for all of them, a
//! cursor that reads fields, a scratch array that fields are written into, and the records.
#![tactic(auto)]

pub mod actions;
pub mod family;
pub mod fields;
pub mod filters;
mod flags;
pub mod header;
pub mod laws;
pub mod octets;
pub mod qdiscs;
pub mod record;
mod same;
pub mod stats;

pub use actions::action::{TC_ACTION_GENERIC_LEN, TcActionGeneric, TcActionType};
pub use actions::header::{TCA_HEADER_LEN, TcActionMessageHeader};
pub use actions::message_flags::TcActionMessageFlags;
pub use actions::mirror::{TC_MIRROR_LEN, TcMirror, TcMirrorActionType};
pub use actions::nat::{TC_NAT_LEN, TcNat};
pub use actions::nat_flag::TcNatFlags;
pub use actions::tcf::{TCF_LEN, Tcf};
pub use actions::tunnel_key::{TC_TUNNEL_KEY_LEN, TcTunnelKey};
pub use family::same_family;
pub use fields::Fields;
pub use filters::bpf::TcBpfFlags;
pub use filters::u32_flags::{TcU32OptionFlags, TcU32SelectorFlags};
pub use filters::u32_selector::{TC_U32_KEY_LEN, TC_U32_SELECTOR_LEN, TcU32Key, TcU32Selector};
pub use header::{TC_HEADER_LEN, TcHandle, TcHeader};
pub use octets::Octets;
pub use qdiscs::fq_codel::{
    TC_FQ_CODEL_CL_STATS_LEN, TC_FQ_CODEL_QD_STATS_LEN, TcFqCodelClStats, TcFqCodelQdStats,
};
pub use record::{FixedRecord, emit_record, is_settled_record, parse_record, record_len};
pub use stats::{
    TC_STATS_BASIC_LEN, TC_STATS_LEN, TC_STATS_QUEUE_LEN, TcStats, TcStatsBasic, TcStatsQueue,
};
