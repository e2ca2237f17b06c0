//! Linux traffic control messages: the public names of the crates below in one place, with rewriting and settling.
//!
//! Names that only code with attributes of its own needs are in [`helpers`]. Calls that take an allocator fail with
//! `OutOfMemory` if it fails.
#![tactic(auto)]

pub mod helpers;
pub mod rewriting;
mod whole;

// Messages, rewriting and settling.
pub use rewriting::{RewriteError, rewrite_action, rewrite_tc, settle_action, settle_tc};
pub use tc_action_messages::{
    TcActionMessage, TcActionMessageAttribute, TcActionMessageFlagsWithSelector,
};
pub use tc_canon::{is_canonical_action, is_canonical_tc};
pub use tc_messages::TcMessage;
pub use whole::WholeMessage;

// Traits for reading and writing, and errors of reading.
pub use nla_frames::{
    DecodeError, Emitable, Nla, Parseable, ParseableBytes, ParseableParametrized, Res, Settle,
    SettleBytes,
};

// Attributes, and options by kind.
pub use tc_flower::{
    TcFilterFlower, TcFilterFlowerMplsLseOption, TcFilterFlowerMplsOption, TcFilterFlowerOption,
};
pub use tc_messages::{TcAttribute, VecTcAttribute};
pub use tc_options::{
    TcFilterBpf, TcFilterBpfOption, TcFilterMatchAll, TcFilterMatchAllOption, TcFilterU32,
    TcFilterU32Option, TcOption, TcQdiscFqCodel, TcQdiscFqCodelOption, TcQdiscIngress,
    TcQdiscIngressOption, VecTcOption, is_known_kind,
};

// Actions and statistics.
pub use tc_actions::{
    TcAction, TcActionAttribute, TcActionMirror, TcActionMirrorOption, TcActionNat,
    TcActionNatOption, TcActionOption, TcActionTunnelKey, TcActionTunnelKeyOption, TcFqCodelXstats,
    TcStats2, TcXstats,
};

// Fixed records, named numbers and flag words.
pub use nla_frames::AddressFamily;
pub use tc_records::{
    TcActionGeneric, TcActionMessageFlags, TcActionMessageHeader, TcActionType, TcBpfFlags,
    TcFqCodelClStats, TcFqCodelQdStats, TcHandle, TcHeader, TcMirror, TcMirrorActionType, TcNat,
    TcNatFlags, TcStats, TcStatsBasic, TcStatsQueue, TcTunnelKey, TcU32Key, TcU32OptionFlags,
    TcU32Selector, TcU32SelectorFlags, Tcf,
};

// Records as raw bytes.
pub use tc_raw::{
    TcActionGenericBuffer, TcActionMessageBuffer, TcFqCodelClStatsBuffer, TcFqCodelQdStatsBuffer,
    TcMessageBuffer, TcMirrorBuffer, TcNatBuffer, TcStatsBasicBuffer, TcStatsBuffer,
    TcStatsQueueBuffer, TcTunnelKeyBuffer, TcU32KeyBuffer, TcU32SelectorBuffer, TcfBuffer,
};

// Attributes as they are in bytes, lists of them, and plain values.
pub use nla_frames::{
    DefaultNla, NLA_F_NESTED, NLA_F_NET_BYTEORDER, NLA_HEADER_SIZE, NLA_TYPE_MASK, NlaBuffer,
    NlasIterator, emit_list, emit_u16, emit_u16_be, emit_u32, emit_u32_be, list_fits, list_len,
    parse_frames_with, parse_ipv4_addr, parse_ipv6_addr, parse_list, parse_list_with, parse_mac,
    parse_string, parse_u8, parse_u16, parse_u16_be, parse_u32, parse_u32_be, put_list,
};

// Checks of the canonical form of one list.
pub use tc_canon::{
    canon_action, canon_action_options, canon_actions, canon_lse, canon_mpls, canon_options,
    canon_stats2,
};
