//! Every public name, named through `tc_wire`: where one leaves its place, this file isn't compiled. The lengths of the fixed records.

// Whole messages, and what is done to their bytes.
pub use tc_wire::{
    RewriteError, TcActionMessage, TcActionMessageAttribute, TcActionMessageFlagsWithSelector,
    TcMessage, is_canonical_action, is_canonical_tc, rewrite_action, rewrite_tc, settle_action,
    settle_tc,
};

// The traits by which they are read and written, and why bytes are refused.
pub use tc_wire::{
    DecodeError, Emitable, Nla, Parseable, ParseableBytes, ParseableParametrized, Res, Settle,
    SettleBytes,
};

// Attributes, and options by kind.
pub use tc_wire::{
    TcAttribute, TcFilterBpf, TcFilterBpfOption, TcFilterFlower, TcFilterFlowerMplsLseOption,
    TcFilterFlowerMplsOption, TcFilterFlowerOption, TcFilterMatchAll, TcFilterMatchAllOption,
    TcFilterU32, TcFilterU32Option, TcOption, TcQdiscFqCodel, TcQdiscFqCodelOption, TcQdiscIngress,
    TcQdiscIngressOption, VecTcAttribute, VecTcOption, is_known_kind,
};

// Actions and statistics.
pub use tc_wire::{
    TcAction, TcActionAttribute, TcActionMirror, TcActionMirrorOption, TcActionNat,
    TcActionNatOption, TcActionOption, TcActionTunnelKey, TcActionTunnelKeyOption, TcFqCodelXstats,
    TcStats2, TcXstats,
};

// Fixed records, named numbers and flag words.
pub use tc_wire::{
    AddressFamily, TcActionGeneric, TcActionMessageFlags, TcActionMessageHeader, TcActionType,
    TcBpfFlags, TcFqCodelClStats, TcFqCodelQdStats, TcHandle, TcHeader, TcMirror,
    TcMirrorActionType, TcNat, TcNatFlags, TcStats, TcStatsBasic, TcStatsQueue, TcTunnelKey,
    TcU32Key, TcU32OptionFlags, TcU32Selector, TcU32SelectorFlags, Tcf,
};

// Records as raw bytes.
pub use tc_wire::{
    TcActionGenericBuffer, TcActionMessageBuffer, TcFqCodelClStatsBuffer, TcFqCodelQdStatsBuffer,
    TcMessageBuffer, TcMirrorBuffer, TcNatBuffer, TcStatsBasicBuffer, TcStatsBuffer,
    TcStatsQueueBuffer, TcTunnelKeyBuffer, TcU32KeyBuffer, TcU32SelectorBuffer, TcfBuffer,
};

// Attributes as they are in bytes, lists of them, and plain values.
pub use tc_wire::{
    DefaultNla, NLA_F_NESTED, NLA_F_NET_BYTEORDER, NLA_HEADER_SIZE, NLA_TYPE_MASK, NlaBuffer,
    NlasIterator, emit_list, emit_u16, emit_u16_be, emit_u32, emit_u32_be, list_fits, list_len,
    parse_frames_with, parse_ipv4_addr, parse_ipv6_addr, parse_list, parse_list_with, parse_mac,
    parse_string, parse_u8, parse_u16, parse_u16_be, parse_u32, parse_u32_be, put_list,
};

// Checks of the canonical form of one list.
pub use tc_wire::{
    canon_action, canon_action_options, canon_actions, canon_lse, canon_mpls, canon_options,
    canon_stats2,
};

// What contracts see of a type, and how it is read and written, which the traits of attributes build on.
pub use tc_wire::helpers::{BytesMeaning, FrameMeaning};

// Lists: their lengths where they can be written, whether they are settled, and room for them.
pub use tc_wire::helpers::{
    first_capacity, list_checked_len, list_settled_carrying, list_settled_own, list_settled_under,
    nested_checked_len, nested_fits,
};

// The kind that attributes set for those after them.
pub use tc_wire::helpers::{OnlyKind, SetsKind, kind_set_by_frame, kind_then, only_kind_set};

// Plain values: their bytes, and how they are written at the front of a buffer.
pub use tc_wire::helpers::{
    NLA_VALUE_MAX_SIZE, checked_value_len, i32_bytes, put_bytes, put_text, put_u8, put_u16,
    put_u16_be, put_u32, put_u32_be, put_u64, strip_nul, u16_be_bytes, u16_bytes, u32_be_bytes,
    u32_bytes, u64_bytes,
};

// What an enum of attributes shows of each: its word and its value, plain or nested.
pub use tc_wire::helpers::{Body, Either, Items, NoBody, Record, Value};

// How many bytes each fixed record has.
pub use tc_wire::helpers::{
    TC_ACTION_GENERIC_LEN, TC_FQ_CODEL_CL_STATS_LEN, TC_FQ_CODEL_QD_STATS_LEN, TC_HEADER_LEN,
    TC_MIRROR_LEN, TC_NAT_LEN, TC_STATS_BASIC_LEN, TC_STATS_LEN, TC_STATS_QUEUE_LEN,
    TC_TUNNEL_KEY_LEN, TC_U32_KEY_LEN, TC_U32_SELECTOR_LEN, TCA_HEADER_LEN, TCF_LEN,
};

#[test]
fn names_flags_of_attributes(rt: HostRuntime) {
    assert!(rt; NLA_F_NESTED == 0x8000 && NLA_F_NET_BYTEORDER == 0x4000);
    assert!(rt; NLA_TYPE_MASK == 0x3fff && NLA_HEADER_SIZE == 4 && NLA_VALUE_MAX_SIZE == 65531);
}

#[test]
fn lengths(rt: HostRuntime) {
    assert!(rt; TC_HEADER_LEN == 20);
    assert!(rt; TCA_HEADER_LEN == 4);
    assert!(rt; TC_STATS_LEN == 40);
    assert!(rt; TC_STATS_BASIC_LEN == 16);
    assert!(rt; TC_STATS_QUEUE_LEN == 20);
    assert!(rt; TC_FQ_CODEL_QD_STATS_LEN == 36);
    assert!(rt; TC_FQ_CODEL_CL_STATS_LEN == 24);
    assert!(rt; TCF_LEN == 32);
    assert!(rt; TC_ACTION_GENERIC_LEN == 20);
    assert!(rt; TC_MIRROR_LEN == 28);
    assert!(rt; TC_NAT_LEN == 36);
    assert!(rt; TC_TUNNEL_KEY_LEN == 24);
    assert!(rt; TC_U32_KEY_LEN == 16);
    assert!(rt; TC_U32_SELECTOR_LEN == 16);
}
