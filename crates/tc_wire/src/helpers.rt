//! Building blocks of the codec, for code that defines attributes of its own. netlink-packet-route has none of these names.

// The abstract value of a type and its codec, which the traits of attributes build on.
pub use nla_frames::{BytesMeaning, FrameMeaning};

// Lists: length, the test for settled, capacity.
pub use nla_frames::{
    first_capacity, list_checked_len, list_settled_carrying, list_settled_own, list_settled_under,
    nested_checked_len, nested_fits,
};

// The kind that attributes set for those after them.
pub use nla_frames::{OnlyKind, SetsKind, kind_then, only_kind_set};
pub use tc_values::kind_set_by_frame;

// Plain values: bytes, and writing at the front of a buffer.
pub use nla_frames::{
    NLA_VALUE_MAX_SIZE, checked_value_len, i32_bytes, put_bytes, put_text, put_u8, put_u16,
    put_u16_be, put_u32, put_u32_be, put_u64, strip_nul, u16_be_bytes, u16_bytes, u32_be_bytes,
    u32_bytes, u64_bytes,
};

// Rows of an enum of attributes: `nla_type` and value, plain or nested.
pub use tc_values::{Body, Either, Items, NoBody, Record, Value};

// Lengths of the fixed records, in bytes.
pub use tc_records::{
    TC_ACTION_GENERIC_LEN, TC_FQ_CODEL_CL_STATS_LEN, TC_FQ_CODEL_QD_STATS_LEN, TC_HEADER_LEN,
    TC_MIRROR_LEN, TC_NAT_LEN, TC_STATS_BASIC_LEN, TC_STATS_LEN, TC_STATS_QUEUE_LEN,
    TC_TUNNEL_KEY_LEN, TC_U32_KEY_LEN, TC_U32_SELECTOR_LEN, TCA_HEADER_LEN, TCF_LEN,
};
