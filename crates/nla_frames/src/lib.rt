//! Netlink attributes as frames: reading and writing of frames, of lists of frames, and of the plain values in them.
//! Calls that take an allocator fail with `OutOfMemory` if it fails.
#![tactic(auto)]

pub mod buffer;
pub mod default_nla;
pub mod error;
pub mod family;
pub mod iterator;
pub mod laws;
pub mod lists;
pub mod meaning;
pub mod nla;
pub mod only_kind;
pub mod parse;
pub mod settle;
pub mod values;

pub use buffer::NlaBuffer;
pub use default_nla::DefaultNla;
pub use error::{DecodeError, Res};
pub use family::AddressFamily;
pub use iterator::NlasIterator;
pub use lists::read::{
    FrameReader, first_capacity, parse_frames_with, parse_list, parse_list_by, parse_list_with,
};
pub use lists::write::{
    emit_list, list_checked_len, list_fits, list_len, nested_checked_len, nested_fits, put_list,
};
pub use meaning::{BytesMeaning, CanonMeaning, FrameMeaning};
pub use nla::{
    NLA_F_NESTED, NLA_F_NET_BYTEORDER, NLA_HEADER_SIZE, NLA_TYPE_MASK, NLA_VALUE_MAX_SIZE, Nla,
};
pub use only_kind::{OnlyKind, SetsKind, kind_then, only_kind_set};
pub use parse::{Emitable, Parseable, ParseableBytes, ParseableParametrized};
pub use settle::{
    Settle, SettleBytes, list_settled_carrying, list_settled_own, list_settled_under,
};
pub use values::bytes::{i32_bytes, u16_be_bytes, u16_bytes, u32_be_bytes, u32_bytes, u64_bytes};
pub use values::read::{
    parse_ipv4_addr, parse_ipv6_addr, parse_mac, parse_string, parse_u8, parse_u16, parse_u16_be,
    parse_u32, parse_u32_be, strip_nul,
};
pub use values::write::{
    checked_value_len, emit_u16, emit_u16_be, emit_u32, emit_u32_be, put_bytes, put_text, put_u8,
    put_u16, put_u16_be, put_u32, put_u32_be, put_u64,
};
