//! Values of Linux traffic control as text, written and parsed: addresses, handles and bytes in hex. `tcm_info` of a
//! filter, from a priority and a protocol, and escaping for terminals.
//!
//! Addresses and handles are texts of fixed capacity and don't allocate. Parsers accept exactly the texts that are
//! written. Only `handle_from_tc_text` accepts all that `tc` does.
#![tactic(auto)]

pub mod address;
mod digits;
pub mod escape;
pub mod handle;
pub mod hex_number;
pub mod hex_text;
pub mod info;
pub mod laws;

pub use address::{
    IPV4_TEXT_LEN, IPV6_TEXT_LEN, MAC_TEXT_LEN, ipv4_text, ipv6_text, mac_text, read_ipv4,
    read_ipv6, read_mac,
};
pub use arrayvec::ArrayString;
pub use digits::hex_digit;
pub use escape::{is_printable, put_escaped_byte};
pub use handle::{HANDLE_TEXT_LEN, handle_from_tc_text, handle_text, read_handle};
pub use hex_number::put_hex_number;
pub use hex_text::{HexText, hex_string, read_hex};
pub use info::{filter_info, info_priority, info_protocol};
