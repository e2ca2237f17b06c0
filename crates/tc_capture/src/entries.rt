//! Lists of entries: the options of a pcapng block, and netlink attributes.

ghost use Rattle.std.specs.Prelude.{◌≡◌, ◌≤◌, length, option_map};
ghost use Rattle.tc_capture.specs.Entries.{type_at, value_len, entry_end, entry_value, after_entry, entry_in};

use crate::order::Order;

/// The format of a list of entries, each with a type, a length, a value, and padding up to a multiple of four bytes.
#[derive(Clone, Copy, PartialEq, Eq, Debug)]
pub enum Entries {
    /// The options of a pcapng block: the type and the length of the value, two bytes each in this byte order, and the
    /// value.
    Options(Order),

    /// Netlink attributes: the length of header and value and the type, two bytes each and little-endian, and the
    /// value.
    Attributes,
}

/// The value of the first entry of a type.
pub(crate) fn entry_in(entries: Entries, kind: u16, bytes: &[u8]) -> Option<&[u8]>
    ensures { option_map (λ value. value.now) result ≡ entry_in entries kind bytes.now }
{
    let mut rest = bytes;
    while rest.len() >= 4 {
        let found = type_at(entries, rest);
        if found == 0 {
            return None;
        }
        if rest.len() < entry_end(entries, rest) {
            return None;
        }
        if found == kind {
            return Some(entry_value(entries, rest));
        }
        rest = after_entry(entries, rest);
    }
    None
}

// The type of the entry at the front.
fn type_at(entries: Entries, bytes: &[u8]) -> u16
    requires { 4 ≤ length bytes.now }
    ensures { result ≡ type_at entries bytes.now }
{
    match entries {
        Entries::Options(order) => order.u16_at(bytes, 0),
        Entries::Attributes => Order::Little.u16_at(bytes, 2),
    }
}

// The length of its value in bytes.
fn value_len(entries: Entries, bytes: &[u8]) -> usize
    requires { 4 ≤ length bytes.now }
    ensures exact { result ≡ value_len entries bytes.now }
    ensures below { result ≤ 65535 }
{
    match entries {
        Entries::Options(order) => order.u16_at(bytes, 2) as usize,
        Entries::Attributes => (Order::Little.u16_at(bytes, 0) as usize).saturating_sub(4),
    }
}

// Its length in bytes, without padding.
fn entry_end(entries: Entries, bytes: &[u8]) -> usize
    requires { 4 ≤ length bytes.now }
    ensures { result ≡ entry_end entries bytes.now }
{
    4 + value_len(entries, bytes)
}

fn entry_value(entries: Entries, bytes: &[u8]) -> &[u8]
    requires header { 4 ≤ length bytes.now }
    requires whole { entry_end entries bytes.now ≤ length bytes.now }
    ensures { result.now ≡ entry_value entries bytes.now }
{
    let (entry, _) = bytes.split_at(entry_end(entries, bytes));
    let (_, value) = entry.split_at(4);
    value
}

// The bytes after the entry at the front and its padding.
fn after_entry(entries: Entries, bytes: &[u8]) -> &[u8]
    requires header { 4 ≤ length bytes.now }
    requires whole { entry_end entries bytes.now ≤ length bytes.now }
    ensures { result.now ≡ after_entry entries bytes.now }
{
    let end = entry_end(entries, bytes);
    let (_, after) = bytes.split_at(end);
    let (_, rest) = after.split_at(after.len().min((4 - end % 4) % 4));
    rest
}
