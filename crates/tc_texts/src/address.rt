//! MAC, IPv4 and IPv6 addresses.

ghost use Rattle.std.specs.Prelude.{◌≡◌, ◌+◌, ◌*◌, ◌≤◌, ◌++◌, length};
ghost use Rattle.std.specs.Net.Text.{groups_text, longest_zero_run};
ghost use Rattle.arrayvec.specs.ArrayString.{array_string_len};
ghost use Rattle.tc_texts.specs.Addresses.{mac_text, ipv4_text, ipv6_text};
ghost use Rattle.tc_texts.specs.Reading.{ReadsBack};

use crate::digits::{is_same, push_decimal, push_hex, push_octet};
use arrayvec::ArrayString;
use hex::FromHex;
use std::net::{Ipv4Addr, Ipv6Addr};

/// The length of a MAC address as text.
pub const MAC_TEXT_LEN: usize = 17;

/// The length of the longest IPv4 address as text.
pub const IPV4_TEXT_LEN: usize = 15;

/// The length of the longest IPv6 address as text.
pub const IPV6_TEXT_LEN: usize = 39;

/// A MAC address as `ip` writes it: `02:00:5e:10:00:01`.
pub fn mac_text(octets: [u8; 6]) -> ArrayString<MAC_TEXT_LEN>
    ensures { result.bytes ≡ mac_text octets }
{
    let mut text = ArrayString::new();
    let [a, b, c, d, e, f] = octets;
    push_octet(&mut text, a);
    text.push_str(":");
    push_octet(&mut text, b);
    text.push_str(":");
    push_octet(&mut text, c);
    text.push_str(":");
    push_octet(&mut text, d);
    text.push_str(":");
    push_octet(&mut text, e);
    text.push_str(":");
    push_octet(&mut text, f);
    text
}

/// An IPv4 address from its octets, most significant first: `192.0.2.1`.
pub fn ipv4_text(octets: [u8; 4]) -> ArrayString<IPV4_TEXT_LEN>
    ensures { result.bytes ≡ ipv4_text octets }
{
    let mut text = ArrayString::new();
    push_ipv4(&mut text, octets);
    text
}

/// Appends an IPv4 address.
fn push_ipv4<const N: usize>(text: &mut ArrayString<N>, octets: [u8; 4])
    requires { array_string_len text.old + 15 ≤ N }
    ensures { text.new.bytes ≡ text.old.bytes ++ ipv4_text octets }
{
    let [a, b, c, d] = octets;
    push_decimal(text, a);
    text.push_str(".");
    push_decimal(text, b);
    text.push_str(".");
    push_decimal(text, c);
    text.push_str(".");
    push_decimal(text, d);
}

/// An IPv6 address from its octets, most significant first, as `ip` and glibc's `inet_ntop` write it: `2001:db8::1`,
/// `::ffff:192.0.2.1`, `::192.0.2.1`.
pub fn ipv6_text(octets: [u8; 16]) -> ArrayString<IPV6_TEXT_LEN>
    ensures { result.bytes ≡ ipv6_text octets }
{
    let mut text = ArrayString::new();
    let address = Ipv6Addr::from_octets(octets);
    let segments = address.segments();
    if let Some(ipv4) = address.to_ipv4_mapped() {
        text.push_str("::ffff:");
        push_ipv4(&mut text, ipv4.octets());
        return text;
    }
    if segments[6] > 0 {
        if let Some(ipv4) = address.to_ipv4() {
            text.push_str("::");
            push_ipv4(&mut text, ipv4.octets());
            return text;
        }
    }
    let (start, len) = longest_zero_run(&segments);
    if len > 1 {
        push_groups(&mut text, &segments[..start]);
        text.push_str("::");
        push_groups(&mut text, &segments[start + len..]);
    } else {
        push_groups(&mut text, &segments);
    }
    text
}

/// Start and length of the longest run of zeros, or of the first of several equally long ones.
fn longest_zero_run(segments: &[u16]) -> (usize, usize)
    ensures value { result ≡ longest_zero_run segments.now }
    ensures within { result.0 + result.1 ≤ length segments.now }
{
    let mut start = segments.len();
    let mut len = 0;
    let mut run = 0;
    for i in (0..segments.len()).rev() {
        run = if segments[i] == 0 { run + 1 } else { 0 };
        if run >= len {
            start = i;
            len = run;
        }
    }
    (start, len)
}

/// Appends groups with colons between them.
fn push_groups<const N: usize>(text: &mut ArrayString<N>, groups: &[u16])
    requires { array_string_len text.old + 5 * length groups.now ≤ N + 1 }
    ensures bytes { text.new.bytes ≡ text.old.bytes ++ groups_text groups.now }
    ensures len { array_string_len text.new ≤ array_string_len text.old + 5 * length groups.now }
{
    if let [first, rest @ ..] = groups {
        push_hex(text, *first);
        for group in rest {
            text.push_str(":");
            push_hex(text, *group);
        }
    }
}

/// Parses a MAC address as `mac_text` writes it. `None` for any other text.
pub fn read_mac(text: &str) -> Option<[u8; 6]>
    ensures { ReadsBack mac_text 6 text.now result }
{
    let [a, b, _, c, d, _, e, f, _, g, h, _, i, j, _, k, l] = text.as_bytes() else {
        return None;
    };
    let digits = [*a, *b, *c, *d, *e, *f, *g, *h, *i, *j, *k, *l];
    let octets = match <[u8; 6]>::from_hex(&digits[..]) {
        Ok(octets) => octets,
        Err(_) => return None,
    };
    if is_same(mac_text(octets).as_str(), text) {
        Some(octets)
    } else {
        None
    }
}

/// Parses an IPv4 address as `ipv4_text` writes it, most significant octet first. `None` for any other text.
pub fn read_ipv4(text: &str) -> Option<[u8; 4]>
    ensures { ReadsBack ipv4_text 4 text.now result }
{
    match Ipv4Addr::parse_ascii(text.as_bytes()) {
        Ok(address) => Some(address.octets()),
        Err(_) => None,
    }
}

/// Parses an IPv6 address as `ipv6_text` writes it, most significant octet first. `None` for any other text.
pub fn read_ipv6(text: &str) -> Option<[u8; 16]>
    ensures { ReadsBack ipv6_text 16 text.now result }
{
    let octets = match Ipv6Addr::parse_ascii(text.as_bytes()) {
        Ok(address) => address.octets(),
        Err(_) => return None,
    };
    if is_same(ipv6_text(octets).as_str(), text) {
        Some(octets)
    } else {
        None
    }
}
