//! Handles, as 32-bit numbers: major number in the upper half, minor number in the lower.

ghost use Rattle.std.specs.Prelude.{◌≡◌, ◌+◌, ◌≤◌, ◌++◌};
ghost use Rattle.arrayvec.specs.ArrayString.{array_string_len};
ghost use Rattle.tc_texts.specs.Handle.{half_text, half_of, numbers_of, handle_text, handle_of};
ghost use Rattle.tc_texts.specs.Reading.{ReadsHandle};

use crate::digits::{is_same, push_hex};
use arrayvec::ArrayString;

/// The length of the longest handle as text.
pub const HANDLE_TEXT_LEN: usize = 9;

/// `TC_H_ROOT`: the parent of a root qdisc.
const ROOT: u32 = 0xFFFF_FFFF;

/// `TC_H_INGRESS` and `TC_H_CLSACT`: the parent of an ingress or clsact qdisc.
const INGRESS: u32 = 0xFFFF_FFF1;

/// A handle as `tc` writes it: `1:10`, `8001:` if the minor number is 0, `:10` if the major is, `root`, `ffff:fff1`.
/// The handle 0 is `0:0`.
pub fn handle_text(handle: u32) -> ArrayString<HANDLE_TEXT_LEN>
    ensures { result.bytes ≡ handle_text handle }
{
    let mut text = ArrayString::new();
    if handle == 0 {
        text.push_str("0:0");
    } else if handle == ROOT {
        text.push_str("root");
    } else {
        push_half(&mut text, (handle / 0x10000) as u16);
        text.push_str(":");
        push_half(&mut text, (handle % 0x10000) as u16);
    }
    text
}

/// Appends half of a handle in hex, or nothing for 0.
fn push_half<const N: usize>(text: &mut ArrayString<N>, half: u16)
    requires { array_string_len text.old + 4 ≤ N }
    ensures bytes { text.new.bytes ≡ text.old.bytes ++ half_text half }
    ensures len { array_string_len text.new ≤ array_string_len text.old + 4 }
{
    if half != 0 {
        push_hex(text, half);
    }
}

/// Parses a handle as `handle_text` writes it. `None` for any other text.
pub fn read_handle(text: &str) -> Option<u32>
    ensures { ReadsHandle text.now result }
{
    let handle = match handle_from_tc_text(text) {
        Some(handle) => handle,
        None => return None,
    };
    if is_same(handle_text(handle).as_str(), text) {
        Some(handle)
    } else {
        None
    }
}

/// Parses a handle as `tc` does: `1:10`, `1:`, `:10`, `root`, `none`, `ingress`, `clsact`, with hex digits in either
/// case. `None` for any other text, such as a number without a colon.
pub fn handle_from_tc_text(text: &str) -> Option<u32>
    ensures { result ≡ handle_of text.now }
{
    if is_same(text, "root") {
        Some(ROOT)
    } else if is_same(text, "ingress") {
        Some(INGRESS)
    } else if is_same(text, "clsact") {
        Some(INGRESS)
    } else if is_same(text, "none") {
        Some(0)
    } else {
        numbers(text)
    }
}

/// Parses major and minor number around a colon.
fn numbers(text: &str) -> Option<u32>
    ensures { result ≡ numbers_of text.now }
{
    let (before, after) = text.split_once(':')?;
    match (half(before), half(after)) {
        (Some(major), Some(minor)) => Some(major as u32 * 0x10000 + minor as u32),
        _ => None,
    }
}

/// Parses up to four hex digits. No digits are 0.
fn half(text: &str) -> Option<u16>
    ensures { result ≡ half_of text.now }
{
    let digits = text.as_bytes();
    if digits.len() > 4 {
        return None;
    }
    let mut number = 0u16;
    for c in digits {
        match char::from(*c).to_digit(16) {
            Some(digit) => number = number * 16 + digit as u16,
            None => return None,
        }
    }
    Some(number)
}
