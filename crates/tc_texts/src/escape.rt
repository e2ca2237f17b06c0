//! Escaping text for a terminal.

ghost use Rattle.std.specs.Prelude.{◌≡◌, ◌++◌, if◌then◌else◌, is_ok};
ghost use Rattle.tc_texts.specs.Escape.{escaped_byte, is_printable};

use crate::digits::hex_digit;
use std::alloc::{AllocError, Allocator};

/// True for printable ASCII, which every terminal shows unchanged.
pub fn is_printable(byte: u8) -> bool
    ensures { result ≡ is_printable byte }
{
    0x20 <= byte && byte <= 0x7e
}

/// Appends a byte, as `\x1b` if it isn't printable ASCII. If the allocator fails, the vector is unchanged.
pub fn put_escaped_byte<A: Allocator>(out: &mut Vec<u8, A>, byte: u8) -> Result<(), AllocError>
    ensures { out.new.items ≡ (if is_ok result then out.old.items ++ escaped_byte byte else out.old.items) }
{
    if is_printable(byte) {
        return out.extend_from_slice(&[byte]);
    }
    out.extend_from_slice(&[b'\\', b'x', hex_digit(byte / 16), hex_digit(byte % 16)])
}
