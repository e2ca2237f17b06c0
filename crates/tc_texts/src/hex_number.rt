//! Numbers in hex.

ghost use Rattle.std.specs.Prelude.{OnOk, ◌++◌, ◌≡◌};
ghost use Rattle.tc_texts.specs.Hex.{hex_in, hex_number};

use crate::digits::hex_digit;
use std::alloc::{AllocError, Allocator};

// Appends a number in hex, at most `left` digits.
fn put_hex_in<A: Allocator>(out: &mut Vec<u8, A>, left: u8, n: u64) -> Result<(), AllocError>
    ensures { OnOk result (out.new.items ≡ out.old.items ++ hex_in left n) }
{
    let after = match left.checked_sub(1) {
        Some(after) => after,
        None => return Ok(()),
    };
    if n < 16 {
        out.push(hex_digit(n as u8))?;
        return Ok(());
    }
    put_hex_in(out, after, n / 16)?;
    out.push(hex_digit((n % 16) as u8))?;
    Ok(())
}

/// Appends a number in lower-case hex, without leading zeros.
#[tactic(auto, unfolding(crate::specs::Hex::hex_number))]
pub fn put_hex_number<A: Allocator>(out: &mut Vec<u8, A>, n: u64) -> Result<(), AllocError>
    ensures { OnOk result (out.new.items ≡ out.old.items ++ hex_number n) }
{
    put_hex_in(out, 16, n)
}
