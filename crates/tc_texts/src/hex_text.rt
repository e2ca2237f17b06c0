//! Bytes as hex.

ghost use Rattle.std.specs.Prelude.{◌≡◌, Some, IfOk, MatchOption};
ghost use Rattle.std.specs.String.{string_bytes};
ghost use Rattle.tc_texts.specs.Hex.{hex_text, has_capital};
ghost use Rattle.tc_texts.specs.Reading.{IsNoHex};

use crate::digits::octet_text;
use hex::FromHexError;
use std::alloc::{AllocError, Allocator};
use std::fmt;

/// Displays bytes in hex: two lower-case digits each, without separators.
#[derive(Clone, Copy)]
pub struct HexText<'a>(pub &'a [u8]);

impl fmt::Display for HexText<'_> {
    ghost output = { λ h. Some (hex_text h.0.now) };

    fn fmt<W: fmt::Write>(&self, f: &mut fmt::Formatter<W>) -> fmt::Result {
        for octet in self.0 {
            f.write_str(octet_text(*octet).as_str())?;
        }
        Ok(())
    }
}

/// Bytes in hex, as a string. Fails only if the allocator does.
pub fn hex_string<A: Allocator>(alloc: A, bytes: &[u8]) -> Result<String<A>, AllocError>
    ensures { IfOk result (λ text. string_bytes text ≡ hex_text bytes.now) }
{
    hex::encode(alloc, bytes)
}

/// Parses bytes in hex as `hex_string` writes them: two lower-case digits each. `None` for any other text. Fails only
/// if the allocator does.
pub fn read_hex<A: Allocator>(alloc: A, text: &str) -> Result<Option<Vec<u8, A>>, AllocError>
    ensures { IfOk result (λ r. MatchOption r (IsNoHex text.now) (λ bytes. text.now ≡ hex_text bytes.items)) }
{
    if has_capital(text) {
        return Ok(None);
    }
    match hex::decode(alloc, text) {
        Ok(bytes) => Ok(Some(bytes)),
        Err(FromHexError::OutOfMemory) => Err(AllocError),
        Err(FromHexError::OddLength) => Ok(None),
        Err(FromHexError::InvalidStringLength) => Ok(None),
        Err(FromHexError::InvalidHexCharacter { .. }) => Ok(None),
    }
}

/// True if a text has one of the capital letters `A` to `F`.
fn has_capital(text: &str) -> bool
    ensures { result ≡ has_capital text.now }
{
    text.as_bytes().iter().any(|c| *c >= b'A' && *c <= b'F')
}
