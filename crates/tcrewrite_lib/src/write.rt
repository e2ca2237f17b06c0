//! Writing bytes.

ghost use Rattle.std.specs.Prelude.{◌≡◌, ◌≤◌, [], length, take, IfOk, OnOk, OnErr, List, ℕ};
ghost use Rattle.std.specs.Io.{WritesAtMost};
ghost use Rattle.std.specs.Io.KnownBytes.{Appends, Keeps, WriteAppends};
ghost use Rattle.tcrewrite_lib.specs.Written.{GrowsByFront};

use crate::retries::MOST_RETRIES;
use std::io::{Error, ErrorKind, Write};

/// Writes all bytes. If it fails, some of them may have been written. A write that is interrupted is tried again.
pub fn write_all<W: Write>(writer: &mut W, bytes: &[u8]) -> Result<(), Error>
    ensures front { (rest : List ℕ) × GrowsByFront (W.contents writer.old) (W.contents writer.new) bytes.now rest
        × OnOk result (rest ≡ []) }
{
    let mut rest = bytes;
    'parts: while !rest.is_empty() {
        let count = write_some(writer, rest)?;
        if count == 0 {
            return Err(Error::from(ErrorKind::WriteZero));
        }
        let (_, after) = rest.split_at(count);
        rest = after;
    }
    Ok(())
}

// Writes some of the bytes once, and returns their number.
fn write_some<W: Write>(writer: &mut W, bytes: &[u8]) -> Result<usize, Error>
    ensures inside { IfOk result (λ count. count ≤ length bytes.now) }
    ensures front { IfOk result (λ count. Appends (W.contents writer.old) (W.contents writer.new) (take count bytes.now)) }
    ensures none { OnErr result (Keeps (W.contents writer.old) (W.contents writer.new)) }
{
    match write_retrying(writer, bytes) {
        Ok(count) => Ok(count),
        Err(error) => Err(error),
    }
}

/// Writes some of the bytes once, and returns their number. A write that is interrupted is tried again, up to 1,024 times.
/// One that writes nothing fails with `WriteZero`.
pub(crate) fn write_retrying<W: Write>(writer: &mut W, bytes: &[u8]) -> Result<usize, Error>
    ensures bound { WritesAtMost result bytes.now }
    ensures bytes { WriteAppends (W.contents writer.old) (W.contents writer.new) result bytes.now }
{
    'tries: for _ in 0..MOST_RETRIES {
        match writer.write(bytes) {
            Ok(count) => {
                if count == 0 && !bytes.is_empty() {
                    return Err(Error::from(ErrorKind::WriteZero));
                }
                return Ok(count);
            }
            Err(error) => {
                if error.kind() != ErrorKind::Interrupted {
                    return Err(error);
                }
            }
        }
    }
    Err(Error::from(ErrorKind::TimedOut))
}

/// Writes an error message, if that is possible, and returns the exit status.
pub fn fail_with<W: Write>(errors: &mut W, text: &str, status: u8) -> u8
    ensures { result ≡ status }
{
    let _ = write_all(errors, text.as_bytes());
    status
}
