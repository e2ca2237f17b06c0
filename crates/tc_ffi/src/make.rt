//! Messages from JSON.

ghost use Rattle.std.specs.Prelude.{◌≡◌, ◌≢◌, ◌<◌, ◌≤◌, ◌⊎◌, IfErr, IfOk, IsCharBoundary, IsUtf8, None, OnOk, length, take, ℕ};
ghost use Rattle.nla_frames.specs.Value.{IsBytes};
ghost use Rattle.serde_json.specs.Read.{read};
ghost use Rattle.serde_json.specs.View.{view};
ghost use Rattle.tc_message_json.specs.Made.{IsGiven, IsMadeOf, IsMemory};
ghost use Rattle.tc_ffi.specs.Calls.{Keeps, KeepsNumber};
ghost use Rattle.tc_ffi.specs.Makes.{HasNameTwice, IsCanonical, IsReadAs, IsText, Makes, MakesAgain};

use crate::place::place;
use forms_text::{ReadError, read_json};
use serde_json::Value;
use std::alloc::Global;
use std::fmt::Display;
use tc_message_json::{HasForm, NoMessage};
use tc_status::{NO_MESSAGE, NOT_JSON, OUT_OF_MEMORY};
use tc_wire::WholeMessage;

/// Builds a message from a JSON text, and writes its bytes at the front of the buffer if they fit, and their number, or the reason
/// why there are none.
pub fn make<M: WholeMessage<Global> + HasForm + Drop>(
    alloc: Global,
    text: &[u8],
    buffer: &mut [u8],
    length: &mut usize,
    why: &mut [u8],
    why_length: &mut usize,
) -> u32
    ensures makes { Makes M.form (IsCanonical M.words) (IsMadeOf M.words M.form) text.now buffer.old buffer.new length.new result }
    ensures again { MakesAgain M.form (IsCanonical M.words) text.now buffer.old buffer.new length.new result }
    ensures kept { Keeps buffer.old buffer.new result }
    ensures len_kept { KeepsNumber length.old length.new result }
    ensures explains { IsText why.old why.new why_length.new }
    ensures quiet { result ≢ 15 → result ≢ 16 → why_length.new ≡ 0 }
{
    match json_of(alloc, text, why, why_length) {
        Ok(json) => match tc_message_json::make::<M>(alloc, &json) {
            Ok(bytes) => place(&bytes, buffer, length),
            Err(error) => explain_none(alloc, &error, why, why_length),
        },
        Err(status) => status,
    }
}

/// Builds bytes from a JSON text without checking them. Otherwise like `make`.
pub fn make_as_given<M: HasForm>(
    alloc: Global,
    text: &[u8],
    buffer: &mut [u8],
    length: &mut usize,
    why: &mut [u8],
    why_length: &mut usize,
) -> u32
    ensures makes { Makes M.form IsBytes (IsGiven M.form) text.now buffer.old buffer.new length.new result }
    ensures again { MakesAgain M.form IsBytes text.now buffer.old buffer.new length.new result }
    ensures kept { Keeps buffer.old buffer.new result }
    ensures len_kept { KeepsNumber length.old length.new result }
    ensures explains { IsText why.old why.new why_length.new }
    ensures quiet { result ≢ 15 → result ≢ 16 → why_length.new ≡ 0 }
{
    match json_of(alloc, text, why, why_length) {
        Ok(json) => match tc_message_json::make_as_given::<M>(alloc, &json) {
            Ok(bytes) => place(&bytes, buffer, length),
            Err(error) => explain_none(alloc, &error, why, why_length),
        },
        Err(status) => status,
    }
}

// Reads a JSON text; or writes the reason why it can't be read, and returns the status.
fn json_of(alloc: Global, text: &[u8], why: &mut [u8], why_length: &mut usize) -> Result<Value, u32>
    ensures read { IfOk result (λ json. IsReadAs text.now (view json)) }
    ensures refused { IfErr result (λ status. ((status ≡ 15) × (IsUtf8 text.now → read text.now ≡ None))
        ⊎ (((status ≡ 16) × HasNameTwice text.now) ⊎ (status ≡ 11))) }
    ensures explains { IsText why.old why.new why_length.new }
    ensures quiet { OnOk result (why_length.new ≡ 0) }
    ensures quiet_memory { IfErr result (λ status. status ≢ 15 → status ≢ 16 → why_length.new ≡ 0) }
{
    *why_length = 0;
    match read_json(alloc, text) {
        Ok(json) => Ok(json),
        Err(ReadError::OutOfMemory) => Err(OUT_OF_MEMORY),
        Err(ReadError::Repeated { path }) => {
            let error = ReadError::Repeated { path };
            Err(explain(alloc, &error, NO_MESSAGE, why, why_length))
        }
        Err(error) => Err(explain(alloc, &error, NOT_JSON, why, why_length)),
    }
}

// Writes the reason why no message was built, and its length in bytes.
fn explain_none(alloc: Global, error: &NoMessage, why: &mut [u8], why_length: &mut usize) -> u32
    requires { why_length.old ≡ 0 }
    ensures status { ((result ≡ 16) × ¬ IsMemory error.now) ⊎ ((result ≡ 11) × (why_length.new ≡ 0)) }
    ensures explains { IsText why.old why.new why_length.new }
{
    match error {
        NoMessage::OutOfMemory => OUT_OF_MEMORY,
        _ => explain(alloc, error, NO_MESSAGE, why, why_length),
    }
}

/// Writes the text of an error into a buffer, cut if it is too long, and its length in bytes.
fn explain<E: Display>(
    alloc: Global,
    error: &E,
    status: u32,
    why: &mut [u8],
    why_length: &mut usize,
) -> u32
    ensures explains { IsText why.old why.new why_length.new }
    ensures status { (result ≡ status) ⊎ ((result ≡ 11) × (why_length.new ≡ 0)) }
{
    match format!(in alloc; "{error}") {
        Ok(text) => {
            *why_length = put_text(text.as_str(), why);
            status
        }
        Err(_) => {
            *why_length = 0;
            OUT_OF_MEMORY
        }
    }
}

/// Writes the characters of a text that fit into a buffer, and returns their length in bytes.
fn put_text(text: &str, buffer: &mut [u8]) -> usize
    ensures text { IsText buffer.old buffer.new result }
    ensures front { take result buffer.new ≡ take result text.now }
    ensures whole { length text.now ≤ length buffer.old → result ≡ length text.now }
    ensures most { (end : ℕ) → result < end → end ≤ length buffer.old → ¬ IsCharBoundary text.now end }
{
    let (front, _) = text.split_at(text.floor_char_boundary(buffer.len()));
    let (place, _) = buffer.split_at_mut(front.len());
    place.copy_from_slice(front.as_bytes());
    front.len()
}
