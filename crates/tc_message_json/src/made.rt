//! The bytes of messages in JSON.

ghost use Rattle.std.specs.Prelude.{◌≡◌, ℕ, List, IfOk, MatchResult};
ghost use Rattle.nla_frames.specs.Value.{IsBytes};
ghost use Rattle.serde_json.specs.View.{view};
ghost use Rattle.forms_text.specs.Strict.{json_of};
ghost use Rattle.forms_kinds.specs.Table.{tc_tables};
ghost use Rattle.tc_message_json.specs.Made.{IsMadeOf, IsGiven, IsMemory, IsWrittenOf};

use crate::error::NoMessage;
use crate::message::HasForm;
use forms_json::Form;
use forms_kinds::TcTables;
use forms_text::{Difference, differences, made_strictly, shown_json};
use serde_json::Value;
use std::alloc::{AllocError, Global};
use tc_faults::locate;
use tc_wire::{DecodeError, WholeMessage};

/// The bytes whose JSON this is.
pub fn make_as_given<M: HasForm>(alloc: Global, json: &Value) -> Result<Vec<u8>, NoMessage>
    ensures given { IfOk result (λ bytes. IsGiven M.form (view json.now) bytes.items) }
    // If there are such bytes, they are made unless memory runs out.
    ensures found { (bytes : List ℕ) → IsBytes bytes → json_of tc_tables M.form bytes ≡ view json.now
        → MatchResult result (λ made. made.items ≡ bytes) IsMemory }
{
    match made_strictly(alloc, TcTables, M::form(), json) {
        Ok(bytes) => Ok(bytes),
        Err(e) => Err(NoMessage::of_strict(e)),
    }
}

/// The canonical bytes of the message in JSON: its bytes are read as a message, which is emitted. So a flag of `nla_type` that isn't
/// the type's own, padding other than zeros, bytes after a record and a kind without its NUL are dropped. Fails if a value would
/// change.
pub fn make<M: WholeMessage<Global> + HasForm + Drop>(
    alloc: Global,
    json: &Value,
) -> Result<Vec<u8>, NoMessage>
    ensures made { IfOk result (λ bytes. IsMadeOf M.words M.form (view json.now) bytes.items) }
    ensures canonical { IfOk result (λ bytes. M.words.Canonical bytes.items) }
    // The JSON of canonical bytes leads back to them, unless memory runs out.
    ensures found { (bytes : List ℕ) → IsBytes bytes → M.words.Canonical bytes → json_of tc_tables M.form bytes ≡ view json.now
        → MatchResult result (λ made. made.items ≡ bytes) IsMemory }
{
    let given = match make_as_given::<M>(alloc, json) {
        Ok(given) => given,
        Err(e) => return Err(e),
    };
    let bytes = match written_of::<M>(alloc, &given) {
        Ok(bytes) => bytes,
        Err(e) => return Err(e),
    };
    if bytes.as_slice() == given.as_slice() {
        return Ok(bytes);
    }
    match first_change(alloc, M::form(), &given, &bytes) {
        Ok(Some(difference)) => Err(NoMessage::Changed(difference)),
        Ok(None) => Ok(bytes),
        Err(_) => Err(NoMessage::OutOfMemory),
    }
}

// The bytes of the message that is read from bytes, if it is settled.
fn written_of<M: WholeMessage<Global> + HasForm + Drop>(
    alloc: Global,
    given: &[u8],
) -> Result<Vec<u8>, NoMessage>
    ensures written { IfOk result (λ bytes. IsWrittenOf M.words given.now bytes.items) }
    ensures canonical { IfOk result (λ bytes. M.words.Canonical bytes.items) }
    ensures found { M.words.Canonical given.now → MatchResult result (λ bytes. bytes.items ≡ given.now) IsMemory }
{
    // A law, which does nothing: the bytes of a settled message that fits are canonical.
    M::correspond(given);
    match M::read(alloc, given) {
        Ok(message) => {
            let Some(len) = message.measure() else {
                return Err(NoMessage::DoesNotFit);
            };
            if !message.is_settled() {
                return Err(changed::<M>(alloc, given));
            }
            let mut bytes = vec![in alloc; 0u8; len]?;
            message.write(&mut bytes);
            Ok(bytes)
        }
        Err(DecodeError::OutOfMemory) => Err(NoMessage::OutOfMemory),
        Err(fault) => Err(refused::<M>(alloc, given, fault)),
    }
}

// The error for bytes that can't be read.
fn refused<M: HasForm>(alloc: Global, given: &[u8], fault: DecodeError) -> NoMessage {
    match place_of::<M>(alloc, given) {
        Ok(path) => NoMessage::Refused { path, fault },
        Err(_) => NoMessage::OutOfMemory,
    }
}

// The place of the first fault of bytes.
fn place_of<M: HasForm>(alloc: Global, given: &[u8]) -> Result<String, AllocError> {
    let mut path = String::new(alloc);
    if let Some(fault) = locate(given, M::what()) {
        fault.path.put(&mut path)?;
    }
    Ok(path)
}

// The error for bytes whose message isn't settled.
fn changed<M: WholeMessage<Global> + HasForm>(alloc: Global, given: &[u8]) -> NoMessage {
    let Ok((settled, _)) = M::settle(alloc, given) else {
        return NoMessage::OutOfMemory;
    };
    match first_change(alloc, M::form(), given, &settled) {
        Ok(Some(difference)) => NoMessage::Changed(difference),
        Ok(None) => NoMessage::DoesNotFit,
        Err(_) => NoMessage::OutOfMemory,
    }
}

// The first place where a value differs. Members next to a value aren't part of the typed message.
fn first_change(
    alloc: Global,
    form: Form,
    given: &[u8],
    other: &[u8],
) -> Result<Option<Difference>, AllocError> {
    let found = shown_json(alloc, TcTables, form, given)?;
    let wanted = shown_json(alloc, TcTables, form, other)?;
    let mut all = differences(alloc, &found, &wanted)?.into_iter();
    Ok(all.find(|difference| !is_next_to_a_value(difference.path.as_str())))
}

// True for the place of an `nla_type`, of padding, of bytes after a record, and of the mark of a kind without its NUL.
fn is_next_to_a_value(path: &str) -> bool {
    path.ends_with("/word")
        || path.ends_with("/pad")
        || path.ends_with("/rest")
        || path.ends_with("/bare")
}
