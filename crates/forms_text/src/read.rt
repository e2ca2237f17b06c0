//! Reading text as JSON in which no object has a name twice.

ghost use Rattle.std.specs.Prelude.{◌≡◌, Some, None, IfOk, IfErr, OnOk, IsUtf8};
ghost use Rattle.serde_json.specs.Errors.{IsMemory};
ghost use Rattle.serde_json.specs.Read.{read};
ghost use Rattle.serde_json.specs.View.{view};
ghost use Rattle.forms_text.specs.Read.{HasNamesOnce, IsCause, is_too_deep};

use crate::error::ReadError;
use crate::repeated::repeated;
use json::{Reader, Scratch, Token};
use serde_json::{Error, Value};
use std::alloc::{AllocError, Global};
use std::str;

/// Reads a text as JSON. If an object has a name twice, this fails. `Value::from_slice` of `serde_json` keeps the last of the values.
pub fn read_json(alloc: Global, text: &[u8]) -> Result<Value, ReadError>
    ensures utf8 { OnOk result (IsUtf8 text.now) }
    ensures read { IfOk result (λ json. read text.now ≡ Some (view json)) }
    ensures once { OnOk result (HasNamesOnce text.now) }
    ensures refused { IfErr result (IsCause text.now) }
{
    match str::from_utf8(text) {
        Ok(text) => read_text(alloc, text),
        Err(e) => {
            let (line, column) = place(text, e.valid_up_to());
            Err(ReadError::NotJson { line, column })
        }
    }
}

fn read_text(alloc: Global, text: &str) -> Result<Value, ReadError>
    ensures read { IfOk result (λ json. read text.now ≡ Some (view json)) }
    ensures once { OnOk result (HasNamesOnce text.now) }
    ensures refused { IfErr result (IsCause text.now) }
{
    let value = match Value::from_str(alloc, text) {
        Ok(value) => value,
        Err(e) => return Err(fault(alloc, text, &e)),
    };
    match json::Value::parse_strict(alloc, text, &mut Scratch::new(alloc)) {
        Ok(_) => Ok(value),
        Err(json::Error::DuplicateKey) => match repeated(alloc, text) {
            Ok(path) => Err(ReadError::Repeated { path }),
            Err(_) => Err(ReadError::OutOfMemory),
        },
        // `json` reads all that `serde_json` reads.
        Err(json::Error::Invalid) => unreachable!(),
        Err(json::Error::OutOfMemory | json::Error::TooLong) => Err(ReadError::OutOfMemory),
    }
}

// The line of a byte, and its place in the line, both counted from 1.
fn place(text: &[u8], offset: usize) -> (usize, usize) {
    let mut line = 1usize;
    let mut column = 1usize;
    for byte in text.iter().take(offset) {
        if *byte == b'\n' {
            line = line.saturating_add(1);
            column = 1;
        } else {
            column = column.saturating_add(1);
        }
    }
    (line, column)
}

// Why `serde_json` can't read a text.
fn fault(alloc: Global, text: &str, e: &Error) -> ReadError
    requires { ¬ IsMemory e.now → read text.now ≡ None }
    ensures { IsCause text.now result }
{
    if e.is_memory() {
        return ReadError::OutOfMemory;
    }
    let (line, column) = (e.line(), e.column());
    match is_too_deep(alloc, text) {
        Ok(true) => ReadError::TooDeep { line, column },
        Ok(false) => ReadError::NotJson { line, column },
        Err(_) => ReadError::OutOfMemory,
    }
}

// The greatest number of open lists and objects.
const MAX_DEPTH: usize = 127;

// True if more are open somewhere.
fn is_too_deep(alloc: Global, text: &str) -> Result<bool, AllocError>
    ensures { IfOk result (λ b. b ≡ is_too_deep text.now) }
{
    let mut scratch = Scratch::new(alloc);
    let mut reader = Reader::new(text, &mut scratch)?;
    let mut open = 0usize;
    'tokens: while let Some(token) = reader.next() {
        match token {
            Token::BeginObject | Token::BeginArray => {
                if open >= MAX_DEPTH {
                    return Ok(true);
                }
                open += 1;
            }
            Token::EndObject | Token::EndArray => open = open.saturating_sub(1),
            _ => (),
        }
    }
    Ok(false)
}
