//! Places in JSON, as JSON pointers, and JSON at such places, as errors show it.

use serde_json::Value;
use std::alloc::{AllocError, Global};

/// A step of a JSON pointer.
#[derive(Clone, Copy)]
pub enum Step<'v> {
    /// To the member of an object.
    Member(&'v str),
    /// To an item of a list.
    Item(usize),
}

/// The JSON pointer (RFC 6901) of these steps.
pub fn pointer(alloc: Global, steps: &[Step<'_>]) -> Result<String, AllocError> {
    let mut path = String::new(alloc);
    for step in steps {
        push_step(alloc, &mut path, *step)?;
    }
    Ok(path)
}

/// Appends a step to a JSON pointer.
pub fn push_step(alloc: Global, path: &mut String, step: Step<'_>) -> Result<(), AllocError> {
    path.push('/')?;
    match step {
        Step::Member(name) => push_escaped(path, name),
        Step::Item(index) => path.push_str(format!(in alloc; "{index}")?.as_str()),
    }
}

// Appends the name of a member as a pointer has it: `~0` for `~`, `~1` for `/`.
fn push_escaped(path: &mut String, name: &str) -> Result<(), AllocError> {
    for c in name.chars() {
        match c {
            '~' => path.push_str("~0")?,
            '/' => path.push_str("~1")?,
            c => path.push(c)?,
        }
    }
    Ok(())
}

// The length of the longest text that an error shows whole, in bytes.
const MOST_SHOWN: usize = 80;

/// JSON as an error shows it: a few words for a list, an object or a long text.
pub fn brief(alloc: Global, value: &Value) -> Result<String, AllocError> {
    match value {
        Value::Array(items) => format!(in alloc; "a list of {}", items.len()),
        Value::Object(members) => format!(in alloc; "an object of {}", members.len()),
        Value::String(text) if text.len() > MOST_SHOWN => {
            format!(in alloc; "a text of {} bytes", text.len())
        }
        _ => value.to_string(alloc),
    }
}
