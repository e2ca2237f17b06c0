//! The answer to one line.

use forms_json::{Form, Shown};
use forms_kinds::{ACTION_MESSAGE, TC_MESSAGE, TcTables};
use std::alloc::{AllocError, Global};
use tc_faults::{Fault, What, locate};

/// What is said of the message in a line.
pub fn judged(alloc: Global, line: &str) -> Result<String, AllocError> {
    let (word, digits) = line.split_once(' ').unwrap_or((line, ""));
    let (form, what) = match word {
        "tc" => (TC_MESSAGE, What::Qdisc),
        "action" => (ACTION_MESSAGE, What::Action),
        _ => return "neither tc nor action".to_string(alloc),
    };
    match hex::decode(alloc, digits.as_bytes()) {
        Ok(bytes) => said(alloc, form, what, &bytes),
        Err(_) => "no bytes in hex".to_string(alloc),
    }
}

// The JSON of a message, and its fault.
fn said(alloc: Global, form: Form, what: What, bytes: &[u8]) -> Result<String, AllocError> {
    let mut text = json(alloc, form, bytes)?;
    if let Some(fault) = locate(bytes, what) {
        put_fault(alloc, &mut text, &fault)?;
    }
    Ok(text)
}

fn json(alloc: Global, form: Form, bytes: &[u8]) -> Result<String, AllocError> {
    let shown = Shown {
        table: TcTables,
        form,
        bytes,
        alloc,
    };
    match serde_json::to_string(alloc, &shown) {
        Ok(text) => Ok(text),
        Err(_) => Err(AllocError),
    }
}

fn put_fault(alloc: Global, text: &mut String, fault: &Fault) -> Result<(), AllocError> {
    let start = format!(in alloc; "\t{}, offset {}, path ", fault.error, fault.offset)?;
    text.push_str(&start)?;
    fault.path.put(text)
}
