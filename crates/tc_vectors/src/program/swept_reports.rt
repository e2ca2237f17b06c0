//! Reports on messages that were cut short or changed, and on attributes of all types and lengths.

use crate::program::reports::mode_of;
use std::alloc::{AllocError, Global};
use std::process::Abort;
use std::test::Fail;
use tcrewrite_lib::mode::Mode;
use tcrewrite_lib::run::run;
use tests_data::{Input, all_around, cut_and_changed, made};

// What is wrong with a report, if anything is.
type Complaint = Option<&'static str>;

fn judge_refused(report: &[u8]) -> Complaint {
    if !report.starts_with(b"refused ") {
        Some("the report names no fault")
    } else if report == b"refused OutOfMemory\n".as_slice() {
        Some("the report is of memory")
    } else {
        None
    }
}

// What is wrong with the report on a message that was read from a text in hex.
fn judge_accepted(text: &[u8], report: &[u8]) -> Complaint {
    let Some(rest) = report.strip_prefix(b"fits yes\nsettled ") else {
        return Some("the message doesn't fit");
    };
    let same = rest.strip_suffix(b"\n").unwrap_or(&[]).strip_suffix(text);
    let says_canonical = rest.starts_with(b"yes\ncanonical yes\n");
    let is_same = match same {
        Some(front) => front.ends_with(b"\nbytes "),
        None => false,
    };
    if says_canonical != is_same {
        Some("canonical isn't emitted unchanged")
    } else {
        None
    }
}

// The report on a message names its fault, which isn't out of memory, or says that it is canonical exactly where its bytes are emitted
// unchanged.
fn judge_text(alloc: Global, mode: Mode, text: &[u8]) -> Complaint {
    let (mut from, mut to) = (text, Vec::new(alloc));
    match run(alloc, mode, &mut from, &mut to) {
        Ok(0) => judge_accepted(text, &to),
        Ok(1) => judge_refused(&to),
        _ => Some("the run ends in another way"),
    }
}

fn judge(alloc: Global, input: &Input) -> Complaint {
    match hex::encode(alloc, &input.bytes) {
        Ok(text) => judge_text(alloc, mode_of(input.form), text.as_bytes()),
        Err(_) => Some("no memory for the text"),
    }
}

// Judges each of these, and returns how many they are.
fn are_judged(rt: &impl Abort, alloc: Global, inputs: &[Input]) -> usize {
    for input in inputs {
        let complaint = judge(alloc, input);
        assert!(rt; complaint.is_none(), "{complaint:?}: {input:?}");
    }
    inputs.len()
}

// Judges what is made of a message by cutting and changing it.
fn are_judged_of(rt: &impl Abort, alloc: Global, input: &Input) -> Result<usize, AllocError> {
    Ok(are_judged(rt, alloc, &cut_and_changed(alloc, input)?))
}

#[test]
fn cut_and_changed_messages(rt: HostRuntime) -> Result<(), Fail> {
    let alloc = rt.alloc();
    let mut count = 0usize;
    let rows = made(alloc)?;
    for row in &rows {
        count = count.wrapping_add(are_judged_of(&rt, alloc, &row.input)?);
    }
    assert!(rt; count == 9_896, "{count} messages");
    Ok(())
}

#[test]
fn attributes_of_all_types_and_lengths(rt: HostRuntime) -> Result<(), Fail> {
    let inputs = all_around(rt.alloc())?;
    let count = are_judged(&rt, rt.alloc(), &inputs);
    assert!(rt; count == 12_210, "{count} messages");
    Ok(())
}
