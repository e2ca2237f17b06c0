//! Messages made by hand, captured and large; cut short and changed; and attributes of all types.

use super::alone::had_for_attributes;
use super::judge::judge;
use std::alloc::Global;
use std::process::Abort;
use std::test::Fail;
use tests_data::{
    Form, Input, Row, all_around, captured, cut_and_changed, large_messages, made, too_long,
};

// Asserts of an input that nothing is wrong with what the calls return.
fn is_judged(rt: &impl Abort, alloc: Global, input: &Input) {
    let complaint = judge(alloc, input);
    assert!(rt; complaint.is_none(), "{complaint:?}: {input:?}");
}

// Judges each of these inputs, and returns how many they are.
fn are_judged(rt: &impl Abort, alloc: Global, inputs: &[Input]) -> usize {
    for input in inputs {
        is_judged(rt, alloc, input);
        assert!(rt; had_for_attributes(alloc, input), "{input:?}");
    }
    inputs.len()
}

// Judges the messages of rows, and returns how many they are.
fn are_rows_judged(rt: &impl Abort, alloc: Global, rows: &[Row]) -> usize {
    for row in rows {
        is_judged(rt, alloc, &row.input);
    }
    rows.len()
}

#[test]
fn made_rows(rt: HostRuntime) -> Result<(), Fail> {
    assert_eq!(rt; are_rows_judged(&rt, rt.alloc(), &made(rt.alloc())?), 69);
    Ok(())
}

#[test]
fn captured_rows(rt: HostRuntime) -> Result<(), Fail> {
    assert_eq!(rt;
        are_rows_judged(&rt, rt.alloc(), &captured(rt.alloc())?),
        20
    );
    Ok(())
}

#[test]
fn large_rows(rt: HostRuntime) -> Result<(), Fail> {
    assert_eq!(rt;
        are_rows_judged(&rt, rt.alloc(), &large_messages(rt.alloc())?),
        4
    );
    Ok(())
}

#[test]
fn too_long_to_be_written(rt: HostRuntime) -> Result<(), Fail> {
    for form in [Form::Tc, Form::Action] {
        is_judged(&rt, rt.alloc(), &too_long(rt.alloc(), form)?);
    }
    Ok(())
}

#[test]
fn cut_and_changed_rows(rt: HostRuntime) -> Result<(), Fail> {
    let alloc = rt.alloc();
    let mut count = 0usize;
    for row in &made(alloc)? {
        let inputs = cut_and_changed(alloc, &row.input).expect(&rt, "memory");
        count = count.wrapping_add(are_judged(&rt, alloc, &inputs));
    }
    assert_eq!(rt; count, 9_896);
    Ok(())
}

#[test]
fn attributes_of_all_types(rt: HostRuntime) -> Result<(), Fail> {
    assert_eq!(rt;
        are_judged(&rt, rt.alloc(), &all_around(rt.alloc())?),
        12_210
    );
    Ok(())
}
