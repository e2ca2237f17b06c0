//! The place of the first name that an object has twice.

use forms_values::pointer::{Step, pointer};
use json::{Scratch, Value};
use std::alloc::{AllocError, Global};
use std::collections::BTreeSet;

/// The place of the first member whose name an earlier one of its object has, as a JSON pointer.
pub fn repeated(alloc: Global, text: &str) -> Result<String, AllocError> {
    let mut scratch = Scratch::new(alloc);
    match Value::parse(alloc, text, &mut scratch) {
        Ok(json) => repeated_in(alloc, &json),
        Err(_) => Err(AllocError),
    }
}

fn repeated_in(alloc: Global, json: &Value<'_>) -> Result<String, AllocError> {
    let mut place = Vec::new(alloc);
    find_repeated(alloc, &mut place, json)?;
    pointer(alloc, &place)
}

// True if an object has a name twice; the place is then that of the second.
#[cycle(repeated)]
fn find_repeated<'v, 'a>(
    alloc: Global,
    place: &mut Vec<Step<'v>>,
    value: &'v Value<'a>,
) -> Result<bool, AllocError> {
    match value {
        Value::Array(items) => in_items(alloc, place, items),
        Value::Object(members) => in_members(alloc, place, members),
        _ => Ok(false),
    }
}

#[cycle(repeated)]
fn in_items<'v, 'a>(
    alloc: Global,
    place: &mut Vec<Step<'v>>,
    items: &'v Vec<Value<'a>>,
) -> Result<bool, AllocError> {
    for (index, item) in items.iter().enumerate() {
        place.push(Step::Item(index))?;
        if find_repeated(alloc, place, item)? {
            return Ok(true);
        }
        place.pop();
    }
    Ok(false)
}

#[cycle(repeated)]
fn in_members<'v, 'a>(
    alloc: Global,
    place: &mut Vec<Step<'v>>,
    members: &'v Vec<(&'a str, Value<'a>)>,
) -> Result<bool, AllocError> {
    let mut names = BTreeSet::new(alloc);
    for (name, member) in members {
        place.push(Step::Member(name))?;
        if !names.insert(*name)? {
            return Ok(true);
        }
        if find_repeated(alloc, place, member)? {
            return Ok(true);
        }
        place.pop();
    }
    Ok(false)
}
