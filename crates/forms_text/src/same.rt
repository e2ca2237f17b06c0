//! Equality of JSON values.

ghost use Rattle.std.specs.Prelude.{◌≡◌, ◌↔◌, IsTrue, true};
ghost use Rattle.serde_json.specs.Find.{is_float};
ghost use Rattle.serde_json.specs.View.{items_view, members_view, number_view, view};

use serde_json::{Map, Number, Value};

/// True if two values are the same JSON.
#[cycle(same)]
pub fn is_same(one: &Value, other: &Value) -> bool
    ensures { IsTrue result ↔ (view one.now ≡ view other.now) }
{
    match (one, other) {
        (Value::Null, Value::Null) => true,
        (Value::Bool(one), Value::Bool(other)) => *one == *other,
        (Value::Number(one), Value::Number(other)) => is_same_number(one, other),
        (Value::String(one), Value::String(other)) => one.as_str() == other.as_str(),
        (Value::Array(one), Value::Array(other)) => same_items(one, other),
        (Value::Object(one), Value::Object(other)) => same_members(one, other),
        _ => false,
    }
}

// True if two numbers are the same integer, or the same float.
fn is_same_number(one: &Number, other: &Number) -> bool
    ensures { IsTrue result ↔ (number_view one.now ≡ number_view other.now) }
{
    match (one.as_u64(), other.as_u64()) {
        (Some(one), Some(other)) => one == other,
        (None, None) => match (one.as_i64(), other.as_i64()) {
            (Some(one), Some(other)) => one == other,
            (None, None) => is_same_float(one, other),
            _ => false,
        },
        _ => false,
    }
}

#[cycle(same)]
fn same_items(one: &Vec<Value>, other: &Vec<Value>) -> bool
    ensures { IsTrue result ↔ (items_view one.now.items ≡ items_view other.now.items) }
{
    if one.len() != other.len() {
        return false;
    }
    for (index, item) in one.iter().enumerate() {
        if !is_same(item, &other[index]) {
            return false;
        }
    }
    true
}

#[cycle(same)]
fn same_members(one: &Map<String, Value>, other: &Map<String, Value>) -> bool
    ensures { IsTrue result ↔ (members_view one.now.entries ≡ members_view other.now.entries) }
{
    let mut others = other.iter();
    for (name, member) in one.iter() {
        let (other_name, other) = match others.next() {
            Some(pair) => pair,
            None => return false,
        };
        if name.as_str() != other_name.as_str() || !is_same(member, other) {
            return false;
        }
    }
    others.next().is_none()
}

// True if two floats are the same.
fn is_same_float(one: &Number, other: &Number) -> bool
    requires one { is_float (number_view one.now) ≡ true }
    requires other { is_float (number_view other.now) ≡ true }
    ensures { IsTrue result ↔ (number_view one.now ≡ number_view other.now) }
{
    match (one.as_f64(), other.as_f64()) {
        (Some(one), Some(other)) => is_same_double(one, other),
        _ => false,
    }
}

// True if two floats are the same; zeros of different sign aren't.
fn is_same_double(one: f64, other: f64) -> bool
    ensures { IsTrue result ↔ (one ≡ other) }
{
    match (one.is_nan(), other.is_nan()) {
        (true, true) => true,
        (false, false) => one.to_bits() == other.to_bits(),
        _ => false,
    }
}
