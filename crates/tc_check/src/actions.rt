//! The actions that a message is about.

ghost use Rattle.std.specs.Prelude.{◌≡◌};
ghost use Rattle.nla_frames.specs.OnlyKind.{text_set};
ghost use Rattle.tc_check.specs.Actions as actions;
ghost use Rattle.tc_check.specs.Actions.{parameters_type, parameters_in, is_action_within, are_within};

use crate::attributes::{is_list, value_in};
use crate::fields::u32_at;
use crate::scope::Scope;
use nla_frames::{NlasIterator, parse_u32, strip_nul};

// True if each action of a list is whole, and in the scope.
pub(crate) fn are_within(scope: &Scope<'_>, is_delete: bool, list: &[u8]) -> bool
    ensures { result ≡ are_within scope.now is_delete list.now }
{
    for frame in NlasIterator::new(list) {
        match frame {
            Ok(frame) => {
                if !is_action_within(scope, is_delete, frame.value()) {
                    return false;
                }
            }
            Err(_) => return false,
        }
    }
    true
}

fn is_action_within(scope: &Scope<'_>, is_delete: bool, action: &[u8]) -> bool
    ensures { result ≡ is_action_within scope.now is_delete action.now }
{
    if !is_list(action) {
        return false;
    }
    match value_in(action, 1) {
        Some(value) => {
            let kind = strip_nul(value);
            match index_of(is_delete, kind, action) {
                Some(index) => scope.has_action(kind, index),
                None => false,
            }
        }
        None => false,
    }
}

// The index of an action: in its parameters if it is to be made, or else in an attribute of its own.
pub(crate) fn index_of(is_delete: bool, kind: &[u8], action: &[u8]) -> Option<u32>
    ensures { result ≡ actions.index_of is_delete kind.now action.now }
{
    if is_delete {
        match value_in(action, 3) {
            Some(value) => parse_u32(value).ok(),
            None => None,
        }
    } else {
        match value_in(action, 2) {
            Some(options) => index_among(kind, options),
            None => None,
        }
    }
}

// The index in the parameters among options.
fn index_among(kind: &[u8], options: &[u8]) -> Option<u32>
    ensures { result ≡ actions.index_made kind.now (Some options.now) }
{
    if !is_list(options) {
        return None;
    }
    match parameters_in(kind, options) {
        Some(value) if value.len() >= 4 => Some(u32_at(value, 0)),
        _ => None,
    }
}

// The parameters among options. Those of pedit have one of two types.
fn parameters_in<'a>(kind: &[u8], options: &'a [u8]) -> Option<&'a [u8]>
    ensures { text_set result ≡ parameters_in kind.now options.now }
{
    match value_in(options, parameters_type(kind)) {
        Some(value) => Some(value),
        None => {
            if kind == b"pedit".as_slice() {
                value_in(options, 4)
            } else {
                None
            }
        }
    }
}

// The type of the parameters among the options of an action: `TCA_.._PARMS`, `TCA_POLICE_TBF`, `TCA_CTINFO_ACT`.
fn parameters_type(kind: &[u8]) -> u16
    ensures { result ≡ parameters_type kind.now }
{
    if kind == b"nat".as_slice() {
        1
    } else if kind == b"csum".as_slice() {
        1
    } else if kind == b"police".as_slice() {
        1
    } else if kind == b"connmark".as_slice() {
        1
    } else if kind == b"ife".as_slice() {
        1
    } else if kind == b"ct".as_slice() {
        1
    } else if kind == b"ctinfo".as_slice() {
        3
    } else {
        2
    }
}
