//! Actions that are listed in dumps.

ghost use Rattle.std.specs.Prelude.{◌≡◌, ◌≤◌, length};
ghost use Rattle.tc_check.specs.Named as named;

use crate::actions::index_of;
use crate::attributes::value_in;
use crate::fields::u16_at;
use nla_frames::{NlasIterator, strip_nul};

// True if each action of a request is in a dump.
pub(crate) fn are_actions_there(now: &[&[u8]], is_delete: bool, request: &[u8]) -> bool
    requires { 20 ≤ length request.now }
    ensures { result ≡ named.are_actions_there now.now is_delete (named.actions_in request.now) }
{
    match value_in(request.split_at(20).1, 1) {
        Some(list) => are_listed(now, is_delete, list),
        None => false,
    }
}

fn are_listed(now: &[&[u8]], is_delete: bool, list: &[u8]) -> bool
    ensures { result ≡ named.are_listed now.now is_delete list.now }
{
    for frame in NlasIterator::new(list) {
        match frame {
            Ok(frame) => {
                if !is_action_there(now, is_delete, frame.value()) {
                    return false;
                }
            }
            Err(_) => return false,
        }
    }
    true
}

fn is_action_there(now: &[&[u8]], is_delete: bool, action: &[u8]) -> bool
    ensures { result ≡ named.is_there_by_kind now.now is_delete action.now (named.kind_in action.now) }
{
    match value_in(action, 1) {
        Some(value) => {
            let kind = strip_nul(value);
            match index_of(is_delete, kind, action) {
                Some(index) => is_listed(now, kind, index),
                None => false,
            }
        }
        None => false,
    }
}

fn is_listed(now: &[&[u8]], kind: &[u8], index: u32) -> bool
    ensures { result ≡ named.is_listed now.now kind.now index }
{
    for dump in now {
        if lists_action(kind, index, dump) {
            return true;
        }
    }
    false
}

fn lists_action(kind: &[u8], index: u32, dump: &[u8]) -> bool
    ensures { result ≡ named.lists_action kind.now index dump.now }
{
    if dump.len() < 20 || u16_at(dump, 4) / 4 != 12 {
        return false;
    }
    match value_in(dump.split_at(20).1, 1) {
        Some(list) => has_named(kind, index, list),
        None => false,
    }
}

fn has_named(kind: &[u8], index: u32, list: &[u8]) -> bool
    ensures { result ≡ named.has_named kind.now index list.now }
{
    for frame in NlasIterator::new(list) {
        if let Ok(frame) = frame {
            if is_action_named(kind, index, frame.value()) {
                return true;
            }
        }
    }
    false
}

fn is_action_named(kind: &[u8], index: u32, action: &[u8]) -> bool
    ensures { result ≡ named.is_named_so kind.now index action.now (named.kind_in action.now) }
{
    match value_in(action, 1) {
        Some(value) => {
            strip_nul(value) == kind
                && match index_of(false, kind, action) {
                    Some(own) => own == index,
                    None => false,
                }
        }
        None => false,
    }
}
