//! Requests that delete or change objects which are there now.

ghost use Rattle.std.specs.Prelude.{◌≡◌, ◌≤◌, true, false, IfNone, IfSome, length};
ghost use Rattle.nla_frames.specs.OnlyKind.{text_set};
ghost use Rattle.tc_check.specs.Named as named;
ghost use Rattle.tc_check.specs.Messages.{handle_field, priority_field};

use crate::alike::{is_as_made, is_dump_of, is_same, is_same_priority, value_or};
use crate::fields::{u16_at, u32_at};
use crate::listed::are_actions_there;
use crate::sort::{Sort, sort_of};

/// The first request that isn't named well; `None` if there is none. Each delete is of an object of the dumps of now, with its handle, or of a whole
/// priority; what it deletes isn't wanted, or a later request makes it again. Each change is of an object of now, with its handle and of its kind.
pub fn first_unnamed<'a>(now: &[&[u8]], wanted: &[&[u8]], requests: &[&'a [u8]]) -> Option<&'a [u8]>
    ensures named { IfNone result (named.all_named now.now wanted.now requests.now ≡ true) }
    ensures unnamed { IfSome result (λ _. named.all_named now.now wanted.now requests.now ≡ false) }
{
    let mut rest = requests;
    while let [request, later @ ..] = rest {
        if !is_named(now, wanted, later, request) {
            return Some(request);
        }
        rest = later;
    }
    None
}

fn is_named(now: &[&[u8]], wanted: &[&[u8]], later: &[&[u8]], request: &[u8]) -> bool
    ensures { result ≡ named.is_named_in now.now wanted.now later.now request.now }
{
    if request.len() < 36 {
        return false;
    }
    let message_type = u16_at(request, 4);
    match sort_of(message_type) {
        Some(sort) => {
            let manner = manner_of(request);
            if message_type % 4 == 1 {
                manner == 0 && deletes_what_is(now, wanted, later, sort, request)
            } else if manner % 2 == 1 {
                changes_what_is(now, sort, request)
            } else {
                manner == 6
            }
        }
        None => false,
    }
}

// The flags that say what becomes of what is there.
fn manner_of(request: &[u8]) -> u16
    requires { 36 ≤ length request.now }
    ensures { result ≡ named.manner_of request.now }
{
    u16_at(request, 6) / 256 % 16
}

fn handle_of(message: &[u8]) -> u32
    requires { 36 ≤ length message.now }
    ensures { result ≡ handle_field message.now }
{
    u32_at(message, 24)
}

// True if what a request deletes is there, and isn't wanted, or is made again.
fn deletes_what_is(
    now: &[&[u8]],
    wanted: &[&[u8]],
    later: &[&[u8]],
    sort: Sort,
    request: &[u8],
) -> bool
    requires { 36 ≤ length request.now }
    ensures { result ≡ named.deletes_what_is now.now wanted.now later.now sort request.now }
{
    match sort {
        Sort::Action => are_actions_there(now, true, request),
        _ => {
            is_certain(sort, request)
                && (is_deleted(now, sort, request) && none_is_lost(wanted, later, sort, request))
        }
    }
}

// True if a delete says which one.
fn is_certain(sort: Sort, request: &[u8]) -> bool
    requires { 36 ≤ length request.now }
    ensures { result ≡ named.is_certain sort request.now }
{
    match sort {
        Sort::Qdisc | Sort::Class => handle_of(request) != 0,
        Sort::Filter => u32_at(request, 32) / 65536 != 0,
        _ => true,
    }
}

// True if one of the dumps is of what a request deletes.
fn is_deleted(now: &[&[u8]], sort: Sort, request: &[u8]) -> bool
    requires { 36 ≤ length request.now }
    ensures { result ≡ named.is_deleted now.now sort request.now }
{
    for dump in now {
        if is_deleted_by(sort, request, dump) {
            return true;
        }
    }
    false
}

fn is_deleted_by(sort: Sort, request: &[u8], dump: &[u8]) -> bool
    requires { 36 ≤ length request.now }
    ensures { result ≡ named.is_deleted_by sort request.now dump.now }
{
    if !is_dump_of(sort, dump) {
        return false;
    }
    match sort {
        Sort::Filter if handle_of(request) == 0 => is_same_priority(request, dump),
        _ => is_same(sort, request, dump),
    }
}

// True if no wanted object is deleted without being made again.
fn none_is_lost(wanted: &[&[u8]], later: &[&[u8]], sort: Sort, request: &[u8]) -> bool
    requires { 36 ≤ length request.now }
    ensures { result ≡ named.none_is_lost wanted.now later.now sort request.now }
{
    for dump in wanted {
        if is_lost(later, sort, request, dump) {
            return false;
        }
    }
    true
}

fn is_lost(later: &[&[u8]], sort: Sort, request: &[u8], dump: &[u8]) -> bool
    requires { 36 ≤ length request.now }
    ensures { result ≡ named.is_lost later.now sort request.now dump.now }
{
    is_deleted_by(sort, request, dump)
        && is_object(sort, dump)
        && !is_made_by_one(later, sort, dump)
}

fn is_object(sort: Sort, dump: &[u8]) -> bool
    requires { 36 ≤ length dump.now }
    ensures { result ≡ named.is_object sort dump.now }
{
    match sort {
        Sort::Filter => handle_of(dump) % 0x10_0000 != 0,
        _ => true,
    }
}

fn is_made_by_one(later: &[&[u8]], sort: Sort, dump: &[u8]) -> bool
    requires { 36 ≤ length dump.now }
    ensures { result ≡ named.is_made_by_one later.now sort dump.now }
{
    for request in later {
        if makes(sort, dump, request) {
            return true;
        }
    }
    false
}

fn makes(sort: Sort, dump: &[u8], request: &[u8]) -> bool
    requires { 36 ≤ length dump.now }
    ensures { result ≡ named.makes sort dump.now request.now }
{
    is_dump_of(sort, request) && manner_of(request) == 6 && is_as_made(sort, dump, request)
}

// True if what a request changes is there, of its kind.
fn changes_what_is(now: &[&[u8]], sort: Sort, request: &[u8]) -> bool
    requires { 36 ≤ length request.now }
    ensures { result ≡ named.changes_what_is now.now sort request.now }
{
    match sort {
        Sort::Action => are_actions_there(now, false, request),
        _ => handle_of(request) != 0 && is_there_alike(now, sort, request),
    }
}

// True if one of the dumps is of the object of a request, and of its kind.
fn is_there_alike(now: &[&[u8]], sort: Sort, request: &[u8]) -> bool
    requires { 36 ≤ length request.now }
    ensures { result ≡ named.is_there_alike now.now sort request.now }
{
    for dump in now {
        if is_dump_of(sort, dump) && is_same(sort, request, dump) && has_kind_of(request, dump) {
            return true;
        }
    }
    false
}

fn has_kind_of(request: &[u8], dump: &[u8]) -> bool
    requires request_whole { 36 ≤ length request.now }
    requires dump_whole { 36 ≤ length dump.now }
    ensures { result ≡ named.has_kind_of request.now dump.now }
{
    value_or(&[], 1, request) == value_or(&[], 1, dump)
}
