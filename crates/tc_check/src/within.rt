//! Requests that are about nothing outside a scope.

ghost use Rattle.std.specs.Prelude.{◌≡◌, ◌≤◌, true, false, IfNone, IfSome, length};
ghost use Rattle.tc_check.specs.Within as within;
ghost use Rattle.tc_check.specs.Within.{is_place_within, are_joined_within, is_joined_within, is_about_within, all_within};
ghost use Rattle.nla_frames.specs.OnlyKind.{text_set};

use crate::actions::are_within;
use crate::attributes::{is_list, value_in};
use crate::fields::{u16_at, u32_at};
use crate::scope::Scope;
use crate::sort::{Sort, header_size, sort_of};
use nla_frames::parse_u32;

// `TCM_IFINDEX_MAGIC_BLOCK` of `linux/rtnetlink.h`: the parent is the number of a block.
const MAGIC_BLOCK: u32 = 0xFFFF_FFFF;

/// The place of the first request that isn't one whole message about a qdisc, a class, a filter, a chain or actions, or that is about an interface,
/// a block or an action outside the scope. `None` if there is none.
pub fn first_outside(scope: &Scope<'_>, requests: &[&[u8]]) -> Option<usize>
    ensures within { IfNone result (all_within scope.now requests.now ≡ true) }
    ensures outside { IfSome result (λ _. all_within scope.now requests.now ≡ false) }
{
    for (place, request) in requests.iter().enumerate() {
        if !is_within(scope, request) {
            return Some(place);
        }
    }
    None
}

/// True if a request, with its netlink header, is one whole message about nothing outside the scope.
pub fn is_within(scope: &Scope<'_>, request: &[u8]) -> bool
    ensures { result ≡ within.is_within scope.now request.now }
{
    if request.len() < 16 || u32_at(request, 0) as usize != request.len() {
        return false;
    }
    let message_type = u16_at(request, 4);
    if message_type % 4 >= 2 {
        return false;
    }
    match sort_of(message_type) {
        Some(sort) => is_sorted_within(scope, sort, message_type % 4 == 1, request),
        None => false,
    }
}

fn is_sorted_within(scope: &Scope<'_>, sort: Sort, is_delete: bool, request: &[u8]) -> bool
    ensures { result ≡ within.is_whole_within scope.now sort is_delete request.now }
{
    let size = header_size(sort);
    if request.len() < size {
        return false;
    }
    let attributes = request.split_at(size).1;
    if !is_list(attributes) {
        return false;
    }
    match sort {
        Sort::Action => match value_in(attributes, 1) {
            Some(list) => are_within(scope, is_delete, list),
            None => false,
        },
        Sort::Qdisc => is_place_within(scope, request) && are_joined_within(scope, attributes),
        _ => is_place_within(scope, request),
    }
}

// True if the interface, or the block instead of one, is in the scope.
fn is_place_within(scope: &Scope<'_>, request: &[u8]) -> bool
    requires { 36 ≤ length request.now }
    ensures { result ≡ is_place_within scope.now request.now }
{
    let index = u32_at(request, 20);
    if index == MAGIC_BLOCK {
        scope.has_block(u32_at(request, 28))
    } else {
        scope.has_interface(index)
    }
}

// True if the blocks that a qdisc joins are in the scope.
fn are_joined_within(scope: &Scope<'_>, attributes: &[u8]) -> bool
    ensures { result ≡ are_joined_within scope.now attributes.now }
{
    is_joined_within(scope, value_in(attributes, 13))
        && is_joined_within(scope, value_in(attributes, 14))
}

fn is_joined_within(scope: &Scope<'_>, block: Option<&[u8]>) -> bool
    ensures { result ≡ is_joined_within scope.now (text_set block.entry) }
{
    match block {
        Some(value) => match parse_u32(value) {
            Ok(number) => scope.has_block(number),
            Err(_) => false,
        },
        None => true,
    }
}
