//! Messages about one object.

ghost use Rattle.std.specs.Prelude.{◌≡◌, ◌≤◌, true, length};
ghost use Rattle.tc_check.specs.Named as named;
ghost use Rattle.tc_check.specs.Messages.{type_of_new};

use crate::attributes::value_in;
use crate::fields::{u16_at, u32_at};
use crate::sort::Sort;

// The type of a message about a new object, and of its dump.
fn type_of_new(sort: Sort) -> u16
    ensures { result ≡ type_of_new sort }
{
    match sort {
        Sort::Qdisc => 36,
        Sort::Class => 40,
        Sort::Filter => 44,
        Sort::Action => 48,
        Sort::Chain => 100,
    }
}

// True for a dump of an object.
pub(crate) fn is_dump_of(sort: Sort, dump: &[u8]) -> bool
    ensures is { result ≡ named.is_dump_of sort dump.now }
    ensures long { result ≡ true → 36 ≤ length dump.now }
{
    dump.len() >= 36 && u16_at(dump, 4) == type_of_new(sort)
}

// True for two messages about one object.
pub(crate) fn is_same(sort: Sort, a: &[u8], b: &[u8]) -> bool
    requires a_whole { 36 ≤ length a.now }
    requires b_whole { 36 ≤ length b.now }
    ensures { result ≡ named.is_same sort a.now b.now }
{
    match sort {
        Sort::Qdisc => u32_at(a, 24) == u32_at(b, 24) && is_same_place(a, b),
        Sort::Class => u32_at(a, 24) == u32_at(b, 24) && u32_at(a, 20) == u32_at(b, 20),
        Sort::Filter => u32_at(a, 24) == u32_at(b, 24) && is_same_priority(a, b),
        Sort::Chain => is_same_chain(a, b),
        Sort::Action => false,
    }
}

// True if what a dump shows is what a request makes.
pub(crate) fn is_as_made(sort: Sort, a: &[u8], b: &[u8]) -> bool
    requires a_whole { 36 ≤ length a.now }
    requires b_whole { 36 ≤ length b.now }
    ensures { result ≡ named.is_as_made sort a.now b.now }
{
    match sort {
        Sort::Qdisc => is_same_place(a, b),
        Sort::Filter => {
            u32_at(a, 24) % 0x10_0000 == u32_at(b, 24) % 0x10_0000 && is_same_priority(a, b)
        }
        _ => is_same(sort, a, b),
    }
}

// True for two filters of one priority of one chain.
pub(crate) fn is_same_priority(a: &[u8], b: &[u8]) -> bool
    requires a_whole { 36 ≤ length a.now }
    requires b_whole { 36 ≤ length b.now }
    ensures { result ≡ named.is_same_priority a.now b.now }
{
    u32_at(a, 32) / 65536 == u32_at(b, 32) / 65536 && is_same_chain(a, b)
}

fn is_same_chain(a: &[u8], b: &[u8]) -> bool
    requires a_whole { 36 ≤ length a.now }
    requires b_whole { 36 ≤ length b.now }
    ensures { result ≡ named.is_same_chain a.now b.now }
{
    is_same_place(a, b) && value_or(&[0, 0, 0, 0], 11, a) == value_or(&[0, 0, 0, 0], 11, b)
}

fn is_same_place(a: &[u8], b: &[u8]) -> bool
    requires a_whole { 36 ≤ length a.now }
    requires b_whole { 36 ≤ length b.now }
    ensures { result ≡ named.is_same_place a.now b.now }
{
    u32_at(a, 20) == u32_at(b, 20) && u32_at(a, 28) == u32_at(b, 28)
}

// The value of an attribute, or a default.
pub(crate) fn value_or<'a>(default: &'a [u8], number: u16, message: &'a [u8]) -> &'a [u8]
    requires { 36 ≤ length message.now }
    ensures { result.now ≡ named.value_or default.now number message.now }
{
    match value_in(message.split_at(36).1, number) {
        Some(value) => value,
        None => default,
    }
}
