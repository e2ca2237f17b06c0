//! Messages that are too long to be written, and the longest that are not.

use crate::calls::{is_unwritable, length_of};
use crate::made::{kind, message, option, pushed};
use nla_frames::DefaultNla;
use std::alloc::{AllocError, Global};
use std::test::Fail;
use tc_canon::is_canonical_tc;
use tc_wire::{TcAttribute, TcMessage, TcOption, TcQdiscFqCodelOption, TcQdiscIngressOption};
use tests_data::{Form, too_long};

/// An attribute of an unknown type with so many bytes.
fn long(alloc: Global, length: usize) -> Result<DefaultNla, AllocError> {
    Ok(DefaultNla::new(99, vec![in alloc; 0xaa; length]?))
}

fn ingress(alloc: Global, length: usize) -> Result<TcOption, AllocError> {
    Ok(TcOption::Ingress(TcQdiscIngressOption::Other(long(alloc, length)?)))
}

fn fq_codel(alloc: Global, length: usize) -> Result<TcOption, AllocError> {
    Ok(TcOption::FqCodel(TcQdiscFqCodelOption::Other(long(alloc, length)?)))
}

/// A message of a kind and of this one option.
fn with_option(
    alloc: Global,
    name: &str,
    made: Result<TcOption, AllocError>,
) -> Result<TcMessage, AllocError> {
    let first = pushed(Ok(Vec::new(alloc)), kind(alloc, name));
    message(pushed(first, option(alloc, made)))
}

/// True if the message that is too long has so many bytes, and is the one that is made with an option of 65527.
fn is_too_long(alloc: Global, bytes: &[u8]) -> bool {
    let made = with_option(alloc, "ingress", ingress(alloc, 65527));
    bytes.len() == 65568 && !is_canonical_tc(bytes) && is_unwritable(alloc, bytes, made.ok())
}

#[test]
fn of_options(rt: HostRuntime) -> Result<(), Fail> {
    assert!(rt; is_too_long(rt.alloc(), &too_long(rt.alloc(), Form::Tc)?.bytes));
    Ok(())
}

/// The length of a message with an option of this length, if it fits.
fn length_with(alloc: Global, length: usize) -> Option<usize> {
    let made = with_option(alloc, "fq_codel", fq_codel(alloc, length));
    length_of(alloc, made.ok())
}

#[test]
fn of_an_option(rt: HostRuntime) {
    assert!(rt; length_with(rt.alloc(), 65524) == Some(65568));
    assert!(rt; length_with(rt.alloc(), 65525) == None);
}

fn rate(alloc: Global, length: usize) -> Result<TcAttribute, AllocError> {
    Ok(TcAttribute::Rate(vec![in alloc; 0; length]?))
}

/// The length of a message of rates of these lengths, if it fits.
fn length_of_rates(alloc: Global, rates: &[usize]) -> Option<usize> {
    let mut list = Ok(Vec::new(alloc));
    for length in rates {
        list = pushed(list, rate(alloc, *length));
    }
    length_of(alloc, message(list).ok())
}

#[test]
fn of_attributes(rt: HostRuntime) {
    assert!(rt; length_of_rates(rt.alloc(), &[65531]) == Some(65556));
    assert!(rt; length_of_rates(rt.alloc(), &[65531, 65532]) == None);
}
