//! The calls on the bytes of a message of either form.

use std::alloc::Allocator;
use tc_wire::{
    RewriteError, is_canonical_action, is_canonical_tc, rewrite_action, rewrite_tc, settle_action,
    settle_tc,
};
use tests_data::Form;

/// True if bytes are canonical.
pub(crate) fn is_canonical(form: Form, bytes: &[u8]) -> bool {
    match form {
        Form::Tc => is_canonical_tc(bytes),
        Form::Action => is_canonical_action(bytes),
    }
}

/// Bytes rewritten once.
pub(crate) fn rewrite<A: Allocator + Copy>(
    alloc: A,
    form: Form,
    bytes: &[u8],
) -> Result<Vec<u8, A>, RewriteError> {
    match form {
        Form::Tc => rewrite_tc(alloc, bytes),
        Form::Action => rewrite_action(alloc, bytes),
    }
}

/// Bytes rewritten until nothing changes, and the number of rewrites.
pub(crate) fn settle<A: Allocator + Copy>(
    alloc: A,
    form: Form,
    bytes: &[u8],
) -> Result<(Vec<u8, A>, usize), RewriteError> {
    match form {
        Form::Tc => settle_tc(alloc, bytes),
        Form::Action => settle_action(alloc, bytes),
    }
}
