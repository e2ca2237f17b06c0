//! For tests alone: an allocator that refuses one chosen request and passes every other on, so that a
//! test can make each allocation of a call fail in turn.
//!
//! Code under test is generic over `A: Allocator + Copy`. A `&Failing<B>` is such an allocator.
#![tactic(auto)]

mod countdown;

use countdown::Countdown;
use std::alloc::{AllocError, Allocator};

/// An allocator that asks `inner` for its memory, except for the one request that it refuses.
///
/// A request is a call of `allocate`. `grow` and `shrink` are the trait's own, so each change of a block's
/// size is one request more.
#[derive(Drop)]
pub struct Failing<B: Allocator> {
    inner: B,
    countdown: Countdown,
}

impl<B: Allocator> Failing<B> {
    /// Refuses the request number `at`, where 1 is the next one. 0 refuses none.
    pub fn new(inner: B, at: u64) -> Self {
        Failing {
            inner,
            countdown: Countdown::new(at),
        }
    }

    /// Counts anew: from here on the request number `at` is refused, where 1 is the next one.
    pub fn refuse(&self, at: u64) {
        self.countdown.start(at);
    }

    /// True if a request was refused since the count began.
    pub fn has_refused(&self) -> bool {
        self.countdown.is_over()
    }
}

unsafe impl<B: Allocator> Allocator for Failing<B> {
    ghost dealloc_token = { λ failing ty ptr. B.dealloc_token failing.inner ty ptr };

    fn allocate(&self, size: usize, align: usize) -> Result<*mut u8, AllocError> {
        if self.countdown.ends() {
            return Err(AllocError);
        }
        self.inner.allocate(size, align)
    }

    unsafe fn deallocate(&self, ptr: *mut u8, size: usize, align: usize) {
        self.inner.deallocate(ptr, size, align);
    }
}
