//! The requests that the failing allocator refuses. No clause can say it, since a clause sees nothing of what a cell holds.

use failing_alloc::Failing;
use std::alloc::{AllocError, Allocator, Global};
use std::test::Fail;

/// More numbers than a vector holds after nine growths.
const MANY: u64 = 5000;

/// True if of nineteen requests this one alone is refused.
fn refuses_only(failing: &Failing<Global>, at: u64) -> bool {
    failing.refuse(at);
    for request in 1..20u64 {
        let is_refused = Box::new(failing, request).is_err();
        if is_refused != (request == at) {
            return false;
        }
        if failing.has_refused() != (0 < at && at <= request) {
            return false;
        }
    }
    true
}

#[test]
fn refuses_one_request_and_no_other(rt: HostRuntime) -> Result<(), Fail> {
    let failing = Failing::new(rt.alloc(), 0);
    for at in 0..10u64 {
        if !refuses_only(&failing, at) {
            return Err(Fail::new("another request is refused"));
        }
    }
    Ok(())
}

/// True if a push fails, exactly where a request is refused, and the next one doesn't.
fn push_fails_at_refusal(failing: &Failing<Global>) -> Result<bool, AllocError> {
    let mut numbers = Vec::new(failing);
    for number in 0..MANY {
        let failed = numbers.push(number).is_err();
        if failing.has_refused() != failed {
            return Ok(false);
        }
        if failed {
            numbers.push(MANY)?;
            return Ok(numbers.last() == Some(&MANY));
        }
    }
    Ok(false)
}

#[test]
fn a_push_fails_exactly_at_the_refusal(rt: HostRuntime) -> Result<(), Fail> {
    for at in 1..10u64 {
        let failing = Failing::new(rt.alloc(), at);
        if !push_fails_at_refusal(&failing)? {
            return Err(Fail::new("a push fails elsewhere"));
        }
    }
    Ok(())
}

/// Code as it is tested: it takes any allocator that is `Copy`.
fn count_up<A: Allocator + Copy>(alloc: A) -> Result<usize, AllocError> {
    let mut numbers = Vec::new(alloc);
    for number in 0..MANY {
        numbers.push(number)?;
    }
    Ok(numbers.len())
}

/// True if code fails where its request of this number is refused, and not where none is.
fn fails_if_refused(failing: &Failing<Global>, at: u64) -> Result<bool, AllocError> {
    failing.refuse(at);
    if count_up(failing).is_ok() || !failing.has_refused() {
        return Ok(false);
    }
    failing.refuse(0);
    Ok(count_up(failing)? == MANY as usize && !failing.has_refused())
}

#[test]
fn code_fails_exactly_at_the_refusal(rt: HostRuntime) -> Result<(), Fail> {
    let failing = Failing::new(rt.alloc(), 0);
    for at in 1..10u64 {
        if !fails_if_refused(&failing, at)? {
            return Err(Fail::new("the code fails elsewhere"));
        }
    }
    Ok(())
}
