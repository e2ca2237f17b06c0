//! Why there is no plan.

ghost use Rattle.std.specs.Prelude.{◌≡◌};
ghost use Rattle.tc_changes.specs.declared.plan_error.PlanError.TheVariants.{OutOfMemory};

use crate::key::Key;
use std::alloc::{AllocError, AllocFailed};

/// Why there is no plan.
#[derive(Clone, Copy, PartialEq, Eq, Drop, Debug)]
pub enum PlanError {
    /// The present state isn't in order: the first object that has the key of one before it, or that comes before one that
    /// it needs.
    State(Key),

    /// The same of the wanted state.
    Wanted(Key),

    /// The weak objects of the present state aren't as a plan needs them. The first object that is weak and that needs one, or to which none refers; or
    /// that refers to a weak one under which an object before it is.
    Weak(Key),

    /// An object elsewhere lacks one that it needs, or would have to be made again.
    Elsewhere(Key),

    /// The allocator failed.
    OutOfMemory,
}

impl From<AllocError> for PlanError {
    ghost from_gives = { λ _ e. e ≡ OutOfMemory };

    fn from(_e: AllocError) -> PlanError {
        PlanError::OutOfMemory
    }
}

impl<T: Drop> From<AllocFailed<T>> for PlanError {
    ghost from_gives = { λ _ e. e ≡ OutOfMemory };

    fn from(_e: AllocFailed<T>) -> PlanError {
        PlanError::OutOfMemory
    }
}
