//! The steps of a plan.

use crate::key::Key;
use crate::object::Object;
use std::alloc::Allocator;

/// One request.
#[derive(Drop, Debug)]
pub enum Step<A: Allocator> {
    /// Delete the object of this key, and all that is under it.
    Delete(Key),
    /// Change the object that has this one's key into this one.
    Change(Object<A>),
    /// Make this object.
    Make(Object<A>),
}

/// The steps, or why there are none.
#[derive(Drop, Debug)]
pub enum Plan<A: Allocator> {
    /// These steps, one after another.
    Steps(Vec<Step<A>, A>),
    /// No steps, since the objects of these keys can't be made.
    Refused(Vec<Key, A>),
}
