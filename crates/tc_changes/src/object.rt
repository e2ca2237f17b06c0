//! The objects of a kernel.

ghost use Rattle.std.specs.Prelude.{◌≡◌};
ghost use Rattle.tc_changes.specs.Objects.{thing, alike};

use crate::key::Key;
use std::alloc::Allocator;

/// A qdisc, a class, a chain, a filter or an action, with what it needs of others.
#[derive(Drop, Debug)]
pub struct Object<A: Allocator> {
    pub key: Key,
    /// The objects that it is under: it is deleted with each of these.
    pub under: Vec<Key, A>,
    /// The objects that it only refers to: they can't be deleted before it.
    pub refers: Vec<Key, A>,
    /// Everything else in which two equal objects don't differ: the bytes of the request that makes it.
    pub config: Vec<u8, A>,
}

impl<A: Allocator> Object<A> {
    /// True if two objects are equal.
    pub fn is_alike(&self, other: &Object<A>) -> bool
        ensures { result ≡ alike (thing self.now) (thing other.now) }
    {
        self.key == other.key
            && (self.under.as_slice() == other.under.as_slice()
                && (self.refers.as_slice() == other.refers.as_slice()
                    && self.config.as_slice() == other.config.as_slice()))
    }
}
