//! The rules of a kernel.

ghost use Rattle.std.specs.Prelude.{◌≡◌, Bool};
ghost use Rattle.tc_changes.specs.Objects.{thing, KernelThing};
ghost use Rattle.tc_changes.specs.declared.key.Key.{Key as KeyModel};

use crate::key::Key;
use crate::object::Object;
use std::alloc::Allocator;

/// The objects that a kernel makes, and the changes that it makes in place.
pub trait Rules<A: Allocator> {
    ghost takes: { Self → KernelThing → KernelThing → Bool };

    ghost can_make: { Self → KernelThing → Bool };

    ghost weak: { Self → KeyModel → Bool };

    /// True if one request changes the old object into the new one.
    fn takes(&self, old: &Object<A>, new: &Object<A>) -> bool
        ensures { result ≡ takes self.now (thing old.now) (thing new.now) };

    /// True if a request can make an object.
    fn can_make(&self, object: &Object<A>) -> bool
        ensures { result ≡ can_make self.now (thing object.now) };

    /// True if an object of the present state stands only as long as others refer to it. No request deletes it.
    fn is_weak(&self, key: &Key) -> bool
        ensures { result ≡ weak self.now key.now };
}
