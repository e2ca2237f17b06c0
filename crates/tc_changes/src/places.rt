//! The places of objects by their keys.

ghost use Rattle.std.specs.Prelude.{◌≡◌, [], IfOk, List, option_map};
ghost use Rattle.tc_changes.specs.Model.{found};
ghost use Rattle.tc_changes.specs.Objects.{thing, things, same_key, KernelThing, IsIndexOf};

use crate::key::Key;
use crate::object::Object;
use std::alloc::{AllocError, Allocator};
use std::collections::HashMap;
use std::hash::{BuildHasherDefault, FoldHasher};

/// A place for each key.
pub type Index<A> = HashMap<Key, usize, BuildHasherDefault<FoldHasher>, A>;

/// Finds the place of each object's key.
pub fn index_of<A: Allocator + Copy>(
    alloc: A,
    objects: &[Object<A>],
) -> Result<Index<A>, AllocError>
    ensures { IfOk result (λ index. IsIndexOf (things objects.now) index (things objects.now)) }
{
    let mut index = HashMap::new(alloc);
    for (place, object) in objects.iter().enumerate() {
        index.insert(object.key, place)?;
    }
    Ok(index)
}

/// Looks up the object of a key.
pub fn look_up<'a, A: Allocator>(
    objects: &'a [Object<A>],
    index: &Index<A>,
    key: Key,
) -> Option<&'a Object<A>>
    ensures { (some : List KernelThing) → IsIndexOf (things objects.entry.now) index.now some
        → option_map (λ o. thing o.now) result ≡ found same_key some key }
{
    match index.get(&key) {
        Some(place) => objects.get(*place),
        None => None,
    }
}
