//! Objects in order: each after all that it needs.

ghost use Rattle.std.specs.Prelude.{◌≡◌, [], List, IfOk, IfSome, is_none};
ghost use Rattle.tc_changes.specs.Model.{ready, is_next, IsStuck};
ghost use Rattle.tc_changes.specs.Objects.{thing, things, same_key, IsSetOf};

use crate::key::Key;
use crate::keys::{Keys, all_in};
use crate::object::Object;
use std::alloc::{AllocError, Allocator};
use std::collections::HashSet;

/// True if no object has the key of another, and each comes after all that it needs.
pub fn is_ready<A: Allocator + Copy>(alloc: A, objects: &[Object<A>]) -> Result<bool, AllocError>
    ensures { IfOk result (λ is. is ≡ ready same_key [] (things objects.now)) }
{
    let stuck = stuck(alloc, objects)?;
    Ok(stuck.is_none())
}

/// The key of the first object that another one before it has, or that comes before something that it needs.
pub(crate) fn stuck<A: Allocator + Copy>(
    alloc: A,
    objects: &[Object<A>],
) -> Result<Option<Key>, AllocError>
    ensures none { IfOk result (λ stuck. is_none stuck ≡ ready same_key [] (things objects.now)) }
    ensures some { IfOk result (λ stuck. IfSome stuck (IsStuck same_key (things objects.now))) }
{
    let mut before = HashSet::new(alloc);
    for object in objects {
        if !is_next(&before, object) {
            return Ok(Some(object.key));
        }
        before.insert(object.key)?;
    }
    Ok(None)
}

// True if an object can come after those of these keys.
fn is_next<A: Allocator>(before: &Keys<A>, object: &Object<A>) -> bool
    ensures { (some : List _) → IsSetOf before.now some → result ≡ is_next same_key some (thing object.now) }
{
    !before.contains(&object.key)
        && (all_in(before, &object.under) && all_in(before, &object.refers))
}
