//! Objects that stand only as long as others refer to them.

ghost use Rattle.std.specs.Prelude.{◌≡◌, [], List, IfOk, IfSome, is_none, not, ◌&&◌};
ghost use Rattle.std.specs.List.{list_any, list_all};
ghost use Rattle.std.specs.HashSet as bag;
ghost use Rattle.tc_changes.specs.Requests.{holds, is_settled, settled};
ghost use Rattle.tc_changes.specs.Planned.{held};
ghost use Rattle.tc_changes.specs.Objects.{thing, things, same_key, IsSetOf, KernelThing};
ghost use Rattle.tc_changes.specs.Promises.{IsLoose};
ghost use Rattle.tc_changes.specs.declared.key.Key.{Key as KeyModel};

use crate::key::Key;
use crate::keys::{Keys, with_all};
use crate::object::Object;
use crate::rules::Rules;
use std::alloc::{AllocError, Allocator};
use std::collections::HashSet;

// The key of the first object because of which the weak objects of a state aren't as a plan needs them.
pub(crate) fn loose<A: Allocator + Copy, R: Rules<A>>(
    alloc: A,
    rules: &R,
    state: &[Object<A>],
) -> Result<Option<Key>, AllocError>
    ensures none { IfOk result (λ loose. is_none loose ≡ settled same_key (R.weak rules.now) (things state.now) [] (things state.now)) }
    ensures some { IfOk result (λ loose. IfSome loose (IsLoose (R.weak rules.now) (things state.now))) }
{
    let held = held_by(alloc, state, &HashSet::new(alloc))?;
    let mut unders = HashSet::new(alloc);
    for object in state {
        unders = with_all(unders, &object.under)?;
        if !is_settled(rules, &held, &unders, object) {
            return Ok(Some(object.key));
        }
    }
    Ok(None)
}

// True if an object is as a plan needs it, if it is weak, and each weak one to which it refers has nothing under it so far.
fn is_settled<A: Allocator, R: Rules<A>>(
    rules: &R,
    held: &Keys<A>,
    unders: &Keys<A>,
    object: &Object<A>,
) -> bool
    ensures { (state : List KernelThing) (some : List KeyModel) → ((k : KeyModel) → bag.contains same_key held.now k ≡ list_any (holds same_key k) state)
        → IsSetOf unders.now some → result ≡ is_settled same_key (R.weak rules.now) state some (thing object.now) }
{
    (!rules.is_weak(&object.key)
        || ((object.under.is_empty() && object.refers.is_empty()) && held.contains(&object.key)))
        && none_above(rules, unders, &object.refers)
}

// True if none of these keys is weak and in a set.
fn none_above<A: Allocator, R: Rules<A>>(rules: &R, unders: &Keys<A>, keys: &[Key]) -> bool
    ensures { result ≡ list_all (λ k. not (R.weak rules.now k && bag.contains same_key unders.now k)) keys.now }
{
    keys.iter()
        .all(|key| !(rules.is_weak(key) && unders.contains(key)))
}

// The keys to which the objects refer that aren't gone.
pub(crate) fn held_by<A: Allocator + Copy>(
    alloc: A,
    state: &[Object<A>],
    gone: &Keys<A>,
) -> Result<Keys<A>, AllocError>
    ensures { IfOk result (λ made. (k : KeyModel)
        → bag.contains same_key made k ≡ held same_key (things state.now) (bag.contains same_key gone.now) k) }
{
    let mut held = HashSet::new(alloc);
    for object in state {
        if !gone.contains(&object.key) {
            held = with_all(held, &object.refers)?;
        }
    }
    Ok(held)
}
