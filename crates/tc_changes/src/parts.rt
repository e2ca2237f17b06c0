//! The objects of a state that go, and the others, which stay.

ghost use Rattle.std.specs.Prelude.{◌≡◌, [], ◌∷◌, ◌++◌, IfOk, reverse, is_some, ◌||◌, if◌then◌else◌};
ghost use Rattle.std.specs.HashSet as bag;
ghost use Rattle.tc_changes.specs.Planned.{kept, asked};
ghost use Rattle.tc_changes.specs.Objects.{things, same_key, IsIndexOf};

use crate::key::Key;
use crate::keys::Keys;
use crate::object::Object;
use crate::places::Index;
use crate::removed::remover_of;
use crate::rules::Rules;
use std::alloc::{AllocError, Allocator};
use std::collections::HashMap;

// The keys of objects to delete, and the places of those that stay.
#[derive(Drop)]
pub(crate) struct Parts<A: Allocator> {
    pub(crate) gone: Vec<Key, A>,
    pub(crate) kept: Index<A>,
}

// The parts of a state, by the keys that go.
pub(crate) fn parted<A: Allocator + Copy, R: Rules<A>>(
    alloc: A,
    rules: &R,
    state: &[Object<A>],
    going: &Keys<A>,
) -> Result<Parts<A>, AllocError>
    ensures gone { IfOk result (λ parts. reverse parts.gone.items
        ≡ asked same_key (R.weak rules.now) (bag.contains same_key going.now) [] (things state.now)) }
    ensures kept { IfOk result (λ parts. IsIndexOf (things state.now) parts.kept
        (kept same_key (R.weak rules.now) (bag.contains same_key going.now) (things state.now))) }
{
    let mut removed = HashMap::new(alloc);
    let mut gone = Vec::new(alloc);
    let mut kept = HashMap::new(alloc);
    for (place, object) in state.iter().enumerate() {
        if going.contains(&object.key) {
            let remover = remover_of(rules, &removed, object);
            gone = with_asked(gone, object.key, is_along(rules, object, remover))?;
            removed.insert(object.key, remover.unwrap_or(object.key))?;
        } else {
            kept.insert(object.key, place)?;
        }
    }
    Ok(Parts { gone, kept })
}

// A key too, unless its object goes by itself or with others.
fn with_asked<A: Allocator>(
    gone: Vec<Key, A>,
    key: Key,
    is_along: bool,
) -> Result<Vec<Key, A>, AllocError>
    ensures { IfOk result (λ made. made.items ≡ (if is_along then gone.items else gone.items ++ key ∷ [])) }
{
    let mut gone = gone;
    if !is_along {
        gone.push(key)?;
    }
    Ok(gone)
}

// True if an object that goes isn't asked for: another delete removes it, or it is weak.
fn is_along<A: Allocator, R: Rules<A>>(rules: &R, object: &Object<A>, remover: Option<Key>) -> bool
    ensures { result ≡ (is_some remover || R.weak rules.now object.now.key) }
{
    remover.is_some() || rules.is_weak(&object.key)
}
