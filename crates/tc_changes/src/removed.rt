//! Keys that go, each with the key whose delete removes it.

ghost use Rattle.std.specs.Prelude.{◌≡◌};
ghost use Rattle.std.specs.HashMap as hash;
ghost use Rattle.tc_changes.specs.Planned.{first_by, is_all_by, is_all_but, remover_of};
ghost use Rattle.tc_changes.specs.Objects.{thing, same_key};

use crate::key::Key;
use crate::object::Object;
use crate::rules::Rules;
use std::alloc::Allocator;
use std::collections::HashMap;
use std::hash::{BuildHasherDefault, FoldHasher};

// The key whose delete removes each key that goes.
pub(crate) type Removed<A> = HashMap<Key, Key, BuildHasherDefault<FoldHasher>, A>;

// The one delete that removes all that an object needs and that goes, but for the weak objects to which it refers, if it is under some of that.
pub(crate) fn remover_of<A: Allocator, R: Rules<A>>(
    rules: &R,
    removed: &Removed<A>,
    object: &Object<A>,
) -> Option<Key>
    ensures { result ≡ remover_of same_key (R.weak rules.now) (hash.get same_key removed.now) (thing object.now) }
{
    match first_remover(removed, &object.under) {
        Some(first) => {
            if all_with(removed, &object.under, first)
                && all_but(rules, removed, &object.refers, first)
            {
                Some(first)
            } else {
                None
            }
        }
        None => None,
    }
}

// The delete that removes the first of these keys that goes.
fn first_remover<A: Allocator>(removed: &Removed<A>, keys: &[Key]) -> Option<Key>
    ensures { result ≡ first_by (hash.get same_key removed.now) keys.now }
{
    for key in keys {
        if let Some(remover) = removed.get(key) {
            return Some(*remover);
        }
    }
    None
}

// True if this delete removes each of these keys that goes.
fn all_with<A: Allocator>(removed: &Removed<A>, keys: &[Key], by: Key) -> bool
    ensures { result ≡ is_all_by same_key (hash.get same_key removed.now) by keys.now }
{
    keys.iter()
        .all(|key| by == removed.get(key).copied().unwrap_or(by))
}

// The same of those of them that aren't weak.
fn all_but<A: Allocator, R: Rules<A>>(
    rules: &R,
    removed: &Removed<A>,
    keys: &[Key],
    by: Key,
) -> bool
    ensures { result ≡ is_all_but same_key (R.weak rules.now) (hash.get same_key removed.now) by keys.now }
{
    keys.iter().all(|key| rules.is_weak(key) || by == removed.get(key).copied().unwrap_or(by))
}
