//! Sets of keys.

ghost use Rattle.std.specs.Prelude.{◌≡◌, ◌++◌, IfOk, List};
ghost use Rattle.std.specs.List.{list_all};
ghost use Rattle.std.specs.HashSet as bag;
ghost use Rattle.tc_changes.specs.Model.{among};
ghost use Rattle.tc_changes.specs.Objects.{same_key, IsSetOf};
ghost use Rattle.tc_changes.specs.declared.key.Key.{Key as KeyModel};

use crate::key::Key;
use std::alloc::{AllocError, Allocator};
use std::collections::HashSet;
use std::hash::{BuildHasherDefault, FoldHasher};

// A set of keys.
pub(crate) type Keys<A> = HashSet<Key, BuildHasherDefault<FoldHasher>, A>;

// True if each of these keys is in a set.
pub(crate) fn all_in<A: Allocator>(set: &Keys<A>, keys: &[Key]) -> bool
    ensures { result ≡ list_all (λ key. bag.contains same_key set.now key) keys.now }
{
    keys.iter().all(|key| set.contains(key))
}

// A set with these keys too.
pub(crate) fn with_all<A: Allocator + Copy>(
    set: Keys<A>,
    keys: &[Key],
) -> Result<Keys<A>, AllocError>
    ensures { IfOk result (λ made. (some : List KeyModel) → IsSetOf set some → IsSetOf made (some ++ keys.now)) }
{
    let mut made = set;
    for key in keys {
        made.insert(*key)?;
    }
    Ok(made)
}

// True if a key is one of these.
pub(crate) fn is_among(keys: &[Key], key: Key) -> bool
    ensures { result ≡ among same_key keys.now key }
{
    keys.iter().any(|other| key == *other)
}
