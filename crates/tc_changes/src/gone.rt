//! The objects of a state that go.

ghost use Rattle.std.specs.Prelude.{◌≡◌, [], true, Bool, IfOk, List, option_map};
ghost use Rattle.std.specs.List.{list_any};
ghost use Rattle.std.specs.HashSet as bag;
ghost use Rattle.tc_changes.specs.Model.{ready};
ghost use Rattle.tc_changes.specs.Planned.{goes_by, held, stays_by, IsLost};
ghost use Rattle.tc_changes.specs.Promises.{suits};
ghost use Rattle.tc_changes.specs.Requests.{keeps_weak};
ghost use Rattle.tc_changes.specs.Objects.{thing, things, same_key, IsIndexOf};
ghost use Rattle.tc_changes.specs.declared.key.Key.{Key as KeyModel};
ghost use Rattle.tc_changes.specs.Planned.{IsRound};

use crate::key::Key;
use crate::keys::{Keys, is_among};
use crate::object::Object;
use crate::places::{Index, look_up};
use crate::rules::Rules;
use crate::weak::held_by;
use std::alloc::{AllocError, Allocator};
use std::collections::HashSet;

// The keys of the objects that go: those that can't stay, that need one that goes, or that are weak and to which none refers that stays.
pub(crate) fn gone_of<A: Allocator + Copy, R: Rules<A>>(
    alloc: A,
    rules: &R,
    state: &[Object<A>],
    want: &[Object<A>],
    wanted: &Index<A>,
) -> Result<Keys<A>, AllocError>
    requires state_ready { ready same_key [] (things state.now) ≡ true }
    requires index { IsIndexOf (things want.now) wanted.now (things want.now) }
    ensures { IfOk result (λ gone. IsLost same_key (R.weak rules.now) (suits (R.weak rules.now) (R.takes rules.now)) (things state.now) (things want.now)
        (bag.contains same_key gone)) }
{
    let mut gone = HashSet::new(alloc);
    for _ in 0..state.len() {
        let referred = held_by(alloc, state, &gone)?;
        let round = another_round(rules, state, want, wanted, &referred, gone)?;
        gone = round.gone;
        if !round.is_more {
            return Ok(gone);
        }
    }
    Ok(gone)
}

// What is gone after a round, and whether it is more than before.
#[derive(Drop)]
struct Round<A: Allocator> {
    gone: Keys<A>,
    is_more: bool,
}

fn another_round<A: Allocator + Copy, R: Rules<A>>(
    rules: &R,
    state: &[Object<A>],
    want: &[Object<A>],
    wanted: &Index<A>,
    referred: &Keys<A>,
    gone: Keys<A>,
) -> Result<Round<A>, AllocError>
    requires state_ready { ready same_key [] (things state.now) ≡ true }
    requires index { IsIndexOf (things want.now) wanted.now (things want.now) }
    requires held_is { (k : KeyModel) → bag.contains same_key referred.now k ≡ held same_key (things state.now) (bag.contains same_key gone) k }
    ensures { IfOk result (λ round. IsRound same_key (R.weak rules.now) (suits (R.weak rules.now) (R.takes rules.now)) (things state.now) (things want.now)
        (bag.contains same_key gone) (bag.contains same_key round.gone) round.is_more (things state.now)) }
{
    let mut more = gone;
    let mut is_more = false;
    for object in state {
        if !more.contains(&object.key) && goes(rules, want, wanted, referred, &more, object) {
            more.insert(object.key)?;
            is_more = true;
        }
    }
    Ok(Round {
        gone: more,
        is_more,
    })
}

// True if an object can't stay, needs one that goes, or is weak and not held.
fn goes<A: Allocator, R: Rules<A>>(
    rules: &R,
    want: &[Object<A>],
    wanted: &Index<A>,
    referred: &Keys<A>,
    gone: &Keys<A>,
    object: &Object<A>,
) -> bool
    requires index { IsIndexOf (things want.now) wanted.now (things want.now) }
    ensures { result ≡ goes_by same_key (R.weak rules.now) (suits (R.weak rules.now) (R.takes rules.now)) (things want.now)
        (bag.contains same_key gone.now) (bag.contains same_key referred.now) (thing object.now) }
{
    !can_stay(rules, object, look_up(want, wanted, object.key))
        || ((any_in(gone, &object.under) || any_in(gone, &object.refers))
            || (rules.is_weak(&object.key) && !referred.contains(&object.key)))
}

// True if one of these keys is in a set.
fn any_in<A: Allocator>(set: &Keys<A>, keys: &[Key]) -> bool
    ensures { result ≡ list_any (bag.contains same_key set.now) keys.now }
{
    keys.iter().any(|key| set.contains(key))
}

// True if an object is what is wanted of its key, or can be changed into it.
fn can_stay<A: Allocator, R: Rules<A>>(
    rules: &R,
    object: &Object<A>,
    want: Option<&Object<A>>,
) -> bool
    ensures { result ≡ stays_by (suits (R.weak rules.now) (R.takes rules.now)) (thing object.now) (option_map (λ o. thing o.now) want.entry) }
{
    match want {
        Some(want) => {
            object.is_alike(want) || (rules.takes(object, want) && keeps_weak(rules, object, want))
        }
        None => false,
    }
}

// True if the new object refers to each weak one to which the old one refers.
fn keeps_weak<A: Allocator, R: Rules<A>>(rules: &R, old: &Object<A>, new: &Object<A>) -> bool
    ensures { result ≡ keeps_weak same_key (R.weak rules.now) (thing old.now) (thing new.now) }
{
    old.refers
        .iter()
        .all(|key| !rules.is_weak(key) || is_among(&new.refers, *key))
}
