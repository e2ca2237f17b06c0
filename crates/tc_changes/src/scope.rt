//! Plans for a part of a state: the interfaces, blocks and actions that are named.

ghost use Rattle.std.specs.Prelude.{◌≡◌, ◌++◌, [], List, map, true, IfErr, IfNone, IfOk, IfSome};
ghost use Rattle.std.specs.List.{list_all};
ghost use Rattle.tc_changes.specs.Model.{ready};
ghost use Rattle.tc_changes.specs.Objects.{thing, things, request, same_key, IfSteps, IsSetOf};
ghost use Rattle.tc_changes.specs.Plans as plans;
ghost use Rattle.tc_changes.specs.Requests.{settled};
ghost use Rattle.tc_changes.specs.Promises.{IsPlan, IsUnreadyNow};
ghost use Rattle.tc_changes.specs.Scope.{around, scope_of, scopes, is_named, completed, AreFree, AreHeld, IsWithin};
ghost use Rattle.tc_changes.specs.declared.key.Key.{Key as KeyModel};
ghost use Rattle.tc_changes.specs.declared.plan_error.PlanError.TheVariants.{OutOfMemory};

use crate::key::Key;
use crate::keys::Keys;
use crate::object::Object;
use crate::order::stuck;
use crate::plan_error::PlanError;
use crate::planned::plan_in_order;
use crate::rules::Rules;
use crate::step::{Plan, Step};
use crate::weak::loose;
use std::alloc::{AllocError, Allocator};
use std::collections::HashSet;

/// The steps that lead to the wanted state on the interfaces and in the blocks where an object of it is, or one of these keys. An action is
/// named by its own key alone. All else stays as it is. It is an error if an object elsewhere needs one that isn't wanted, or one that has to be
/// made again.
///
/// # Errors
///
/// `PlanError::State` if the present state isn't in order, `PlanError::Weak` if its weak objects aren't as `plan` needs them, `PlanError::Elsewhere` if what is wanted isn't in order together
/// with all that stays, and `PlanError::OutOfMemory`.
pub fn plan_within<A: Allocator + Copy, R: Rules<A>>(
    alloc: A,
    rules: &R,
    keys: &[Key],
    state: &[Object<A>],
    want: Vec<Object<A>, A>,
) -> Result<Plan<A>, PlanError>
    // They are a plan to what is wanted there, and all else as it is, with all that `plan` promises.
    ensures planned { IfOk result (λ plan. IsPlan (R.weak rules.now) (R.takes rules.now) (R.can_make rules.now) (things state.now)
        (completed (scopes keys.now (things want.items)) (things state.now) (things want.items)) plan) }
    // Each is about an object there.
    ensures within { IfOk result (λ plan. IfSteps plan (IsWithin (scopes keys.now (things want.items)))) }
    // The present state isn't in order.
    ensures unready { IfErr result (IsUnreadyNow (R.weak rules.now) (things state.now)) }
    // There is a plan, unless memory runs out, if both states are in order, no object elsewhere needs one that is named, and each weak one there is held there.
    ensures possible { ready same_key [] (things state.now) ≡ true → settled same_key (R.weak rules.now) (things state.now) [] (things state.now) ≡ true
        → ready same_key [] (things want.items) ≡ true
        → AreHeld (R.weak rules.now) (scopes keys.now (things want.items)) (things state.now)
        → AreFree (scopes keys.now (things want.items)) (things state.now)
        → IfErr result (λ e. e ≡ OutOfMemory) }
{
    let early = stuck(alloc, state)?;
    if let Some(key) = early {
        return Err(PlanError::State(key));
    }
    let weak = loose(alloc, rules, state)?;
    if let Some(key) = weak {
        return Err(PlanError::Weak(key));
    }
    let named = named_by(alloc, keys, &want)?;
    let all = completed(alloc, &named, state, want)?;
    if let Some(key) = stuck(alloc, &all)? {
        return Err(PlanError::Elsewhere(key));
    }
    let plan = plan_in_order(alloc, rules, state, all)?;
    match first_elsewhere(&named, &plan) {
        Some(key) => Err(PlanError::Elsewhere(key)),
        None => Ok(plan),
    }
}

// Where these keys and the objects of a state are.
fn named_by<A: Allocator + Copy>(
    alloc: A,
    keys: &[Key],
    want: &[Object<A>],
) -> Result<Keys<A>, AllocError>
    ensures { IfOk result (λ named. IsSetOf named (scopes keys.now (things want.now))) }
{
    let named = with_keys(HashSet::new(alloc), keys)?;
    let all = with_objects(named, want)?;
    Ok(all)
}

fn with_keys<A: Allocator + Copy>(named: Keys<A>, keys: &[Key]) -> Result<Keys<A>, AllocError>
    ensures { IfOk result (λ made. (some : List KeyModel) → IsSetOf named some → IsSetOf made (some ++ map scope_of keys.now)) }
{
    let mut named = named;
    for key in keys {
        named.insert(scope_of(*key))?;
    }
    Ok(named)
}

fn with_objects<A: Allocator + Copy>(
    named: Keys<A>,
    objects: &[Object<A>],
) -> Result<Keys<A>, AllocError>
    ensures { IfOk result (λ made. (some : List KeyModel) → IsSetOf named some
        → IsSetOf made (some ++ map (λ o. scope_of o.key) (things objects.now))) }
{
    let mut named = named;
    for object in objects {
        named.insert(scope_of(object.key))?;
    }
    Ok(named)
}

// Where an object of this key is: its interface, or the block that interfaces share. An action is by itself.
fn scope_of(key: Key) -> Key
    ensures { result ≡ scope_of key }
{
    match key {
        Key::Place { index, parent } => around(index, parent),
        Key::Class { index, .. } => Key::Place { index, parent: 0 },
        Key::Chain { index, parent, .. } => around(index, parent),
        Key::Priority { index, parent, .. } => around(index, parent),
        Key::Filter { index, parent, .. } => around(index, parent),
        Key::Block { .. } | Key::Action { .. } => key,
    }
}

// An interface, or the block of this number, of which the interface is -1.
fn around(index: i32, parent: u32) -> Key
    ensures { result ≡ around index parent }
{
    if index == -1 {
        Key::Block { number: parent }
    } else {
        Key::Place { index, parent: 0 }
    }
}

fn is_named<A: Allocator>(named: &Keys<A>, key: Key) -> bool
    ensures { (some : List KeyModel) → IsSetOf named.now some → result ≡ is_named some key }
{
    named.contains(&scope_of(key))
}

// What is wanted, and all that is elsewhere.
fn completed<A: Allocator + Copy>(
    alloc: A,
    named: &Keys<A>,
    state: &[Object<A>],
    want: Vec<Object<A>, A>,
) -> Result<Vec<Object<A>, A>, AllocError>
    ensures { IfOk result (λ all. (some : List KeyModel) → IsSetOf named.now some
        → things all.items ≡ completed some (things state.now) (things want.items)) }
{
    let mut all = want;
    for object in state {
        if !is_named(named, object.key) {
            all.push(copied(alloc, object)?)?;
        }
    }
    Ok(all)
}

fn copied<A: Allocator + Copy>(alloc: A, object: &Object<A>) -> Result<Object<A>, AllocError>
    ensures { IfOk result (λ made. thing made ≡ thing object.now) }
{
    Ok(Object {
        key: object.key,
        under: Vec::from_slice(alloc, &object.under)?,
        refers: Vec::from_slice(alloc, &object.refers)?,
        config: Vec::from_slice(alloc, &object.config)?,
    })
}

// The key of the first step of a plan that is about an object elsewhere.
fn first_elsewhere<A: Allocator>(named: &Keys<A>, plan: &Plan<A>) -> Option<Key>
    ensures within { IfNone result ((some : List KeyModel) → IsSetOf named.now some → IfSteps plan.now (IsWithin some)) }
    ensures elsewhere { IfSome result (λ _. (some : List KeyModel) → IsSetOf named.now some → ¬ IfSteps plan.now (IsWithin some)) }
{
    match plan {
        Plan::Steps(steps) => first_step_elsewhere(named, steps),
        Plan::Refused(_) => None,
    }
}

fn first_step_elsewhere<A: Allocator>(named: &Keys<A>, steps: &[Step<A>]) -> Option<Key>
    ensures within { IfNone result ((some : List KeyModel) → IsSetOf named.now some → IsWithin some (map request steps.now)) }
    ensures elsewhere { IfSome result (λ _. (some : List KeyModel) → IsSetOf named.now some → ¬ IsWithin some (map request steps.now)) }
{
    for step in steps {
        let key = key_of(step);
        if !is_named(named, key) {
            return Some(key);
        }
    }
    None
}

fn key_of<A: Allocator>(step: &Step<A>) -> Key
    ensures { result ≡ plans.key_of (request step.now) }
{
    match step {
        Step::Make(object) | Step::Change(object) => object.key,
        Step::Delete(key) => *key,
    }
}
