//! Plans.

ghost use Rattle.std.specs.Prelude.{◌≡◌, ◌≢◌, [], ◌++◌, map, true, Bool, IfErr, IfOk, List, reverse, option_to_list, All};
ghost use Rattle.tc_changes.specs.Model.{ready, Same};
ghost use Rattle.tc_changes.specs.Requests.{Delete, Leads, LeavesWhole, keeping, settled};
ghost use Rattle.tc_changes.specs.Plans.{IsExact, IsConfined, IsLeftAlone, IsSpared, IsGone, IsLeast, IsPlaced, IsBarred, barred_keys, barred_by};
ghost use Rattle.tc_changes.specs.Planned.{makes, planned, IsLost};
ghost use Rattle.tc_changes.specs.Promises.{IsUnready, suits};
ghost use Rattle.tc_changes.specs.declared.key.Key.{Key as KeyModel};
ghost use Rattle.tc_changes.specs.declared.plan_error.PlanError.TheVariants.{OutOfMemory};
ghost use Rattle.tc_changes.specs.Objects.{things, same_key, alike, request, IsIndexOf, KernelThing, IfSteps, IfRefused, IsNothing, IsRefused};

use crate::gone::gone_of;
use crate::key::Key;
use crate::object::Object;
use crate::order::stuck;
use crate::parts::{Parts, parted};
use crate::places::{Index, index_of, look_up};
use crate::plan_error::PlanError;
use crate::rules::Rules;
use crate::step::{Plan, Step};
use crate::weak::loose;
use std::alloc::{AllocError, Allocator};

/// The steps that lead from the present state to the wanted one. In both, each object comes after all that it needs
/// (`is_ready`). Deletes come first, from below, and none that another delete makes needless. Then objects are changed and
/// made, from above. A step that isn't sent any more leaves a state from which a plan leads on, or back. There are no steps if
/// an object can't be made that is wanted and isn't there, or has to be made again.
///
/// An object of the present state can be *weak* (`Rules::is_weak`): it goes with the last one that refers to it, and no request deletes it. It needs nothing,
/// another refers to it, and what is under it comes after all that refer to it.
///
/// # Errors
///
/// `PlanError::State` or `PlanError::Wanted` with the key of the first object that isn't in order, `PlanError::Weak` if the weak objects aren't so, and
/// `PlanError::OutOfMemory`.
pub fn plan<A: Allocator + Copy, R: Rules<A>>(
    alloc: A,
    rules: &R,
    state: &[Object<A>],
    want: Vec<Object<A>, A>,
) -> Result<Plan<A>, PlanError>
    ensures reaches { IfOk result (λ plan. IfSteps plan (λ requests.
        Leads same_key (R.weak rules.now) (keeping same_key (R.weak rules.now) (R.takes rules.now)) (things state.now) requests (things want.items))) }
    ensures exact { IfOk result (λ plan. IfSteps plan (λ requests.
        IsExact same_key (things state.now) (things want.items) requests)) }
    ensures confined { IfOk result (λ plan. IfSteps plan (λ requests.
        IsConfined (things state.now) (things want.items) requests)) }
    ensures idle { IfOk result (λ plan.
        Same same_key (things state.now) (things want.items) → IsNothing plan) }
    ensures keeps { IfOk result (λ plan. IfSteps plan (λ requests.
        IsLeftAlone same_key (R.weak rules.now) (suits (R.weak rules.now) (R.takes rules.now)) (things state.now) (things want.items) requests)) }
    ensures spares { IfOk result (λ plan. IfSteps plan (λ requests.
        IsSpared same_key (R.weak rules.now) (suits (R.weak rules.now) (R.takes rules.now)) (things state.now) (things want.items) requests)) }
    ensures gone { IfOk result (λ plan. IfSteps plan (λ requests.
        IsGone same_key (R.weak rules.now) requests)) }
    ensures least { IfOk result (λ plan. IfSteps plan (λ requests.
        IsLeast same_key (R.weak rules.now) (things state.now) requests)) }
    ensures placed { IfOk result (λ plan. IfSteps plan (λ requests.
        IsPlaced same_key requests)) }
    ensures resumes { IfOk result (λ plan. IfSteps plan (λ requests.
        LeavesWhole same_key (R.weak rules.now) (keeping same_key (R.weak rules.now) (R.takes rules.now)) (things state.now) requests)) }
    ensures sends { IfOk result (λ plan. IfSteps plan (λ requests.
        barred_keys (R.can_make rules.now) requests ≡ [])) }
    ensures refuses { IfOk result (λ plan. IfRefused plan (λ keys. (keys ≢ [])
        × All (IsBarred same_key (R.weak rules.now) (suits (R.weak rules.now) (R.takes rules.now)) (things state.now) (things want.items) (R.can_make rules.now)) keys)) }
    ensures returns { IfOk result (λ plan.
        All (λ o. R.can_make rules.now o ≡ true) (things want.items) → IsRefused plan → ⊥) }
    // It is an error if one of the states isn't in order, or if memory runs out.
    ensures unready { IfErr result (IsUnready (R.weak rules.now) (things state.now) (things want.items)) }
    ensures possible { ready same_key [] (things state.now) ≡ true → settled same_key (R.weak rules.now) (things state.now) [] (things state.now) ≡ true
        → ready same_key [] (things want.items) ≡ true
        → IfErr result (λ e. e ≡ OutOfMemory) }
{
    let early = stuck(alloc, state)?;
    if let Some(key) = early {
        return Err(PlanError::State(key));
    }
    let weak = loose(alloc, rules, state)?;
    if let Some(key) = weak {
        return Err(PlanError::Weak(key));
    }
    let late = stuck(alloc, &want)?;
    if let Some(key) = late {
        return Err(PlanError::Wanted(key));
    }
    let plan = plan_in_order(alloc, rules, state, want)?;
    Ok(plan)
}

// The same of states in order.
pub(crate) fn plan_in_order<A: Allocator + Copy, R: Rules<A>>(
    alloc: A,
    rules: &R,
    state: &[Object<A>],
    want: Vec<Object<A>, A>,
) -> Result<Plan<A>, AllocError>
    requires state_ready { ready same_key [] (things state.now) ≡ true }
    requires state_settled { settled same_key (R.weak rules.now) (things state.now) [] (things state.now) ≡ true }
    requires want_ready { ready same_key [] (things want.items) ≡ true }
    ensures reaches { IfOk result (λ plan. IfSteps plan (λ requests.
        Leads same_key (R.weak rules.now) (keeping same_key (R.weak rules.now) (R.takes rules.now)) (things state.now) requests (things want.items))) }
    ensures exact { IfOk result (λ plan. IfSteps plan (λ requests.
        IsExact same_key (things state.now) (things want.items) requests)) }
    ensures confined { IfOk result (λ plan. IfSteps plan (λ requests.
        IsConfined (things state.now) (things want.items) requests)) }
    ensures idle { IfOk result (λ plan.
        Same same_key (things state.now) (things want.items) → IsNothing plan) }
    ensures keeps { IfOk result (λ plan. IfSteps plan (λ requests.
        IsLeftAlone same_key (R.weak rules.now) (suits (R.weak rules.now) (R.takes rules.now)) (things state.now) (things want.items) requests)) }
    ensures spares { IfOk result (λ plan. IfSteps plan (λ requests.
        IsSpared same_key (R.weak rules.now) (suits (R.weak rules.now) (R.takes rules.now)) (things state.now) (things want.items) requests)) }
    ensures gone { IfOk result (λ plan. IfSteps plan (λ requests.
        IsGone same_key (R.weak rules.now) requests)) }
    ensures least { IfOk result (λ plan. IfSteps plan (λ requests.
        IsLeast same_key (R.weak rules.now) (things state.now) requests)) }
    ensures placed { IfOk result (λ plan. IfSteps plan (λ requests.
        IsPlaced same_key requests)) }
    ensures resumes { IfOk result (λ plan. IfSteps plan (λ requests.
        LeavesWhole same_key (R.weak rules.now) (keeping same_key (R.weak rules.now) (R.takes rules.now)) (things state.now) requests)) }
    ensures sends { IfOk result (λ plan. IfSteps plan (λ requests.
        barred_keys (R.can_make rules.now) requests ≡ [])) }
    ensures refuses { IfOk result (λ plan. IfRefused plan (λ keys. (keys ≢ [])
        × All (IsBarred same_key (R.weak rules.now) (suits (R.weak rules.now) (R.takes rules.now)) (things state.now) (things want.items) (R.can_make rules.now)) keys)) }
    ensures returns { IfOk result (λ plan.
        All (λ o. R.can_make rules.now o ≡ true) (things want.items) → IsRefused plan → ⊥) }
{
    let steps = steps_of(alloc, rules, state, want)?;
    let barred = barred_of(alloc, rules, &steps)?;
    if barred.is_empty() {
        Ok(Plan::Steps(steps))
    } else {
        Ok(Plan::Refused(barred))
    }
}

// The keys of objects that steps make, or change others into, and that can't be made.
fn barred_of<A: Allocator + Copy, R: Rules<A>>(
    alloc: A,
    rules: &R,
    steps: &[Step<A>],
) -> Result<Vec<Key, A>, AllocError>
    ensures { IfOk result (λ keys. keys.items ≡ barred_keys (R.can_make rules.now) (map request steps.now)) }
{
    let mut keys = Vec::new(alloc);
    for step in steps {
        if let Some(key) = barred_by(rules, step) {
            keys.push(key)?;
        }
    }
    Ok(keys)
}

fn barred_by<A: Allocator, R: Rules<A>>(rules: &R, step: &Step<A>) -> Option<Key>
    ensures { option_to_list result ≡ barred_by (R.can_make rules.now) (request step.now) }
{
    match step {
        Step::Delete(_) => None,
        Step::Change(object) | Step::Make(object) => {
            if rules.can_make(object) {
                None
            } else {
                Some(object.key)
            }
        }
    }
}

// The steps, whether or not all that they make can be made.
fn steps_of<A: Allocator + Copy, R: Rules<A>>(
    alloc: A,
    rules: &R,
    state: &[Object<A>],
    want: Vec<Object<A>, A>,
) -> Result<Vec<Step<A>, A>, AllocError>
    requires state_ready { ready same_key [] (things state.now) ≡ true }
    ensures { IfOk result (λ steps. (gone : KeyModel → Bool)
        × IsLost same_key (R.weak rules.now) (suits (R.weak rules.now) (R.takes rules.now)) (things state.now) (things want.items) gone
        × (map request steps.items ≡ planned same_key alike (R.weak rules.now) gone (things state.now) (things want.items))) }
{
    let wanted = index_of(alloc, &want)?;
    let going = gone_of(alloc, rules, state, &want, &wanted)?;
    let Parts { gone, kept } = parted(alloc, rules, state, &going)?;
    let deletes = deletes(alloc, gone)?;
    let steps = with_makes(deletes, state, &kept, want)?;
    Ok(steps)
}

// Deletes of these keys, the last one first.
fn deletes<A: Allocator + Copy>(alloc: A, gone: Vec<Key, A>) -> Result<Vec<Step<A>, A>, AllocError>
    ensures { IfOk result (λ steps. map request steps.items ≡ map Delete (reverse gone.items)) }
{
    let mut keys = gone;
    keys.reverse();
    let mut steps = Vec::with_capacity(alloc, keys.len())?;
    for key in &keys {
        steps.push(Step::Delete(*key))?;
    }
    Ok(steps)
}

// These steps, and those that make what is wanted of what stays.
fn with_makes<A: Allocator>(
    steps: Vec<Step<A>, A>,
    state: &[Object<A>],
    kept: &Index<A>,
    want: Vec<Object<A>, A>,
) -> Result<Vec<Step<A>, A>, AllocError>
    ensures { IfOk result (λ made. (stay : List KernelThing) → IsIndexOf (things state.now) kept.now stay
        → map request made.items ≡ map request steps.items ++ makes same_key alike stay (things want.items)) }
{
    let mut steps = steps;
    for object in want {
        match look_up(state, kept, object.key) {
            Some(old) => {
                if !old.is_alike(&object) {
                    steps.push(Step::Change(object))?;
                }
            }
            None => steps.push(Step::Make(object))?,
        }
    }
    Ok(steps)
}
