//! How action messages and their parts compare and hash, and their defaults, as contracts of functions.

ghost use Rattle.std.specs.Prelude.{◌≡◌, ◌↔◌, fold, Some, IsTrue, [], ◌∷◌};
ghost use Rattle.std.specs.Ordering.{is_eq};
ghost use Rattle.tc_meaning.specs.Tree.{plain};
ghost use Rattle.tc_meaning.specs.Whole.{OneOutcome, action_words, act_bytes, FitsAct, SettledAct};
ghost use Rattle.tc_meaning.specs.Equal.{IsEqualityOf};
ghost use Rattle.tc_values.specs.Forgets.{ForgetsNothing};
ghost use Rattle.tc_records.specs.Defaults.{DefaultsTo};
ghost use Rattle.tc_action_messages.specs.Flags.{flags_words, flags_cmp, flags_fed};
ghost use Rattle.tc_action_messages.specs.ActionMessageAttribute.{action_message_attribute, SameActionMessageAttribute};
ghost use Rattle.tc_action_messages.specs.ActionMessage.{action_message};

use crate::attribute::TcActionMessageAttribute;
use crate::flags::TcActionMessageFlagsWithSelector;
use crate::message::TcActionMessage;
use std::alloc::Allocator;
use std::cmp::Ordering;
use std::hash::{Hash, Hasher};
use tc_laws::rewriting;
use tc_meaning::laws;

/// Flags with a selector compare by the flags first, by `cmp` and `partial_cmp`. They are equal if and only if they compare
/// as `Equal`.
pub fn flags_order(
    first: TcActionMessageFlagsWithSelector,
    second: TcActionMessageFlagsWithSelector,
) -> (Ordering, Option<Ordering>, bool)
    ensures cmp { result.0 ≡ flags_cmp first second }
    ensures partial_cmp { result.1 ≡ Some (flags_cmp first second) }
    ensures eq { IsTrue result.2 ↔ first ≡ second }
    ensures equal { result.2 ≡ is_eq result.0 }
{
    (
        first.cmp(&second),
        first.partial_cmp(&second),
        first == second,
    )
}

/// Flags with a selector hash as their two words do, so equal ones have equal hashes.
pub fn flags_hash<H: Hasher>(flags: TcActionMessageFlagsWithSelector, state: &mut H)
    ensures { state.new ≡ fold H.write state.old (flags_fed flags) }
{
    flags.hash(state);
}

/// The default: no flags, none valid.
pub fn defaults()
    ensures { DefaultsTo ⟦<TcActionMessageFlagsWithSelector as Default>⟧.is_default flags_words
        (plain 0 ∷ plain 0 ∷ []) }
{}

/// Any bytes have exactly one reading and no fault, or no reading and exactly one fault.
pub fn one_outcome(bytes: &[u8])
    ensures { OneOutcome action_words bytes.now }
{
    // A law, which does nothing: reading gives the one or the other.
    laws::action_message(bytes);
}

/// `a == b` if and only if their abstract values are equal.
pub fn equal<A: Allocator>()
    ensures flags { IsEqualityOf ⟦<TcActionMessageFlagsWithSelector as PartialEq>⟧.eq flags_words }
    ensures attribute { IsEqualityOf ⟦<TcActionMessageAttribute<A> as PartialEq>⟧.eq
        action_message_attribute }
    ensures message { IsEqualityOf ⟦<TcActionMessage<A> as PartialEq>⟧.eq action_message }
{}

/// Two attributes with the same abstract value hold the same.
#[tactic(auto, using(tc_values::proofs::Lists::attributes_once))]
pub fn forgets_nothing<A: Allocator>()
    ensures { ForgetsNothing (action_message_attribute {A = A}) SameActionMessageAttribute }
{}

/// Two settled messages that fit are `==` if and only if `emit` writes the same bytes for both.
pub fn equal_bytes<A: Allocator>(one: &TcActionMessage<A>, other: &TcActionMessage<A>)
    ensures { FitsAct (action_message one.now) → SettledAct (action_message one.now)
        → FitsAct (action_message other.now) → SettledAct (action_message other.now)
        → IsTrue (⟦<TcActionMessage<A> as PartialEq>⟧.eq one.now other.now)
        ↔ act_bytes (action_message one.now) ≡ act_bytes (action_message other.now) }
{
    // A law, which does nothing, and two calls that say that both messages are typed; their results aren't used.
    rewriting::same_bytes();
    one.is_settled();
    other.is_settled();
}
