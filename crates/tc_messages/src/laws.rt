//! Laws of messages and of their `==`, as contracts of functions that do nothing.

ghost use Rattle.std.specs.Prelude.{◌≡◌, ◌↔◌, IsTrue};
ghost use Rattle.tc_meaning.specs.Whole.{OneOutcome, tc_words, tc_bytes, FitsTc, SettledTc};
ghost use Rattle.tc_meaning.specs.Equal.{IsEqualityOf};
ghost use Rattle.tc_values.specs.Forgets.{ForgetsNothing};
ghost use Rattle.tc_messages.specs.Attribute.{tc_attribute, SameAttribute};
ghost use Rattle.tc_messages.specs.Message.{tc_message};

use crate::attribute::TcAttribute;
use crate::message::TcMessage;
use std::alloc::Allocator;
use tc_laws::rewriting;
use tc_meaning::laws;

/// Any bytes have exactly one reading and no fault, or no reading and exactly one fault.
pub fn one_outcome(bytes: &[u8])
    ensures { OneOutcome tc_words bytes.now }
{
    // A law, which does nothing: reading gives the one or the other.
    laws::tc_message(bytes);
}

/// `a == b` if and only if their abstract values are equal.
pub fn equal<A: Allocator>()
    ensures attribute { IsEqualityOf ⟦<TcAttribute<A> as PartialEq>⟧.eq tc_attribute }
    ensures message { IsEqualityOf ⟦<TcMessage<A> as PartialEq>⟧.eq tc_message }
{}

/// Two settled messages that fit are `==` if and only if `emit` writes the same bytes for both.
pub fn equal_bytes<A: Allocator>(one: &TcMessage<A>, other: &TcMessage<A>)
    ensures { FitsTc (tc_message one.now) → SettledTc (tc_message one.now)
        → FitsTc (tc_message other.now) → SettledTc (tc_message other.now)
        → IsTrue (⟦<TcMessage<A> as PartialEq>⟧.eq one.now other.now)
        ↔ tc_bytes (tc_message one.now) ≡ tc_bytes (tc_message other.now) }
{
    // A law, which does nothing, and two calls that say that both messages are typed; their results aren't used.
    rewriting::same_bytes();
    one.is_settled();
    other.is_settled();
}

/// Two attributes with the same abstract value hold the same.
#[tactic(auto, using(tc_values::proofs::Lists::attributes_once))]
pub fn forgets_nothing<A: Allocator>()
    ensures { ForgetsNothing (tc_attribute {A = A}) SameAttribute }
{}
