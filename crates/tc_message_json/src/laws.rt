//! Laws of the events of messages. The functions do nothing: their contracts are the laws.

ghost use Rattle.std.specs.Prelude.{◌≡◌, ◌↔◌, IsTrue};
ghost use Rattle.tc_wire.specs.Facade.{FitsTc, SettledTc, FitsAct, SettledAct, tc_message, action_message};
ghost use Rattle.tc_message_json.specs.Sent.{tc_events, action_events};

use std::alloc::Allocator;
use tc_wire::{TcActionMessage, TcMessage};

/// Two settled traffic control messages that fit are `==` if and only if they have the same events.
pub fn equal_tc_messages<A: Allocator>(one: &TcMessage<A>, other: &TcMessage<A>)
    ensures { FitsTc (tc_message one.now) → SettledTc (tc_message one.now)
        → FitsTc (tc_message other.now) → SettledTc (tc_message other.now)
        → IsTrue (⟦<TcMessage<A> as PartialEq>⟧.eq one.now other.now)
        ↔ tc_events (tc_message one.now) ≡ tc_events (tc_message other.now) }
{
    // A law, which does nothing, and two calls that say that both messages are typed; their results aren't used.
    tc_messages::laws::equal_bytes(one, other);
    one.is_settled();
    other.is_settled();
}

/// Two settled action messages that fit are `==` if and only if they have the same events.
pub fn equal_action_messages<A: Allocator>(one: &TcActionMessage<A>, other: &TcActionMessage<A>)
    ensures { FitsAct (action_message one.now) → SettledAct (action_message one.now)
        → FitsAct (action_message other.now) → SettledAct (action_message other.now)
        → IsTrue (⟦<TcActionMessage<A> as PartialEq>⟧.eq one.now other.now)
        ↔ action_events (action_message one.now) ≡ action_events (action_message other.now) }
{
    // A law, which does nothing, and two calls that say that both messages are typed; their results aren't used.
    tc_action_messages::laws::equal_bytes(one, other);
    one.is_settled();
    other.is_settled();
}
