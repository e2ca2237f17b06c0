//! Laws of the types of this crate, as contracts of functions that do nothing.

ghost use Rattle.tc_actions.specs.FqCodelXstats.{fq_codel_xstats, SameFqCodelXstats};
ghost use Rattle.tc_actions.specs.Xstats.{tc_xstats, SameXstats};
ghost use Rattle.tc_actions.specs.Stats2.{tc_stats2, SameStats2};
ghost use Rattle.tc_actions.specs.Mirror.{mirror_option, SameMirror};
ghost use Rattle.tc_actions.specs.Nat.{nat_option, SameNat};
ghost use Rattle.tc_actions.specs.TunnelKey.{tunnel_key_option, SameTunnelKey};
ghost use Rattle.tc_actions.specs.ActionOption.{action_option, SameActionOption};
ghost use Rattle.tc_actions.specs.ActionAttribute.{action_attribute, SameActionAttribute};
ghost use Rattle.tc_actions.specs.Action.{tc_action, SameAction};
ghost use Rattle.tc_meaning.specs.Equal.{IsEqualityOf};
ghost use Rattle.tc_values.specs.Forgets.{ForgetsNothing};

use crate::{
    TcAction, TcActionAttribute, TcActionMirrorOption, TcActionNatOption, TcActionOption,
    TcActionTunnelKeyOption, TcFqCodelXstats, TcStats2, TcXstats,
};
use std::alloc::Allocator;

/// `a == b` if and only if their abstract values are equal.
pub fn equal<A: Allocator>()
    ensures several { IsEqualityOf ⟦<TcStats2<A> as PartialEq>⟧.eq tc_stats2 }
    ensures own { IsEqualityOf ⟦<TcXstats<A> as PartialEq>⟧.eq tc_xstats }
    ensures of_fq_codel { IsEqualityOf ⟦<TcFqCodelXstats<A> as PartialEq>⟧.eq fq_codel_xstats }
    ensures mirror { IsEqualityOf ⟦<TcActionMirrorOption<A> as PartialEq>⟧.eq mirror_option }
    ensures nat { IsEqualityOf ⟦<TcActionNatOption<A> as PartialEq>⟧.eq nat_option }
    ensures tunnel_key { IsEqualityOf ⟦<TcActionTunnelKeyOption<A> as PartialEq>⟧.eq
        tunnel_key_option }
    ensures option { IsEqualityOf ⟦<TcActionOption<A> as PartialEq>⟧.eq action_option }
    ensures attribute { IsEqualityOf ⟦<TcActionAttribute<A> as PartialEq>⟧.eq action_attribute }
    ensures action { IsEqualityOf ⟦<TcAction<A> as PartialEq>⟧.eq tc_action }
{}

/// Two values with the same abstract value hold the same.
#[tactic(auto, using(tc_values::proofs::Lists::attributes_once))]
pub fn forgets_nothing<A: Allocator>()
    ensures several { ForgetsNothing (tc_stats2 {A = A}) SameStats2 }
    ensures own { ForgetsNothing (tc_xstats {A = A}) SameXstats }
    ensures of_fq_codel { ForgetsNothing (fq_codel_xstats {A = A}) SameFqCodelXstats }
    ensures mirror { ForgetsNothing (mirror_option {A = A}) SameMirror }
    ensures nat { ForgetsNothing (nat_option {A = A}) SameNat }
    ensures tunnel_key { ForgetsNothing (tunnel_key_option {A = A}) SameTunnelKey }
    ensures option { ForgetsNothing (action_option {A = A}) SameActionOption }
    ensures attribute { ForgetsNothing (action_attribute {A = A}) SameActionAttribute }
    ensures action { ForgetsNothing (tc_action {A = A}) SameAction }
{}
