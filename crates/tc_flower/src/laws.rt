//! Laws of the types of this crate, as contracts of functions that do nothing.

ghost use Rattle.tc_flower.specs.Mpls.{lse_option, mpls_option, SameLse, SameMpls};
ghost use Rattle.tc_flower.specs.Flower.{flower_option, SameFlower};
ghost use Rattle.tc_meaning.specs.Equal.{IsEqualityOf};
ghost use Rattle.tc_values.specs.Forgets.{ForgetsNothing};

use crate::{TcFilterFlowerMplsLseOption, TcFilterFlowerMplsOption, TcFilterFlowerOption};
use std::alloc::Allocator;

/// `a == b` if and only if their abstract values are equal.
pub fn equal<A: Allocator>()
    ensures flower { IsEqualityOf ⟦<TcFilterFlowerOption<A> as PartialEq>⟧.eq flower_option }
    ensures mpls { IsEqualityOf ⟦<TcFilterFlowerMplsOption<A> as PartialEq>⟧.eq mpls_option }
    ensures entry { IsEqualityOf ⟦<TcFilterFlowerMplsLseOption<A> as PartialEq>⟧.eq lse_option }
{}

/// Two values with the same abstract value hold the same.
#[tactic(auto, using(tc_values::proofs::Lists::attributes_once))]
pub fn forgets_nothing<A: Allocator>()
    ensures flower { ForgetsNothing (flower_option {A = A}) SameFlower }
    ensures mpls { ForgetsNothing (mpls_option {A = A}) SameMpls }
    ensures entry { ForgetsNothing (lse_option {A = A}) SameLse }
{}
