//! Laws of the types of this crate, as contracts of functions that do nothing.

ghost use Rattle.tc_options.specs.FqCodel.{fq_codel_option, SameFqCodel};
ghost use Rattle.tc_options.specs.Ingress.{ingress_option, SameIngress};
ghost use Rattle.tc_options.specs.U32.{u32_option, SameU32};
ghost use Rattle.tc_options.specs.MatchAll.{matchall_option, SameMatchAll};
ghost use Rattle.tc_options.specs.Bpf.{bpf_option, SameBpf};
ghost use Rattle.tc_options.specs.Options.{tc_option, SameOption};
ghost use Rattle.tc_meaning.specs.Equal.{IsEqualityOf};
ghost use Rattle.tc_values.specs.Forgets.{ForgetsNothing};

use crate::filters::bpf::TcFilterBpfOption;
use crate::filters::cls_u32::TcFilterU32Option;
use crate::filters::matchall::TcFilterMatchAllOption;
use crate::options::TcOption;
use crate::qdiscs::fq_codel::TcQdiscFqCodelOption;
use crate::qdiscs::ingress::TcQdiscIngressOption;
use std::alloc::Allocator;

/// `a == b` if and only if their abstract values are equal.
pub fn equal<A: Allocator>()
    ensures fq_codel { IsEqualityOf ⟦<TcQdiscFqCodelOption<A> as PartialEq>⟧.eq fq_codel_option }
    ensures ingress { IsEqualityOf ⟦<TcQdiscIngressOption<A> as PartialEq>⟧.eq ingress_option }
    ensures u32 { IsEqualityOf ⟦<TcFilterU32Option<A> as PartialEq>⟧.eq u32_option }
    ensures matchall { IsEqualityOf ⟦<TcFilterMatchAllOption<A> as PartialEq>⟧.eq matchall_option }
    ensures bpf { IsEqualityOf ⟦<TcFilterBpfOption<A> as PartialEq>⟧.eq bpf_option }
    ensures option { IsEqualityOf ⟦<TcOption<A> as PartialEq>⟧.eq tc_option }
{}

/// Two values with the same abstract value hold the same.
#[tactic(auto, using(tc_values::proofs::Lists::attributes_once))]
pub fn forgets_nothing<A: Allocator>()
    ensures fq_codel { ForgetsNothing (fq_codel_option {A = A}) SameFqCodel }
    ensures ingress { ForgetsNothing (ingress_option {A = A}) SameIngress }
    ensures u32 { ForgetsNothing (u32_option {A = A}) SameU32 }
    ensures matchall { ForgetsNothing (matchall_option {A = A}) SameMatchAll }
    ensures bpf { ForgetsNothing (bpf_option {A = A}) SameBpf }
    ensures option { ForgetsNothing (tc_option {A = A}) SameOption }
{}
