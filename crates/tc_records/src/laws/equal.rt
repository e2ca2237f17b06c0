//! `==` is true if and only if the abstract values are equal.

ghost use Rattle.nla_frames.specs.DefaultNla.{kept_frame};
ghost use Rattle.tc_records.specs.Numbers.{family_scalar};
ghost use Rattle.tc_records.specs.Header.{handle_number, header_scalars};
ghost use Rattle.tc_records.specs.Actions.{action_message_header_scalars, generic_scalars, mirror_scalars, nat_scalars, tunnel_key_scalars};
ghost use Rattle.tc_records.specs.ActionType.{action_type_scalar};
ghost use Rattle.tc_records.specs.MirrorActionType.{mirror_action_type_scalar};
ghost use Rattle.tc_records.specs.Tcf.{tcf_scalars};
ghost use Rattle.tc_records.specs.Statistics.{stats_scalars, basic_scalars, queue_scalars, qd_stats_scalars, cl_stats_scalars};
ghost use Rattle.tc_records.specs.Selector.{key_scalars, selector_of};
ghost use Rattle.tc_records.specs.NatFlags.{nat_flags_word};
ghost use Rattle.tc_records.specs.MessageFlags.{message_flags_word};
ghost use Rattle.tc_records.specs.FilterFlags.{bpf_flags_word, selector_flags_byte, option_flags_word};
ghost use Rattle.tc_meaning.specs.Equal.{IsEqualityOf};

use crate::{
    TcActionGeneric, TcActionMessageFlags, TcActionMessageHeader, TcActionType, TcBpfFlags,
    TcFqCodelClStats, TcFqCodelQdStats, TcHandle, TcHeader, TcMirror, TcMirrorActionType, TcNat,
    TcNatFlags, TcStats, TcStatsBasic, TcStatsQueue, TcTunnelKey, TcU32Key, TcU32OptionFlags,
    TcU32Selector, TcU32SelectorFlags, Tcf,
};
use nla_frames::{AddressFamily, DefaultNla};
use std::alloc::Allocator;

/// Headers and statistics are equal if and only if their fields are. Padding isn't a field.
pub fn equal_statistics()
    ensures family { IsEqualityOf ⟦<AddressFamily as PartialEq>⟧.eq family_scalar }
    ensures handle { IsEqualityOf ⟦<TcHandle as PartialEq>⟧.eq handle_number }
    ensures header { IsEqualityOf ⟦<TcHeader as PartialEq>⟧.eq header_scalars }
    ensures action_header { IsEqualityOf ⟦<TcActionMessageHeader as PartialEq>⟧.eq
        action_message_header_scalars }
    ensures stats { IsEqualityOf ⟦<TcStats as PartialEq>⟧.eq stats_scalars }
    ensures basic { IsEqualityOf ⟦<TcStatsBasic as PartialEq>⟧.eq basic_scalars }
    ensures queue { IsEqualityOf ⟦<TcStatsQueue as PartialEq>⟧.eq queue_scalars }
    ensures qdisc { IsEqualityOf ⟦<TcFqCodelQdStats as PartialEq>⟧.eq qd_stats_scalars }
    ensures class { IsEqualityOf ⟦<TcFqCodelClStats as PartialEq>⟧.eq cl_stats_scalars }
{}

/// Records of actions and keys of selectors are equal if and only if their fields are.
pub fn equal_actions()
    ensures times { IsEqualityOf ⟦<Tcf as PartialEq>⟧.eq tcf_scalars }
    ensures outcome { IsEqualityOf ⟦<TcActionType as PartialEq>⟧.eq action_type_scalar }
    ensures direction { IsEqualityOf ⟦<TcMirrorActionType as PartialEq>⟧.eq mirror_action_type_scalar }
    ensures generic { IsEqualityOf ⟦<TcActionGeneric as PartialEq>⟧.eq generic_scalars }
    ensures mirror { IsEqualityOf ⟦<TcMirror as PartialEq>⟧.eq mirror_scalars }
    ensures nat { IsEqualityOf ⟦<TcNat as PartialEq>⟧.eq nat_scalars }
    ensures tunnel { IsEqualityOf ⟦<TcTunnelKey as PartialEq>⟧.eq tunnel_key_scalars }
    ensures key { IsEqualityOf ⟦<TcU32Key as PartialEq>⟧.eq key_scalars }
{}

/// Flags are equal if and only if their words are, raw attributes if and only if their words and bytes are, and
/// selectors if and only if their fields and keys are.
pub fn equal_words<A: Allocator>()
    ensures selected { IsEqualityOf ⟦<TcU32Selector<A> as PartialEq>⟧.eq selector_of }
    ensures kept { IsEqualityOf ⟦<DefaultNla<A> as PartialEq>⟧.eq kept_frame }
    ensures nat { IsEqualityOf ⟦<TcNatFlags as PartialEq>⟧.eq nat_flags_word }
    ensures message { IsEqualityOf ⟦<TcActionMessageFlags as PartialEq>⟧.eq message_flags_word }
    ensures bpf { IsEqualityOf ⟦<TcBpfFlags as PartialEq>⟧.eq bpf_flags_word }
    ensures selector { IsEqualityOf ⟦<TcU32SelectorFlags as PartialEq>⟧.eq selector_flags_byte }
    ensures option { IsEqualityOf ⟦<TcU32OptionFlags as PartialEq>⟧.eq option_flags_word }
{}
