//! Laws of records, numbers and flags, each the contract of a function that does nothing: how flags compare and hash,
//! and the defaults.

ghost use Rattle.std.specs.Prelude.{◌≡◌, ◌↔◌, ◌<◌, ℕ, pos, negsuc, List, fold, Ok, Some, IsTrue};
ghost use Rattle.std.specs.Ordering.{nat_cmp, is_eq};
ghost use Rattle.std.specs.Hash as fed;
ghost use Rattle.std.specs.Int.{w32, cast_unsigned};
ghost use Rattle.nla_frames.specs.Value.{le_bytes};
ghost use Rattle.nla_frames.specs.declared.family.AddressFamily.TheVariants.{Unspec};
ghost use Rattle.tc_canon.specs.Descriptor.{Field, named};
ghost use Rattle.tc_canon.specs.Layouts.{action_types, mirror_action_types};
ghost use Rattle.tc_canon.specs.Layouts.{action_message_header, stats, stats_basic, stats_queue, fq_codel_qd_stats, fq_codel_cl_stats, tcf, selector_key};
ghost use Rattle.tc_canon.specs.Canonical.{CanonFields};
ghost use Rattle.tc_meaning.specs.Tree.{Scalar};
ghost use Rattle.tc_meaning.specs.Layout.{read_field, fields_bytes, TypedFields, SettledFields};
ghost use Rattle.tc_meaning.specs.Content.{read_record};
ghost use Rattle.tc_records.specs.ActionType.{action_type_of, action_type_number, action_type_scalar};
ghost use Rattle.tc_records.specs.MirrorActionType.{mirror_action_type_of, mirror_action_type_number, mirror_action_type_scalar};
ghost use Rattle.tc_records.specs.Header.{handle_of, handle_number, empty_header};
ghost use Rattle.tc_records.specs.Statistics.{stats_scalars, basic_scalars, queue_scalars, qd_stats_scalars, cl_stats_scalars};
ghost use Rattle.tc_records.specs.Tcf.{tcf_scalars};
ghost use Rattle.tc_records.specs.Actions.{action_message_header_scalars, mirror_scalars, tunnel_key_scalars, empty_generic, IsEmptyNat};
ghost use Rattle.tc_records.specs.Record.{ForgetsNothing};
ghost use Rattle.tc_records.specs.Selector.{key_scalars};
ghost use Rattle.tc_records.specs.Defaults.{DefaultsTo, zeros, mirror_default, tunnel_key_default};
ghost use Rattle.tc_records.specs.Flags.{KnowsEvery};
ghost use Rattle.tc_records.specs.NatFlags.{nat_flags_word, nat_flags_table};
ghost use Rattle.tc_records.specs.MessageFlags.{message_flags_word, message_flags_table};
ghost use Rattle.tc_records.specs.FilterFlags.{bpf_flags_word, bpf_flags_table, selector_flags_byte, selector_flags_table, option_flags_word, option_flags_table};

pub mod equal;
pub mod in_range;
pub mod selectors;

use crate::{
    TcActionGeneric, TcActionMessageFlags, TcActionMessageHeader, TcActionType, TcFqCodelClStats,
    TcFqCodelQdStats, TcHandle, TcHeader, TcMirror, TcMirrorActionType, TcNat, TcNatFlags, TcStats,
    TcStatsBasic, TcStatsQueue, TcTunnelKey, TcU32Key, TcU32SelectorFlags, Tcf,
};
use nla_frames::AddressFamily;
use std::cmp::Ordering;
use std::hash::{Hash, Hasher};

/// Laws of records of any layout. The bytes written for a record read as the record if and only if it is settled. Bytes
/// that read as a record are the bytes written for it if and only if they are canonical: as long as the record, with
/// zero padding. Canonical bytes read as a settled record, and the bytes of a settled record are canonical.
pub fn records(bytes: &[u8])
    ensures back { (layout : List Field) (xs : List Scalar) → TypedFields layout xs
        → (read_record layout (fields_bytes layout xs) ≡ Ok xs) ↔ SettledFields layout xs }
    ensures typed { (layout : List Field) (xs : List Scalar) → read_record layout bytes.now ≡ Ok xs
        → TypedFields layout xs }
    ensures same { (layout : List Field) (xs : List Scalar) → read_record layout bytes.now ≡ Ok xs
        → (fields_bytes layout xs ≡ bytes.now) ↔ CanonFields layout bytes.now }
    ensures canonical { (layout : List Field) → CanonFields layout bytes.now
        → (xs : List Scalar) × (read_record layout bytes.now ≡ Ok xs) × SettledFields layout xs }
    ensures settled { (layout : List Field) (xs : List Scalar) → TypedFields layout xs
        → SettledFields layout xs → CanonFields layout (fields_bytes layout xs) }
{}

/// Handles and 32-bit words correspond one to one.
pub fn handle_numbers()
    ensures word { (n : ℕ) → handle_number (handle_of n) ≡ n }
    ensures handle { (h : TcHandle) → h.minor < 0x10000 → handle_of (handle_number h) ≡ h }
{}

/// Converting a number to its enum and back returns the number, so reading and writing loses nothing. The enum names
/// exactly the numbers that the layouts of records name.
pub fn action_numbers(number: i32)
    ensures outcome { action_type_number (action_type_of number) ≡ number }
    ensures outcome_field { action_type_scalar (action_type_of number)
        ≡ read_field (named 4 action_types) (le_bytes 4 (cast_unsigned w32 number)) }
    ensures mirror { mirror_action_type_number (mirror_action_type_of number) ≡ number }
    ensures mirror_field { mirror_action_type_scalar (mirror_action_type_of number)
        ≡ read_field (named 4 mirror_action_types) (le_bytes 4 (cast_unsigned w32 number)) }
{}

/// Every bit of a word belongs to a flag, so `from_bits` accepts every word.
pub fn flag_words()
    ensures nat { KnowsEvery 32 nat_flags_table }
    ensures message { KnowsEvery 32 message_flags_table }
    ensures bpf { KnowsEvery 32 bpf_flags_table }
    ensures selector { KnowsEvery 8 selector_flags_table }
    ensures option { KnowsEvery 32 option_flags_table }
{}

/// Flags with equal words are equal.
pub fn flags_forget_nothing()
    ensures nat { ForgetsNothing nat_flags_word }
    ensures message { ForgetsNothing message_flags_word }
    ensures bpf { ForgetsNothing bpf_flags_word }
    ensures selector { ForgetsNothing selector_flags_byte }
    ensures option { ForgetsNothing option_flags_word }
{}

/// `cmp` and `partial_cmp` of the flags of action messages compare their words. Flags are equal if and only if they
/// compare as `Equal`.
pub fn message_flags_order(
    first: TcActionMessageFlags,
    second: TcActionMessageFlags,
) -> (Ordering, Option<Ordering>, bool)
    ensures cmp { result.0 ≡ nat_cmp (message_flags_word first) (message_flags_word second) }
    ensures partial_cmp { result.1
        ≡ Some (nat_cmp (message_flags_word first) (message_flags_word second)) }
    ensures eq { IsTrue result.2 ↔ first ≡ second }
    ensures equal { result.2 ≡ is_eq result.0 }
{
    (
        first.cmp(&second),
        first.partial_cmp(&second),
        first == second,
    )
}

/// The flags of an action message hash as their word, so equal flags have equal hashes.
pub fn message_flags_hash<H: Hasher>(flags: TcActionMessageFlags, state: &mut H)
    ensures { state.new ≡ fold H.write state.old (fed.u32 (message_flags_word flags)) }
{
    flags.hash(state);
}

/// The defaults: no flags, every number 0, the family `Unspec`, but a verdict is `Unspec` (-1), and a mirror's
/// direction `EgressRedir` (1).
pub fn defaults()
    ensures family { DefaultsTo ⟦<AddressFamily as Default>⟧.is_default (λ x. x) Unspec }
    ensures handle { DefaultsTo ⟦<TcHandle as Default>⟧.is_default (λ x. x) (handle_of 0) }
    ensures header { DefaultsTo ⟦<TcHeader as Default>⟧.is_default (λ x. x) empty_header }
    ensures action_header { DefaultsTo ⟦<TcActionMessageHeader as Default>⟧.is_default
        action_message_header_scalars (zeros action_message_header) }
    ensures stats { DefaultsTo ⟦<TcStats as Default>⟧.is_default stats_scalars (zeros stats) }
    ensures basic { DefaultsTo ⟦<TcStatsBasic as Default>⟧.is_default basic_scalars
        (zeros stats_basic) }
    ensures queue { DefaultsTo ⟦<TcStatsQueue as Default>⟧.is_default queue_scalars
        (zeros stats_queue) }
    ensures qdisc { DefaultsTo ⟦<TcFqCodelQdStats as Default>⟧.is_default qd_stats_scalars
        (zeros fq_codel_qd_stats) }
    ensures class { DefaultsTo ⟦<TcFqCodelClStats as Default>⟧.is_default cl_stats_scalars
        (zeros fq_codel_cl_stats) }
    ensures times { DefaultsTo ⟦<Tcf as Default>⟧.is_default tcf_scalars (zeros tcf) }
    ensures key { DefaultsTo ⟦<TcU32Key as Default>⟧.is_default key_scalars (zeros selector_key) }
    ensures outcome { DefaultsTo ⟦<TcActionType as Default>⟧.is_default action_type_number
        (negsuc 0) }
    ensures direction { DefaultsTo ⟦<TcMirrorActionType as Default>⟧.is_default
        mirror_action_type_number (pos 1) }
    ensures generic { DefaultsTo ⟦<TcActionGeneric as Default>⟧.is_default (λ x. x) empty_generic }
    ensures mirror { DefaultsTo ⟦<TcMirror as Default>⟧.is_default mirror_scalars mirror_default }
    ensures nat { (x : TcNat) → ⟦<TcNat as Default>⟧.is_default x → IsEmptyNat x }
    ensures tunnel { DefaultsTo ⟦<TcTunnelKey as Default>⟧.is_default tunnel_key_scalars
        tunnel_key_default }
    ensures nat_flags { DefaultsTo ⟦<TcNatFlags as Default>⟧.is_default nat_flags_word 0 }
    ensures message_flags { DefaultsTo ⟦<TcActionMessageFlags as Default>⟧.is_default
        message_flags_word 0 }
    ensures selector_flags { DefaultsTo ⟦<TcU32SelectorFlags as Default>⟧.is_default
        selector_flags_byte 0 }
{}
