//! Canonical actions and their options.

ghost use Rattle.std.specs.Prelude.{◌↔◌, List, ℕ, IsTrue};
ghost use Rattle.tc_canon.specs.Descriptor.{table, by_kind, every, list_of, own_list};
ghost use Rattle.tc_canon.specs.Tables.Actions.{mirror_options, nat_options, tunnel_key_options, action_option_kinds, action_attributes, actions};
ghost use Rattle.tc_canon.specs.Canonical.{CanonTable, CanonClass, CanonAction};

use crate::contents::{is_nested, is_plain, is_terminated, is_truth};
use crate::kinds::own_kind;
use crate::lists::{NoTypes, Table, is_canonical_list};
use crate::records::{is_mirror, is_nat, is_tcf, is_tunnel_key};
use crate::statistics::canon_stats2;
use nla_frames::NlaBuffer;

/// `TcActionMirrorOption`.
struct MirrorOptions;

impl Table for MirrorOptions {
    ghost Canon = { CanonTable (table mirror_options) };

    fn is_canonical(_kind: &[u8], frame: &NlaBuffer<'_>) -> bool {
        let value = frame.value();
        match frame.kind() {
            1 => is_plain(frame) && is_tcf(value), // Tm
            2 => is_plain(frame) && is_mirror(value), // Parms
            _ => true,
        }
    }
}

/// `TcActionNatOption`.
struct NatOptions;

impl Table for NatOptions {
    ghost Canon = { CanonTable (table nat_options) };

    fn is_canonical(_kind: &[u8], frame: &NlaBuffer<'_>) -> bool {
        let value = frame.value();
        match frame.kind() {
            1 => is_plain(frame) && is_nat(value), // Parms
            2 => is_plain(frame) && is_tcf(value), // Tm
            _ => true,
        }
    }
}

/// `TcActionTunnelKeyOption`.
struct TunnelKeyOptions;

impl Table for TunnelKeyOptions {
    ghost Canon = { CanonTable (table tunnel_key_options) };

    fn is_canonical(_kind: &[u8], frame: &NlaBuffer<'_>) -> bool {
        let value = frame.value();
        match frame.kind() {
            1 => is_plain(frame) && is_tcf(value), // Tm
            2 => is_plain(frame) && is_tunnel_key(value), // Parms
            3 | 4 | 7 => is_plain(frame) && value.len() == 4, // EncIpv4Src, EncIpv4Dst, EncKeyId
            5 | 6 => is_plain(frame) && value.len() == 16, // EncIpv6Src, EncIpv6Dst
            9 => is_plain(frame) && value.len() == 2, // EncDstPort
            10 => is_plain(frame) && is_truth(value), // NoCsum
            12 | 13 => is_plain(frame) && value.len() == 1, // EncTos, EncTtl
            _ => true,
        }
    }
}

/// True if a value is a canonical list of an action's options, under the action's kind.
pub fn canon_action_options(value: &[u8], kind: &[u8]) -> bool
    ensures { IsTrue result
        ↔ CanonClass (list_of (by_kind action_option_kinds)) kind.now value.now }
{
    if kind == b"mirred".as_slice() {
        is_canonical_list::<MirrorOptions>(value, kind)
    } else if kind == b"nat".as_slice() {
        is_canonical_list::<NatOptions>(value, kind)
    } else if kind == b"tunnel_key".as_slice() {
        is_canonical_list::<TunnelKeyOptions>(value, kind)
    } else {
        is_canonical_list::<NoTypes>(value, kind)
    }
}

/// `TcActionAttribute`.
struct ActionAttributes;

impl Table for ActionAttributes {
    ghost Canon = { CanonTable (table action_attributes) };

    fn is_canonical(kind: &[u8], frame: &NlaBuffer<'_>) -> bool {
        let value = frame.value();
        match frame.kind() {
            1 => is_plain(frame) && is_terminated(value), // Kind
            2 => is_nested(frame) && canon_action_options(value, kind), // Options
            3 | 10 => is_plain(frame) && value.len() == 4, // Index, InHwCount
            4 => is_plain(frame) && canon_stats2(value, kind), // Stats
            6 => is_plain(frame), // Cookie
            _ => true,
        }
    }
}

/// True if a value is a canonical action: its frames set one kind and are canonical under it.
pub fn canon_action(value: &[u8]) -> bool
    ensures { IsTrue result ↔ CanonAction value.now }
{
    match own_kind(value) {
        Some(own) => is_canonical_list::<ActionAttributes>(value, own),
        None => false,
    }
}

/// `TcAction`, in a list.
pub(crate) struct Actions;

impl Table for Actions {
    ghost Canon = { CanonTable (every (own_list action_attributes)) };

    fn is_canonical(_kind: &[u8], frame: &NlaBuffer<'_>) -> bool {
        is_plain(frame) && canon_action(frame.value())
    }
}

/// True if a value is a canonical list of actions, which is the same under every kind.
pub fn canon_actions(value: &[u8]) -> bool
    ensures { (kind : List ℕ) → IsTrue result ↔ CanonClass actions kind value.now }
{
    is_canonical_list::<Actions>(value, &[])
}
