//! The options of a message, by its kind.

ghost use Rattle.std.specs.Prelude.{◌≡◌, ◌↔◌, true, IsTrue};
ghost use Rattle.tc_canon.specs.Descriptor.{table, is_known};
ghost use Rattle.tc_canon.specs.Tables.Options.{fq_codel_options, u32_options, matchall_options, bpf_options, option_kinds};
ghost use Rattle.tc_canon.specs.Canonical.{CanonTable, CanonOptions};

use crate::actions::Actions;
use crate::contents::{is_plain, is_terminated};
use crate::flower::FlowerOptions;
use crate::lists::{NoTypes, Table, is_canonical_list};
use crate::records::is_selector;
use nla_frames::NlaBuffer;

/// `TcQdiscFqCodelOption`.
struct FqCodelOptions;

impl Table for FqCodelOptions {
    ghost Canon = { CanonTable (table fq_codel_options) };

    fn is_canonical(_kind: &[u8], frame: &NlaBuffer<'_>) -> bool {
        match frame.kind() {
            1..=9 => is_plain(frame) && frame.value().len() == 4, // Target to MemoryLimit
            10 | 11 => is_plain(frame) && frame.value().len() == 1, // CeThresholdSelector, CeThresholdMask
            _ => true,
        }
    }
}

/// `TcFilterU32Option`.
struct U32Options;

impl Table for U32Options {
    ghost Canon = { CanonTable (table u32_options) };

    fn is_canonical(kind: &[u8], frame: &NlaBuffer<'_>) -> bool {
        let value = frame.value();
        match frame.kind() {
            1..=4 | 11 => is_plain(frame) && value.len() == 4, // ClassId, Hash, Link, Divisor, Flags
            5 => is_plain(frame) && is_selector(value), // Selector
            7 => is_plain(frame) && is_canonical_list::<Actions>(value, kind), // Action
            6 | 8 | 9 | 10 => is_plain(frame), // Police, Indev, Pnct, Mark
            _ => true,
        }
    }
}

/// `TcFilterMatchAllOption`.
struct MatchAllOptions;

impl Table for MatchAllOptions {
    ghost Canon = { CanonTable (table matchall_options) };

    fn is_canonical(kind: &[u8], frame: &NlaBuffer<'_>) -> bool {
        let value = frame.value();
        match frame.kind() {
            1 | 3 => is_plain(frame) && value.len() == 4, // ClassId, Flags
            2 => is_plain(frame) && is_canonical_list::<Actions>(value, kind), // Action
            4 => is_plain(frame), // Pnct
            _ => true,
        }
    }
}

/// `TcFilterBpfOption`.
struct BpfOptions;

impl Table for BpfOptions {
    ghost Canon = { CanonTable (table bpf_options) };

    fn is_canonical(_kind: &[u8], frame: &NlaBuffer<'_>) -> bool {
        let value = frame.value();
        match frame.kind() {
            3 | 6 | 8 | 9 | 11 => is_plain(frame) && value.len() == 4, // ClassId, ProgFd, Flags, FlagsGeneric, ProgId
            7 => is_plain(frame) && is_terminated(value), // ProgName
            10 => is_plain(frame) && value.len() == 8, // ProgTag
            _ => true,
        }
    }
}

/// True if the options of a message have a table under this kind.
pub(crate) fn has_options(kind: &[u8]) -> bool
    ensures { IsTrue result ↔ is_known option_kinds kind.now ≡ true }
{
    kind == b"fq_codel".as_slice()
        || kind == b"ingress".as_slice()
        || kind == b"flower".as_slice()
        || kind == b"u32".as_slice()
        || kind == b"matchall".as_slice()
        || kind == b"bpf".as_slice()
}

/// True if a value is a canonical list of options under a kind. `ingress` has no option. Under an unknown kind,
/// options aren't a list.
pub fn canon_options(value: &[u8], kind: &[u8]) -> bool
    ensures { IsTrue result ↔ CanonOptions kind.now value.now }
{
    if kind == b"fq_codel".as_slice() {
        is_canonical_list::<FqCodelOptions>(value, kind)
    } else if kind == b"ingress".as_slice() {
        is_canonical_list::<NoTypes>(value, kind)
    } else if kind == b"flower".as_slice() {
        is_canonical_list::<FlowerOptions>(value, kind)
    } else if kind == b"u32".as_slice() {
        is_canonical_list::<U32Options>(value, kind)
    } else if kind == b"matchall".as_slice() {
        is_canonical_list::<MatchAllOptions>(value, kind)
    } else if kind == b"bpf".as_slice() {
        is_canonical_list::<BpfOptions>(value, kind)
    } else {
        false
    }
}
