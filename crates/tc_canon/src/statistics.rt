//! Canonical statistics.

ghost use Rattle.std.specs.Prelude.{◌↔◌, IsTrue};
ghost use Rattle.tc_canon.specs.Descriptor.{table, list_of};
ghost use Rattle.tc_canon.specs.Tables.Statistics.{stats2};
ghost use Rattle.tc_canon.specs.Canonical.{CanonTable, CanonClass, CanonXstats};

use crate::contents::is_plain;
use crate::lists::{Table, is_canonical_list};
use crate::records::{is_stats_basic, is_stats_queue};
use nla_frames::NlaBuffer;

/// True if a value is canonical statistics under a kind: for fq_codel a number, followed by the record that it names
/// if it is 0 or 1. For any other kind any bytes.
pub(crate) fn is_xstats(value: &[u8], kind: &[u8]) -> bool
    ensures { IsTrue result ↔ CanonXstats kind.now value.now }
{
    if kind != b"fq_codel".as_slice() {
        return true;
    }
    match value {
        [0, 0, 0, 0, record @ ..] => record.len() == 36,
        [1, 0, 0, 0, record @ ..] => record.len() == 24,
        _ => value.len() >= 4,
    }
}

/// `TcStats2`.
pub(crate) struct Stats2;

impl Table for Stats2 {
    ghost Canon = { CanonTable (table stats2) };

    fn is_canonical(kind: &[u8], frame: &NlaBuffer<'_>) -> bool {
        let value = frame.value();
        match frame.kind() {
            1 | 7 => is_plain(frame) && is_stats_basic(value), // Basic, BasicHw
            3 => is_plain(frame) && is_stats_queue(value), // Queue
            4 => is_plain(frame) && is_xstats(value, kind), // App
            _ => true,
        }
    }
}

/// True if a value is a canonical list of statistics, under a kind.
pub fn canon_stats2(value: &[u8], kind: &[u8]) -> bool
    ensures { IsTrue result ↔ CanonClass (list_of (table stats2)) kind.now value.now }
{
    is_canonical_list::<Stats2>(value, kind)
}
