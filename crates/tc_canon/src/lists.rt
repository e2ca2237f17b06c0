//! Lists of frames.

ghost use Rattle.std.specs.Prelude.{◌↔◌, List, ℕ, IsTrue};
ghost use Rattle.nla_frames.specs.Buffer.{frame_of};
ghost use Rattle.nla_frames.specs.Reading.{keep};
ghost use Rattle.tc_canon.specs.Descriptor.{table, others};
ghost use Rattle.tc_canon.specs.Canonical.{IsCanonAt, IsCanonList, CanonTable};

use crate::front::split_padded;
use nla_frames::{NLA_HEADER_SIZE, NlaBuffer};

/// A table of frames.
pub(crate) trait Table {
    ghost Canon: { IsCanonAt };

    /// True if a frame is canonical in this table, under a kind.
    fn is_canonical(kind: &[u8], frame: &NlaBuffer<'_>) -> bool
        ensures { IsTrue result ↔ Self.Canon kind.now (frame_of frame.now) };
}

/// A table that knows no type: every frame is canonical.
pub(crate) struct NoTypes;

impl Table for NoTypes {
    ghost Canon = { CanonTable (table others) };

    fn is_canonical(_kind: &[u8], _frame: &NlaBuffer<'_>) -> bool {
        true
    }
}

/// True if the bytes are frames, each padded in full with zeros and canonical in its table, under a kind.
pub(crate) fn is_canonical_list<T: Table>(bytes: &[u8], kind: &[u8]) -> bool
    ensures { IsTrue result ↔ IsCanonList T.Canon keep kind.now bytes.now }
{
    let mut rest = bytes;
    while rest.len() >= NLA_HEADER_SIZE {
        match split_padded(rest) {
            Some((frame, after)) => {
                if !T::is_canonical(kind, &frame) {
                    return false;
                }
                rest = after;
            }
            None => return false,
        }
    }
    rest.is_empty()
}
