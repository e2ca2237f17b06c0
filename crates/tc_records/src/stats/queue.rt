//! Queue statistics.

ghost use Rattle.std.specs.Prelude.{◌≡◌, List, refl};
ghost use Rattle.tc_canon.specs.Layouts.{stats_queue};
ghost use Rattle.tc_records.specs.RecordWords.{seen, Scalar, read_record, record_codec};
ghost use Rattle.tc_records.specs.Statistics.{queue_scalars};

use crate::{
    Fields, FixedRecord, Octets, emit_record, is_settled_record, parse_record, record_len,
};
use nla_frames::{BytesMeaning, Emitable, Res, SettleBytes};

/// The length of `struct gnet_stats_queue` in bytes.
pub const TC_STATS_QUEUE_LEN: usize = 20;

/// Queue statistics, `struct gnet_stats_queue` of `linux/gen_stats.h`. Numbers are little-endian.
///
/// | Offset | Field | Type |
/// |---|---|---|
/// | 0 | `qlen` | u32 |
/// | 4 | `backlog` | u32 |
/// | 8 | `drops` | u32 |
/// | 12 | `requeues` | u32 |
/// | 16 | `overlimits` | u32 |
#[derive(PartialEq, Eq, Clone, Copy, Default, Debug)]
pub struct TcStatsQueue {
    /// Packets in the queue.
    pub qlen: u32,
    /// Bytes in the queue.
    pub backlog: u32,
    /// Packets dropped.
    pub drops: u32,
    /// Packets put back into the queue.
    pub requeues: u32,
    /// How often the queue was over its limit.
    pub overlimits: u32,
}

impl FixedRecord<TC_STATS_QUEUE_LEN> for TcStatsQueue {
    ghost layout = { stats_queue };

    ghost scalars = { queue_scalars };

    fn read(fields: &mut Fields<'_>) -> TcStatsQueue {
        TcStatsQueue {
            qlen: fields.u32(),
            backlog: fields.u32(),
            drops: fields.u32(),
            requeues: fields.u32(),
            overlimits: fields.u32(),
        }
    }

    fn write(&self, out: &mut Octets) {
        out.u32(self.qlen);
        out.u32(self.backlog);
        out.u32(self.drops);
        out.u32(self.requeues);
        out.u32(self.overlimits);
    }

    fn is_settled(&self) -> bool {
        true
    }

    fn copied(&self) -> Self {
        *self
    }

    fn in_range(self, _other: Self) {}

    ghost whole = { refl };
}

impl TcStatsQueue {
    /// Parses the statistics at the front of the payload and ignores what follows. Fails with
    /// `BufferTooSmall` if there are fewer bytes.
    pub fn parse(payload: &[u8]) -> Res<TcStatsQueue>
        ensures { seen queue_scalars result ≡ read_record stats_queue payload.now }
    {
        parse_record(payload)
    }
}

impl BytesMeaning for TcStatsQueue {
    ghost Seen = { List Scalar };

    ghost see = { queue_scalars };

    ghost codec = { record_codec stats_queue };
}

impl Emitable for TcStatsQueue {
    fn checked_len(&self) -> Option<usize> {
        record_len(self)
    }

    fn emit(&self, buffer: &mut [u8]) {
        emit_record(self, buffer);
    }
}

impl SettleBytes for TcStatsQueue {
    fn is_settled_under(&self, _kind: &str) -> bool {
        is_settled_record(self)
    }
}
