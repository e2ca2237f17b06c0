//! Statistics as one record, from before `TCA_STATS2`.

ghost use Rattle.std.specs.Prelude.{◌≡◌, List, refl};
ghost use Rattle.tc_canon.specs.Layouts.{stats};
ghost use Rattle.tc_records.specs.RecordWords.{seen, Scalar, read_record, record_codec};
ghost use Rattle.tc_records.specs.Statistics.{stats_scalars};

use crate::{
    Fields, FixedRecord, Octets, emit_record, is_settled_record, parse_record, record_len,
};
use nla_frames::{BytesMeaning, Emitable, Res, SettleBytes};

/// The length of `struct tc_stats` in bytes, with its padding.
pub const TC_STATS_LEN: usize = 40;

/// The statistics of a queue, `struct tc_stats` of `linux/pkt_sched.h` (`TCA_STATS`). Numbers are little-endian.
///
/// | Offset | Field | Type |
/// |---|---|---|
/// | 0 | `bytes` | u64 |
/// | 8 | `packets` | u32 |
/// | 12 | `drops` | u32 |
/// | 16 | `overlimits` | u32 |
/// | 20 | `bps` | u32 |
/// | 24 | `pps` | u32 |
/// | 28 | `qlen` | u32 |
/// | 32 | `backlog` | u32 |
/// | 36 | padding | 4 bytes |
#[derive(PartialEq, Eq, Clone, Copy, Default, Debug)]
pub struct TcStats {
    /// Bytes enqueued.
    pub bytes: u64,
    /// Packets enqueued.
    pub packets: u32,
    /// Packets dropped for lack of space.
    pub drops: u32,
    /// How often the queue was throttled by its rate.
    pub overlimits: u32,
    /// The current rate in bytes per second.
    pub bps: u32,
    /// The current rate in packets per second.
    pub pps: u32,
    /// Packets in the queue.
    pub qlen: u32,
    /// Bytes in the queue.
    pub backlog: u32,
}

impl FixedRecord<TC_STATS_LEN> for TcStats {
    ghost layout = { stats };

    ghost scalars = { stats_scalars };

    fn read(fields: &mut Fields<'_>) -> TcStats {
        let all = TcStats {
            bytes: fields.u64(),
            packets: fields.u32(),
            drops: fields.u32(),
            overlimits: fields.u32(),
            bps: fields.u32(),
            pps: fields.u32(),
            qlen: fields.u32(),
            backlog: fields.u32(),
        };
        fields.octets(4);
        all
    }

    fn write(&self, out: &mut Octets) {
        out.u64(self.bytes);
        out.u32(self.packets);
        out.u32(self.drops);
        out.u32(self.overlimits);
        out.u32(self.bps);
        out.u32(self.pps);
        out.u32(self.qlen);
        out.u32(self.backlog);
        out.pad(4);
    }

    fn is_settled(&self) -> bool {
        true
    }

    fn copied(&self) -> Self {
        *self
    }

    fn in_range(self, _other: Self) {}

    ghost whole = { refl };
}

impl TcStats {
    /// Parses the statistics at the front of the payload and ignores what follows. Fails with
    /// `BufferTooSmall` if there are fewer bytes.
    pub fn parse(payload: &[u8]) -> Res<TcStats>
        ensures { seen stats_scalars result ≡ read_record stats payload.now }
    {
        parse_record(payload)
    }
}

impl BytesMeaning for TcStats {
    ghost Seen = { List Scalar };

    ghost see = { stats_scalars };

    ghost codec = { record_codec stats };
}

impl Emitable for TcStats {
    fn checked_len(&self) -> Option<usize> {
        record_len(self)
    }

    fn emit(&self, buffer: &mut [u8]) {
        emit_record(self, buffer);
    }
}

impl SettleBytes for TcStats {
    fn is_settled_under(&self, _kind: &str) -> bool {
        is_settled_record(self)
    }
}
