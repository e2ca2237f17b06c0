//! The statistics of the qdisc fq_codel.

ghost use Rattle.std.specs.Prelude.{◌≡◌, List, refl};
ghost use Rattle.tc_canon.specs.Layouts.{fq_codel_qd_stats, fq_codel_cl_stats};
ghost use Rattle.tc_records.specs.RecordWords.{on, seen, Scalar, read_record, record_codec, same_scalars, scalars_equiv, scalars_per};
ghost use Rattle.tc_records.specs.Statistics.{qd_stats_scalars, cl_stats_scalars};

use crate::{
    Fields, FixedRecord, Octets, emit_record, is_settled_record, parse_record, record_len,
};
use nla_frames::{BytesMeaning, Emitable, Res, SettleBytes};

/// The length of `struct tc_fq_codel_qd_stats` in bytes.
pub const TC_FQ_CODEL_QD_STATS_LEN: usize = 36;

/// The length of `struct tc_fq_codel_cl_stats` in bytes.
pub const TC_FQ_CODEL_CL_STATS_LEN: usize = 24;

/// The statistics of the qdisc, `struct tc_fq_codel_qd_stats` of `linux/pkt_sched.h`. Numbers are little-endian.
///
/// | Offset | Field | Type |
/// |---|---|---|
/// | 0 | `maxpacket` | u32 |
/// | 4 | `drop_overlimit` | u32 |
/// | 8 | `ecn_mark` | u32 |
/// | 12 | `new_flow_count` | u32 |
/// | 16 | `new_flows_len` | u32 |
/// | 20 | `old_flows_len` | u32 |
/// | 24 | `ce_mark` | u32 |
/// | 28 | `memory_usage` | u32 |
/// | 32 | `drop_overmemory` | u32 |
#[derive(PartialEq, Eq, Clone, Copy, Default, Debug)]
pub struct TcFqCodelQdStats {
    /// The length of the largest packet seen, in bytes.
    pub maxpacket: u32,
    /// Packets dropped because the queue was full.
    pub drop_overlimit: u32,
    /// Packets marked with ECN instead of being dropped.
    pub ecn_mark: u32,
    /// How often a packet began a new flow.
    pub new_flow_count: u32,
    /// Flows in the list of new flows.
    pub new_flows_len: u32,
    /// Flows in the list of old flows.
    pub old_flows_len: u32,
    /// Packets marked because they waited longer than the CE threshold.
    pub ce_mark: u32,
    /// Memory in use, in bytes.
    pub memory_usage: u32,
    /// Packets dropped because the memory limit was reached.
    pub drop_overmemory: u32,
}

impl FixedRecord<TC_FQ_CODEL_QD_STATS_LEN> for TcFqCodelQdStats {
    ghost layout = { fq_codel_qd_stats };

    ghost scalars = { qd_stats_scalars };

    fn read(fields: &mut Fields<'_>) -> TcFqCodelQdStats {
        TcFqCodelQdStats {
            maxpacket: fields.u32(),
            drop_overlimit: fields.u32(),
            ecn_mark: fields.u32(),
            new_flow_count: fields.u32(),
            new_flows_len: fields.u32(),
            old_flows_len: fields.u32(),
            ce_mark: fields.u32(),
            memory_usage: fields.u32(),
            drop_overmemory: fields.u32(),
        }
    }

    fn write(&self, out: &mut Octets) {
        out.u32(self.maxpacket);
        out.u32(self.drop_overlimit);
        out.u32(self.ecn_mark);
        out.u32(self.new_flow_count);
        out.u32(self.new_flows_len);
        out.u32(self.old_flows_len);
        out.u32(self.ce_mark);
        out.u32(self.memory_usage);
        out.u32(self.drop_overmemory);
    }

    fn is_settled(&self) -> bool {
        true
    }

    fn copied(&self) -> Self {
        *self
    }

    fn in_range(self, _other: Self) {}

    ghost whole = { refl };
}

impl TcFqCodelQdStats {
    /// Parses the statistics at the front of the payload and ignores what follows. Fails with
    /// `BufferTooSmall` if there are fewer bytes.
    pub fn parse(payload: &[u8]) -> Res<TcFqCodelQdStats>
        ensures { seen qd_stats_scalars result ≡ read_record fq_codel_qd_stats payload.now }
    {
        parse_record(payload)
    }
}

impl BytesMeaning for TcFqCodelQdStats {
    ghost Seen = { List Scalar };

    ghost see = { qd_stats_scalars };

    ghost codec = { record_codec fq_codel_qd_stats };
}

impl Emitable for TcFqCodelQdStats {
    fn checked_len(&self) -> Option<usize> {
        record_len(self)
    }

    fn emit(&self, buffer: &mut [u8]) {
        emit_record(self, buffer);
    }
}

impl SettleBytes for TcFqCodelQdStats {
    fn is_settled_under(&self, _kind: &str) -> bool {
        is_settled_record(self)
    }
}

/// The statistics of a class, that is, of one flow, `struct tc_fq_codel_cl_stats` of `linux/pkt_sched.h`. Numbers are
/// little-endian. The fields are private: only `Debug` shows them.
///
/// | Offset | Field | Type |
/// |---|---|---|
/// | 0 | `deficit` | i32 |
/// | 4 | `ldelay` | u32 |
/// | 8 | `count` | u32 |
/// | 12 | `lastcount` | u32 |
/// | 16 | `dropping` | u32 |
/// | 20 | `drop_next` | i32 |
#[derive(Clone, Copy, Default, Debug)]
pub struct TcFqCodelClStats {
    // Bytes that the flow may still send in this round; negative after it sent more.
    deficit: i32,
    // How long the last dequeued packet waited, in microseconds.
    ldelay: u32,
    // Packets dropped or marked since the flow entered the dropping state.
    count: u32,
    // `count` when the flow last entered the dropping state.
    lastcount: u32,
    // 1 in the dropping state.
    dropping: u32,
    // Time until the next drop, in microseconds; negative if it is overdue.
    drop_next: i32,
}

impl PartialEq for TcFqCodelClStats {
    ghost eq = { on cl_stats_scalars same_scalars };

    ghost laws = { scalars_per cl_stats_scalars };

    fn eq(&self, other: &TcFqCodelClStats) -> bool {
        [
            self.deficit.cast_unsigned(),
            self.ldelay,
            self.count,
            self.lastcount,
            self.dropping,
            self.drop_next.cast_unsigned(),
        ] == [
            other.deficit.cast_unsigned(),
            other.ldelay,
            other.count,
            other.lastcount,
            other.dropping,
            other.drop_next.cast_unsigned(),
        ]
    }
}

impl Eq for TcFqCodelClStats {
    ghost laws = { scalars_equiv cl_stats_scalars };
}

impl FixedRecord<TC_FQ_CODEL_CL_STATS_LEN> for TcFqCodelClStats {
    ghost layout = { fq_codel_cl_stats };

    ghost scalars = { cl_stats_scalars };

    fn read(fields: &mut Fields<'_>) -> TcFqCodelClStats {
        TcFqCodelClStats {
            deficit: fields.i32(),
            ldelay: fields.u32(),
            count: fields.u32(),
            lastcount: fields.u32(),
            dropping: fields.u32(),
            drop_next: fields.i32(),
        }
    }

    fn write(&self, out: &mut Octets) {
        out.i32(self.deficit);
        out.u32(self.ldelay);
        out.u32(self.count);
        out.u32(self.lastcount);
        out.u32(self.dropping);
        out.i32(self.drop_next);
    }

    fn is_settled(&self) -> bool {
        true
    }

    fn copied(&self) -> Self {
        *self
    }

    fn in_range(self, _other: Self) {}

    ghost whole = { refl };
}

impl TcFqCodelClStats {
    /// Parses the statistics at the front of the payload and ignores what follows. Fails with
    /// `BufferTooSmall` if there are fewer bytes.
    pub fn parse(payload: &[u8]) -> Res<TcFqCodelClStats>
        ensures { seen cl_stats_scalars result ≡ read_record fq_codel_cl_stats payload.now }
    {
        parse_record(payload)
    }
}

impl BytesMeaning for TcFqCodelClStats {
    ghost Seen = { List Scalar };

    ghost see = { cl_stats_scalars };

    ghost codec = { record_codec fq_codel_cl_stats };
}

impl Emitable for TcFqCodelClStats {
    fn checked_len(&self) -> Option<usize> {
        record_len(self)
    }

    fn emit(&self, buffer: &mut [u8]) {
        emit_record(self, buffer);
    }
}

impl SettleBytes for TcFqCodelClStats {
    fn is_settled_under(&self, _kind: &str) -> bool {
        is_settled_record(self)
    }
}
