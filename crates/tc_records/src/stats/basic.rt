//! Basic statistics.

ghost use Rattle.std.specs.Prelude.{◌≡◌, List, refl};
ghost use Rattle.tc_canon.specs.Layouts.{stats_basic};
ghost use Rattle.tc_records.specs.RecordWords.{seen, Scalar, read_record, record_codec};
ghost use Rattle.tc_records.specs.Statistics.{basic_scalars};

use crate::{
    Fields, FixedRecord, Octets, emit_record, is_settled_record, parse_record, record_len,
};
use nla_frames::{BytesMeaning, Emitable, Res, SettleBytes};

/// The length of `struct gnet_stats_basic` in bytes.
pub const TC_STATS_BASIC_LEN: usize = 16;

/// Basic statistics, `struct gnet_stats_basic` of `linux/gen_stats.h`: the bytes and packets of a qdisc, a class or an
/// action since it was created. Numbers are little-endian.
///
/// | Offset | Field | Type |
/// |---|---|---|
/// | 0 | `bytes` | u64 |
/// | 8 | `packets` | u32 |
/// | 12 | padding | 4 bytes |
#[derive(PartialEq, Eq, Clone, Copy, Default, Debug)]
pub struct TcStatsBasic {
    /// Bytes seen.
    pub bytes: u64,
    /// Packets seen.
    pub packets: u32,
}

impl FixedRecord<TC_STATS_BASIC_LEN> for TcStatsBasic {
    ghost layout = { stats_basic };

    ghost scalars = { basic_scalars };

    fn read(fields: &mut Fields<'_>) -> TcStatsBasic {
        let bytes = fields.u64();
        let packets = fields.u32();
        fields.octets(4);
        TcStatsBasic { bytes, packets }
    }

    fn write(&self, out: &mut Octets) {
        out.u64(self.bytes);
        out.u32(self.packets);
        out.pad(4);
    }

    fn is_settled(&self) -> bool {
        true
    }

    fn copied(&self) -> Self {
        *self
    }

    fn in_range(self, _other: Self) {}

    ghost whole = { refl };
}

impl TcStatsBasic {
    /// Parses the statistics at the front of the payload and ignores what follows. Fails with
    /// `BufferTooSmall` if there are fewer bytes.
    pub fn parse(payload: &[u8]) -> Res<TcStatsBasic>
        ensures { seen basic_scalars result ≡ read_record stats_basic payload.now }
    {
        parse_record(payload)
    }
}

impl BytesMeaning for TcStatsBasic {
    ghost Seen = { List Scalar };

    ghost see = { basic_scalars };

    ghost codec = { record_codec stats_basic };
}

impl Emitable for TcStatsBasic {
    fn checked_len(&self) -> Option<usize> {
        record_len(self)
    }

    fn emit(&self, buffer: &mut [u8]) {
        emit_record(self, buffer);
    }
}

impl SettleBytes for TcStatsBasic {
    fn is_settled_under(&self, _kind: &str) -> bool {
        is_settled_record(self)
    }
}
