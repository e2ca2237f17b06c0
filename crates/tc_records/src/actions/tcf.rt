//! The times of an action.

ghost use Rattle.std.specs.Prelude.{◌≡◌, List, refl};
ghost use Rattle.tc_canon.specs.Layouts.{tcf};
ghost use Rattle.tc_records.specs.RecordWords.{seen, Scalar, read_record, record_codec};
ghost use Rattle.tc_records.specs.Tcf.{tcf_scalars};

use crate::{
    Fields, FixedRecord, Octets, emit_record, is_settled_record, parse_record, record_len,
};
use nla_frames::{BytesMeaning, Emitable, Res, SettleBytes};

/// The length of `struct tcf_t` in bytes.
pub const TCF_LEN: usize = 32;

/// The times of an action, `struct tcf_t` of `linux/pkt_cls.h`, in clock ticks (`USER_HZ`), little-endian.
///
/// | Offset | Field | Type |
/// |---|---|---|
/// | 0 | `install` | u64 |
/// | 8 | `lastuse` | u64 |
/// | 16 | `expires` | u64 |
/// | 24 | `firstuse` | u64 |
#[derive(PartialEq, Eq, Clone, Default, Drop, Debug)]
pub struct Tcf {
    /// Since it was installed.
    pub install: u64,
    /// Since it was last used.
    pub lastuse: u64,
    /// Until it expires, as the kernel reports it.
    pub expires: u64,
    /// Since it was first used.
    pub firstuse: u64,
}

impl FixedRecord<TCF_LEN> for Tcf {
    ghost layout = { tcf };

    ghost scalars = { tcf_scalars };

    fn read(fields: &mut Fields<'_>) -> Tcf {
        Tcf {
            install: fields.u64(),
            lastuse: fields.u64(),
            expires: fields.u64(),
            firstuse: fields.u64(),
        }
    }

    fn write(&self, out: &mut Octets) {
        out.u64(self.install);
        out.u64(self.lastuse);
        out.u64(self.expires);
        out.u64(self.firstuse);
    }

    fn is_settled(&self) -> bool {
        true
    }

    fn copied(&self) -> Self {
        Self { ..*self }
    }

    fn in_range(self, _other: Self) {}

    ghost whole = { refl };
}

impl Tcf {
    /// Parses the times at the front of the payload and ignores what follows. Fails with
    /// `BufferTooSmall` if there are fewer bytes.
    pub fn parse(payload: &[u8]) -> Res<Tcf>
        ensures { seen tcf_scalars result ≡ read_record tcf payload.now }
    {
        parse_record(payload)
    }
}

impl BytesMeaning for Tcf {
    ghost Seen = { List Scalar };

    ghost see = { tcf_scalars };

    ghost codec = { record_codec tcf };
}

impl Emitable for Tcf {
    fn checked_len(&self) -> Option<usize> {
        record_len(self)
    }

    fn emit(&self, buffer: &mut [u8]) {
        emit_record(self, buffer);
    }
}

impl SettleBytes for Tcf {
    fn is_settled_under(&self, _kind: &str) -> bool {
        is_settled_record(self)
    }
}
