//! The action tunnel_key: tunnel metadata set or released.

ghost use Rattle.std.specs.Prelude.{◌≡◌, ◌↔◌, IsTrue, List, refl};
ghost use Rattle.tc_canon.specs.Layouts.{tunnel_key};
ghost use Rattle.tc_records.specs.RecordWords.{on, seen, Scalar, SettledFields, read_record, record_codec, same_scalars, scalars_equiv, scalars_per};
ghost use Rattle.tc_records.specs.Actions.{tunnel_key_scalars};

use crate::same::both;
use crate::{
    Fields, FixedRecord, Octets, TcActionGeneric, emit_record, is_settled_record, parse_record,
    record_len,
};
use nla_frames::{BytesMeaning, Emitable, Res, SettleBytes};

/// The length of `struct tc_tunnel_key` in bytes.
pub const TC_TUNNEL_KEY_LEN: usize = 24;

/// Sets or releases the tunnel metadata of packets, `struct tc_tunnel_key` of `linux/tc_act/tc_tunnel_key.h`. Numbers
/// are little-endian.
///
/// | Offset | Field | Type |
/// |---|---|---|
/// | 0 | `generic` | 20 bytes |
/// | 20 | `t_action` | i32 |
#[derive(Clone, Default, Drop, Debug)]
pub struct TcTunnelKey {
    /// The part that all actions have.
    pub generic: TcActionGeneric,
    /// Set (`TCA_TUNNEL_KEY_ACT_SET`, 1) or release (`TCA_TUNNEL_KEY_ACT_RELEASE`, 2).
    pub t_action: i32,
}

impl PartialEq for TcTunnelKey {
    ghost eq = { on tunnel_key_scalars same_scalars };

    ghost laws = { scalars_per tunnel_key_scalars };

    fn eq(&self, other: &TcTunnelKey) -> bool {
        let t_action = self.t_action.cast_unsigned() == other.t_action.cast_unsigned();
        self.generic.same_then(&other.generic, both(t_action, true))
    }
}

impl Eq for TcTunnelKey {
    ghost laws = { scalars_equiv tunnel_key_scalars };
}

impl FixedRecord<TC_TUNNEL_KEY_LEN> for TcTunnelKey {
    ghost layout = { tunnel_key };

    ghost scalars = { tunnel_key_scalars };

    fn read(fields: &mut Fields<'_>) -> TcTunnelKey {
        TcTunnelKey {
            generic: TcActionGeneric::read(fields),
            t_action: fields.i32(),
        }
    }

    fn write(&self, out: &mut Octets) {
        self.generic.write(out);
        out.i32(self.t_action);
    }

    fn is_settled(&self) -> bool {
        self.generic.is_settled()
    }

    fn copied(&self) -> Self {
        Self { ..*self }
    }

    fn in_range(self, _other: Self) {}

    ghost whole = { refl };
}

impl TcTunnelKey {
    /// Parses the record at the front of the payload and ignores what follows. Fails with
    /// `BufferTooSmall` if there are fewer bytes.
    pub fn parse(payload: &[u8]) -> Res<TcTunnelKey>
        ensures { seen tunnel_key_scalars result ≡ read_record tunnel_key payload.now }
    {
        parse_record(payload)
    }

    /// True if encoding and parsing returns an equal record: if `generic.action` isn't an `Other` of a number that has
    /// a name.
    pub fn is_settled(&self) -> bool
        ensures { IsTrue result ↔ SettledFields tunnel_key (tunnel_key_scalars self.now) }
    {
        is_settled_record(self)
    }
}

impl BytesMeaning for TcTunnelKey {
    ghost Seen = { List Scalar };

    ghost see = { tunnel_key_scalars };

    ghost codec = { record_codec tunnel_key };
}

impl Emitable for TcTunnelKey {
    fn checked_len(&self) -> Option<usize> {
        record_len(self)
    }

    fn emit(&self, buffer: &mut [u8]) {
        emit_record(self, buffer);
    }
}

impl SettleBytes for TcTunnelKey {
    fn is_settled_under(&self, _kind: &str) -> bool {
        is_settled_record(self)
    }
}
