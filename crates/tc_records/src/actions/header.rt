//! The header of an action message.

ghost use Rattle.std.specs.Prelude.{◌≡◌, ◌↔◌, IsTrue, List, refl};
ghost use Rattle.tc_canon.specs.Layouts.{action_message_header};
ghost use Rattle.tc_records.specs.RecordWords.{on, seen, Scalar, SettledFields, read_record, record_codec, same_scalars, scalars_equiv, scalars_per};
ghost use Rattle.tc_records.specs.Actions.{action_message_header_scalars};

use crate::same::both;
use crate::{
    Fields, FixedRecord, Octets, emit_record, is_settled_record, parse_record, record_len,
    same_family,
};
use nla_frames::{AddressFamily, BytesMeaning, Emitable, Res, SettleBytes};

/// The length of `struct tcamsg` in bytes.
pub const TCA_HEADER_LEN: usize = 4;

/// The header of an action message, `struct tcamsg` of `linux/rtnetlink.h`.
///
/// | Offset | Field | Type |
/// |---|---|---|
/// | 0 | `family` | u8 |
/// | 1 | padding | 3 bytes |
#[derive(Clone, Default, Drop, Debug)]
pub struct TcActionMessageHeader {
    /// `tca_family`: the address family, usually `Unspec`.
    pub family: AddressFamily,
}

impl PartialEq for TcActionMessageHeader {
    ghost eq = { on action_message_header_scalars same_scalars };

    ghost laws = { scalars_per action_message_header_scalars };

    fn eq(&self, other: &TcActionMessageHeader) -> bool {
        both(same_family(self.family, other.family), true)
    }
}

impl Eq for TcActionMessageHeader {
    ghost laws = { scalars_equiv action_message_header_scalars };
}

impl FixedRecord<TCA_HEADER_LEN> for TcActionMessageHeader {
    ghost layout = { action_message_header };

    ghost scalars = { action_message_header_scalars };

    fn read(fields: &mut Fields<'_>) -> TcActionMessageHeader {
        let family = AddressFamily::read(fields);
        fields.octets(3);
        TcActionMessageHeader { family }
    }

    fn write(&self, out: &mut Octets) {
        self.family.write(out);
        out.pad(3);
    }

    fn is_settled(&self) -> bool {
        self.family.is_settled()
    }

    fn copied(&self) -> Self {
        Self { ..*self }
    }

    fn in_range(self, _other: Self) {}

    ghost whole = { refl };
}

impl TcActionMessageHeader {
    /// Parses the header at the front of the payload and ignores what follows. Fails with
    /// `BufferTooSmall` if there are fewer bytes.
    pub fn parse(payload: &[u8]) -> Res<TcActionMessageHeader>
        ensures { seen action_message_header_scalars result ≡ read_record action_message_header payload.now }
    {
        parse_record(payload)
    }

    /// True if encoding and parsing returns an equal record: if `family` isn't an `Other` of a number that has a name.
    pub fn is_settled(&self) -> bool
        ensures { IsTrue result ↔ SettledFields action_message_header (action_message_header_scalars self.now) }
    {
        is_settled_record(self)
    }
}

impl BytesMeaning for TcActionMessageHeader {
    ghost Seen = { List Scalar };

    ghost see = { action_message_header_scalars };

    ghost codec = { record_codec action_message_header };
}

impl Emitable for TcActionMessageHeader {
    fn checked_len(&self) -> Option<usize> {
        record_len(self)
    }

    fn emit(&self, buffer: &mut [u8]) {
        emit_record(self, buffer);
    }
}

impl SettleBytes for TcActionMessageHeader {
    fn is_settled_under(&self, _kind: &str) -> bool {
        is_settled_record(self)
    }
}
