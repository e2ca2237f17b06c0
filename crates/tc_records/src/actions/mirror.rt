//! The action mirred: packets redirected or mirrored to an interface.

ghost use Rattle.std.specs.Prelude.{◌≡◌, ◌∷◌, ◌↔◌, [], IsTrue, List, refl};
ghost use Rattle.tc_canon.specs.Descriptor.{named};
ghost use Rattle.tc_canon.specs.Layouts.{mirror, mirror_action_types};
ghost use Rattle.tc_meaning.specs.Equal.{same_scalar, scalar_equiv, scalar_per};
ghost use Rattle.tc_records.specs.RecordWords.{on, seen, Scalar, SettledFields, read_record, record_codec, same_scalars, scalars_equiv, scalars_per};
ghost use Rattle.tc_records.specs.MirrorActionType.{mirror_action_type_of, mirror_action_type_number, mirror_action_type_scalar};
ghost use Rattle.tc_records.specs.Actions.{mirror_scalars};

use crate::same::both;
use crate::{
    Fields, FixedRecord, Octets, TcActionGeneric, emit_record, is_settled_record, parse_record,
    record_len,
};
use nla_frames::{BytesMeaning, Emitable, Res, SettleBytes};

/// The length of `struct tc_mirred` in bytes.
pub const TC_MIRROR_LEN: usize = 28;

/// Redirect or mirror, and in which direction (`TCA_EGRESS_REDIR` and the following of `linux/tc_act/tc_mirred.h`).
#[derive(Clone, Copy, Default, Debug)]
pub enum TcMirrorActionType {
    /// `TCA_EGRESS_REDIR`, 1: the packet leaves through the interface.
    #[default]
    EgressRedir,

    /// `TCA_EGRESS_MIRROR`, 2: a copy leaves through the interface.
    EgressMirror,

    /// `TCA_INGRESS_REDIR`, 3: the packet arrives at the interface.
    IngressRedir,

    /// `TCA_INGRESS_MIRROR`, 4: a copy arrives at the interface.
    IngressMirror,

    /// Any other number.
    Other(i32),
}

impl PartialEq for TcMirrorActionType {
    ghost eq = { on mirror_action_type_scalar same_scalar };

    ghost laws = { scalar_per mirror_action_type_scalar };

    fn eq(&self, other: &Self) -> bool {
        match (self, other) {
            (Self::Other(number), Self::Other(another)) => {
                number.cast_unsigned() == another.cast_unsigned()
            }
            (Self::Other(_), _) | (_, Self::Other(_)) => false,
            _ => i32::from(*self) == i32::from(*other),
        }
    }
}

impl Eq for TcMirrorActionType {
    ghost laws = { scalar_equiv mirror_action_type_scalar };
}

impl From<i32> for TcMirrorActionType {
    ghost from_gives = { λ number action. action ≡ mirror_action_type_of number };

    fn from(number: i32) -> Self {
        match number {
            1 => Self::EgressRedir,
            2 => Self::EgressMirror,
            3 => Self::IngressRedir,
            4 => Self::IngressMirror,
            other => Self::Other(other),
        }
    }
}

impl From<TcMirrorActionType> for i32 {
    ghost from_gives = { λ action number. number ≡ mirror_action_type_number action };

    fn from(action: TcMirrorActionType) -> i32 {
        match action {
            TcMirrorActionType::EgressRedir => 1,
            TcMirrorActionType::EgressMirror => 2,
            TcMirrorActionType::IngressRedir => 3,
            TcMirrorActionType::IngressMirror => 4,
            TcMirrorActionType::Other(number) => number,
        }
    }
}

impl FixedRecord<4> for TcMirrorActionType {
    ghost layout = { named 4 mirror_action_types ∷ [] };

    ghost scalars = { λ action. mirror_action_type_scalar action ∷ [] };

    fn read(fields: &mut Fields<'_>) -> Self {
        Self::from(fields.i32())
    }

    fn write(&self, out: &mut Octets) {
        out.i32(i32::from(*self));
    }

    fn is_settled(&self) -> bool {
        match *self {
            Self::Other(number) => matches!(Self::from(number), Self::Other(_)),
            _ => true,
        }
    }

    fn copied(&self) -> Self {
        *self
    }

    fn in_range(self, _other: Self) {}

    ghost whole = { refl };
}

/// Packets redirected or mirrored to an interface, `struct tc_mirred` of `linux/tc_act/tc_mirred.h`. Numbers are
/// little-endian.
///
/// | Offset | Field | Type |
/// |---|---|---|
/// | 0 | `generic` | 20 bytes |
/// | 20 | `eaction` | i32 |
/// | 24 | `ifindex` | u32 |
#[derive(Clone, Default, Drop, Debug)]
pub struct TcMirror {
    /// The part that all actions have.
    pub generic: TcActionGeneric,
    /// Redirect or mirror, and in which direction.
    pub eaction: TcMirrorActionType,
    /// The index of the interface.
    pub ifindex: u32,
}

impl PartialEq for TcMirror {
    ghost eq = { on mirror_scalars same_scalars };

    ghost laws = { scalars_per mirror_scalars };

    fn eq(&self, other: &TcMirror) -> bool {
        let rest = both(self.ifindex == other.ifindex, true);
        let rest = both(self.eaction == other.eaction, rest);
        self.generic.same_then(&other.generic, rest)
    }
}

impl Eq for TcMirror {
    ghost laws = { scalars_equiv mirror_scalars };
}

impl FixedRecord<TC_MIRROR_LEN> for TcMirror {
    ghost layout = { mirror };

    ghost scalars = { mirror_scalars };

    fn read(fields: &mut Fields<'_>) -> TcMirror {
        TcMirror {
            generic: TcActionGeneric::read(fields),
            eaction: TcMirrorActionType::read(fields),
            ifindex: fields.u32(),
        }
    }

    fn write(&self, out: &mut Octets) {
        self.generic.write(out);
        self.eaction.write(out);
        out.u32(self.ifindex);
    }

    fn is_settled(&self) -> bool {
        self.generic.is_settled() && self.eaction.is_settled()
    }

    fn copied(&self) -> Self {
        Self { ..*self }
    }

    fn in_range(self, other: Self) {
        self.eaction.in_range(other.eaction);
        self.generic.in_range(other.generic);
    }

    ghost whole = { refl };
}

impl TcMirror {
    /// Parses the record at the front of the payload and ignores what follows. Fails with
    /// `BufferTooSmall` if there are fewer bytes.
    pub fn parse(payload: &[u8]) -> Res<TcMirror>
        ensures { seen mirror_scalars result ≡ read_record mirror payload.now }
    {
        parse_record(payload)
    }

    /// True if encoding and parsing returns an equal record: if neither `generic.action` nor `eaction` is an `Other` of
    /// a number that has a name.
    pub fn is_settled(&self) -> bool
        ensures { IsTrue result ↔ SettledFields mirror (mirror_scalars self.now) }
    {
        is_settled_record(self)
    }
}

impl BytesMeaning for TcMirror {
    ghost Seen = { List Scalar };

    ghost see = { mirror_scalars };

    ghost codec = { record_codec mirror };
}

impl Emitable for TcMirror {
    fn checked_len(&self) -> Option<usize> {
        record_len(self)
    }

    fn emit(&self, buffer: &mut [u8]) {
        emit_record(self, buffer);
    }
}

impl SettleBytes for TcMirror {
    fn is_settled_under(&self, _kind: &str) -> bool {
        is_settled_record(self)
    }
}
