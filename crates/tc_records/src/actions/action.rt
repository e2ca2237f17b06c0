//! The part that every action's record begins with, and the verdicts of actions.

ghost use Rattle.std.specs.Prelude.{◌≡◌, ◌∷◌, ◌↔◌, [], IsTrue, List, refl};
ghost use Rattle.tc_canon.specs.Descriptor.{named};
ghost use Rattle.tc_canon.specs.Layouts.{action_types, action_generic};
ghost use Rattle.tc_meaning.specs.Equal.{same_scalar, scalar_equiv, scalar_per};
ghost use Rattle.tc_records.specs.RecordWords.{on, seen, Scalar, SettledFields, read_record, record_codec, same_scalars, scalars_equiv, scalars_per};
ghost use Rattle.tc_records.specs.ActionType.{action_type_of, action_type_number, action_type_scalar};
ghost use Rattle.tc_records.specs.Actions.{generic_scalars, same_generic_then};

use crate::same::both;
use crate::{
    Fields, FixedRecord, Octets, emit_record, is_settled_record, parse_record, record_len,
};
use nla_frames::{BytesMeaning, Emitable, Res, SettleBytes};

/// The length of `tc_gen` in bytes.
pub const TC_ACTION_GENERIC_LEN: usize = 20;

/// The verdict of an action: what happens to the packet next (`TC_ACT_*` of `linux/pkt_cls.h`).
#[derive(Clone, Copy, Default, Debug)]
pub enum TcActionType {
    /// `TC_ACT_UNSPEC`, -1: the action's default.
    #[default]
    Unspec,

    /// `TC_ACT_OK`, 0: classification ends, and the packet is accepted.
    Ok,

    /// `TC_ACT_RECLASSIFY`, 1: classification restarts at the first filter.
    Reclassify,

    /// `TC_ACT_SHOT`, 2: the packet is dropped.
    Shot,

    /// `TC_ACT_PIPE`, 3: the next action, if any, runs.
    Pipe,

    /// `TC_ACT_STOLEN`, 4: the action has taken the packet over.
    Stolen,

    /// `TC_ACT_QUEUED`, 5: the packet is queued.
    Queued,

    /// `TC_ACT_REPEAT`, 6: the action runs again.
    Repeat,

    /// `TC_ACT_REDIRECT`, 7: the packet is redirected, by bpf.
    Redirect,

    /// `TC_ACT_TRAP`, 8: hardware passes the packet to software. In software it is dropped.
    Trap,

    /// Any other number.
    Other(i32),
}

impl PartialEq for TcActionType {
    ghost eq = { on action_type_scalar same_scalar };

    ghost laws = { scalar_per action_type_scalar };

    fn eq(&self, other: &Self) -> bool {
        match (self, other) {
            (Self::Other(number), Self::Other(another)) => {
                number.cast_unsigned() == another.cast_unsigned()
            }
            (Self::Other(_), _) | (_, Self::Other(_)) => false,
            _ => i32::from(*self) == i32::from(*other),
        }
    }
}

impl Eq for TcActionType {
    ghost laws = { scalar_equiv action_type_scalar };
}

impl From<i32> for TcActionType {
    ghost from_gives = { λ number action. action ≡ action_type_of number };

    fn from(number: i32) -> Self {
        match number {
            -1 => Self::Unspec,
            0 => Self::Ok,
            1 => Self::Reclassify,
            2 => Self::Shot,
            3 => Self::Pipe,
            4 => Self::Stolen,
            5 => Self::Queued,
            6 => Self::Repeat,
            7 => Self::Redirect,
            8 => Self::Trap,
            other => Self::Other(other),
        }
    }
}

impl From<TcActionType> for i32 {
    ghost from_gives = { λ action number. number ≡ action_type_number action };

    fn from(action: TcActionType) -> i32 {
        match action {
            TcActionType::Unspec => -1,
            TcActionType::Ok => 0,
            TcActionType::Reclassify => 1,
            TcActionType::Shot => 2,
            TcActionType::Pipe => 3,
            TcActionType::Stolen => 4,
            TcActionType::Queued => 5,
            TcActionType::Repeat => 6,
            TcActionType::Redirect => 7,
            TcActionType::Trap => 8,
            TcActionType::Other(number) => number,
        }
    }
}

impl FixedRecord<4> for TcActionType {
    ghost layout = { named 4 action_types ∷ [] };

    ghost scalars = { λ action. action_type_scalar action ∷ [] };

    fn read(fields: &mut Fields<'_>) -> Self {
        Self::from(fields.i32())
    }

    fn write(&self, out: &mut Octets) {
        out.i32(i32::from(*self));
    }

    fn is_settled(&self) -> bool {
        match *self {
            Self::Other(number) => matches!(Self::from(number), Self::Other(_)),
            _ => true,
        }
    }

    fn copied(&self) -> Self {
        *self
    }

    fn in_range(self, _other: Self) {}

    ghost whole = { refl };
}

/// The part that every action's record begins with, `tc_gen` of `linux/pkt_cls.h`. Numbers are little-endian.
///
/// | Offset | Field | Type |
/// |---|---|---|
/// | 0 | `index` | u32 |
/// | 4 | `capab` | u32 |
/// | 8 | `action` | i32 |
/// | 12 | `refcnt` | i32 |
/// | 16 | `bindcnt` | i32 |
#[derive(Clone, Copy, Default, Debug)]
pub struct TcActionGeneric {
    /// The index of the action among the actions of its kind. In a request, 0 means that the kernel chooses one.
    pub index: u32,
    /// Not used by the kernel.
    pub capab: u32,
    /// The verdict.
    pub action: TcActionType,
    /// The number of references to the action.
    pub refcnt: i32,
    /// The number of filters that the action is bound to.
    pub bindcnt: i32,
}

impl PartialEq for TcActionGeneric {
    ghost eq = { on generic_scalars same_scalars };

    ghost laws = { scalars_per generic_scalars };

    fn eq(&self, other: &TcActionGeneric) -> bool {
        self.same_then(other, true)
    }
}

impl Eq for TcActionGeneric {
    ghost laws = { scalars_equiv generic_scalars };
}

impl FixedRecord<TC_ACTION_GENERIC_LEN> for TcActionGeneric {
    ghost layout = { action_generic };

    ghost scalars = { generic_scalars };

    fn read(fields: &mut Fields<'_>) -> TcActionGeneric {
        TcActionGeneric {
            index: fields.u32(),
            capab: fields.u32(),
            action: TcActionType::read(fields),
            refcnt: fields.i32(),
            bindcnt: fields.i32(),
        }
    }

    fn write(&self, out: &mut Octets) {
        out.u32(self.index);
        out.u32(self.capab);
        self.action.write(out);
        out.i32(self.refcnt);
        out.i32(self.bindcnt);
    }

    fn is_settled(&self) -> bool {
        self.action.is_settled()
    }

    fn copied(&self) -> Self {
        *self
    }

    fn in_range(self, _other: Self) {}

    ghost whole = { refl };
}

impl TcActionGeneric {
    // True if both are equal and `rest`, the comparison of the fields after them, is true.
    pub(crate) fn same_then(&self, other: &TcActionGeneric, rest: bool) -> bool
        ensures { result ≡ same_generic_then self.now other.now rest }
    {
        let bindcnt = self.bindcnt.cast_unsigned() == other.bindcnt.cast_unsigned();
        let refcnt = self.refcnt.cast_unsigned() == other.refcnt.cast_unsigned();
        let rest = both(refcnt, both(bindcnt, rest));
        let rest = both(self.action == other.action, rest);
        let rest = both(self.capab == other.capab, rest);
        both(self.index == other.index, rest)
    }

    /// Parses `tc_gen` at the front of the payload and ignores what follows. Fails with
    /// `BufferTooSmall` if there are fewer bytes.
    pub fn parse(payload: &[u8]) -> Res<TcActionGeneric>
        ensures { seen generic_scalars result ≡ read_record action_generic payload.now }
    {
        parse_record(payload)
    }

    /// True if encoding and parsing returns an equal record: if `action` isn't an `Other` of a number that has a name.
    pub fn is_settled(&self) -> bool
        ensures { IsTrue result ↔ SettledFields action_generic (generic_scalars self.now) }
    {
        is_settled_record(self)
    }
}

impl BytesMeaning for TcActionGeneric {
    ghost Seen = { List Scalar };

    ghost see = { generic_scalars };

    ghost codec = { record_codec action_generic };
}

impl Emitable for TcActionGeneric {
    fn checked_len(&self) -> Option<usize> {
        record_len(self)
    }

    fn emit(&self, buffer: &mut [u8]) {
        emit_record(self, buffer);
    }
}

impl SettleBytes for TcActionGeneric {
    fn is_settled_under(&self, _kind: &str) -> bool {
        is_settled_record(self)
    }
}
