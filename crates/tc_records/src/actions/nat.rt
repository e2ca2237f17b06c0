//! Network address translation.

ghost use Rattle.std.specs.Prelude.{◌≡◌, ◌↔◌, IsTrue, List, refl};
ghost use Rattle.tc_canon.specs.Layouts.{nat};
ghost use Rattle.tc_records.specs.RecordWords.{on, seen, Scalar, SettledFields, read_record, record_codec, same_scalars, scalars_equiv, scalars_per};
ghost use Rattle.tc_records.specs.Actions.{nat_scalars};

use crate::same::both;
use crate::{
    Fields, FixedRecord, Octets, TcActionGeneric, TcNatFlags, emit_record, is_settled_record,
    parse_record, record_len,
};
use bitflags::Flags;
use nla_frames::{BytesMeaning, Emitable, Res, SettleBytes};
use std::net::Ipv4Addr;

/// The length of `struct tc_nat` in bytes.
pub const TC_NAT_LEN: usize = 36;

const NOWHERE: Ipv4Addr = Ipv4Addr::UNSPECIFIED;

/// Stateless translation of IPv4 addresses, `struct tc_nat` of `linux/tc_act/tc_nat.h`. Addresses are in network order,
/// numbers little-endian.
///
/// | Offset | Field | Type |
/// |---|---|---|
/// | 0 | `generic` | 20 bytes |
/// | 20 | `old_addr` | IPv4 address |
/// | 24 | `new_addr` | IPv4 address |
/// | 28 | `mask` | IPv4 address |
/// | 32 | `flags` | u32 |
#[derive(Clone, Drop, Debug)]
pub struct TcNat {
    /// The part that all actions have.
    pub generic: TcActionGeneric,
    /// The network whose addresses are translated.
    pub old_addr: Ipv4Addr,
    /// The network that they are translated into.
    pub new_addr: Ipv4Addr,
    /// The mask of both networks.
    pub mask: Ipv4Addr,
    /// Source or destination addresses, and the kernel's flags of the action.
    pub flags: TcNatFlags,
}

impl PartialEq for TcNat {
    ghost eq = { on nat_scalars same_scalars };

    ghost laws = { scalars_per nat_scalars };

    fn eq(&self, other: &TcNat) -> bool {
        let rest = both(self.flags == other.flags, true);
        let rest = both(self.mask.octets() == other.mask.octets(), rest);
        let rest = both(self.new_addr.octets() == other.new_addr.octets(), rest);
        let rest = both(self.old_addr.octets() == other.old_addr.octets(), rest);
        self.generic.same_then(&other.generic, rest)
    }
}

impl Eq for TcNat {
    ghost laws = { scalars_equiv nat_scalars };
}

impl Default for TcNat {
    ghost use Rattle.tc_records.specs.Actions.{IsEmptyNat};

    ghost is_default = { IsEmptyNat };

    fn default() -> TcNat {
        TcNat {
            generic: TcActionGeneric::default(),
            old_addr: NOWHERE,
            new_addr: NOWHERE,
            mask: NOWHERE,
            flags: TcNatFlags::default(),
        }
    }
}

impl FixedRecord<TC_NAT_LEN> for TcNat {
    ghost layout = { nat };

    ghost scalars = { nat_scalars };

    fn read(fields: &mut Fields<'_>) -> TcNat {
        TcNat {
            generic: TcActionGeneric::read(fields),
            old_addr: fields.ipv4_addr(),
            new_addr: fields.ipv4_addr(),
            mask: fields.ipv4_addr(),
            flags: TcNatFlags::from_bits_retain(fields.u32()),
        }
    }

    fn write(&self, out: &mut Octets) {
        self.generic.write(out);
        out.ipv4_addr(self.old_addr);
        out.ipv4_addr(self.new_addr);
        out.ipv4_addr(self.mask);
        out.u32(self.flags.bits());
    }

    fn is_settled(&self) -> bool {
        self.generic.is_settled()
    }

    fn copied(&self) -> Self {
        Self { ..*self }
    }

    fn in_range(self, _other: Self) {}

    ghost whole = { refl };
}

impl TcNat {
    /// Parses the record at the front of the payload and ignores what follows. Fails with
    /// `BufferTooSmall` if there are fewer bytes.
    pub fn parse(payload: &[u8]) -> Res<TcNat>
        ensures { seen nat_scalars result ≡ read_record nat payload.now }
    {
        parse_record(payload)
    }

    /// True if encoding and parsing returns an equal record: if `generic.action` isn't an `Other` of a number that has
    /// a name.
    pub fn is_settled(&self) -> bool
        ensures { IsTrue result ↔ SettledFields nat (nat_scalars self.now) }
    {
        is_settled_record(self)
    }
}

impl BytesMeaning for TcNat {
    ghost Seen = { List Scalar };

    ghost see = { nat_scalars };

    ghost codec = { record_codec nat };
}

impl Emitable for TcNat {
    fn checked_len(&self) -> Option<usize> {
        record_len(self)
    }

    fn emit(&self, buffer: &mut [u8]) {
        emit_record(self, buffer);
    }
}

impl SettleBytes for TcNat {
    fn is_settled_under(&self, _kind: &str) -> bool {
        is_settled_record(self)
    }
}
