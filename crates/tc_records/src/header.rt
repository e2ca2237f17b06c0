//! The header of a traffic control message, and handles.

ghost use Rattle.std.specs.Prelude.{◌≡◌, ◌∷◌, ◌↔◌, [], IsTrue, List, refl};
ghost use Rattle.tc_canon.specs.Descriptor.{little};
ghost use Rattle.tc_canon.specs.Layouts.{tc_header};
ghost use Rattle.tc_meaning.specs.Tree.{plain};
ghost use Rattle.tc_records.specs.RecordWords.{on, seen, Scalar, SettledFields, read_record, record_codec, same_scalars, scalars_equiv, scalars_per};
ghost use Rattle.tc_records.specs.Header.{handle_of, handle_number, header_scalars};

use crate::same::both;
use crate::{
    Fields, FixedRecord, Octets, emit_record, is_settled_record, parse_record, record_len,
    same_family,
};
use nla_frames::{AddressFamily, BytesMeaning, Emitable, Res, SettleBytes};
use std::fmt;

/// The length of `struct tcmsg` in bytes.
pub const TC_HEADER_LEN: usize = 20;

/// The handle of a qdisc, a class or a filter: major and minor number, as in `8001:10`. On the wire a `u32`,
/// little-endian, with the major number in the upper half.
#[derive(Clone, Copy, Default, Debug)]
pub struct TcHandle {
    /// The upper half (`TC_H_MAJ`): the qdisc.
    pub major: u16,
    /// The lower half (`TC_H_MIN`): a class of that qdisc, or 0.
    pub minor: u16,
}

impl PartialEq for TcHandle {
    ghost use Rattle.std.specs.Prelude.{nat_eq};
    ghost use Rattle.std.specs.Ordering.{on};
    ghost use Rattle.std.specs.Cmp.{nat_eq_equiv, on_equiv, partial_equiv_from_equiv};

    ghost eq = { on handle_number nat_eq };

    ghost laws = { partial_equiv_from_equiv (on_equiv handle_number nat_eq_equiv) };

    fn eq(&self, other: &TcHandle) -> bool {
        u32::from(*self) == u32::from(*other)
    }
}

impl Eq for TcHandle {
    ghost use Rattle.std.specs.Cmp.{nat_eq_equiv, on_equiv};

    ghost laws = { on_equiv handle_number nat_eq_equiv };
}

impl TcHandle {
    /// `TC_H_UNSPEC` of `linux/pkt_sched.h`: `0:0`, no handle.
    pub const UNSPEC: TcHandle = TcHandle { major: 0, minor: 0 };

    /// `TC_H_ROOT`: the parent of a root qdisc.
    pub const ROOT: TcHandle = TcHandle {
        major: 0xFFFF,
        minor: 0xFFFF,
    };

    /// `TC_H_INGRESS`: the parent of an ingress qdisc.
    pub const INGRESS: TcHandle = TcHandle {
        major: 0xFFFF,
        minor: 0xFFF1,
    };

    /// `TC_H_CLSACT`, the same handle as `INGRESS`.
    pub const CLSACT: TcHandle = TcHandle::INGRESS;

    /// `TC_H_MIN_PRIORITY`, a minor number.
    pub const MIN_PRIORITY: u16 = 0xffe0;

    /// `TC_H_MIN_INGRESS`, a minor number.
    pub const MIN_INGRESS: u16 = 0xfff2;

    /// `TC_H_MIN_EGRESS`, a minor number.
    pub const MIN_EGRESS: u16 = 0xfff3;
}

impl From<u32> for TcHandle {
    ghost from_gives = { λ number handle. handle ≡ handle_of number };

    fn from(number: u32) -> TcHandle {
        TcHandle {
            major: (number / 0x10000) as u16,
            minor: (number % 0x10000) as u16,
        }
    }
}

impl From<TcHandle> for u32 {
    ghost from_gives = { λ handle number. number ≡ handle_number handle };

    fn from(handle: TcHandle) -> u32 {
        handle.major as u32 * 0x10000 + handle.minor as u32
    }
}

impl fmt::Display for TcHandle {
    ghost use Rattle.std.specs.Prelude.{◌++◌, codes, Some};
    ghost use Rattle.std.specs.Fmt.{decimal};

    ghost output = { λ handle. Some (decimal handle.major ++ codes ":" ++ decimal handle.minor) };

    fn fmt<W: fmt::Write>(&self, f: &mut fmt::Formatter<W>) -> fmt::Result {
        let major = self.major;
        let minor = self.minor;
        write!(f, "{major}:{minor}")
    }
}

impl FixedRecord<4> for TcHandle {
    ghost layout = { little 4 ∷ [] };

    ghost scalars = { λ handle. plain (handle_number handle) ∷ [] };

    fn read(fields: &mut Fields<'_>) -> TcHandle {
        TcHandle::from(fields.u32())
    }

    fn write(&self, out: &mut Octets) {
        out.u32(u32::from(*self));
    }

    fn is_settled(&self) -> bool {
        true
    }

    fn copied(&self) -> Self {
        *self
    }

    fn in_range(self, _other: Self) {}

    ghost whole = { refl };
}

/// The header of a traffic control message, `struct tcmsg` of `linux/rtnetlink.h`. Numbers are little-endian.
///
/// | Offset | Field | Type |
/// |---|---|---|
/// | 0 | `family` | u8 |
/// | 1 | padding | 3 bytes |
/// | 4 | `index` | i32 |
/// | 8 | `handle` | u32 |
/// | 12 | `parent` | u32 |
/// | 16 | `info` | u32 |
#[derive(Clone, Default, Drop, Debug)]
pub struct TcHeader {
    /// `tcm_family`: the address family, usually `Unspec`.
    pub family: AddressFamily,
    /// `tcm_ifindex`: the index of the interface, or `TCM_IFINDEX_MAGIC_BLOCK` (-1 here) for a block of filters.
    pub index: i32,
    /// `tcm_handle`: the handle of the object that the message describes.
    pub handle: TcHandle,
    /// `tcm_parent`: the handle of its parent, or the number of a block of filters (`tcm_block_index`).
    pub parent: TcHandle,
    /// `tcm_info`: for a filter its priority in the upper half and its protocol, big-endian, in the lower. For a qdisc
    /// its number of references.
    pub info: u32,
}

impl PartialEq for TcHeader {
    ghost eq = { on header_scalars same_scalars };

    ghost laws = { scalars_per header_scalars };

    fn eq(&self, other: &TcHeader) -> bool {
        let rest = both(self.info == other.info, true);
        let rest = both(self.parent == other.parent, rest);
        let rest = both(self.handle == other.handle, rest);
        let index = self.index.cast_unsigned() == other.index.cast_unsigned();
        both(same_family(self.family, other.family), both(index, rest))
    }
}

impl Eq for TcHeader {
    ghost laws = { scalars_equiv header_scalars };
}

impl FixedRecord<TC_HEADER_LEN> for TcHeader {
    ghost layout = { tc_header };

    ghost scalars = { header_scalars };

    fn read(fields: &mut Fields<'_>) -> TcHeader {
        let family = AddressFamily::read(fields);
        fields.octets(3);
        TcHeader {
            family,
            index: fields.i32(),
            handle: TcHandle::read(fields),
            parent: TcHandle::read(fields),
            info: fields.u32(),
        }
    }

    fn write(&self, out: &mut Octets) {
        self.family.write(out);
        out.pad(3);
        out.i32(self.index);
        self.handle.write(out);
        self.parent.write(out);
        out.u32(self.info);
    }

    fn is_settled(&self) -> bool {
        self.family.is_settled()
    }

    fn copied(&self) -> Self {
        Self { ..*self }
    }

    fn in_range(self, _other: Self) {}

    ghost whole = { refl };
}

impl TcHeader {
    /// The interface index that stands for a block of filters (`TCM_IFINDEX_MAGIC_BLOCK`).
    pub const TCM_IFINDEX_MAGIC_BLOCK: u32 = 0xFFFF_FFFF;

    /// Parses the header at the front of the payload and ignores what follows. Fails with
    /// `BufferTooSmall` if there are fewer bytes.
    pub fn parse(payload: &[u8]) -> Res<TcHeader>
        ensures { seen header_scalars result ≡ read_record tc_header payload.now }
    {
        parse_record(payload)
    }

    /// True if encoding and parsing returns an equal record: if `family` isn't an `Other` of a number that has a name.
    pub fn is_settled(&self) -> bool
        ensures { IsTrue result ↔ SettledFields tc_header (header_scalars self.now) }
    {
        is_settled_record(self)
    }
}

impl BytesMeaning for TcHeader {
    ghost Seen = { List Scalar };

    ghost see = { header_scalars };

    ghost codec = { record_codec tc_header };
}

impl Emitable for TcHeader {
    fn checked_len(&self) -> Option<usize> {
        record_len(self)
    }

    fn emit(&self, buffer: &mut [u8]) {
        emit_record(self, buffer);
    }
}

impl SettleBytes for TcHeader {
    fn is_settled_under(&self, _kind: &str) -> bool {
        is_settled_record(self)
    }
}
