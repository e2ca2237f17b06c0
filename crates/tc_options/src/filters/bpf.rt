//! The filter `bpf`.

ghost use Rattle.std.specs.Prelude.{◌≡◌, List};
ghost use Rattle.nla_frames.specs.Value.{exactly};
ghost use Rattle.tc_canon.specs.Tables.Options.{bpf_options};
ghost use Rattle.tc_values.specs.AttributeWords.{on, type_of, table, Attribute, table_codec, table_short, same_attribute, attribute_equiv, attribute_per};
ghost use Rattle.tc_values.specs.Row.{attribute_of, IsRow, ShownAs, reads_at};
ghost use Rattle.tc_values.specs.Bodies.{nothing};
ghost use Rattle.tc_options.specs.Bpf.{bpf_option};

use crate::filters::types::*;
use bitflags::Flags;
use nla_frames::{
    DecodeError, DefaultNla, FrameMeaning, NLA_TYPE_MASK, Nla, NlaBuffer, Parseable, Res, Settle,
    parse_string, parse_u32,
};
use std::alloc::{Allocator, Global};
use tc_records::{TcBpfFlags, TcHandle, TcU32OptionFlags};
use tc_values::{Value, same_row};

/// The filter `bpf`, a program of BPF that classifies packets.
#[derive(PartialEq, Eq, Clone, Drop, Debug)]
pub struct TcFilterBpf {}

impl TcFilterBpf {
    /// The name in `TCA_KIND`.
    pub const KIND: &'static str = "bpf";

    /// The bytes of a program's tag: `BPF_TAG_SIZE` of `linux/bpf.h`.
    pub const BPF_TAG_SIZE: usize = 8;
}

/// An option of `bpf`. Numbers are little-endian.
///
/// | Type | Option | Value |
/// |---|---|---|
/// | 3 | `ClassId` | u32, a [`TcHandle`] |
/// | 6 | `ProgFd` | u32 |
/// | 7 | `ProgName` | text |
/// | 8 | `Flags` | u32, [`TcBpfFlags`] |
/// | 9 | `FlagsGeneric` | u32, [`TcU32OptionFlags`] |
/// | 10 | `ProgTag` | 8 bytes |
/// | 11 | `ProgId` | u32 |
#[derive(Drop)]
#[derive_where(Debug)]
#[derive_where(Clone; A)]
pub enum TcFilterBpfOption<A: Allocator = Global> {
    /// The class of matching packets: `TCA_BPF_CLASSID` of `linux/pkt_cls.h`.
    ClassId(TcHandle),
    /// The file descriptor of the program: `TCA_BPF_FD`.
    ProgFd(u32),
    /// The program's name: `TCA_BPF_NAME`.
    ProgName(String<A>),
    /// How the program's return value is used (`TCA_BPF_FLAG_ACT_DIRECT`): `TCA_BPF_FLAGS`.
    Flags(TcBpfFlags),
    /// Hardware offload, requested and reported: `TCA_BPF_FLAGS_GEN`.
    FlagsGeneric(TcU32OptionFlags),
    /// A digest of the program's instructions: `TCA_BPF_TAG`.
    ProgTag([u8; TcFilterBpf::BPF_TAG_SIZE]),
    /// The kernel's number of the program: `TCA_BPF_ID`.
    ProgId(u32),
    /// Any other type.
    Other(DefaultNla<A>),
}

impl<A: Allocator> FrameMeaning for TcFilterBpfOption<A> {
    ghost Seen = { Attribute };

    ghost see = { bpf_option };

    ghost codec = { table_codec (table bpf_options) };
}

impl<A: Allocator> Parseable<A> for TcFilterBpfOption<A> {
    fn parse(alloc: A, buf: &NlaBuffer<'_>) -> Res<TcFilterBpfOption<A>> {
        let value = buf.value();
        match buf.kind() {
            TCA_BPF_CLASSID => Ok(Self::ClassId(TcHandle::from(parse_u32(value)?))),
            TCA_BPF_FD => Ok(Self::ProgFd(parse_u32(value)?)),
            TCA_BPF_NAME => Ok(Self::ProgName(parse_string(alloc, value)?)),
            TCA_BPF_FLAGS => Ok(Self::Flags(TcBpfFlags::from_bits_retain(parse_u32(value)?))),
            TCA_BPF_FLAGS_GEN => Ok(Self::FlagsGeneric(TcU32OptionFlags::from_bits_retain(parse_u32(
                value,
            )?))),
            TCA_BPF_TAG => Ok(Self::ProgTag(parse_tag(value)?)),
            TCA_BPF_ID => Ok(Self::ProgId(parse_u32(value)?)),
            _ => Ok(Self::Other(DefaultNla::parse(alloc, buf)?)),
        }
    }
}

// Reads the bytes of a program's tag.
fn parse_tag(value: &[u8]) -> Res<[u8; TcFilterBpf::BPF_TAG_SIZE]>
    ensures { result ≡ exactly 8 value.now }
{
    if value.len() != TcFilterBpf::BPF_TAG_SIZE {
        return Err(DecodeError::WrongLength {
            expected: TcFilterBpf::BPF_TAG_SIZE,
            got: value.len(),
        });
    }
    let mut tag = [0; TcFilterBpf::BPF_TAG_SIZE];
    tag.copy_from_slice(value);
    Ok(tag)
}

impl<A: Allocator> TcFilterBpfOption<A> {
    // The row; its contract says how the attribute is written, when it fits and when it is settled.
    fn view(&self) -> (u16, Value<'_>)
        ensures { ShownAs nothing bpf_options (bpf_option self.now) result.0 result.1 }
    {
        self.row()
    }

    /// The `nla_type` (type and flags) and the value in the format of the type's row. Both of `Other` are as read.
    pub fn row(&self) -> (u16, Value<'_>)
        ensures seen { bpf_option self.now ≡ attribute_of nothing result.0 result.1 }
        ensures row { IsRow nothing bpf_options result.0 result.1 }
    {
        match self {
            Self::ClassId(handle) => (TCA_BPF_CLASSID, Value::U32(u32::from(*handle))),
            Self::ProgFd(n) => (TCA_BPF_FD, Value::U32(*n)),
            Self::ProgName(name) => (TCA_BPF_NAME, Value::Text(name.as_str())),
            Self::Flags(flags) => (TCA_BPF_FLAGS, Value::U32(flags.bits())),
            Self::FlagsGeneric(flags) => (TCA_BPF_FLAGS_GEN, Value::U32(flags.bits())),
            Self::ProgTag(tag) => (TCA_BPF_TAG, Value::Octets8(*tag)),
            Self::ProgId(n) => (TCA_BPF_ID, Value::U32(*n)),
            Self::Other(nla) => (nla.kind(), Value::Kept(nla.value())),
        }
    }
}

// True if the table reads options of the type of this `nla_type`.
fn is_read(word: u16) -> bool
    ensures { result ≡ reads_at bpf_options (type_of word) }
{
    matches!(
        word & NLA_TYPE_MASK,
        TCA_BPF_CLASSID | TCA_BPF_FD..=TCA_BPF_ID
    )
}

impl<A: Allocator> Nla for TcFilterBpfOption<A> {
    fn kind(&self) -> u16 {
        self.view().0
    }

    fn checked_len(&self) -> Option<usize> {
        self.view().1.checked_len()
    }

    fn put_value(&self, buffer: &mut [u8]) -> usize {
        self.view().1.put(buffer)
    }

    ghost is_short = { table_short (table bpf_options) };
}

impl<A: Allocator> Settle for TcFilterBpfOption<A> {
    fn is_settled_under(&self, kind: &str) -> bool {
        let (word, value) = self.view();
        value.is_settled_under(is_read(word), kind)
    }
}

impl<A: Allocator> PartialEq for TcFilterBpfOption<A> {
    ghost eq = { on bpf_option same_attribute };

    ghost laws = { attribute_per bpf_option };

    fn eq(&self, other: &TcFilterBpfOption<A>) -> bool {
        same_row(&self.row(), &other.row())
    }
}

impl<A: Allocator> Eq for TcFilterBpfOption<A> {
    ghost laws = { attribute_equiv bpf_option };
}
