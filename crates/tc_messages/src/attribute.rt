//! The attributes of a message.

ghost use Rattle.std.specs.Prelude.{◌≡◌, ◌↔◌, false, List, ℕ, [], map, IfOk, IsTrue};
ghost use Rattle.std.specs.Ordering.{on};
ghost use Rattle.nla_frames.specs.Fault.{Returns, IfRefused, seen, read_as};
ghost use Rattle.nla_frames.specs.Frame.{type_of};
ghost use Rattle.nla_frames.specs.Buffer.{frame_of};
ghost use Rattle.nla_frames.specs.DefaultNla.{kept_frame};
ghost use Rattle.nla_frames.specs.Reading.{read_list};
ghost use Rattle.nla_frames.specs.OnlyKind.{text_set};
ghost use Rattle.nla_frames.specs.Codec.{list_codec};
ghost use Rattle.tc_canon.specs.Descriptor.{table, is_known};
ghost use Rattle.tc_canon.specs.Tables.Messages.{attributes};
ghost use Rattle.tc_canon.specs.Tables.Options.{option_kinds};
ghost use Rattle.tc_meaning.specs.Meaning.{IsRaw};
ghost use Rattle.tc_meaning.specs.Tree.{Attribute, other};
ghost use Rattle.tc_meaning.specs.Message.{kind_of_frame, kind_of_attribute};
ghost use Rattle.tc_meaning.specs.OwnGrammar.{first_look};
ghost use Rattle.tc_meaning.specs.Short.{table_short};
ghost use Rattle.tc_meaning.specs.Equal.{same_attribute, attribute_equiv, attribute_per};
ghost use Rattle.tc_values.specs.Row.{attribute_of, reads_at};
ghost use Rattle.tc_messages.specs.Attribute.{tc_attribute, as_other, attribute_codec, nested, IsWritten};
ghost use Rattle.tc_messages.specs.Attribute.{ReadsAttributes, AttributesFault};

use crate::types::{
    TCA_CHAIN, TCA_DUMP_INVISIBLE, TCA_FCNT, TCA_HW_OFFLOAD, TCA_KIND, TCA_OPTIONS, TCA_RATE,
    TCA_STAB, TCA_STATS, TCA_STATS2, TCA_XSTATS,
};
use nla_frames::laws::in_range::{
    bytes_are_in_range, text_is_utf8, u8_is_in_range, u32_is_in_range,
};
use nla_frames::laws::list_grammar;
use nla_frames::{
    BytesMeaning, DefaultNla, FrameMeaning, NLA_TYPE_MASK, Nla, NlaBuffer, NlasIterator, Parseable,
    ParseableBytes, ParseableParametrized, Res, SetsKind, Settle, SettleBytes, first_capacity,
    kind_then, list_settled_under, parse_list_with, parse_string, parse_u8, parse_u32,
};
use std::alloc::{Allocator, Global};
use tc_actions::{TcStats2, TcXstats};
use tc_options::{TcOption, VecTcOption, is_known_kind};
use tc_records::TcStats;
use tc_values::{Either, Items, Record, Value, kind_set_by_frame};

/// An attribute of a message.
///
/// | Type | Attribute | Value |
/// |---|---|---|
/// | 1 | `Kind` | text |
/// | 2 | `Options` under a known kind | a list of that kind's options |
/// | 2 | `OptionsRaw` under any other kind | bytes, kept raw |
/// | 3 | `Stats` | [`TcStats`] |
/// | 4 | `Xstats` | [`TcXstats`], by the kind in force |
/// | 5, 6, 8 | `Rate`, `Fcnt`, `Stab` | bytes |
/// | 7 | `Stats2` | a list of [`TcStats2`], by the kind in force |
/// | 10 | `DumpInvisible` | any, written as no bytes |
/// | 11 | `Chain` | u32 |
/// | 12 | `HwOffload` | u8 |
#[derive(Drop)]
#[derive_where(Debug)]
#[derive_where(Clone; A)]
pub enum TcAttribute<A: Allocator = Global> {
    /// The name of the qdisc or filter, which selects the format of the options and statistics after it: `TCA_KIND` of
    /// `linux/rtnetlink.h`.
    Kind(String<A>),
    /// The options under a known kind: `TCA_OPTIONS`.
    Options(Vec<TcOption<A>, A>),
    /// The options under any other kind, kept raw: `TCA_OPTIONS`.
    OptionsRaw(DefaultNla<A>),
    /// Statistics: `TCA_STATS`.
    Stats(TcStats),
    /// The qdisc's own statistics: `TCA_XSTATS`.
    Xstats(TcXstats<A>),
    /// How a rate is estimated, `struct tc_estimator` as bytes: `TCA_RATE`.
    Rate(Vec<u8, A>),
    /// A count, as bytes. Linux sends one when actions are flushed: `TCA_FCNT`.
    Fcnt(Vec<u8, A>),
    /// Statistics, each an attribute: `TCA_STATS2`.
    Stats2(Vec<TcStats2<A>, A>),
    /// The qdisc's size table, as bytes: `TCA_STAB`.
    Stab(Vec<u8, A>),
    /// Presence flag: include invisible qdiscs, `TCA_DUMP_INVISIBLE`. Written whether true or false.
    DumpInvisible(bool),
    /// The number of a chain of filters: `TCA_CHAIN`.
    Chain(u32),
    /// Whether it is offloaded to hardware, a byte: `TCA_HW_OFFLOAD`.
    HwOffload(u8),
    /// Any other type.
    Other(DefaultNla<A>),
}

impl<A: Allocator> FrameMeaning for TcAttribute<A> {
    ghost Seen = { Attribute };

    ghost see = { tc_attribute };

    ghost codec = { attribute_codec };
}

impl<A: Allocator + Copy> ParseableParametrized<A> for TcAttribute<A> {
    fn parse_with_param(alloc: A, buf: &NlaBuffer<'_>, kind: &str) -> Res<TcAttribute<A>> {
        match buf.kind() {
            TCA_KIND => Ok(TcAttribute::Kind(parse_string(alloc, buf.value())?)),
            TCA_OPTIONS => Self::read_options(alloc, buf, kind),
            TCA_STATS => Ok(TcAttribute::Stats(TcStats::parse(buf.value())?)),
            TCA_XSTATS => Ok(TcAttribute::Xstats(TcXstats::parse_with_param(alloc, buf, kind)?)),
            TCA_RATE => Ok(TcAttribute::Rate(Vec::from_slice(alloc, buf.value())?)),
            TCA_FCNT => Ok(TcAttribute::Fcnt(Vec::from_slice(alloc, buf.value())?)),
            TCA_STATS2 => Ok(TcAttribute::Stats2(parse_list_with(alloc, buf.value(), kind)?)),
            TCA_STAB => Ok(TcAttribute::Stab(Vec::from_slice(alloc, buf.value())?)),
            TCA_DUMP_INVISIBLE => Ok(TcAttribute::DumpInvisible(true)),
            TCA_CHAIN => Ok(TcAttribute::Chain(parse_u32(buf.value())?)),
            TCA_HW_OFFLOAD => Ok(TcAttribute::HwOffload(parse_u8(buf.value())?)),
            _ => Self::read_other(alloc, buf),
        }
    }
}

// Reading options, and attributes of types without a row.
impl<A: Allocator + Copy> TcAttribute<A> {
    // Options: a list under a known kind, kept raw under any other.
    #[inline(always)]
    fn read_options(alloc: A, buf: &NlaBuffer<'_>, kind: &str) -> Res<TcAttribute<A>>
        requires { type_of (frame_of buf.now).word ≡ 2 }
        ensures { Returns (seen tc_attribute result)
            (attribute_codec.read kind.now (frame_of buf.now)) }
    {
        if is_known_kind(kind) {
            let options = VecTcOption::parse_with_param(alloc, buf, kind)?.0;
            Ok(TcAttribute::Options(options))
        } else {
            Ok(TcAttribute::OptionsRaw(DefaultNla::parse(alloc, buf)?))
        }
    }

    // An attribute that is kept raw.
    #[inline(always)]
    fn read_other(alloc: A, buf: &NlaBuffer<'_>) -> Res<TcAttribute<A>>
        ensures { Returns (seen tc_attribute result)
            (read_as (other (frame_of buf.now).word (frame_of buf.now).value)) }
    {
        Ok(TcAttribute::Other(DefaultNla::parse(alloc, buf)?))
    }
}

// Nested values of the attributes.
type Nested<'a, A> = Either<
    Either<Items<'a, TcOption<A>>, Items<'a, TcStats2<A>>>,
    Either<Record<'a, TcStats>, Record<'a, TcXstats<A>>>,
>;

impl<A: Allocator> TcAttribute<A> {
    /// The attribute's `nla_type` (type and flags) and its value, in the form that the row of its type in the table says.
    /// Of `Other` and `OptionsRaw` the word and the payload that they keep.
    pub fn row(&self) -> (u16, Value<'_, Nested<'_, A>>)
        ensures seen { as_other (tc_attribute self.now) ≡ attribute_of nested result.0 result.1 }
        ensures written { IsWritten (tc_attribute self.now) result.0 result.1 }
    {
        match self {
            TcAttribute::Kind(kind) => (TCA_KIND, Value::Text(kind.as_str())),
            TcAttribute::Options(options) => {
                (
                    TCA_OPTIONS,
                    Value::Nested(Either::Left(Either::Left(Items(options)))),
                )
            }
            TcAttribute::OptionsRaw(nla) => (nla.kind(), Value::Kept(nla.value())),
            TcAttribute::Stats(stats) => {
                (
                    TCA_STATS,
                    Value::Nested(Either::Right(Either::Left(Record(stats)))),
                )
            }
            TcAttribute::Xstats(xstats) => {
                (
                    TCA_XSTATS,
                    Value::Nested(Either::Right(Either::Right(Record(xstats)))),
                )
            }
            TcAttribute::Stats2(stats) => {
                (
                    TCA_STATS2,
                    Value::Nested(Either::Left(Either::Right(Items(stats)))),
                )
            }
            TcAttribute::Rate(bytes) => (TCA_RATE, Value::Bytes(bytes)),
            TcAttribute::Fcnt(bytes) => (TCA_FCNT, Value::Bytes(bytes)),
            TcAttribute::Stab(bytes) => (TCA_STAB, Value::Bytes(bytes)),
            TcAttribute::DumpInvisible(is_set) => (TCA_DUMP_INVISIBLE, Value::Presence(*is_set)),
            TcAttribute::Chain(chain) => (TCA_CHAIN, Value::U32(*chain)),
            TcAttribute::HwOffload(offload) => (TCA_HW_OFFLOAD, Value::U8(*offload)),
            TcAttribute::Other(nla) => (nla.kind(), Value::Kept(nla.value())),
        }
    }
}

impl<A: Allocator> Nla for TcAttribute<A> {
    fn kind(&self) -> u16 {
        self.row().0
    }

    fn checked_len(&self) -> Option<usize> {
        self.row().1.checked_len()
    }

    fn put_value(&self, buffer: &mut [u8]) -> usize {
        self.row().1.put(buffer)
    }

    ghost is_short = { table_short (table attributes) };
}

// True if the table reads attributes of the type of this `nla_type`.
fn is_read(word: u16) -> bool
    ensures { result ≡ reads_at attributes (type_of word) }
{
    matches!(word & NLA_TYPE_MASK, TCA_KIND..=TCA_STAB | TCA_DUMP_INVISIBLE..=TCA_HW_OFFLOAD)
}

// True if raw options are settled: under an unknown kind, with the type of options.
fn is_settled_raw<A: Allocator>(nla: &DefaultNla<A>, kind: &str) -> bool
    ensures settled { IsTrue result ↔ (is_known option_kinds kind.now ≡ false)
        × (type_of (kept_frame nla.now).word ≡ 2) }
    ensures typed { IsTrue result
        → IsRaw (kept_frame nla.now).word (kept_frame nla.now).value }
{
    if is_known_kind(kind) {
        return false;
    }
    nla.is_settled_under(kind) && nla.kind() & NLA_TYPE_MASK == TCA_OPTIONS
}

impl<A: Allocator> Settle for TcAttribute<A> {
    fn is_settled_under(&self, kind: &str) -> bool {
        // What ends in `_in_hand` does nothing at run time: it says that a number is in the range of its type, bytes are below
        // 256, a text is UTF-8.
        match self {
            TcAttribute::Kind(text) => {
                text_is_utf8(text.as_str());
                true
            }
            TcAttribute::Options(options) => {
                is_known_kind(kind) && list_settled_under(options, kind)
            }
            TcAttribute::OptionsRaw(nla) => is_settled_raw(nla, kind),
            TcAttribute::Stats(stats) => stats.is_settled_under(kind),
            TcAttribute::Xstats(xstats) => xstats.is_settled_under(kind),
            TcAttribute::Stats2(stats) => list_settled_under(stats, kind),
            TcAttribute::Rate(bytes) | TcAttribute::Fcnt(bytes) | TcAttribute::Stab(bytes) => {
                bytes_are_in_range(bytes);
                true
            }
            TcAttribute::DumpInvisible(is_set) => *is_set,
            TcAttribute::Chain(chain) => {
                u32_is_in_range(*chain);
                true
            }
            TcAttribute::HwOffload(offload) => {
                u8_is_in_range(*offload);
                true
            }
            TcAttribute::Other(nla) => nla.is_settled_under(kind) && !is_read(nla.kind()),
        }
    }
}

impl<A: Allocator> SetsKind for TcAttribute<A> {
    ghost sets = { λ attribute. kind_of_attribute (tc_attribute attribute) };

    fn kind_set(&self) -> Option<&str> {
        match self {
            TcAttribute::Kind(text) => Some(text.as_str()),
            _ => None,
        }
    }
}

/// The attributes of a message, each read under the last kind before it.
#[derive(Drop)]
pub struct VecTcAttribute<A: Allocator = Global>(pub Vec<TcAttribute<A>, A>);

impl<A: Allocator> BytesMeaning for VecTcAttribute<A> {
    ghost Seen = { List Attribute };

    ghost see = { λ list. map tc_attribute list.0.items };

    ghost codec = { list_codec kind_of_frame kind_of_attribute attribute_codec };
}

impl<A: Allocator + Copy> ParseableBytes<A> for VecTcAttribute<A> {
    fn parse(alloc: A, bytes: &[u8]) -> Res<VecTcAttribute<A>>
        // The value is the grammar's reading, each frame under the last kind before it.
        ensures found { IfOk result (λ list.
            ReadsAttributes bytes.now (map tc_attribute list.0.items)) }
        // A refusal is the first fault.
        ensures refused { IfRefused result (AttributesFault bytes.now) }
        // The result is what the reading function computes, unless memory ran out.
        ensures exact { Returns (seen (λ list. map tc_attribute list.0.items) result)
            (read_list attribute_codec.read kind_of_frame [] bytes.now) }
    {
        // Does nothing at run time: its law, that `read_list` is what the grammar reads, gives the clauses `found` and
        // `refused`.
        list_grammar::<TcAttribute<A>>(bytes, "");
        read_attributes(alloc, bytes)
    }
}

fn read_attributes<A: Allocator + Copy>(alloc: A, bytes: &[u8]) -> Res<VecTcAttribute<A>>
    ensures { Returns (seen (λ list. map tc_attribute list.0.items) result)
        (read_list attribute_codec.read kind_of_frame [] bytes.now) }
{
    let mut list = Vec::with_capacity(alloc, first_capacity(bytes))?;
    let mut kind = "";
    for frame in NlasIterator::new(bytes) {
        let frame = frame?;
        let set = kind_set_by_frame(&frame)?;
        // A slot is reserved before the attribute is read, so that it is built in place.
        list.reserve(1)?;
        let item = read_attribute(alloc, &frame, set, kind)?;
        kind = kind_then(kind, set);
        list.push_reserved(item);
    }
    Ok(VecTcAttribute(list))
}

// Reads a frame that sets this kind, or none; the kind's text isn't decoded again.
fn read_attribute<A: Allocator + Copy>(
    alloc: A,
    frame: &NlaBuffer<'_>,
    set: Option<&str>,
    kind: &str,
) -> Res<TcAttribute<A>>
    requires { first_look [] (frame_of frame.now) ≡ read_as (text_set set) }
    ensures { Returns (seen tc_attribute result)
        (attribute_codec.read kind.now (frame_of frame.now)) }
{
    match set {
        Some(text) => Ok(TcAttribute::Kind(String::from_str(alloc, text)?)),
        None => TcAttribute::parse_with_param(alloc, frame, kind),
    }
}

impl<A: Allocator> PartialEq for TcAttribute<A> {
    ghost eq = { on tc_attribute same_attribute };

    ghost laws = { attribute_per tc_attribute };

    fn eq(&self, other: &TcAttribute<A>) -> bool {
        match (self, other) {
            (Self::Kind(one), Self::Kind(another)) => one == another,
            (Self::Options(one), Self::Options(another)) => one == another,
            (Self::OptionsRaw(one), Self::OptionsRaw(another)) => one == another,
            (Self::Stats(one), Self::Stats(another)) => one == another,
            (Self::Xstats(one), Self::Xstats(another)) => one == another,
            (Self::Rate(one), Self::Rate(another)) => one == another,
            (Self::Fcnt(one), Self::Fcnt(another)) => one == another,
            (Self::Stats2(one), Self::Stats2(another)) => one == another,
            (Self::Stab(one), Self::Stab(another)) => one == another,
            (Self::DumpInvisible(one), Self::DumpInvisible(another)) => one == another,
            (Self::Chain(one), Self::Chain(another)) => one == another,
            (Self::HwOffload(one), Self::HwOffload(another)) => one == another,
            (Self::Other(one), Self::Other(another)) => one == another,
            _ => false,
        }
    }
}

impl<A: Allocator> Eq for TcAttribute<A> {
    ghost laws = { attribute_equiv tc_attribute };
}
