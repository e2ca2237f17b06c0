//! The attributes of an action.

ghost use Rattle.std.specs.Prelude.{◌≡◌, string_bytes};
ghost use Rattle.nla_frames.specs.Fault.{Returns, seen};
ghost use Rattle.nla_frames.specs.Value.{text};
ghost use Rattle.tc_canon.specs.Tables.Actions.{action_attributes};
ghost use Rattle.tc_meaning.specs.Own.{kind_of_attribute};
ghost use Rattle.tc_values.specs.AttributeWords.{on, type_of, table, Attribute, table_codec, table_short, same_attribute, attribute_equiv, attribute_per};
ghost use Rattle.tc_values.specs.Row.{attribute_of, IsRow, ShownAs, reads_at};
ghost use Rattle.tc_actions.specs.ActionAttribute.{action_attribute, attribute_body};

use crate::actions::option::{TcActionOption, read_options};
use crate::actions::types::*;
use crate::stats::stats2::TcStats2;
use nla_frames::{
    DefaultNla, FrameMeaning, NLA_F_NESTED, NLA_TYPE_MASK, Nla, NlaBuffer, Parseable,
    ParseableParametrized, Res, SetsKind, Settle, parse_list_with, parse_string, parse_u32,
    strip_nul,
};
use std::alloc::{Allocator, Global};
use tc_values::{Either, Items, Value, same_row};

/// An attribute of an action.
///
/// | Type | Attribute | Value |
/// |---|---|---|
/// | 1 | `Kind` | text |
/// | 2, written with `NLA_F_NESTED` | `Options` | a list of [`TcActionOption`], by the action's kind |
/// | 3 | `Index` | u32 |
/// | 4 | `Stats` | a list of [`TcStats2`], by the action's kind |
/// | 6 | `Cookie` | bytes |
/// | 10 | `InHwCount` | u32 |
#[derive(Drop)]
#[derive_where(Debug)]
#[derive_where(Clone; A)]
pub enum TcActionAttribute<A: Allocator = Global> {
    /// The action's kind: `TCA_ACT_KIND` of `linux/pkt_cls.h`.
    Kind(String<A>),
    /// The options: `TCA_ACT_OPTIONS`.
    Options(Vec<TcActionOption<A>, A>),
    /// The index of the action among the actions of its kind: `TCA_ACT_INDEX`.
    Index(u32),
    /// Statistics: `TCA_ACT_STATS`.
    Stats(Vec<TcStats2<A>, A>),
    /// Bytes that the user stored with the action: `TCA_ACT_COOKIE`.
    Cookie(Vec<u8, A>),
    /// How many times the action is offloaded to hardware: `TCA_ACT_IN_HW_COUNT`.
    InHwCount(u32),
    /// Any other type.
    Other(DefaultNla<A>),
}

// Nested values of the attributes.
type Body<'a, A> = Either<Items<'a, TcActionOption<A>>, Items<'a, TcStats2<A>>>;

impl<A: Allocator> FrameMeaning for TcActionAttribute<A> {
    ghost Seen = { Attribute };

    ghost see = { action_attribute };

    ghost codec = { table_codec (table action_attributes) };
}

impl<A: Allocator + Copy> ParseableParametrized<A> for TcActionAttribute<A> {
    fn parse_with_param(alloc: A, buf: &NlaBuffer<'_>, kind: &str) -> Res<TcActionAttribute<A>> {
        let value = buf.value();
        match buf.kind() {
            TCA_ACT_KIND => Ok(Self::Kind(read_kind(alloc, value, kind)?)),
            TCA_ACT_OPTIONS => Ok(Self::Options(read_options(alloc, value, kind)?)),
            TCA_ACT_INDEX => Ok(Self::Index(parse_u32(value)?)),
            TCA_ACT_STATS => Ok(Self::Stats(parse_list_with(alloc, value, kind)?)),
            TCA_ACT_COOKIE => Ok(Self::Cookie(Vec::from_slice(alloc, value)?)),
            TCA_ACT_IN_HW_COUNT => Ok(Self::InHwCount(parse_u32(value)?)),
            _ => Ok(Self::Other(DefaultNla::parse(alloc, buf)?)),
        }
    }
}

// Reads the text of a kind. Bytes equal to the kind in force, as in every action, aren't tested for UTF-8 again.
fn read_kind<A: Allocator>(alloc: A, value: &[u8], kind: &str) -> Res<String<A>>
    ensures { Returns (seen string_bytes result) (text value.now) }
{
    if strip_nul(value) == kind.as_bytes() {
        return Ok(String::from_str(alloc, kind)?);
    }
    parse_string(alloc, value)
}

impl<A: Allocator> TcActionAttribute<A> {
    // The row; its contract says how the attribute is written, when it fits and when it is settled.
    fn view(&self) -> (u16, Value<'_, Body<'_, A>>)
        ensures { ShownAs attribute_body action_attributes (action_attribute self.now)
            result.0 result.1 }
    {
        self.row()
    }

    /// The `nla_type` (type and flags) and the value in the format of the type's row. Both of `Other` are as read.
    pub fn row(&self) -> (u16, Value<'_, Body<'_, A>>)
        ensures seen { action_attribute self.now ≡ attribute_of attribute_body result.0 result.1 }
        ensures row { IsRow attribute_body action_attributes result.0 result.1 }
    {
        match self {
            Self::Kind(kind) => (TCA_ACT_KIND, Value::Text(kind.as_str())),
            Self::Options(options) => (
                TCA_ACT_OPTIONS | NLA_F_NESTED,
                Value::Nested(Either::Left(Items(options))),
            ),
            Self::Index(n) => (TCA_ACT_INDEX, Value::U32(*n)),
            Self::Stats(stats) => (TCA_ACT_STATS, Value::Nested(Either::Right(Items(stats)))),
            Self::Cookie(bytes) => (TCA_ACT_COOKIE, Value::Bytes(bytes)),
            Self::InHwCount(n) => (TCA_ACT_IN_HW_COUNT, Value::U32(*n)),
            Self::Other(nla) => (nla.kind(), Value::Kept(nla.value())),
        }
    }
}

// True if the table reads attributes of the type of this `nla_type`.
fn is_read(word: u16) -> bool
    ensures { result ≡ reads_at action_attributes (type_of word) }
{
    matches!(
        word & NLA_TYPE_MASK,
        TCA_ACT_KIND..=TCA_ACT_STATS | TCA_ACT_COOKIE | TCA_ACT_IN_HW_COUNT
    )
}

impl<A: Allocator> Nla for TcActionAttribute<A> {
    fn kind(&self) -> u16 {
        self.view().0
    }

    fn checked_len(&self) -> Option<usize> {
        self.view().1.checked_len()
    }

    fn put_value(&self, buffer: &mut [u8]) -> usize {
        self.view().1.put(buffer)
    }

    ghost is_short = { table_short (table action_attributes) };
}

impl<A: Allocator> Settle for TcActionAttribute<A> {
    fn is_settled_under(&self, kind: &str) -> bool {
        let (word, value) = self.view();
        value.is_settled_under(is_read(word), kind)
    }
}

impl<A: Allocator> SetsKind for TcActionAttribute<A> {
    ghost sets = { λ attribute. kind_of_attribute (action_attribute attribute) };

    fn kind_set(&self) -> Option<&str> {
        match self {
            Self::Kind(kind) => Some(kind.as_str()),
            _ => None,
        }
    }
}

impl<A: Allocator> PartialEq for TcActionAttribute<A> {
    ghost eq = { on action_attribute same_attribute };

    ghost laws = { attribute_per action_attribute };

    fn eq(&self, other: &TcActionAttribute<A>) -> bool {
        same_row(&self.row(), &other.row())
    }
}

impl<A: Allocator> Eq for TcActionAttribute<A> {
    ghost laws = { attribute_equiv action_attribute };
}
