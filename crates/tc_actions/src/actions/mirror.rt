//! The action `mirred`.

ghost use Rattle.std.specs.Prelude.{◌≡◌};
ghost use Rattle.tc_canon.specs.Tables.Actions.{mirror_options};
ghost use Rattle.tc_values.specs.AttributeWords.{on, type_of, table, Attribute, table_codec, table_short, same_attribute, attribute_equiv, attribute_per};
ghost use Rattle.tc_values.specs.Row.{attribute_of, IsRow, ShownAs, reads_at};
ghost use Rattle.tc_actions.specs.Mirror.{mirror_option, mirror_body};

use crate::actions::types::{TCA_MIRRED_PARMS, TCA_MIRRED_TM};
use nla_frames::{DefaultNla, FrameMeaning, NLA_TYPE_MASK, Nla, NlaBuffer, Parseable, Res, Settle};
use std::alloc::{Allocator, Global};
use tc_records::{TcMirror, Tcf};
use tc_values::{Either, Record, Value, same_row};

/// The action `mirred`, which redirects or copies packets to another interface.
#[derive(PartialEq, Eq, Clone, Drop, Debug)]
pub struct TcActionMirror {}

impl TcActionMirror {
    /// The name in `TCA_ACT_KIND`.
    pub const KIND: &'static str = "mirred";
}

/// An option of the action `mirred`.
///
/// | Type | Option | Value |
/// |---|---|---|
/// | 1 | `Tm` | [`Tcf`] |
/// | 2 | `Parms` | [`TcMirror`] |
#[derive(Drop)]
#[derive_where(Debug)]
#[derive_where(Clone; A)]
pub enum TcActionMirrorOption<A: Allocator = Global> {
    /// Times of creation and use: `TCA_MIRRED_TM` of `linux/tc_act/tc_mirred.h`.
    Tm(Tcf),
    /// The target interface, and whether packets are redirected or copied: `TCA_MIRRED_PARMS`.
    Parms(TcMirror),
    /// Any other type.
    Other(DefaultNla<A>),
}

// Nested values of the options.
type Body<'a> = Either<Record<'a, Tcf>, Record<'a, TcMirror>>;

impl<A: Allocator> FrameMeaning for TcActionMirrorOption<A> {
    ghost Seen = { Attribute };

    ghost see = { mirror_option };

    ghost codec = { table_codec (table mirror_options) };
}

impl<A: Allocator> Parseable<A> for TcActionMirrorOption<A> {
    #[inline(always)]
    fn parse(alloc: A, buf: &NlaBuffer<'_>) -> Res<TcActionMirrorOption<A>> {
        let value = buf.value();
        match buf.kind() {
            TCA_MIRRED_TM => Ok(Self::Tm(Tcf::parse(value)?)),
            TCA_MIRRED_PARMS => Ok(Self::Parms(TcMirror::parse(value)?)),
            _ => Ok(Self::Other(DefaultNla::parse(alloc, buf)?)),
        }
    }
}

impl<A: Allocator> TcActionMirrorOption<A> {
    // The row; its contract says how the attribute is written, when it fits and when it is settled.
    fn view(&self) -> (u16, Value<'_, Body<'_>>)
        ensures { ShownAs mirror_body mirror_options (mirror_option self.now) result.0 result.1 }
    {
        self.row()
    }

    /// The `nla_type` (type and flags) and the value in the format of the type's row. Both of `Other` are as read.
    pub fn row(&self) -> (u16, Value<'_, Body<'_>>)
        ensures seen { mirror_option self.now ≡ attribute_of mirror_body result.0 result.1 }
        ensures row { IsRow mirror_body mirror_options result.0 result.1 }
    {
        match self {
            Self::Tm(times) => (TCA_MIRRED_TM, Value::Nested(Either::Left(Record(times)))),
            Self::Parms(parms) => (
                TCA_MIRRED_PARMS,
                Value::Nested(Either::Right(Record(parms))),
            ),
            Self::Other(nla) => (nla.kind(), Value::Kept(nla.value())),
        }
    }
}

// True if the table reads options of the type of this `nla_type`.
fn is_read(word: u16) -> bool
    ensures { result ≡ reads_at mirror_options (type_of word) }
{
    matches!(word & NLA_TYPE_MASK, TCA_MIRRED_TM | TCA_MIRRED_PARMS)
}

impl<A: Allocator> Nla for TcActionMirrorOption<A> {
    fn kind(&self) -> u16 {
        self.view().0
    }

    fn checked_len(&self) -> Option<usize> {
        self.view().1.checked_len()
    }

    fn put_value(&self, buffer: &mut [u8]) -> usize {
        self.view().1.put(buffer)
    }

    ghost is_short = { table_short (table mirror_options) };
}

impl<A: Allocator> Settle for TcActionMirrorOption<A> {
    fn is_settled_under(&self, kind: &str) -> bool {
        let (word, value) = self.view();
        value.is_settled_under(is_read(word), kind)
    }
}

impl<A: Allocator> PartialEq for TcActionMirrorOption<A> {
    ghost eq = { on mirror_option same_attribute };

    ghost laws = { attribute_per mirror_option };

    fn eq(&self, other: &TcActionMirrorOption<A>) -> bool {
        same_row(&self.row(), &other.row())
    }
}

impl<A: Allocator> Eq for TcActionMirrorOption<A> {
    ghost laws = { attribute_equiv mirror_option };
}
