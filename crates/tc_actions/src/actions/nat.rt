//! The action `nat`.

ghost use Rattle.std.specs.Prelude.{◌≡◌};
ghost use Rattle.tc_canon.specs.Tables.Actions.{nat_options};
ghost use Rattle.tc_values.specs.AttributeWords.{on, type_of, table, Attribute, table_codec, table_short, same_attribute, attribute_equiv, attribute_per};
ghost use Rattle.tc_values.specs.Row.{attribute_of, IsRow, ShownAs, reads_at};
ghost use Rattle.tc_actions.specs.Nat.{nat_option, nat_body};

use crate::actions::types::{TCA_NAT_PARMS, TCA_NAT_TM};
use nla_frames::{DefaultNla, FrameMeaning, NLA_TYPE_MASK, Nla, NlaBuffer, Parseable, Res, Settle};
use std::alloc::{Allocator, Global};
use tc_records::{TcNat, Tcf};
use tc_values::{Either, Record, Value, same_row};

/// The action `nat`, which maps one prefix of IPv4 addresses to another.
#[derive(PartialEq, Eq, Clone, Drop, Debug)]
pub struct TcActionNat {}

impl TcActionNat {
    /// The name in `TCA_ACT_KIND`.
    pub const KIND: &'static str = "nat";
}

/// An option of the action `nat`.
///
/// | Type | Option | Value |
/// |---|---|---|
/// | 1 | `Parms` | [`TcNat`] |
/// | 2 | `Tm` | [`Tcf`] |
#[derive(Drop)]
#[derive_where(Debug)]
#[derive_where(Clone; A)]
pub enum TcActionNatOption<A: Allocator = Global> {
    /// Times of creation and use: `TCA_NAT_TM` of `linux/tc_act/tc_nat.h`.
    Tm(Tcf),
    /// The prefix to match and the one to put in: `TCA_NAT_PARMS`.
    Parms(TcNat),
    /// Any other type.
    Other(DefaultNla<A>),
}

// Nested values of the options.
type Body<'a> = Either<Record<'a, Tcf>, Record<'a, TcNat>>;

impl<A: Allocator> FrameMeaning for TcActionNatOption<A> {
    ghost Seen = { Attribute };

    ghost see = { nat_option };

    ghost codec = { table_codec (table nat_options) };
}

impl<A: Allocator> Parseable<A> for TcActionNatOption<A> {
    #[inline(always)]
    fn parse(alloc: A, buf: &NlaBuffer<'_>) -> Res<TcActionNatOption<A>> {
        let value = buf.value();
        match buf.kind() {
            TCA_NAT_PARMS => Ok(Self::Parms(TcNat::parse(value)?)),
            TCA_NAT_TM => Ok(Self::Tm(Tcf::parse(value)?)),
            _ => Ok(Self::Other(DefaultNla::parse(alloc, buf)?)),
        }
    }
}

impl<A: Allocator> TcActionNatOption<A> {
    // The row; its contract says how the attribute is written, when it fits and when it is settled.
    fn view(&self) -> (u16, Value<'_, Body<'_>>)
        ensures { ShownAs nat_body nat_options (nat_option self.now) result.0 result.1 }
    {
        self.row()
    }

    /// The `nla_type` (type and flags) and the value in the format of the type's row. Both of `Other` are as read.
    pub fn row(&self) -> (u16, Value<'_, Body<'_>>)
        ensures seen { nat_option self.now ≡ attribute_of nat_body result.0 result.1 }
        ensures row { IsRow nat_body nat_options result.0 result.1 }
    {
        match self {
            Self::Tm(times) => (TCA_NAT_TM, Value::Nested(Either::Left(Record(times)))),
            Self::Parms(parms) => (TCA_NAT_PARMS, Value::Nested(Either::Right(Record(parms)))),
            Self::Other(nla) => (nla.kind(), Value::Kept(nla.value())),
        }
    }
}

// True if the table reads options of the type of this `nla_type`.
fn is_read(word: u16) -> bool
    ensures { result ≡ reads_at nat_options (type_of word) }
{
    matches!(word & NLA_TYPE_MASK, TCA_NAT_PARMS | TCA_NAT_TM)
}

impl<A: Allocator> Nla for TcActionNatOption<A> {
    fn kind(&self) -> u16 {
        self.view().0
    }

    fn checked_len(&self) -> Option<usize> {
        self.view().1.checked_len()
    }

    fn put_value(&self, buffer: &mut [u8]) -> usize {
        self.view().1.put(buffer)
    }

    ghost is_short = { table_short (table nat_options) };
}

impl<A: Allocator> Settle for TcActionNatOption<A> {
    fn is_settled_under(&self, kind: &str) -> bool {
        let (word, value) = self.view();
        value.is_settled_under(is_read(word), kind)
    }
}

impl<A: Allocator> PartialEq for TcActionNatOption<A> {
    ghost eq = { on nat_option same_attribute };

    ghost laws = { attribute_per nat_option };

    fn eq(&self, other: &TcActionNatOption<A>) -> bool {
        same_row(&self.row(), &other.row())
    }
}

impl<A: Allocator> Eq for TcActionNatOption<A> {
    ghost laws = { attribute_equiv nat_option };
}
