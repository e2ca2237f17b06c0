//! The attributes of an action message.

ghost use Rattle.std.specs.Prelude.{◌<◌, ◌^◌, ◌≡◌, string_bytes};
ghost use Rattle.tc_canon.specs.Tables.Messages.{action_message_attributes};
ghost use Rattle.tc_meaning.specs.Content.{pair_codec};
ghost use Rattle.tc_meaning.specs.Equal.{same_scalars, same_attribute, attribute_equiv, attribute_per};
ghost use Rattle.tc_laws.specs.Loose.{without_nuls, trailing_nuls, table_parts};
ghost use Rattle.tc_laws.specs.Norm.{trimmed_table};
ghost use Rattle.tc_values.specs.AttributeWords.{on, type_of, table, Attribute, table_codec, table_short};
ghost use Rattle.tc_values.specs.Row.{attribute_of, IsRow, ShownAs, reads_at};
ghost use Rattle.tc_action_messages.specs.Flags.{flags_words, flags_codec};
ghost use Rattle.tc_action_messages.specs.ActionMessageAttribute.{action_message_attribute, attribute_body, most_nuls};

use crate::flags::{TCA_ROOT_FLAGS, TcActionMessageFlagsWithSelector};
use bitflags::Flags;
use nla_frames::{
    DefaultNla, FrameMeaning, NLA_TYPE_MASK, Nla, NlaBuffer, Parseable, Res, Settle, parse_list,
    parse_string, parse_u32, strip_nul,
};
use std::alloc::{Allocator, Global};
use tc_actions::TcAction;
use tc_values::{Body, Either, Items, Same, Value, same_row};

/// The type of the actions, `TCA_ACT_TAB` of `linux/rtnetlink.h`.
pub const TCA_ACT_TAB: u16 = 1;

/// The type of the number of actions, `TCA_ROOT_COUNT`.
pub const TCA_ROOT_COUNT: u16 = 3;

/// The type of the age of actions, `TCA_ROOT_TIME_DELTA`.
pub const TCA_ROOT_TIME_DELTA: u16 = 4;

/// The type of a warning, `TCA_ROOT_EXT_WARN_MSG`.
pub const TCA_ROOT_EXT_WARN_MSG: u16 = 5;

/// An attribute of an action message.
///
/// | Type | Attribute | Value |
/// |---|---|---|
/// | 1 | `Actions` | a list of [`TcAction`] |
/// | 2 | `Flags` | [`TcActionMessageFlagsWithSelector`] |
/// | 3 | `RootCount` | u32 |
/// | 4 | `RootTimeDelta` | u32 |
/// | 5 | `RootExtWarnMsg` | text, written without a NUL |
#[derive(Drop)]
#[derive_where(Debug)]
#[derive_where(Clone; A)]
pub enum TcActionMessageAttribute<A: Allocator = Global> {
    /// Actions: `TCA_ACT_TAB` of `linux/rtnetlink.h`.
    Actions(Vec<TcAction<A>, A>),
    /// Flags of a dump request: `TCA_ROOT_FLAGS`.
    Flags(TcActionMessageFlagsWithSelector),
    /// Number of actions in a dump: `TCA_ROOT_COUNT`.
    RootCount(u32),
    /// Dump only actions used within this many milliseconds: `TCA_ROOT_TIME_DELTA`.
    RootTimeDelta(u32),
    /// A warning from the kernel: `TCA_ROOT_EXT_WARN_MSG`. One NUL at its end is dropped when read, and none is written.
    RootExtWarnMsg(String<A>),
    /// Any other type.
    Other(DefaultNla<A>),
}

/// Flags with a selector as the value of an attribute: 8 bytes, the flags and then the selector.
#[derive(Drop)]
pub struct Pair<'a>(pub &'a TcActionMessageFlagsWithSelector);

impl<'a> Body for Pair<'a> {
    ghost bytes = { λ p. pair_codec.write (flags_words p.0.now) };

    ghost Fits = { λ p. flags_codec.Fits (flags_words p.0.now) };

    ghost Typed = { λ p. pair_codec.Typed (flags_words p.0.now) };

    ghost Settled = { λ kind p. pair_codec.Settled kind (flags_words p.0.now) };

    fn checked_len(&self) -> Option<usize> {
        self.0.checked_len()
    }

    fn put(&self, buffer: &mut [u8]) -> usize {
        self.0.put_value(buffer)
    }

    fn is_settled_under(&self, kind: &str) -> bool {
        self.0.is_settled_under(kind)
    }
}

impl<'a> Same for Pair<'a> {
    ghost same = { λ p q. same_scalars (flags_words p.0.now) (flags_words q.0.now) };

    fn same(&self, other: &Pair<'a>) -> bool {
        self.0.flags.bits() == other.0.flags.bits()
            && self.0.selector.bits() == other.0.selector.bits()
    }
}

// Nested values of the attributes.
type Nested<'a, A> = Either<Items<'a, TcAction<A>>, Pair<'a>>;

impl<A: Allocator> FrameMeaning for TcActionMessageAttribute<A> {
    ghost Seen = { Attribute };

    ghost see = { action_message_attribute };

    ghost codec = { table_codec (table action_message_attributes) };
}

impl<A: Allocator + Copy> Parseable<A> for TcActionMessageAttribute<A> {
    fn parse(alloc: A, buf: &NlaBuffer<'_>) -> Res<TcActionMessageAttribute<A>> {
        let value = buf.value();
        match buf.kind() {
            TCA_ACT_TAB => Ok(Self::Actions(parse_list(alloc, value)?)),
            TCA_ROOT_FLAGS => {
                let flags = TcActionMessageFlagsWithSelector::parse(alloc, buf)?;
                Ok(Self::Flags(flags))
            }
            TCA_ROOT_COUNT => Ok(Self::RootCount(parse_u32(value)?)),
            TCA_ROOT_TIME_DELTA => Ok(Self::RootTimeDelta(parse_u32(value)?)),
            TCA_ROOT_EXT_WARN_MSG => Ok(Self::RootExtWarnMsg(parse_string(alloc, value)?)),
            _ => Ok(Self::Other(DefaultNla::parse(alloc, buf)?)),
        }
    }
}

impl<A: Allocator> TcActionMessageAttribute<A> {
    // The row; its contract says how the attribute is written, when it fits and when it is settled.
    fn view(&self) -> (u16, Value<'_, Nested<'_, A>>)
        ensures { ShownAs attribute_body action_message_attributes
            (action_message_attribute self.now) result.0 result.1 }
    {
        self.row()
    }

    /// The `nla_type` (type and flags) and the value in the format of the type's row. Both of `Other` are as read.
    pub fn row(&self) -> (u16, Value<'_, Nested<'_, A>>)
        ensures seen { action_message_attribute self.now
            ≡ attribute_of attribute_body result.0 result.1 }
        ensures row { IsRow attribute_body action_message_attributes result.0 result.1 }
    {
        match self {
            Self::Actions(actions) => (TCA_ACT_TAB, Value::Nested(Either::Left(Items(actions)))),
            Self::Flags(flags) => (TCA_ROOT_FLAGS, Value::Nested(Either::Right(Pair(flags)))),
            Self::RootCount(n) => (TCA_ROOT_COUNT, Value::U32(*n)),
            Self::RootTimeDelta(n) => (TCA_ROOT_TIME_DELTA, Value::U32(*n)),
            Self::RootExtWarnMsg(text) => (TCA_ROOT_EXT_WARN_MSG, Value::Warning(text.as_str())),
            Self::Other(nla) => (nla.kind(), Value::Kept(nla.value())),
        }
    }
}

impl<A: Allocator> TcActionMessageAttribute<A> {
    // Removes all NULs at the end of a warning and returns their number; 0 for other attributes.
    pub(crate) fn trim_warning(&mut self) -> usize
        ensures trimmed { action_message_attribute self.new
            ≡ trimmed_table without_nuls (table action_message_attributes)
            (action_message_attribute self.old) }
        ensures most { result ≡ most_nuls
            (table_parts (table action_message_attributes) (action_message_attribute self.old)) }
        ensures bound { result < 2 ^ 63 }
    {
        match self {
            Self::RootExtWarnMsg(text) => trim_text(text),
            _ => 0,
        }
    }
}

// Removes all NULs at the end of a text and returns their number.
fn trim_text<A: Allocator>(text: &mut String<A>) -> usize
    ensures trimmed { string_bytes text.new ≡ without_nuls (string_bytes text.old) }
    ensures count { result ≡ trailing_nuls (string_bytes text.old) }
    ensures bound { result < 2 ^ 63 }
{
    let kept = before_nuls(text.as_bytes()).len();
    let count = text.len() - kept;
    text.truncate(kept);
    count
}

// The bytes without the NULs at their end.
fn before_nuls(bytes: &[u8]) -> &[u8]
    ensures { result.now ≡ without_nuls bytes.now }
{
    let mut kept = bytes;
    let mut less = strip_nul(kept);
    while less.len() < kept.len() {
        kept = less;
        less = strip_nul(kept);
    }
    kept
}

// True if the table reads attributes of the type of this `nla_type`.
fn is_read(word: u16) -> bool
    ensures { result ≡ reads_at action_message_attributes (type_of word) }
{
    matches!(word & NLA_TYPE_MASK, TCA_ACT_TAB..=TCA_ROOT_EXT_WARN_MSG)
}

impl<A: Allocator> Nla for TcActionMessageAttribute<A> {
    fn kind(&self) -> u16 {
        self.view().0
    }

    fn checked_len(&self) -> Option<usize> {
        self.view().1.checked_len()
    }

    fn put_value(&self, buffer: &mut [u8]) -> usize {
        self.view().1.put(buffer)
    }

    ghost is_short = { table_short (table action_message_attributes) };
}

impl<A: Allocator> Settle for TcActionMessageAttribute<A> {
    fn is_settled_under(&self, kind: &str) -> bool {
        let (word, value) = self.view();
        value.is_settled_under(is_read(word), kind)
    }
}

impl<A: Allocator> PartialEq for TcActionMessageAttribute<A> {
    ghost eq = { on action_message_attribute same_attribute };

    ghost laws = { attribute_per action_message_attribute };

    fn eq(&self, other: &TcActionMessageAttribute<A>) -> bool {
        same_row(&self.row(), &other.row())
    }
}

impl<A: Allocator> Eq for TcActionMessageAttribute<A> {
    ghost laws = { attribute_equiv action_message_attribute };
}
