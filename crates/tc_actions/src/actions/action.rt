//! An action: one attribute, whose payload is a list of attributes that holds its own kind.

ghost use Rattle.std.specs.Prelude.{◌≡◌, [], IfOk};
ghost use Rattle.nla_frames.specs.Fault.{Returns, IfRefused, seen};
ghost use Rattle.nla_frames.specs.Buffer.{frame_of};
ghost use Rattle.tc_meaning.specs.OwnGrammar.{OwnReads, OwnFault};
ghost use Rattle.tc_laws.specs.Order.{read_action_attribute};
ghost use Rattle.tc_values.specs.AttributeWords.{on, type_of, Attribute, table_codec, table_short, same_attribute, attribute_equiv, attribute_per};
ghost use Rattle.tc_actions.specs.Action.{an_action, listed, tc_action, KeepsOrder};

use crate::actions::attribute::TcActionAttribute;
use crate::actions::scan::parse_list_own;
use crate::actions::types::TCA_ACT_TAB;
use nla_frames::laws::in_range::u16_is_in_range;
use nla_frames::{
    FrameMeaning, NLA_TYPE_MASK, Nla, NlaBuffer, Parseable, Res, Settle, list_settled_own,
    nested_checked_len, put_list,
};
use std::alloc::{Allocator, Global};
use tc_laws::places::order_in_an_action;

/// An action. Exactly one attribute is its [`Kind`](TcActionAttribute::Kind), anywhere in the list, and selects the format
/// of its options and statistics.
#[derive(Drop)]
#[derive_where(Debug)]
#[derive_where(Clone; A)]
pub struct TcAction<A: Allocator = Global> {
    /// The attribute type, which in a list of actions is the order number, from 1. Written as the whole `nla_type`.
    pub tab: u16,
    /// The attributes, in order.
    pub attributes: Vec<TcActionAttribute<A>, A>,
}

impl<A: Allocator> TcAction<A> {
    /// An action of type `TCA_ACT_TAB` with no attributes. It isn't settled, as it has no kind.
    pub fn default_in(alloc: A) -> TcAction<A>
        ensures tab { result.tab ≡ 1 }
        ensures attributes { result.attributes.items ≡ [] }
    {
        TcAction {
            tab: TCA_ACT_TAB,
            attributes: Vec::new(alloc),
        }
    }
}

impl<A: Allocator> FrameMeaning for TcAction<A> {
    ghost Seen = { Attribute };

    ghost see = { tc_action };

    ghost codec = { table_codec an_action };
}

impl<A: Allocator + Copy> Parseable<A> for TcAction<A> {
    /// Reads the payload of a frame of any type. The first fault is a broken frame or a kind that isn't UTF-8, else
    /// `MissingKind` or `DuplicateKind`, else a fault of an attribute.
    fn parse(alloc: A, buf: &NlaBuffer<'_>) -> Res<TcAction<A>>
        ensures tab { IfOk result (λ action. action.tab ≡ type_of (frame_of buf.now).word) }
        // The attributes are the grammar's reading of the value.
        ensures found { IfOk result (λ action.
            OwnReads read_action_attribute (frame_of buf.now).value (listed action)) }
        // A refusal is the first fault.
        ensures refused { IfRefused result
            (OwnFault read_action_attribute (frame_of buf.now).value) }
        // Two neighbours exchanged, where all are padded in full, exchange what they read as, and change nothing else.
        ensures order { IfOk result (λ action. KeepsOrder (frame_of buf.now) (listed action)) }
        // The result is what the reading function computes, unless memory ran out.
        ensures exact { Returns (seen tc_action result)
            ((table_codec an_action).read [] (frame_of buf.now)) }
    {
        // Does nothing at run time: its law gives the clause `order`.
        order_in_an_action();
        let attributes = parse_list_own(alloc, buf.value())?;
        Ok(TcAction {
            tab: buf.kind(),
            attributes,
        })
    }
}

impl<A: Allocator> Nla for TcAction<A> {
    fn kind(&self) -> u16 {
        self.tab
    }

    fn checked_len(&self) -> Option<usize> {
        nested_checked_len(&self.attributes)
    }

    fn put_value(&self, buffer: &mut [u8]) -> usize {
        // Does nothing at run time: it says that `tab` is below 2^16, for the clause `typed`.
        u16_is_in_range(self.tab);
        put_list(&self.attributes, buffer)
    }

    ghost is_short = { table_short an_action };
}

impl<A: Allocator> Settle for TcAction<A> {
    /// True if `tab` has no flags, exactly one attribute is a kind, and each attribute is settled under it. The kind
    /// around the action doesn't matter.
    fn is_settled_under(&self, _kind: &str) -> bool {
        // Does nothing at run time: it says that `tab` is below 2^16, for the clause `typed`.
        u16_is_in_range(self.tab);
        self.tab <= NLA_TYPE_MASK && list_settled_own(&self.attributes)
    }
}

impl<A: Allocator> PartialEq for TcAction<A> {
    ghost eq = { on tc_action same_attribute };

    ghost laws = { attribute_per tc_action };

    fn eq(&self, other: &TcAction<A>) -> bool {
        self.tab == other.tab && self.attributes == other.attributes
    }
}

impl<A: Allocator> Eq for TcAction<A> {
    ghost laws = { attribute_equiv tc_action };
}
