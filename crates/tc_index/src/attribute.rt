//! An attribute with its offset in the message.

ghost use Rattle.std.specs.Prelude.{◌≡◌};
ghost use Rattle.nla_frames.specs.Frame.{type_of};
ghost use Rattle.tc_index.specs.Views.{placed_of, node_view, node_of};

use crate::table::Table;
use nla_frames::{DecodeError, NLA_TYPE_MASK};
use thiserror::Error;

/// An attribute of a message, with its value.
#[derive(Clone, Copy)]
pub struct Attribute<'a> {
    /// The offset of its value in the message, in bytes.
    pub offset: usize,
    /// `nla_type`: the type and the two flags.
    pub word: u16,
    /// The payload, without padding.
    pub value: &'a [u8],
    /// The table that its type belongs to.
    pub table: Table,
    /// The kind at this place: in a message the last `TCA_KIND` before it, in an action the action's own.
    pub kind: &'a [u8],
    /// The number of attributes that it is nested in.
    pub depth: u8,
}

/// An attribute of a message, with offset and length of its value.
#[derive(Clone, Copy)]
pub struct Node {
    /// The offset of its value in the message, in bytes.
    pub offset: usize,
    /// The length of its value in bytes, without padding.
    pub len: usize,
    /// `nla_type`: the type and the two flags.
    pub word: u16,
    /// The table that its type belongs to.
    pub table: Table,
    /// The number of attributes that it is nested in.
    pub depth: u8,
}

/// The first malformed frame of a message, where iteration ends.
#[derive(Drop, PartialEq, Eq, Error, Debug)]
#[error("byte {offset}: {fault}")]
pub struct BrokenFrame {
    /// The offset of the frame in the message, in bytes.
    pub offset: usize,
    /// What is wrong with it.
    pub fault: DecodeError,
}

impl<'a> Attribute<'a> {
    /// The attribute type: `nla_type` without its two flags.
    pub fn number(&self) -> u16
        ensures { result ≡ type_of (placed_of self.now).frame.word }
    {
        self.word & NLA_TYPE_MASK
    }

    /// The attribute with offset and length instead of its value.
    pub fn node(&self) -> Node
        ensures { node_view result ≡ node_of (placed_of self.now) }
    {
        Node {
            offset: self.offset,
            len: self.value.len(),
            word: self.word,
            table: self.table,
            depth: self.depth,
        }
    }
}
