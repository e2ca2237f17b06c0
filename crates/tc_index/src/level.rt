//! A list of attributes during iteration.

ghost use Rattle.std.specs.Prelude.{◌≡◌, ◌+◌, ◌<◌, ◌≤◌, ◌^◌, length};

use crate::attribute::{Attribute, BrokenFrame};
use crate::nesting::list_in;
use crate::table::Table;
use nla_frames::{NLA_HEADER_SIZE, NlaBuffer, strip_nul};

/// The rest of a list of attributes.
#[derive(Clone, Copy)]
pub(crate) struct Level<'a> {
    pub rest: &'a [u8],
    /// Its offset in the message, in bytes.
    pub offset: usize,
    /// The kind at this place.
    pub kind: &'a [u8],
    pub table: Table,
    /// True if a frame of type 1 sets the kind for the frames after it.
    pub sets_kind: bool,
    ghost within: { offset + length rest.now < 2 ^ 64 },
}

impl<'a> Level<'a> {
    ghost use Rattle.std.specs.Prelude.{◌++◌, ◌-◌, ℕ, IfOk};
    ghost use Rattle.nla_frames.specs.Fault.{read_as};
    ghost use Rattle.nla_frames.specs.Buffer.{frame_of, first_of};
    ghost use Rattle.nla_frames.specs.Cutting.{next_frame};
    ghost use Rattle.nla_frames.specs.Place.{kind_then};
    ghost use Rattle.tc_index.specs.Tables.{table_of};
    ghost use Rattle.tc_index.specs.Attributes.{with_inner, attributes_in, to_fault, message_items};
    ghost use Rattle.tc_index.specs.Views.{placed_of, sets_if, inner_of, left_in, left_in_some, YieldsFirst};

    /// The attributes of a message, after its header.
    pub(crate) fn of_message(bytes: &'a [u8], header: usize, table: Table, sets_kind: bool) -> Self
        requires { header ≤ length bytes.now }
        ensures { to_fault (left_in 0 result)
            ≡ message_items 4 header (table_of table) (sets_if sets_kind) bytes.now }
    {
        Level {
            rest: bytes.split_at(header).1,
            offset: header,
            kind: &[],
            table,
            sets_kind,
        }
    }

    /// The list nested in an attribute, if there is one.
    pub(crate) fn in_attribute(attribute: &Attribute<'a>) -> Option<Self>
        requires { attribute.now.offset + length attribute.now.value.now < 2 ^ 64 }
        ensures { (depth : ℕ) → depth < 4
            → inner_of depth (placed_of attribute.now) ≡ left_in_some (depth + 1) result }
    {
        match list_in(
            attribute.table,
            attribute.number(),
            attribute.kind,
            attribute.value,
        ) {
            Some((table, kind)) => Some(Level {
                rest: attribute.value,
                offset: attribute.offset,
                kind,
                table,
                sets_kind: false,
            }),
            None => None,
        }
    }

    /// Takes the first attribute, at this depth. Fails if its frame is malformed.
    pub(crate) fn take_first(&mut self, depth: u8) -> Result<Attribute<'a>, BrokenFrame>
        requires { 0 < length self.old.rest.now }
        ensures yields { YieldsFirst depth self.old self.new result }
        ensures within { IfOk result (λ a. a.offset + length a.value.now < 2 ^ 64) }
    {
        match NlaBuffer::new_checked(self.rest) {
            Ok(frame) => {
                let attribute = self.attribute(&frame, depth);
                self.pass(&frame);
                Ok(attribute)
            }
            Err(fault) => Err(BrokenFrame {
                offset: self.offset,
                fault,
            }),
        }
    }

    /// The attribute of the first frame.
    fn attribute(&self, frame: &NlaBuffer<'a>, depth: u8) -> Attribute<'a>
        requires { read_as (frame_of frame.now) ≡ first_of (next_frame self.now.rest.now) }
        ensures placed { placed_of result ≡ record {
          frame = frame_of frame.now;
          offset = self.now.offset + 4;
          table = table_of self.now.table;
          kind = self.now.kind.now;
          depth = depth;
        } }
        ensures within { result.offset + length result.value.now < 2 ^ 64 }
    {
        Attribute {
            offset: self.offset + NLA_HEADER_SIZE,
            word: frame.word(),
            value: frame.value(),
            table: self.table,
            kind: self.kind,
            depth,
        }
    }

    /// Skips the first frame.
    fn pass(&mut self, frame: &NlaBuffer<'a>)
        requires { read_as (frame_of frame.now) ≡ first_of (next_frame self.old.rest.now) }
        ensures { (depth : ℕ) → left_in depth self.old
            ≡ with_inner (attributes_in (4 - depth)) (table_of self.old.table) depth
            self.old.kind.now (self.old.offset + 4) (frame_of frame.now)
            ++ left_in depth self.new }
    {
        let length = frame.length() as usize;
        let taken = (length + (4 - length % 4) % 4).min(self.rest.len());
        self.rest = self.rest.split_at(taken).1;
        self.offset += taken;
        self.kind = self.kind_after(frame);
    }

    /// The kind after this frame.
    fn kind_after(&self, frame: &NlaBuffer<'a>) -> &'a [u8]
        ensures { result.now
            ≡ kind_then (sets_if self.now.sets_kind) self.now.kind.now (frame_of frame.now) }
    {
        if self.sets_kind && frame.kind() == 1 {
            strip_nul(frame.value())
        } else {
            self.kind
        }
    }
}
