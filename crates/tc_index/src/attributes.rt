//! An iterator over all attributes of a message.

ghost use Rattle.std.specs.Prelude.{◌≡◌, ◌≤◌};

use crate::attribute::{Attribute, BrokenFrame};
use crate::level::Level;
use crate::table::Table;
use nla_frames::{DecodeError, Res};

/// Iterates over the attributes of a message, each before those nested in it. A malformed frame is the last item.
#[derive(Drop)]
pub struct Attributes<'a> {
    /// The current list.
    level: Level<'a>,
    /// The enclosing lists, as many as the current depth, outermost first.
    first: Level<'a>,
    second: Level<'a>,
    third: Level<'a>,
    fourth: Level<'a>,
    depth: usize,
    ghost deep: { depth ≤ 4 },
}

impl<'a> Attributes<'a> {
    ghost use Rattle.std.specs.Prelude.{◌+◌, ◌<◌, ◌^◌, ◌++◌, [], length, slice_index_or, slice_set};
    ghost use Rattle.nla_frames.specs.Fault.{seen};
    ghost use Rattle.tc_index.specs.Tables.{table_of};
    ghost use Rattle.tc_index.specs.Attributes.{after_header, message_items, tc_items, action_items};
    ghost use Rattle.tc_index.specs.Views.{placed_of, sets_if, inner_of, outer_of, lists_left, items_left};

    /// The attributes of a traffic control message. Fails with `BufferTooSmall` if the bytes are shorter than the
    /// header.
    pub fn of_tc(bytes: &'a [u8]) -> Res<Self>
        ensures { seen items_left result ≡ after_header 20 tc_items bytes.now }
    {
        Attributes::after_header(bytes, 20, Table::Message, true)
    }

    /// The attributes of an action message. Fails with `BufferTooSmall` if the bytes are shorter than the header.
    pub fn of_action(bytes: &'a [u8]) -> Res<Self>
        ensures { seen items_left result ≡ after_header 4 action_items bytes.now }
    {
        Attributes::after_header(bytes, 4, Table::ActionMessage, false)
    }

    fn after_header(bytes: &'a [u8], header: usize, table: Table, sets_kind: bool) -> Res<Self>
        ensures { seen items_left result
            ≡ after_header header (message_items 4 header (table_of table) (sets_if sets_kind)) bytes.now }
    {
        if bytes.len() < header {
            return Err(DecodeError::BufferTooSmall {
                len: bytes.len(),
                needed: header,
            });
        }
        let level = Level::of_message(bytes, header, table, sets_kind);
        Ok(Attributes {
            level,
            first: level,
            second: level,
            third: level,
            fourth: level,
            depth: 0,
        })
    }

    /// Returns from finished lists to the nearest unfinished one.
    fn leave(&mut self)
        ensures same { lists_left self.new ≡ lists_left self.old }
        ensures all { self.new.level.rest.now ≡ [] → self.new.depth ≡ 0 }
    {
        while self.level.rest.is_empty() {
            if self.depth == 0 {
                return;
            }
            let level = self.outer(self.depth - 1);
            self.depth -= 1;
            self.level = level;
        }
    }

    /// The enclosing list at this depth.
    fn outer(&self, depth: usize) -> Level<'a>
        requires { depth < 4 }
        ensures { result ≡ slice_index_or (outer_of self.now) depth result }
    {
        match depth {
            0 => self.first,
            1 => self.second,
            2 => self.third,
            _ => self.fourth,
        }
    }

    /// Enters the list nested in an attribute, if there is one.
    fn enter(&mut self, attribute: &Attribute<'a>)
        requires { attribute.now.offset + length attribute.now.value.now < 2 ^ 64 }
        ensures { lists_left self.new
            ≡ inner_of self.old.depth (placed_of attribute.now) ++ lists_left self.old }
    {
        let depth = self.depth;
        if depth < 4 {
            if let Some(level) = Level::in_attribute(attribute) {
                self.keep_level();
                self.level = level;
                self.depth = depth + 1;
            }
        }
    }

    /// Stores the current list, to return to it.
    fn keep_level(&mut self)
        requires { self.old.depth < 4 }
        ensures { outer_of self.new
            ≡ slice_set (outer_of self.old) self.old.depth self.old.level }
    {
        match self.depth {
            0 => self.first = self.level,
            1 => self.second = self.level,
            2 => self.third = self.level,
            _ => self.fourth = self.level,
        }
    }

    /// Ends the iteration.
    fn end(&mut self)
        ensures { lists_left self.new ≡ [] }
    {
        self.depth = 0;
        self.level = Level {
            rest: &[],
            offset: 0,
            kind: &[],
            table: Table::Message,
            sets_kind: false,
        };
    }
}

impl<'a> Iterator for Attributes<'a> {
    ghost use Rattle.std.specs.Iterator.{YieldsFirstBy, item_count};
    ghost use Rattle.tc_index.specs.Views.{item_of, items_left};

    type Item = Result<Attribute<'a>, BrokenFrame>;

    ghost next_gives = { YieldsFirstBy item_of items_left };

    ghost remaining = { item_count items_left };

    fn next(&mut self) -> Option<Result<Attribute<'a>, BrokenFrame>> {
        self.leave();
        if self.level.rest.is_empty() {
            return None;
        }
        match self.level.take_first(self.depth as u8) {
            Ok(attribute) => {
                self.enter(&attribute);
                Some(Ok(attribute))
            }
            Err(broken) => {
                self.end();
                Some(Err(broken))
            }
        }
    }
}
