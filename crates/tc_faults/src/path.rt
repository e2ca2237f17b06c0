//! The path of an attribute in a message, as a JSON pointer.

use crate::tree::{held_in, list_of_message, row_in};
use forms_json::Form;
use itoa::Buffer;
use std::alloc::AllocError;
use tc_index::{Attribute, Table};

// An attribute on a path.
#[derive(Clone, Copy)]
struct Step {
    // Its index in its list.
    index: usize,
    // The offset of the end of its value in the message, in bytes.
    end: usize,
    table: Table,
    // Its type, if it is known.
    number: Option<u16>,
    // The kind at this place.
    kind: Kind,
}

// A kind of at most sixteen bytes; the tables have no longer one.
#[derive(Clone, Copy)]
struct Kind {
    bytes: [u8; 16],
    len: usize,
}

const NO_KIND: Kind = Kind {
    bytes: [0; 16],
    len: 0,
};

impl Kind {
    fn new(kind: &[u8]) -> Kind {
        let mut kept = NO_KIND;
        for (byte, from) in kept.bytes.iter_mut().zip(kind.iter()) {
            *byte = *from;
        }
        kept.len = kind.len();
        kept
    }

    // The kind; empty if it was longer.
    fn text(&self) -> &[u8] {
        match self.bytes.get(..self.len) {
            Some(text) => text,
            None => &[],
        }
    }
}

/// The path of an attribute: the index of each attribute that it is nested in, and its own.
#[derive(Clone, Copy)]
pub struct Path {
    steps: [Step; 6],
    len: usize,
}

impl Path {
    // The path of the message itself.
    pub(crate) fn new() -> Self {
        let step = Step {
            index: 0,
            end: 0,
            table: Table::Message,
            number: None,
            kind: NO_KIND,
        };
        Path {
            steps: [step; 6],
            len: 0,
        }
    }

    // Moves to the next attribute at its depth.
    pub(crate) fn enter(&mut self, attribute: &Attribute<'_>) {
        let number = attribute.number();
        let has_options = number == 2 && matches!(attribute.table, Table::Message | Table::Action);
        let step = Step {
            index: 0,
            end: attribute.offset.saturating_add(attribute.value.len()),
            table: attribute.table,
            number: Some(number),
            kind: if has_options {
                Kind::new(attribute.kind)
            } else {
                NO_KIND
            },
        };
        self.enter_step(usize::from(attribute.depth), step);
    }

    // Moves to the next frame of an action, whose type may not be known.
    pub(crate) fn enter_in_action(&mut self, action: &Attribute<'_>, number: Option<u16>) {
        let step = Step {
            index: 0,
            end: action.offset,
            table: Table::Action,
            number,
            kind: NO_KIND,
        };
        self.enter_step(usize::from(action.depth).saturating_add(1), step);
    }

    fn enter_step(&mut self, depth: usize, step: Step) {
        if depth >= 6 {
            return;
        }
        let index = if depth < self.len {
            self.steps[depth].index.saturating_add(1)
        } else {
            0
        };
        self.steps[depth] = step;
        self.steps[depth].index = index;
        self.len = depth + 1;
    }

    // Moves to the frame at this offset, in the innermost list that contains it.
    pub(crate) fn enter_at(&mut self, offset: usize) {
        let mut depth = 0;
        for step in &self.steps {
            if depth < self.len && step.end > offset {
                depth += 1;
            } else {
                break;
            }
        }
        let step = Step {
            index: 0,
            end: offset,
            table: Table::ActionOptions,
            number: None,
            kind: NO_KIND,
        };
        self.enter_step(depth, step);
    }

    /// Writes it as a JSON pointer, such as `/attributes/1/Options/0/Flower/Actions/1`. `/header` is the header of the
    /// message.
    pub fn put(&self, out: &mut String) -> Result<(), AllocError> {
        if self.len == 0 {
            out.push_str("/header")?;
            return Ok(());
        }
        let mut list = list_of_message(self.steps[0].table);
        let mut has_fields = true;
        for (at, step) in self.steps.iter().enumerate() {
            if at < self.len {
                if has_fields {
                    out.push_str("/attributes")?;
                }
                out.push_str("/")?;
                out.push_str(Buffer::new().format(step.index as u64))?;
                has_fields = matches!(step.table, Table::Actions);
                list = match list {
                    Form::Indexed(place) => held_in(place),
                    _ => put_name(out, list, step)?,
                };
            }
        }
        Ok(())
    }
}

// Writes the name of an attribute in a list, if it has one; returns the form of its value.
fn put_name(out: &mut String, list: Form, step: &Step) -> Result<Form, AllocError> {
    let number = match step.number {
        Some(number) => number,
        None => return Ok(Form::Hex),
    };
    if let Some((layer, row)) = row_in(list, step.kind.text(), number) {
        if !layer.is_empty() {
            out.push_str("/")?;
            out.push_str(layer)?;
        }
        out.push_str("/")?;
        out.push_str(row.name)?;
        return Ok(row.form);
    }
    if number == 1 && matches!(list, Form::InForce(_) | Form::Own(_)) {
        out.push_str("/Kind")?;
    }
    Ok(Form::Hex)
}
