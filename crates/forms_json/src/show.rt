//! The JSON of bytes in a form.

ghost use Rattle.serde.specs.Event.{Log};
ghost use Rattle.serde_json.specs.Data.{Members, array};
ghost use Rattle.std.specs.Prelude.{[], OnOk, false, length, true};
ghost use Rattle.forms_attributes.specs.Attributes.{attribute, by_row, frames, indexed, listed};
ghost use Rattle.forms_values.specs.Choices.{by_choice, chosen};
ghost use Rattle.forms_attributes.specs.Frames.{frame_view};
ghost use Rattle.forms_values.specs.Places.{rows_under};
ghost use Rattle.forms_values.specs.Records.{elements, elements_of, field_member, members};
ghost use Rattle.forms_attributes.specs.RowLists.{rows_in};
ghost use Rattle.forms_attributes.specs.Rows.{shown_row};
ghost use Rattle.forms_values.specs.Sent.{Sent, events, items_events, members_events};
ghost use Rattle.forms_json.specs.Shown.{show, shown, shown_of};
ghost use Rattle.forms_values.specs.Tables.{choices_view, field_view, fields_view};
ghost use Rattle.forms_values.specs.Widths.{fixed, width};

use forms_attributes::attributes_shown::{
    Frame, front, kind_in, own_kind, send_beside, send_kind, send_other, send_pad, send_tail,
    send_word,
};
use forms_attributes::rows::{RowList, kind_from, rows_from, rows_under, shown_row};
use forms_values::choices::{bytes_from, chosen, send_unknown};
use forms_values::events::{Aside, Stopped, begin_map, begin_seq, end_map, end_seq, key};
use forms_values::numbers::send_bytes_number;
use forms_values::places::{At, choices_at, fields_at, form_at, layer_at};
use forms_values::records::{are_enough, is_blank, is_pad, send_rest, split};
use forms_values::values_shown::{send_plain, send_raw};
use forms_values::widths::{DEEPEST, fixed_width};
use forms_values::{Choice, Field, Form, Tables};
use serde::{Described, Serialize, Serializer};
use std::alloc::Global;

/// Bytes in a form, with a table: a value for a serde format.
#[derive(Drop)]
pub struct Shown<'a, T> {
    pub table: T,
    pub form: Form,
    pub bytes: &'a [u8],
    /// Allocates the hex texts of bytes.
    pub alloc: Global,
}

impl<'a, T: Tables> Described for Shown<'a, T> {
    ghost writes = { λ x. Sent (events (shown_of (T.parts_of x.table) x.form x.bytes.now)) };
}

impl<'a, T: Tables> Serialize for Shown<'a, T> {
    fn serialize<S: Serializer>(&self, out: &mut S) -> Result<(), S::Error> {
        send_shown(self.table, self.form, self.bytes, self.alloc, out)
    }
}

/// Sends the JSON of bytes in a form.
#[tactic(auto, unfolding(crate::specs::Shown::shown_of))]
pub fn send_shown<S: Serializer, T: Tables>(
    table: T,
    form: Form,
    bytes: &[u8],
    alloc: Global,
    out: &mut S,
) -> Result<(), S::Error>
    ensures { OnOk result (Sent (events (shown_of (T.parts_of table) form bytes.now)) (S.written out.old) (S.written out.new)) }
{
    let mut aside = Aside { alloc, error: None };
    let at = At {
        table,
        depth: DEEPEST,
        kind: "",
    };
    match send_form(&at, form, bytes, out, &mut aside) {
        Ok(()) => Ok(()),
        Err(Stopped::Failed) => match aside.error {
            Some(e) => Err(e),
            None => Err(out.custom("the format failed")),
        },
    }
}

// Sends bytes in a form. Most fields and attributes are numbers, which need no call of `send_any`.
#[inline(always)]
#[cycle(send)]
fn send_form<S: Serializer, T: Tables>(
    at: &At<'_, T>,
    form: Form,
    bytes: &[u8],
    out: &mut S,
    aside: &mut Aside<S::Error>,
) -> Result<(), Stopped>
    ensures { OnOk result (Sent (events (show (T.parts_of at.now.table) at.now.depth at.now.kind.now form bytes.now))
        (S.written out.old) (S.written out.new)) }
{
    match form {
        Form::Number(number) if at.depth > 0 => send_bytes_number(number, bytes, out, aside),
        _ => send_any(at, form, bytes, out, aside),
    }
}

#[inline(never)]
#[cycle(send)]
fn send_any<S: Serializer, T: Tables>(
    at: &At<'_, T>,
    form: Form,
    bytes: &[u8],
    out: &mut S,
    aside: &mut Aside<S::Error>,
) -> Result<(), Stopped>
    ensures { OnOk result (Sent (events (show (T.parts_of at.now.table) at.now.depth at.now.kind.now form bytes.now))
        (S.written out.old) (S.written out.new)) }
{
    match at.depth.checked_sub(1) {
        Some(depth) => {
            let within = At {
                table: at.table,
                depth,
                kind: at.kind,
            };
            send_in_form(&within, form, bytes, out, aside)
        }
        None => send_raw(bytes, out, aside),
    }
}

// Sends bytes in a form. Bytes within them have the levels that are left.
#[inline(always)]
#[cycle(send)]
fn send_in_form<S: Serializer, T: Tables>(
    at: &At<'_, T>,
    form: Form,
    bytes: &[u8],
    out: &mut S,
    aside: &mut Aside<S::Error>,
) -> Result<(), Stopped>
    ensures { OnOk result (Sent (events (shown (T.parts_of at.now.table) (show (T.parts_of at.now.table) at.now.depth) at.now.kind.now form
        bytes.now)) (S.written out.old) (S.written out.new)) }
{
    match form {
        Form::Record(place) => send_record(at, place, bytes, out, aside),
        Form::Array(place) => { send_elements(at, form_at(at.table, place), bytes, out, aside) }
        Form::Times(_, place) => { send_elements(at, form_at(at.table, place), bytes, out, aside) }
        Form::List(place) => {
            let layer = layer_at(at.table, place);
            send_list(at, place, false, false, layer, None, bytes, out, aside)
        }
        Form::InForce(place) => { send_list(at, place, true, true, "", None, bytes, out, aside) }
        Form::Own(place) => {
            let own = At {
                table: at.table,
                depth: at.depth,
                kind: own_kind(bytes),
            };
            send_list(&own, place, false, true, "", None, bytes, out, aside)
        }
        Form::Indexed(place) => {
            let held = Some(form_at(at.table, place));
            send_list(at, place, false, false, "", held, bytes, out, aside)
        }
        Form::Choice(place) => { send_choice(at, choices_at(at.table, place), bytes, out, aside) }
        _ => send_plain(at.table, form, bytes, out, aside),
    }
}

#[inline(never)]
#[cycle(send)]
fn send_record<S: Serializer, T: Tables>(
    at: &At<'_, T>,
    place: usize,
    bytes: &[u8],
    out: &mut S,
    aside: &mut Aside<S::Error>,
) -> Result<(), Stopped>
    ensures { OnOk result (Sent (events (shown (T.parts_of at.now.table) (show (T.parts_of at.now.table) at.now.depth)
        at.now.kind.now (Form.Record place) bytes.now)) (S.written out.old) (S.written out.new)) }
{
    let fields = fields_at(at.table, place);
    if !at.table.names_distinct(place) || !are_enough(at.table, bytes.len(), fields) {
        return send_raw(bytes, out, aside);
    }
    begin_map(out, aside)?;
    send_fields(at, fields, bytes, out, aside)?;
    end_map(out, aside)
}

#[cycle(send)]
fn send_fields<S: Serializer, T: Tables>(
    at: &At<'_, T>,
    fields: &[Field<'_>],
    bytes: &[u8],
    out: &mut S,
    aside: &mut Aside<S::Error>,
) -> Result<(), Stopped>
    ensures { OnOk result (Sent (members_events (members (T.parts_of at.now.table)
        (show (T.parts_of at.now.table) at.now.depth at.now.kind.now) (fields_view fields.now) bytes.now))
        (S.written out.old) (S.written out.new)) }
{
    let mut left = bytes;
    for field in fields.iter() {
        let width = fixed_width(at.table, field.form);
        let (chunk, after) = split(left, width);
        send_field(at, field, chunk, out, aside)?;
        left = after;
    }
    send_rest(left, out, aside)
}

// A field, if it isn't blank padding.
#[inline(always)]
#[cycle(send)]
fn send_field<S: Serializer, T: Tables>(
    at: &At<'_, T>,
    field: &Field<'_>,
    chunk: &[u8],
    out: &mut S,
    aside: &mut Aside<S::Error>,
) -> Result<(), Stopped>
    ensures { OnOk result ((after : Members) (end : Log) → Sent (members_events after) (S.written out.new) end
        → Sent (members_events (field_member (T.parts_of at.now.table) (show (T.parts_of at.now.table) at.now.depth at.now.kind.now)
        (field_view field.now) chunk.now after)) (S.written out.old) end) }
{
    if is_pad(field.form) && is_blank(fixed_width(at.table, field.form), chunk) {
        return Ok(());
    }
    key(field.name, out, aside)?;
    send_form(at, field.form, chunk, out, aside)
}

#[inline(never)]
#[cycle(send)]
fn send_elements<S: Serializer, T: Tables>(
    at: &At<'_, T>,
    form: Form,
    bytes: &[u8],
    out: &mut S,
    aside: &mut Aside<S::Error>,
) -> Result<(), Stopped>
    ensures { OnOk result (Sent (events (array (elements_of (show (T.parts_of at.now.table) at.now.depth at.now.kind.now) form
        (fixed (T.parts_of at.now.table) form) bytes.now))) (S.written out.old) (S.written out.new)) }
{
    begin_seq(out, aside)?;
    send_elements_of(at, form, bytes, out, aside)?;
    end_seq(out, aside)
}

#[cycle(send)]
fn send_elements_of<S: Serializer, T: Tables>(
    at: &At<'_, T>,
    form: Form,
    bytes: &[u8],
    out: &mut S,
    aside: &mut Aside<S::Error>,
) -> Result<(), Stopped>
    ensures { OnOk result (Sent (items_events (elements_of (show (T.parts_of at.now.table) at.now.depth at.now.kind.now) form
        (fixed (T.parts_of at.now.table) form) bytes.now)) (S.written out.old) (S.written out.new)) }
{
    match fixed_width(at.table, form) {
        Some(width) => send_each_element(at, form, width, bytes, out, aside),
        None => send_form(at, form, bytes, out, aside),
    }
}

#[cycle(send)]
fn send_each_element<S: Serializer, T: Tables>(
    at: &At<'_, T>,
    form: Form,
    width: usize,
    bytes: &[u8],
    out: &mut S,
    aside: &mut Aside<S::Error>,
) -> Result<(), Stopped>
    ensures { OnOk result (Sent (items_events (elements (show (T.parts_of at.now.table) at.now.depth at.now.kind.now) (length bytes.now)
        form width bytes.now)) (S.written out.old) (S.written out.new)) }
{
    let mut left = bytes;
    for _count in 0..bytes.len() {
        if left.is_empty() {
            return Ok(());
        }
        let (element, after) = split(left, Some(width));
        send_form(at, form, element, out, aside)?;
        left = after;
    }
    if left.is_empty() {
        return Ok(());
    }
    send_form(at, form, left, out, aside)
}

// Sends a list of attributes. If `in_force`, its attributes of type 1 set the kind.
#[inline(never)]
#[cycle(send)]
fn send_list<S: Serializer, T: Tables>(
    at: &At<'_, T>,
    place: usize,
    in_force: bool,
    has: bool,
    layer: &str,
    held: Option<Form>,
    bytes: &[u8],
    out: &mut S,
    aside: &mut Aside<S::Error>,
) -> Result<(), Stopped>
    ensures { OnOk result (Sent (events (array (frames (λ k c. listed (show (T.parts_of at.now.table) at.now.depth)
        (rows_under (T.parts_of at.now.table) place k) has held layer.now k c) in_force (length bytes.now) at.now.kind.now bytes.now)))
        (S.written out.old) (S.written out.new)) }
{
    begin_seq(out, aside)?;
    send_attributes(at, place, in_force, has, layer, held, bytes, out, aside)?;
    end_seq(out, aside)
}

#[cycle(send)]
fn send_attributes<S: Serializer, T: Tables>(
    at: &At<'_, T>,
    place: usize,
    in_force: bool,
    has: bool,
    layer: &str,
    held: Option<Form>,
    bytes: &[u8],
    out: &mut S,
    aside: &mut Aside<S::Error>,
) -> Result<(), Stopped>
    ensures { OnOk result (Sent (items_events (frames (λ k c. listed (show (T.parts_of at.now.table) at.now.depth)
        (rows_under (T.parts_of at.now.table) place k) has held layer.now k c) in_force (length bytes.now) at.now.kind.now bytes.now))
        (S.written out.old) (S.written out.new)) }
{
    let mut left = bytes;
    let mut so_far = at.kind;
    let mut rows = rows_under(at.table, place, at.kind);
    for _count in 0..bytes.len() {
        let (frame, after) = match front(left) {
            Some(found) => found,
            None => return send_tail(left, out, aside),
        };
        let set = kind_in(in_force, &frame);
        rows = rows_from(at.table, place, set, so_far, &rows);
        so_far = kind_from(set, so_far);
        let under = At {
            table: at.table,
            depth: at.depth,
            kind: so_far,
        };
        send_item(&under, has, layer, held, &rows, &frame, out, aside)?;
        left = after;
    }
    send_tail(left, out, aside)
}

// An attribute of a list.
#[inline(always)]
#[cycle(send)]
fn send_item<S: Serializer, T: Tables>(
    at: &At<'_, T>,
    has: bool,
    layer: &str,
    held: Option<Form>,
    rows: &RowList<'static>,
    frame: &Frame<'_>,
    out: &mut S,
    aside: &mut Aside<S::Error>,
) -> Result<(), Stopped>
    ensures { OnOk result (Sent (events (listed (show (T.parts_of at.now.table) at.now.depth) (rows_in rows.now) has held
        layer.now at.now.kind.now (frame_view frame.now))) (S.written out.old) (S.written out.new)) }
{
    match held {
        Some(form) => send_indexed(at, form, frame, out, aside),
        None if layer.is_empty() => send_attribute(at, has, rows, frame, out, aside),
        None => {
            begin_map(out, aside)?;
            key(layer, out, aside)?;
            send_attribute(at, has, rows, frame, out, aside)?;
            end_map(out, aside)
        }
    }
}

#[cycle(send)]
fn send_attribute<S: Serializer, T: Tables>(
    at: &At<'_, T>,
    has: bool,
    rows: &RowList<'static>,
    frame: &Frame<'_>,
    out: &mut S,
    aside: &mut Aside<S::Error>,
) -> Result<(), Stopped>
    ensures { OnOk result (Sent (events (attribute (show (T.parts_of at.now.table) at.now.depth) (rows_in rows.now) has at.now.kind.now
        (frame_view frame.now))) (S.written out.old) (S.written out.new)) }
{
    match kind_in(has, frame) {
        Some(kind) => send_kind(kind, frame, out, aside),
        None => send_by_row(at, rows, frame, out, aside),
    }
}

#[inline(always)]
#[cycle(send)]
fn send_by_row<S: Serializer, T: Tables>(
    at: &At<'_, T>,
    rows: &RowList<'static>,
    frame: &Frame<'_>,
    out: &mut S,
    aside: &mut Aside<S::Error>,
) -> Result<(), Stopped>
    ensures { OnOk result (Sent (events (by_row (show (T.parts_of at.now.table) at.now.depth) (rows_in rows.now) false at.now.kind.now
        (frame_view frame.now) (shown_row (rows_in rows.now) frame.now.word))) (S.written out.old) (S.written out.new)) }
{
    match shown_row(rows, frame.word) {
        Some(row) => {
            begin_map(out, aside)?;
            key(row.name, out, aside)?;
            send_form(at, row.form, frame.value, out, aside)?;
            send_beside(row.word, frame, out, aside)?;
            end_map(out, aside)
        }
        None => send_other(frame, out, aside),
    }
}

// An attribute of any type, which holds this form.
#[cycle(send)]
fn send_indexed<S: Serializer, T: Tables>(
    at: &At<'_, T>,
    form: Form,
    frame: &Frame<'_>,
    out: &mut S,
    aside: &mut Aside<S::Error>,
) -> Result<(), Stopped>
    ensures { OnOk result (Sent (events (indexed (frame_view frame.now) (show (T.parts_of at.now.table) at.now.depth at.now.kind.now form
        frame.now.value.now))) (S.written out.old) (S.written out.new)) }
{
    begin_map(out, aside)?;
    send_word("tab", frame.word, out, aside)?;
    key("attributes", out, aside)?;
    send_form(at, form, frame.value, out, aside)?;
    send_pad(frame, out, aside)?;
    end_map(out, aside)
}

#[inline(never)]
#[cycle(send)]
fn send_choice<S: Serializer, T: Tables>(
    at: &At<'_, T>,
    choices: &[Choice<'_>],
    bytes: &[u8],
    out: &mut S,
    aside: &mut Aside<S::Error>,
) -> Result<(), Stopped>
    ensures { OnOk result (Sent (events (by_choice (show (T.parts_of at.now.table) at.now.depth at.now.kind.now) bytes.now
        (chosen (choices_view choices.now) bytes.now))) (S.written out.old) (S.written out.new)) }
{
    match chosen(choices, bytes) {
        Some(choice) => {
            let held = bytes_from(bytes, choice.prefix.len());
            begin_map(out, aside)?;
            key(choice.name, out, aside)?;
            send_form(at, choice.form, held, out, aside)?;
            end_map(out, aside)
        }
        None => send_unknown(bytes, out, aside),
    }
}
