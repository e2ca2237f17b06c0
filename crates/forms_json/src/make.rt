//! The bytes of JSON in a form.

ghost use Rattle.serde_json.specs.Find.{as_array, get};
ghost use Rattle.serde_json.specs.View.{view};
ghost use Rattle.std.specs.Prelude.{[], codes, false, option_and_then, option_map, true, ◌≡◌};
ghost use Rattle.forms_values.specs.Appended.{Appended, Found};
ghost use Rattle.forms_attributes.specs.AttributesMade.{attribute_made, by_row_made, each_under, framed, framed_with, layered_by};
ghost use Rattle.forms_attributes.specs.AttributesMade.{listed_made, word_made, word_or};
ghost use Rattle.forms_values.specs.Choices.{by_choice_made, choice_made, is_choice};
ghost use Rattle.forms_attributes.specs.Kinds.{own_kind_named};
ghost use Rattle.forms_values.specs.Places.{rows_under};
ghost use Rattle.forms_json.specs.Made.{in_form, made_of, make};
ghost use Rattle.forms_values.specs.Raw.{or_raw, raw_of};
ghost use Rattle.forms_values.specs.Records.{each_made, field_made, fields_made};
ghost use Rattle.forms_attributes.specs.RowLists.{rows_in};
ghost use Rattle.forms_values.specs.Search.{held};
ghost use Rattle.forms_values.specs.Tables.{choices_view, field_view, fields_view};

use forms_attributes::attributes_made::{
    begin, end, kind_named, make_kind, make_other, no_row, own_kind_named, unlayered, word_at,
    word_or,
};
use forms_attributes::rows::{RowList, kind_from, row_held_in, rows_from, rows_under};
use forms_values::choices::choice_held;
use forms_values::maker::{Maker, Stop};
use forms_values::places::{At, choices_at, fields_at, form_at, layer_at};
use forms_values::pointer::Step;
use forms_values::records::{make_blank, make_rest};
use forms_values::values_made::{make_hex_at, make_plain, put_raw};
use forms_values::widths::DEEPEST;
use forms_values::{Choice, Field, Form, MakeError, Row, Tables, Wanted};
use serde_json::Value;
use std::alloc::Global;

/// The bytes of JSON in a form, with a table.
#[tactic(auto, unfolding(crate::specs::Made::made_of))]
pub fn made<T: Tables>(
    alloc: Global,
    table: T,
    form: Form,
    json: &Value,
) -> Result<Vec<u8>, MakeError>
    ensures { Found (λ v. v.items) (made_of (T.parts_of table) form (view json.now)) result }
{
    let mut maker = Maker::new(alloc);
    let at = At {
        table,
        depth: DEEPEST,
        kind: "",
    };
    match make_form(&mut maker, &at, form, json) {
        Ok(()) => Ok(maker.bytes),
        Err(Stop::OutOfMemory) => Err(MakeError::OutOfMemory),
        Err(Stop::Wrong) => Err(maker.into_error()),
    }
}

// Appends the bytes of a JSON value in a form.
#[cycle(make)]
fn make_form<'v, T: Tables>(
    maker: &mut Maker<'v>,
    at: &At<'v, T>,
    form: Form,
    value: &'v Value,
) -> Result<(), Stop>
    ensures { Appended (make (T.parts_of at.now.table) at.now.depth at.now.kind.now form (view value.now))
        maker.old.bytes.items maker.new.bytes.items result }
{
    match put_raw(maker, value) {
        Some(done) => done,
        None => match at.depth.checked_sub(1) {
            Some(depth) => {
                let within = At {
                    table: at.table,
                    depth,
                    kind: at.kind,
                };
                make_in_form(maker, &within, form, value)
            }
            None => Err(maker.unfit(value, Wanted::Raw)),
        },
    }
}

// Appends the bytes of a value that isn't raw. Values within it have the levels that are left.
#[cycle(make)]
fn make_in_form<'v, T: Tables>(
    maker: &mut Maker<'v>,
    at: &At<'v, T>,
    form: Form,
    value: &'v Value,
) -> Result<(), Stop>
    ensures { Appended (in_form (T.parts_of at.now.table) (make (T.parts_of at.now.table) at.now.depth) at.now.kind.now form (view value.now))
        maker.old.bytes.items maker.new.bytes.items result }
{
    match form {
        Form::Record(place) => make_fields(maker, at, fields_at(at.table, place), value),
        Form::Array(place) => make_elements(maker, at, form_at(at.table, place), value),
        Form::Times(_, place) => make_elements(maker, at, form_at(at.table, place), value),
        Form::List(place) => {
            let layer = layer_at(at.table, place);
            make_list(maker, at, place, false, false, layer, None, value)
        }
        Form::InForce(place) => make_list(maker, at, place, true, true, "", None, value),
        Form::Own(place) => {
            let own = At {
                table: at.table,
                depth: at.depth,
                kind: own_kind_named(value),
            };
            make_list(maker, &own, place, false, true, "", None, value)
        }
        Form::Indexed(place) => {
            let held = Some(form_at(at.table, place));
            make_list(maker, at, place, false, false, "", held, value)
        }
        Form::Choice(place) => make_choice(maker, at, choices_at(at.table, place), value),
        _ => make_plain(maker, at.table, form, value),
    }
}

#[cycle(make)]
fn make_fields<'v, T: Tables>(
    maker: &mut Maker<'v>,
    at: &At<'v, T>,
    fields: &'static [Field<'static>],
    value: &'v Value,
) -> Result<(), Stop>
    ensures { Appended (fields_made (T.parts_of at.now.table) (make (T.parts_of at.now.table) at.now.depth at.now.kind.now)
        (fields_view fields.now) (view value.now)) maker.old.bytes.items maker.new.bytes.items result }
{
    for field in fields.iter() {
        match make_field(maker, at, field, value) {
            Ok(()) => {}
            Err(e) => return Err(e),
        }
    }
    make_rest(maker, value)
}

#[cycle(make)]
fn make_field<'v, T: Tables>(
    maker: &mut Maker<'v>,
    at: &At<'v, T>,
    field: &Field<'static>,
    value: &'v Value,
) -> Result<(), Stop>
    ensures { Appended (field_made (T.parts_of at.now.table) (make (T.parts_of at.now.table) at.now.depth at.now.kind.now)
        (field_view field.now) (get field.now.name.now (view value.now))) maker.old.bytes.items maker.new.bytes.items result }
{
    match value.get(field.name) {
        Some(held) => make_member(maker, at, field.name, field.form, held),
        None => make_blank(maker, at.table, field, value),
    }
}

// Appends the bytes of a member's value, in its form.
#[cycle(make)]
fn make_member<'v, T: Tables>(
    maker: &mut Maker<'v>,
    at: &At<'v, T>,
    name: &'static str,
    form: Form,
    held: &'v Value,
) -> Result<(), Stop>
    ensures { Appended (make (T.parts_of at.now.table) at.now.depth at.now.kind.now form (view held.now))
        maker.old.bytes.items maker.new.bytes.items result }
{
    match make_form(maker, at, form, held) {
        Ok(()) => Ok(()),
        Err(e) => {
            maker.at(Step::Member(name));
            Err(e)
        }
    }
}

#[cycle(make)]
fn make_elements<'v, T: Tables>(
    maker: &mut Maker<'v>,
    at: &At<'v, T>,
    form: Form,
    value: &'v Value,
) -> Result<(), Stop>
    ensures { Appended (option_and_then (each_made (make (T.parts_of at.now.table) at.now.depth at.now.kind.now form))
        (as_array (view value.now))) maker.old.bytes.items maker.new.bytes.items result }
{
    let items = match value.as_array() {
        Some(items) => items.as_slice(),
        None => return Err(maker.unfit(value, Wanted::List)),
    };
    for (place, item) in items.iter().enumerate() {
        match make_form(maker, at, form, item) {
            Ok(()) => {}
            Err(e) => {
                maker.at(Step::Item(place));
                return Err(e);
            }
        }
    }
    Ok(())
}

#[cycle(make)]
fn make_list<'v, T: Tables>(
    maker: &mut Maker<'v>,
    at: &At<'v, T>,
    list: usize,
    in_force: bool,
    has: bool,
    layer: &'static str,
    held: Option<Form>,
    value: &'v Value,
) -> Result<(), Stop>
    ensures { Appended (option_and_then (each_under (λ k d. listed_made (make (T.parts_of at.now.table) at.now.depth)
        (rows_under (T.parts_of at.now.table) list k) has held layer.now k d) in_force at.now.kind.now) (as_array (view value.now)))
        maker.old.bytes.items maker.new.bytes.items result }
{
    let items = match value.as_array() {
        Some(items) => items.as_slice(),
        None => return Err(maker.unfit(value, Wanted::List)),
    };
    let mut so_far = at.kind;
    let mut rows = rows_under(at.table, list, at.kind);
    for (place, item) in items.iter().enumerate() {
        let set = kind_named(in_force, item);
        rows = rows_from(at.table, list, set, so_far, &rows);
        so_far = kind_from(set, so_far);
        let under = At {
            table: at.table,
            depth: at.depth,
            kind: so_far,
        };
        match make_item(maker, &under, has, layer, held, &rows, item) {
            Ok(()) => {}
            Err(e) => {
                maker.at(Step::Item(place));
                return Err(e);
            }
        }
    }
    Ok(())
}

// An attribute of a list, or raw bytes.
#[cycle(make)]
fn make_item<'v, T: Tables>(
    maker: &mut Maker<'v>,
    at: &At<'v, T>,
    has: bool,
    layer: &'static str,
    held: Option<Form>,
    rows: &RowList<'static>,
    value: &'v Value,
) -> Result<(), Stop>
    ensures { Appended (or_raw (raw_of (view value.now)) (listed_made (make (T.parts_of at.now.table) at.now.depth) (rows_in rows.now) has held
        layer.now at.now.kind.now (view value.now))) maker.old.bytes.items maker.new.bytes.items result }
{
    match put_raw(maker, value) {
        Some(done) => done,
        None => match held {
            Some(form) => make_indexed(maker, at, form, value),
            None => make_layered(maker, at, has, layer, rows, value),
        },
    }
}

// An attribute in its layer.
#[cycle(make)]
fn make_layered<'v, T: Tables>(
    maker: &mut Maker<'v>,
    at: &At<'v, T>,
    has: bool,
    layer: &'static str,
    rows: &RowList<'static>,
    value: &'v Value,
) -> Result<(), Stop>
    ensures { Appended (layered_by (make (T.parts_of at.now.table) at.now.depth) (rows_in rows.now) has layer.now at.now.kind.now (view value.now))
        maker.old.bytes.items maker.new.bytes.items result }
{
    let held = match unlayered(layer, value) {
        Some(held) => held,
        None => return Err(maker.unknown(value, Wanted::Name(layer))),
    };
    match make_attribute(maker, at, has, rows, held) {
        Ok(()) => Ok(()),
        Err(e) => {
            if !layer.is_empty() {
                maker.at(Step::Member(layer));
            }
            Err(e)
        }
    }
}

#[cycle(make)]
fn make_attribute<'v, T: Tables>(
    maker: &mut Maker<'v>,
    at: &At<'v, T>,
    has: bool,
    rows: &RowList<'static>,
    value: &'v Value,
) -> Result<(), Stop>
    ensures { Appended (attribute_made (make (T.parts_of at.now.table) at.now.depth) (rows_in rows.now) has at.now.kind.now (view value.now))
        maker.old.bytes.items maker.new.bytes.items result }
{
    match kind_named(has, value) {
        Some(kind) => make_kind(maker, kind, value),
        None => make_by_row(maker, at, has, rows, value),
    }
}

#[cycle(make)]
fn make_by_row<'v, T: Tables>(
    maker: &mut Maker<'v>,
    at: &At<'v, T>,
    has: bool,
    rows: &RowList<'static>,
    value: &'v Value,
) -> Result<(), Stop>
    ensures { Appended (by_row_made (make (T.parts_of at.now.table) at.now.depth) (rows_in rows.now) true at.now.kind.now (view value.now)
        (get (codes "Other") (view value.now))) maker.old.bytes.items maker.new.bytes.items result }
{
    if let Some(other) = value.get("Other") {
        return make_other(maker, other, value);
    }
    match row_held_in(rows, value) {
        Some((row, held)) => make_held(maker, at, row, held, value),
        None => Err(no_row(maker, has, value)),
    }
}

#[cycle(make)]
fn make_held<'v, T: Tables>(
    maker: &mut Maker<'v>,
    at: &At<'v, T>,
    row: Row<'static>,
    held: &'v Value,
    value: &'v Value,
) -> Result<(), Stop>
    ensures { Appended (framed (word_or row.entry.word (get (codes "word") (view value.now)))
        (make (T.parts_of at.now.table) at.now.depth at.now.kind.now row.entry.form (view held.now)) (view value.now))
        maker.old.bytes.items maker.new.bytes.items result }
{
    match word_or(row.word, value) {
        Some(word) => {
            let pad = value.get("pad");
            make_value(maker, at, word, row.form, row.name, held, value, pad)
        }
        None => Err(maker.wrong_or_missing(value, "word", Wanted::Word)),
    }
}

// Appends an attribute with this `nla_type`, and a value in this form.
#[cycle(make)]
fn make_value<'v, T: Tables>(
    maker: &mut Maker<'v>,
    at: &At<'v, T>,
    word: u16,
    form: Form,
    name: &'static str,
    held: &'v Value,
    value: &'v Value,
    pad: Option<&'v Value>,
) -> Result<(), Stop>
    ensures { Appended (option_and_then (λ v. framed_with word v (option_map (λ p. view p.now) pad.entry))
        (make (T.parts_of at.now.table) at.now.depth at.now.kind.now form (view held.now)))
        maker.old.bytes.items maker.new.bytes.items result }
{
    let start = match begin(maker) {
        Ok(start) => start,
        Err(e) => return Err(e),
    };
    match make_member(maker, at, name, form, held) {
        Ok(()) => end(maker, start, word, name, value, pad),
        Err(e) => Err(e),
    }
}

// An attribute of any type, which holds this form.
#[cycle(make)]
fn make_indexed<'v, T: Tables>(
    maker: &mut Maker<'v>,
    at: &At<'v, T>,
    form: Form,
    value: &'v Value,
) -> Result<(), Stop>
    ensures { Appended (framed (option_and_then word_made (get (codes "tab") (view value.now)))
        (option_and_then (make (T.parts_of at.now.table) at.now.depth at.now.kind.now form) (get (codes "attributes") (view value.now)))
        (view value.now)) maker.old.bytes.items maker.new.bytes.items result }
{
    let word = match word_at(value, "tab") {
        Some(word) => word,
        None => return Err(maker.wrong_or_missing(value, "tab", Wanted::Word)),
    };
    match value.get("attributes") {
        Some(held) => {
            let pad = value.get("pad");
            make_value(maker, at, word, form, "attributes", held, value, pad)
        }
        None => Err(maker.missing(value, "attributes")),
    }
}

#[cycle(make)]
fn make_choice<'v, T: Tables>(
    maker: &mut Maker<'v>,
    at: &At<'v, T>,
    choices: &'static [Choice<'static>],
    value: &'v Value,
) -> Result<(), Stop>
    ensures { Appended (by_choice_made (make (T.parts_of at.now.table) at.now.depth at.now.kind.now) (choices_view choices.now) (view value.now))
        maker.old.bytes.items maker.new.bytes.items result }
{
    match value.get("Other") {
        Some(held) => make_hex_at(maker, "Other", held),
        None => make_chosen(maker, at, choices, value),
    }
}

#[cycle(make)]
fn make_chosen<'v, T: Tables>(
    maker: &mut Maker<'v>,
    at: &At<'v, T>,
    choices: &'static [Choice<'static>],
    value: &'v Value,
) -> Result<(), Stop>
    ensures { Appended (choice_made (make (T.parts_of at.now.table) at.now.depth at.now.kind.now)
        (held (λ c. c.name) is_choice (choices_view choices.now) (view value.now))) maker.old.bytes.items maker.new.bytes.items result }
{
    let (choice, held) = match choice_held(choices, value) {
        Some(found) => found,
        None => return Err(maker.unknown(value, Wanted::Variant(choices))),
    };
    match maker.put(choice.prefix) {
        Ok(()) => make_member(maker, at, choice.name, choice.form, held),
        Err(e) => Err(e),
    }
}
