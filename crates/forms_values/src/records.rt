//! Records: whether bytes are enough for the fields, and the bytes of each field.

ghost use Rattle.serde_json.specs.Find.{get};
ghost use Rattle.serde_json.specs.View.{view};
ghost use Rattle.std.specs.Prelude.{None, OnOk, codes, ◌≡◌};
ghost use Rattle.forms_values.specs.Appended.{Appended};
ghost use Rattle.forms_values.specs.Records.{after_field, all_zero, are_distinct, are_enough, field_made, field_of, is_blank, is_free, is_pad, names_distinct};
ghost use Rattle.forms_values.specs.Records.{rest_made, rest_member};
ghost use Rattle.forms_values.specs.Sent.{Sent, members_events};
ghost use Rattle.forms_values.specs.Tables.{field_view, fields_view};
ghost use Rattle.forms_values.specs.Widths.{width};

use crate::events::{Aside, Stopped, key};
use crate::form::{Field, Form};
use crate::maker::{Maker, Stop};
use crate::names::is_same;
use crate::tables::Tables;
use crate::values_made::make_hex_at;
use crate::values_shown::send_hex;
use crate::widths::fixed_width;
use serde::Serializer;
use serde_json::Value;

#[inline(always)]
pub fn is_pad(form: Form) -> bool
    ensures { result ≡ is_pad form }
{
    matches!(form, Form::Pad(_))
}

/// The bytes of a field, and the bytes after it.
#[inline(always)]
pub fn split(bytes: &[u8], width: Option<usize>) -> (&[u8], &[u8])
    ensures field { result.0.now ≡ field_of width bytes.now }
    ensures after { result.1.now ≡ after_field width bytes.now }
{
    match width {
        Some(width) if width < bytes.len() => bytes.split_at(width),
        _ => (bytes, &[]),
    }
}

/// Sends the bytes after the last field, if there are any.
pub fn send_rest<S: Serializer>(
    bytes: &[u8],
    out: &mut S,
    aside: &mut Aside<S::Error>,
) -> Result<(), Stopped>
    ensures { OnOk result (Sent (members_events (rest_member bytes.now)) (S.written out.old) (S.written out.new)) }
{
    if bytes.is_empty() {
        return Ok(());
    }
    key("rest", out, aside)?;
    send_hex(bytes, out, aside)
}

/// True if the bytes are as many zeros as the field has bytes.
#[inline(always)]
pub fn is_blank(width: Option<usize>, bytes: &[u8]) -> bool
    ensures { result ≡ is_blank width bytes.now }
{
    bytes.len() == width.unwrap_or(0) && all_zero(bytes)
}

fn all_zero(bytes: &[u8]) -> bool
    ensures { result ≡ all_zero bytes.now }
{
    match bytes.split_first() {
        Some((first, others)) => *first == 0 && all_zero(others),
        None => true,
    }
}

/// True if there are enough bytes for all fields of fixed width.
pub fn are_enough<T: Tables>(table: T, len: usize, fields: &[Field<'_>]) -> bool
    ensures { result ≡ are_enough (T.parts_of table) len (fields_view fields.now) }
{
    match fields.split_first() {
        Some((field, others)) => {
            let width = fixed_width(table, field.form).unwrap_or(0);
            width <= len && are_enough(table, len - width, others)
        }
        None => true,
    }
}

fn is_free(name: &str, fields: &[Field<'_>]) -> bool
    ensures { result ≡ is_free name.now (fields_view fields.now) }
{
    match fields.split_first() {
        Some((field, others)) => !is_same(name, field.name) && is_free(name, others),
        None => true,
    }
}

fn are_distinct(fields: &[Field<'_>]) -> bool
    ensures { result ≡ are_distinct (fields_view fields.now) }
{
    match fields.split_first() {
        Some((field, others)) => is_free(field.name, others) && are_distinct(others),
        None => true,
    }
}

pub(crate) fn names_distinct(fields: &[Field<'_>]) -> bool
    ensures { result ≡ names_distinct (fields_view fields.now) }
{
    is_free("raw", fields) && is_free("rest", fields) && are_distinct(fields)
}

/// Appends padding that the JSON leaves out. For another field, notes that it is missing.
pub fn make_blank<'v, T: Tables>(
    maker: &mut Maker<'v>,
    table: T,
    field: &Field<'static>,
    value: &'v Value,
) -> Result<(), Stop>
    ensures { Appended (field_made (T.parts_of table) (λ f d. None) (field_view field.now) None) maker.old.bytes.items maker.new.bytes.items result }
{
    if !is_pad(field.form) {
        return Err(maker.missing(value, field.name));
    }
    maker.put_zeros(fixed_width(table, field.form).unwrap_or(0))
}

/// Appends the bytes after the last field, if the JSON has any.
pub fn make_rest<'v>(maker: &mut Maker<'v>, value: &'v Value) -> Result<(), Stop>
    ensures { Appended (rest_made (get (codes "rest") (view value.now))) maker.old.bytes.items maker.new.bytes.items result }
{
    match value.get("rest") {
        Some(held) => make_hex_at(maker, "rest", held),
        None => Ok(()),
    }
}
