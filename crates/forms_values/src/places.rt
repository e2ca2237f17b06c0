//! The part of a table at a place.

ghost use Rattle.std.specs.Prelude.{◌≡◌};
ghost use Rattle.forms_values.specs.Places.{choices_of, fields_of, form_of, layer_of, names_of, part_at};
ghost use Rattle.forms_values.specs.Tables.{choices_view, fields_view, names_view};

use crate::form::{Choice, Field, Form, Name, Part};
use crate::tables::Tables;

/// The context of a form: the table, the levels left, and the kind in force.
#[derive(Clone, Copy)]
pub struct At<'k, T> {
    /// The table.
    pub table: T,
    /// The number of levels that may nest from here on.
    pub depth: u8,
    /// The kind in force: the last `TCA_KIND` before.
    pub kind: &'k str,
}

/// The names at a place. Empty if the part there has another sort.
pub(crate) fn names_at<T: Tables>(table: T, place: usize) -> &'static [Name<'static>]
    ensures { names_view result.now ≡ names_of (part_at (T.parts_of table) place) }
{
    if let Part::Names(names) = table.part(place) {
        return names;
    }
    &[]
}

/// The fields at a place. Empty if the part there has another sort.
pub fn fields_at<T: Tables>(table: T, place: usize) -> &'static [Field<'static>]
    ensures { fields_view result.now ≡ fields_of (part_at (T.parts_of table) place) }
{
    if let Part::Fields(fields) = table.part(place) {
        return fields;
    }
    &[]
}

/// The layer at a place. Empty if there is none.
pub fn layer_at<T: Tables>(table: T, place: usize) -> &'static str
    ensures { result.now ≡ layer_of (part_at (T.parts_of table) place) }
{
    if let Part::Rows(layer, _) = table.part(place) {
        return layer;
    }
    ""
}

/// The choices at a place. Empty if the part there has another sort.
pub fn choices_at<T: Tables>(table: T, place: usize) -> &'static [Choice<'static>]
    ensures { choices_view result.now ≡ choices_of (part_at (T.parts_of table) place) }
{
    if let Part::Choices(choices) = table.part(place) {
        return choices;
    }
    &[]
}

/// The form at a place, or the form of bytes for names of numbers.
pub fn form_at<T: Tables>(table: T, place: usize) -> Form
    ensures { result ≡ form_of place (part_at (T.parts_of table) place) }
{
    match table.part(place) {
        Part::One(form) => form,
        Part::Names(_) => Form::Hex,
        Part::Fields(_) => Form::Record(place),
        Part::Rows(_, _) | Part::Kinds(_, _, _) => Form::List(place),
        Part::Choices(_) => Form::Choice(place),
    }
}
