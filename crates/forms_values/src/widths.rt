//! The number of bytes of a form.

ghost use Rattle.std.specs.Prelude.{option_and_then, ◌*◌, ◌≡◌};
ghost use Rattle.forms_values.specs.Tables.{fields_view};
ghost use Rattle.forms_values.specs.Widths.{counted, fields_width, fixed, number_width, width};

use crate::form::{Field, Form, Number};
use crate::places::{fields_at, form_at};
use crate::tables::Tables;

/// The greatest depth of forms in a table. Deeper bytes are shown raw.
pub const DEEPEST: u8 = 16;

impl Number {
    /// The width in bytes.
    pub fn width(self) -> usize
        ensures { result ≡ number_width self }
    {
        match self {
            Number::U8 | Number::I8 => 1,
            Number::U16 | Number::I16 | Number::U16Be => 2,
            Number::U32 | Number::I32 | Number::U32Be => 4,
            Number::U64 | Number::I64 | Number::U64Be => 8,
        }
    }
}

/// The number of bytes of a form, if it is fixed.
#[inline(always)]
#[cycle(width)]
fn width<T: Tables>(table: T, depth: u8, form: Form) -> Option<usize>
    ensures { result ≡ width depth (T.parts_of table) form }
{
    let inner = match depth.checked_sub(1) {
        Some(inner) => inner,
        None => return None,
    };
    match form {
        Form::Number(number) | Form::Named(number, _) => Some(number.width()),
        Form::Handle | Form::Ipv4 => Some(4),
        Form::Flag => Some(0),
        Form::Truth => Some(1),
        Form::Bytes(len) | Form::Pad(len) => Some(len),
        Form::Mac => Some(6),
        Form::Ipv6 => Some(16),
        Form::Record(place) => fields_width(table, inner, fields_at(table, place)),
        Form::Times(count, place) => times_width(table, inner, count, form_at(table, place)),
        Form::Text
        | Form::Bare
        | Form::Hex
        | Form::Array(_)
        | Form::List(_)
        | Form::InForce(_)
        | Form::Own(_)
        | Form::Indexed(_)
        | Form::Choice(_) => None,
    }
}

// The number of bytes of elements.
#[inline(never)]
#[cycle(width)]
fn times_width<T: Tables>(table: T, depth: u8, count: usize, form: Form) -> Option<usize>
    ensures { result ≡ option_and_then (λ w. counted (count * w)) (width depth (T.parts_of table) form) }
{
    match width(table, depth, form) {
        Some(width) => count.checked_mul(width),
        None => None,
    }
}

// The number of bytes of fields.
#[inline(never)]
#[cycle(width)]
fn fields_width<T: Tables>(table: T, depth: u8, fields: &[Field<'_>]) -> Option<usize>
    ensures { result ≡ fields_width (width depth (T.parts_of table)) 0 (fields_view fields.now) }
{
    let mut total = 0usize;
    for field in fields.iter() {
        let width = match width(table, depth, field.form) {
            Some(width) => width,
            None => return None,
        };
        total = match total.checked_add(width) {
            Some(total) => total,
            None => return None,
        };
    }
    Some(total)
}

/// The number of bytes of a form, if it is fixed and the form nests no deeper than [`DEEPEST`].
#[inline(always)]
#[tactic(auto, unfolding(crate::specs::Widths::fixed))]
pub fn fixed_width<T: Tables>(table: T, form: Form) -> Option<usize>
    ensures { result ≡ fixed (T.parts_of table) form }
{
    width(table, DEEPEST, form)
}
