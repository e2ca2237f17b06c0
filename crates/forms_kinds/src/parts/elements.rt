//! The parts of `kinds/elements`, in the order of their places. Written by `kinds/generate`.

ghost use Rattle.std.specs.Prelude.{map, ◌≡◌};
ghost use Rattle.forms_values.specs.Tables.{part_view};
ghost use Rattle.forms_kinds.specs.Parts.{parts_of_elements};

use forms_values::{Form, Number, Part};

#[rattlefmt::skip]
static PARTS_OF_ELEMENTS: [Part<'static>; 9] = [
    Part::One(Form::Number(Number::U32)), // 504, what an array holds
    Part::One(Form::Number(Number::U16)), // 505, what an array holds
    Part::One(Form::Choice(530)), // 506, what an array holds
    Part::One(Form::Own(0)), // 507, what an array holds
    Part::One(Form::Number(Number::U64)), // 508, what an array holds
    Part::One(Form::Number(Number::U8)), // 509, what an array holds
    Part::One(Form::List(867)), // 510, what an array holds
    Part::One(Form::Number(Number::I32)), // 511, what an array holds
    Part::One(Form::Number(Number::I16)), // 512, what an array holds
];

#[tactic(auto, unfolding(crate::specs::Parts::parts_of_elements))]
pub(crate) fn parts_of_elements() -> &'static [Part<'static>]
    ensures { map part_view result.now ≡ parts_of_elements }
{
    &PARTS_OF_ELEMENTS
}
