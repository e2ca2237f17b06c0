//! The parts of `kinds/shared`, in the order of their places. Written by `kinds/generate`.

ghost use Rattle.std.specs.Prelude.{map, ◌≡◌};
ghost use Rattle.forms_values.specs.Tables.{part_view};
ghost use Rattle.forms_kinds.specs.Parts.{parts_of_shared};

use forms_values::{Field, Form, Name, Number, Part, Row};

#[rattlefmt::skip]
static PARTS_OF_SHARED: [Part<'static>; 7] = [
    Part::Fields(&[ // 1680, `struct tc_ratespec`
        Field { name: "cell_log", form: Form::Number(Number::U8) },
        Field { name: "linklayer", form: Form::Named(Number::U8, 1681) },
        Field { name: "overhead", form: Form::Number(Number::U16) },
        Field { name: "cell_align", form: Form::Number(Number::I16) },
        Field { name: "mpu", form: Form::Number(Number::U16) },
        Field { name: "rate", form: Form::Number(Number::U32) },
    ]),
    Part::Names(&[ // 1681, `enum tc_linklayer`
        Name { number: 0, name: "Unaware" },
        Name { number: 1, name: "Ethernet" },
        Name { number: 2, name: "Atm" },
    ]),
    Part::Rows("", &[ // 1682, `list stab`
        Row { word: 1, name: "Base", form: Form::Record(1683) },
        Row { word: 2, name: "Data", form: Form::Array(505) },
    ]),
    Part::Fields(&[ // 1683, `struct tc_sizespec`
        Field { name: "cell_log", form: Form::Number(Number::U8) },
        Field { name: "size_log", form: Form::Number(Number::U8) },
        Field { name: "cell_align", form: Form::Number(Number::I16) },
        Field { name: "overhead", form: Form::Number(Number::I32) },
        Field { name: "linklayer", form: Form::Named(Number::U32, 1681) },
        Field { name: "mpu", form: Form::Number(Number::U32) },
        Field { name: "mtu", form: Form::Number(Number::U32) },
        Field { name: "tsize", form: Form::Number(Number::U32) },
    ]),
    Part::Fields(&[ // 1684, `struct tc_estimator`
        Field { name: "interval", form: Form::Number(Number::I8) },
        Field { name: "ewma_log", form: Form::Number(Number::U8) },
    ]),
    Part::Fields(&[ // 1685, `struct sock_filter`
        Field { name: "code", form: Form::Number(Number::U16) },
        Field { name: "jt", form: Form::Number(Number::U8) },
        Field { name: "jf", form: Form::Number(Number::U8) },
        Field { name: "k", form: Form::Number(Number::U32) },
    ]),
    Part::Names(&[ // 1686, `enum tc_fp`
        Name { number: 1, name: "Express" },
        Name { number: 2, name: "Preemptible" },
    ]),
];

#[tactic(auto, unfolding(crate::specs::Parts::parts_of_shared))]
pub(crate) fn parts_of_shared() -> &'static [Part<'static>]
    ensures { map part_view result.now ≡ parts_of_shared }
{
    &PARTS_OF_SHARED
}
