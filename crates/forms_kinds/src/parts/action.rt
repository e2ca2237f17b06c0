//! The parts of `kinds/action`, in the order of their places. Written by `kinds/generate`.

ghost use Rattle.std.specs.Prelude.{map, ◌≡◌};
ghost use Rattle.forms_values.specs.Tables.{part_view};
ghost use Rattle.forms_kinds.specs.Parts.{parts_of_action};

use forms_values::{Field, Form, KindRows, Name, Number, Part, Row};

#[rattlefmt::skip]
static PARTS_OF_ACTION: [Part<'static>; 9] = [
    Part::Kinds(1, 2, &[ // 0, `list action`
        KindRows { kind: "bpf", rows: 26 },
        KindRows { kind: "connmark", rows: 50 },
        KindRows { kind: "csum", rows: 74 },
        KindRows { kind: "ct", rows: 98 },
        KindRows { kind: "ctinfo", rows: 122 },
        KindRows { kind: "gact", rows: 148 },
        KindRows { kind: "gate", rows: 172 },
        KindRows { kind: "ife", rows: 195 },
        KindRows { kind: "ipt", rows: 219 },
        KindRows { kind: "xt", rows: 220 },
        KindRows { kind: "mirred", rows: 243 },
        KindRows { kind: "mpls", rows: 267 },
        KindRows { kind: "nat", rows: 290 },
        KindRows { kind: "pedit", rows: 319 },
        KindRows { kind: "police", rows: 339 },
        KindRows { kind: "sample", rows: 362 },
        KindRows { kind: "simple", rows: 386 },
        KindRows { kind: "skbedit", rows: 410 },
        KindRows { kind: "skbmod", rows: 434 },
        KindRows { kind: "tunnel_key", rows: 462 },
        KindRows { kind: "vlan", rows: 483 },
    ]),
    Part::Rows("", &[ // 1, `list action`: the rows of all kinds
        Row { word: 3, name: "Index", form: Form::Number(Number::U32) },
        Row { word: 4, name: "Stats", form: Form::List(1705) },
        Row { word: 5, name: "Pad", form: Form::Flag },
        Row { word: 6, name: "Cookie", form: Form::Hex },
        Row { word: 7, name: "Flags", form: Form::Record(3) },
        Row { word: 8, name: "HwStats", form: Form::Record(4) },
        Row { word: 9, name: "UsedHwStats", form: Form::Record(4) },
        Row { word: 10, name: "InHwCount", form: Form::Number(Number::U32) },
    ]),
    Part::Rows("", &[ // 2, `list action`: the rows of other kinds
        Row { word: 32770, name: "Options", form: Form::List(5) },
    ]),
    Part::Fields(&[ // 3, `struct tca_act_flags`
        Field { name: "value", form: Form::Number(Number::U32) },
        Field { name: "selector", form: Form::Number(Number::U32) },
    ]),
    Part::Fields(&[ // 4, `struct tca_act_hw_stats`
        Field { name: "value", form: Form::Number(Number::U32) },
        Field { name: "selector", form: Form::Number(Number::U32) },
    ]),
    Part::Rows("", &[ // 5, `list unknown`
    ]),
    Part::Fields(&[ // 6, `struct tc_gen`
        Field { name: "index", form: Form::Number(Number::U32) },
        Field { name: "capab", form: Form::Number(Number::U32) },
        Field { name: "action", form: Form::Named(Number::I32, 7) },
        Field { name: "refcnt", form: Form::Number(Number::I32) },
        Field { name: "bindcnt", form: Form::Number(Number::I32) },
    ]),
    Part::Names(&[ // 7, `enum tc_act`
        Name { number: 4294967295, name: "Unspec" },
        Name { number: 0, name: "Ok" },
        Name { number: 1, name: "Reclassify" },
        Name { number: 2, name: "Shot" },
        Name { number: 3, name: "Pipe" },
        Name { number: 4, name: "Stolen" },
        Name { number: 5, name: "Queued" },
        Name { number: 6, name: "Repeat" },
        Name { number: 7, name: "Redirect" },
        Name { number: 8, name: "Trap" },
    ]),
    Part::Fields(&[ // 8, `struct tcf_t`
        Field { name: "install", form: Form::Number(Number::U64) },
        Field { name: "lastuse", form: Form::Number(Number::U64) },
        Field { name: "expires", form: Form::Number(Number::U64) },
        Field { name: "firstuse", form: Form::Number(Number::U64) },
    ]),
];

#[tactic(auto, unfolding(crate::specs::Parts::parts_of_action))]
pub(crate) fn parts_of_action() -> &'static [Part<'static>]
    ensures { map part_view result.now ≡ parts_of_action }
{
    &PARTS_OF_ACTION
}
