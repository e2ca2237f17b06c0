//! The parts of `kinds/statistics`, in the order of their places. Written by `kinds/generate`.

ghost use Rattle.std.specs.Prelude.{map, ◌≡◌};
ghost use Rattle.forms_values.specs.Tables.{part_view};
ghost use Rattle.forms_kinds.specs.Parts.{parts_of_statistics};

use forms_values::{Field, Form, KindRows, Number, Part, Row};

#[rattlefmt::skip]
static PARTS_OF_STATISTICS: [Part<'static>; 8] = [
    Part::Fields(&[ // 1704, `struct tc_stats`
        Field { name: "bytes", form: Form::Number(Number::U64) },
        Field { name: "packets", form: Form::Number(Number::U32) },
        Field { name: "drops", form: Form::Number(Number::U32) },
        Field { name: "overlimits", form: Form::Number(Number::U32) },
        Field { name: "bps", form: Form::Number(Number::U32) },
        Field { name: "pps", form: Form::Number(Number::U32) },
        Field { name: "qlen", form: Form::Number(Number::U32) },
        Field { name: "backlog", form: Form::Number(Number::U32) },
        Field { name: "padding", form: Form::Pad(4) },
    ]),
    Part::Kinds(1706, 1707, &[ // 1705, `list stats`
        KindRows { kind: "cake", rows: 874 },
        KindRows { kind: "cbq", rows: 921 },
        KindRows { kind: "choke", rows: 965 },
        KindRows { kind: "codel", rows: 988 },
        KindRows { kind: "drr", rows: 1012 },
        KindRows { kind: "dualpi2", rows: 1064 },
        KindRows { kind: "fq", rows: 1157 },
        KindRows { kind: "fq_codel", rows: 1182 },
        KindRows { kind: "fq_pie", rows: 1204 },
        KindRows { kind: "hfsc", rows: 1255 },
        KindRows { kind: "hhf", rows: 1276 },
        KindRows { kind: "htb", rows: 1302 },
        KindRows { kind: "netem", rows: 1405 },
        KindRows { kind: "pie", rows: 1444 },
        KindRows { kind: "qfq", rows: 1516 },
        KindRows { kind: "red", rows: 1542 },
        KindRows { kind: "sfb", rows: 1565 },
        KindRows { kind: "sfq", rows: 1591 },
        KindRows { kind: "taprio", rows: 1641 },
    ]),
    Part::Rows("", &[ // 1706, `list stats`: the rows of all kinds
        Row { word: 1, name: "Basic", form: Form::Record(1708) },
        Row { word: 2, name: "RateEst", form: Form::Record(1710) },
        Row { word: 3, name: "Queue", form: Form::Record(1709) },
        Row { word: 5, name: "RateEst64", form: Form::Record(1711) },
        Row { word: 6, name: "Pad", form: Form::Flag },
        Row { word: 7, name: "BasicHw", form: Form::Record(1708) },
        Row { word: 8, name: "Pkt64", form: Form::Number(Number::U64) },
    ]),
    Part::Rows("", &[ // 1707, `list stats`: the rows of other kinds
        Row { word: 4, name: "App", form: Form::Choice(822) },
    ]),
    Part::Fields(&[ // 1708, `struct gnet_stats_basic`
        Field { name: "bytes", form: Form::Number(Number::U64) },
        Field { name: "packets", form: Form::Number(Number::U32) },
        Field { name: "padding", form: Form::Pad(4) },
    ]),
    Part::Fields(&[ // 1709, `struct gnet_stats_queue`
        Field { name: "qlen", form: Form::Number(Number::U32) },
        Field { name: "backlog", form: Form::Number(Number::U32) },
        Field { name: "drops", form: Form::Number(Number::U32) },
        Field { name: "requeues", form: Form::Number(Number::U32) },
        Field { name: "overlimits", form: Form::Number(Number::U32) },
    ]),
    Part::Fields(&[ // 1710, `struct gnet_stats_rate_est`
        Field { name: "bps", form: Form::Number(Number::U32) },
        Field { name: "pps", form: Form::Number(Number::U32) },
    ]),
    Part::Fields(&[ // 1711, `struct gnet_stats_rate_est64`
        Field { name: "bps", form: Form::Number(Number::U64) },
        Field { name: "pps", form: Form::Number(Number::U64) },
    ]),
];

#[tactic(auto, unfolding(crate::specs::Parts::parts_of_statistics))]
pub(crate) fn parts_of_statistics() -> &'static [Part<'static>]
    ensures { map part_view result.now ≡ parts_of_statistics }
{
    &PARTS_OF_STATISTICS
}
