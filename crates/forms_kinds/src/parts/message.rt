//! The parts of `kinds/message`, in the order of their places. Written by `kinds/generate`.

ghost use Rattle.std.specs.Prelude.{map, ◌≡◌};
ghost use Rattle.forms_values.specs.Tables.{part_view};
ghost use Rattle.forms_kinds.specs.Parts.{parts_of_message};

use forms_values::{Field, Form, KindRows, Name, Number, Part, Row};

#[rattlefmt::skip]
static PARTS_OF_MESSAGE: [Part<'static>; 12] = [
    Part::Fields(&[ // 816, `struct tc_message`
        Field { name: "header", form: Form::Record(817) },
        Field { name: "attributes", form: Form::InForce(819) },
    ]),
    Part::Fields(&[ // 817, `struct tcmsg`
        Field { name: "family", form: Form::Named(Number::U8, 818) },
        Field { name: "padding", form: Form::Pad(3) },
        Field { name: "index", form: Form::Number(Number::I32) },
        Field { name: "handle", form: Form::Handle },
        Field { name: "parent", form: Form::Handle },
        Field { name: "info", form: Form::Number(Number::U32) },
    ]),
    Part::Names(&[ // 818, `enum address_family`
        Name { number: 0, name: "Unspec" },
        Name { number: 1, name: "Unix" },
        Name { number: 2, name: "Inet" },
        Name { number: 7, name: "Bridge" },
        Name { number: 10, name: "Inet6" },
        Name { number: 16, name: "Netlink" },
        Name { number: 17, name: "Packet" },
        Name { number: 28, name: "Mpls" },
    ]),
    Part::Kinds(820, 821, &[ // 819, `list tc`
        KindRows { kind: "basic", rows: 554 },
        KindRows { kind: "bpf", rows: 577 },
        KindRows { kind: "cgroup", rows: 601 },
        KindRows { kind: "flow", rows: 626 },
        KindRows { kind: "flower", rows: 658 },
        KindRows { kind: "fw", rows: 673 },
        KindRows { kind: "matchall", rows: 698 },
        KindRows { kind: "route", rows: 721 },
        KindRows { kind: "rsvp", rows: 748 },
        KindRows { kind: "rsvp6", rows: 749 },
        KindRows { kind: "tcindex", rows: 769 },
        KindRows { kind: "u32", rows: 797 },
        KindRows { kind: "atm", rows: 841 },
        KindRows { kind: "cake", rows: 873 },
        KindRows { kind: "cake_mq", rows: 888 },
        KindRows { kind: "cbq", rows: 920 },
        KindRows { kind: "cbs", rows: 938 },
        KindRows { kind: "choke", rows: 964 },
        KindRows { kind: "codel", rows: 987 },
        KindRows { kind: "drr", rows: 1011 },
        KindRows { kind: "dsmark", rows: 1033 },
        KindRows { kind: "dualpi2", rows: 1063 },
        KindRows { kind: "etf", rows: 1082 },
        KindRows { kind: "ets", rows: 1107 },
        KindRows { kind: "pfifo", rows: 1130 },
        KindRows { kind: "pfifo_head_drop", rows: 1130 },
        KindRows { kind: "bfifo", rows: 1131 },
        KindRows { kind: "fq", rows: 1156 },
        KindRows { kind: "fq_codel", rows: 1181 },
        KindRows { kind: "fq_pie", rows: 1203 },
        KindRows { kind: "gred", rows: 1229 },
        KindRows { kind: "hfsc", rows: 1254 },
        KindRows { kind: "hhf", rows: 1275 },
        KindRows { kind: "htb", rows: 1301 },
        KindRows { kind: "ingress", rows: 1321 },
        KindRows { kind: "mqprio", rows: 1352 },
        KindRows { kind: "multiq", rows: 1369 },
        KindRows { kind: "netem", rows: 1404 },
        KindRows { kind: "noop", rows: 1418 },
        KindRows { kind: "noqueue", rows: 1418 },
        KindRows { kind: "blackhole", rows: 1418 },
        KindRows { kind: "mq", rows: 1418 },
        KindRows { kind: "teql0", rows: 1418 },
        KindRows { kind: "clsact", rows: 1419 },
        KindRows { kind: "pie", rows: 1443 },
        KindRows { kind: "plug", rows: 1466 },
        KindRows { kind: "prio", rows: 1491 },
        KindRows { kind: "rr", rows: 1491 },
        KindRows { kind: "pfifo_fast", rows: 1492 },
        KindRows { kind: "qfq", rows: 1515 },
        KindRows { kind: "red", rows: 1541 },
        KindRows { kind: "sfb", rows: 1564 },
        KindRows { kind: "sfq", rows: 1590 },
        KindRows { kind: "skbprio", rows: 1609 },
        KindRows { kind: "taprio", rows: 1640 },
        KindRows { kind: "tbf", rows: 1658 },
    ]),
    Part::Rows("", &[ // 820, `list tc`: the rows of all kinds
        Row { word: 3, name: "Stats", form: Form::Record(1704) },
        Row { word: 5, name: "Rate", form: Form::Record(1684) },
        Row { word: 6, name: "Fcnt", form: Form::Number(Number::U32) },
        Row { word: 7, name: "Stats2", form: Form::List(1705) },
        Row { word: 8, name: "Stab", form: Form::List(1682) },
        Row { word: 9, name: "Pad", form: Form::Flag },
        Row { word: 10, name: "DumpInvisible", form: Form::Flag },
        Row { word: 11, name: "Chain", form: Form::Number(Number::U32) },
        Row { word: 12, name: "HwOffload", form: Form::Number(Number::U8) },
        Row { word: 13, name: "IngressBlock", form: Form::Number(Number::U32) },
        Row { word: 14, name: "EgressBlock", form: Form::Number(Number::U32) },
        Row { word: 15, name: "DumpFlags", form: Form::Record(823) },
        Row { word: 16, name: "ExtWarnMsg", form: Form::Text },
    ]),
    Part::Rows("", &[ // 821, `list tc`: the rows of other kinds
        Row { word: 2, name: "OptionsRaw", form: Form::Hex },
        Row { word: 4, name: "Xstats", form: Form::Choice(822) },
    ]),
    Part::Choices(&[ // 822, `choice unknown`
    ]),
    Part::Fields(&[ // 823, `struct tca_dump_flags`
        Field { name: "value", form: Form::Number(Number::U32) },
        Field { name: "selector", form: Form::Number(Number::U32) },
    ]),
    Part::Fields(&[ // 824, `struct action_message`
        Field { name: "header", form: Form::Record(825) },
        Field { name: "attributes", form: Form::List(826) },
    ]),
    Part::Fields(&[ // 825, `struct tcamsg`
        Field { name: "family", form: Form::Named(Number::U8, 818) },
        Field { name: "padding", form: Form::Pad(3) },
    ]),
    Part::Rows("", &[ // 826, `list action_message`
        Row { word: 1, name: "Actions", form: Form::Indexed(507) },
        Row { word: 2, name: "Flags", form: Form::Record(827) },
        Row { word: 3, name: "RootCount", form: Form::Number(Number::U32) },
        Row { word: 4, name: "RootTimeDelta", form: Form::Number(Number::U32) },
        Row { word: 5, name: "RootExtWarnMsg", form: Form::Bare },
    ]),
    Part::Fields(&[ // 827, `struct tca_root_flags`
        Field { name: "flags", form: Form::Number(Number::U32) },
        Field { name: "selector", form: Form::Number(Number::U32) },
    ]),
];

#[tactic(auto, unfolding(crate::specs::Parts::parts_of_message))]
pub(crate) fn parts_of_message() -> &'static [Part<'static>]
    ensures { map part_view result.now ≡ parts_of_message }
{
    &PARTS_OF_MESSAGE
}
