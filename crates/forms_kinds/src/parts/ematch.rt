//! The parts of `kinds/ematch`, in the order of their places. Written by `kinds/generate`.

ghost use Rattle.std.specs.Prelude.{map, ◌≡◌};
ghost use Rattle.forms_values.specs.Tables.{part_view};
ghost use Rattle.forms_kinds.specs.Parts.{parts_of_ematch};

use forms_values::{Choice, Field, Form, Name, Number, Part, Row};

#[rattlefmt::skip]
static PARTS_OF_EMATCH: [Part<'static>; 22] = [
    Part::Rows("", &[ // 528, `list ematch_tree`
        Row { word: 1, name: "Hdr", form: Form::Record(529) },
        Row { word: 2, name: "List", form: Form::Indexed(506) },
    ]),
    Part::Fields(&[ // 529, `struct tcf_ematch_tree_hdr`
        Field { name: "nmatches", form: Form::Number(Number::U16) },
        Field { name: "progid", form: Form::Number(Number::U16) },
    ]),
    Part::Choices(&[ // 530, `choice ematch`
        Choice { name: "Container", prefix: &[0, 0, 0, 0], len: None, form: Form::Record(531) },
        Choice { name: "Cmp", prefix: &[0, 0, 1, 0], len: None, form: Form::Record(532) },
        Choice { name: "Nbyte", prefix: &[0, 0, 2, 0], len: None, form: Form::Record(534) },
        Choice { name: "U32", prefix: &[0, 0, 3, 0], len: None, form: Form::Record(536) },
        Choice { name: "Meta", prefix: &[0, 0, 4, 0], len: None, form: Form::Record(537) },
        Choice { name: "Text", prefix: &[0, 0, 5, 0], len: None, form: Form::Record(542) },
        Choice { name: "Canid", prefix: &[0, 0, 7, 0], len: None, form: Form::Record(544) },
        Choice { name: "Ipset", prefix: &[0, 0, 8, 0], len: None, form: Form::Record(546) },
        Choice { name: "Ipt", prefix: &[0, 0, 9, 0], len: None, form: Form::Record(548) },
    ]),
    Part::Fields(&[ // 531, `struct ematch_container`
        Field { name: "flags", form: Form::Number(Number::U16) },
        Field { name: "padding", form: Form::Pad(2) },
        Field { name: "first", form: Form::Number(Number::U32) },
    ]),
    Part::Fields(&[ // 532, `struct ematch_cmp`
        Field { name: "flags", form: Form::Number(Number::U16) },
        Field { name: "padding", form: Form::Pad(2) },
        Field { name: "match", form: Form::Record(533) },
    ]),
    Part::Fields(&[ // 533, `struct tcf_em_cmp`
        Field { name: "val", form: Form::Number(Number::U32) },
        Field { name: "mask", form: Form::Number(Number::U32) },
        Field { name: "off", form: Form::Number(Number::U16) },
        Field { name: "align_flags", form: Form::Number(Number::U8) },
        Field { name: "layer_opnd", form: Form::Number(Number::U8) },
    ]),
    Part::Fields(&[ // 534, `struct ematch_nbyte`
        Field { name: "flags", form: Form::Number(Number::U16) },
        Field { name: "padding", form: Form::Pad(2) },
        Field { name: "match", form: Form::Record(535) },
        Field { name: "needle", form: Form::Hex },
    ]),
    Part::Fields(&[ // 535, `struct tcf_em_nbyte`
        Field { name: "off", form: Form::Number(Number::U16) },
        Field { name: "len_layer", form: Form::Number(Number::U16) },
    ]),
    Part::Fields(&[ // 536, `struct ematch_u32`
        Field { name: "flags", form: Form::Number(Number::U16) },
        Field { name: "padding", form: Form::Pad(2) },
        Field { name: "match", form: Form::Record(794) },
    ]),
    Part::Fields(&[ // 537, `struct ematch_meta`
        Field { name: "flags", form: Form::Number(Number::U16) },
        Field { name: "padding", form: Form::Pad(2) },
        Field { name: "attributes", form: Form::List(538) },
    ]),
    Part::Rows("", &[ // 538, `list em_meta`
        Row { word: 1, name: "Hdr", form: Form::Record(539) },
        Row { word: 2, name: "Lvalue", form: Form::Hex },
        Row { word: 3, name: "Rvalue", form: Form::Hex },
    ]),
    Part::Fields(&[ // 539, `struct tcf_meta_hdr`
        Field { name: "left", form: Form::Record(540) },
        Field { name: "right", form: Form::Record(540) },
    ]),
    Part::Fields(&[ // 540, `struct tcf_meta_val`
        Field { name: "kind", form: Form::Number(Number::U16) },
        Field { name: "shift", form: Form::Number(Number::U8) },
        Field { name: "op", form: Form::Named(Number::U8, 541) },
    ]),
    Part::Names(&[ // 541, `enum tcf_em_opnd`
        Name { number: 0, name: "Eq" },
        Name { number: 1, name: "Gt" },
        Name { number: 2, name: "Lt" },
    ]),
    Part::Fields(&[ // 542, `struct ematch_text`
        Field { name: "flags", form: Form::Number(Number::U16) },
        Field { name: "padding", form: Form::Pad(2) },
        Field { name: "match", form: Form::Record(543) },
        Field { name: "pattern", form: Form::Hex },
    ]),
    Part::Fields(&[ // 543, `struct tcf_em_text`
        Field { name: "algo", form: Form::Bytes(16) },
        Field { name: "from_offset", form: Form::Number(Number::U16) },
        Field { name: "to_offset", form: Form::Number(Number::U16) },
        Field { name: "pattern_len", form: Form::Number(Number::U16) },
        Field { name: "layers", form: Form::Number(Number::U8) },
        Field { name: "pad", form: Form::Pad(1) },
    ]),
    Part::Fields(&[ // 544, `struct ematch_canid`
        Field { name: "flags", form: Form::Number(Number::U16) },
        Field { name: "padding", form: Form::Pad(2) },
        Field { name: "match", form: Form::Array(545) },
    ]),
    Part::Fields(&[ // 545, `struct can_filter`
        Field { name: "can_id", form: Form::Number(Number::U32) },
        Field { name: "can_mask", form: Form::Number(Number::U32) },
    ]),
    Part::Fields(&[ // 546, `struct ematch_ipset`
        Field { name: "flags", form: Form::Number(Number::U16) },
        Field { name: "padding", form: Form::Pad(2) },
        Field { name: "match", form: Form::Record(547) },
    ]),
    Part::Fields(&[ // 547, `struct xt_set_info`
        Field { name: "index", form: Form::Number(Number::U16) },
        Field { name: "dim", form: Form::Number(Number::U8) },
        Field { name: "flags", form: Form::Number(Number::U8) },
    ]),
    Part::Fields(&[ // 548, `struct ematch_ipt`
        Field { name: "flags", form: Form::Number(Number::U16) },
        Field { name: "padding", form: Form::Pad(2) },
        Field { name: "attributes", form: Form::List(549) },
    ]),
    Part::Rows("", &[ // 549, `list em_ipt`
        Row { word: 1, name: "Hook", form: Form::Number(Number::U32) },
        Row { word: 2, name: "MatchName", form: Form::Text },
        Row { word: 3, name: "MatchRevision", form: Form::Number(Number::U8) },
        Row { word: 4, name: "Nfproto", form: Form::Number(Number::U8) },
        Row { word: 5, name: "MatchData", form: Form::Hex },
    ]),
];

#[tactic(auto, unfolding(crate::specs::Parts::parts_of_ematch))]
pub(crate) fn parts_of_ematch() -> &'static [Part<'static>]
    ensures { map part_view result.now ≡ parts_of_ematch }
{
    &PARTS_OF_EMATCH
}
