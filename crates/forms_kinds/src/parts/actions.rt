//! The parts of `kinds/actions`, in the order of their places. Written by `kinds/generate`.

ghost use Rattle.std.specs.Prelude.{map, ◌≡◌};
ghost use Rattle.forms_values.specs.Tables.{part_view};
ghost use Rattle.forms_kinds.specs.Parts.{parts_of_actions_bpf, parts_of_actions_connmark, parts_of_actions_csum, parts_of_actions_ct};
ghost use Rattle.forms_kinds.specs.Parts.{parts_of_actions_ctinfo, parts_of_actions_gact, parts_of_actions_gate, parts_of_actions_ife};
ghost use Rattle.forms_kinds.specs.Parts.{parts_of_actions_ipt, parts_of_actions_mirred, parts_of_actions_mpls, parts_of_actions_nat};
ghost use Rattle.forms_kinds.specs.Parts.{parts_of_actions_pedit, parts_of_actions_police, parts_of_actions_sample, parts_of_actions_simple};
ghost use Rattle.forms_kinds.specs.Parts.{parts_of_actions_skbedit, parts_of_actions_skbmod, parts_of_actions_tunnel_key, parts_of_actions_vlan};

use forms_values::{Field, Form, Name, Number, Part, Row};

#[rattlefmt::skip]
static PARTS_OF_ACTIONS_BPF: [Part<'static>; 3] = [
    Part::Rows("Bpf", &[ // 24, `list act_bpf`
        Row { word: 1, name: "Tm", form: Form::Record(8) },
        Row { word: 2, name: "Parms", form: Form::Record(25) },
        Row { word: 3, name: "OpsLen", form: Form::Number(Number::U16) },
        Row { word: 4, name: "Ops", form: Form::Array(1685) },
        Row { word: 5, name: "Fd", form: Form::Number(Number::U32) },
        Row { word: 6, name: "Name", form: Form::Text },
        Row { word: 7, name: "Pad", form: Form::Flag },
        Row { word: 8, name: "Tag", form: Form::Bytes(8) },
        Row { word: 9, name: "Id", form: Form::Number(Number::U32) },
    ]),
    Part::Fields(&[ // 25, `struct tc_act_bpf`
        Field { name: "generic", form: Form::Record(6) },
    ]),
    Part::Rows("", &[ // 26, `list action`: the rows of bpf
        Row { word: 32770, name: "Options", form: Form::List(24) },
    ]),
];

#[tactic(auto, unfolding(crate::specs::Parts::parts_of_actions_bpf))]
pub(crate) fn parts_of_actions_bpf() -> &'static [Part<'static>]
    ensures { map part_view result.now ≡ parts_of_actions_bpf }
{
    &PARTS_OF_ACTIONS_BPF
}

#[rattlefmt::skip]
static PARTS_OF_ACTIONS_CONNMARK: [Part<'static>; 3] = [
    Part::Rows("Connmark", &[ // 48, `list connmark`
        Row { word: 1, name: "Parms", form: Form::Record(49) },
        Row { word: 2, name: "Tm", form: Form::Record(8) },
        Row { word: 3, name: "Pad", form: Form::Flag },
    ]),
    Part::Fields(&[ // 49, `struct tc_connmark`
        Field { name: "generic", form: Form::Record(6) },
        Field { name: "zone", form: Form::Number(Number::U16) },
        Field { name: "padding", form: Form::Pad(2) },
    ]),
    Part::Rows("", &[ // 50, `list action`: the rows of connmark
        Row { word: 32770, name: "Options", form: Form::List(48) },
    ]),
];

#[tactic(auto, unfolding(crate::specs::Parts::parts_of_actions_connmark))]
pub(crate) fn parts_of_actions_connmark() -> &'static [Part<'static>]
    ensures { map part_view result.now ≡ parts_of_actions_connmark }
{
    &PARTS_OF_ACTIONS_CONNMARK
}

#[rattlefmt::skip]
static PARTS_OF_ACTIONS_CSUM: [Part<'static>; 3] = [
    Part::Rows("Csum", &[ // 72, `list csum`
        Row { word: 1, name: "Parms", form: Form::Record(73) },
        Row { word: 2, name: "Tm", form: Form::Record(8) },
        Row { word: 3, name: "Pad", form: Form::Flag },
    ]),
    Part::Fields(&[ // 73, `struct tc_csum`
        Field { name: "generic", form: Form::Record(6) },
        Field { name: "update_flags", form: Form::Number(Number::U32) },
    ]),
    Part::Rows("", &[ // 74, `list action`: the rows of csum
        Row { word: 32770, name: "Options", form: Form::List(72) },
    ]),
];

#[tactic(auto, unfolding(crate::specs::Parts::parts_of_actions_csum))]
pub(crate) fn parts_of_actions_csum() -> &'static [Part<'static>]
    ensures { map part_view result.now ≡ parts_of_actions_csum }
{
    &PARTS_OF_ACTIONS_CSUM
}

#[rattlefmt::skip]
static PARTS_OF_ACTIONS_CT: [Part<'static>; 3] = [
    Part::Rows("Ct", &[ // 96, `list ct`
        Row { word: 1, name: "Parms", form: Form::Record(97) },
        Row { word: 2, name: "Tm", form: Form::Record(8) },
        Row { word: 3, name: "Action", form: Form::Number(Number::U16) },
        Row { word: 4, name: "Zone", form: Form::Number(Number::U16) },
        Row { word: 5, name: "Mark", form: Form::Number(Number::U32) },
        Row { word: 6, name: "MarkMask", form: Form::Number(Number::U32) },
        Row { word: 7, name: "Labels", form: Form::Hex },
        Row { word: 8, name: "LabelsMask", form: Form::Hex },
        Row { word: 9, name: "NatIpv4Min", form: Form::Ipv4 },
        Row { word: 10, name: "NatIpv4Max", form: Form::Ipv4 },
        Row { word: 11, name: "NatIpv6Min", form: Form::Ipv6 },
        Row { word: 12, name: "NatIpv6Max", form: Form::Ipv6 },
        Row { word: 13, name: "NatPortMin", form: Form::Number(Number::U16Be) },
        Row { word: 14, name: "NatPortMax", form: Form::Number(Number::U16Be) },
        Row { word: 15, name: "Pad", form: Form::Flag },
        Row { word: 16, name: "HelperName", form: Form::Text },
        Row { word: 17, name: "HelperFamily", form: Form::Number(Number::U8) },
        Row { word: 18, name: "HelperProto", form: Form::Number(Number::U8) },
    ]),
    Part::Fields(&[ // 97, `struct tc_ct`
        Field { name: "generic", form: Form::Record(6) },
    ]),
    Part::Rows("", &[ // 98, `list action`: the rows of ct
        Row { word: 32770, name: "Options", form: Form::List(96) },
    ]),
];

#[tactic(auto, unfolding(crate::specs::Parts::parts_of_actions_ct))]
pub(crate) fn parts_of_actions_ct() -> &'static [Part<'static>]
    ensures { map part_view result.now ≡ parts_of_actions_ct }
{
    &PARTS_OF_ACTIONS_CT
}

#[rattlefmt::skip]
static PARTS_OF_ACTIONS_CTINFO: [Part<'static>; 3] = [
    Part::Rows("Ctinfo", &[ // 120, `list ctinfo`
        Row { word: 1, name: "Pad", form: Form::Flag },
        Row { word: 2, name: "Tm", form: Form::Record(8) },
        Row { word: 3, name: "Action", form: Form::Record(121) },
        Row { word: 4, name: "Zone", form: Form::Number(Number::U16) },
        Row { word: 5, name: "ParmsDscpMask", form: Form::Number(Number::U32) },
        Row { word: 6, name: "ParmsDscpStatemask", form: Form::Number(Number::U32) },
        Row { word: 7, name: "ParmsCpmarkMask", form: Form::Number(Number::U32) },
        Row { word: 8, name: "StatsDscpSet", form: Form::Number(Number::U64) },
        Row { word: 9, name: "StatsDscpError", form: Form::Number(Number::U64) },
        Row { word: 10, name: "StatsCpmarkSet", form: Form::Number(Number::U64) },
    ]),
    Part::Fields(&[ // 121, `struct tc_ctinfo`
        Field { name: "generic", form: Form::Record(6) },
    ]),
    Part::Rows("", &[ // 122, `list action`: the rows of ctinfo
        Row { word: 32770, name: "Options", form: Form::List(120) },
    ]),
];

#[tactic(auto, unfolding(crate::specs::Parts::parts_of_actions_ctinfo))]
pub(crate) fn parts_of_actions_ctinfo() -> &'static [Part<'static>]
    ensures { map part_view result.now ≡ parts_of_actions_ctinfo }
{
    &PARTS_OF_ACTIONS_CTINFO
}

#[rattlefmt::skip]
static PARTS_OF_ACTIONS_GACT: [Part<'static>; 5] = [
    Part::Rows("Gact", &[ // 144, `list gact`
        Row { word: 1, name: "Tm", form: Form::Record(8) },
        Row { word: 2, name: "Parms", form: Form::Record(145) },
        Row { word: 3, name: "Prob", form: Form::Record(146) },
        Row { word: 4, name: "Pad", form: Form::Flag },
    ]),
    Part::Fields(&[ // 145, `struct tc_gact`
        Field { name: "generic", form: Form::Record(6) },
    ]),
    Part::Fields(&[ // 146, `struct tc_gact_p`
        Field { name: "ptype", form: Form::Named(Number::U16, 147) },
        Field { name: "pval", form: Form::Number(Number::U16) },
        Field { name: "paction", form: Form::Named(Number::I32, 7) },
    ]),
    Part::Names(&[ // 147, `enum pgact`
        Name { number: 0, name: "None" },
        Name { number: 1, name: "Netrand" },
        Name { number: 2, name: "Determ" },
    ]),
    Part::Rows("", &[ // 148, `list action`: the rows of gact
        Row { word: 32770, name: "Options", form: Form::List(144) },
    ]),
];

#[tactic(auto, unfolding(crate::specs::Parts::parts_of_actions_gact))]
pub(crate) fn parts_of_actions_gact() -> &'static [Part<'static>]
    ensures { map part_view result.now ≡ parts_of_actions_gact }
{
    &PARTS_OF_ACTIONS_GACT
}

#[rattlefmt::skip]
static PARTS_OF_ACTIONS_GATE: [Part<'static>; 5] = [
    Part::Rows("Gate", &[ // 168, `list gate`
        Row { word: 1, name: "Tm", form: Form::Record(8) },
        Row { word: 2, name: "Parms", form: Form::Record(169) },
        Row { word: 3, name: "Pad", form: Form::Flag },
        Row { word: 4, name: "Priority", form: Form::Number(Number::I32) },
        Row { word: 32773, name: "EntryList", form: Form::List(170) },
        Row { word: 6, name: "BaseTime", form: Form::Number(Number::U64) },
        Row { word: 7, name: "CycleTime", form: Form::Number(Number::U64) },
        Row { word: 8, name: "CycleTimeExt", form: Form::Number(Number::U64) },
        Row { word: 9, name: "Flags", form: Form::Number(Number::U32) },
        Row { word: 10, name: "Clockid", form: Form::Number(Number::I32) },
    ]),
    Part::Fields(&[ // 169, `struct tc_gate`
        Field { name: "generic", form: Form::Record(6) },
    ]),
    Part::Rows("", &[ // 170, `list gate_list`
        Row { word: 32769, name: "OneEntry", form: Form::List(171) },
    ]),
    Part::Rows("", &[ // 171, `list gate_entry`
        Row { word: 1, name: "Index", form: Form::Number(Number::U32) },
        Row { word: 2, name: "Gate", form: Form::Flag },
        Row { word: 3, name: "Interval", form: Form::Number(Number::U32) },
        Row { word: 4, name: "Ipv", form: Form::Number(Number::I32) },
        Row { word: 5, name: "MaxOctets", form: Form::Number(Number::I32) },
    ]),
    Part::Rows("", &[ // 172, `list action`: the rows of gate
        Row { word: 32770, name: "Options", form: Form::List(168) },
    ]),
];

#[tactic(auto, unfolding(crate::specs::Parts::parts_of_actions_gate))]
pub(crate) fn parts_of_actions_gate() -> &'static [Part<'static>]
    ensures { map part_view result.now ≡ parts_of_actions_gate }
{
    &PARTS_OF_ACTIONS_GATE
}

#[rattlefmt::skip]
static PARTS_OF_ACTIONS_IFE: [Part<'static>; 4] = [
    Part::Rows("Ife", &[ // 192, `list ife`
        Row { word: 1, name: "Parms", form: Form::Record(193) },
        Row { word: 2, name: "Tm", form: Form::Record(8) },
        Row { word: 3, name: "Dmac", form: Form::Mac },
        Row { word: 4, name: "Smac", form: Form::Mac },
        Row { word: 5, name: "Type", form: Form::Number(Number::U16) },
        Row { word: 6, name: "Metalst", form: Form::List(194) },
        Row { word: 7, name: "Pad", form: Form::Flag },
    ]),
    Part::Fields(&[ // 193, `struct tc_ife`
        Field { name: "generic", form: Form::Record(6) },
        Field { name: "flags", form: Form::Number(Number::U16) },
        Field { name: "padding", form: Form::Pad(2) },
    ]),
    Part::Rows("", &[ // 194, `list ife_meta`
        Row { word: 1, name: "Skbmark", form: Form::Array(504) },
        Row { word: 2, name: "Hashid", form: Form::Array(504) },
        Row { word: 3, name: "Prio", form: Form::Array(504) },
        Row { word: 4, name: "Qmap", form: Form::Array(505) },
        Row { word: 5, name: "Tcindex", form: Form::Array(505) },
    ]),
    Part::Rows("", &[ // 195, `list action`: the rows of ife
        Row { word: 32770, name: "Options", form: Form::List(192) },
    ]),
];

#[tactic(auto, unfolding(crate::specs::Parts::parts_of_actions_ife))]
pub(crate) fn parts_of_actions_ife() -> &'static [Part<'static>]
    ensures { map part_view result.now ≡ parts_of_actions_ife }
{
    &PARTS_OF_ACTIONS_IFE
}

#[rattlefmt::skip]
static PARTS_OF_ACTIONS_IPT: [Part<'static>; 5] = [
    Part::Rows("Ipt", &[ // 216, `list ipt`
        Row { word: 1, name: "Table", form: Form::Text },
        Row { word: 2, name: "Hook", form: Form::Number(Number::U32) },
        Row { word: 3, name: "Index", form: Form::Number(Number::U32) },
        Row { word: 4, name: "Cnt", form: Form::Record(218) },
        Row { word: 5, name: "Tm", form: Form::Record(8) },
        Row { word: 6, name: "Targ", form: Form::Hex },
        Row { word: 7, name: "Pad", form: Form::Flag },
    ]),
    Part::Rows("Xt", &[ // 217, `list ipt`
        Row { word: 1, name: "Table", form: Form::Text },
        Row { word: 2, name: "Hook", form: Form::Number(Number::U32) },
        Row { word: 3, name: "Index", form: Form::Number(Number::U32) },
        Row { word: 4, name: "Cnt", form: Form::Record(218) },
        Row { word: 5, name: "Tm", form: Form::Record(8) },
        Row { word: 6, name: "Targ", form: Form::Hex },
        Row { word: 7, name: "Pad", form: Form::Flag },
    ]),
    Part::Fields(&[ // 218, `struct tc_cnt`
        Field { name: "refcnt", form: Form::Number(Number::I32) },
        Field { name: "bindcnt", form: Form::Number(Number::I32) },
    ]),
    Part::Rows("", &[ // 219, `list action`: the rows of ipt
        Row { word: 32770, name: "Options", form: Form::List(216) },
    ]),
    Part::Rows("", &[ // 220, `list action`: the rows of xt
        Row { word: 32770, name: "Options", form: Form::List(217) },
    ]),
];

#[tactic(auto, unfolding(crate::specs::Parts::parts_of_actions_ipt))]
pub(crate) fn parts_of_actions_ipt() -> &'static [Part<'static>]
    ensures { map part_view result.now ≡ parts_of_actions_ipt }
{
    &PARTS_OF_ACTIONS_IPT
}

#[rattlefmt::skip]
static PARTS_OF_ACTIONS_MIRRED: [Part<'static>; 4] = [
    Part::Rows("Mirror", &[ // 240, `list mirred`
        Row { word: 1, name: "Tm", form: Form::Record(8) },
        Row { word: 2, name: "Parms", form: Form::Record(241) },
        Row { word: 3, name: "Pad", form: Form::Flag },
        Row { word: 4, name: "Blockid", form: Form::Number(Number::U32) },
    ]),
    Part::Fields(&[ // 241, `struct tc_mirred`
        Field { name: "generic", form: Form::Record(6) },
        Field { name: "eaction", form: Form::Named(Number::I32, 242) },
        Field { name: "ifindex", form: Form::Number(Number::U32) },
    ]),
    Part::Names(&[ // 242, `enum tca_mirred`
        Name { number: 1, name: "EgressRedir" },
        Name { number: 2, name: "EgressMirror" },
        Name { number: 3, name: "IngressRedir" },
        Name { number: 4, name: "IngressMirror" },
    ]),
    Part::Rows("", &[ // 243, `list action`: the rows of mirred
        Row { word: 32770, name: "Options", form: Form::List(240) },
    ]),
];

#[tactic(auto, unfolding(crate::specs::Parts::parts_of_actions_mirred))]
pub(crate) fn parts_of_actions_mirred() -> &'static [Part<'static>]
    ensures { map part_view result.now ≡ parts_of_actions_mirred }
{
    &PARTS_OF_ACTIONS_MIRRED
}

#[rattlefmt::skip]
static PARTS_OF_ACTIONS_MPLS: [Part<'static>; 4] = [
    Part::Rows("Mpls", &[ // 264, `list mpls`
        Row { word: 1, name: "Tm", form: Form::Record(8) },
        Row { word: 2, name: "Parms", form: Form::Record(265) },
        Row { word: 3, name: "Pad", form: Form::Flag },
        Row { word: 4, name: "Proto", form: Form::Number(Number::U16Be) },
        Row { word: 5, name: "Label", form: Form::Number(Number::U32) },
        Row { word: 6, name: "Tc", form: Form::Number(Number::U8) },
        Row { word: 7, name: "Ttl", form: Form::Number(Number::U8) },
        Row { word: 8, name: "Bos", form: Form::Number(Number::U8) },
    ]),
    Part::Fields(&[ // 265, `struct tc_mpls`
        Field { name: "generic", form: Form::Record(6) },
        Field { name: "m_action", form: Form::Named(Number::I32, 266) },
    ]),
    Part::Names(&[ // 266, `enum tca_mpls_act`
        Name { number: 1, name: "Pop" },
        Name { number: 2, name: "Push" },
        Name { number: 3, name: "Modify" },
        Name { number: 4, name: "DecTtl" },
        Name { number: 5, name: "MacPush" },
    ]),
    Part::Rows("", &[ // 267, `list action`: the rows of mpls
        Row { word: 32770, name: "Options", form: Form::List(264) },
    ]),
];

#[tactic(auto, unfolding(crate::specs::Parts::parts_of_actions_mpls))]
pub(crate) fn parts_of_actions_mpls() -> &'static [Part<'static>]
    ensures { map part_view result.now ≡ parts_of_actions_mpls }
{
    &PARTS_OF_ACTIONS_MPLS
}

#[rattlefmt::skip]
static PARTS_OF_ACTIONS_NAT: [Part<'static>; 3] = [
    Part::Rows("Nat", &[ // 288, `list nat`
        Row { word: 1, name: "Parms", form: Form::Record(289) },
        Row { word: 2, name: "Tm", form: Form::Record(8) },
        Row { word: 3, name: "Pad", form: Form::Flag },
    ]),
    Part::Fields(&[ // 289, `struct tc_nat`
        Field { name: "generic", form: Form::Record(6) },
        Field { name: "old_addr", form: Form::Ipv4 },
        Field { name: "new_addr", form: Form::Ipv4 },
        Field { name: "mask", form: Form::Ipv4 },
        Field { name: "flags", form: Form::Number(Number::U32) },
    ]),
    Part::Rows("", &[ // 290, `list action`: the rows of nat
        Row { word: 32770, name: "Options", form: Form::List(288) },
    ]),
];

#[tactic(auto, unfolding(crate::specs::Parts::parts_of_actions_nat))]
pub(crate) fn parts_of_actions_nat() -> &'static [Part<'static>]
    ensures { map part_view result.now ≡ parts_of_actions_nat }
{
    &PARTS_OF_ACTIONS_NAT
}

#[rattlefmt::skip]
static PARTS_OF_ACTIONS_PEDIT: [Part<'static>; 8] = [
    Part::Rows("Pedit", &[ // 312, `list pedit`
        Row { word: 1, name: "Tm", form: Form::Record(8) },
        Row { word: 2, name: "Parms", form: Form::Record(313) },
        Row { word: 3, name: "Pad", form: Form::Flag },
        Row { word: 4, name: "ParmsEx", form: Form::Record(313) },
        Row { word: 32773, name: "KeysEx", form: Form::List(315) },
    ]),
    Part::Fields(&[ // 313, `struct tc_pedit_sel`
        Field { name: "generic", form: Form::Record(6) },
        Field { name: "nkeys", form: Form::Number(Number::U8) },
        Field { name: "flags", form: Form::Number(Number::U8) },
        Field { name: "padding", form: Form::Pad(2) },
        Field { name: "keys", form: Form::Array(314) },
    ]),
    Part::Fields(&[ // 314, `struct tc_pedit_key`
        Field { name: "mask", form: Form::Number(Number::U32) },
        Field { name: "val", form: Form::Number(Number::U32) },
        Field { name: "off", form: Form::Number(Number::U32) },
        Field { name: "at", form: Form::Number(Number::U32) },
        Field { name: "offmask", form: Form::Number(Number::U32) },
        Field { name: "shift", form: Form::Number(Number::U32) },
    ]),
    Part::Rows("", &[ // 315, `list pedit_keys_ex`
        Row { word: 32774, name: "KeyEx", form: Form::List(316) },
    ]),
    Part::Rows("", &[ // 316, `list pedit_key_ex`
        Row { word: 1, name: "Htype", form: Form::Named(Number::U16, 317) },
        Row { word: 2, name: "Cmd", form: Form::Named(Number::U16, 318) },
    ]),
    Part::Names(&[ // 317, `enum pedit_header_type`
        Name { number: 0, name: "Network" },
        Name { number: 1, name: "Eth" },
        Name { number: 2, name: "Ip4" },
        Name { number: 3, name: "Ip6" },
        Name { number: 4, name: "Tcp" },
        Name { number: 5, name: "Udp" },
    ]),
    Part::Names(&[ // 318, `enum pedit_cmd`
        Name { number: 0, name: "Set" },
        Name { number: 1, name: "Add" },
    ]),
    Part::Rows("", &[ // 319, `list action`: the rows of pedit
        Row { word: 32770, name: "Options", form: Form::List(312) },
    ]),
];

#[tactic(auto, unfolding(crate::specs::Parts::parts_of_actions_pedit))]
pub(crate) fn parts_of_actions_pedit() -> &'static [Part<'static>]
    ensures { map part_view result.now ≡ parts_of_actions_pedit }
{
    &PARTS_OF_ACTIONS_PEDIT
}

#[rattlefmt::skip]
static PARTS_OF_ACTIONS_POLICE: [Part<'static>; 4] = [
    Part::Rows("", &[ // 336, `list police`
        Row { word: 1, name: "Tbf", form: Form::Record(338) },
        Row { word: 2, name: "Rate", form: Form::Hex },
        Row { word: 3, name: "Peakrate", form: Form::Hex },
        Row { word: 4, name: "Avrate", form: Form::Number(Number::U32) },
        Row { word: 5, name: "Result", form: Form::Named(Number::U32, 7) },
        Row { word: 6, name: "Tm", form: Form::Record(8) },
        Row { word: 7, name: "Pad", form: Form::Flag },
        Row { word: 8, name: "Rate64", form: Form::Number(Number::U64) },
        Row { word: 9, name: "Peakrate64", form: Form::Number(Number::U64) },
        Row { word: 10, name: "Pktrate64", form: Form::Number(Number::U64) },
        Row { word: 11, name: "Pktburst64", form: Form::Number(Number::U64) },
    ]),
    Part::Rows("Police", &[ // 337, `list police`
        Row { word: 1, name: "Tbf", form: Form::Record(338) },
        Row { word: 2, name: "Rate", form: Form::Hex },
        Row { word: 3, name: "Peakrate", form: Form::Hex },
        Row { word: 4, name: "Avrate", form: Form::Number(Number::U32) },
        Row { word: 5, name: "Result", form: Form::Named(Number::U32, 7) },
        Row { word: 6, name: "Tm", form: Form::Record(8) },
        Row { word: 7, name: "Pad", form: Form::Flag },
        Row { word: 8, name: "Rate64", form: Form::Number(Number::U64) },
        Row { word: 9, name: "Peakrate64", form: Form::Number(Number::U64) },
        Row { word: 10, name: "Pktrate64", form: Form::Number(Number::U64) },
        Row { word: 11, name: "Pktburst64", form: Form::Number(Number::U64) },
    ]),
    Part::Fields(&[ // 338, `struct tc_police`
        Field { name: "index", form: Form::Number(Number::U32) },
        Field { name: "action", form: Form::Named(Number::I32, 7) },
        Field { name: "limit", form: Form::Number(Number::U32) },
        Field { name: "burst", form: Form::Number(Number::U32) },
        Field { name: "mtu", form: Form::Number(Number::U32) },
        Field { name: "rate", form: Form::Record(1680) },
        Field { name: "peakrate", form: Form::Record(1680) },
        Field { name: "refcnt", form: Form::Number(Number::I32) },
        Field { name: "bindcnt", form: Form::Number(Number::I32) },
        Field { name: "capab", form: Form::Number(Number::U32) },
    ]),
    Part::Rows("", &[ // 339, `list action`: the rows of police
        Row { word: 32770, name: "Options", form: Form::List(337) },
    ]),
];

#[tactic(auto, unfolding(crate::specs::Parts::parts_of_actions_police))]
pub(crate) fn parts_of_actions_police() -> &'static [Part<'static>]
    ensures { map part_view result.now ≡ parts_of_actions_police }
{
    &PARTS_OF_ACTIONS_POLICE
}

#[rattlefmt::skip]
static PARTS_OF_ACTIONS_SAMPLE: [Part<'static>; 3] = [
    Part::Rows("Sample", &[ // 360, `list sample`
        Row { word: 1, name: "Tm", form: Form::Record(8) },
        Row { word: 2, name: "Parms", form: Form::Record(361) },
        Row { word: 3, name: "Rate", form: Form::Number(Number::U32) },
        Row { word: 4, name: "TruncSize", form: Form::Number(Number::U32) },
        Row { word: 5, name: "PsampleGroup", form: Form::Number(Number::U32) },
        Row { word: 6, name: "Pad", form: Form::Flag },
    ]),
    Part::Fields(&[ // 361, `struct tc_sample`
        Field { name: "generic", form: Form::Record(6) },
    ]),
    Part::Rows("", &[ // 362, `list action`: the rows of sample
        Row { word: 32770, name: "Options", form: Form::List(360) },
    ]),
];

#[tactic(auto, unfolding(crate::specs::Parts::parts_of_actions_sample))]
pub(crate) fn parts_of_actions_sample() -> &'static [Part<'static>]
    ensures { map part_view result.now ≡ parts_of_actions_sample }
{
    &PARTS_OF_ACTIONS_SAMPLE
}

#[rattlefmt::skip]
static PARTS_OF_ACTIONS_SIMPLE: [Part<'static>; 3] = [
    Part::Rows("Simple", &[ // 384, `list simple`
        Row { word: 1, name: "Tm", form: Form::Record(8) },
        Row { word: 2, name: "Parms", form: Form::Record(385) },
        Row { word: 3, name: "Data", form: Form::Hex },
        Row { word: 4, name: "Pad", form: Form::Flag },
    ]),
    Part::Fields(&[ // 385, `struct tc_defact`
        Field { name: "generic", form: Form::Record(6) },
    ]),
    Part::Rows("", &[ // 386, `list action`: the rows of simple
        Row { word: 32770, name: "Options", form: Form::List(384) },
    ]),
];

#[tactic(auto, unfolding(crate::specs::Parts::parts_of_actions_simple))]
pub(crate) fn parts_of_actions_simple() -> &'static [Part<'static>]
    ensures { map part_view result.now ≡ parts_of_actions_simple }
{
    &PARTS_OF_ACTIONS_SIMPLE
}

#[rattlefmt::skip]
static PARTS_OF_ACTIONS_SKBEDIT: [Part<'static>; 3] = [
    Part::Rows("Skbedit", &[ // 408, `list skbedit`
        Row { word: 1, name: "Tm", form: Form::Record(8) },
        Row { word: 2, name: "Parms", form: Form::Record(409) },
        Row { word: 3, name: "Priority", form: Form::Number(Number::U32) },
        Row { word: 4, name: "QueueMapping", form: Form::Number(Number::U16) },
        Row { word: 5, name: "Mark", form: Form::Number(Number::U32) },
        Row { word: 6, name: "Pad", form: Form::Flag },
        Row { word: 7, name: "Ptype", form: Form::Number(Number::U16) },
        Row { word: 8, name: "Mask", form: Form::Number(Number::U32) },
        Row { word: 9, name: "Flags", form: Form::Number(Number::U64) },
        Row { word: 10, name: "QueueMappingMax", form: Form::Number(Number::U16) },
    ]),
    Part::Fields(&[ // 409, `struct tc_skbedit`
        Field { name: "generic", form: Form::Record(6) },
    ]),
    Part::Rows("", &[ // 410, `list action`: the rows of skbedit
        Row { word: 32770, name: "Options", form: Form::List(408) },
    ]),
];

#[tactic(auto, unfolding(crate::specs::Parts::parts_of_actions_skbedit))]
pub(crate) fn parts_of_actions_skbedit() -> &'static [Part<'static>]
    ensures { map part_view result.now ≡ parts_of_actions_skbedit }
{
    &PARTS_OF_ACTIONS_SKBEDIT
}

#[rattlefmt::skip]
static PARTS_OF_ACTIONS_SKBMOD: [Part<'static>; 3] = [
    Part::Rows("Skbmod", &[ // 432, `list skbmod`
        Row { word: 1, name: "Tm", form: Form::Record(8) },
        Row { word: 2, name: "Parms", form: Form::Record(433) },
        Row { word: 3, name: "Dmac", form: Form::Mac },
        Row { word: 4, name: "Smac", form: Form::Mac },
        Row { word: 5, name: "Etype", form: Form::Number(Number::U16) },
        Row { word: 6, name: "Pad", form: Form::Flag },
    ]),
    Part::Fields(&[ // 433, `struct tc_skbmod`
        Field { name: "generic", form: Form::Record(6) },
        Field { name: "padding", form: Form::Pad(4) },
        Field { name: "flags", form: Form::Number(Number::U64) },
    ]),
    Part::Rows("", &[ // 434, `list action`: the rows of skbmod
        Row { word: 32770, name: "Options", form: Form::List(432) },
    ]),
];

#[tactic(auto, unfolding(crate::specs::Parts::parts_of_actions_skbmod))]
pub(crate) fn parts_of_actions_skbmod() -> &'static [Part<'static>]
    ensures { map part_view result.now ≡ parts_of_actions_skbmod }
{
    &PARTS_OF_ACTIONS_SKBMOD
}

#[rattlefmt::skip]
static PARTS_OF_ACTIONS_TUNNEL_KEY: [Part<'static>; 7] = [
    Part::Rows("TunnelKey", &[ // 456, `list tunnel_key`
        Row { word: 1, name: "Tm", form: Form::Record(8) },
        Row { word: 2, name: "Parms", form: Form::Record(457) },
        Row { word: 3, name: "EncIpv4Src", form: Form::Ipv4 },
        Row { word: 4, name: "EncIpv4Dst", form: Form::Ipv4 },
        Row { word: 5, name: "EncIpv6Src", form: Form::Ipv6 },
        Row { word: 6, name: "EncIpv6Dst", form: Form::Ipv6 },
        Row { word: 7, name: "EncKeyId", form: Form::Number(Number::U32Be) },
        Row { word: 8, name: "Pad", form: Form::Flag },
        Row { word: 9, name: "EncDstPort", form: Form::Number(Number::U16Be) },
        Row { word: 10, name: "NoCsum", form: Form::Truth },
        Row { word: 11, name: "EncOpts", form: Form::List(458) },
        Row { word: 12, name: "EncTos", form: Form::Number(Number::U8) },
        Row { word: 13, name: "EncTtl", form: Form::Number(Number::U8) },
        Row { word: 14, name: "NoFrag", form: Form::Flag },
    ]),
    Part::Fields(&[ // 457, `struct tc_tunnel_key`
        Field { name: "generic", form: Form::Record(6) },
        Field { name: "t_action", form: Form::Number(Number::I32) },
    ]),
    Part::Rows("", &[ // 458, `list tunnel_key_opts`
        Row { word: 1, name: "Geneve", form: Form::List(459) },
        Row { word: 32770, name: "Vxlan", form: Form::List(460) },
        Row { word: 32771, name: "Erspan", form: Form::List(461) },
    ]),
    Part::Rows("", &[ // 459, `list tunnel_key_geneve`
        Row { word: 1, name: "Class", form: Form::Number(Number::U16Be) },
        Row { word: 2, name: "Type", form: Form::Number(Number::U8) },
        Row { word: 3, name: "Data", form: Form::Hex },
    ]),
    Part::Rows("", &[ // 460, `list tunnel_key_vxlan`
        Row { word: 1, name: "Gbp", form: Form::Number(Number::U32) },
    ]),
    Part::Rows("", &[ // 461, `list tunnel_key_erspan`
        Row { word: 1, name: "Ver", form: Form::Number(Number::U8) },
        Row { word: 2, name: "Index", form: Form::Number(Number::U32Be) },
        Row { word: 3, name: "Dir", form: Form::Number(Number::U8) },
        Row { word: 4, name: "Hwid", form: Form::Number(Number::U8) },
    ]),
    Part::Rows("", &[ // 462, `list action`: the rows of tunnel_key
        Row { word: 32770, name: "Options", form: Form::List(456) },
    ]),
];

#[tactic(auto, unfolding(crate::specs::Parts::parts_of_actions_tunnel_key))]
pub(crate) fn parts_of_actions_tunnel_key() -> &'static [Part<'static>]
    ensures { map part_view result.now ≡ parts_of_actions_tunnel_key }
{
    &PARTS_OF_ACTIONS_TUNNEL_KEY
}

#[rattlefmt::skip]
static PARTS_OF_ACTIONS_VLAN: [Part<'static>; 4] = [
    Part::Rows("Vlan", &[ // 480, `list vlan`
        Row { word: 1, name: "Tm", form: Form::Record(8) },
        Row { word: 2, name: "Parms", form: Form::Record(481) },
        Row { word: 3, name: "PushVlanId", form: Form::Number(Number::U16) },
        Row { word: 4, name: "PushVlanProtocol", form: Form::Number(Number::U16Be) },
        Row { word: 5, name: "Pad", form: Form::Flag },
        Row { word: 6, name: "PushVlanPriority", form: Form::Number(Number::U8) },
        Row { word: 7, name: "PushEthDst", form: Form::Mac },
        Row { word: 8, name: "PushEthSrc", form: Form::Mac },
    ]),
    Part::Fields(&[ // 481, `struct tc_vlan`
        Field { name: "generic", form: Form::Record(6) },
        Field { name: "v_action", form: Form::Named(Number::I32, 482) },
    ]),
    Part::Names(&[ // 482, `enum tca_vlan_act`
        Name { number: 1, name: "Pop" },
        Name { number: 2, name: "Push" },
        Name { number: 3, name: "Modify" },
        Name { number: 4, name: "PopEth" },
        Name { number: 5, name: "PushEth" },
    ]),
    Part::Rows("", &[ // 483, `list action`: the rows of vlan
        Row { word: 32770, name: "Options", form: Form::List(480) },
    ]),
];

#[tactic(auto, unfolding(crate::specs::Parts::parts_of_actions_vlan))]
pub(crate) fn parts_of_actions_vlan() -> &'static [Part<'static>]
    ensures { map part_view result.now ≡ parts_of_actions_vlan }
{
    &PARTS_OF_ACTIONS_VLAN
}
