//! The parts of `kinds/filters`, in the order of their places. Written by `kinds/generate`.

ghost use Rattle.std.specs.Prelude.{map, ◌≡◌};
ghost use Rattle.forms_values.specs.Tables.{part_view};
ghost use Rattle.forms_kinds.specs.Parts.{parts_of_filters_basic, parts_of_filters_bpf, parts_of_filters_cgroup, parts_of_filters_flow};
ghost use Rattle.forms_kinds.specs.Parts.{parts_of_filters_flower, parts_of_filters_fw, parts_of_filters_matchall, parts_of_filters_route};
ghost use Rattle.forms_kinds.specs.Parts.{parts_of_filters_rsvp, parts_of_filters_tcindex, parts_of_filters_u32};

use forms_values::{Field, Form, Name, Number, Part, Row};

#[rattlefmt::skip]
static PARTS_OF_FILTERS_BASIC: [Part<'static>; 3] = [
    Part::Rows("Basic", &[ // 552, `list basic`
        Row { word: 1, name: "ClassId", form: Form::Handle },
        Row { word: 2, name: "Ematches", form: Form::List(528) },
        Row { word: 3, name: "Action", form: Form::Indexed(507) },
        Row { word: 4, name: "Police", form: Form::List(336) },
        Row { word: 5, name: "Pcnt", form: Form::Record(553) },
        Row { word: 6, name: "Pad", form: Form::Flag },
    ]),
    Part::Fields(&[ // 553, `struct tc_basic_pcnt`
        Field { name: "rcnt", form: Form::Number(Number::U64) },
        Field { name: "rhit", form: Form::Number(Number::U64) },
    ]),
    Part::Rows("", &[ // 554, `list tc`: the rows of basic
        Row { word: 2, name: "Options", form: Form::List(552) },
        Row { word: 4, name: "Xstats", form: Form::Choice(822) },
    ]),
];

#[tactic(auto, unfolding(crate::specs::Parts::parts_of_filters_basic))]
pub(crate) fn parts_of_filters_basic() -> &'static [Part<'static>]
    ensures { map part_view result.now ≡ parts_of_filters_basic }
{
    &PARTS_OF_FILTERS_BASIC
}

#[rattlefmt::skip]
static PARTS_OF_FILTERS_BPF: [Part<'static>; 2] = [
    Part::Rows("Bpf", &[ // 576, `list bpf`
        Row { word: 1, name: "Act", form: Form::Indexed(507) },
        Row { word: 2, name: "Police", form: Form::List(336) },
        Row { word: 3, name: "ClassId", form: Form::Handle },
        Row { word: 4, name: "OpsLen", form: Form::Number(Number::U16) },
        Row { word: 5, name: "Ops", form: Form::Array(1685) },
        Row { word: 6, name: "ProgFd", form: Form::Number(Number::U32) },
        Row { word: 7, name: "ProgName", form: Form::Text },
        Row { word: 8, name: "Flags", form: Form::Number(Number::U32) },
        Row { word: 9, name: "FlagsGeneric", form: Form::Number(Number::U32) },
        Row { word: 10, name: "ProgTag", form: Form::Bytes(8) },
        Row { word: 11, name: "ProgId", form: Form::Number(Number::U32) },
    ]),
    Part::Rows("", &[ // 577, `list tc`: the rows of bpf
        Row { word: 2, name: "Options", form: Form::List(576) },
        Row { word: 4, name: "Xstats", form: Form::Choice(822) },
    ]),
];

#[tactic(auto, unfolding(crate::specs::Parts::parts_of_filters_bpf))]
pub(crate) fn parts_of_filters_bpf() -> &'static [Part<'static>]
    ensures { map part_view result.now ≡ parts_of_filters_bpf }
{
    &PARTS_OF_FILTERS_BPF
}

#[rattlefmt::skip]
static PARTS_OF_FILTERS_CGROUP: [Part<'static>; 2] = [
    Part::Rows("Cgroup", &[ // 600, `list cgroup`
        Row { word: 1, name: "Action", form: Form::Indexed(507) },
        Row { word: 2, name: "Police", form: Form::List(336) },
        Row { word: 3, name: "Ematches", form: Form::List(528) },
    ]),
    Part::Rows("", &[ // 601, `list tc`: the rows of cgroup
        Row { word: 2, name: "Options", form: Form::List(600) },
        Row { word: 4, name: "Xstats", form: Form::Choice(822) },
    ]),
];

#[tactic(auto, unfolding(crate::specs::Parts::parts_of_filters_cgroup))]
pub(crate) fn parts_of_filters_cgroup() -> &'static [Part<'static>]
    ensures { map part_view result.now ≡ parts_of_filters_cgroup }
{
    &PARTS_OF_FILTERS_CGROUP
}

#[rattlefmt::skip]
static PARTS_OF_FILTERS_FLOW: [Part<'static>; 3] = [
    Part::Rows("Flow", &[ // 624, `list flow`
        Row { word: 1, name: "Keys", form: Form::Number(Number::U32) },
        Row { word: 2, name: "Mode", form: Form::Named(Number::U32, 625) },
        Row { word: 3, name: "Baseclass", form: Form::Handle },
        Row { word: 4, name: "Rshift", form: Form::Number(Number::U32) },
        Row { word: 5, name: "Addend", form: Form::Number(Number::U32) },
        Row { word: 6, name: "Mask", form: Form::Number(Number::U32) },
        Row { word: 7, name: "Xor", form: Form::Number(Number::U32) },
        Row { word: 8, name: "Divisor", form: Form::Number(Number::U32) },
        Row { word: 9, name: "Action", form: Form::Indexed(507) },
        Row { word: 10, name: "Police", form: Form::List(336) },
        Row { word: 11, name: "Ematches", form: Form::List(528) },
        Row { word: 12, name: "Perturb", form: Form::Number(Number::U32) },
    ]),
    Part::Names(&[ // 625, `enum flow_mode`
        Name { number: 0, name: "Map" },
        Name { number: 1, name: "Hash" },
    ]),
    Part::Rows("", &[ // 626, `list tc`: the rows of flow
        Row { word: 2, name: "Options", form: Form::List(624) },
        Row { word: 4, name: "Xstats", form: Form::Choice(822) },
    ]),
];

#[tactic(auto, unfolding(crate::specs::Parts::parts_of_filters_flow))]
pub(crate) fn parts_of_filters_flow() -> &'static [Part<'static>]
    ensures { map part_view result.now ≡ parts_of_filters_flow }
{
    &PARTS_OF_FILTERS_FLOW
}

#[rattlefmt::skip]
static PARTS_OF_FILTERS_FLOWER: [Part<'static>; 11] = [
    Part::Rows("Flower", &[ // 648, `list flower`
        Row { word: 1, name: "ClassId", form: Form::Handle },
        Row { word: 2, name: "InDev", form: Form::Text },
        Row { word: 3, name: "Actions", form: Form::Indexed(507) },
        Row { word: 4, name: "EthDst", form: Form::Mac },
        Row { word: 5, name: "EthDstMask", form: Form::Mac },
        Row { word: 6, name: "EthSrc", form: Form::Mac },
        Row { word: 7, name: "EthSrcMask", form: Form::Mac },
        Row { word: 8, name: "EthType", form: Form::Number(Number::U16Be) },
        Row { word: 9, name: "IpProto", form: Form::Number(Number::U8) },
        Row { word: 10, name: "Ipv4Src", form: Form::Ipv4 },
        Row { word: 11, name: "Ipv4SrcMask", form: Form::Ipv4 },
        Row { word: 12, name: "Ipv4Dst", form: Form::Ipv4 },
        Row { word: 13, name: "Ipv4DstMask", form: Form::Ipv4 },
        Row { word: 14, name: "Ipv6Src", form: Form::Ipv6 },
        Row { word: 15, name: "Ipv6SrcMask", form: Form::Ipv6 },
        Row { word: 16, name: "Ipv6Dst", form: Form::Ipv6 },
        Row { word: 17, name: "Ipv6DstMask", form: Form::Ipv6 },
        Row { word: 18, name: "TcpSrc", form: Form::Number(Number::U16Be) },
        Row { word: 19, name: "TcpDst", form: Form::Number(Number::U16Be) },
        Row { word: 20, name: "UdpSrc", form: Form::Number(Number::U16Be) },
        Row { word: 21, name: "UdpDst", form: Form::Number(Number::U16Be) },
        Row { word: 22, name: "Flags", form: Form::Number(Number::U32) },
        Row { word: 23, name: "VlanId", form: Form::Number(Number::U16) },
        Row { word: 24, name: "VlanPrio", form: Form::Number(Number::U8) },
        Row { word: 25, name: "VlanEthType", form: Form::Number(Number::U16Be) },
        Row { word: 26, name: "EncKeyId", form: Form::Number(Number::U32Be) },
        Row { word: 27, name: "EncKeyIpv4Src", form: Form::Ipv4 },
        Row { word: 28, name: "EncKeyIpv4SrcMask", form: Form::Ipv4 },
        Row { word: 29, name: "EncKeyIpv4Dst", form: Form::Ipv4 },
        Row { word: 30, name: "EncKeyIpv4DstMask", form: Form::Ipv4 },
        Row { word: 31, name: "EncKeyIpv6Src", form: Form::Ipv6 },
        Row { word: 32, name: "EncKeyIpv6SrcMask", form: Form::Ipv6 },
        Row { word: 33, name: "EncKeyIpv6Dst", form: Form::Ipv6 },
        Row { word: 34, name: "EncKeyIpv6DstMask", form: Form::Ipv6 },
        Row { word: 35, name: "TcpSrcMask", form: Form::Number(Number::U16Be) },
        Row { word: 36, name: "TcpDstMask", form: Form::Number(Number::U16Be) },
        Row { word: 37, name: "UdpSrcMask", form: Form::Number(Number::U16Be) },
        Row { word: 38, name: "UdpDstMask", form: Form::Number(Number::U16Be) },
        Row { word: 39, name: "SctpSrcMask", form: Form::Number(Number::U16Be) },
        Row { word: 40, name: "SctpDstMask", form: Form::Number(Number::U16Be) },
        Row { word: 41, name: "SctpSrc", form: Form::Number(Number::U16Be) },
        Row { word: 42, name: "SctpDst", form: Form::Number(Number::U16Be) },
        Row { word: 43, name: "EncKeyUdpSrcPort", form: Form::Number(Number::U16Be) },
        Row { word: 44, name: "EncKeyUdpSrcPortMask", form: Form::Number(Number::U16Be) },
        Row { word: 45, name: "EncKeyUdpDstPort", form: Form::Number(Number::U16Be) },
        Row { word: 46, name: "EncKeyUdpDstPortMask", form: Form::Number(Number::U16Be) },
        Row { word: 47, name: "KeyFlags", form: Form::Number(Number::U32Be) },
        Row { word: 48, name: "KeyFlagsMask", form: Form::Number(Number::U32Be) },
        Row { word: 49, name: "Icmpv4Code", form: Form::Number(Number::U8) },
        Row { word: 50, name: "Icmpv4CodeMask", form: Form::Number(Number::U8) },
        Row { word: 51, name: "Icmpv4Type", form: Form::Number(Number::U8) },
        Row { word: 52, name: "Icmpv4TypeMask", form: Form::Number(Number::U8) },
        Row { word: 53, name: "Icmpv6Code", form: Form::Number(Number::U8) },
        Row { word: 54, name: "Icmpv6CodeMask", form: Form::Number(Number::U8) },
        Row { word: 55, name: "Icmpv6Type", form: Form::Number(Number::U8) },
        Row { word: 56, name: "Icmpv6TypeMask", form: Form::Number(Number::U8) },
        Row { word: 57, name: "ArpSip", form: Form::Ipv4 },
        Row { word: 58, name: "ArpSipMask", form: Form::Ipv4 },
        Row { word: 59, name: "ArpTip", form: Form::Ipv4 },
        Row { word: 60, name: "ArpTipMask", form: Form::Ipv4 },
        Row { word: 61, name: "ArpOp", form: Form::Number(Number::U8) },
        Row { word: 62, name: "ArpOpMask", form: Form::Number(Number::U8) },
        Row { word: 63, name: "ArpSha", form: Form::Mac },
        Row { word: 64, name: "ArpShaMask", form: Form::Mac },
        Row { word: 65, name: "ArpTha", form: Form::Mac },
        Row { word: 66, name: "ArpThaMask", form: Form::Mac },
        Row { word: 67, name: "MplsTtl", form: Form::Number(Number::U8) },
        Row { word: 68, name: "MplsBos", form: Form::Number(Number::U8) },
        Row { word: 69, name: "MplsTc", form: Form::Number(Number::U8) },
        Row { word: 70, name: "MplsLabel", form: Form::Number(Number::U32) },
        Row { word: 71, name: "TcpFlags", form: Form::Number(Number::U16Be) },
        Row { word: 72, name: "TcpFlagsMask", form: Form::Number(Number::U16Be) },
        Row { word: 73, name: "IpTos", form: Form::Number(Number::U8) },
        Row { word: 74, name: "IpTosMask", form: Form::Number(Number::U8) },
        Row { word: 75, name: "IpTtl", form: Form::Number(Number::U8) },
        Row { word: 76, name: "IpTtlMask", form: Form::Number(Number::U8) },
        Row { word: 77, name: "CvlanId", form: Form::Number(Number::U16) },
        Row { word: 78, name: "CvlanPrio", form: Form::Number(Number::U8) },
        Row { word: 79, name: "CvlanEthType", form: Form::Number(Number::U16Be) },
        Row { word: 80, name: "EncKeyIpTos", form: Form::Number(Number::U8) },
        Row { word: 81, name: "EncKeyIpTosMask", form: Form::Number(Number::U8) },
        Row { word: 82, name: "EncKeyIpTtl", form: Form::Number(Number::U8) },
        Row { word: 83, name: "EncKeyIpTtlMask", form: Form::Number(Number::U8) },
        Row { word: 32852, name: "EncOpts", form: Form::List(649) },
        Row { word: 32853, name: "EncOptsMask", form: Form::List(649) },
        Row { word: 86, name: "InHwCount", form: Form::Number(Number::U32) },
        Row { word: 87, name: "PortSrcMin", form: Form::Number(Number::U16Be) },
        Row { word: 88, name: "PortSrcMax", form: Form::Number(Number::U16Be) },
        Row { word: 89, name: "PortDstMin", form: Form::Number(Number::U16Be) },
        Row { word: 90, name: "PortDstMax", form: Form::Number(Number::U16Be) },
        Row { word: 91, name: "CtState", form: Form::Number(Number::U16) },
        Row { word: 92, name: "CtStateMask", form: Form::Number(Number::U16) },
        Row { word: 93, name: "CtZone", form: Form::Number(Number::U16) },
        Row { word: 94, name: "CtZoneMask", form: Form::Number(Number::U16) },
        Row { word: 95, name: "CtMark", form: Form::Number(Number::U32) },
        Row { word: 96, name: "CtMarkMask", form: Form::Number(Number::U32) },
        Row { word: 97, name: "CtLabels", form: Form::Bytes(16) },
        Row { word: 98, name: "CtLabelsMask", form: Form::Bytes(16) },
        Row { word: 32867, name: "MplsOpts", form: Form::List(656) },
        Row { word: 100, name: "KeyHash", form: Form::Number(Number::U32) },
        Row { word: 101, name: "KeyHashMask", form: Form::Number(Number::U32) },
        Row { word: 102, name: "NumOfVlans", form: Form::Number(Number::U8) },
        Row { word: 103, name: "PppoeSid", form: Form::Number(Number::U16Be) },
        Row { word: 104, name: "PppProto", form: Form::Number(Number::U16Be) },
        Row { word: 105, name: "L2tpv3Sid", form: Form::Number(Number::U32Be) },
        Row { word: 106, name: "L2Miss", form: Form::Number(Number::U8) },
        Row { word: 32875, name: "Cfm", form: Form::List(655) },
        Row { word: 108, name: "Spi", form: Form::Number(Number::U32Be) },
        Row { word: 109, name: "SpiMask", form: Form::Number(Number::U32Be) },
        Row { word: 110, name: "EncFlags", form: Form::Number(Number::U32Be) },
        Row { word: 111, name: "EncFlagsMask", form: Form::Number(Number::U32Be) },
    ]),
    Part::Rows("", &[ // 649, `list enc_opts`
        Row { word: 32769, name: "Geneve", form: Form::List(650) },
        Row { word: 32770, name: "Vxlan", form: Form::List(651) },
        Row { word: 32771, name: "Erspan", form: Form::List(652) },
        Row { word: 32772, name: "Gtp", form: Form::List(653) },
        Row { word: 32773, name: "Pfcp", form: Form::List(654) },
    ]),
    Part::Rows("", &[ // 650, `list enc_opt_geneve`
        Row { word: 1, name: "Class", form: Form::Number(Number::U16Be) },
        Row { word: 2, name: "Type", form: Form::Number(Number::U8) },
        Row { word: 3, name: "Data", form: Form::Hex },
    ]),
    Part::Rows("", &[ // 651, `list enc_opt_vxlan`
        Row { word: 1, name: "Gbp", form: Form::Number(Number::U32) },
    ]),
    Part::Rows("", &[ // 652, `list enc_opt_erspan`
        Row { word: 1, name: "Ver", form: Form::Number(Number::U8) },
        Row { word: 2, name: "Index", form: Form::Number(Number::U32Be) },
        Row { word: 3, name: "Dir", form: Form::Number(Number::U8) },
        Row { word: 4, name: "Hwid", form: Form::Number(Number::U8) },
    ]),
    Part::Rows("", &[ // 653, `list enc_opt_gtp`
        Row { word: 1, name: "PduType", form: Form::Number(Number::U8) },
        Row { word: 2, name: "Qfi", form: Form::Number(Number::U8) },
    ]),
    Part::Rows("", &[ // 654, `list enc_opt_pfcp`
        Row { word: 1, name: "Type", form: Form::Number(Number::U8) },
        Row { word: 2, name: "Seid", form: Form::Number(Number::U64Be) },
    ]),
    Part::Rows("", &[ // 655, `list cfm`
        Row { word: 1, name: "MdLevel", form: Form::Number(Number::U8) },
        Row { word: 2, name: "Opcode", form: Form::Number(Number::U8) },
    ]),
    Part::Rows("", &[ // 656, `list mpls_opts`
        Row { word: 32769, name: "Lse", form: Form::List(657) },
    ]),
    Part::Rows("", &[ // 657, `list mpls_lse`
        Row { word: 1, name: "LseDepth", form: Form::Number(Number::U8) },
        Row { word: 2, name: "LseTtl", form: Form::Number(Number::U8) },
        Row { word: 3, name: "LseBos", form: Form::Number(Number::U8) },
        Row { word: 4, name: "LseTc", form: Form::Number(Number::U8) },
        Row { word: 5, name: "LseLabel", form: Form::Number(Number::U32) },
    ]),
    Part::Rows("", &[ // 658, `list tc`: the rows of flower
        Row { word: 2, name: "Options", form: Form::List(648) },
        Row { word: 4, name: "Xstats", form: Form::Choice(822) },
    ]),
];

#[tactic(auto, unfolding(crate::specs::Parts::parts_of_filters_flower))]
pub(crate) fn parts_of_filters_flower() -> &'static [Part<'static>]
    ensures { map part_view result.now ≡ parts_of_filters_flower }
{
    &PARTS_OF_FILTERS_FLOWER
}

#[rattlefmt::skip]
static PARTS_OF_FILTERS_FW: [Part<'static>; 2] = [
    Part::Rows("Fw", &[ // 672, `list fw`
        Row { word: 1, name: "ClassId", form: Form::Handle },
        Row { word: 2, name: "Police", form: Form::List(336) },
        Row { word: 3, name: "InDev", form: Form::Text },
        Row { word: 4, name: "Action", form: Form::Indexed(507) },
        Row { word: 5, name: "Mask", form: Form::Number(Number::U32) },
    ]),
    Part::Rows("", &[ // 673, `list tc`: the rows of fw
        Row { word: 2, name: "Options", form: Form::List(672) },
        Row { word: 4, name: "Xstats", form: Form::Choice(822) },
    ]),
];

#[tactic(auto, unfolding(crate::specs::Parts::parts_of_filters_fw))]
pub(crate) fn parts_of_filters_fw() -> &'static [Part<'static>]
    ensures { map part_view result.now ≡ parts_of_filters_fw }
{
    &PARTS_OF_FILTERS_FW
}

#[rattlefmt::skip]
static PARTS_OF_FILTERS_MATCHALL: [Part<'static>; 3] = [
    Part::Rows("MatchAll", &[ // 696, `list matchall`
        Row { word: 1, name: "ClassId", form: Form::Handle },
        Row { word: 2, name: "Action", form: Form::Indexed(507) },
        Row { word: 3, name: "Flags", form: Form::Number(Number::U32) },
        Row { word: 4, name: "Pnct", form: Form::Record(697) },
        Row { word: 5, name: "Pad", form: Form::Flag },
    ]),
    Part::Fields(&[ // 697, `struct tc_matchall_pcnt`
        Field { name: "rhit", form: Form::Number(Number::U64) },
    ]),
    Part::Rows("", &[ // 698, `list tc`: the rows of matchall
        Row { word: 2, name: "Options", form: Form::List(696) },
        Row { word: 4, name: "Xstats", form: Form::Choice(822) },
    ]),
];

#[tactic(auto, unfolding(crate::specs::Parts::parts_of_filters_matchall))]
pub(crate) fn parts_of_filters_matchall() -> &'static [Part<'static>]
    ensures { map part_view result.now ≡ parts_of_filters_matchall }
{
    &PARTS_OF_FILTERS_MATCHALL
}

#[rattlefmt::skip]
static PARTS_OF_FILTERS_ROUTE: [Part<'static>; 2] = [
    Part::Rows("Route", &[ // 720, `list route`
        Row { word: 1, name: "ClassId", form: Form::Handle },
        Row { word: 2, name: "To", form: Form::Number(Number::U32) },
        Row { word: 3, name: "From", form: Form::Number(Number::U32) },
        Row { word: 4, name: "Iif", form: Form::Number(Number::U32) },
        Row { word: 5, name: "Police", form: Form::List(336) },
        Row { word: 6, name: "Action", form: Form::Indexed(507) },
    ]),
    Part::Rows("", &[ // 721, `list tc`: the rows of route
        Row { word: 2, name: "Options", form: Form::List(720) },
        Row { word: 4, name: "Xstats", form: Form::Choice(822) },
    ]),
];

#[tactic(auto, unfolding(crate::specs::Parts::parts_of_filters_route))]
pub(crate) fn parts_of_filters_route() -> &'static [Part<'static>]
    ensures { map part_view result.now ≡ parts_of_filters_route }
{
    &PARTS_OF_FILTERS_ROUTE
}

#[rattlefmt::skip]
static PARTS_OF_FILTERS_RSVP: [Part<'static>; 6] = [
    Part::Rows("Rsvp", &[ // 744, `list rsvp`
        Row { word: 1, name: "ClassId", form: Form::Handle },
        Row { word: 2, name: "Dst", form: Form::Ipv4 },
        Row { word: 3, name: "Src", form: Form::Ipv4 },
        Row { word: 4, name: "Pinfo", form: Form::Record(746) },
        Row { word: 5, name: "Police", form: Form::List(336) },
        Row { word: 6, name: "Action", form: Form::Indexed(507) },
    ]),
    Part::Rows("Rsvp6", &[ // 745, `list rsvp6`
        Row { word: 1, name: "ClassId", form: Form::Handle },
        Row { word: 2, name: "Dst", form: Form::Ipv6 },
        Row { word: 3, name: "Src", form: Form::Ipv6 },
        Row { word: 4, name: "Pinfo", form: Form::Record(746) },
        Row { word: 5, name: "Police", form: Form::List(336) },
        Row { word: 6, name: "Action", form: Form::Indexed(507) },
    ]),
    Part::Fields(&[ // 746, `struct tc_rsvp_pinfo`
        Field { name: "dpi", form: Form::Record(747) },
        Field { name: "spi", form: Form::Record(747) },
        Field { name: "protocol", form: Form::Number(Number::U8) },
        Field { name: "tunnelid", form: Form::Number(Number::U8) },
        Field { name: "tunnelhdr", form: Form::Number(Number::U8) },
        Field { name: "pad", form: Form::Pad(1) },
    ]),
    Part::Fields(&[ // 747, `struct tc_rsvp_gpi`
        Field { name: "key", form: Form::Number(Number::U32) },
        Field { name: "mask", form: Form::Number(Number::U32) },
        Field { name: "offset", form: Form::Number(Number::I32) },
    ]),
    Part::Rows("", &[ // 748, `list tc`: the rows of rsvp
        Row { word: 2, name: "Options", form: Form::List(744) },
        Row { word: 4, name: "Xstats", form: Form::Choice(822) },
    ]),
    Part::Rows("", &[ // 749, `list tc`: the rows of rsvp6
        Row { word: 2, name: "Options", form: Form::List(745) },
        Row { word: 4, name: "Xstats", form: Form::Choice(822) },
    ]),
];

#[tactic(auto, unfolding(crate::specs::Parts::parts_of_filters_rsvp))]
pub(crate) fn parts_of_filters_rsvp() -> &'static [Part<'static>]
    ensures { map part_view result.now ≡ parts_of_filters_rsvp }
{
    &PARTS_OF_FILTERS_RSVP
}

#[rattlefmt::skip]
static PARTS_OF_FILTERS_TCINDEX: [Part<'static>; 2] = [
    Part::Rows("Tcindex", &[ // 768, `list tcindex`
        Row { word: 1, name: "Hash", form: Form::Number(Number::U32) },
        Row { word: 2, name: "Mask", form: Form::Number(Number::U16) },
        Row { word: 3, name: "Shift", form: Form::Number(Number::U32) },
        Row { word: 4, name: "FallThrough", form: Form::Number(Number::U32) },
        Row { word: 5, name: "ClassId", form: Form::Handle },
        Row { word: 6, name: "Police", form: Form::List(336) },
        Row { word: 7, name: "Action", form: Form::Indexed(507) },
    ]),
    Part::Rows("", &[ // 769, `list tc`: the rows of tcindex
        Row { word: 2, name: "Options", form: Form::List(768) },
        Row { word: 4, name: "Xstats", form: Form::Choice(822) },
    ]),
];

#[tactic(auto, unfolding(crate::specs::Parts::parts_of_filters_tcindex))]
pub(crate) fn parts_of_filters_tcindex() -> &'static [Part<'static>]
    ensures { map part_view result.now ≡ parts_of_filters_tcindex }
{
    &PARTS_OF_FILTERS_TCINDEX
}

#[rattlefmt::skip]
static PARTS_OF_FILTERS_U32: [Part<'static>; 6] = [
    Part::Rows("U32", &[ // 792, `list u32`
        Row { word: 1, name: "ClassId", form: Form::Handle },
        Row { word: 2, name: "Hash", form: Form::Number(Number::U32) },
        Row { word: 3, name: "Link", form: Form::Number(Number::U32) },
        Row { word: 4, name: "Divisor", form: Form::Number(Number::U32) },
        Row { word: 5, name: "Selector", form: Form::Record(793) },
        Row { word: 6, name: "Police", form: Form::List(336) },
        Row { word: 7, name: "Action", form: Form::Indexed(507) },
        Row { word: 8, name: "Indev", form: Form::Text },
        Row { word: 9, name: "Pnct", form: Form::Record(795) },
        Row { word: 10, name: "Mark", form: Form::Record(796) },
        Row { word: 11, name: "Flags", form: Form::Number(Number::U32) },
        Row { word: 12, name: "Pad", form: Form::Flag },
    ]),
    Part::Fields(&[ // 793, `struct tc_u32_sel`
        Field { name: "flags", form: Form::Number(Number::U8) },
        Field { name: "offshift", form: Form::Number(Number::U8) },
        Field { name: "nkeys", form: Form::Number(Number::U8) },
        Field { name: "padding", form: Form::Pad(1) },
        Field { name: "offmask", form: Form::Number(Number::U16Be) },
        Field { name: "off", form: Form::Number(Number::U16) },
        Field { name: "offoff", form: Form::Number(Number::I16) },
        Field { name: "hoff", form: Form::Number(Number::I16) },
        Field { name: "hmask", form: Form::Number(Number::U32Be) },
        Field { name: "keys", form: Form::Array(794) },
    ]),
    Part::Fields(&[ // 794, `struct tc_u32_key`
        Field { name: "mask", form: Form::Number(Number::U32Be) },
        Field { name: "val", form: Form::Number(Number::U32Be) },
        Field { name: "off", form: Form::Number(Number::I32) },
        Field { name: "offmask", form: Form::Number(Number::I32) },
    ]),
    Part::Fields(&[ // 795, `struct tc_u32_pcnt`
        Field { name: "rcnt", form: Form::Number(Number::U64) },
        Field { name: "rhit", form: Form::Number(Number::U64) },
        Field { name: "kcnts", form: Form::Array(508) },
    ]),
    Part::Fields(&[ // 796, `struct tc_u32_mark`
        Field { name: "val", form: Form::Number(Number::U32) },
        Field { name: "mask", form: Form::Number(Number::U32) },
        Field { name: "success", form: Form::Number(Number::U32) },
    ]),
    Part::Rows("", &[ // 797, `list tc`: the rows of u32
        Row { word: 2, name: "Options", form: Form::List(792) },
        Row { word: 4, name: "Xstats", form: Form::Choice(822) },
    ]),
];

#[tactic(auto, unfolding(crate::specs::Parts::parts_of_filters_u32))]
pub(crate) fn parts_of_filters_u32() -> &'static [Part<'static>]
    ensures { map part_view result.now ≡ parts_of_filters_u32 }
{
    &PARTS_OF_FILTERS_U32
}
