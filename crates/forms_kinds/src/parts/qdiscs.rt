//! The parts of `kinds/qdiscs`, in the order of their places. Written by `kinds/generate`.

ghost use Rattle.std.specs.Prelude.{map, ◌≡◌};
ghost use Rattle.forms_values.specs.Tables.{part_view};
ghost use Rattle.forms_kinds.specs.Parts.{parts_of_qdiscs_atm, parts_of_qdiscs_cake, parts_of_qdiscs_cake_mq, parts_of_qdiscs_cbq, parts_of_qdiscs_cbs};
ghost use Rattle.forms_kinds.specs.Parts.{parts_of_qdiscs_choke, parts_of_qdiscs_codel, parts_of_qdiscs_drr, parts_of_qdiscs_dsmark};
ghost use Rattle.forms_kinds.specs.Parts.{parts_of_qdiscs_dualpi2, parts_of_qdiscs_etf, parts_of_qdiscs_ets, parts_of_qdiscs_fifo, parts_of_qdiscs_fq};
ghost use Rattle.forms_kinds.specs.Parts.{parts_of_qdiscs_fq_codel, parts_of_qdiscs_fq_pie, parts_of_qdiscs_gred, parts_of_qdiscs_hfsc};
ghost use Rattle.forms_kinds.specs.Parts.{parts_of_qdiscs_hhf, parts_of_qdiscs_htb, parts_of_qdiscs_ingress, parts_of_qdiscs_mqprio};
ghost use Rattle.forms_kinds.specs.Parts.{parts_of_qdiscs_multiq, parts_of_qdiscs_netem, parts_of_qdiscs_none, parts_of_qdiscs_pie};
ghost use Rattle.forms_kinds.specs.Parts.{parts_of_qdiscs_plug, parts_of_qdiscs_prio, parts_of_qdiscs_qfq, parts_of_qdiscs_red, parts_of_qdiscs_sfb};
ghost use Rattle.forms_kinds.specs.Parts.{parts_of_qdiscs_sfq, parts_of_qdiscs_skbprio, parts_of_qdiscs_taprio, parts_of_qdiscs_tbf};

use forms_values::{Choice, Field, Form, Name, Number, Part, Row};

#[rattlefmt::skip]
static PARTS_OF_QDISCS_ATM: [Part<'static>; 2] = [
    Part::Rows("Atm", &[ // 840, `list atm`
        Row { word: 1, name: "Fd", form: Form::Number(Number::U32) },
        Row { word: 2, name: "Ptr", form: Form::Hex },
        Row { word: 3, name: "Hdr", form: Form::Array(509) },
        Row { word: 4, name: "Excess", form: Form::Number(Number::U32) },
        Row { word: 5, name: "Addr", form: Form::Hex },
        Row { word: 6, name: "State", form: Form::Number(Number::U32) },
    ]),
    Part::Rows("", &[ // 841, `list tc`: the rows of atm
        Row { word: 2, name: "Options", form: Form::List(840) },
        Row { word: 4, name: "Xstats", form: Form::Choice(822) },
    ]),
];

#[tactic(auto, unfolding(crate::specs::Parts::parts_of_qdiscs_atm))]
pub(crate) fn parts_of_qdiscs_atm() -> &'static [Part<'static>]
    ensures { map part_view result.now ≡ parts_of_qdiscs_atm }
{
    &PARTS_OF_QDISCS_ATM
}

#[rattlefmt::skip]
static PARTS_OF_QDISCS_CAKE: [Part<'static>; 11] = [
    Part::Rows("Cake", &[ // 864, `list cake`
        Row { word: 1, name: "Pad", form: Form::Flag },
        Row { word: 2, name: "BaseRate64", form: Form::Number(Number::U64) },
        Row { word: 3, name: "DiffservMode", form: Form::Named(Number::U32, 868) },
        Row { word: 4, name: "Atm", form: Form::Named(Number::U32, 869) },
        Row { word: 5, name: "FlowMode", form: Form::Named(Number::U32, 870) },
        Row { word: 6, name: "Overhead", form: Form::Number(Number::I32) },
        Row { word: 7, name: "Rtt", form: Form::Number(Number::U32) },
        Row { word: 8, name: "Target", form: Form::Number(Number::U32) },
        Row { word: 9, name: "Autorate", form: Form::Number(Number::U32) },
        Row { word: 10, name: "Memory", form: Form::Number(Number::U32) },
        Row { word: 11, name: "Nat", form: Form::Number(Number::U32) },
        Row { word: 12, name: "Raw", form: Form::Number(Number::U32) },
        Row { word: 13, name: "Wash", form: Form::Number(Number::U32) },
        Row { word: 14, name: "Mpu", form: Form::Number(Number::U32) },
        Row { word: 15, name: "Ingress", form: Form::Number(Number::U32) },
        Row { word: 16, name: "AckFilter", form: Form::Named(Number::U32, 871) },
        Row { word: 17, name: "SplitGso", form: Form::Number(Number::U32) },
        Row { word: 18, name: "Fwmark", form: Form::Number(Number::U32) },
    ]),
    Part::Rows("CakeMq", &[ // 865, `list cake`
        Row { word: 1, name: "Pad", form: Form::Flag },
        Row { word: 2, name: "BaseRate64", form: Form::Number(Number::U64) },
        Row { word: 3, name: "DiffservMode", form: Form::Named(Number::U32, 868) },
        Row { word: 4, name: "Atm", form: Form::Named(Number::U32, 869) },
        Row { word: 5, name: "FlowMode", form: Form::Named(Number::U32, 870) },
        Row { word: 6, name: "Overhead", form: Form::Number(Number::I32) },
        Row { word: 7, name: "Rtt", form: Form::Number(Number::U32) },
        Row { word: 8, name: "Target", form: Form::Number(Number::U32) },
        Row { word: 9, name: "Autorate", form: Form::Number(Number::U32) },
        Row { word: 10, name: "Memory", form: Form::Number(Number::U32) },
        Row { word: 11, name: "Nat", form: Form::Number(Number::U32) },
        Row { word: 12, name: "Raw", form: Form::Number(Number::U32) },
        Row { word: 13, name: "Wash", form: Form::Number(Number::U32) },
        Row { word: 14, name: "Mpu", form: Form::Number(Number::U32) },
        Row { word: 15, name: "Ingress", form: Form::Number(Number::U32) },
        Row { word: 16, name: "AckFilter", form: Form::Named(Number::U32, 871) },
        Row { word: 17, name: "SplitGso", form: Form::Number(Number::U32) },
        Row { word: 18, name: "Fwmark", form: Form::Number(Number::U32) },
    ]),
    Part::Rows("", &[ // 866, `list cake_stats`
        Row { word: 1, name: "Pad", form: Form::Flag },
        Row { word: 2, name: "CapacityEstimate64", form: Form::Number(Number::U64) },
        Row { word: 3, name: "MemoryLimit", form: Form::Number(Number::U32) },
        Row { word: 4, name: "MemoryUsed", form: Form::Number(Number::U32) },
        Row { word: 5, name: "AvgNetoff", form: Form::Number(Number::U32) },
        Row { word: 6, name: "MinNetlen", form: Form::Number(Number::U32) },
        Row { word: 7, name: "MaxNetlen", form: Form::Number(Number::U32) },
        Row { word: 8, name: "MinAdjlen", form: Form::Number(Number::U32) },
        Row { word: 9, name: "MaxAdjlen", form: Form::Number(Number::U32) },
        Row { word: 10, name: "TinStats", form: Form::Indexed(510) },
        Row { word: 11, name: "Deficit", form: Form::Number(Number::I32) },
        Row { word: 12, name: "CobaltCount", form: Form::Number(Number::U32) },
        Row { word: 13, name: "Dropping", form: Form::Number(Number::U32) },
        Row { word: 14, name: "DropNextUs", form: Form::Number(Number::I32) },
        Row { word: 15, name: "PDrop", form: Form::Number(Number::U32) },
        Row { word: 16, name: "BlueTimerUs", form: Form::Number(Number::I32) },
        Row { word: 17, name: "ActiveQueues", form: Form::Number(Number::U32) },
    ]),
    Part::Rows("", &[ // 867, `list cake_tin_stats`
        Row { word: 1, name: "Pad", form: Form::Flag },
        Row { word: 2, name: "SentPackets", form: Form::Number(Number::U32) },
        Row { word: 3, name: "SentBytes64", form: Form::Number(Number::U64) },
        Row { word: 4, name: "DroppedPackets", form: Form::Number(Number::U32) },
        Row { word: 5, name: "DroppedBytes64", form: Form::Number(Number::U64) },
        Row { word: 6, name: "AcksDroppedPackets", form: Form::Number(Number::U32) },
        Row { word: 7, name: "AcksDroppedBytes64", form: Form::Number(Number::U64) },
        Row { word: 8, name: "EcnMarkedPackets", form: Form::Number(Number::U32) },
        Row { word: 9, name: "EcnMarkedBytes64", form: Form::Number(Number::U64) },
        Row { word: 10, name: "BacklogPackets", form: Form::Number(Number::U32) },
        Row { word: 11, name: "BacklogBytes", form: Form::Number(Number::U32) },
        Row { word: 12, name: "ThresholdRate64", form: Form::Number(Number::U64) },
        Row { word: 13, name: "TargetUs", form: Form::Number(Number::U32) },
        Row { word: 14, name: "IntervalUs", form: Form::Number(Number::U32) },
        Row { word: 15, name: "WayIndirectHits", form: Form::Number(Number::U32) },
        Row { word: 16, name: "WayMisses", form: Form::Number(Number::U32) },
        Row { word: 17, name: "WayCollisions", form: Form::Number(Number::U32) },
        Row { word: 18, name: "PeakDelayUs", form: Form::Number(Number::U32) },
        Row { word: 19, name: "AvgDelayUs", form: Form::Number(Number::U32) },
        Row { word: 20, name: "BaseDelayUs", form: Form::Number(Number::U32) },
        Row { word: 21, name: "SparseFlows", form: Form::Number(Number::U32) },
        Row { word: 22, name: "BulkFlows", form: Form::Number(Number::U32) },
        Row { word: 23, name: "UnresponsiveFlows", form: Form::Number(Number::U32) },
        Row { word: 24, name: "MaxSkblen", form: Form::Number(Number::U32) },
        Row { word: 25, name: "FlowQuantum", form: Form::Number(Number::U32) },
    ]),
    Part::Names(&[ // 868, `enum cake_diffserv`
        Name { number: 0, name: "Diffserv3" },
        Name { number: 1, name: "Diffserv4" },
        Name { number: 2, name: "Diffserv8" },
        Name { number: 3, name: "Besteffort" },
        Name { number: 4, name: "Precedence" },
    ]),
    Part::Names(&[ // 869, `enum cake_atm`
        Name { number: 0, name: "None" },
        Name { number: 1, name: "Atm" },
        Name { number: 2, name: "Ptm" },
    ]),
    Part::Names(&[ // 870, `enum cake_flow`
        Name { number: 0, name: "None" },
        Name { number: 1, name: "SrcIp" },
        Name { number: 2, name: "DstIp" },
        Name { number: 3, name: "Hosts" },
        Name { number: 4, name: "Flows" },
        Name { number: 5, name: "DualSrc" },
        Name { number: 6, name: "DualDst" },
        Name { number: 7, name: "Triple" },
    ]),
    Part::Names(&[ // 871, `enum cake_ack`
        Name { number: 0, name: "None" },
        Name { number: 1, name: "Filter" },
        Name { number: 2, name: "Aggressive" },
    ]),
    Part::Fields(&[ // 872, the statistics of cake
        Field { name: "Cake", form: Form::List(866) },
    ]),
    Part::Rows("", &[ // 873, `list tc`: the rows of cake
        Row { word: 2, name: "Options", form: Form::List(864) },
        Row { word: 4, name: "Xstats", form: Form::Record(872) },
    ]),
    Part::Rows("", &[ // 874, `list stats`: the rows of cake
        Row { word: 4, name: "App", form: Form::Record(872) },
    ]),
];

#[tactic(auto, unfolding(crate::specs::Parts::parts_of_qdiscs_cake))]
pub(crate) fn parts_of_qdiscs_cake() -> &'static [Part<'static>]
    ensures { map part_view result.now ≡ parts_of_qdiscs_cake }
{
    &PARTS_OF_QDISCS_CAKE
}

#[rattlefmt::skip]
static PARTS_OF_QDISCS_CAKE_MQ: [Part<'static>; 1] = [
    Part::Rows("", &[ // 888, `list tc`: the rows of cake_mq
        Row { word: 2, name: "Options", form: Form::List(865) },
        Row { word: 4, name: "Xstats", form: Form::Choice(822) },
    ]),
];

#[tactic(auto, unfolding(crate::specs::Parts::parts_of_qdiscs_cake_mq))]
pub(crate) fn parts_of_qdiscs_cake_mq() -> &'static [Part<'static>]
    ensures { map part_view result.now ≡ parts_of_qdiscs_cake_mq }
{
    &PARTS_OF_QDISCS_CAKE_MQ
}

#[rattlefmt::skip]
static PARTS_OF_QDISCS_CBQ: [Part<'static>; 10] = [
    Part::Rows("Cbq", &[ // 912, `list cbq`
        Row { word: 1, name: "Lssopt", form: Form::Record(914) },
        Row { word: 2, name: "Wrropt", form: Form::Record(915) },
        Row { word: 3, name: "Fopt", form: Form::Record(916) },
        Row { word: 4, name: "OvlStrategy", form: Form::Record(917) },
        Row { word: 5, name: "Rate", form: Form::Record(1680) },
        Row { word: 6, name: "Rtab", form: Form::Hex },
        Row { word: 7, name: "Police", form: Form::Record(918) },
    ]),
    Part::Fields(&[ // 913, `struct tc_cbq_xstats`
        Field { name: "borrows", form: Form::Number(Number::U32) },
        Field { name: "overactions", form: Form::Number(Number::U32) },
        Field { name: "avgidle", form: Form::Number(Number::I32) },
        Field { name: "undertime", form: Form::Number(Number::I32) },
    ]),
    Part::Fields(&[ // 914, `struct tc_cbq_lssopt`
        Field { name: "change", form: Form::Number(Number::U8) },
        Field { name: "flags", form: Form::Number(Number::U8) },
        Field { name: "ewma_log", form: Form::Number(Number::U8) },
        Field { name: "level", form: Form::Number(Number::U8) },
        Field { name: "maxidle", form: Form::Number(Number::U32) },
        Field { name: "minidle", form: Form::Number(Number::U32) },
        Field { name: "offtime", form: Form::Number(Number::U32) },
        Field { name: "avpkt", form: Form::Number(Number::U32) },
    ]),
    Part::Fields(&[ // 915, `struct tc_cbq_wrropt`
        Field { name: "flags", form: Form::Number(Number::U8) },
        Field { name: "priority", form: Form::Number(Number::U8) },
        Field { name: "cpriority", form: Form::Number(Number::U8) },
        Field { name: "__reserved", form: Form::Pad(1) },
        Field { name: "allot", form: Form::Number(Number::U32) },
        Field { name: "weight", form: Form::Number(Number::U32) },
    ]),
    Part::Fields(&[ // 916, `struct tc_cbq_fopt`
        Field { name: "split", form: Form::Number(Number::U32) },
        Field { name: "defmap", form: Form::Number(Number::U32) },
        Field { name: "defchange", form: Form::Number(Number::U32) },
    ]),
    Part::Fields(&[ // 917, `struct tc_cbq_ovl`
        Field { name: "strategy", form: Form::Number(Number::U8) },
        Field { name: "priority2", form: Form::Number(Number::U8) },
        Field { name: "pad", form: Form::Pad(2) },
        Field { name: "penalty", form: Form::Number(Number::U32) },
    ]),
    Part::Fields(&[ // 918, `struct tc_cbq_police`
        Field { name: "police", form: Form::Number(Number::U8) },
        Field { name: "__res1", form: Form::Pad(1) },
        Field { name: "__res2", form: Form::Pad(2) },
    ]),
    Part::Fields(&[ // 919, the statistics of cbq
        Field { name: "Cbq", form: Form::Record(913) },
    ]),
    Part::Rows("", &[ // 920, `list tc`: the rows of cbq
        Row { word: 2, name: "Options", form: Form::List(912) },
        Row { word: 4, name: "Xstats", form: Form::Record(919) },
    ]),
    Part::Rows("", &[ // 921, `list stats`: the rows of cbq
        Row { word: 4, name: "App", form: Form::Record(919) },
    ]),
];

#[tactic(auto, unfolding(crate::specs::Parts::parts_of_qdiscs_cbq))]
pub(crate) fn parts_of_qdiscs_cbq() -> &'static [Part<'static>]
    ensures { map part_view result.now ≡ parts_of_qdiscs_cbq }
{
    &PARTS_OF_QDISCS_CBQ
}

#[rattlefmt::skip]
static PARTS_OF_QDISCS_CBS: [Part<'static>; 3] = [
    Part::Rows("Cbs", &[ // 936, `list cbs`
        Row { word: 1, name: "Parms", form: Form::Record(937) },
    ]),
    Part::Fields(&[ // 937, `struct tc_cbs_qopt`
        Field { name: "offload", form: Form::Number(Number::U8) },
        Field { name: "_pad", form: Form::Pad(3) },
        Field { name: "hicredit", form: Form::Number(Number::I32) },
        Field { name: "locredit", form: Form::Number(Number::I32) },
        Field { name: "idleslope", form: Form::Number(Number::I32) },
        Field { name: "sendslope", form: Form::Number(Number::I32) },
    ]),
    Part::Rows("", &[ // 938, `list tc`: the rows of cbs
        Row { word: 2, name: "Options", form: Form::List(936) },
        Row { word: 4, name: "Xstats", form: Form::Choice(822) },
    ]),
];

#[tactic(auto, unfolding(crate::specs::Parts::parts_of_qdiscs_cbs))]
pub(crate) fn parts_of_qdiscs_cbs() -> &'static [Part<'static>]
    ensures { map part_view result.now ≡ parts_of_qdiscs_cbs }
{
    &PARTS_OF_QDISCS_CBS
}

#[rattlefmt::skip]
static PARTS_OF_QDISCS_CHOKE: [Part<'static>; 6] = [
    Part::Rows("Choke", &[ // 960, `list choke`
        Row { word: 1, name: "Parms", form: Form::Record(961) },
        Row { word: 2, name: "Stab", form: Form::Hex },
        Row { word: 3, name: "MaxP", form: Form::Number(Number::U32) },
    ]),
    Part::Fields(&[ // 961, `struct tc_red_qopt_packets`
        Field { name: "limit", form: Form::Number(Number::U32) },
        Field { name: "qth_min", form: Form::Number(Number::U32) },
        Field { name: "qth_max", form: Form::Number(Number::U32) },
        Field { name: "Wlog", form: Form::Number(Number::U8) },
        Field { name: "Plog", form: Form::Number(Number::U8) },
        Field { name: "Scell_log", form: Form::Number(Number::U8) },
        Field { name: "flags", form: Form::Number(Number::U8) },
    ]),
    Part::Fields(&[ // 962, `struct tc_choke_xstats`
        Field { name: "early", form: Form::Number(Number::U32) },
        Field { name: "pdrop", form: Form::Number(Number::U32) },
        Field { name: "other", form: Form::Number(Number::U32) },
        Field { name: "marked", form: Form::Number(Number::U32) },
        Field { name: "matched", form: Form::Number(Number::U32) },
    ]),
    Part::Fields(&[ // 963, the statistics of choke
        Field { name: "Choke", form: Form::Record(962) },
    ]),
    Part::Rows("", &[ // 964, `list tc`: the rows of choke
        Row { word: 2, name: "Options", form: Form::List(960) },
        Row { word: 4, name: "Xstats", form: Form::Record(963) },
    ]),
    Part::Rows("", &[ // 965, `list stats`: the rows of choke
        Row { word: 4, name: "App", form: Form::Record(963) },
    ]),
];

#[tactic(auto, unfolding(crate::specs::Parts::parts_of_qdiscs_choke))]
pub(crate) fn parts_of_qdiscs_choke() -> &'static [Part<'static>]
    ensures { map part_view result.now ≡ parts_of_qdiscs_choke }
{
    &PARTS_OF_QDISCS_CHOKE
}

#[rattlefmt::skip]
static PARTS_OF_QDISCS_CODEL: [Part<'static>; 5] = [
    Part::Rows("Codel", &[ // 984, `list codel`
        Row { word: 1, name: "Target", form: Form::Number(Number::U32) },
        Row { word: 2, name: "Limit", form: Form::Number(Number::U32) },
        Row { word: 3, name: "Interval", form: Form::Number(Number::U32) },
        Row { word: 4, name: "Ecn", form: Form::Number(Number::U32) },
        Row { word: 5, name: "CeThreshold", form: Form::Number(Number::U32) },
    ]),
    Part::Fields(&[ // 985, `struct tc_codel_xstats`
        Field { name: "maxpacket", form: Form::Number(Number::U32) },
        Field { name: "count", form: Form::Number(Number::U32) },
        Field { name: "lastcount", form: Form::Number(Number::U32) },
        Field { name: "ldelay", form: Form::Number(Number::U32) },
        Field { name: "drop_next", form: Form::Number(Number::I32) },
        Field { name: "drop_overlimit", form: Form::Number(Number::U32) },
        Field { name: "ecn_mark", form: Form::Number(Number::U32) },
        Field { name: "dropping", form: Form::Number(Number::U32) },
        Field { name: "ce_mark", form: Form::Number(Number::U32) },
    ]),
    Part::Fields(&[ // 986, the statistics of codel
        Field { name: "Codel", form: Form::Record(985) },
    ]),
    Part::Rows("", &[ // 987, `list tc`: the rows of codel
        Row { word: 2, name: "Options", form: Form::List(984) },
        Row { word: 4, name: "Xstats", form: Form::Record(986) },
    ]),
    Part::Rows("", &[ // 988, `list stats`: the rows of codel
        Row { word: 4, name: "App", form: Form::Record(986) },
    ]),
];

#[tactic(auto, unfolding(crate::specs::Parts::parts_of_qdiscs_codel))]
pub(crate) fn parts_of_qdiscs_codel() -> &'static [Part<'static>]
    ensures { map part_view result.now ≡ parts_of_qdiscs_codel }
{
    &PARTS_OF_QDISCS_CODEL
}

#[rattlefmt::skip]
static PARTS_OF_QDISCS_DRR: [Part<'static>; 5] = [
    Part::Rows("Drr", &[ // 1008, `list drr`
        Row { word: 1, name: "Quantum", form: Form::Number(Number::U32) },
    ]),
    Part::Fields(&[ // 1009, `struct tc_drr_stats`
        Field { name: "deficit", form: Form::Number(Number::U32) },
    ]),
    Part::Fields(&[ // 1010, the statistics of drr
        Field { name: "Drr", form: Form::Record(1009) },
    ]),
    Part::Rows("", &[ // 1011, `list tc`: the rows of drr
        Row { word: 2, name: "Options", form: Form::List(1008) },
        Row { word: 4, name: "Xstats", form: Form::Record(1010) },
    ]),
    Part::Rows("", &[ // 1012, `list stats`: the rows of drr
        Row { word: 4, name: "App", form: Form::Record(1010) },
    ]),
];

#[tactic(auto, unfolding(crate::specs::Parts::parts_of_qdiscs_drr))]
pub(crate) fn parts_of_qdiscs_drr() -> &'static [Part<'static>]
    ensures { map part_view result.now ≡ parts_of_qdiscs_drr }
{
    &PARTS_OF_QDISCS_DRR
}

#[rattlefmt::skip]
static PARTS_OF_QDISCS_DSMARK: [Part<'static>; 2] = [
    Part::Rows("Dsmark", &[ // 1032, `list dsmark`
        Row { word: 1, name: "Indices", form: Form::Number(Number::U16) },
        Row { word: 2, name: "DefaultIndex", form: Form::Number(Number::U16) },
        Row { word: 3, name: "SetTcIndex", form: Form::Flag },
        Row { word: 4, name: "Mask", form: Form::Number(Number::U8) },
        Row { word: 5, name: "Value", form: Form::Number(Number::U8) },
    ]),
    Part::Rows("", &[ // 1033, `list tc`: the rows of dsmark
        Row { word: 2, name: "Options", form: Form::List(1032) },
        Row { word: 4, name: "Xstats", form: Form::Choice(822) },
    ]),
];

#[tactic(auto, unfolding(crate::specs::Parts::parts_of_qdiscs_dsmark))]
pub(crate) fn parts_of_qdiscs_dsmark() -> &'static [Part<'static>]
    ensures { map part_view result.now ≡ parts_of_qdiscs_dsmark }
{
    &PARTS_OF_QDISCS_DSMARK
}

#[rattlefmt::skip]
static PARTS_OF_QDISCS_DUALPI2: [Part<'static>; 9] = [
    Part::Rows("Dualpi2", &[ // 1056, `list dualpi2`
        Row { word: 1, name: "Limit", form: Form::Number(Number::U32) },
        Row { word: 2, name: "MemoryLimit", form: Form::Number(Number::U32) },
        Row { word: 3, name: "Target", form: Form::Number(Number::U32) },
        Row { word: 4, name: "Tupdate", form: Form::Number(Number::U32) },
        Row { word: 5, name: "Alpha", form: Form::Number(Number::U32) },
        Row { word: 6, name: "Beta", form: Form::Number(Number::U32) },
        Row { word: 7, name: "StepThreshPkts", form: Form::Number(Number::U32) },
        Row { word: 8, name: "StepThreshUs", form: Form::Number(Number::U32) },
        Row { word: 9, name: "MinQlenStep", form: Form::Number(Number::U32) },
        Row { word: 10, name: "Coupling", form: Form::Number(Number::U8) },
        Row { word: 11, name: "DropOverload", form: Form::Named(Number::U8, 1057) },
        Row { word: 12, name: "DropEarly", form: Form::Named(Number::U8, 1058) },
        Row { word: 13, name: "CProtection", form: Form::Number(Number::U8) },
        Row { word: 14, name: "EcnMask", form: Form::Named(Number::U8, 1059) },
        Row { word: 15, name: "SplitGso", form: Form::Named(Number::U8, 1060) },
        Row { word: 16, name: "Pad", form: Form::Flag },
    ]),
    Part::Names(&[ // 1057, `enum dualpi2_drop_overload`
        Name { number: 0, name: "Overflow" },
        Name { number: 1, name: "Drop" },
    ]),
    Part::Names(&[ // 1058, `enum dualpi2_drop_early`
        Name { number: 0, name: "DropDequeue" },
        Name { number: 1, name: "DropEnqueue" },
    ]),
    Part::Names(&[ // 1059, `enum dualpi2_ecn_mask`
        Name { number: 1, name: "L4sEct" },
        Name { number: 2, name: "ClaEct" },
        Name { number: 3, name: "AnyEct" },
    ]),
    Part::Names(&[ // 1060, `enum dualpi2_split_gso`
        Name { number: 0, name: "NoSplitGso" },
        Name { number: 1, name: "SplitGso" },
    ]),
    Part::Fields(&[ // 1061, `struct tc_dualpi2_xstats`
        Field { name: "prob", form: Form::Number(Number::U32) },
        Field { name: "delay_c", form: Form::Number(Number::U32) },
        Field { name: "delay_l", form: Form::Number(Number::U32) },
        Field { name: "packets_in_c", form: Form::Number(Number::U32) },
        Field { name: "packets_in_l", form: Form::Number(Number::U32) },
        Field { name: "maxq", form: Form::Number(Number::U32) },
        Field { name: "ecn_mark", form: Form::Number(Number::U32) },
        Field { name: "step_marks", form: Form::Number(Number::U32) },
        Field { name: "credit", form: Form::Number(Number::I32) },
        Field { name: "memory_used", form: Form::Number(Number::U32) },
        Field { name: "max_memory_used", form: Form::Number(Number::U32) },
        Field { name: "memory_limit", form: Form::Number(Number::U32) },
    ]),
    Part::Fields(&[ // 1062, the statistics of dualpi2
        Field { name: "Dualpi2", form: Form::Record(1061) },
    ]),
    Part::Rows("", &[ // 1063, `list tc`: the rows of dualpi2
        Row { word: 2, name: "Options", form: Form::List(1056) },
        Row { word: 4, name: "Xstats", form: Form::Record(1062) },
    ]),
    Part::Rows("", &[ // 1064, `list stats`: the rows of dualpi2
        Row { word: 4, name: "App", form: Form::Record(1062) },
    ]),
];

#[tactic(auto, unfolding(crate::specs::Parts::parts_of_qdiscs_dualpi2))]
pub(crate) fn parts_of_qdiscs_dualpi2() -> &'static [Part<'static>]
    ensures { map part_view result.now ≡ parts_of_qdiscs_dualpi2 }
{
    &PARTS_OF_QDISCS_DUALPI2
}

#[rattlefmt::skip]
static PARTS_OF_QDISCS_ETF: [Part<'static>; 3] = [
    Part::Rows("Etf", &[ // 1080, `list etf`
        Row { word: 1, name: "Parms", form: Form::Record(1081) },
    ]),
    Part::Fields(&[ // 1081, `struct tc_etf_qopt`
        Field { name: "delta", form: Form::Number(Number::I32) },
        Field { name: "clockid", form: Form::Number(Number::I32) },
        Field { name: "flags", form: Form::Number(Number::U32) },
    ]),
    Part::Rows("", &[ // 1082, `list tc`: the rows of etf
        Row { word: 2, name: "Options", form: Form::List(1080) },
        Row { word: 4, name: "Xstats", form: Form::Choice(822) },
    ]),
];

#[tactic(auto, unfolding(crate::specs::Parts::parts_of_qdiscs_etf))]
pub(crate) fn parts_of_qdiscs_etf() -> &'static [Part<'static>]
    ensures { map part_view result.now ≡ parts_of_qdiscs_etf }
{
    &PARTS_OF_QDISCS_ETF
}

#[rattlefmt::skip]
static PARTS_OF_QDISCS_ETS: [Part<'static>; 4] = [
    Part::Rows("Ets", &[ // 1104, `list ets`
        Row { word: 1, name: "Nbands", form: Form::Number(Number::U8) },
        Row { word: 2, name: "Nstrict", form: Form::Number(Number::U8) },
        Row { word: 32771, name: "Quanta", form: Form::List(1105) },
        Row { word: 4, name: "QuantaBand", form: Form::Number(Number::U32) },
        Row { word: 32773, name: "Priomap", form: Form::List(1106) },
        Row { word: 6, name: "PriomapBand", form: Form::Number(Number::U8) },
    ]),
    Part::Rows("", &[ // 1105, `list ets_quanta`
        Row { word: 4, name: "QuantaBand", form: Form::Number(Number::U32) },
    ]),
    Part::Rows("", &[ // 1106, `list ets_priomap`
        Row { word: 6, name: "PriomapBand", form: Form::Number(Number::U8) },
    ]),
    Part::Rows("", &[ // 1107, `list tc`: the rows of ets
        Row { word: 32770, name: "Options", form: Form::List(1104) },
        Row { word: 4, name: "Xstats", form: Form::Choice(822) },
    ]),
];

#[tactic(auto, unfolding(crate::specs::Parts::parts_of_qdiscs_ets))]
pub(crate) fn parts_of_qdiscs_ets() -> &'static [Part<'static>]
    ensures { map part_view result.now ≡ parts_of_qdiscs_ets }
{
    &PARTS_OF_QDISCS_ETS
}

#[rattlefmt::skip]
static PARTS_OF_QDISCS_FIFO: [Part<'static>; 4] = [
    Part::Fields(&[ // 1128, `struct tc_fifo_qopt`
        Field { name: "limit", form: Form::Number(Number::U32) },
    ]),
    Part::Fields(&[ // 1129, `struct tc_fifo_qopt_packets`
        Field { name: "limit", form: Form::Number(Number::U32) },
    ]),
    Part::Rows("", &[ // 1130, `list tc`: the rows of pfifo, pfifo_head_drop
        Row { word: 2, name: "Options", form: Form::Record(1129) },
        Row { word: 4, name: "Xstats", form: Form::Choice(822) },
    ]),
    Part::Rows("", &[ // 1131, `list tc`: the rows of bfifo
        Row { word: 2, name: "Options", form: Form::Record(1128) },
        Row { word: 4, name: "Xstats", form: Form::Choice(822) },
    ]),
];

#[tactic(auto, unfolding(crate::specs::Parts::parts_of_qdiscs_fifo))]
pub(crate) fn parts_of_qdiscs_fifo() -> &'static [Part<'static>]
    ensures { map part_view result.now ≡ parts_of_qdiscs_fifo }
{
    &PARTS_OF_QDISCS_FIFO
}

#[rattlefmt::skip]
static PARTS_OF_QDISCS_FQ: [Part<'static>; 6] = [
    Part::Rows("Fq", &[ // 1152, `list fq`
        Row { word: 1, name: "Plimit", form: Form::Number(Number::U32) },
        Row { word: 2, name: "FlowPlimit", form: Form::Number(Number::U32) },
        Row { word: 3, name: "Quantum", form: Form::Number(Number::U32) },
        Row { word: 4, name: "InitialQuantum", form: Form::Number(Number::U32) },
        Row { word: 5, name: "RateEnable", form: Form::Number(Number::U32) },
        Row { word: 6, name: "FlowDefaultRate", form: Form::Number(Number::U32) },
        Row { word: 7, name: "FlowMaxRate", form: Form::Number(Number::U32) },
        Row { word: 8, name: "BucketsLog", form: Form::Number(Number::U32) },
        Row { word: 9, name: "FlowRefillDelay", form: Form::Number(Number::U32) },
        Row { word: 10, name: "OrphanMask", form: Form::Number(Number::U32) },
        Row { word: 11, name: "LowRateThreshold", form: Form::Number(Number::U32) },
        Row { word: 12, name: "CeThreshold", form: Form::Number(Number::U32) },
        Row { word: 13, name: "TimerSlack", form: Form::Number(Number::U32) },
        Row { word: 14, name: "Horizon", form: Form::Number(Number::U32) },
        Row { word: 15, name: "HorizonDrop", form: Form::Number(Number::U8) },
        Row { word: 16, name: "Priomap", form: Form::Record(1490) },
        Row { word: 17, name: "Weights", form: Form::Times(3, 511) },
        Row { word: 18, name: "OffloadHorizon", form: Form::Number(Number::U32) },
    ]),
    Part::Fields(&[ // 1153, `struct tc_fq_qd_stats`
        Field { name: "gc_flows", form: Form::Number(Number::U64) },
        Field { name: "highprio_packets", form: Form::Number(Number::U64) },
        Field { name: "tcp_retrans", form: Form::Number(Number::U64) },
        Field { name: "throttled", form: Form::Number(Number::U64) },
        Field { name: "flows_plimit", form: Form::Number(Number::U64) },
        Field { name: "pkts_too_long", form: Form::Number(Number::U64) },
        Field { name: "allocation_errors", form: Form::Number(Number::U64) },
        Field { name: "time_next_delayed_flow", form: Form::Number(Number::I64) },
        Field { name: "flows", form: Form::Number(Number::U32) },
        Field { name: "inactive_flows", form: Form::Number(Number::U32) },
        Field { name: "throttled_flows", form: Form::Number(Number::U32) },
        Field { name: "unthrottle_latency_ns", form: Form::Number(Number::U32) },
        Field { name: "ce_mark", form: Form::Number(Number::U64) },
        Field { name: "horizon_drops", form: Form::Number(Number::U64) },
        Field { name: "horizon_caps", form: Form::Number(Number::U64) },
        Field { name: "since_6_7", form: Form::Array(1154) },
    ]),
    Part::Fields(&[ // 1154, `struct fq_stats_6_7`
        Field { name: "fastpath_packets", form: Form::Number(Number::U64) },
        Field { name: "band_drops", form: Form::Times(3, 508) },
        Field { name: "band_pkt_count", form: Form::Times(3, 504) },
        Field { name: "pad", form: Form::Pad(4) },
    ]),
    Part::Fields(&[ // 1155, the statistics of fq
        Field { name: "Fq", form: Form::Record(1153) },
    ]),
    Part::Rows("", &[ // 1156, `list tc`: the rows of fq
        Row { word: 2, name: "Options", form: Form::List(1152) },
        Row { word: 4, name: "Xstats", form: Form::Record(1155) },
    ]),
    Part::Rows("", &[ // 1157, `list stats`: the rows of fq
        Row { word: 4, name: "App", form: Form::Record(1155) },
    ]),
];

#[tactic(auto, unfolding(crate::specs::Parts::parts_of_qdiscs_fq))]
pub(crate) fn parts_of_qdiscs_fq() -> &'static [Part<'static>]
    ensures { map part_view result.now ≡ parts_of_qdiscs_fq }
{
    &PARTS_OF_QDISCS_FQ
}

#[rattlefmt::skip]
static PARTS_OF_QDISCS_FQ_CODEL: [Part<'static>; 7] = [
    Part::Rows("FqCodel", &[ // 1176, `list fq_codel`
        Row { word: 1, name: "Target", form: Form::Number(Number::U32) },
        Row { word: 2, name: "Limit", form: Form::Number(Number::U32) },
        Row { word: 3, name: "Interval", form: Form::Number(Number::U32) },
        Row { word: 4, name: "Ecn", form: Form::Number(Number::U32) },
        Row { word: 5, name: "Flows", form: Form::Number(Number::U32) },
        Row { word: 6, name: "Quantum", form: Form::Number(Number::U32) },
        Row { word: 7, name: "CeThreshold", form: Form::Number(Number::U32) },
        Row { word: 8, name: "DropBatchSize", form: Form::Number(Number::U32) },
        Row { word: 9, name: "MemoryLimit", form: Form::Number(Number::U32) },
        Row { word: 10, name: "CeThresholdSelector", form: Form::Number(Number::U8) },
        Row { word: 11, name: "CeThresholdMask", form: Form::Number(Number::U8) },
    ]),
    Part::Choices(&[ // 1177, `choice tc_fq_codel_xstats`
        Choice { name: "Qdisc", prefix: &[0, 0, 0, 0], len: None, form: Form::Record(1178) },
        Choice { name: "Class", prefix: &[1, 0, 0, 0], len: None, form: Form::Record(1179) },
    ]),
    Part::Fields(&[ // 1178, `struct tc_fq_codel_qd_stats`
        Field { name: "maxpacket", form: Form::Number(Number::U32) },
        Field { name: "drop_overlimit", form: Form::Number(Number::U32) },
        Field { name: "ecn_mark", form: Form::Number(Number::U32) },
        Field { name: "new_flow_count", form: Form::Number(Number::U32) },
        Field { name: "new_flows_len", form: Form::Number(Number::U32) },
        Field { name: "old_flows_len", form: Form::Number(Number::U32) },
        Field { name: "ce_mark", form: Form::Number(Number::U32) },
        Field { name: "memory_usage", form: Form::Number(Number::U32) },
        Field { name: "drop_overmemory", form: Form::Number(Number::U32) },
    ]),
    Part::Fields(&[ // 1179, `struct tc_fq_codel_cl_stats`
        Field { name: "deficit", form: Form::Number(Number::I32) },
        Field { name: "ldelay", form: Form::Number(Number::U32) },
        Field { name: "count", form: Form::Number(Number::U32) },
        Field { name: "lastcount", form: Form::Number(Number::U32) },
        Field { name: "dropping", form: Form::Number(Number::U32) },
        Field { name: "drop_next", form: Form::Number(Number::I32) },
    ]),
    Part::Fields(&[ // 1180, the statistics of fq_codel
        Field { name: "FqCodel", form: Form::Choice(1177) },
    ]),
    Part::Rows("", &[ // 1181, `list tc`: the rows of fq_codel
        Row { word: 2, name: "Options", form: Form::List(1176) },
        Row { word: 4, name: "Xstats", form: Form::Record(1180) },
    ]),
    Part::Rows("", &[ // 1182, `list stats`: the rows of fq_codel
        Row { word: 4, name: "App", form: Form::Record(1180) },
    ]),
];

#[tactic(auto, unfolding(crate::specs::Parts::parts_of_qdiscs_fq_codel))]
pub(crate) fn parts_of_qdiscs_fq_codel() -> &'static [Part<'static>]
    ensures { map part_view result.now ≡ parts_of_qdiscs_fq_codel }
{
    &PARTS_OF_QDISCS_FQ_CODEL
}

#[rattlefmt::skip]
static PARTS_OF_QDISCS_FQ_PIE: [Part<'static>; 5] = [
    Part::Rows("FqPie", &[ // 1200, `list fq_pie`
        Row { word: 1, name: "Limit", form: Form::Number(Number::U32) },
        Row { word: 2, name: "Flows", form: Form::Number(Number::U32) },
        Row { word: 3, name: "Target", form: Form::Number(Number::U32) },
        Row { word: 4, name: "Tupdate", form: Form::Number(Number::U32) },
        Row { word: 5, name: "Alpha", form: Form::Number(Number::U32) },
        Row { word: 6, name: "Beta", form: Form::Number(Number::U32) },
        Row { word: 7, name: "Quantum", form: Form::Number(Number::U32) },
        Row { word: 8, name: "MemoryLimit", form: Form::Number(Number::U32) },
        Row { word: 9, name: "EcnProb", form: Form::Number(Number::U32) },
        Row { word: 10, name: "Ecn", form: Form::Number(Number::U32) },
        Row { word: 11, name: "Bytemode", form: Form::Number(Number::U32) },
        Row { word: 12, name: "DqRateEstimator", form: Form::Number(Number::U32) },
    ]),
    Part::Fields(&[ // 1201, `struct tc_fq_pie_xstats`
        Field { name: "packets_in", form: Form::Number(Number::U32) },
        Field { name: "dropped", form: Form::Number(Number::U32) },
        Field { name: "overlimit", form: Form::Number(Number::U32) },
        Field { name: "overmemory", form: Form::Number(Number::U32) },
        Field { name: "ecn_mark", form: Form::Number(Number::U32) },
        Field { name: "new_flow_count", form: Form::Number(Number::U32) },
        Field { name: "new_flows_len", form: Form::Number(Number::U32) },
        Field { name: "old_flows_len", form: Form::Number(Number::U32) },
        Field { name: "memory_usage", form: Form::Number(Number::U32) },
    ]),
    Part::Fields(&[ // 1202, the statistics of fq_pie
        Field { name: "FqPie", form: Form::Record(1201) },
    ]),
    Part::Rows("", &[ // 1203, `list tc`: the rows of fq_pie
        Row { word: 32770, name: "Options", form: Form::List(1200) },
        Row { word: 4, name: "Xstats", form: Form::Record(1202) },
    ]),
    Part::Rows("", &[ // 1204, `list stats`: the rows of fq_pie
        Row { word: 4, name: "App", form: Form::Record(1202) },
    ]),
];

#[tactic(auto, unfolding(crate::specs::Parts::parts_of_qdiscs_fq_pie))]
pub(crate) fn parts_of_qdiscs_fq_pie() -> &'static [Part<'static>]
    ensures { map part_view result.now ≡ parts_of_qdiscs_fq_pie }
{
    &PARTS_OF_QDISCS_FQ_PIE
}

#[rattlefmt::skip]
static PARTS_OF_QDISCS_GRED: [Part<'static>; 6] = [
    Part::Rows("Gred", &[ // 1224, `list gred`
        Row { word: 1, name: "Parms", form: Form::Array(1225) },
        Row { word: 2, name: "Stab", form: Form::Hex },
        Row { word: 3, name: "Dps", form: Form::Record(1226) },
        Row { word: 4, name: "MaxP", form: Form::Array(504) },
        Row { word: 5, name: "Limit", form: Form::Number(Number::U32) },
        Row { word: 6, name: "VqList", form: Form::List(1227) },
    ]),
    Part::Fields(&[ // 1225, `struct tc_gred_qopt`
        Field { name: "limit", form: Form::Number(Number::U32) },
        Field { name: "qth_min", form: Form::Number(Number::U32) },
        Field { name: "qth_max", form: Form::Number(Number::U32) },
        Field { name: "DP", form: Form::Number(Number::U32) },
        Field { name: "backlog", form: Form::Number(Number::U32) },
        Field { name: "qave", form: Form::Number(Number::U32) },
        Field { name: "forced", form: Form::Number(Number::U32) },
        Field { name: "early", form: Form::Number(Number::U32) },
        Field { name: "other", form: Form::Number(Number::U32) },
        Field { name: "pdrop", form: Form::Number(Number::U32) },
        Field { name: "Wlog", form: Form::Number(Number::U8) },
        Field { name: "Plog", form: Form::Number(Number::U8) },
        Field { name: "Scell_log", form: Form::Number(Number::U8) },
        Field { name: "prio", form: Form::Number(Number::U8) },
        Field { name: "packets", form: Form::Number(Number::U32) },
        Field { name: "bytesin", form: Form::Number(Number::U32) },
    ]),
    Part::Fields(&[ // 1226, `struct tc_gred_sopt`
        Field { name: "DPs", form: Form::Number(Number::U32) },
        Field { name: "def_DP", form: Form::Number(Number::U32) },
        Field { name: "grio", form: Form::Number(Number::U8) },
        Field { name: "flags", form: Form::Number(Number::U8) },
        Field { name: "pad1", form: Form::Pad(2) },
    ]),
    Part::Rows("", &[ // 1227, `list gred_vq_list`
        Row { word: 1, name: "Entry", form: Form::List(1228) },
    ]),
    Part::Rows("", &[ // 1228, `list gred_vq`
        Row { word: 1, name: "Pad", form: Form::Flag },
        Row { word: 2, name: "Dp", form: Form::Number(Number::U32) },
        Row { word: 3, name: "StatBytes", form: Form::Number(Number::U64) },
        Row { word: 4, name: "StatPackets", form: Form::Number(Number::U32) },
        Row { word: 5, name: "StatBacklog", form: Form::Number(Number::U32) },
        Row { word: 6, name: "StatProbDrop", form: Form::Number(Number::U32) },
        Row { word: 7, name: "StatProbMark", form: Form::Number(Number::U32) },
        Row { word: 8, name: "StatForcedDrop", form: Form::Number(Number::U32) },
        Row { word: 9, name: "StatForcedMark", form: Form::Number(Number::U32) },
        Row { word: 10, name: "StatPdrop", form: Form::Number(Number::U32) },
        Row { word: 11, name: "StatOther", form: Form::Number(Number::U32) },
        Row { word: 12, name: "Flags", form: Form::Number(Number::U32) },
    ]),
    Part::Rows("", &[ // 1229, `list tc`: the rows of gred
        Row { word: 2, name: "Options", form: Form::List(1224) },
        Row { word: 4, name: "Xstats", form: Form::Choice(822) },
    ]),
];

#[tactic(auto, unfolding(crate::specs::Parts::parts_of_qdiscs_gred))]
pub(crate) fn parts_of_qdiscs_gred() -> &'static [Part<'static>]
    ensures { map part_view result.now ≡ parts_of_qdiscs_gred }
{
    &PARTS_OF_QDISCS_GRED
}

#[rattlefmt::skip]
static PARTS_OF_QDISCS_HFSC: [Part<'static>; 8] = [
    Part::Choices(&[ // 1248, `choice hfsc`
        Choice { name: "Qdisc", prefix: &[], len: Some(2), form: Form::Record(1249) },
        Choice { name: "Class", prefix: &[], len: None, form: Form::List(1250) },
    ]),
    Part::Fields(&[ // 1249, `struct tc_hfsc_qopt`
        Field { name: "defcls", form: Form::Number(Number::U16) },
    ]),
    Part::Rows("Hfsc", &[ // 1250, `list hfsc`
        Row { word: 1, name: "Rsc", form: Form::Record(1251) },
        Row { word: 2, name: "Fsc", form: Form::Record(1251) },
        Row { word: 3, name: "Usc", form: Form::Record(1251) },
    ]),
    Part::Fields(&[ // 1251, `struct tc_service_curve`
        Field { name: "m1", form: Form::Number(Number::U32) },
        Field { name: "d", form: Form::Number(Number::U32) },
        Field { name: "m2", form: Form::Number(Number::U32) },
    ]),
    Part::Fields(&[ // 1252, `struct tc_hfsc_stats`
        Field { name: "work", form: Form::Number(Number::U64) },
        Field { name: "rtwork", form: Form::Number(Number::U64) },
        Field { name: "period", form: Form::Number(Number::U32) },
        Field { name: "level", form: Form::Number(Number::U32) },
    ]),
    Part::Fields(&[ // 1253, the statistics of hfsc
        Field { name: "Hfsc", form: Form::Record(1252) },
    ]),
    Part::Rows("", &[ // 1254, `list tc`: the rows of hfsc
        Row { word: 2, name: "Options", form: Form::Choice(1248) },
        Row { word: 4, name: "Xstats", form: Form::Record(1253) },
    ]),
    Part::Rows("", &[ // 1255, `list stats`: the rows of hfsc
        Row { word: 4, name: "App", form: Form::Record(1253) },
    ]),
];

#[tactic(auto, unfolding(crate::specs::Parts::parts_of_qdiscs_hfsc))]
pub(crate) fn parts_of_qdiscs_hfsc() -> &'static [Part<'static>]
    ensures { map part_view result.now ≡ parts_of_qdiscs_hfsc }
{
    &PARTS_OF_QDISCS_HFSC
}

#[rattlefmt::skip]
static PARTS_OF_QDISCS_HHF: [Part<'static>; 5] = [
    Part::Rows("Hhf", &[ // 1272, `list hhf`
        Row { word: 1, name: "BacklogLimit", form: Form::Number(Number::U32) },
        Row { word: 2, name: "Quantum", form: Form::Number(Number::U32) },
        Row { word: 3, name: "HhFlowsLimit", form: Form::Number(Number::U32) },
        Row { word: 4, name: "ResetTimeout", form: Form::Number(Number::U32) },
        Row { word: 5, name: "AdmitBytes", form: Form::Number(Number::U32) },
        Row { word: 6, name: "EvictTimeout", form: Form::Number(Number::U32) },
        Row { word: 7, name: "NonHhWeight", form: Form::Number(Number::U32) },
    ]),
    Part::Fields(&[ // 1273, `struct tc_hhf_xstats`
        Field { name: "drop_overlimit", form: Form::Number(Number::U32) },
        Field { name: "hh_overlimit", form: Form::Number(Number::U32) },
        Field { name: "hh_tot_count", form: Form::Number(Number::U32) },
        Field { name: "hh_cur_count", form: Form::Number(Number::U32) },
    ]),
    Part::Fields(&[ // 1274, the statistics of hhf
        Field { name: "Hhf", form: Form::Record(1273) },
    ]),
    Part::Rows("", &[ // 1275, `list tc`: the rows of hhf
        Row { word: 2, name: "Options", form: Form::List(1272) },
        Row { word: 4, name: "Xstats", form: Form::Record(1274) },
    ]),
    Part::Rows("", &[ // 1276, `list stats`: the rows of hhf
        Row { word: 4, name: "App", form: Form::Record(1274) },
    ]),
];

#[tactic(auto, unfolding(crate::specs::Parts::parts_of_qdiscs_hhf))]
pub(crate) fn parts_of_qdiscs_hhf() -> &'static [Part<'static>]
    ensures { map part_view result.now ≡ parts_of_qdiscs_hhf }
{
    &PARTS_OF_QDISCS_HHF
}

#[rattlefmt::skip]
static PARTS_OF_QDISCS_HTB: [Part<'static>; 7] = [
    Part::Rows("Htb", &[ // 1296, `list htb`
        Row { word: 1, name: "Parms", form: Form::Record(1298) },
        Row { word: 2, name: "Init", form: Form::Record(1299) },
        Row { word: 3, name: "Ctab", form: Form::Hex },
        Row { word: 4, name: "Rtab", form: Form::Hex },
        Row { word: 5, name: "DirectQlen", form: Form::Number(Number::U32) },
        Row { word: 6, name: "Rate64", form: Form::Number(Number::U64) },
        Row { word: 7, name: "Ceil64", form: Form::Number(Number::U64) },
        Row { word: 8, name: "Pad", form: Form::Flag },
        Row { word: 9, name: "Offload", form: Form::Flag },
    ]),
    Part::Fields(&[ // 1297, `struct tc_htb_xstats`
        Field { name: "lends", form: Form::Number(Number::U32) },
        Field { name: "borrows", form: Form::Number(Number::U32) },
        Field { name: "giants", form: Form::Number(Number::U32) },
        Field { name: "tokens", form: Form::Number(Number::I32) },
        Field { name: "ctokens", form: Form::Number(Number::I32) },
    ]),
    Part::Fields(&[ // 1298, `struct tc_htb_opt`
        Field { name: "rate", form: Form::Record(1680) },
        Field { name: "ceil", form: Form::Record(1680) },
        Field { name: "buffer", form: Form::Number(Number::U32) },
        Field { name: "cbuffer", form: Form::Number(Number::U32) },
        Field { name: "quantum", form: Form::Number(Number::U32) },
        Field { name: "level", form: Form::Number(Number::U32) },
        Field { name: "prio", form: Form::Number(Number::U32) },
    ]),
    Part::Fields(&[ // 1299, `struct tc_htb_glob`
        Field { name: "version", form: Form::Number(Number::U32) },
        Field { name: "rate2quantum", form: Form::Number(Number::U32) },
        Field { name: "defcls", form: Form::Number(Number::U32) },
        Field { name: "debug", form: Form::Number(Number::U32) },
        Field { name: "direct_pkts", form: Form::Number(Number::U32) },
    ]),
    Part::Fields(&[ // 1300, the statistics of htb
        Field { name: "Htb", form: Form::Record(1297) },
    ]),
    Part::Rows("", &[ // 1301, `list tc`: the rows of htb
        Row { word: 2, name: "Options", form: Form::List(1296) },
        Row { word: 4, name: "Xstats", form: Form::Record(1300) },
    ]),
    Part::Rows("", &[ // 1302, `list stats`: the rows of htb
        Row { word: 4, name: "App", form: Form::Record(1300) },
    ]),
];

#[tactic(auto, unfolding(crate::specs::Parts::parts_of_qdiscs_htb))]
pub(crate) fn parts_of_qdiscs_htb() -> &'static [Part<'static>]
    ensures { map part_view result.now ≡ parts_of_qdiscs_htb }
{
    &PARTS_OF_QDISCS_HTB
}

#[rattlefmt::skip]
static PARTS_OF_QDISCS_INGRESS: [Part<'static>; 2] = [
    Part::Rows("Ingress", &[ // 1320, `list ingress`
    ]),
    Part::Rows("", &[ // 1321, `list tc`: the rows of ingress
        Row { word: 2, name: "Options", form: Form::List(1320) },
        Row { word: 4, name: "Xstats", form: Form::Choice(822) },
    ]),
];

#[tactic(auto, unfolding(crate::specs::Parts::parts_of_qdiscs_ingress))]
pub(crate) fn parts_of_qdiscs_ingress() -> &'static [Part<'static>]
    ensures { map part_view result.now ≡ parts_of_qdiscs_ingress }
{
    &PARTS_OF_QDISCS_INGRESS
}

#[rattlefmt::skip]
static PARTS_OF_QDISCS_MQPRIO: [Part<'static>; 9] = [
    Part::Fields(&[ // 1344, `struct mqprio_options`
        Field { name: "num_tc", form: Form::Number(Number::U8) },
        Field { name: "prio_tc_map", form: Form::Times(16, 509) },
        Field { name: "hw", form: Form::Number(Number::U8) },
        Field { name: "count", form: Form::Times(16, 505) },
        Field { name: "offset", form: Form::Times(16, 505) },
        Field { name: "padding", form: Form::Pad(2) },
        Field { name: "attributes", form: Form::List(1346) },
    ]),
    Part::Fields(&[ // 1345, `struct tc_mqprio_qopt`
        Field { name: "num_tc", form: Form::Number(Number::U8) },
        Field { name: "prio_tc_map", form: Form::Times(16, 509) },
        Field { name: "hw", form: Form::Number(Number::U8) },
        Field { name: "count", form: Form::Times(16, 505) },
        Field { name: "offset", form: Form::Times(16, 505) },
    ]),
    Part::Rows("", &[ // 1346, `list mqprio`
        Row { word: 1, name: "Mode", form: Form::Named(Number::U16, 1347) },
        Row { word: 2, name: "Shaper", form: Form::Named(Number::U16, 1348) },
        Row { word: 32771, name: "MinRate64", form: Form::List(1349) },
        Row { word: 32772, name: "MaxRate64", form: Form::List(1350) },
        Row { word: 32773, name: "TcEntry", form: Form::List(1351) },
    ]),
    Part::Names(&[ // 1347, `enum tc_mqprio_mode`
        Name { number: 0, name: "Dcb" },
        Name { number: 1, name: "Channel" },
    ]),
    Part::Names(&[ // 1348, `enum tc_mqprio_shaper`
        Name { number: 0, name: "Dcb" },
        Name { number: 1, name: "BwRate" },
    ]),
    Part::Rows("", &[ // 1349, `list mqprio_min_rate`
        Row { word: 3, name: "MinRate64", form: Form::Number(Number::U64) },
    ]),
    Part::Rows("", &[ // 1350, `list mqprio_max_rate`
        Row { word: 4, name: "MaxRate64", form: Form::Number(Number::U64) },
    ]),
    Part::Rows("", &[ // 1351, `list mqprio_tc_entry`
        Row { word: 1, name: "Index", form: Form::Number(Number::U32) },
        Row { word: 2, name: "Fp", form: Form::Named(Number::U32, 1686) },
    ]),
    Part::Rows("", &[ // 1352, `list tc`: the rows of mqprio
        Row { word: 2, name: "Options", form: Form::Record(1344) },
        Row { word: 4, name: "Xstats", form: Form::Choice(822) },
    ]),
];

#[tactic(auto, unfolding(crate::specs::Parts::parts_of_qdiscs_mqprio))]
pub(crate) fn parts_of_qdiscs_mqprio() -> &'static [Part<'static>]
    ensures { map part_view result.now ≡ parts_of_qdiscs_mqprio }
{
    &PARTS_OF_QDISCS_MQPRIO
}

#[rattlefmt::skip]
static PARTS_OF_QDISCS_MULTIQ: [Part<'static>; 2] = [
    Part::Fields(&[ // 1368, `struct tc_multiq_qopt`
        Field { name: "bands", form: Form::Number(Number::U16) },
        Field { name: "max_bands", form: Form::Number(Number::U16) },
    ]),
    Part::Rows("", &[ // 1369, `list tc`: the rows of multiq
        Row { word: 2, name: "Options", form: Form::Record(1368) },
        Row { word: 4, name: "Xstats", form: Form::Choice(822) },
    ]),
];

#[tactic(auto, unfolding(crate::specs::Parts::parts_of_qdiscs_multiq))]
pub(crate) fn parts_of_qdiscs_multiq() -> &'static [Part<'static>]
    ensures { map part_view result.now ≡ parts_of_qdiscs_multiq }
{
    &PARTS_OF_QDISCS_MULTIQ
}

#[rattlefmt::skip]
static PARTS_OF_QDISCS_NETEM: [Part<'static>; 14] = [
    Part::Fields(&[ // 1392, `struct tc_netem_qopt`
        Field { name: "latency", form: Form::Number(Number::U32) },
        Field { name: "limit", form: Form::Number(Number::U32) },
        Field { name: "loss", form: Form::Number(Number::U32) },
        Field { name: "gap", form: Form::Number(Number::U32) },
        Field { name: "duplicate", form: Form::Number(Number::U32) },
        Field { name: "jitter", form: Form::Number(Number::U32) },
        Field { name: "attributes", form: Form::List(1393) },
    ]),
    Part::Rows("", &[ // 1393, `list netem`
        Row { word: 1, name: "Corr", form: Form::Record(1394) },
        Row { word: 2, name: "DelayDist", form: Form::Array(512) },
        Row { word: 3, name: "Reorder", form: Form::Record(1395) },
        Row { word: 4, name: "Corrupt", form: Form::Record(1396) },
        Row { word: 32773, name: "Loss", form: Form::List(1397) },
        Row { word: 6, name: "Rate", form: Form::Record(1400) },
        Row { word: 7, name: "Ecn", form: Form::Number(Number::U32) },
        Row { word: 8, name: "Rate64", form: Form::Number(Number::U64) },
        Row { word: 9, name: "Pad", form: Form::Flag },
        Row { word: 10, name: "Latency64", form: Form::Number(Number::I64) },
        Row { word: 11, name: "Jitter64", form: Form::Number(Number::I64) },
        Row { word: 12, name: "Slot", form: Form::Record(1401) },
        Row { word: 13, name: "SlotDist", form: Form::Array(512) },
        Row { word: 14, name: "PrngSeed", form: Form::Number(Number::U64) },
    ]),
    Part::Fields(&[ // 1394, `struct tc_netem_corr`
        Field { name: "delay_corr", form: Form::Number(Number::U32) },
        Field { name: "loss_corr", form: Form::Number(Number::U32) },
        Field { name: "dup_corr", form: Form::Number(Number::U32) },
    ]),
    Part::Fields(&[ // 1395, `struct tc_netem_reorder`
        Field { name: "probability", form: Form::Number(Number::U32) },
        Field { name: "correlation", form: Form::Number(Number::U32) },
    ]),
    Part::Fields(&[ // 1396, `struct tc_netem_corrupt`
        Field { name: "probability", form: Form::Number(Number::U32) },
        Field { name: "correlation", form: Form::Number(Number::U32) },
    ]),
    Part::Rows("", &[ // 1397, `list netem_loss`
        Row { word: 1, name: "Gi", form: Form::Record(1398) },
        Row { word: 2, name: "Ge", form: Form::Record(1399) },
    ]),
    Part::Fields(&[ // 1398, `struct tc_netem_gimodel`
        Field { name: "p13", form: Form::Number(Number::U32) },
        Field { name: "p31", form: Form::Number(Number::U32) },
        Field { name: "p32", form: Form::Number(Number::U32) },
        Field { name: "p14", form: Form::Number(Number::U32) },
        Field { name: "p23", form: Form::Number(Number::U32) },
    ]),
    Part::Fields(&[ // 1399, `struct tc_netem_gemodel`
        Field { name: "p", form: Form::Number(Number::U32) },
        Field { name: "r", form: Form::Number(Number::U32) },
        Field { name: "h", form: Form::Number(Number::U32) },
        Field { name: "k1", form: Form::Number(Number::U32) },
    ]),
    Part::Fields(&[ // 1400, `struct tc_netem_rate`
        Field { name: "rate", form: Form::Number(Number::U32) },
        Field { name: "packet_overhead", form: Form::Number(Number::I32) },
        Field { name: "cell_size", form: Form::Number(Number::U32) },
        Field { name: "cell_overhead", form: Form::Number(Number::I32) },
    ]),
    Part::Fields(&[ // 1401, `struct tc_netem_slot`
        Field { name: "min_delay", form: Form::Number(Number::I64) },
        Field { name: "max_delay", form: Form::Number(Number::I64) },
        Field { name: "max_packets", form: Form::Number(Number::I32) },
        Field { name: "max_bytes", form: Form::Number(Number::I32) },
        Field { name: "dist_delay", form: Form::Number(Number::I64) },
        Field { name: "dist_jitter", form: Form::Number(Number::I64) },
    ]),
    Part::Fields(&[ // 1402, `struct tc_netem_xstats`
        Field { name: "delayed", form: Form::Number(Number::U64) },
        Field { name: "dropped", form: Form::Number(Number::U64) },
        Field { name: "corrupted", form: Form::Number(Number::U64) },
        Field { name: "duplicated", form: Form::Number(Number::U64) },
        Field { name: "reordered", form: Form::Number(Number::U64) },
        Field { name: "ecn_marked", form: Form::Number(Number::U64) },
        Field { name: "allocation_errors", form: Form::Number(Number::U64) },
    ]),
    Part::Fields(&[ // 1403, the statistics of netem
        Field { name: "Netem", form: Form::Record(1402) },
    ]),
    Part::Rows("", &[ // 1404, `list tc`: the rows of netem
        Row { word: 2, name: "Options", form: Form::Record(1392) },
        Row { word: 4, name: "Xstats", form: Form::Record(1403) },
    ]),
    Part::Rows("", &[ // 1405, `list stats`: the rows of netem
        Row { word: 4, name: "App", form: Form::Record(1403) },
    ]),
];

#[tactic(auto, unfolding(crate::specs::Parts::parts_of_qdiscs_netem))]
pub(crate) fn parts_of_qdiscs_netem() -> &'static [Part<'static>]
    ensures { map part_view result.now ≡ parts_of_qdiscs_netem }
{
    &PARTS_OF_QDISCS_NETEM
}

#[rattlefmt::skip]
static PARTS_OF_QDISCS_NONE: [Part<'static>; 4] = [
    Part::Rows("", &[ // 1416, `list no_options`
    ]),
    Part::Rows("Clsact", &[ // 1417, `list no_options`
    ]),
    Part::Rows("", &[ // 1418, `list tc`: the rows of noop, noqueue, blackhole, mq, teql0
        Row { word: 2, name: "Options", form: Form::List(1416) },
        Row { word: 4, name: "Xstats", form: Form::Choice(822) },
    ]),
    Part::Rows("", &[ // 1419, `list tc`: the rows of clsact
        Row { word: 2, name: "Options", form: Form::List(1417) },
        Row { word: 4, name: "Xstats", form: Form::Choice(822) },
    ]),
];

#[tactic(auto, unfolding(crate::specs::Parts::parts_of_qdiscs_none))]
pub(crate) fn parts_of_qdiscs_none() -> &'static [Part<'static>]
    ensures { map part_view result.now ≡ parts_of_qdiscs_none }
{
    &PARTS_OF_QDISCS_NONE
}

#[rattlefmt::skip]
static PARTS_OF_QDISCS_PIE: [Part<'static>; 5] = [
    Part::Rows("Pie", &[ // 1440, `list pie`
        Row { word: 1, name: "Target", form: Form::Number(Number::U32) },
        Row { word: 2, name: "Limit", form: Form::Number(Number::U32) },
        Row { word: 3, name: "Tupdate", form: Form::Number(Number::U32) },
        Row { word: 4, name: "Alpha", form: Form::Number(Number::U32) },
        Row { word: 5, name: "Beta", form: Form::Number(Number::U32) },
        Row { word: 6, name: "Ecn", form: Form::Number(Number::U32) },
        Row { word: 7, name: "Bytemode", form: Form::Number(Number::U32) },
        Row { word: 8, name: "DqRateEstimator", form: Form::Number(Number::U32) },
    ]),
    Part::Fields(&[ // 1441, `struct tc_pie_xstats`
        Field { name: "prob", form: Form::Number(Number::U64) },
        Field { name: "delay", form: Form::Number(Number::U32) },
        Field { name: "avg_dq_rate", form: Form::Number(Number::U32) },
        Field { name: "dq_rate_estimating", form: Form::Number(Number::U32) },
        Field { name: "packets_in", form: Form::Number(Number::U32) },
        Field { name: "dropped", form: Form::Number(Number::U32) },
        Field { name: "overlimit", form: Form::Number(Number::U32) },
        Field { name: "maxq", form: Form::Number(Number::U32) },
        Field { name: "ecn_mark", form: Form::Number(Number::U32) },
    ]),
    Part::Fields(&[ // 1442, the statistics of pie
        Field { name: "Pie", form: Form::Record(1441) },
    ]),
    Part::Rows("", &[ // 1443, `list tc`: the rows of pie
        Row { word: 2, name: "Options", form: Form::List(1440) },
        Row { word: 4, name: "Xstats", form: Form::Record(1442) },
    ]),
    Part::Rows("", &[ // 1444, `list stats`: the rows of pie
        Row { word: 4, name: "App", form: Form::Record(1442) },
    ]),
];

#[tactic(auto, unfolding(crate::specs::Parts::parts_of_qdiscs_pie))]
pub(crate) fn parts_of_qdiscs_pie() -> &'static [Part<'static>]
    ensures { map part_view result.now ≡ parts_of_qdiscs_pie }
{
    &PARTS_OF_QDISCS_PIE
}

#[rattlefmt::skip]
static PARTS_OF_QDISCS_PLUG: [Part<'static>; 3] = [
    Part::Fields(&[ // 1464, `struct tc_plug_qopt`
        Field { name: "action", form: Form::Named(Number::I32, 1465) },
        Field { name: "limit", form: Form::Number(Number::U32) },
    ]),
    Part::Names(&[ // 1465, `enum tcq_plug`
        Name { number: 0, name: "Buffer" },
        Name { number: 1, name: "ReleaseOne" },
        Name { number: 2, name: "ReleaseIndefinite" },
        Name { number: 3, name: "Limit" },
    ]),
    Part::Rows("", &[ // 1466, `list tc`: the rows of plug
        Row { word: 2, name: "Options", form: Form::Record(1464) },
        Row { word: 4, name: "Xstats", form: Form::Choice(822) },
    ]),
];

#[tactic(auto, unfolding(crate::specs::Parts::parts_of_qdiscs_plug))]
pub(crate) fn parts_of_qdiscs_plug() -> &'static [Part<'static>]
    ensures { map part_view result.now ≡ parts_of_qdiscs_plug }
{
    &PARTS_OF_QDISCS_PLUG
}

#[rattlefmt::skip]
static PARTS_OF_QDISCS_PRIO: [Part<'static>; 5] = [
    Part::Fields(&[ // 1488, `struct prio_options`
        Field { name: "bands", form: Form::Number(Number::I32) },
        Field { name: "priomap", form: Form::Times(16, 509) },
        Field { name: "attributes", form: Form::List(1489) },
    ]),
    Part::Rows("", &[ // 1489, `list prio`
        Row { word: 2, name: "Options", form: Form::List(1489) },
    ]),
    Part::Fields(&[ // 1490, `struct tc_prio_qopt`
        Field { name: "bands", form: Form::Number(Number::I32) },
        Field { name: "priomap", form: Form::Times(16, 509) },
    ]),
    Part::Rows("", &[ // 1491, `list tc`: the rows of prio, rr
        Row { word: 2, name: "Options", form: Form::Record(1488) },
        Row { word: 4, name: "Xstats", form: Form::Choice(822) },
    ]),
    Part::Rows("", &[ // 1492, `list tc`: the rows of pfifo_fast
        Row { word: 2, name: "Options", form: Form::Record(1490) },
        Row { word: 4, name: "Xstats", form: Form::Choice(822) },
    ]),
];

#[tactic(auto, unfolding(crate::specs::Parts::parts_of_qdiscs_prio))]
pub(crate) fn parts_of_qdiscs_prio() -> &'static [Part<'static>]
    ensures { map part_view result.now ≡ parts_of_qdiscs_prio }
{
    &PARTS_OF_QDISCS_PRIO
}

#[rattlefmt::skip]
static PARTS_OF_QDISCS_QFQ: [Part<'static>; 5] = [
    Part::Rows("Qfq", &[ // 1512, `list qfq`
        Row { word: 1, name: "Weight", form: Form::Number(Number::U32) },
        Row { word: 2, name: "Lmax", form: Form::Number(Number::U32) },
    ]),
    Part::Fields(&[ // 1513, `struct tc_qfq_stats`
        Field { name: "weight", form: Form::Number(Number::U32) },
        Field { name: "lmax", form: Form::Number(Number::U32) },
    ]),
    Part::Fields(&[ // 1514, the statistics of qfq
        Field { name: "Qfq", form: Form::Record(1513) },
    ]),
    Part::Rows("", &[ // 1515, `list tc`: the rows of qfq
        Row { word: 2, name: "Options", form: Form::List(1512) },
        Row { word: 4, name: "Xstats", form: Form::Record(1514) },
    ]),
    Part::Rows("", &[ // 1516, `list stats`: the rows of qfq
        Row { word: 4, name: "App", form: Form::Record(1514) },
    ]),
];

#[tactic(auto, unfolding(crate::specs::Parts::parts_of_qdiscs_qfq))]
pub(crate) fn parts_of_qdiscs_qfq() -> &'static [Part<'static>]
    ensures { map part_view result.now ≡ parts_of_qdiscs_qfq }
{
    &PARTS_OF_QDISCS_QFQ
}

#[rattlefmt::skip]
static PARTS_OF_QDISCS_RED: [Part<'static>; 7] = [
    Part::Rows("Red", &[ // 1536, `list red`
        Row { word: 1, name: "Parms", form: Form::Record(1537) },
        Row { word: 2, name: "Stab", form: Form::Hex },
        Row { word: 3, name: "MaxP", form: Form::Number(Number::U32) },
        Row { word: 4, name: "Flags", form: Form::Record(1538) },
        Row { word: 5, name: "EarlyDropBlock", form: Form::Number(Number::U32) },
        Row { word: 6, name: "MarkBlock", form: Form::Number(Number::U32) },
    ]),
    Part::Fields(&[ // 1537, `struct tc_red_qopt`
        Field { name: "limit", form: Form::Number(Number::U32) },
        Field { name: "qth_min", form: Form::Number(Number::U32) },
        Field { name: "qth_max", form: Form::Number(Number::U32) },
        Field { name: "Wlog", form: Form::Number(Number::U8) },
        Field { name: "Plog", form: Form::Number(Number::U8) },
        Field { name: "Scell_log", form: Form::Number(Number::U8) },
        Field { name: "flags", form: Form::Number(Number::U8) },
    ]),
    Part::Fields(&[ // 1538, `struct tca_red_flags`
        Field { name: "value", form: Form::Number(Number::U32) },
        Field { name: "selector", form: Form::Number(Number::U32) },
    ]),
    Part::Fields(&[ // 1539, `struct tc_red_xstats`
        Field { name: "early", form: Form::Number(Number::U32) },
        Field { name: "pdrop", form: Form::Number(Number::U32) },
        Field { name: "other", form: Form::Number(Number::U32) },
        Field { name: "marked", form: Form::Number(Number::U32) },
    ]),
    Part::Fields(&[ // 1540, the statistics of red
        Field { name: "Red", form: Form::Record(1539) },
    ]),
    Part::Rows("", &[ // 1541, `list tc`: the rows of red
        Row { word: 2, name: "Options", form: Form::List(1536) },
        Row { word: 4, name: "Xstats", form: Form::Record(1540) },
    ]),
    Part::Rows("", &[ // 1542, `list stats`: the rows of red
        Row { word: 4, name: "App", form: Form::Record(1540) },
    ]),
];

#[tactic(auto, unfolding(crate::specs::Parts::parts_of_qdiscs_red))]
pub(crate) fn parts_of_qdiscs_red() -> &'static [Part<'static>]
    ensures { map part_view result.now ≡ parts_of_qdiscs_red }
{
    &PARTS_OF_QDISCS_RED
}

#[rattlefmt::skip]
static PARTS_OF_QDISCS_SFB: [Part<'static>; 6] = [
    Part::Rows("Sfb", &[ // 1560, `list sfb`
        Row { word: 1, name: "Parms", form: Form::Record(1562) },
    ]),
    Part::Fields(&[ // 1561, `struct tc_sfb_xstats`
        Field { name: "earlydrop", form: Form::Number(Number::U32) },
        Field { name: "penaltydrop", form: Form::Number(Number::U32) },
        Field { name: "bucketdrop", form: Form::Number(Number::U32) },
        Field { name: "queuedrop", form: Form::Number(Number::U32) },
        Field { name: "childdrop", form: Form::Number(Number::U32) },
        Field { name: "marked", form: Form::Number(Number::U32) },
        Field { name: "maxqlen", form: Form::Number(Number::U32) },
        Field { name: "maxprob", form: Form::Number(Number::U32) },
        Field { name: "avgprob", form: Form::Number(Number::U32) },
    ]),
    Part::Fields(&[ // 1562, `struct tc_sfb_qopt`
        Field { name: "rehash_interval", form: Form::Number(Number::U32) },
        Field { name: "warmup_time", form: Form::Number(Number::U32) },
        Field { name: "max", form: Form::Number(Number::U32) },
        Field { name: "bin_size", form: Form::Number(Number::U32) },
        Field { name: "increment", form: Form::Number(Number::U32) },
        Field { name: "decrement", form: Form::Number(Number::U32) },
        Field { name: "limit", form: Form::Number(Number::U32) },
        Field { name: "penalty_rate", form: Form::Number(Number::U32) },
        Field { name: "penalty_burst", form: Form::Number(Number::U32) },
    ]),
    Part::Fields(&[ // 1563, the statistics of sfb
        Field { name: "Sfb", form: Form::Record(1561) },
    ]),
    Part::Rows("", &[ // 1564, `list tc`: the rows of sfb
        Row { word: 2, name: "Options", form: Form::List(1560) },
        Row { word: 4, name: "Xstats", form: Form::Record(1563) },
    ]),
    Part::Rows("", &[ // 1565, `list stats`: the rows of sfb
        Row { word: 4, name: "App", form: Form::Record(1563) },
    ]),
];

#[tactic(auto, unfolding(crate::specs::Parts::parts_of_qdiscs_sfb))]
pub(crate) fn parts_of_qdiscs_sfb() -> &'static [Part<'static>]
    ensures { map part_view result.now ≡ parts_of_qdiscs_sfb }
{
    &PARTS_OF_QDISCS_SFB
}

#[rattlefmt::skip]
static PARTS_OF_QDISCS_SFQ: [Part<'static>; 8] = [
    Part::Choices(&[ // 1584, `choice sfq`
        Choice { name: "Qopt", prefix: &[], len: Some(20), form: Form::Record(1585) },
        Choice { name: "QoptV1", prefix: &[], len: Some(72), form: Form::Record(1586) },
    ]),
    Part::Fields(&[ // 1585, `struct tc_sfq_qopt`
        Field { name: "quantum", form: Form::Number(Number::U32) },
        Field { name: "perturb_period", form: Form::Number(Number::I32) },
        Field { name: "limit", form: Form::Number(Number::U32) },
        Field { name: "divisor", form: Form::Number(Number::U32) },
        Field { name: "flows", form: Form::Number(Number::U32) },
    ]),
    Part::Fields(&[ // 1586, `struct tc_sfq_qopt_v1`
        Field { name: "v0", form: Form::Record(1585) },
        Field { name: "depth", form: Form::Number(Number::U32) },
        Field { name: "headdrop", form: Form::Number(Number::U32) },
        Field { name: "limit", form: Form::Number(Number::U32) },
        Field { name: "qth_min", form: Form::Number(Number::U32) },
        Field { name: "qth_max", form: Form::Number(Number::U32) },
        Field { name: "Wlog", form: Form::Number(Number::U8) },
        Field { name: "Plog", form: Form::Number(Number::U8) },
        Field { name: "Scell_log", form: Form::Number(Number::U8) },
        Field { name: "flags", form: Form::Number(Number::U8) },
        Field { name: "max_P", form: Form::Number(Number::U32) },
        Field { name: "stats", form: Form::Record(1587) },
    ]),
    Part::Fields(&[ // 1587, `struct tc_sfqred_stats`
        Field { name: "prob_drop", form: Form::Number(Number::U32) },
        Field { name: "forced_drop", form: Form::Number(Number::U32) },
        Field { name: "prob_mark", form: Form::Number(Number::U32) },
        Field { name: "forced_mark", form: Form::Number(Number::U32) },
        Field { name: "prob_mark_head", form: Form::Number(Number::U32) },
        Field { name: "forced_mark_head", form: Form::Number(Number::U32) },
    ]),
    Part::Fields(&[ // 1588, `struct tc_sfq_xstats`
        Field { name: "allot", form: Form::Number(Number::I32) },
    ]),
    Part::Fields(&[ // 1589, the statistics of sfq
        Field { name: "Sfq", form: Form::Record(1588) },
    ]),
    Part::Rows("", &[ // 1590, `list tc`: the rows of sfq
        Row { word: 2, name: "Options", form: Form::Choice(1584) },
        Row { word: 4, name: "Xstats", form: Form::Record(1589) },
    ]),
    Part::Rows("", &[ // 1591, `list stats`: the rows of sfq
        Row { word: 4, name: "App", form: Form::Record(1589) },
    ]),
];

#[tactic(auto, unfolding(crate::specs::Parts::parts_of_qdiscs_sfq))]
pub(crate) fn parts_of_qdiscs_sfq() -> &'static [Part<'static>]
    ensures { map part_view result.now ≡ parts_of_qdiscs_sfq }
{
    &PARTS_OF_QDISCS_SFQ
}

#[rattlefmt::skip]
static PARTS_OF_QDISCS_SKBPRIO: [Part<'static>; 2] = [
    Part::Fields(&[ // 1608, `struct tc_skbprio_qopt`
        Field { name: "limit", form: Form::Number(Number::U32) },
    ]),
    Part::Rows("", &[ // 1609, `list tc`: the rows of skbprio
        Row { word: 2, name: "Options", form: Form::Record(1608) },
        Row { word: 4, name: "Xstats", form: Form::Choice(822) },
    ]),
];

#[tactic(auto, unfolding(crate::specs::Parts::parts_of_qdiscs_skbprio))]
pub(crate) fn parts_of_qdiscs_skbprio() -> &'static [Part<'static>]
    ensures { map part_view result.now ≡ parts_of_qdiscs_skbprio }
{
    &PARTS_OF_QDISCS_SKBPRIO
}

#[rattlefmt::skip]
static PARTS_OF_QDISCS_TAPRIO: [Part<'static>; 10] = [
    Part::Rows("", &[ // 1632, `list taprio`
        Row { word: 1, name: "Priomap", form: Form::Record(1345) },
        Row { word: 32770, name: "SchedEntryList", form: Form::List(1634) },
        Row { word: 3, name: "SchedBaseTime", form: Form::Number(Number::I64) },
        Row { word: 4, name: "SchedSingleEntry", form: Form::List(1635) },
        Row { word: 5, name: "SchedClockid", form: Form::Number(Number::I32) },
        Row { word: 6, name: "Pad", form: Form::Flag },
        Row { word: 7, name: "AdminSched", form: Form::List(1632) },
        Row { word: 8, name: "SchedCycleTime", form: Form::Number(Number::I64) },
        Row { word: 9, name: "SchedCycleTimeExtension", form: Form::Number(Number::I64) },
        Row { word: 10, name: "Flags", form: Form::Number(Number::U32) },
        Row { word: 11, name: "TxtimeDelay", form: Form::Number(Number::U32) },
        Row { word: 32780, name: "TcEntry", form: Form::List(1637) },
    ]),
    Part::Rows("Taprio", &[ // 1633, `list taprio`
        Row { word: 1, name: "Priomap", form: Form::Record(1345) },
        Row { word: 32770, name: "SchedEntryList", form: Form::List(1634) },
        Row { word: 3, name: "SchedBaseTime", form: Form::Number(Number::I64) },
        Row { word: 4, name: "SchedSingleEntry", form: Form::List(1635) },
        Row { word: 5, name: "SchedClockid", form: Form::Number(Number::I32) },
        Row { word: 6, name: "Pad", form: Form::Flag },
        Row { word: 7, name: "AdminSched", form: Form::List(1632) },
        Row { word: 8, name: "SchedCycleTime", form: Form::Number(Number::I64) },
        Row { word: 9, name: "SchedCycleTimeExtension", form: Form::Number(Number::I64) },
        Row { word: 10, name: "Flags", form: Form::Number(Number::U32) },
        Row { word: 11, name: "TxtimeDelay", form: Form::Number(Number::U32) },
        Row { word: 32780, name: "TcEntry", form: Form::List(1637) },
    ]),
    Part::Rows("", &[ // 1634, `list taprio_entry_list`
        Row { word: 1, name: "Entry", form: Form::List(1635) },
    ]),
    Part::Rows("", &[ // 1635, `list taprio_entry`
        Row { word: 1, name: "Index", form: Form::Number(Number::U32) },
        Row { word: 2, name: "Cmd", form: Form::Named(Number::U8, 1636) },
        Row { word: 3, name: "GateMask", form: Form::Number(Number::U32) },
        Row { word: 4, name: "Interval", form: Form::Number(Number::U32) },
    ]),
    Part::Names(&[ // 1636, `enum tc_taprio_cmd`
        Name { number: 0, name: "SetGates" },
        Name { number: 1, name: "SetAndHold" },
        Name { number: 2, name: "SetAndRelease" },
    ]),
    Part::Rows("", &[ // 1637, `list taprio_tc_entry`
        Row { word: 1, name: "Index", form: Form::Number(Number::U32) },
        Row { word: 2, name: "MaxSdu", form: Form::Number(Number::U32) },
        Row { word: 3, name: "Fp", form: Form::Named(Number::U32, 1686) },
    ]),
    Part::Rows("", &[ // 1638, `list taprio_stats`
        Row { word: 1, name: "Pad", form: Form::Flag },
        Row { word: 2, name: "WindowDrops", form: Form::Number(Number::U64) },
        Row { word: 3, name: "TxOverruns", form: Form::Number(Number::U64) },
    ]),
    Part::Fields(&[ // 1639, the statistics of taprio
        Field { name: "Taprio", form: Form::List(1638) },
    ]),
    Part::Rows("", &[ // 1640, `list tc`: the rows of taprio
        Row { word: 2, name: "Options", form: Form::List(1633) },
        Row { word: 32772, name: "Xstats", form: Form::Record(1639) },
    ]),
    Part::Rows("", &[ // 1641, `list stats`: the rows of taprio
        Row { word: 32772, name: "App", form: Form::Record(1639) },
    ]),
];

#[tactic(auto, unfolding(crate::specs::Parts::parts_of_qdiscs_taprio))]
pub(crate) fn parts_of_qdiscs_taprio() -> &'static [Part<'static>]
    ensures { map part_view result.now ≡ parts_of_qdiscs_taprio }
{
    &PARTS_OF_QDISCS_TAPRIO
}

#[rattlefmt::skip]
static PARTS_OF_QDISCS_TBF: [Part<'static>; 3] = [
    Part::Rows("Tbf", &[ // 1656, `list tbf`
        Row { word: 1, name: "Parms", form: Form::Record(1657) },
        Row { word: 2, name: "Rtab", form: Form::Hex },
        Row { word: 3, name: "Ptab", form: Form::Hex },
        Row { word: 4, name: "Rate64", form: Form::Number(Number::U64) },
        Row { word: 5, name: "Prate64", form: Form::Number(Number::U64) },
        Row { word: 6, name: "Burst", form: Form::Number(Number::U32) },
        Row { word: 7, name: "Pburst", form: Form::Number(Number::U32) },
        Row { word: 8, name: "Pad", form: Form::Flag },
    ]),
    Part::Fields(&[ // 1657, `struct tc_tbf_qopt`
        Field { name: "rate", form: Form::Record(1680) },
        Field { name: "peakrate", form: Form::Record(1680) },
        Field { name: "limit", form: Form::Number(Number::U32) },
        Field { name: "buffer", form: Form::Number(Number::U32) },
        Field { name: "mtu", form: Form::Number(Number::U32) },
    ]),
    Part::Rows("", &[ // 1658, `list tc`: the rows of tbf
        Row { word: 2, name: "Options", form: Form::List(1656) },
        Row { word: 4, name: "Xstats", form: Form::Choice(822) },
    ]),
];

#[tactic(auto, unfolding(crate::specs::Parts::parts_of_qdiscs_tbf))]
pub(crate) fn parts_of_qdiscs_tbf() -> &'static [Part<'static>]
    ensures { map part_view result.now ≡ parts_of_qdiscs_tbf }
{
    &PARTS_OF_QDISCS_TBF
}
