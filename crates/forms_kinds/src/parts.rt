//! The parts of the table, by their places. Written by `kinds/generate`.

ghost use Rattle.std.specs.Prelude.{map, slice_get, unwrap_or, ◌≡◌};
ghost use Rattle.forms_values.specs.Tables.{One, part_view};
ghost use Rattle.forms_kinds.specs.Table.{parts_from_0, parts_from_18, parts_from_36, parts_from_54, parts_of, tc_tables};

mod action;
mod actions;
mod elements;
mod ematch;
mod filters;
mod message;
mod qdiscs;
mod shared;
mod statistics;

use forms_values::{Form, Part};

/// RTM_*QDISC, RTM_*TCLASS, RTM_*TFILTER, RTM_*CHAIN
pub const TC_MESSAGE: Form = Form::Record(816);

/// RTM_*ACTION
pub const ACTION_MESSAGE: Form = Form::Record(824);

/// The place of `list tc`, whose attributes depend on the kind.
pub const TC_LIST: usize = 819;

/// The place of `list action`, whose attributes depend on the kind.
pub const ACTION_LIST: usize = 0;

/// All parts are at places below this one.
pub const PLACES: usize = 1728;

// The part at an index; bytes if there is none.
fn part_in(parts: &'static [Part<'static>], index: usize) -> Part<'static>
    ensures { part_view result ≡ unwrap_or (slice_get (map part_view parts.now) index) (One Form.Hex) }
{
    match parts.get(index) {
        Some(part) => *part,
        None => Part::One(Form::Hex),
    }
}

#[tactic(auto, unfolding(crate::specs::Table::parts_from_0))]
fn parts_from_0(file: usize) -> &'static [Part<'static>]
    ensures { map part_view result.now ≡ parts_from_0 file }
{
    match file {
        0 => action::parts_of_action(),
        1 => actions::parts_of_actions_bpf(),
        2 => actions::parts_of_actions_connmark(),
        3 => actions::parts_of_actions_csum(),
        4 => actions::parts_of_actions_ct(),
        5 => actions::parts_of_actions_ctinfo(),
        6 => actions::parts_of_actions_gact(),
        7 => actions::parts_of_actions_gate(),
        8 => actions::parts_of_actions_ife(),
        9 => actions::parts_of_actions_ipt(),
        10 => actions::parts_of_actions_mirred(),
        11 => actions::parts_of_actions_mpls(),
        12 => actions::parts_of_actions_nat(),
        13 => actions::parts_of_actions_pedit(),
        14 => actions::parts_of_actions_police(),
        15 => actions::parts_of_actions_sample(),
        16 => actions::parts_of_actions_simple(),
        17 => actions::parts_of_actions_skbedit(),
        _ => &[],
    }
}

#[tactic(auto, unfolding(crate::specs::Table::parts_from_18))]
fn parts_from_18(file: usize) -> &'static [Part<'static>]
    ensures { map part_view result.now ≡ parts_from_18 file }
{
    match file {
        18 => actions::parts_of_actions_skbmod(),
        19 => actions::parts_of_actions_tunnel_key(),
        20 => actions::parts_of_actions_vlan(),
        21 => elements::parts_of_elements(),
        22 => ematch::parts_of_ematch(),
        23 => filters::parts_of_filters_basic(),
        24 => filters::parts_of_filters_bpf(),
        25 => filters::parts_of_filters_cgroup(),
        26 => filters::parts_of_filters_flow(),
        27 => filters::parts_of_filters_flower(),
        28 => filters::parts_of_filters_fw(),
        29 => filters::parts_of_filters_matchall(),
        30 => filters::parts_of_filters_route(),
        31 => filters::parts_of_filters_rsvp(),
        32 => filters::parts_of_filters_tcindex(),
        33 => filters::parts_of_filters_u32(),
        34 => message::parts_of_message(),
        35 => qdiscs::parts_of_qdiscs_atm(),
        _ => &[],
    }
}

#[tactic(auto, unfolding(crate::specs::Table::parts_from_36))]
fn parts_from_36(file: usize) -> &'static [Part<'static>]
    ensures { map part_view result.now ≡ parts_from_36 file }
{
    match file {
        36 => qdiscs::parts_of_qdiscs_cake(),
        37 => qdiscs::parts_of_qdiscs_cake_mq(),
        38 => qdiscs::parts_of_qdiscs_cbq(),
        39 => qdiscs::parts_of_qdiscs_cbs(),
        40 => qdiscs::parts_of_qdiscs_choke(),
        41 => qdiscs::parts_of_qdiscs_codel(),
        42 => qdiscs::parts_of_qdiscs_drr(),
        43 => qdiscs::parts_of_qdiscs_dsmark(),
        44 => qdiscs::parts_of_qdiscs_dualpi2(),
        45 => qdiscs::parts_of_qdiscs_etf(),
        46 => qdiscs::parts_of_qdiscs_ets(),
        47 => qdiscs::parts_of_qdiscs_fifo(),
        48 => qdiscs::parts_of_qdiscs_fq(),
        49 => qdiscs::parts_of_qdiscs_fq_codel(),
        50 => qdiscs::parts_of_qdiscs_fq_pie(),
        51 => qdiscs::parts_of_qdiscs_gred(),
        52 => qdiscs::parts_of_qdiscs_hfsc(),
        53 => qdiscs::parts_of_qdiscs_hhf(),
        _ => &[],
    }
}

#[tactic(auto, unfolding(crate::specs::Table::parts_from_54))]
fn parts_from_54(file: usize) -> &'static [Part<'static>]
    ensures { map part_view result.now ≡ parts_from_54 file }
{
    match file {
        54 => qdiscs::parts_of_qdiscs_htb(),
        55 => qdiscs::parts_of_qdiscs_ingress(),
        56 => qdiscs::parts_of_qdiscs_mqprio(),
        57 => qdiscs::parts_of_qdiscs_multiq(),
        58 => qdiscs::parts_of_qdiscs_netem(),
        59 => qdiscs::parts_of_qdiscs_none(),
        60 => qdiscs::parts_of_qdiscs_pie(),
        61 => qdiscs::parts_of_qdiscs_plug(),
        62 => qdiscs::parts_of_qdiscs_prio(),
        63 => qdiscs::parts_of_qdiscs_qfq(),
        64 => qdiscs::parts_of_qdiscs_red(),
        65 => qdiscs::parts_of_qdiscs_sfb(),
        66 => qdiscs::parts_of_qdiscs_sfq(),
        67 => qdiscs::parts_of_qdiscs_skbprio(),
        68 => qdiscs::parts_of_qdiscs_taprio(),
        69 => qdiscs::parts_of_qdiscs_tbf(),
        70 => shared::parts_of_shared(),
        71 => statistics::parts_of_statistics(),
        _ => &[],
    }
}

#[tactic(auto, unfolding(crate::specs::Table::parts_of))]
fn parts_of(file: usize) -> &'static [Part<'static>]
    ensures { map part_view result.now ≡ parts_of file }
{
    match file / 18 {
        0 => parts_from_0(file),
        1 => parts_from_18(file),
        2 => parts_from_36(file),
        3 => parts_from_54(file),
        _ => &[],
    }
}

#[tactic(auto, unfolding(crate::specs::Table::tc_tables))]
pub(crate) fn tc_tables(place: usize) -> Part<'static>
    ensures { part_view result ≡ tc_tables place }
{
    part_in(parts_of(place / 24), place % 24)
}
