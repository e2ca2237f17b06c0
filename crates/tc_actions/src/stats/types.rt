//! Types of attributes with statistics, and the numbers before the records of `fq_codel`.

// `linux/gen_stats.h`.
pub(crate) const TCA_STATS_BASIC: u16 = 1;

pub(crate) const TCA_STATS_QUEUE: u16 = 3;

pub(crate) const TCA_STATS_APP: u16 = 4;

pub(crate) const TCA_STATS_BASIC_HW: u16 = 7;

// Of `fq_codel`, `linux/pkt_sched.h`.
pub(crate) const TCA_FQ_CODEL_XSTATS_QDISC: u32 = 0;

pub(crate) const TCA_FQ_CODEL_XSTATS_CLASS: u32 = 1;
