//! The types of the options of qdiscs.

// Of `fq_codel`, `linux/pkt_sched.h`.
pub(crate) const TCA_FQ_CODEL_TARGET: u16 = 1;

pub(crate) const TCA_FQ_CODEL_LIMIT: u16 = 2;

pub(crate) const TCA_FQ_CODEL_INTERVAL: u16 = 3;

pub(crate) const TCA_FQ_CODEL_ECN: u16 = 4;

pub(crate) const TCA_FQ_CODEL_FLOWS: u16 = 5;

pub(crate) const TCA_FQ_CODEL_QUANTUM: u16 = 6;

pub(crate) const TCA_FQ_CODEL_CE_THRESHOLD: u16 = 7;

pub(crate) const TCA_FQ_CODEL_DROP_BATCH_SIZE: u16 = 8;

pub(crate) const TCA_FQ_CODEL_MEMORY_LIMIT: u16 = 9;

pub(crate) const TCA_FQ_CODEL_CE_THRESHOLD_SELECTOR: u16 = 10;

pub(crate) const TCA_FQ_CODEL_CE_THRESHOLD_MASK: u16 = 11;
