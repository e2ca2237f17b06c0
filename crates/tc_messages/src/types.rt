//! The types of a message's attributes.

// `linux/rtnetlink.h`.
pub(crate) const TCA_KIND: u16 = 1;

/// The type of options, `TCA_OPTIONS`.
pub const TCA_OPTIONS: u16 = 2;

pub(crate) const TCA_STATS: u16 = 3;

pub(crate) const TCA_XSTATS: u16 = 4;

pub(crate) const TCA_RATE: u16 = 5;

pub(crate) const TCA_FCNT: u16 = 6;

pub(crate) const TCA_STATS2: u16 = 7;

pub(crate) const TCA_STAB: u16 = 8;

pub(crate) const TCA_DUMP_INVISIBLE: u16 = 10;

pub(crate) const TCA_CHAIN: u16 = 11;

pub(crate) const TCA_HW_OFFLOAD: u16 = 12;
