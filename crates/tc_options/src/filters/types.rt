//! The types of the options of filters.

// Of a `bpf` filter, `linux/pkt_cls.h`.
pub(crate) const TCA_BPF_CLASSID: u16 = 3;

pub(crate) const TCA_BPF_FD: u16 = 6;

pub(crate) const TCA_BPF_NAME: u16 = 7;

pub(crate) const TCA_BPF_FLAGS: u16 = 8;

pub(crate) const TCA_BPF_FLAGS_GEN: u16 = 9;

pub(crate) const TCA_BPF_TAG: u16 = 10;

pub(crate) const TCA_BPF_ID: u16 = 11;

// Of a `u32` filter, `linux/pkt_cls.h`.
pub(crate) const TCA_U32_CLASSID: u16 = 1;

pub(crate) const TCA_U32_HASH: u16 = 2;

pub(crate) const TCA_U32_LINK: u16 = 3;

pub(crate) const TCA_U32_DIVISOR: u16 = 4;

pub(crate) const TCA_U32_SEL: u16 = 5;

pub(crate) const TCA_U32_POLICE: u16 = 6;

pub(crate) const TCA_U32_ACT: u16 = 7;

pub(crate) const TCA_U32_INDEV: u16 = 8;

pub(crate) const TCA_U32_PCNT: u16 = 9;

pub(crate) const TCA_U32_MARK: u16 = 10;

pub(crate) const TCA_U32_FLAGS: u16 = 11;

// Of a `matchall` filter, `linux/pkt_cls.h`.
pub(crate) const TCA_MATCHALL_CLASSID: u16 = 1;

pub(crate) const TCA_MATCHALL_ACT: u16 = 2;

pub(crate) const TCA_MATCHALL_FLAGS: u16 = 3;

pub(crate) const TCA_MATCHALL_PCNT: u16 = 4;
