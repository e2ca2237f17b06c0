//! Types of actions, of their attributes and of their options.

// Of a single action, `linux/rtnetlink.h`.
pub(crate) const TCA_ACT_TAB: u16 = 1;

// Of an action's attributes, `linux/pkt_cls.h`.
pub(crate) const TCA_ACT_KIND: u16 = 1;

pub(crate) const TCA_ACT_OPTIONS: u16 = 2;

pub(crate) const TCA_ACT_INDEX: u16 = 3;

pub(crate) const TCA_ACT_STATS: u16 = 4;

pub(crate) const TCA_ACT_COOKIE: u16 = 6;

pub(crate) const TCA_ACT_IN_HW_COUNT: u16 = 10;

// Of the options of `mirred`, `linux/tc_act/tc_mirred.h`.
pub(crate) const TCA_MIRRED_TM: u16 = 1;

pub(crate) const TCA_MIRRED_PARMS: u16 = 2;

// Of the options of `nat`, `linux/tc_act/tc_nat.h`.
pub(crate) const TCA_NAT_PARMS: u16 = 1;

pub(crate) const TCA_NAT_TM: u16 = 2;

// Of the options of `tunnel_key`, `linux/tc_act/tc_tunnel_key.h`.
pub(crate) const TCA_TUNNEL_KEY_TM: u16 = 1;

pub(crate) const TCA_TUNNEL_KEY_PARMS: u16 = 2;

pub(crate) const TCA_TUNNEL_KEY_ENC_IPV4_SRC: u16 = 3;

pub(crate) const TCA_TUNNEL_KEY_ENC_IPV4_DST: u16 = 4;

pub(crate) const TCA_TUNNEL_KEY_ENC_IPV6_SRC: u16 = 5;

pub(crate) const TCA_TUNNEL_KEY_ENC_IPV6_DST: u16 = 6;

pub(crate) const TCA_TUNNEL_KEY_ENC_KEY_ID: u16 = 7;

pub(crate) const TCA_TUNNEL_KEY_ENC_DST_PORT: u16 = 9;

pub(crate) const TCA_TUNNEL_KEY_NO_CSUM: u16 = 10;

pub(crate) const TCA_TUNNEL_KEY_ENC_TOS: u16 = 12;

pub(crate) const TCA_TUNNEL_KEY_ENC_TTL: u16 = 13;
