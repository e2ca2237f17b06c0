//! Buffers with the bytes of fixed records, including padding, which the typed records drop.
#![tactic(auto)]

mod generic;
mod raw;
mod selector;

pub use generic::TcActionGenericBuffer;
pub use raw::Raw;
pub use selector::{SelectorHead, TcU32SelectorBuffer};
use tc_records::{
    TC_FQ_CODEL_CL_STATS_LEN, TC_FQ_CODEL_QD_STATS_LEN, TC_HEADER_LEN, TC_MIRROR_LEN, TC_NAT_LEN,
    TC_STATS_BASIC_LEN, TC_STATS_LEN, TC_STATS_QUEUE_LEN, TC_TUNNEL_KEY_LEN, TC_U32_KEY_LEN,
    TCA_HEADER_LEN, TCF_LEN, TcActionMessageHeader, TcFqCodelClStats, TcFqCodelQdStats, TcHeader,
    TcMirror, TcNat, TcStats, TcStatsBasic, TcStatsQueue, TcTunnelKey, TcU32Key, Tcf,
};

/// The bytes of a message's header, `struct tcmsg` of `linux/rtnetlink.h`.
pub type TcMessageBuffer = Raw<TcHeader, TC_HEADER_LEN>;

/// The bytes of the header of an action message, `struct tcamsg` of `linux/rtnetlink.h`.
pub type TcActionMessageBuffer = Raw<TcActionMessageHeader, TCA_HEADER_LEN>;

/// The bytes of the statistics of a queue, `struct tc_stats` of `linux/pkt_sched.h`.
pub type TcStatsBuffer = Raw<TcStats, TC_STATS_LEN>;

/// The bytes of basic statistics, `struct gnet_stats_basic` of `linux/gen_stats.h`.
pub type TcStatsBasicBuffer = Raw<TcStatsBasic, TC_STATS_BASIC_LEN>;

/// The bytes of queue statistics, `struct gnet_stats_queue` of `linux/gen_stats.h`.
pub type TcStatsQueueBuffer = Raw<TcStatsQueue, TC_STATS_QUEUE_LEN>;

/// The bytes of the statistics of an fq_codel qdisc, `struct tc_fq_codel_qd_stats` of `linux/pkt_sched.h`.
pub type TcFqCodelQdStatsBuffer = Raw<TcFqCodelQdStats, TC_FQ_CODEL_QD_STATS_LEN>;

/// The bytes of the statistics of an fq_codel class, `struct tc_fq_codel_cl_stats` of `linux/pkt_sched.h`.
pub type TcFqCodelClStatsBuffer = Raw<TcFqCodelClStats, TC_FQ_CODEL_CL_STATS_LEN>;

/// The bytes of the times of an action, `struct tcf_t` of `linux/pkt_cls.h`.
pub type TcfBuffer = Raw<Tcf, TCF_LEN>;

/// The bytes of the record of the action mirred, `struct tc_mirred` of `linux/tc_act/tc_mirred.h`.
pub type TcMirrorBuffer = Raw<TcMirror, TC_MIRROR_LEN>;

/// The bytes of the record of the action nat, `struct tc_nat` of `linux/tc_act/tc_nat.h`.
pub type TcNatBuffer = Raw<TcNat, TC_NAT_LEN>;

/// The bytes of the record of the action tunnel_key, `struct tc_tunnel_key` of `linux/tc_act/tc_tunnel_key.h`.
pub type TcTunnelKeyBuffer = Raw<TcTunnelKey, TC_TUNNEL_KEY_LEN>;

/// The bytes of a key of a u32 selector, `struct tc_u32_key` of `linux/pkt_cls.h`.
pub type TcU32KeyBuffer = Raw<TcU32Key, TC_U32_KEY_LEN>;
