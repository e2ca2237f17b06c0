//! The attribute tables.

/// An attribute table: the attribute types of a list, and the enum that has them.
#[derive(Clone, Copy)]
pub enum Table {
    /// `TcAttribute`: a traffic control message.
    Message,
    /// `TcActionMessageAttribute`: an action message.
    ActionMessage,
    /// `TcStats2`: statistics, in `TCA_STATS2` and `TCA_ACT_STATS`.
    Stats2,
    /// `TcAction`: each attribute, of any type, is an action, and its payload a list of [`Table::Action`].
    Actions,
    /// `TcActionAttribute`: an action.
    Action,
    /// `TcActionOption`: the options of an action of an unknown kind.
    ActionOptions,
    /// `TcActionMirrorOption`: the action mirred.
    Mirror,
    /// `TcActionNatOption`: the action nat.
    Nat,
    /// `TcActionTunnelKeyOption`: the action tunnel_key.
    TunnelKey,
    /// `TcOption`: not the table of any attribute, since options have the table of their kind.
    Options,
    /// `TcQdiscFqCodelOption`: the qdisc fq_codel.
    FqCodel,
    /// `TcQdiscIngressOption`: the qdisc ingress.
    Ingress,
    /// `TcFilterFlowerOption`: the filter flower.
    Flower,
    /// `TcFilterU32Option`: the filter u32.
    U32,
    /// `TcFilterMatchAllOption`: the filter matchall.
    MatchAll,
    /// `TcFilterBpfOption`: the filter bpf.
    Bpf,
    /// `TcFilterFlowerMplsOption`: MPLS labels in flower.
    Mpls,
    /// `TcFilterFlowerMplsLseOption`: one MPLS label stack entry.
    Lse,
}
