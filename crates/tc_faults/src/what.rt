//! The object types of messages.

/// The object that a message describes, given its `nlmsg_type`. It decides the meaning of `tcm_info`.
#[derive(Clone, Copy, PartialEq, Eq, Debug)]
pub enum What {
    /// A qdisc: `tcm_info` is its number of references.
    Qdisc,
    /// A class: `tcm_info` is the handle of its leaf qdisc.
    Class,
    /// A filter: `tcm_info` is a priority and a protocol.
    Filter,
    /// A chain of filters.
    Chain,
    /// An action message, whose header has no `tcm_info`.
    Action,
}

impl What {
    /// The object of messages with this `nlmsg_type`. `None` if they aren't traffic control.
    pub fn of_type(kind: u16) -> Option<What> {
        match kind {
            36..=38 => Some(What::Qdisc),
            40..=42 => Some(What::Class),
            44..=46 => Some(What::Filter),
            48..=50 => Some(What::Action),
            100..=102 => Some(What::Chain),
            _ => None,
        }
    }
}
