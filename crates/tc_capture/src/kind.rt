//! The `nlmsg_type`s of traffic control.

ghost use Rattle.std.specs.Prelude.{◌≡◌, option_map};
ghost use Rattle.tc_capture.specs.Kind.{named_of, tc_row, action_row, rtm_at};

/// `NLMSG_ERROR` of `linux/netlink.h`: an error, or the acknowledgement of a request.
pub const NLMSG_ERROR: u16 = 2;

/// `NLMSG_TSTAMP` of iproute2: the time of the messages that follow, in the files that `rtmon` writes.
pub const NLMSG_TSTAMP: u16 = 15;

/// The type of a message: a traffic control message or an action message.
#[derive(Clone, Copy, PartialEq, Eq, Debug)]
pub enum MessageType {
    /// `struct tcmsg` and its attributes: a qdisc, a class, a filter or a chain.
    Tc,

    /// `struct tcamsg` and its attributes: actions.
    Action,
}

impl MessageType {
    ghost use Rattle.std.specs.Prelude.{◌≡◌, ◌↔◌, Some};
    ghost use Rattle.tc_capture.specs.Kind.{word_of};

    /// The message type that a word names: `tc` or `action`.
    pub fn from_word(word: &str) -> Option<MessageType>
        ensures { (message_type : MessageType) → (result ≡ Some message_type) ↔ (word.now ≡ word_of message_type) }
    {
        match word {
            "tc" => Some(MessageType::Tc),
            "action" => Some(MessageType::Action),
            _ => None,
        }
    }
}

/// An `nlmsg_type` of traffic control.
#[derive(Clone, Copy, Debug)]
pub struct RtmType {
    /// The type of message in its payload.
    pub holds: MessageType,
    /// Its name in `linux/rtnetlink.h`.
    pub name: &'static str,
}

/// The name of an `nlmsg_type`, and the type of message that it has. `None` if it isn't traffic control.
#[tactic(auto, unfolding(crate::specs::Kind::rtm_at))]
pub fn rtm_of(kind: u16) -> Option<RtmType>
    ensures { option_map named_of result ≡ rtm_at kind }
{
    match kind {
        36 => tc("RTM_NEWQDISC"),
        37 => tc("RTM_DELQDISC"),
        38 => tc("RTM_GETQDISC"),
        40 => tc("RTM_NEWTCLASS"),
        41 => tc("RTM_DELTCLASS"),
        42 => tc("RTM_GETTCLASS"),
        44 => tc("RTM_NEWTFILTER"),
        45 => tc("RTM_DELTFILTER"),
        46 => tc("RTM_GETTFILTER"),
        48 => action("RTM_NEWACTION"),
        49 => action("RTM_DELACTION"),
        50 => action("RTM_GETACTION"),
        100 => tc("RTM_NEWCHAIN"),
        101 => tc("RTM_DELCHAIN"),
        102 => tc("RTM_GETCHAIN"),
        _ => None,
    }
}

fn tc(name: &'static str) -> Option<RtmType>
    ensures { option_map named_of result ≡ tc_row name.now }
{
    Some(RtmType {
        holds: MessageType::Tc,
        name,
    })
}

fn action(name: &'static str) -> Option<RtmType>
    ensures { option_map named_of result ≡ action_row name.now }
{
    Some(RtmType {
        holds: MessageType::Action,
        name,
    })
}
