//! Captures of netlink: reading the packets of a file, and the messages of a packet.  Nothing here does I/O or
//! allocates. A caller keeps bytes in a buffer and reads the piece at their front. The error `Short` says how many
//! bytes it needs. So a reader needs a buffer of the longest piece, whatever the length of the file.
#![tactic(auto)]

pub mod answer;
pub mod capture;
pub mod entries;
pub mod errno;
pub mod error;
pub mod kind;
pub mod message;
pub mod messages;
pub mod order;
pub mod packet;
pub mod pcap;
pub mod pcapng;
pub mod piece;
pub mod stream;
pub mod time;

pub use answer::{Answer, answer_in};
pub use capture::Capture;
pub use errno::errno_name;
pub use error::{CaptureError, Res};
pub use kind::{MessageType, NLMSG_ERROR, NLMSG_TSTAMP, RtmType, rtm_of};
pub use message::{NLMSG_HEADER_LEN, NetlinkMessage};
pub use messages::Messages;
pub use packet::{Contents, Link, Packet};
pub use piece::Piece;
pub use time::Time;
