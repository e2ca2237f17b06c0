//! The first fault of a message: why it is refused, at which offset, and at which attribute.
//!
//! [`locate`] finds it without memory. The path of its attribute is a JSON pointer into the message's JSON ([`Path::put`]).
#![tactic(auto)]

mod check;
mod fault;
mod path;
mod reader;
mod tree;
mod what;

pub use fault::Fault;
pub use path::Path;
pub use reader::locate;
pub use what::What;
