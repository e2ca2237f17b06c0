//! Typed messages as JSON and back, through their bytes.
//!
//! ```rust
//! let text = serde_json::to_string(alloc, &Shown(&message, alloc))?;
//! let bytes = make::<TcMessage>(alloc, &read_json(alloc, text.as_bytes())?)?;
//! ```
//!
//! [`Shown`] sends the JSON of the bytes that a message emits. Serializing a message that doesn't fit is an error of the format, as is
//! running out of memory. Two settled messages that fit are `==` if and only if the same events are sent for both
//! ([`equal_tc_messages`], [`equal_action_messages`]).
//!
//! [`make`] reads the bytes of JSON as a message and emits it: the result is canonical. It fails if this would change a value.
//! [`make_as_given`] returns the bytes of JSON unchanged. Calls that take an allocator fail with `OutOfMemory` if it fails.
#![tactic(auto)]

mod error;
mod laws;
mod made;
mod message;
mod shown;

pub use error::NoMessage;
pub use laws::{equal_action_messages, equal_tc_messages};
pub use made::{make, make_as_given};
pub use message::HasForm;
pub use shown::Shown;
