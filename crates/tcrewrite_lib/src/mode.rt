//! The type of message that the program reads.

pub use tc_capture::MessageType as Mode;
