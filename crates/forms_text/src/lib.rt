//! The JSON of forms as text: read with each name once, and turned into bytes, and bytes only from JSON that is exactly their own.
//!
//! ```rust
//! let bytes = bytes_of_text(alloc, table, form, br#"[{"Kind":"htb"},{"Handle":"1:"}]"#)?;
//! ```
//!
//! `forms_json` turns bytes into JSON and back. The law of this crate has the text between them: the text that `serde_json` writes for
//! the JSON of bytes is read, to its end, and turned into these bytes
//! ([`shown_text_is_made`]). A name that an object has twice is an error of [`read_json`], since a `Value` keeps only one of them,
//! so is nesting of more than 127 levels. The JSON of bytes nests at most 49 levels deep.
//!
//! ```rust
//! let bytes = made_strictly(alloc, TcTables, TC_MESSAGE, &json)?;
//! ```
//!
//! `forms_json` ignores members that it doesn't know. [`made_strictly`] compares the JSON of the bytes with the JSON that was given, up to
//! the order of members. So an unknown or misspelt member is an error with its place, and so is `raw` where the bytes follow their form.
//! [`differences`] lists the places where two JSON values differ. Calls that take an allocator fail with `OutOfMemory` if it fails.
#![tactic(auto)]

mod difference;
mod error;
mod laws;
mod make;
mod read;
mod repeated;
mod same;
mod strict;

pub use difference::{Difference, differences};
pub use error::{ReadError, StrictError, TextError};
pub use forms_values::pointer::brief;
pub use laws::shown_text_is_made;
pub use make::bytes_of_text;
pub use read::read_json;
pub use same::is_same;
pub use strict::{check_shown, made_strictly, shown_json};
