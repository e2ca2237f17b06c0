//! The payloads of attributes, plain and nested: how each is measured, written and settled, defined once for all enums
//! of attributes.
#![tactic(auto)]

pub mod body;
pub mod kind;
pub mod same;
pub mod value;

pub use body::{Body, Either, Items, NoBody, Record};
pub use kind::{is_settled_of_kind, kind_set_by_frame};
pub use same::{Same, same_row};
pub use value::Value;
