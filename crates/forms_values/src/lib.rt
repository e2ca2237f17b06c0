//! Forms and tables of forms, as data, and the JSON of values whose form contains no other form, both ways.
//!
//! Such forms are numbers, texts, addresses and hex. For records and choices, which contain forms: the widths of fields, the bytes after the
//! last field, and which choice applies. Calls that take an allocator fail with `OutOfMemory` if it fails.
#![tactic(auto)]

pub mod choices;
mod error;
pub mod events;
mod form;
pub mod maker;
pub mod names;
pub mod numbers;
pub mod places;
pub mod pointer;
pub mod records;
mod tables;
pub mod values_made;
pub mod values_shown;
pub mod widths;

pub use error::{MakeError, Wanted};
pub use form::{
    Choice, ChoiceOf, Field, FieldOf, Form, KindRows, KindRowsOf, Name, NameOf, Number, Part,
    PartOf, Row, RowOf,
};
pub use tables::Tables;
