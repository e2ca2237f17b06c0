//! Forms as data: the format of a netlink message's bytes, and their JSON, both ways and without loss.
//!
//! A table has parts, and a form names the parts that it needs by their places. The JSON of any bytes in any form leads back to these
//! bytes. Bytes that don't follow their form exactly are shown raw in their place, under names that no row, field or choice has:
//!
//! | In JSON | What it is |
//! |---|---|
//! | `{"raw":"dead"}`, anywhere | bytes that don't follow their form, or that nest too deep |
//! | `{"Other":9}` | a number that has no name |
//! | `{"Other":"dead"}` | bytes that no choice fits |
//! | `{"Other":{"word":9,"value":"dead"}}`, in a list | an attribute whose type has no row |
//! | `"word":9`, next to an attribute | its `nla_type`, if the flags aren't the row's |
//! | `"pad":"01"`, next to an attribute | its padding, if it isn't zeros, or is missing |
//! | `{"Kind":"htb"}`, in a list with kinds | an attribute of type 1: the kind of those after it |
//! | `"bare":true`, next to a kind | it has no NUL at its end |
//! | `{"tab":1,"attributes":[..]}`, in an indexed list | an attribute of any type |
//! | `"rest":"dead"`, in a record | the bytes after its fields |
#![tactic(auto)]

mod laws;
mod make;
mod show;

pub use forms_values::{
    Choice, Field, Form, KindRows, MakeError, Name, Number, Part, Row, Tables, Wanted,
};
pub use laws::{shown_is_injective, shown_is_made};
pub use make::made;
pub use show::{Shown, send_shown};
