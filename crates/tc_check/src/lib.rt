//! A check of requests before they are sent: what each is about, by its bytes.
//!
//! ```
//! match first_outside(&scope, &requests) {
//!     None => send(&requests)?,
//!     Some(place) => refuse(place),
//! }
//! ```
#![tactic(auto)]

mod actions;
mod alike;
mod attributes;
mod fields;
mod listed;
pub mod named;
pub mod scope;
mod sort;
pub mod within;

pub use named::first_unnamed;
pub use scope::{ActionName, Scope};
pub use within::{first_outside, is_within};
