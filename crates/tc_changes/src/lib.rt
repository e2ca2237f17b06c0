//! The requests that bring a kernel from the state that it has to the state that is wanted.
//!
//! ```
//! // an error if two objects of a state have one name, or one comes before what it needs
//! match plan(alloc, &rules, &state, want)? {
//!     Plan::Steps(steps) => send(&steps)?,    // none, if nothing differs
//!     Plan::Refused(keys) => report(&keys)?,  // these can't be made, or must be made again
//! }
//! ```
#![tactic(auto)]

mod gone;
pub mod key;
mod keys;
pub mod laws;
pub mod object;
pub mod order;
mod parts;
pub mod places;
pub mod plan_error;
pub mod planned;
mod removed;
pub mod rules;
pub mod scope;
pub mod step;
mod weak;

pub use key::Key;
pub use object::Object;
pub use order::is_ready;
pub use plan_error::PlanError;
pub use planned::plan;
pub use rules::Rules;
pub use scope::plan_within;
pub use step::{Plan, Step};
