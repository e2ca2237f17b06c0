//! Lists of attributes as JSON, both ways, without the values in them: frames, kinds, the row of an attribute by its type and by its name,
//! its `nla_type` and its padding.
#![tactic(auto)]

pub mod attributes_made;
pub mod attributes_shown;
pub mod rows;
