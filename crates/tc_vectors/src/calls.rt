//! Comparisons of messages, attributes and options with what they have to be. A use of a trait at a type as wide as a message is the dear part of a test's
//! proof, as is each place where such a value is dropped; so tests go through these few functions, which are passed what was made and return a truth
//! value.

mod attributes;
mod messages;
mod rewriting;

pub(crate) use attributes::{
    are_attributes, are_options, is_cut_option, is_read_option, is_settled_attribute,
    is_settled_option,
};
pub(crate) use messages::{
    Message, emitted, fault_of, is_cloned, is_made, is_read_as, is_unwritable, length_of,
    reads_back,
};
pub(crate) use rewriting::{is_canonical, rewrite, settle};
