//! The calls from C that read or build a whole message. They allocate with `malloc`, `realloc` and `free` of the program, and
//! return the status 11 if that fails.
//! `bindings/vtc.h` declares them.
#![tactic(auto)]

pub mod action;
mod calls;
mod make;
mod place;
pub mod tc;
#[cfg(test)]
mod tests;
pub mod verdict;
