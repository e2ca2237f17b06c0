//! Tests alone, of plans of changes.
#![tactic(auto)]

#[cfg(test)]
mod changes;
