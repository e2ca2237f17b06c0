//! Tests alone, of texts that can't be read and of typed messages as JSON. Cargo has the others: `rust/conjareho/tests/json`, `rust/tests/repository`.
#![tactic(auto)]

#[cfg(test)]
mod forms;
#[cfg(test)]
mod message_json;
