//! The program `tcrewrite`: its arguments, its report, a run over its streams, and the law of the report.
#![tactic(auto)]

mod answer;
pub mod laws;
pub mod mode;
pub mod program;
mod retries;
pub mod run;
mod write;
