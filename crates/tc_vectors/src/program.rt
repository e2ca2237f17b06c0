//! Runs of the program `tcrewrite`: its arguments, its reports, and streams and memory that fail.

mod arguments;
mod reports;
mod statuses;
mod streams;
mod swept_reports;
