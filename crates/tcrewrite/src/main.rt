//! Reads a traffic control message as hex text on standard input, and writes a report on it.
#![tactic(auto)]

use std::process::ExitCode;
use tcrewrite_lib::program::tcrewrite;

fn main(rt: HostRuntime) -> ExitCode {
    tcrewrite(&rt, &mut rt.stderr())
}
