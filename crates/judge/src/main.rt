//! Prints the JSON of messages, as a judge of the plain programs: `cargo test` compares theirs with the stored output.
//!
//! A line of the input has the form of a message, `tc` or `action`, and its bytes in hex. Its line of the output is its JSON, by the tables
//! of all kinds, and after a tab why and where the codec refuses the message, if it does.
#![tactic(auto)]

mod judged;

use judged::judged;
use std::io;

fn main(rt: HostRuntime) -> io::Result<()> {
    for line in rt.lines(rt.alloc()) {
        let text = judged(rt.alloc(), line?.as_str())?;
        println!(rt; "{text}")?;
    }
    Ok(())
}
