//! Tests alone, of messages, their attributes, options and other parts: what no contract says, worked bytes, and hostile ones;
//! and of runs of the program `tcrewrite`.
#![tactic(auto)]

#[cfg(test)]
mod calls;
#[cfg(test)]
mod exports;
#[cfg(test)]
mod flower;
#[cfg(test)]
mod hostile;
#[cfg(test)]
mod lengths;
#[cfg(test)]
mod made;
#[cfg(test)]
mod messages;
#[cfg(test)]
mod parts;
#[cfg(test)]
mod program;
#[cfg(test)]
mod readme;
#[cfg(test)]
mod rewriting;
#[cfg(test)]
mod settled;
#[cfg(test)]
mod sizes;
#[cfg(test)]
mod tables;
#[cfg(test)]
mod upgrade;
#[cfg(test)]
mod worked;
