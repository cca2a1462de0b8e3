//! Tests of `ix_line` and `ix_command`, and nothing else: most are sessions, in which stands what is typed and all that is
//! printed, over files in memory. A crate that has tests is proved twice; these two have none of their own, and are proved
//! once.
#![tactic(auto)]

#[cfg(test)]
mod archives;
#[cfg(test)]
mod building;
#[cfg(test)]
mod checking;
#[cfg(test)]
mod disk;
#[cfg(test)]
mod failing;
#[cfg(test)]
mod large;
#[cfg(test)]
mod lines;
#[cfg(test)]
mod live;
#[cfg(test)]
mod merging;
#[cfg(test)]
mod questions;
#[cfg(test)]
mod session;
#[cfg(test)]
mod system;
#[cfg(test)]
mod trusting;
