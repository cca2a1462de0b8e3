//! Tests of `ix_files`, and nothing else: outputs over files in memory, of which each call fails in turn, and over files of the
//! system, files that are read by ranges, and names in folders. A crate that has tests is proved twice; `ix_files` has none of its own, and is proved once.
#![tactic(auto)]

#[cfg(test)]
mod folders;
#[cfg(test)]
mod memory;
#[cfg(test)]
mod ranges;
#[cfg(test)]
mod system;
#[cfg(test)]
mod writing;
