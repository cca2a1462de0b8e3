//! Tests of `ix_archive`, and nothing else: archives over files in memory, of which each call fails in turn and each byte
//! is changed. A crate that has tests is proved twice; `ix_archive` has none of its own, and is proved once.
#![tactic(auto)]

#[cfg(test)]
mod archives;
#[cfg(test)]
mod checks;
#[cfg(test)]
mod searches;
