//! Tests of the calls of `ix_merge`, and nothing else. A crate that has tests is proved twice; `ix_merge` has none of its own,
//! and is proved once.
#![tactic(auto)]

#[cfg(test)]
mod merging;
