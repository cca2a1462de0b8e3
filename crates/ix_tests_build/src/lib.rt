//! Tests of the calls of `ix_pool` and `ix_build`, and nothing else. A crate that has tests is proved twice; these two have
//! none of their own, and are proved once.
#![tactic(auto)]

#[cfg(test)]
mod building;
