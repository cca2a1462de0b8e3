//! Tests of the calls of `ix_ask`, `ix_live` and `ix_script`, and nothing else. A crate that has tests is proved twice; these
//! three have none of their own, and are proved once.
#![tactic(auto)]

#[cfg(test)]
mod asking;
#[cfg(test)]
mod live_index;
#[cfg(test)]
mod scripts;
