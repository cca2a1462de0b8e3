//! Tests of the calls of `ix_text`, `ix_vbyte`, `ix_board` and `ix_run`, and nothing else. A crate that has tests is proved
//! twice; these four have none of their own, and are proved once.
#![tactic(auto)]

#[cfg(test)]
mod board;
#[cfg(test)]
mod codes;
#[cfg(test)]
mod runs;
#[cfg(test)]
mod words;
