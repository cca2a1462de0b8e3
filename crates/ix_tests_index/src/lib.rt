//! Tests of the calls of `ix_file`, `ix_gram` and `ix_query`, and nothing else. A crate that has tests is proved twice; these
//! three have none of their own, and are proved once.
#![tactic(auto)]

#[cfg(test)]
mod index_texts;
#[cfg(test)]
mod patterns;
#[cfg(test)]
mod plain;
#[cfg(test)]
mod queries;
