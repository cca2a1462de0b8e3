//! Tests of archives, and nothing else: documents are added and removed over files in memory, of which each call fails in turn.
#![tactic(auto)]

#[cfg(test)]
mod changes;
#[cfg(test)]
mod held;
