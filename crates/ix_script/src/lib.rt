//! The language of the scripts of `live`: which texts are scripts, and what they ask for, step by
//! step. A script adds documents, removes them, publishes and asks; the steps up to each publish
//! are a group.
#![tactic(auto)]

mod ask;
mod asks;
mod change;
mod first_group;
mod laws;
mod read;
mod run;
mod run_error;
mod run_group;
mod script_error;
mod step;
mod team;
mod write;

pub use laws::has_steps_or_a_fault;
pub use read::read_script;
pub use run::run_steps;
pub use run_error::RunError;
pub use script_error::ScriptError;
pub use step::Step;
