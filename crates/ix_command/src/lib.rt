//! The commands of the program: what is done for the words of a command line, with the files that they name, and the one line
//! by which a refusal is told.
#![tactic(auto)]

mod commands;
mod index_file;
mod outputs;
mod refusal;
mod refusing;

pub use commands::command_over;
pub use refusal::Refusal;
pub use refusing::refuse;
