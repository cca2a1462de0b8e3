//! The words of a command line: the line that they are, or why they are none, and the help that they ask for.
#![tactic(auto)]

mod commands;
mod error;
mod fields;
mod help;
mod line;
mod plan;
mod removed;
mod searchers;
mod worked;

pub use error::LineError;
pub use help::{
    HELP, HELP_ON_ADD, HELP_ON_ASK, HELP_ON_BUILD, HELP_ON_CHECK, HELP_ON_LIVE, HELP_ON_MERGE,
    HELP_ON_REMOVE, HELP_ON_RUN, HELP_ON_SEARCH, HELP_ON_TERMS, HELP_ON_UPGRADE, help_on,
    with_help_as_flag,
};
pub use ix_build::Plan;
pub use line::{Line, read_line};
pub use removed::Removed;
pub use searchers::Searchers;
pub use worked::worked_lines;
