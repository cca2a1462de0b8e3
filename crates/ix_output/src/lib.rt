//! Writing bytes whole to a writer: [`put_all`] writes all of them or returns an error, and [`flush`] flushes. Both
//! say what the writer has gained, also after an error, if the writer's bytes are known to its contracts
//! (`Write::contents`). That the operating system keeps what it was given is trusted.
#![tactic(auto)]

mod sink;

pub use sink::{WriteError, flush, put_all};
