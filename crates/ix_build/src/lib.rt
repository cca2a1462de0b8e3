//! Building an index text in threads (IIR 4.3): a collection is cut into blocks, a pool of workers inverts them, and the
//! runs that they make are merged. Runs are kept in memory, or until they are merged in stores, as in files of a folder.
#![tactic(auto)]

mod balanced;
mod block_maker;
mod blocks;
mod build_error;
mod by_makers;
mod folder_store;
mod in_folder;
mod in_memory;
mod inverted_blocks;
mod over_stores;
mod plan;
mod read_back;
mod run_names;
mod save;
mod saving_maker;
mod store;
mod watch;
mod watched_files;

pub use build_error::BuildError;
pub use by_makers::{Built, ByError, build_by};
pub use folder_store::FolderStore;
pub use in_folder::build;
pub use in_memory::{build_in_memory, invert_all};
pub use inverted_blocks::InvertedBlocks;
pub use ix_pool::{
    Asked, MakeError, Maker, Outcome, WorkError, each_place_is_of_one_maker, work_all,
};
pub use over_stores::{BuiltOver, build_over};
pub use plan::{Cut, Plan, Runs};
pub use run_names::is_run_of;
pub use store::{RunStore, StoreError};
pub use watch::{Unwatched, Watch};
