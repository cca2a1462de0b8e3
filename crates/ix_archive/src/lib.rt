//! Archives on disk, opened, searched and checked.
//!
//! An archive is a folder with a manifest (`ix_manifest`), index files, which are its segments, and at most one file of
//! removals (`ix_removals`). It has a stop set, and the documents of its segments, one segment behind another. The number
//! of a document is its place among all, and a removal takes the documents of a name whose numbers are below a bound.
//! Each segment is a lawful collection; all together need not be one.
//!
//! [`open_archive`] opens all files of an archive. Files are never changed once a manifest names them, and an open file
//! survives its removal, so what is open stays as it is if another program changes the folder. [`find`] asks the segments
//! side by side: of each one only what the query asks about is read, and the numbers of its documents are counted on from
//! the segments before. [`check`] reads all of an archive, one segment at a time.
//!
//! ```text
//! let opened = open_archive(alloc, &files, "mail")?;
//! let lines = find(rt, alloc, &opened, "red AND fox*")?;
//! ```
//!
//! Proved: if each answer of the files was as they were, and an archive is in the folder, just this archive is opened, and
//! its names are returned for exactly the documents that satisfy the query and are not removed. An error is out of memory,
//! a read that failed, or the query's own first fault. For all other files a call is safe and ends. A fault in a part of a
//! segment that is not read is not seen. If a check finds no fault, the texts of segments that it read are those of an
//! archive, with the manifest and the removals that are open; and if it finds one, they are those of none.
#![tactic(auto)]

mod archive_error;
mod checked;
mod checking;
mod finding;
mod opened;
mod opening;
mod places;
mod read_error;
mod searching;

pub use archive_error::ArchiveError;
pub use checked::{Checked, Counts};
pub use checking::check;
pub use opened::Opened;
pub use opening::open_archive;
pub use places::{manifest_at, removals_at, segment_at};
pub use read_error::ReadError;
pub use searching::find;
