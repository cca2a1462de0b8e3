//! The files that a program names: what is read, and what is written whole or not at all.
//!
//! [`Files`] is what the layers above are generic in. Its clauses say what each call does to which name and that nothing else
//! changes, also at each moment between: what a stop of the program or of the machine leaves. They hold if each answer of the
//! system so far was as the files were ([`Files`], `honest`), which no program can find out. [`MemoryFiles`] are always so, and all
//! of it is proved of them; of [`SystemFiles`] nothing is claimed but that their calls are safe and end.
//!
//! A file that is read in part only is opened to be read by ranges ([`ReadAt`]); [`Slice`] reads bytes in memory so.
//!
//! A command opens what it reads by [`Files`], calls [`begin_output`] once all of it was read, writes into the output's writer, and
//! ends with [`finish_output`], or with [`discard_output`] after an error. Until then what has the output's name is untouched, and
//! a stop at any moment leaves it, or the new file whole. [`begin`], [`finish`] and [`discard`] do so for a file whose name is known.
#![tactic(auto)]

mod draft;
mod file_error;
mod files;
mod kind;
mod location;
mod memory_changes;
mod memory_files;
mod memory_ranges;
mod memory_shared;
mod memory_writer;
mod output;
mod read_at;
mod reading;
mod removing;
mod shared_files;
mod system_files;
mod system_ranges;
mod system_shared;

pub use draft::{Draft, begin, discard, finish};
pub use file_error::FileError;
pub use files::Files;
pub use kind::Kind;
pub use location::Location;
pub use memory_files::MemoryFiles;
pub use memory_ranges::MemoryRanges;
pub use memory_shared::MemoryShared;
pub use memory_writer::MemoryWriter;
pub use output::{DraftNames, Output, begin_output, discard_output, finish_output, locate_output};
pub use read_at::{ReadAt, Slice};
pub use reading::{read_front, read_up_to};
pub use removing::remove_all;
pub use shared_files::SharedFiles;
pub use system_files::{SystemFiles, SystemReader, SystemWriter};
pub use system_ranges::SystemRanges;
pub use system_shared::{SharedFile, SystemShared};
