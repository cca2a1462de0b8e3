//! A folder with one manifest and the files that it names: what a stop leaves of it, and how a new manifest takes the
//! place of the one before.
//!
//! The manifest is the file `manifest`. It names files `segment-N` and `removals-N` of the folder, with decimal numbers;
//! this crate knows no more of it than its bytes. Beside them are `lock`, which a program that writes has locked, and
//! `manifest.new`, the manifest that is being written. A file is never changed once it was written.
//!
//! A program that writes calls [`settle`] first, since the one before may have been killed: what is there then has to be
//! on the disk before anything new is. [`sweep`] removes what that one left. A new file is begun by [`begin_file`], ended
//! by [`end_file`] or given up by [`drop_file`]. Then [`publish`] puts a manifest that names it in the place of the one
//! before. It syncs the folder before the rename, since the names of the new files have to be on the disk before a manifest
//! that names them is there, and after it, since nothing is to be acknowledged that a crash may take back.
//!
//! Proved of all [`Files`](ix_files::Files) whose answers are as the files were: a stop of the program or of the machine at
//! any moment of [`publish`] leaves the manifest before with its files, or the new one with its files; once it returns `Ok`,
//! each stop leaves the new one. The lemmas of `proofs/Laws.antt` are about the calls between: changes at other names leave
//! a manifest and its files as they are.
#![tactic(auto)]

mod folder_file;
mod own_names;
mod publish_error;
mod publishing;
mod sweeping;
#[cfg(test)]
mod tests;

pub use folder_file::{begin_file, drop_file, end_file};
pub use own_names::is_own_name;
pub use publish_error::PublishError;
pub use publishing::{publish, settle};
pub use sweeping::sweep;
