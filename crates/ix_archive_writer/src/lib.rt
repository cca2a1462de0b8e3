//! Changes of an archive on disk: documents are added and removed.
//!
//! Each call locks the archive's folder and puts what is there on the disk. Then it removes what killed programs left, and
//! makes its change by one commit: it writes a new file, and publishes a manifest that names it (`ix_folder`). [`add`] writes
//! the index text of the new documents as one segment more. [`remove`] writes the removals that take the place of those
//! before. A file that the manifest names is never changed.
//!
//! Proved: if each answer of the files was as they were, a stop of the program or of the machine at any moment leaves the
//! archive as it was or as it is after the change. Once a call returns `Ok`, each stop leaves it as it is after the change.
#![tactic(auto)]

mod adding;
mod change_error;
mod committing;
mod digest;
mod documents;
mod finding;
mod gone_documents;
mod locations;
mod new_documents;
mod opening;
mod reading;
mod removals;
mod taking;
mod writing;

pub use change_error::ChangeError;
pub use digest::{Digested, digest_of};
pub use gone_documents::remove;
pub use new_documents::add;
