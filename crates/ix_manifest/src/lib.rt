//! The manifest of an archive on disk: a text that says which files of a folder make up the archive.
//!
//! An archive is a folder with segments, which are index files, at most one file of removals, and one manifest. Files
//! have numbers, and the manifest names them in the order of the segments' documents:
//!
//! ```text
//! ix archive 1
//! next 5
//! segment 3 1000 52431 7692c3ad3540bb803c020b3aee66cd8887123234ea0c6e7143c0add73ff431ed
//! segment 4 20 1187 3fc4ccfe745870e2c0d99f71f30ff0656c8dedd41cc1d7d3d376b0dbe685e2f3
//! removals 2 17 64 8b5b9db0c13db24256c829aa364aa90c6d2eba318b9232a4ab9313b954d3555f
//! end 24ae8d956ad82d028d870bf2f726f0a528e7afd7b456dc8d74f39874cf0bb050
//! ```
//!
//! Each line ends in LF. `next` is the number of the next file that is written, above those of all files here. A segment
//! has its file, its documents, the bytes of the file and their SHA-256; the removals have their file, how many lines the
//! file has, the bytes of the file and their SHA-256. There may be no segment, and the line of the removals may be
//! missing. Behind `end` is the SHA-256 of all bytes before that line. Numbers are decimal without leading zeros, and
//! digests are 64 lower-case hexadecimal digits.
//!
//! [`Manifest::text`] writes a manifest, and [`read`] reads one.
//!
//! A manifest is lawful if no two of its files have the same number, each of these numbers is below `next`, and each
//! segment has at most 2^28 documents ([`Manifest::is_lawful`]).
//!
//! Proved: a manifest is written as the text above. If the bytes are the text of a lawful manifest, `read` returns that
//! manifest, or `Memory` if out of memory. For all other bytes it returns an error, so a byte that was changed is
//! reported unless two texts have the same SHA-256. Which line an error names is only tested.
#![tactic(auto)]

mod lawful;
mod manifest;
mod manifest_error;
mod reading;
mod scan;
#[cfg(test)]
mod tests;
mod writing;

pub use manifest::{Manifest, Removals, Segment};
pub use manifest_error::ManifestError;
pub use reading::read;
