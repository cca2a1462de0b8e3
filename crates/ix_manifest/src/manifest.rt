//! The manifest of an archive.

/// A segment of an archive.
#[derive(Clone, Copy, Debug, PartialEq, Eq)]
pub struct Segment {
    /// The number of its file.
    pub file: u64,
    /// How many documents it has.
    pub documents: u32,
    /// How many bytes the file has.
    pub bytes: u64,
    /// The SHA-256 of these bytes.
    pub digest: [u8; 32],
}

/// The file that says which documents of an archive are removed.
#[derive(Clone, Copy, Debug, PartialEq, Eq)]
pub struct Removals {
    /// The number of the file.
    pub file: u64,
    /// How many lines it has.
    pub count: u64,
    /// How many bytes the file has.
    pub bytes: u64,
    /// The SHA-256 of these bytes.
    pub digest: [u8; 32],
}

/// The files of an archive.
#[derive(Debug, Drop)]
pub struct Manifest {
    /// The number of the next file that is written.
    pub next: u64,
    /// The segments, in the order of their documents.
    pub segments: Vec<Segment>,
    /// The removals, if there are any.
    pub removals: Option<Removals>,
}
