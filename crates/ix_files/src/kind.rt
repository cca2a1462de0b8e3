//! What a path leads to.

/// What a path leads to.
#[derive(Clone, Copy, Debug, PartialEq, Eq)]
pub enum Kind {
    /// Nothing. The folder of that name may be missing too.
    Missing,
    /// A regular file.
    File,
    /// A folder.
    Folder,
    /// A device or a pipe, which is read and written as it is.
    Stream,
    /// A socket, or what the program does not know.
    Other,
}
