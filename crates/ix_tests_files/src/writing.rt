//! What both kinds of files are tested with.

use ix_files::{FileError, Files, begin_output, discard_output, finish_output};
use std::alloc::Global;
use std::io::Write;

/// Writes a text to a path: the whole of it, or nothing.
pub(super) fn write_to<F: Files>(
    alloc: Global,
    files: &mut F,
    path: &str,
    text: &[u8],
) -> Result<(), FileError> {
    let mut output = begin_output(alloc, files, path)?;
    match output.writer.write_all(text) {
        Ok(()) => finish_output(files, path, output),
        Err(_) => {
            discard_output(files, path, output);
            Err(FileError::Failed)
        }
    }
}
