//! What the folder of an archive holds, read file by file.

use ix_file::{Index, Volume};
use ix_files::{Files, Location, MemoryFiles, ReadAt};
use ix_removals::Removals;
use std::alloc::Global;
use std::test::Fail;

/// The folder of the archive.
pub const FOLDER: &str = "a";

/// The bytes of a file in the folder, if there is one.
pub fn bytes_of(alloc: Global, files: &MemoryFiles, name: &str) -> Result<Option<Vec<u8>>, Fail> {
    let folder = String::from_str(alloc, FOLDER)?;
    let name = String::from_str(alloc, name)?;
    let at = Location::new(alloc, folder, name)?;
    let Some(ranges) = files.open_at(&at)? else {
        return Ok(None);
    };
    let mut bytes = Vec::new(alloc);
    ranges.append_at(&mut bytes, 0, ranges.size()?)?;
    Ok(Some(bytes))
}

/// The bytes of a file that has to be there.
fn bytes_there(alloc: Global, files: &MemoryFiles, name: &str) -> Result<Vec<u8>, Fail> {
    match bytes_of(alloc, files, name)? {
        Some(bytes) => Ok(bytes),
        None => Err(Fail::from("a file is missing")),
    }
}

/// The names of the documents that are there, each with a space behind it; none if there is no manifest.
pub fn held(alloc: Global, files: &MemoryFiles) -> Result<Option<String>, Fail> {
    let Some(text) = bytes_of(alloc, files, "manifest")? else {
        return Ok(None);
    };
    let manifest = ix_manifest::read(alloc, text.as_slice())?;
    let removals = match &manifest.removals {
        None => Removals::new(alloc),
        Some(line) => {
            let file = line.file;
            let name = format!(in alloc; "removals-{file}")?;
            ix_removals::read(alloc, &bytes_there(alloc, files, name.as_str())?)?
        }
    };
    let mut names = String::new(alloc);
    let mut number = 0;
    for segment in &manifest.segments {
        let file = segment.file;
        let name = format!(in alloc; "segment-{file}")?;
        let volume = Volume::open(alloc, bytes_there(alloc, files, name.as_str())?)?;
        let index = volume.index();
        for document in 0..index.doc_count() {
            let name = index.name(document);
            if !removals.is_removed(name, number) {
                write!(names, "{name} ")?;
            }
            let Some(next) = number.checked_add(1) else {
                return Err(Fail::from("too many documents"));
            };
            number = next;
        }
    }
    Ok(Some(names))
}
