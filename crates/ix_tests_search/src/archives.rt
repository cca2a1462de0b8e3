//! An archive of two segments and a removal.

use ix_ask::index_alone;
use ix_files::MemoryFiles;
use ix_manifest::{Manifest, Removals as RemovalsLine, Segment};
use ix_removals::Removals;
use ix_text::StopList;
use sha2::{Digest, Sha256};
use std::alloc::Global;
use std::test::Fail;

/// The folder that is the archive.
pub const FOLDER: &str = ".";

/// What differs from one archive to another.
#[derive(Clone, Copy)]
pub struct Parts {
    /// The stop terms of the second segment.
    pub stop: &'static str,
    /// The number below which the documents of the name `1` are removed.
    pub below: u64,
}

/// The parts of an archive that is as it must be.
pub const SOUND: Parts = Parts {
    stop: "to\n",
    below: 2,
};

/// The documents of the segments: numbers 0 and 1, and numbers 2 and 3.
const TEXTS: [&str; 2] = ["1\tred fox\n2\tfox to\n", "1\tblue fox\n3\tred\n"];

/// Puts an index file into the folder, and gives the line of the manifest.
fn put_segment(
    alloc: Global,
    files: &mut MemoryFiles,
    file: u64,
    stop: &str,
    text: &str,
) -> Result<Segment, Fail> {
    let stop = StopList::read(alloc, stop)?;
    let Ok(index) = index_alone(alloc, text.as_bytes(), &stop) else {
        return Err(Fail::from("no index"));
    };
    let name = format!(in alloc; "segment-{file}")?;
    files.put(name.as_str(), &index)?;
    Ok(Segment {
        file,
        documents: 2,
        bytes: index.len() as u64,
        digest: Sha256::digest(&index),
    })
}

/// Puts the removal of the documents `1` into the folder, and gives the line of the manifest.
fn put_removals(
    alloc: Global,
    files: &mut MemoryFiles,
    file: u64,
    below: u64,
) -> Result<RemovalsLine, Fail> {
    let removals = Removals::new(alloc).with(alloc, &["1"], below.max(1))?;
    let text = removals.text(alloc)?;
    let name = format!(in alloc; "removals-{file}")?;
    files.put(name.as_str(), text.as_bytes())?;
    Ok(RemovalsLine {
        file,
        count: 1,
        bytes: text.len() as u64,
        digest: Sha256::digest(text.as_str()),
    })
}

/// The files of an archive.
pub fn archive(alloc: Global, parts: &Parts) -> Result<MemoryFiles, Fail> {
    let mut files = MemoryFiles::new(alloc)?;
    let one = put_segment(alloc, &mut files, 1, SOUND.stop, TEXTS[0])?;
    let other = put_segment(alloc, &mut files, 2, parts.stop, TEXTS[1])?;
    let removals = put_removals(alloc, &mut files, 3, parts.below)?;
    let manifest = Manifest {
        next: 4,
        segments: vec![in alloc; one, other]?,
        removals: Some(removals),
    };
    let text = manifest.text(alloc)?;
    files.put("manifest", text.as_bytes())?;
    Ok(files)
}
