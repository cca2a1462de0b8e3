//! Files that are read by ranges.

use super::system::new_folder;
use ix_files::{FileError, Files, MemoryFiles, ReadAt, Slice, SystemFiles};
use std::alloc::Global;
use std::fs;
use std::test::Fail;

/// The bytes of each file that is read.
const BYTES: &[u8] = b"abcdef";

/// The bytes of a range.
fn read<S: ReadAt>(
    alloc: Global,
    source: &S,
    start: usize,
    size: usize,
) -> Result<Vec<u8>, FileError> {
    let mut bytes = Vec::new(alloc);
    source.append_at(&mut bytes, start, size)?;
    Ok(bytes)
}

/// Whether the ranges are those of `BYTES`, and no range is longer.
fn is_read<S: ReadAt>(alloc: Global, source: &S) -> Result<bool, FileError> {
    let mut bytes = Vec::from_slice(alloc, b"-")?;
    source.append_at(&mut bytes, 2, 3)?;
    source.append_at(&mut bytes, 6, 0)?;
    source.append_at(&mut bytes, 0, 6)?;
    for (start, size) in [(0, 7), (4, 3), (7, 1), (usize::MAX, 1)] {
        if read(alloc, source, start, size).err() != Some(FileError::Failed) {
            return Ok(false);
        }
    }
    Ok(source.size()? == 6 && bytes.as_slice() == b"-cdeabcdef".as_slice())
}

#[test]
fn ranges_of_bytes_in_memory(rt: HostRuntime) -> Result<(), Fail> {
    assert!(rt; is_read(rt.alloc(), &Slice { bytes: BYTES })?);
    Ok(())
}

#[test]
fn ranges_of_a_file(rt: HostRuntime) -> Result<(), Fail> {
    let files = SystemFiles { rt: &rt };
    let folder = new_folder(&rt, "ranges")?;
    let path = format!(in rt.alloc(); "{folder}/file")?;
    assert!(rt; files.open_ranges(path.as_str()).err() == Some(FileError::Failed));
    assert!(rt; files.open_ranges(folder.as_str()).err() == Some(FileError::Failed));
    fs::write(&rt, path.as_str(), BYTES)?;
    let ranges = files.open_ranges(path.as_str())?;
    assert!(rt; is_read(rt.alloc(), &ranges)?);
    // The file that is open was cut.
    fs::write(&rt, path.as_str(), b"abc")?;
    assert!(rt; ranges.size()? == 3);
    assert!(rt; read(rt.alloc(), &ranges, 2, 1)?.as_slice() == b"c".as_slice());
    assert!(rt; read(rt.alloc(), &ranges, 2, 3).err() == Some(FileError::Failed));
    fs::remove_dir_all(&rt, folder.as_str())?;
    Ok(())
}

/// Opens a file, and reads it in two ranges.
fn read_twice(alloc: Global, files: &MemoryFiles) -> Result<Vec<u8>, FileError> {
    let ranges = files.open_ranges("file")?;
    let size = ranges.size()?;
    let mut bytes = Vec::new(alloc);
    ranges.append_at(&mut bytes, 0, 1)?;
    ranges.append_at(&mut bytes, 1, size.saturating_sub(1))?;
    Ok(bytes)
}

#[test]
fn each_call_fails_in_turn(rt: HostRuntime) -> Result<(), Fail> {
    let mut files = MemoryFiles::new(rt.alloc())?;
    files.put("file", BYTES)?;
    files.put_stream("-", BYTES)?;
    for path in ["none", "-"] {
        assert!(rt; files.open_ranges(path).err() == Some(FileError::Failed));
    }
    assert!(rt; is_read(rt.alloc(), &files.open_ranges("file")?)?);
    for (starved, error) in [(false, FileError::Failed), (true, FileError::Memory)] {
        for number in 1..=4 {
            files.fail_at(number, starved);
            assert!(rt; read_twice(rt.alloc(), &files).err() == Some(error));
            assert!(rt; files.calls() == number);
        }
    }
    files.fail_at(0, false);
    assert!(rt; read_twice(rt.alloc(), &files)?.as_slice() == BYTES);
    assert!(rt; files.calls() == 4);
    Ok(())
}
