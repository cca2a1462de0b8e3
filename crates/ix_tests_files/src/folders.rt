//! Names in folders: what is there, and what is made and locked.

use super::system::new_folder;
use ix_files::{FileError, Files, Kind, Location, MemoryFiles, ReadAt, SystemFiles};
use std::alloc::Global;
use std::fs;
use std::test::Fail;

/// The name in a folder.
fn at(alloc: Global, folder: &str, name: &str) -> Result<Location, FileError> {
    let folder = String::from_str(alloc, folder)?;
    let name = String::from_str(alloc, name)?;
    Ok(Location::new(alloc, folder, name)?)
}

/// The bytes of the file of a name, if there is one.
fn bytes_at<F: Files>(
    alloc: Global,
    files: &F,
    at: &Location,
) -> Result<Option<Vec<u8>>, FileError> {
    let Some(ranges) = files.open_at(at)? else {
        return Ok(None);
    };
    let mut bytes = Vec::new(alloc);
    ranges.append_at(&mut bytes, 0, ranges.size()?)?;
    Ok(Some(bytes))
}

/// Whether these are the names, in any order.
fn are(names: &[String], wanted: &[&str]) -> bool {
    names.len() == wanted.len()
        && wanted
            .iter()
            .all(|want| names.iter().any(|name| name.as_str() == *want))
}

#[test]
fn names_of_the_system(rt: HostRuntime) -> Result<(), Fail> {
    let mut files = SystemFiles { rt: &rt };
    let above = new_folder(&rt, "names")?;
    let path = format!(in rt.alloc(); "{above}/folder/")?;
    files.create_folder(path.as_str())?;
    files.create_folder(path.as_str())?;
    let folder = files.locate_folder(path.as_str())?;
    assert!(rt; files.list(folder.as_str())?.is_empty());
    let file = at(rt.alloc(), folder.as_str(), "file")?;
    assert!(rt; bytes_at(rt.alloc(), &files, &file)?.is_none());
    assert!(rt; files.list(file.path()).err() == Some(FileError::Failed));
    fs::write(&rt, file.path(), b"bytes")?;
    let inner = at(rt.alloc(), folder.as_str(), "inner")?;
    files.create_folder(inner.path())?;
    // There is no such folder above, and a file is no folder.
    for name in ["none/folder", "file", "file/folder"] {
        let path = at(rt.alloc(), folder.as_str(), name)?;
        assert!(rt; files.create_folder(path.path()).err() == Some(FileError::Failed));
    }
    assert!(rt; are(&files.list(folder.as_str())?, &["file", "inner"]));
    let bytes = bytes_at(rt.alloc(), &files, &file)?;
    assert!(rt; bytes.is_some_and(|bytes| bytes.as_slice() == b"bytes".as_slice()));
    assert!(rt; files.open_at(&inner).err() == Some(FileError::Failed));
    fs::remove_dir_all(&rt, above.as_str())?;
    Ok(())
}

#[test]
fn a_name_is_locked_once(rt: HostRuntime) -> Result<(), Fail> {
    let mut files = SystemFiles { rt: &rt };
    let above = new_folder(&rt, "name-lock")?;
    let folder = files.locate_folder(above.as_str())?;
    let file = at(rt.alloc(), folder.as_str(), "lock")?;
    let lock = files.lock(&file)?;
    assert!(rt; files.lock(&file).err() == Some(FileError::Locked));
    drop(lock);
    fs::write(&rt, file.path(), b"bytes")?;
    assert!(rt; files.lock(&file).is_ok());
    // What is there is not changed.
    assert!(rt; fs::read(&rt, file.path())?.as_slice() == b"bytes".as_slice());
    let none = at(rt.alloc(), folder.as_str(), "none/lock")?;
    assert!(rt; files.lock(&none).err() == Some(FileError::Failed));
    fs::remove_dir_all(&rt, above.as_str())?;
    Ok(())
}

#[test]
fn names_in_memory(rt: HostRuntime) -> Result<(), Fail> {
    let mut files = MemoryFiles::new(rt.alloc())?;
    assert!(rt; files.kind("archive")? == Kind::Missing);
    files.create_folder("archive")?;
    assert!(rt; files.kind("archive")? == Kind::Folder);
    files.put_at("archive", "file", b"bytes")?;
    files.put("file", b"other")?;
    let lock = at(rt.alloc(), "archive", "lock")?;
    files.lock(&lock)?;
    files.lock(&lock)?;
    assert!(rt; are(&files.list("archive")?, &["file", "lock"]));
    files.remove(&lock)?;
    assert!(rt; are(&files.list("archive")?, &["file"]));
    assert!(rt; files.bytes_at("archive", "file") == Some(b"bytes".as_slice()));
    assert!(rt; files.bytes_at("archive", "lock").is_none());
    assert!(rt; bytes_at(rt.alloc(), &files, &lock)?.is_none());
    assert!(rt; files.create_folder("file").err() == Some(FileError::Failed));
    let file = at(rt.alloc(), "archive", "file")?;
    files.fail_at(1, true);
    assert!(rt; files.open_at(&file).err() == Some(FileError::Memory));
    files.fail_at(1, true);
    assert!(rt; files.list("archive").err() == Some(FileError::Memory));
    files.fail_at(1, false);
    assert!(rt; files.create_folder("archive").err() == Some(FileError::Failed));
    files.fail_at(1, false);
    assert!(rt; files.lock(&lock).err() == Some(FileError::Failed));
    Ok(())
}
