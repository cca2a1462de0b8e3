//! Tests of what no clause says: which call failed, and names.

use crate::{PublishError, begin_file, end_file, is_own_name, publish, settle, sweep};
use ix_files::{FileError, Files, Location, MemoryFiles};
use std::alloc::Global;
use std::io::Write;
use std::test::Fail;

/// The folder of the tests.
const FOLDER: &str = "archive";

/// How many calls of the files a change makes, if a new manifest was left.
const CALLS: usize = 9;

/// A name in the folder.
fn at(alloc: Global, name: &str) -> Result<Location, FileError> {
    let folder = String::from_str(alloc, FOLDER)?;
    let name = String::from_str(alloc, name)?;
    Ok(Location::new(alloc, folder, name)?)
}

/// A folder whose manifest names one segment, and in which a program was killed.
fn left_folder(alloc: Global) -> Result<MemoryFiles, Fail> {
    let mut files = MemoryFiles::new(alloc)?;
    for (name, bytes) in [
        ("manifest", "old"),
        ("segment-1", "one"),
        ("manifest.new", "left"),
        ("lock", ""),
    ] {
        files.put_at(FOLDER, name, bytes.as_bytes())?;
    }
    Ok(files)
}

/// Adds a segment, and publishes a manifest that names both.
fn change(alloc: Global, files: &mut MemoryFiles) -> Result<(), PublishError> {
    settle(files, FOLDER)?;
    let segment = at(alloc, "segment-2")?;
    let mut writer = begin_file(files, &segment)?;
    if writer.write_all(b"two").is_err() {
        return Err(PublishError::Write);
    }
    end_file(files, &segment, writer)?;
    publish(alloc, files, FOLDER, b"new")
}

#[test]
fn the_old_manifest_or_the_new_one(rt: HostRuntime) -> Result<(), Fail> {
    for failing in 0..=CALLS {
        let mut files = left_folder(rt.alloc())?;
        files.fail_at(failing, false);
        let result = change(rt.alloc(), &mut files);
        let manifest = files.bytes_at(FOLDER, "manifest");
        let is_new = manifest == Some(b"new".as_slice());
        assert!(rt; is_new || manifest == Some(b"old".as_slice()));
        assert!(rt; files.bytes_at(FOLDER, "segment-1") == Some(b"one".as_slice()));
        let second = files.bytes_at(FOLDER, "segment-2");
        assert!(rt; !is_new || second == Some(b"two".as_slice()));
        assert!(rt; result.is_ok() == (failing == 0));
        assert!(rt; (result == Err(PublishError::NotKept)) == (failing > 7));
        assert!(rt; is_new == (failing == 0 || failing == CALLS));
        assert!(rt; failing != 0 || files.calls() == CALLS);
    }
    Ok(())
}

#[test]
fn a_full_disk_leaves_the_old_manifest(rt: HostRuntime) -> Result<(), Fail> {
    let mut files = left_folder(rt.alloc())?;
    files.set_room(2);
    let result = publish(rt.alloc(), &mut files, FOLDER, b"new");
    assert!(rt; result == Err(PublishError::Write));
    assert!(rt; files.bytes_at(FOLDER, "manifest") == Some(b"old".as_slice()));
    assert!(rt; files.bytes_at(FOLDER, "manifest.new").is_none());
    Ok(())
}

#[test]
fn what_was_left_is_removed(rt: HostRuntime) -> Result<(), Fail> {
    let mut files = left_folder(rt.alloc())?;
    for name in ["segment-2", "removals-30", "segment-02", "other"] {
        files.put_at(FOLDER, name, b"bytes")?;
    }
    let keep = [String::from_str(rt.alloc(), "segment-1")?];
    sweep(rt.alloc(), &mut files, FOLDER, &keep)?;
    for name in ["manifest.new", "segment-2", "removals-30"] {
        assert!(rt; files.bytes_at(FOLDER, name).is_none());
    }
    for name in ["manifest", "lock", "segment-1", "segment-02", "other"] {
        assert!(rt; files.bytes_at(FOLDER, name).is_some());
    }
    Ok(())
}

#[test]
fn own_names(rt: HostRuntime) -> Result<(), Fail> {
    for name in [
        "lock",
        "manifest.new",
        "segment-0",
        "segment-18446744073709551615",
        "removals-7",
    ] {
        assert!(rt; is_own_name(name));
    }
    for name in [
        "",
        "manifest",
        "Lock",
        "segment-",
        "segment-01",
        "segment-+1",
        "segment-18446744073709551616",
        "removals-7 ",
    ] {
        assert!(rt; !is_own_name(name));
    }
    Ok(())
}
