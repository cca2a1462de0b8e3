//! Outputs over files of the system.

use super::writing::write_to;
use ix_files::{
    FileError, Files, Kind, SharedFiles, SystemFiles, begin_output, discard_output, finish_output,
    read_front,
};
use std::alloc::{AllocError, Global};
use std::io::{Read, Write};
use std::os::unix::fs::{PermissionsExt, symlink};
use std::test::Fail;
use std::{env, fs, process};

/// Makes a folder that no other test and no other process has.
pub(super) fn new_folder(rt: &HostRuntime, word: &str) -> Result<String, Fail> {
    let above = env::temp_dir(rt)?;
    let process = process::id(rt.process());
    let folder = format!(in rt.alloc(); "{}/ix-files-{process}-{word}", above.as_path().display())?;
    fs::create_dir(rt, folder.as_str())?;
    Ok(folder)
}

/// Whether the file has these bytes.
fn holds(rt: &HostRuntime, path: &str, text: &[u8]) -> Result<bool, Fail> {
    Ok(fs::read(rt, path)?.as_slice() == text)
}

/// Whether there is anything at the path.
fn is_there(rt: &HostRuntime, path: &str) -> bool {
    fs::symlink_metadata(rt, path).is_ok()
}

#[test]
fn a_new_file_and_its_draft(rt: HostRuntime) -> Result<(), Fail> {
    let mut files = SystemFiles { rt: &rt };
    let folder = new_folder(&rt, "new")?;
    let path = format!(in rt.alloc(); "{folder}/out")?;
    let draft = format!(in rt.alloc(); "{folder}/.out.ix-1")?;
    assert!(rt; files.kind(path.as_str())? == Kind::Missing);
    let mut output = begin_output(rt.alloc(), &mut files, path.as_str())?;
    output.writer.write_all(b"new")?;
    assert!(rt; is_there(&rt, draft.as_str()) && !is_there(&rt, path.as_str()));
    finish_output(&mut files, path.as_str(), output)?;
    assert!(rt; holds(&rt, path.as_str(), b"new")? && !is_there(&rt, draft.as_str()));
    assert!(rt; files.kind(path.as_str())? == Kind::File);
    assert!(rt; files.kind(folder.as_str())? == Kind::Folder);
    fs::remove_dir_all(&rt, folder.as_str())?;
    Ok(())
}

#[test]
fn the_mode_is_kept(rt: HostRuntime) -> Result<(), Fail> {
    let mut files = SystemFiles { rt: &rt };
    let folder = new_folder(&rt, "mode")?;
    let path = format!(in rt.alloc(); "{folder}/out")?;
    fs::write(&rt, path.as_str(), b"old")?;
    fs::set_permissions(&rt, path.as_str(), fs::Permissions::from_mode(0o640))?;
    write_to(rt.alloc(), &mut files, path.as_str(), b"new")?;
    let mode = fs::metadata(&rt, path.as_str())?.permissions().mode();
    assert!(rt; holds(&rt, path.as_str(), b"new")? && mode & 0o7777 == 0o640);
    fs::remove_dir_all(&rt, folder.as_str())?;
    Ok(())
}

#[test]
fn links_are_followed(rt: HostRuntime) -> Result<(), Fail> {
    let mut files = SystemFiles { rt: &rt };
    let folder = new_folder(&rt, "links")?;
    let first = format!(in rt.alloc(); "{folder}/first")?;
    let second = format!(in rt.alloc(); "{folder}/second")?;
    let real = format!(in rt.alloc(); "{folder}/real")?;
    symlink(&rt, "second", first.as_str())?;
    symlink(&rt, real.as_str(), second.as_str())?;
    // They lead to nothing, and then to a file.
    for text in ["one", "two"] {
        write_to(rt.alloc(), &mut files, first.as_str(), text.as_bytes())?;
        assert!(rt; holds(&rt, real.as_str(), text.as_bytes())?);
        assert!(rt; fs::symlink_metadata(&rt, first.as_str())?.is_symlink());
        assert!(rt; fs::symlink_metadata(&rt, second.as_str())?.is_symlink());
    }
    assert!(rt; files.is_same(first.as_str(), real.as_str())?);
    assert!(rt; !files.is_same(first.as_str(), folder.as_str())?);
    // A link to itself leads nowhere.
    let loop_path = format!(in rt.alloc(); "{folder}/loop")?;
    symlink(&rt, "loop", loop_path.as_str())?;
    let result = write_to(rt.alloc(), &mut files, loop_path.as_str(), b"new");
    assert!(rt; result == Err(FileError::Failed));
    fs::remove_dir_all(&rt, folder.as_str())?;
    Ok(())
}

#[test]
fn drafts_that_are_left_and_drafts_that_are_locked(rt: HostRuntime) -> Result<(), Fail> {
    let mut files = SystemFiles { rt: &rt };
    let folder = new_folder(&rt, "drafts")?;
    let path = format!(in rt.alloc(); "{folder}/out")?;
    let first = format!(in rt.alloc(); "{folder}/.out.ix-1")?;
    let second = format!(in rt.alloc(); "{folder}/.out.ix-2")?;
    let third = format!(in rt.alloc(); "{folder}/.out.ix-3")?;
    fs::write(&rt, path.as_str(), b"old")?;
    fs::write(&rt, first.as_str(), b"left")?;
    fs::write(&rt, second.as_str(), b"left")?;
    // What was left is removed, and its number is taken again.
    let one = begin_output(rt.alloc(), &mut files, path.as_str())?;
    assert!(rt; !is_there(&rt, second.as_str()));
    let other = begin_output(rt.alloc(), &mut files, path.as_str())?;
    assert!(rt; !is_there(&rt, first.as_str()) || !holds(&rt, first.as_str(), b"left")?);
    assert!(rt; is_there(&rt, second.as_str()));
    discard_output(&mut files, path.as_str(), one);
    assert!(rt; holds(&rt, path.as_str(), b"old")?);
    finish_output(&mut files, path.as_str(), other)?;
    assert!(rt; holds(&rt, path.as_str(), b"")?);
    for draft in [&first, &second, &third] {
        assert!(rt; !is_there(&rt, draft.as_str()));
    }
    fs::remove_dir_all(&rt, folder.as_str())?;
    Ok(())
}

/// A text that is longer than what is written or read at once.
fn long_text(alloc: Global) -> Result<String, AllocError> {
    "0123456789".repeat(alloc, 30_000)
}

#[test]
fn a_long_file_is_kept_whole(rt: HostRuntime) -> Result<(), Fail> {
    let alloc = rt.alloc();
    let mut files = SystemFiles { rt: &rt };
    let folder = new_folder(&rt, "whole")?;
    // A path that ends in a space leads to no other file.
    let path = format!(in alloc; "{folder}/out ")?;
    let text = long_text(alloc)?;
    write_to(alloc, &mut files, path.as_str(), text.as_bytes())?;
    assert!(rt; holds(&rt, path.as_str(), text.as_bytes())?);
    for room in [10, 1 << 20] {
        let read = read_front(alloc, &files, path.as_str(), room)?;
        assert!(rt; read.as_slice() == text.as_bytes().get(..room).unwrap_or(text.as_bytes()));
    }
    // A folder has no bytes to be read, and no path but one is that of the standard input.
    for path in [folder.as_str(), "-none"] {
        let read = read_front(alloc, &files, path, 1);
        assert!(rt; read.err() == Some(FileError::Failed));
    }
    assert!(rt; files.open_stream("-none").err() == Some(FileError::Failed));
    assert!(rt; files.kind("-none")? == Kind::Missing);
    fs::remove_dir_all(&rt, folder.as_str())?;
    Ok(())
}

#[test]
fn a_long_shared_file_is_kept_whole(rt: HostRuntime) -> Result<(), Fail> {
    let alloc = rt.alloc();
    let mut files = SystemFiles { rt: &rt };
    let folder = new_folder(&rt, "shared")?;
    let path = format!(in alloc; "{folder}/run")?;
    let text = long_text(alloc)?;
    let names = vec![in alloc; files.locate(path.as_str())?]?;
    let shared = files.share(names)?;
    assert!(rt; shared.open(0).err() == Some(FileError::Failed));
    // Of a longer file that is there nothing is left.
    fs::write(&rt, path.as_str(), format!(in alloc; "{text}{text}")?)?;
    let mut writer = shared.create(0)?;
    writer.write_all(text.as_bytes())?;
    shared.end(0, writer)?;
    assert!(rt; holds(&rt, path.as_str(), text.as_bytes())?);
    let mut read = Vec::new(alloc);
    let size = shared.open(0)?.read_to_end(&mut read)?;
    assert!(rt; size == text.len() && read.as_slice() == text.as_bytes());
    fs::remove_dir_all(&rt, folder.as_str())?;
    Ok(())
}

#[test]
fn a_name_of_255_bytes(rt: HostRuntime) -> Result<(), Fail> {
    let mut files = SystemFiles { rt: &rt };
    let folder = new_folder(&rt, "long")?;
    let mut path = format!(in rt.alloc(); "{folder}/x")?;
    for _ in 0..127 {
        path.push_str("é")?;
    }
    for text in ["one", "two"] {
        write_to(rt.alloc(), &mut files, path.as_str(), text.as_bytes())?;
        assert!(rt; holds(&rt, path.as_str(), text.as_bytes())?);
    }
    path.push_str("x")?;
    let result = write_to(rt.alloc(), &mut files, path.as_str(), b"new");
    assert!(rt; result == Err(FileError::Failed));
    fs::remove_dir_all(&rt, folder.as_str())?;
    Ok(())
}

#[test]
fn a_folder_is_locked_once(rt: HostRuntime) -> Result<(), Fail> {
    let files = SystemFiles { rt: &rt };
    let folder = new_folder(&rt, "lock")?;
    let lock = files.lock_folder(folder.as_str())?;
    assert!(rt; files.lock_folder(folder.as_str()).err() == Some(FileError::Locked));
    drop(lock);
    assert!(rt; files.lock_folder(folder.as_str()).is_ok());
    fs::remove_dir_all(&rt, folder.as_str())?;
    Ok(())
}

#[test]
fn what_cannot_be_written(rt: HostRuntime) -> Result<(), Fail> {
    let mut files = SystemFiles { rt: &rt };
    let folder = new_folder(&rt, "none")?;
    for name in ["", "/", "/.", "/..", "/none/out", "/out/"] {
        let path = format!(in rt.alloc(); "{folder}{name}")?;
        let result = write_to(rt.alloc(), &mut files, path.as_str(), b"new");
        assert!(rt; result == Err(FileError::Failed));
    }
    write_to(rt.alloc(), &mut files, "/dev/null", b"new")?;
    // Nothing is left in it.
    fs::remove_dir(&rt, folder.as_str())?;
    Ok(())
}
