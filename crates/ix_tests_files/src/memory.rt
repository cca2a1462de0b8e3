//! Outputs over files in memory.

use super::writing::write_to;
use ix_files::{FileError, Files, Kind, MemoryFiles};
use std::alloc::Global;
use std::io::Read;
use std::test::Fail;

/// The calls of an output that replaces a file, if two drafts were left.
const CALLS: usize = 8;

/// A file, two drafts of it that were left, and another file.
fn four_files(alloc: Global) -> Result<MemoryFiles, Fail> {
    let mut files = MemoryFiles::new(alloc)?;
    files.put("out", b"old")?;
    files.put(".out.ix-1", b"left")?;
    files.put(".out.ix-2", b"left")?;
    files.put("other", b"other")?;
    Ok(files)
}

#[test]
fn an_output_is_whole_or_not_there(rt: HostRuntime) -> Result<(), Fail> {
    for failing in 0..=CALLS {
        let mut files = four_files(rt.alloc())?;
        files.fail_at(failing, false);
        let result = write_to(rt.alloc(), &mut files, "out", b"new");
        // If a draft that was left is not removed, it is not the output's; and the folder is synced last.
        let is_whole = matches!(failing, 0 | 3 | 4);
        assert!(rt; result.is_ok() == is_whole);
        let there = if is_whole || failing == CALLS {
            "new"
        } else {
            "old"
        };
        assert!(rt; files.bytes("out") == Some(there.as_bytes()));
        assert!(rt; files.bytes("other") == Some(b"other".as_slice()));
        assert!(rt; files.bytes(".out.ix-1").is_none() == (failing == 0 || failing > 3));
        assert!(rt; files.bytes(".out.ix-3").is_none());
        assert!(rt; failing != 0 || files.calls() == CALLS);
    }
    Ok(())
}

#[test]
fn a_full_disk_leaves_the_old_file(rt: HostRuntime) -> Result<(), Fail> {
    let mut files = four_files(rt.alloc())?;
    files.set_room(2);
    let result = write_to(rt.alloc(), &mut files, "out", b"new");
    assert!(rt; result == Err(FileError::Failed));
    assert!(rt; files.bytes("out") == Some(b"old".as_slice()));
    assert!(rt; files.bytes(".out.ix-1").is_none() && files.bytes(".out.ix-2").is_none());
    Ok(())
}

#[test]
fn a_stream_is_written_as_it_is(rt: HostRuntime) -> Result<(), Fail> {
    let mut files = MemoryFiles::new(rt.alloc())?;
    files.put_stream("-", b"given")?;
    assert!(rt; files.kind("-")? == Kind::Stream);
    let mut given = Vec::new(rt.alloc());
    files.open("-")?.read_to_end(&mut given)?;
    assert!(rt; given.as_slice() == b"given".as_slice());
    write_to(rt.alloc(), &mut files, "-", b"new")?;
    assert!(rt; files.stream_bytes("-") == Some(b"new".as_slice()));
    Ok(())
}
