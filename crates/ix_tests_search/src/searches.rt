//! An archive is opened and searched.

use super::archives::{FOLDER, SOUND, archive};
use ix_archive::{ArchiveError, ReadError, find, open_archive};
use ix_files::{Files, Location, MemoryFiles};
use ix_manifest::Manifest;
use ix_query::QueryError;
use std::alloc::Global;
use std::test::Fail;
use std::thread::Threads;

/// The names of the documents that satisfy a query, each with a space, or the error.
fn found<R: Threads + Sync>(
    rt: &R,
    alloc: Global,
    files: &MemoryFiles,
    query: &str,
) -> Result<Vec<u8>, ReadError> {
    let opened = open_archive(alloc, files, FOLDER)?;
    let lines = find(rt, alloc, &opened, query)?;
    Ok(lines.bytes)
}

/// The error of opening the archive.
fn fault(alloc: Global, files: &MemoryFiles) -> Option<ReadError> {
    open_archive(alloc, files, FOLDER).err()
}

#[test]
fn names_of_all_segments(rt: HostRuntime) -> Result<(), Fail> {
    let files = archive(rt.alloc(), &SOUND)?;
    for (query, names) in [
        ("fox", "2\n1\n"),
        ("red", "3\n"),
        ("blue", "1\n"),
        ("NOT red", "2\n1\n"),
        ("NOT fox", "3\n"),
        ("blue OR red", "1\n3\n"),
        ("\"red fox\"", ""),
        ("b*", "1\n"),
        ("green", ""),
    ] {
        let lines = found(&rt, rt.alloc(), &files, query);
        assert!(rt;
            lines.is_ok_and(|lines| lines.as_slice() == names.as_bytes()),
            "{query}"
        );
    }
    for (query, error) in [
        ("fox AND", QueryError::End),
        ("to", QueryError::OnlyStopWords),
    ] {
        let lines = found(&rt, rt.alloc(), &files, query);
        assert!(rt; lines.err() == Some(ReadError::Query(error)), "{query}");
    }
    Ok(())
}

#[test]
fn faults_of_files(rt: HostRuntime) -> Result<(), Fail> {
    let alloc = rt.alloc();
    let none = MemoryFiles::new(alloc)?;
    assert!(rt; fault(alloc, &none) == Some(ReadError::Archive(ArchiveError::NoManifest)));
    for (name, error) in [
        ("segment-1", ArchiveError::Missing(1)),
        ("segment-2", ArchiveError::Missing(2)),
        ("removals-3", ArchiveError::Missing(3)),
        ("manifest", ArchiveError::NoManifest),
    ] {
        let mut files = archive(alloc, &SOUND)?;
        let name = String::from_str(alloc, name)?;
        files.remove(&Location::new(alloc, String::new(alloc), name)?)?;
        assert!(rt; fault(alloc, &files) == Some(ReadError::Archive(error)));
    }
    for (name, text, error) in [
        ("segment-2", "PIIX0002", ArchiveError::Differs(2)),
        ("removals-3", "3\t1\n", ArchiveError::Differs(3)),
        (
            "manifest",
            "ix archive 1\nnext 4\n",
            ArchiveError::Manifest(3),
        ),
        ("manifest", "ix archive 2\n", ArchiveError::Manifest(1)),
    ] {
        let mut files = archive(alloc, &SOUND)?;
        files.put(name, text.as_bytes())?;
        assert!(rt;
            fault(alloc, &files) == Some(ReadError::Archive(error)),
            "{name}"
        );
    }
    Ok(())
}

#[test]
fn an_archive_without_segments_is_none(rt: HostRuntime) -> Result<(), Fail> {
    let alloc = rt.alloc();
    let manifest = Manifest {
        next: 1,
        segments: Vec::new(alloc),
        removals: None,
    };
    let mut files = MemoryFiles::new(alloc)?;
    files.put("manifest", manifest.text(alloc)?.as_bytes())?;
    assert!(rt; fault(alloc, &files) == Some(ReadError::Archive(ArchiveError::Manifest(3))));
    Ok(())
}

#[test]
fn each_call_fails_in_turn(rt: HostRuntime) -> Result<(), Fail> {
    let alloc = rt.alloc();
    let mut files = archive(alloc, &SOUND)?;
    for starved in [false, true] {
        for number in 1..200 {
            files.fail_at(number, starved);
            match found(&rt, alloc, &files, "fox") {
                Ok(lines) => {
                    assert!(rt; lines.as_slice() == b"2\n1\n".as_slice());
                    assert!(rt; number > 10 && files.calls() < number);
                    break;
                }
                Err(error) => {
                    assert!(rt;
                        error == ReadError::Read || error == ReadError::Memory,
                        "{number}"
                    );
                    assert!(rt; number < 199);
                }
            }
        }
    }
    Ok(())
}
