//! An archive is checked.

use super::archives::{FOLDER, Parts, SOUND, archive};
use ix_archive::{ArchiveError, Checked, Counts, ReadError, check, open_archive};
use ix_files::MemoryFiles;
use std::alloc::Global;
use std::test::Fail;
use std::thread::Threads;

/// Opens an archive and checks it.
fn checked<R: Threads + Sync>(
    rt: &R,
    alloc: Global,
    files: &MemoryFiles,
) -> Result<Checked, ReadError> {
    let opened = open_archive(alloc, files, FOLDER)?;
    check(rt, alloc, &opened)
}

/// The bytes of a file.
fn bytes_of(alloc: Global, files: &MemoryFiles, name: &str) -> Result<Vec<u8>, Fail> {
    match files.bytes(name) {
        Some(bytes) => Ok(Vec::from_slice(alloc, bytes)?),
        None => Err(Fail::from("a file is missing")),
    }
}

/// The bytes, of which the one at a place is another one.
fn changed(alloc: Global, bytes: &[u8], place: usize) -> Result<Vec<u8>, Fail> {
    let mut changed = Vec::from_slice(alloc, bytes)?;
    if let Some(byte) = changed.get_mut(place) {
        *byte ^= 1;
    }
    Ok(changed)
}

#[test]
fn counts_of_a_sound_archive(rt: HostRuntime) -> Result<(), Fail> {
    let alloc = rt.alloc();
    let files = archive(alloc, &SOUND)?;
    let first = bytes_of(alloc, &files, "segment-1")?;
    let second = bytes_of(alloc, &files, "segment-2")?;
    let counts = Counts {
        documents: 4,
        removed: 1,
        segments: 2,
        bytes: first.len() as u64 + second.len() as u64,
    };
    let Ok(Checked::Sound(found)) = checked(&rt, alloc, &files) else {
        return Err(Fail::from("a sound archive has a fault"));
    };
    assert!(rt; found == counts);
    Ok(())
}

#[test]
fn faults_in_the_order_of_the_manifest(rt: HostRuntime) -> Result<(), Fail> {
    let alloc = rt.alloc();
    for (stop, below, wanted) in [
        ("of\n", 2, [ArchiveError::Differs(2)].as_slice()),
        ("to\n", 5, [ArchiveError::Differs(3)].as_slice()),
        (
            "",
            9,
            [ArchiveError::Differs(2), ArchiveError::Differs(3)].as_slice(),
        ),
    ] {
        let files = archive(alloc, &Parts { stop, below })?;
        let Ok(Checked::Faulty(faults)) = checked(&rt, alloc, &files) else {
            return Err(Fail::from("a fault was not found"));
        };
        assert!(rt; faults.as_slice() == wanted);
    }
    Ok(())
}

#[test]
fn each_byte_of_a_segment_counts(rt: HostRuntime) -> Result<(), Fail> {
    let alloc = rt.alloc();
    let mut files = archive(alloc, &SOUND)?;
    for (name, fault) in [
        ("segment-1", ArchiveError::Differs(1)),
        ("segment-2", ArchiveError::Differs(2)),
    ] {
        let bytes = bytes_of(alloc, &files, name)?;
        for place in 0..bytes.len() {
            files.put(name, &changed(alloc, &bytes, place)?)?;
            let Ok(Checked::Faulty(faults)) = checked(&rt, alloc, &files) else {
                return Err(Fail::from("a changed byte was not found"));
            };
            assert!(rt; faults.as_slice() == [fault].as_slice());
        }
        files.put(name, &bytes)?;
    }
    Ok(())
}

#[test]
fn each_byte_of_a_manifest_counts(rt: HostRuntime) -> Result<(), Fail> {
    let alloc = rt.alloc();
    let mut files = archive(alloc, &SOUND)?;
    let bytes = bytes_of(alloc, &files, "manifest")?;
    for place in 0..bytes.len() {
        files.put("manifest", &changed(alloc, &bytes, place)?)?;
        let error = open_archive(alloc, &files, FOLDER).err();
        assert!(rt; matches!(error, Some(ReadError::Archive(ArchiveError::Manifest(_)))));
    }
    Ok(())
}

#[test]
fn each_call_fails_in_turn(rt: HostRuntime) -> Result<(), Fail> {
    let alloc = rt.alloc();
    let mut files = archive(alloc, &SOUND)?;
    for starved in [false, true] {
        for number in 1..200 {
            files.fail_at(number, starved);
            match checked(&rt, alloc, &files) {
                Ok(found) => {
                    assert!(rt; matches!(found, Checked::Sound(_)));
                    assert!(rt; number > 10 && files.calls() < number);
                    break;
                }
                Err(error) => {
                    assert!(rt; error == ReadError::Read || error == ReadError::Memory);
                    assert!(rt; number < 199);
                }
            }
        }
    }
    Ok(())
}
