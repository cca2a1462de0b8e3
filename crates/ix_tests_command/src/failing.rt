//! Calls of files that fail, one after another, in each command that writes a file.

use super::disk::Disk;
use super::session::{FILES, play, tell, words_of};
use std::process::Abort;
use std::sync::Wait;
use std::test::Fail;
use std::thread::Threads;

/// Lines that write `out`, in which there is something.
const LINES: [&str; 7] = [
    "build five out",
    "build --runs=runs --block=2 five out",
    "build --stop stop one out",
    "run ab out",
    "merge out 4.run 0.run 2.run",
    "merge out 0.run five.ix",
    "upgrade five.ix out",
];

/// More calls of files than a line has.
const CALLS: usize = 48;

/// A disk on which the call of this number fails, and what a line tells there.
fn told_with<R: AllocGlobal + Abort + Threads + Wait + Sync>(
    rt: &R,
    number: usize,
    room: usize,
    line: &str,
    told: &mut String,
) -> Result<Disk, Fail> {
    let mut disk = Disk::new(rt.alloc())?;
    play(rt, &mut disk, "", FILES)?;
    disk.files.put("out", b"old")?;
    disk.files.fail_at(number, false);
    disk.files.set_room(room);
    let words = words_of(rt.alloc(), line)?;
    tell(rt, &mut disk, &words, told)?;
    Ok(disk)
}

/// Whether each file is as it was, but `out`, and no new file is left.
fn keeps_others(disk: &Disk, other: &Disk) -> bool {
    disk.files.bytes("five") == other.files.bytes("five")
        && disk.files.bytes("five.ix") == other.files.bytes("five.ix")
        && disk.files.bytes("0.run") == other.files.bytes("0.run")
        && disk.files.bytes(".out.ix-1").is_none()
        && disk.files.bytes(".out.ix-2").is_none()
}

#[test]
fn a_call_that_fails_leaves_the_old_file(rt: HostRuntime) -> Result<(), Fail> {
    for line in LINES {
        let mut told = String::new(rt.alloc());
        let whole = told_with(&rt, 0, usize::MAX, line, &mut told)?;
        assert_eq!(rt; told.as_str(), "");
        let mut last_kept = 0;
        for number in 1..CALLS {
            let mut told = String::new(rt.alloc());
            let disk = told_with(&rt, number, usize::MAX, line, &mut told)?;
            let there = disk.files.bytes("out");
            if there == Some(b"old".as_slice()) {
                assert!(rt; told.starts_with("! ix: ") && !told.contains("Memory"));
                last_kept = number;
            } else {
                assert!(rt; there == whole.files.bytes("out"));
            }
            assert!(rt; keeps_others(&disk, &whole));
        }
        // The files were opened and looked at, and the new one was created, synced and renamed.
        assert!(rt; last_kept >= 5);
    }
    Ok(())
}

#[test]
fn a_write_that_fails_leaves_the_old_file(rt: HostRuntime) -> Result<(), Fail> {
    for line in LINES {
        for room in 0..32 {
            let mut told = String::new(rt.alloc());
            let disk = told_with(&rt, 0, room, line, &mut told)?;
            assert!(rt;
                told.ends_with("Write\n")
                    || told.ends_with("Write(out)\n")
                    || told.ends_with("Spill(0)\n")
            );
            assert!(rt; disk.files.bytes("out") == Some(b"old".as_slice()));
            assert!(rt; disk.files.bytes(".out.ix-1").is_none());
        }
    }
    Ok(())
}
