//! What `--trust` prints of index files that are cut, changed, or cannot be read.

use super::disk::Disk;
use super::session::{FILES, play, tell, words_of};
use std::process::Abort;
use std::sync::Wait;
use std::test::Fail;
use std::thread::Threads;

/// An index file of each version.
const INDEXES: [&str; 2] = ["five.ix", "five2.ix"];

/// Questions, without the word that names the index.
const QUESTIONS: [(&str, &str); 6] = [
    ("search", "x"),
    ("search", "'NOT y'"),
    ("search", "'x NEAR/1 y'"),
    ("search", "'\"x y\"'"),
    ("search", "'x* OR none'"),
    ("terms", "*y"),
];

/// What is done to a byte of a file.
const CHANGES: [u8; 4] = [0x01, 0x80, 0x7f, 0xff];

/// More calls of files than a question has.
const CALLS: usize = 16;

/// What a question to a file prints, with these words before the file.
fn told_of<R: AllocGlobal + Abort + Threads + Wait + Sync>(
    rt: &R,
    disk: &mut Disk,
    command: &str,
    file: &str,
    question: &str,
) -> Result<String, Fail> {
    let line = format!(in rt.alloc(); "{command} {file} {question}")?;
    let words = words_of(rt.alloc(), &line)?;
    let mut told = String::new(rt.alloc());
    tell(rt, disk, &words, &mut told)?;
    Ok(told)
}

/// Whether a line is that of an error of the index, or of the query under its stop terms.
fn is_of_text(told: &str) -> bool {
    told.starts_with("! ix: index ") || told.starts_with("! ix: query ")
}

/// Asks a file in both ways. If the exact reader opens it, both print the same; else the other way ends, with an error of
/// the index or with the answer of some other index.
fn ask_both<R: AllocGlobal + Abort + Threads + Wait + Sync>(
    rt: &R,
    disk: &mut Disk,
) -> Result<(), Fail> {
    for (command, question) in QUESTIONS {
        let exact = told_of(rt, disk, command, "changed.ix", question)?;
        let trusting = format!(in rt.alloc(); "{command} --trust")?;
        let told = told_of(rt, disk, &trusting, "changed.ix", question)?;
        if exact.starts_with("! ix: index ") {
            assert!(rt; !told.contains("another status"), "{told}");
            assert!(rt; !told.starts_with("! ") || is_of_text(&told), "{told}");
        } else {
            assert_eq!(rt; told, exact);
        }
    }
    Ok(())
}

#[test]
fn changed_files_give_their_own_answers_or_an_error(rt: HostRuntime) -> Result<(), Fail> {
    let mut disk = Disk::new(rt.alloc())?;
    play(&rt, &mut disk, "", FILES)?;
    for index in INDEXES {
        let Some(bytes) = disk.files.bytes(index) else {
            return Err("no index")?;
        };
        let bytes = Vec::from_slice(rt.alloc(), bytes)?;
        for place in 0..bytes.len() {
            disk.files.put("changed.ix", &bytes[..place])?;
            ask_both(&rt, &mut disk)?;
            for change in CHANGES {
                let mut changed = bytes.clone()?;
                changed[place] ^= change;
                disk.files.put("changed.ix", &changed)?;
                ask_both(&rt, &mut disk)?;
            }
        }
    }
    Ok(())
}

#[test]
fn each_call_of_files_may_fail(rt: HostRuntime) -> Result<(), Fail> {
    for index in INDEXES {
        for (command, question) in QUESTIONS {
            for (starved, line) in [(false, "file 1: Read("), (true, "memory 1: Memory")] {
                let mut disk = Disk::new(rt.alloc())?;
                play(&rt, &mut disk, "", FILES)?;
                let whole = told_of(&rt, &mut disk, command, index, question)?;
                let trusting = format!(in rt.alloc(); "{command} --trust")?;
                let mut last_failed = 0;
                for number in 1..CALLS {
                    disk.files.fail_at(number, starved);
                    let told = told_of(&rt, &mut disk, &trusting, index, question)?;
                    if told == whole {
                        continue;
                    }
                    assert!(rt; told.starts_with("! ix: ") && told.contains(line), "{told}");
                    last_failed = number;
                }
                // The file was looked at and opened, and its size, trailer, STOP, DICTIONARY and DOCS were read.
                assert!(rt; last_failed >= 6);
            }
        }
    }
    Ok(())
}
