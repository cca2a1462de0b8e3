//! Documents are added and removed, and each call of the files fails in turn.

use super::held::{FOLDER, bytes_of, held};
use ix_archive::ArchiveError;
use ix_archive_writer::{ChangeError, add, remove};
use ix_build::{Cut, Plan, Runs, Unwatched};
use ix_files::MemoryFiles;
use ix_text::{Collection, StopList};
use std::sync::Wait;
use std::test::Fail;
use std::thread::Threads;

/// More calls of files than a change has.
const CALLS: usize = 80;

/// What the folder holds after each of the steps.
const HELD: [&str; 4] = ["1 2 ", "1 2 3 ", "2 3 ", "2 3 1 "];

/// Adds the documents of a collection text, under a stop list if one is given.
fn added<R: AllocGlobal + Threads + Wait + Sync>(
    rt: &R,
    files: &mut MemoryFiles,
    stop: Option<&str>,
    text: &str,
) -> Result<Result<(), ChangeError>, Fail> {
    let alloc = rt.alloc();
    let documents = Collection::read(alloc, text.as_bytes())?;
    let Some(plan) = Plan::new(Cut::Docs(1), 1, Runs::Memory) else {
        return Err(Fail::from("no plan"));
    };
    let terms = StopList::read(alloc, stop.unwrap_or(""))?;
    let given = match stop {
        Some(_) => Some(&terms),
        None => None,
    };
    Ok(add(
        rt, alloc, files, &Unwatched, FOLDER, given, &documents, &plan,
    ))
}

/// Does a step, and returns whether it did not fail.
fn does<R: AllocGlobal + Threads + Wait + Sync>(
    rt: &R,
    files: &mut MemoryFiles,
    step: usize,
) -> Result<bool, Fail> {
    match step {
        0 => Ok(added(rt, files, Some("to\n"), "1\tred fox\n2\tfox to\n")?.is_ok()),
        1 => Ok(added(rt, files, None, "3\tfox\n")?.is_ok()),
        2 => Ok(remove(rt.alloc(), files, FOLDER, &["1", "nobody"]) == Ok(1)),
        _ => Ok(added(rt, files, Some("to\n"), "1\tblue\n")?.is_ok()),
    }
}

/// Files on which the steps before this one were done.
fn files_before<R: AllocGlobal + Threads + Wait + Sync>(
    rt: &R,
    step: usize,
) -> Result<MemoryFiles, Fail> {
    let mut files = MemoryFiles::new(rt.alloc())?;
    for earlier in 0..step {
        if !does(rt, &mut files, earlier)? {
            return Err(Fail::from("a step failed"));
        }
    }
    Ok(files)
}

#[test]
fn documents_come_and_go(rt: HostRuntime) -> Result<(), Fail> {
    let mut files = files_before(&rt, 4)?;
    assert!(rt; held(rt.alloc(), &files)?.is_some_and(|names| names.as_str() == HELD[3]));
    let before = bytes_of(rt.alloc(), &files, "manifest")?;
    // Nothing is there that would be changed.
    assert!(rt; remove(rt.alloc(), &mut files, FOLDER, &["nobody", "no\tname"]) == Ok(0));
    assert!(rt; added(&rt, &mut files, None, "")? == Ok(()));
    let error = ChangeError::Archive(ArchiveError::Stop);
    assert!(rt; added(&rt, &mut files, Some("of\n"), "5\tfox\n")? == Err(error));
    let after = bytes_of(rt.alloc(), &files, "manifest")?;
    assert!(rt; before == after);
    let error = ChangeError::Archive(ArchiveError::NoManifest);
    assert!(rt; remove(rt.alloc(), &mut files, "b", &["1"]) == Err(error));
    Ok(())
}

#[test]
fn a_call_that_fails_leaves_the_archive_from_before_or_after(rt: HostRuntime) -> Result<(), Fail> {
    for step in 0..4 {
        let mut failures = 0u32;
        for number in 1..CALLS {
            let mut files = files_before(&rt, step)?;
            files.fail_at(number, false);
            let done = does(&rt, &mut files, step)?;
            files.fail_at(0, false);
            let now = held(rt.alloc(), &files)?;
            let is_after = now
                .as_ref()
                .is_some_and(|names| names.as_str() == HELD[step]);
            let is_before = match &now {
                None => step == 0,
                Some(names) => step > 0 && names.as_str() == HELD[step - 1],
            };
            assert!(rt; is_after || is_before && !done);
            if !done {
                failures = failures.saturating_add(1);
            }
            // The next program that writes goes on from there.
            if is_before {
                assert!(rt; does(&rt, &mut files, step)?);
                let again = held(rt.alloc(), &files)?;
                assert!(rt; again.is_some_and(|names| names.as_str() == HELD[step]));
            }
        }
        assert!(rt; failures > 10);
    }
    Ok(())
}
