//! Sessions: what is typed, and what is printed, as on a terminal.
//!
//! Behind `$ ix` stand the words of a command line, between spaces or in apostrophes; behind `? ` the last word alone,
//! whatever is in it, if the others are those of the session. Then comes the standard output as it is, the error output
//! behind `! `, which is one line, and the status in brackets, unless it is 0, or 2 behind an error line. `$ put A BYTES`
//! makes a file of spelled bytes, `$ cmp A B` says whether two files differ, `$ size A` how many bytes a file has. `$ add-file A
//! B` puts an empty file B into the folder A, and `$ show A B` prints what is in it. `$ fail N` lets the call of files of number N
//! fail, `$ fail N Memory` for want of memory, and `$ room N` lets a writer take N bytes.

use super::building::BUILDING;
use super::checking::{CHECKING, TRUSTING};
use super::disk::{Disk, Narrow};
use super::live::LIVE;
use super::merging::{MERGING, UPGRADING};
use super::questions::{OF_FIVE, REFUSED, TERMS, WORKED};
use ix_build::Unwatched;
use ix_command::command_over;
use std::alloc::Global;
use std::io::Write;
use std::process::Abort;
use std::sync::Wait;
use std::test::Fail;
use std::thread::Threads;

/// Runs the program, and answers its status. It has no contract, so that what a command promises is in view in none of its
/// callers.
fn status_of<R: AllocGlobal + Threads + Wait + Sync, W: Write, E: Write>(
    rt: &R,
    disk: &mut Disk,
    words: &[&str],
    out: &mut W,
    err: &mut E,
) -> u8 {
    command_over(rt, rt.alloc(), &mut disk.files, &Unwatched, words, out, err)
}

/// Runs the program, and tells what it prints and its status.
pub(super) fn tell<R: AllocGlobal + Threads + Wait + Sync>(
    rt: &R,
    disk: &mut Disk,
    words: &[&str],
    told: &mut String,
) -> Result<(), Fail> {
    let mut out = Vec::new(rt.alloc());
    let mut err = Vec::new(rt.alloc());
    let status = status_of(rt, disk, words, &mut out, &mut err);
    tell_bytes(&out, told)?;
    if !err.is_empty() {
        told.push_str("! ")?;
        tell_bytes(&err, told)?;
    }
    told.push_str(status_line(status, !err.is_empty()))?;
    Ok(())
}

/// Tells a text, with `\t` for a tab.
pub(super) fn tell_bytes(bytes: &[u8], told: &mut String) -> Result<(), Fail> {
    let Ok(text) = str::from_utf8(bytes) else {
        return Err("no text")?;
    };
    for character in text.chars() {
        if character == '\t' {
            told.push_str("\\t")?;
        } else {
            told.push(character)?;
        }
    }
    Ok(())
}

/// How a status is told, behind an error line or without one.
fn status_line(status: u8, is_refused: bool) -> &'static str {
    match (status, is_refused) {
        (0, false) | (2, true) => "",
        (1, false) => "[1]\n",
        (2, false) => "[2]\n",
        _ => "[another status]\n",
    }
}

/// The words of a line, each between spaces or in apostrophes.
pub(super) fn words_of<'a>(alloc: Global, line: &'a str) -> Result<Vec<&'a str>, Fail> {
    let mut words = Vec::new(alloc);
    for (place, piece) in line.split('\'').enumerate() {
        if place % 2 == 1 {
            words.push(piece)?;
        } else {
            for word in piece.split_whitespace() {
                words.push(word)?;
            }
        }
    }
    Ok(words)
}

/// Does what one line says, and tells what comes of it. A line that says nothing is one that was printed.
fn step<R: AllocGlobal + Threads + Wait + Sync>(
    rt: &R,
    disk: &mut Disk,
    before: &str,
    line: &str,
    told: &mut String,
) -> Result<(), Fail> {
    let Some((mark, typed)) = line.split_once(' ') else {
        return Ok(());
    };
    if mark != "$" && mark != "?" {
        return Ok(());
    }
    told.push_str(line)?;
    told.push('\n')?;
    if mark == "?" {
        let mut words = words_of(rt.alloc(), before)?;
        words.push(typed)?;
        return tell(rt, disk, &words, told);
    }
    let (command, rest) = typed.split_once(' ').unwrap_or((typed, ""));
    if command == "ix" {
        let words = words_of(rt.alloc(), rest)?;
        tell(rt, disk, &words, told)
    } else {
        disk.tell(command, rest, told)
    }
}

/// Plays a session over a disk again, with these words before each that stands behind `? `.
pub(super) fn play<R: AllocGlobal + Abort + Threads + Wait + Sync>(
    rt: &R,
    disk: &mut Disk,
    before: &str,
    session: &str,
) -> Result<(), Fail> {
    let mut told = String::new(rt.alloc());
    for line in session.lines() {
        step(rt, disk, before, line, &mut told)?;
    }
    assert_eq!(rt; told.as_str(), session);
    Ok(())
}

/// Five documents, two others and a stop list, their indexes of version 1, that of the five of version 2, and runs. Behind
/// these stand files that are no index or no run.
pub(super) const FILES: &str = r"$ put five a\tx y\nb\ty\nc\t\nd\ty x y\ne\tx\n
$ put ab a\tx y\nb\ty\n
$ put cd c\t\nd\ty x y\n
$ put e e\tx\n
$ put none-at-all
$ put one d\tflights to london\n
$ put stop to\n
$ put asks ask fox\n
$ put empty.ix PIIX0001\0\0\0\0\0\0\0\0\0\0\0\0\0\0\0\0\0\0\0\0\0\0\0\0\0\0\0\0\0\0\0\0\0\0\0\0\0\0\0\0\0\0\0\0\0\0\0\0PIIXEND1
$ put one.ix PIIX0001\x81\x82\x81\x81\x81d\x82\x81a\x81\x84\x83$a$\x81\x81\x04\0\0\0\0\0\0\0\0\0\0\0\0\0\0\0\x03\0\0\0\0\0\0\0\x04\0\0\0\0\0\0\0\x06\0\0\0\0\0\0\0\x01\0\0\0\x01\0\0\0PIIXEND1
$ put five.ix PIIX0001\x81\x81\x81\x83\x81\x82\x81\x81\x81\x81\x81\x82\x81\x81\x81\x82\x82\x81\x82\x81a\x82\x81b\x81\x81c\x80\x81d\x83\x81e\x81\x81x\x83\x89\x81y\x83\x8a\x83$x$\x81\x81\x83$y$\x81\x82\x13\0\0\0\0\0\0\0\0\0\0\0\0\0\0\0\x0f\0\0\0\0\0\0\0\x08\0\0\0\0\0\0\0\x0c\0\0\0\0\0\0\0\x05\0\0\0\x02\0\0\0PIIXEND1
$ put five2.ix PIIX0002\x81\x81\x81\x83\x81\x82\x81\x81\x81\x81\x81\x82\x81\x81\x81\x82\x82\x81\x82\x81a\x82\x81b\x81\x81c\x80\x81d\x83\x81e\x81\x81x\x83\x89\x80\x81y\x83\x8a\x83$x$\x81\x81\x83$y$\x81\x82\x13\0\0\0\0\0\0\0\0\0\0\0\0\0\0\0\x0f\0\0\0\0\0\0\0\x09\0\0\0\0\0\0\0\x0c\0\0\0\0\0\0\0\x05\0\0\0\x02\0\0\0PIIXEND2
$ put 0.run PIIXRUN1\0\0\0\0\x02\0\0\0\x80\x81a\x82\x81b\x81\x81x\x81\x83\x81\x81\x81\x81y\x82\x86\x81\x81\x82\x81\x81\x81\x80
$ put 2.run PIIXRUN1\x02\0\0\0\x02\0\0\0\x80\x81c\x80\x81d\x83\x81x\x81\x83\x82\x81\x82\x81y\x81\x84\x82\x82\x81\x82\x80
$ put 4.run PIIXRUN1\x04\0\0\0\x01\0\0\0\x80\x81e\x81\x81x\x81\x83\x81\x81\x81\x80
$ put bytes a\t\xff\n
$ put no-tab x\n
$ put two-words to be\n
$ put cut.ix PIIX0001\x81\x82\x81\x81\x81d\x82\x81a\x81\x84\x83$a$\x81\x81\x04\0\0\0\0\0\0\0\0\0\0\0\0\0\0\0\x03\0\0\0\0\0\0\0\x04\0\0\0\0\0\0\0\x06\0\0\0\0\0\0\0\x01\0\0\0\x01\0\0\0PIIXEND
$ put range.ix PIIX0001\x81\x82\x81\x82\x81d\x82\x81a\x81\x84\x83$a$\x81\x81\x04\0\0\0\0\0\0\0\0\0\0\0\0\0\0\0\x03\0\0\0\0\0\0\0\x04\0\0\0\0\0\0\0\x06\0\0\0\0\0\0\0\x01\0\0\0\x01\0\0\0PIIXEND1
$ put doubled.ix PIIX0001\x81\x81\x81\x81\x81\x81\x81d\x81\x81a\x81\x83\x81b\x81\x83\x83$a$\x81\x81\x83$b$\x81\x82\x06\0\0\0\0\0\0\0\0\0\0\0\0\0\0\0\x03\0\0\0\0\0\0\0\x08\0\0\0\0\0\0\0\x0c\0\0\0\0\0\0\0\x01\0\0\0\x02\0\0\0PIIXEND1
$ put without.ix PIIX0001\x81\x82\x81\x81\x81d\x82\x81a\x81\x84\x04\0\0\0\0\0\0\0\0\0\0\0\0\0\0\0\x03\0\0\0\0\0\0\0\x04\0\0\0\0\0\0\0\0\0\0\0\0\0\0\0\x01\0\0\0\x01\0\0\0PIIXEND1
$ put cut.run PIIXRUN1\0\0\0\0\x02\0\0\0\x80\x81a\x82\x81b\x81\x81x\x81\x83\x81\x81\x81\x81y\x82\x86\x81\x81\x82\x81\x81\x81
$ put cut-head.run PIIXRUN1\0\0\0\0
";

#[test]
fn sessions(rt: HostRuntime) -> Result<(), Fail> {
    for session in [
        WORKED, TERMS, REFUSED, TRUSTING, CHECKING, BUILDING, MERGING, UPGRADING, LIVE,
    ] {
        let mut disk = Disk::new(rt.alloc())?;
        play(&rt, &mut disk, "", FILES)?;
        play(&rt, &mut disk, "", session)?;
    }
    Ok(())
}

#[test]
fn queries_of_five_documents(rt: HostRuntime) -> Result<(), Fail> {
    let mut disk = Disk::new(rt.alloc())?;
    play(&rt, &mut disk, "", FILES)?;
    for before in [
        "ask five",
        "search five.ix",
        "search five2.ix",
        "search --trust five.ix",
        "search --trust five2.ix",
    ] {
        play(&rt, &mut disk, before, OF_FIVE)?;
    }
    Ok(())
}

/// Runs the program if its standard output takes so many bytes and fails, and then if its error output does too, and tells both
/// statuses and the error output of the first.
fn tell_refused_writes<R: AllocGlobal + Threads + Wait + Sync>(
    rt: &R,
    disk: &mut Disk,
    line: &str,
    room: usize,
    told: &mut String,
) -> Result<(), Fail> {
    let words = words_of(rt.alloc(), line)?;
    let mut err = Vec::new(rt.alloc());
    let mut full = Narrow::new(rt.alloc(), room);
    let mut other = Narrow::new(rt.alloc(), 0);
    let status = status_of(rt, disk, &words, &mut full, &mut err);
    let both = status_of(rt, disk, &words, &mut full, &mut other);
    told.push_str(&format!(in rt.alloc(); "{status} {both} ")?)?;
    tell_bytes(&err, told)
}

#[test]
fn writes_that_are_refused(rt: HostRuntime) -> Result<(), Fail> {
    let mut disk = Disk::new(rt.alloc())?;
    play(&rt, &mut disk, "", FILES)?;
    disk.files.put("script", b"add ab\npublish\nask y\n")?;
    for line in [
        "ask five y",
        "search five.ix y",
        "terms five.ix y*",
        "search --trust five.ix y",
        "terms --trust five.ix y*",
        "check cut.ix",
        "check five.ix",
        "live script",
        "--help",
    ] {
        // The last writer takes all, and is refused the flush.
        for room in [0, 1, usize::MAX] {
            let mut told = String::new(rt.alloc());
            tell_refused_writes(&rt, &mut disk, line, room, &mut told)?;
            assert_eq!(rt; told.as_str(), "2 2 ix: file 2: Write(-)\n");
        }
    }
    Ok(())
}
