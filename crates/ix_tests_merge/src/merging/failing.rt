//! Reads and writes that are refused, short or interrupted.
ghost use Rattle.std.specs.Prelude.{◌<◌, IfSome};

use super::{BLOCKS, SAMPLE, merge_runs, merge_texts, runs_of, sample_text, texts_of};
use ix_run::Run;
use std::alloc::Global;
use std::io::{self, ErrorKind, Read, Write};
use std::process::Abort;
use std::test::Fail;

/// A reader that gives so many bytes at a time, and refuses where so many reads were made.
#[derive(Drop)]
struct Slow<'a> {
    bytes: &'a [u8],
    size: usize,
    left: usize,
}

impl Read for Slow<'_> {
    fn read(&mut self, buf: &mut [u8]) -> io::Result<usize> {
        if self.left == 0 {
            return Err(ErrorKind::Other.into());
        }
        self.left -= 1;
        let count = self.size.min(buf.len()).min(self.bytes.len());
        buf[..count].copy_from_slice(&self.bytes[..count]);
        self.bytes = &self.bytes[count..];
        Ok(count)
    }
}

/// The readers of run texts, of which the one at a place refuses the read behind so many.
fn slow_readers<'a>(
    alloc: Global,
    texts: &'a [Vec<u8>],
    size: usize,
    place: usize,
    left: usize,
) -> Result<Vec<Slow<'a>>, Fail> {
    let mut readers = Vec::new(alloc);
    for (at, text) in texts.iter().enumerate() {
        let left = if at == place { left } else { usize::MAX };
        let bytes = text.as_slice();
        readers.push(Slow { bytes, size, left })?;
    }
    Ok(readers)
}

/// Whether a merge of run texts is refused, of which the one at a place refuses the read behind so many. The refusal
/// names that place, and what was written is a front of `whole`.
fn is_read_refused(
    rt: &impl Abort,
    alloc: Global,
    texts: &[Vec<u8>],
    size: usize,
    place: usize,
    left: usize,
    whole: &[u8],
) -> Result<bool, Fail> {
    let readers = slow_readers(alloc, texts, size, place, left)?;
    let mut out = Vec::new(alloc);
    let outcome = merge_texts(alloc, readers, &mut out)?;
    assert!(rt; whole.starts_with(&out), "{place} {left}");
    if outcome.as_str() == "Ok" {
        assert_eq!(rt; out.len(), whole.len());
        return Ok(false);
    }
    if outcome.as_str() != "not opened: Read" {
        let want = format!(in alloc; "Source({place}, Read)")?;
        assert_eq!(rt; outcome.as_str(), want.as_str(), "{left}");
    }
    Ok(true)
}

#[test]
fn reads_refused_at_each_byte(rt: HostRuntime) -> Result<(), Fail> {
    let alloc = rt.alloc();
    let whole = sample_text();
    let texts = texts_of(alloc, &runs_of(alloc, SAMPLE, BLOCKS)?)?;
    for (place, text) in texts.iter().enumerate() {
        let most = text.len() + 1;
        for left in 0..most {
            let refused = is_read_refused(&rt, alloc, &texts, 1, place, left, whole)?;
            assert!(rt; refused, "{place} {left}");
        }
        assert!(rt; !is_read_refused(&rt, alloc, &texts, 1, place, most, whole)?);
    }
    Ok(())
}

/// How many bytes a reader of many documents gives at a time.
const READ: usize = 16_384;

/// How many bytes a merge writes at once, at most: the list of that word, and not all of POSTINGS.
const LONGEST: usize = 150_000;

/// Some thousand documents, with a word whose list takes more than a merge gathers before it tells.
fn documents(alloc: Global) -> Result<String, Fail> {
    let mut text = String::new(alloc);
    for number in 0u32..9000 {
        let line = format!(in alloc; "n{number}\tx{} y w{number} y", number % 100)?;
        text.push_str(&line)?;
        text.push_str(" y y y y y y y y y y y y\n")?;
    }
    Ok(text)
}

/// Bytes that are given or taken in pieces of changing sizes, now and then after an interruption, and never refused.
#[derive(Drop)]
struct Uneven<T> {
    bytes: T,
    calls: usize,
}

impl<T> Uneven<T> {
    /// How many bytes the next call may have, at least 1. None: it is interrupted.
    fn next_size(&mut self) -> Option<usize>
        ensures { IfSome result (λ size. 0 < size) }
    {
        self.calls = self.calls.wrapping_add(1);
        if self.calls % 3 == 0 {
            return None;
        }
        Some(self.calls % 97 * 787 + 1)
    }
}

impl Read for Uneven<&[u8]> {
    fn read(&mut self, buf: &mut [u8]) -> io::Result<usize> {
        let Some(size) = self.next_size() else {
            return Err(ErrorKind::Interrupted.into());
        };
        let count = size.min(buf.len()).min(self.bytes.len());
        buf[..count].copy_from_slice(&self.bytes[..count]);
        self.bytes = &self.bytes[count..];
        Ok(count)
    }
}

impl Write for Uneven<Vec<u8>> {
    fn write(&mut self, bytes: &[u8]) -> io::Result<usize> {
        let Some(size) = self.next_size() else {
            return Err(ErrorKind::Interrupted.into());
        };
        let count = size.min(bytes.len());
        self.bytes.extend_from_slice(&bytes[..count])?;
        Ok(count)
    }

    fn flush(&mut self) -> io::Result<()> {
        Ok(())
    }
}

/// What a merge of run texts writes whose reads and writes are short and interrupted.
fn merged_unevenly(rt: &impl Abort, alloc: Global, texts: &[Vec<u8>]) -> Result<Vec<u8>, Fail> {
    let mut readers = Vec::new(alloc);
    for text in texts {
        let bytes = text.as_slice();
        readers.push(Uneven { bytes, calls: 0 })?;
    }
    let mut out = Uneven {
        bytes: Vec::new(alloc),
        calls: 0,
    };
    let outcome = merge_texts(alloc, readers, &mut out)?;
    assert_eq!(rt; outcome.as_str(), "Ok");
    Ok(out.bytes)
}

/// A sink in memory that takes so many bytes and refuses what is beyond them, and may refuse to flush.
#[derive(Drop)]
struct Sink {
    bytes: Vec<u8>,
    room: usize,
    flushes: bool,
    was_flushed: bool,
    /// How many bytes the longest write had.
    longest: usize,
}

impl Write for Sink {
    fn write(&mut self, bytes: &[u8]) -> io::Result<usize> {
        self.longest = self.longest.max(bytes.len());
        let count = bytes.len().min(self.room);
        if count < 1 && !bytes.is_empty() {
            return Err(ErrorKind::BrokenPipe.into());
        }
        self.bytes.extend_from_slice(&bytes[..count])?;
        self.room -= count;
        Ok(count)
    }

    fn flush(&mut self) -> io::Result<()> {
        self.was_flushed = true;
        if self.flushes {
            Ok(())
        } else {
            Err(ErrorKind::BrokenPipe.into())
        }
    }
}

/// What comes of a merge of runs into a sink of so much room, and whether that was flushed. What the sink holds is a
/// front of `whole` that fills the room.
fn sunk(
    rt: &impl Abort,
    alloc: Global,
    runs: &[Run],
    room: usize,
    flushes: bool,
    whole: &[u8],
) -> Result<String, Fail> {
    let mut sink = Sink {
        bytes: Vec::new(alloc),
        room,
        flushes,
        was_flushed: false,
        longest: 0,
    };
    let outcome = merge_runs(alloc, runs, &mut sink)?;
    assert!(rt; sink.longest <= LONGEST, "{}", sink.longest);
    assert!(rt; whole.starts_with(&sink.bytes), "{room}");
    assert_eq!(rt; sink.bytes.len(), room);
    let flushed = if sink.was_flushed {
        "flushed"
    } else {
        "not flushed"
    };
    Ok(format!(in alloc; "{outcome}, {flushed}")?)
}

#[test]
fn thousands_of_documents(rt: HostRuntime) -> Result<(), Fail> {
    let alloc = rt.alloc();
    let runs = runs_of(alloc, &documents(alloc)?, "4000-9000 0-2000 2000-4000")?;
    let texts = texts_of(alloc, &runs)?;
    let mut whole = Vec::new(alloc);
    assert_eq!(rt; merge_runs(alloc, &runs, &mut whole)?.as_str(), "Ok");
    assert!(rt; merged_unevenly(&rt, alloc, &texts)? == whole);
    for (place, text) in texts.iter().enumerate() {
        for left in 0..text.len() / READ {
            let refused = is_read_refused(&rt, alloc, &texts, READ, place, left, &whole)?;
            assert!(rt; refused, "{place} {left}");
        }
    }
    for room in [0, 8, 65_536, 65_537, 200_000, whole.len().saturating_sub(1)] {
        let outcome = sunk(&rt, alloc, &runs, room, true, &whole)?;
        assert_eq!(rt; outcome.as_str(), "Write, not flushed", "{room}");
    }
    Ok(())
}

#[test]
fn writes_refused_at_each_byte(rt: HostRuntime) -> Result<(), Fail> {
    let alloc = rt.alloc();
    let whole = sample_text();
    let runs = runs_of(alloc, SAMPLE, BLOCKS)?;
    for room in 0..whole.len() {
        let outcome = sunk(&rt, alloc, &runs, room, true, whole)?;
        assert_eq!(rt; outcome.as_str(), "Write, not flushed", "{room}");
    }
    for (flushes, want) in [(true, "Ok, flushed"), (false, "Write, flushed")] {
        let outcome = sunk(&rt, alloc, &runs, whole.len(), flushes, whole)?;
        assert_eq!(rt; outcome.as_str(), want);
    }
    Ok(())
}
