//! Writes that are refused at each byte, a flush that is, and refusals before a byte is written.

use ix_ask::{AskError, ask};
use ix_build::{Cut, Plan, Runs};
use ix_text::StopList;
use std::alloc::Global;
use std::io;
use std::io::{ErrorKind, Write};
use std::sync::Wait;
use std::test::Fail;
use std::thread::Threads;

const FIVE: &[u8] = b"a\tx y\nb\ty\nc\t\nd\ty x y\ne\tx\n";

/// A writer that takes so many bytes, one a call, and refuses the next.
#[derive(Drop)]
struct Narrow {
    taken: Vec<u8>,
    room: usize,
    flushes: bool,
}

impl Write for Narrow {
    fn write(&mut self, bytes: &[u8]) -> io::Result<usize> {
        let Some(byte) = bytes.first() else {
            return Ok(0);
        };
        if self.room == 0 {
            return Err(io::Error::from(ErrorKind::Other));
        }
        self.taken.push(*byte)?;
        self.room -= 1;
        Ok(1)
    }

    fn flush(&mut self) -> io::Result<()> {
        if self.flushes {
            Ok(())
        } else {
            Err(io::Error::from(ErrorKind::Other))
        }
    }
}

/// Asks a collection text, in blocks of two documents and by three workers: the answer, and what was written.
fn asked<R: Threads + Wait + Sync>(
    rt: &R,
    alloc: Global,
    text: &[u8],
    query: &str,
    room: usize,
    flushes: bool,
) -> Result<(Result<usize, AskError>, Vec<u8>), Fail> {
    let plan = Plan::new(Cut::Docs(2), 3, Runs::Memory).ok_or("no plan")?;
    let stop = StopList::empty(alloc);
    let taken = Vec::new(alloc);
    let mut out = Narrow {
        taken,
        room,
        flushes,
    };
    let answer = ask(rt, alloc, text, &stop, &plan, query, &mut out);
    Ok((answer, out.taken))
}

#[test]
fn writes_refused_at_each_byte(rt: HostRuntime) -> Result<(), Fail> {
    let names = b"a\nb\nd\n".as_slice();
    for room in 0..=names.len() {
        let (answer, taken) = asked(&rt, rt.alloc(), FIVE, "y", room, false)?;
        assert!(rt; matches!(answer, Err(AskError::Write)), "{room}");
        assert!(rt; names.starts_with(&taken) && taken.len() == room, "{room}");
    }
    let (answer, taken) = asked(&rt, rt.alloc(), FIVE, "y", 9, true)?;
    assert!(rt; matches!(answer, Ok(3)) && taken.as_slice() == names);
    for (text, query) in [(FIVE, "x y"), (b"no tab\n".as_slice(), "y")] {
        let (answer, taken) = asked(&rt, rt.alloc(), text, query, 9, true)?;
        assert!(rt; answer.is_err() && taken.is_empty());
    }
    Ok(())
}
