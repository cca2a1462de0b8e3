//! Run texts written from what a source gives, by a writer that knows nothing of the run's own.
ghost use Rattle.std.specs.Prelude.{IsSome};

use ix_run::{RunHead, RunReader, Source};
use std::alloc::{AllocError, Global};
use std::fmt::Display;
use std::io::Read;
use std::test::Fail;

/// Seven bits a byte, the most significant first, the top bit set in the last byte alone.
fn push_number(text: &mut Vec<u8>, number: u32) -> Result<(), AllocError> {
    let second = number / 128;
    let third = second / 128;
    let fourth = third / 128;
    for digits in [fourth / 128, fourth, third, second] {
        if digits != 0 {
            text.push((digits % 128) as u8)?;
        }
    }
    text.push((number % 128) as u8 + 128)?;
    Ok(())
}

/// The number of bytes, and these.
fn push_bytes(text: &mut Vec<u8>, bytes: &[u8]) -> Result<(), AllocError> {
    push_number(text, u32::try_from(bytes.len()).unwrap_or(u32::MAX))?;
    text.extend_from_slice(bytes)
}

fn push_head(text: &mut Vec<u8>, head: &RunHead) -> Result<(), AllocError> {
    let documents = u32::try_from(head.docs.len()).unwrap_or(u32::MAX);
    text.extend_from_slice(b"PIIXRUN1")?;
    text.extend_from_slice(&head.first.to_le_bytes())?;
    text.extend_from_slice(&documents.to_le_bytes())?;
    let stop = head.stop.terms();
    push_number(text, u32::try_from(stop.len()).unwrap_or(u32::MAX))?;
    for term in stop {
        push_bytes(text, term.as_bytes())?;
    }
    for doc in &head.docs {
        push_bytes(text, doc.name.as_bytes())?;
        push_number(text, doc.tokens)?;
    }
    Ok(())
}

/// A posting, behind the document before `next`.
fn push_posting(
    list: &mut Vec<u8>,
    next: u32,
    document: u32,
    positions: &[u32],
) -> Result<(), AllocError> {
    push_number(list, document.wrapping_add(1).wrapping_sub(next))?;
    push_number(list, u32::try_from(positions.len()).unwrap_or(u32::MAX))?;
    let mut next = 0u32;
    for position in positions {
        push_number(list, position.wrapping_add(1).wrapping_sub(next))?;
        next = position.wrapping_add(1);
    }
    Ok(())
}

/// The list of the current term, appended, and how many postings it has, or why one was refused.
fn copy_list<S: Source>(
    alloc: Global,
    source: &mut S,
    list: &mut Vec<u8>,
) -> Result<Result<u32, S::Error>, Fail>
where
    S::Error: Drop,
    requires { IsSome (S.current source.old) }
{
    let mut positions = Vec::new(alloc);
    let mut next = 0u32;
    let mut count = 0u32;
    for _ in 0..1_000_000 {
        let document = match source.next_posting(&mut positions) {
            Ok(Some(document)) => document,
            Ok(None) => return Ok(Ok(count)),
            Err(error) => return Ok(Err(error)),
        };
        push_posting(list, next, document, &positions)?;
        next = document.wrapping_add(1);
        count = count.wrapping_add(1);
    }
    Err("no end")?
}

/// The next term, appended with its list: `term`, `end`, or why a call was refused.
fn copy_term<E: Display + Drop, S: Source<Error = E>>(
    alloc: Global,
    source: &mut S,
    text: &mut Vec<u8>,
) -> Result<String, Fail> {
    match source.next_term() {
        Ok(true) => {}
        Ok(false) => return Ok(String::from_str(alloc, "end")?),
        Err(error) => return Ok(error.to_string(alloc)?),
    }
    push_bytes(text, source.term().as_bytes())?;
    let mut list = Vec::new(alloc);
    match copy_list(alloc, source, &mut list)? {
        Ok(count) => push_number(text, count)?,
        Err(error) => return Ok(error.to_string(alloc)?),
    }
    push_bytes(text, &list)?;
    Ok(String::from_str(alloc, "term")?)
}

/// The text of what a source gives: `end`, or why a call was refused; and what is answered to one more call.
pub(super) fn copied<E: Display + Drop, S: Source<Error = E>>(
    alloc: Global,
    source: &mut S,
    text: &mut Vec<u8>,
) -> Result<String, Fail> {
    push_head(text, source.head())?;
    for _ in 0..1_000_000 {
        let told = copy_term(alloc, source, text)?;
        if told.as_str() != "term" {
            text.push(0x80)?;
            let mut more = Vec::new(alloc);
            let again = copy_term(alloc, source, &mut more)?;
            return Ok(format!(in alloc; "{told} {again}")?);
        }
    }
    Err("no end")?
}

/// The same of a run text, put in place of what `text` held; or why its head is refused.
pub(super) fn reread<R: Read + Drop>(
    alloc: Global,
    reader: R,
    text: &mut Vec<u8>,
) -> Result<String, Fail> {
    text.clear();
    match RunReader::open(alloc, reader) {
        Ok(mut run) => copied(alloc, &mut run, text),
        Err(error) => Ok(error.to_string(alloc)?),
    }
}
