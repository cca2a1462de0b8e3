//! Tests of `ix_run`: run texts of worked documents byte for byte, and why others are refused.

mod pieces;
mod plain;
mod reading;

use ix_run::{Run, WriteError, invert};
use ix_text::{Collection, StopList};
use pieces::{Pieces, Sizes};
use plain::{copied, reread};
use std::alloc::Global;
use std::test::Fail;

/// The bytes that a text spells: those of its characters, and for an escape as `\0` or `\x81` the one that it names.
fn bytes_of(alloc: Global, spelled: &str) -> Result<Vec<u8>, Fail> {
    let mut bytes = Vec::new(alloc);
    let mut rest = spelled.as_bytes();
    for _ in 0..spelled.len() {
        let Some((byte, behind)) = first_byte(rest) else {
            break;
        };
        bytes.push(byte)?;
        rest = behind;
    }
    if !rest.is_empty() {
        return Err("no such escape")?;
    }
    Ok(bytes)
}

/// The first byte that is spelled, and what stands behind it.
fn first_byte(spelled: &[u8]) -> Option<(u8, &[u8])> {
    match spelled {
        [b'\\', b'0', rest @ ..] => Some((0, rest)),
        [b'\\', b'x', high, low, rest @ ..] => Some((digit(*high)? << 4 | digit(*low)?, rest)),
        [b'\\', ..] => None,
        [byte, rest @ ..] => Some((*byte, rest)),
        [] => None,
    }
}

fn digit(character: u8) -> Option<u8> {
    match character {
        b'0'..=b'9' => Some(character - b'0'),
        b'a'..=b'f' => Some(character - b'a' + 10),
        _ => None,
    }
}

/// Refuses a text that is not the one that is wanted. `row` says of what.
fn expect(row: &str, got: &str, want: &str) -> Result<(), Fail> {
    if got == want {
        return Ok(());
    }
    Err(Fail::new(format_args!("{row}: {got}, and not {want}")))
}

/// The same of bytes.
fn expect_bytes(row: &str, got: &[u8], want: &[u8]) -> Result<(), Fail> {
    if got == want {
        return Ok(());
    }
    Err(Fail::new(format_args!("{row}: other bytes")))
}

/// The run of a collection text under a stop text.
fn run_of(alloc: Global, text: &str, stop: &str, first: u32) -> Result<Run, Fail> {
    let collection = Collection::read(alloc, text.as_bytes())?;
    let stop = StopList::read(alloc, stop)?;
    Ok(invert(alloc, collection.docs(), &stop, first)?)
}

/// Writes a run to a writer that takes its text in these pieces: the answer, and what the writer then has.
fn written(alloc: Global, run: &Run, sizes: Sizes) -> (Result<(), WriteError>, Vec<u8>) {
    let mut out = Pieces::new(Vec::new(alloc), sizes);
    let answer = run.write_to(&mut out);
    (answer, out.bytes)
}

/// The run text of a run.
fn text_of(alloc: Global, run: &Run) -> Result<Vec<u8>, Fail> {
    let mut text = Vec::new(alloc);
    run.write_to(&mut text)?;
    Ok(text)
}

/// Collection texts, stop texts, first numbers, and run texts with their lengths.
const RUNS: [(&str, &str, u32, usize, &str); 7] = [
    (
        "d\tA a\n",
        "",
        0,
        29,
        r"PIIXRUN1\0\0\0\0\x01\0\0\0\x80\x81d\x82\x81a\x81\x84\x81\x82\x81\x81\x80",
    ),
    (
        "a\tx y\nb\ty\n",
        "",
        0,
        41,
        r"PIIXRUN1\0\0\0\0\x02\0\0\0\x80\x81a\x82\x81b\x81\x81x\x81\x83\x81\x81\x81\x81y\x82\x86\x81\x81\x82\x81\x81\x81\x80",
    ),
    (
        "d\tflights to london\n",
        "to\n",
        0,
        49,
        r"PIIXRUN1\0\0\0\0\x01\0\0\0\x81\x82to\x81d\x83\x87flights\x81\x83\x81\x81\x81\x86london\x81\x83\x81\x81\x83\x80",
    ),
    (
        "c\t\nd\ty x y\n",
        "",
        2,
        39,
        r"PIIXRUN1\x02\0\0\0\x02\0\0\0\x80\x81c\x80\x81d\x83\x81x\x81\x83\x82\x81\x82\x81y\x81\x84\x82\x82\x81\x82\x80",
    ),
    (
        "e\tx\n",
        "",
        4,
        28,
        r"PIIXRUN1\x04\0\0\0\x01\0\0\0\x80\x81e\x81\x81x\x81\x83\x81\x81\x81\x80",
    ),
    ("", "", 0, 18, r"PIIXRUN1\0\0\0\0\0\0\0\0\x80\x80"),
    ("", "", 1 << 28, 18, r"PIIXRUN1\0\0\0\x10\0\0\0\0\x80\x80"),
];

/// Compares the text that a run writes, and what it gives as a source, with these bytes. Of what is refused at each byte a
/// front stands.
fn expect_run(alloc: Global, run: &Run, text: &[u8]) -> Result<(), Fail> {
    expect_bytes("a run", &text_of(alloc, run)?, text)?;
    let mut again = Vec::new(alloc);
    let told = copied(alloc, &mut run.source(), &mut again)?;
    expect("a run as a source", &told, "end end")?;
    expect_bytes("a run as a source", &again, text)?;
    for most in 0..text.len() {
        let (answer, front) = written(alloc, run, Sizes::Single(most));
        if answer != Err(WriteError::Write) || front.as_slice() != &text[..most] {
            return Err("a refused write")?;
        }
    }
    Ok(())
}

/// Compares the error of a head, or that of a term or list, behind which a call failed.
fn expect_refused(told: &str, want: &str) -> Result<(), Fail> {
    let (error, again) = told.split_once(' ').unwrap_or((told, "Failed"));
    expect("a refusal", error, want)?;
    expect("behind it", again, "Failed")
}

/// Reads a run text, from the whole of it and from its bytes one at a time, each front of it, and the text of which each
/// read is refused.
fn expect_read(alloc: Global, text: &[u8]) -> Result<(), Fail> {
    let mut again = Vec::new(alloc);
    expect("a text", &reread(alloc, text, &mut again)?, "end end")?;
    expect_bytes("a text", &again, text)?;
    let slow = Pieces::new(text, Sizes::Single(text.len() + 1));
    expect("slowly", &reread(alloc, slow, &mut again)?, "end end")?;
    expect_bytes("slowly", &again, text)?;
    for len in 0..text.len() {
        let want = if len < 8 { "Magic" } else { "Number(Cut)" };
        expect_refused(&reread(alloc, &text[..len], &mut again)?, want)?;
        let cut = Pieces::new(text, Sizes::Single(len));
        expect_refused(&reread(alloc, cut, &mut again)?, "Read")?;
    }
    Ok(())
}

#[test]
fn runs_of_worked_documents(rt: HostRuntime) -> Result<(), Fail> {
    let alloc = rt.alloc();
    for (documents, stop, first, len, spelled) in RUNS {
        let text = bytes_of(alloc, spelled)?;
        assert_eq!(rt; text.len(), len);
        expect_run(alloc, &run_of(alloc, documents, stop, first)?, &text)?;
        expect_read(alloc, &text)?;
    }
    Ok(())
}

/// Replaces each byte by each one: what is accepted is the text of what was read.
fn change_each_byte(alloc: Global, text: &[u8]) -> Result<(), Fail> {
    let mut again = Vec::new(alloc);
    for place in 0..text.len() {
        for byte in 0..=255 {
            let mut changed = Vec::from_slice(alloc, text)?;
            if let Some(there) = changed.get_mut(place) {
                *there = byte;
            }
            if reread(alloc, changed.as_slice(), &mut again)?.as_str() == "end end" {
                expect_bytes("a changed text", &again, &changed)?;
            }
        }
    }
    Ok(())
}

#[test]
fn accepted_changes_are_written_again(rt: HostRuntime) -> Result<(), Fail> {
    for row in RUNS.iter().take(3) {
        change_each_byte(rt.alloc(), &bytes_of(rt.alloc(), row.4)?)?;
    }
    Ok(())
}
