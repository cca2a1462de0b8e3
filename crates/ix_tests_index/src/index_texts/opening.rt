//! Opening index texts: what they stand for, and why others are refused.
use super::sample::plain_text;
use super::vectors::{FIVE_DOCUMENTS, ONE_DOCUMENT, SAMPLES};
use super::written::{bytes_of, number_of, push_line, question_of};
use crate::plain::{Entry, check_same, opened, text_of};
use ix_file::{DocRow, Index, OpenError, Postings, Volume};
use std::alloc::Global;
use std::process::Abort;
use std::test::Fail;

/// The rows of the documents of an index.
pub(super) fn rows_in<'a>(alloc: Global, index: &Index<'a>) -> Result<Vec<DocRow<'a>>, Fail> {
    let mut rows = Vec::new(alloc);
    for document in 0..index.doc_count() {
        rows.push(DocRow {
            name: index.name(document),
            tokens: index.token_count(document),
        })?;
    }
    Ok(rows)
}

/// The terms of an index with their postings.
pub(super) fn entries_in(alloc: Global, index: &Index<'_>) -> Result<Vec<Entry>, Fail> {
    let mut entries = Vec::new(alloc);
    for number in 0..index.term_count() {
        let postings = postings_in(alloc, index.list(number))?;
        let term = String::from_str(alloc, index.term(number))?;
        entries.push(Entry { term, postings })?;
    }
    Ok(entries)
}

/// The postings that are left of a list.
fn postings_in(alloc: Global, list: Postings<'_>) -> Result<Vec<(u32, Vec<u32>)>, Fail> {
    let mut postings = Vec::new(alloc);
    for posting in list {
        let mut positions = Vec::new(alloc);
        posting.read_positions(&mut positions)?;
        postings.push((posting.document, positions))?;
    }
    Ok(postings)
}

/// The text of what an index stands for, in its version, by a writer that knows nothing of the reader.
fn written_again(alloc: Global, index: &Index<'_>) -> Result<Vec<u8>, Fail> {
    let rows = rows_in(alloc, index)?;
    let entries = entries_in(alloc, index)?;
    let version = if index.version() == 1 { b'1' } else { b'2' };
    Ok(text_of(alloc, version, index.stop().terms(), &rows, &entries)?)
}

/// Why the text is refused, as it is printed, or `opened`.
pub(super) fn refusal(alloc: Global, text: &[u8]) -> Result<String, Fail> {
    name_of(alloc, Index::open(alloc, text).err())
}

pub(super) fn name_of(alloc: Global, error: Option<OpenError>) -> Result<String, Fail> {
    match error {
        None => Ok(String::from_str(alloc, "opened")?),
        Some(error) => Ok(error.to_string(alloc)?),
    }
}

/// Whether the text is refused, or else is that of what it stands for.
fn is_written_again(alloc: Global, text: &[u8]) -> Result<bool, Fail> {
    let Ok(index) = Index::open(alloc, text) else {
        return Ok(true);
    };
    Ok(written_again(alloc, &index)?.as_slice() == text)
}

/// The text that a volume of an index text gives once it is written again.
fn lent_and_written(alloc: Global, text: Vec<u8>) -> Result<Vec<u8>, Fail> {
    let volume = Volume::open(alloc, text)?;
    written_again(alloc, &volume.index())
}

#[test]
fn samples_are_opened(rt: HostRuntime) -> Result<(), Fail> {
    let alloc = rt.alloc();
    for sample in SAMPLES.lines() {
        for version in [b'1', b'2'] {
            let text = plain_text(alloc, version, sample)?;
            assert!(rt; refusal(alloc, &text)?.as_str() == "opened", "{sample}");
            assert!(rt; is_written_again(alloc, &text)?, "{sample}");
            let again = lent_and_written(alloc, text.clone()?)?;
            assert!(rt; again == text, "{sample}");
        }
    }
    Ok(())
}

/// Adds a number behind a space, where others stand before it.
pub(super) fn push_number(alloc: Global, numbers: &mut String, number: u32) -> Result<(), Fail> {
    if !numbers.is_empty() {
        numbers.push(' ')?;
    }
    numbers.push_str(&number.to_string(alloc)?)?;
    Ok(())
}

/// The documents of a term, or the numbers of the terms that have a gram; or `none`.
fn sought(alloc: Global, index: &Index<'_>, question: &str) -> Result<String, Fail> {
    let mut numbers = String::new(alloc);
    match question.split_once(' ') {
        Some(("term", term)) => {
            let Some(postings) = index.find(term) else {
                return Ok(String::from_str(alloc, "none")?);
            };
            for posting in postings {
                push_number(alloc, &mut numbers, posting.document)?;
            }
        }
        Some(("gram", gram)) => {
            let Some(found) = index.gram(gram) else {
                return Ok(String::from_str(alloc, "none")?);
            };
            for number in found {
                push_number(alloc, &mut numbers, number)?;
            }
        }
        _ => return Err("a term or a gram")?,
    }
    Ok(numbers)
}

/// The lines of a table, `term` or `gram` and what is sought, with what an index finds: documents, or terms.
pub(super) fn found(alloc: Global, index: &Index<'_>, table: &str) -> Result<String, Fail> {
    let mut lines = String::new(alloc);
    for line in table.lines() {
        let question = question_of(line)?;
        let answer = sought(alloc, index, question)?;
        push_line(&mut lines, question, &answer)?;
    }
    Ok(lines)
}

/// Terms and grams that are sought in the five documents.
const SOUGHT: &str = "\
term x = 0 3 4
term y = 0 1 3
term  = none
term a = none
term xx = none
gram $x$ = 0
gram $y$ = 1
gram  = none
gram $x = none
gram $z$ = none
";

/// The documents that a cursor over the list of a term stops at: by the next posting, and by seeking a document.
fn walk(alloc: Global, index: &Index<'_>, term: &str, steps: &str) -> Result<String, Fail> {
    let mut list = index.find(term).ok_or("no list")?;
    let mut stops = String::new(alloc);
    for step in steps.split(' ') {
        let found = if step == "next" {
            list.next()
        } else {
            list.seek(number_of(step)?)
        };
        match found {
            Some(posting) => push_number(alloc, &mut stops, posting.document)?,
            None => stops.push_str(" none")?,
        }
    }
    Ok(stops)
}

#[test]
fn terms_and_grams_are_found(rt: HostRuntime) -> Result<(), Fail> {
    let alloc = rt.alloc();
    for version in [b'1', b'2'] {
        let text = plain_text(alloc, version, FIVE_DOCUMENTS)?;
        let index = opened(alloc, &text)?;
        check_same(&rt, &found(alloc, &index, SOUGHT)?, SOUGHT);
        for (steps, stops) in [
            ("2 0", "3 none"),
            ("1 next", "1 3"),
            ("4 next", " none none"),
        ] {
            check_same(&rt, &walk(alloc, &index, "y", steps)?, stops);
        }
    }
    Ok(())
}

#[test]
fn fronts_are_refused(rt: HostRuntime) -> Result<(), Fail> {
    let alloc = rt.alloc();
    for sample in SAMPLES.lines().take(4) {
        for version in [b'1', b'2'] {
            let text = plain_text(alloc, version, sample)?;
            for len in 0..text.len() {
                let want = if len < 64 { "Short" } else { "Trailer" };
                let got = refusal(alloc, &text[..len])?;
                assert!(rt; got.as_str() == want, "{len}");
            }
        }
    }
    Ok(())
}

fn put(text: &mut Vec<u8>, place: usize, byte: u8) {
    if let Some(old) = text.get_mut(place) {
        *old = byte;
    }
}

/// Replaces each byte by each one: what is accepted is the text of what it stands for.
fn change_each_byte(rt: &impl Abort, alloc: Global, text: Vec<u8>) -> Result<(), Fail> {
    let mut text = text;
    for place in 0..text.len() {
        let before = text.get(place).copied().unwrap_or(0);
        for byte in 0..=255 {
            put(&mut text, place, byte);
            assert!(rt; is_written_again(alloc, &text)?, "{place} {byte}");
        }
        put(&mut text, place, before);
    }
    Ok(())
}

#[test]
fn accepted_changes_are_written_again(rt: HostRuntime) -> Result<(), Fail> {
    let alloc = rt.alloc();
    for sample in SAMPLES.lines().take(4).skip(1) {
        for version in [b'1', b'2'] {
            change_each_byte(&rt, alloc, plain_text(alloc, version, sample)?)?;
        }
    }
    Ok(())
}

/// The text with other bytes at some places: `7 '2', 63 '2'`.
fn changed(alloc: Global, text: &[u8], changes: &str) -> Result<Vec<u8>, Fail> {
    let mut text = Vec::from_slice(alloc, text)?;
    for change in changes.split(',') {
        let Some((place, bytes)) = change.trim().split_once(' ') else {
            return Err("a change has a place")?;
        };
        let mut place = number_of(place)? as usize;
        for byte in bytes_of(alloc, bytes)? {
            put(&mut text, place, byte);
            place = place.wrapping_add(1);
        }
    }
    Ok(text)
}

/// Checks that a text of version 1 is answered as the lines of a table say once it is changed.
fn check_changes(rt: &impl Abort, alloc: Global, sample: &str, table: &str) -> Result<(), Fail> {
    let text = plain_text(alloc, b'1', sample)?;
    let mut lines = String::new(alloc);
    for line in table.lines() {
        let changes = question_of(line)?;
        let answer = refusal(alloc, &changed(alloc, &text, changes)?)?;
        push_line(&mut lines, changes, &answer)?;
    }
    check_same(rt, &lines, table);
    Ok(())
}

/// Places in the text of one document, and other bytes there.
const CHANGES: &str = "\
8 80 = Zero
8 82 = DocRange
8 00 = Number(POSTINGS, LeadingZero)
9 81 = ListLength
11 82 = PositionRange
12 80 = Name
13 65 = opened
14 83 = opened
14 81 = PositionRange
16 62 = Grams
16 ff = Text
17 82 = ListLength
17 80 = Zero
18 85 = ListLength
25 05 = Lengths
80 '2' = Trailer
7 '2' = Trailer
";

/// Versions at both ends of the empty text, and lengths that would sum to nothing if they wrapped in 64 bits.
const FRAMES: &str = "\
7 '2' = Trailer
7 '2', 63 '2' = opened
7 '3', 63 '2' = Magic
7 '2', 63 '2', 8 00 00 00 00 00 00 00 80, 16 00 00 00 00 00 00 00 80 = Lengths
";

#[test]
fn changed_bytes(rt: HostRuntime) -> Result<(), Fail> {
    check_changes(&rt, rt.alloc(), ONE_DOCUMENT, CHANGES)?;
    check_changes(&rt, rt.alloc(), "|", FRAMES)
}
