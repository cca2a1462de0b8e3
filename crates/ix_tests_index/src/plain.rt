//! Index texts in both versions, written plainly from the definition of the format: every section on its own, and then
//! one behind another. The version is `1`, or `2` where the dictionary is front coded. Beside them stands what the tests
//! of patterns and of queries have in common: an index that is opened, and rows that have an arrow.

use ix_file::{DocRow, Index};
use ix_text::{Doc, StopList, tokens, trigrams};
use std::alloc::{AllocError, Global};
use std::process::Abort;
use std::test::Fail;

/// A term with its postings: documents, each with positions.
#[derive(PartialEq, Eq, Drop)]
pub(super) struct Entry {
    pub(super) term: String,
    pub(super) postings: Vec<(u32, Vec<u32>)>,
}

impl Entry {
    fn add(&mut self, alloc: Global, document: u32, position: u32) -> Result<(), AllocError> {
        let is_new = match self.postings.last() {
            Some(posting) => posting.0 != document,
            None => true,
        };
        if is_new {
            self.postings.push((document, Vec::new(alloc)))?;
        }
        match self.postings.last_mut() {
            Some(posting) => posting.1.push(position)?,
            None => {}
        }
        Ok(())
    }
}

/// Puts a place of a term to the entries, which ascend by their terms. The places of a term come in order.
pub(super) fn add_place(
    alloc: Global,
    entries: &mut Vec<Entry>,
    term: &str,
    document: u32,
    position: u32,
) -> Result<(), AllocError> {
    let place = entries.partition_point(|entry| entry.term.as_str() < term);
    let is_new = match entries.get(place) {
        Some(entry) => entry.term.as_str() != term,
        None => true,
    };
    if is_new {
        let term = String::from_str(alloc, term)?;
        let postings = Vec::new(alloc);
        entries.insert(place, Entry { term, postings })?;
    }
    if let Some(entry) = entries.get_mut(place) {
        entry.add(alloc, document, position)?;
    }
    Ok(())
}

/// Puts the terms of a document's token list to the entries.
fn add_tokens(
    alloc: Global,
    entries: &mut Vec<Entry>,
    document: u32,
    list: &[Option<String>],
) -> Result<(), AllocError> {
    for (position, entry) in list.iter().enumerate() {
        if let Some(term) = entry {
            add_place(alloc, entries, term, document, small(position))?;
        }
    }
    Ok(())
}

/// The index text of some documents under a stop list.
pub(super) fn text_of_documents(
    alloc: Global,
    version: u8,
    documents: &[Doc<'_>],
    stop: &StopList,
) -> Result<Vec<u8>, AllocError> {
    let mut rows = Vec::new(alloc);
    let mut entries = Vec::new(alloc);
    for (number, document) in documents.iter().enumerate() {
        let list = tokens(alloc, document.text, stop)?;
        let name = document.name;
        let tokens = small(list.len());
        rows.push(DocRow { name, tokens })?;
        add_tokens(alloc, &mut entries, small(number), &list)?;
    }
    text_of(alloc, version, stop.terms(), &rows, &entries)
}

/// The index text of one document `d` whose n-th token is the n-th of some terms.
pub(super) fn text_of_terms(
    alloc: Global,
    version: u8,
    terms: &[String],
) -> Result<Vec<u8>, AllocError> {
    let mut entries = Vec::new(alloc);
    for (position, term) in terms.iter().enumerate() {
        add_place(alloc, &mut entries, term, 0, small(position))?;
    }
    let name = "d";
    let tokens = small(terms.len());
    text_of(alloc, version, &[], &[DocRow { name, tokens }], &entries)
}

/// The index text of these stop terms, rows and entries.
pub(super) fn text_of(
    alloc: Global,
    version: u8,
    stop: &[String],
    rows: &[DocRow<'_>],
    entries: &[Entry],
) -> Result<Vec<u8>, AllocError> {
    let mut sections = Vec::new(alloc);
    sections.push(postings(alloc, entries)?)?;
    sections.push(stops(alloc, stop)?)?;
    sections.push(documents(alloc, rows)?)?;
    sections.push(dictionary(alloc, version, entries)?)?;
    sections.push(grams(alloc, entries)?)?;
    let counts = [small(rows.len()), small(entries.len())];
    framed_text(alloc, version, &sections, counts)
}

/// Five sections between the marks of the version, with the lengths of all and the counts of documents and terms.
pub(super) fn framed_text(
    alloc: Global,
    version: u8,
    sections: &[Vec<u8>],
    counts: [u32; 2],
) -> Result<Vec<u8>, AllocError> {
    let mut text = Vec::new(alloc);
    text.extend_from_slice(b"PIIX000")?;
    text.push(version)?;
    for section in sections {
        text.extend_from_slice(section)?;
    }
    for section in sections {
        text.extend_from_slice(&(section.len() as u64).to_le_bytes())?;
    }
    for count in counts {
        text.extend_from_slice(&count.to_le_bytes())?;
    }
    text.extend_from_slice(b"PIIXEND")?;
    text.push(version)?;
    Ok(text)
}

fn postings(alloc: Global, entries: &[Entry]) -> Result<Vec<u8>, AllocError> {
    let mut section = Vec::new(alloc);
    for entry in entries {
        section.extend_from_slice(&list(alloc, entry)?)?;
    }
    Ok(section)
}

fn stops(alloc: Global, stop: &[String]) -> Result<Vec<u8>, AllocError> {
    let mut section = Vec::new(alloc);
    for term in stop {
        push_text(&mut section, term.as_bytes())?;
    }
    Ok(section)
}

/// The name of each document, and how many tokens it has.
fn documents(alloc: Global, rows: &[DocRow<'_>]) -> Result<Vec<u8>, AllocError> {
    let mut section = Vec::new(alloc);
    for row in rows {
        push_text(&mut section, row.name.as_bytes())?;
        push_number(&mut section, row.tokens)?;
    }
    Ok(section)
}

/// Each term with the count of its documents and the length of its list. In version 2 the first of every four is whole,
/// and the others share their front with the one before.
fn dictionary(alloc: Global, version: u8, entries: &[Entry]) -> Result<Vec<u8>, AllocError> {
    let mut section = Vec::new(alloc);
    let mut before = "";
    for (place, entry) in entries.iter().enumerate() {
        let term = entry.term.as_str();
        if version == b'1' || place % 4 == 0 {
            push_text(&mut section, term.as_bytes())?;
        } else {
            push_behind(&mut section, before.as_bytes(), term.as_bytes())?;
        }
        push_number(&mut section, small(entry.postings.len()))?;
        push_number(&mut section, small(list(alloc, entry)?.len()))?;
        before = term;
    }
    Ok(section)
}

/// A term behind another one: how many bytes both begin with, and the bytes that are left.
fn push_behind(section: &mut Vec<u8>, before: &[u8], term: &[u8]) -> Result<(), AllocError> {
    let shared = shared_front(before, term);
    push_number(section, small(shared))?;
    push_text(section, term.get(shared..).unwrap_or(b""))
}

/// How many bytes two texts begin with alike.
fn shared_front(one: &[u8], other: &[u8]) -> usize {
    let mut shared = 0usize;
    for (a, b) in one.iter().zip(other) {
        if a != b {
            break;
        }
        shared = shared.saturating_add(1);
    }
    shared
}

/// Each gram of the terms, ascending, with the numbers of the terms that have it.
fn grams(alloc: Global, entries: &[Entry]) -> Result<Vec<u8>, AllocError> {
    let pairs = pairs(alloc, entries)?;
    let mut section = Vec::new(alloc);
    let mut numbers = Vec::new(alloc);
    let mut current = "";
    for (gram, number) in &pairs {
        if gram.as_str() != current {
            push_gram(&mut section, current, &numbers)?;
            numbers.clear();
            current = gram;
        }
        numbers.push(*number)?;
    }
    push_gram(&mut section, current, &numbers)?;
    Ok(section)
}

/// The grams, each with the number of a term that has it, ascending, each pair once.
fn pairs(alloc: Global, entries: &[Entry]) -> Result<Vec<(String, u32)>, AllocError> {
    let mut pairs = Vec::new(alloc);
    for (number, entry) in entries.iter().enumerate() {
        push_grams(alloc, &mut pairs, &entry.term, small(number))?;
    }
    pairs.sort_unstable();
    pairs.dedup();
    Ok(pairs)
}

/// The grams of the term of a number.
fn push_grams(
    alloc: Global,
    pairs: &mut Vec<(String, u32)>,
    term: &str,
    number: u32,
) -> Result<(), AllocError> {
    let marked = format!(in alloc; "${term}$")?;
    for gram in trigrams(&marked) {
        pairs.push((String::from_str(alloc, gram)?, number))?;
    }
    Ok(())
}

/// A gram with its numbers, if it has any.
fn push_gram(section: &mut Vec<u8>, gram: &str, numbers: &[u32]) -> Result<(), AllocError> {
    if numbers.is_empty() {
        return Ok(());
    }
    push_text(section, gram.as_bytes())?;
    push_number(section, small(numbers.len()))?;
    push_gaps(section, numbers)
}

/// The coded list of an entry.
fn list(alloc: Global, entry: &Entry) -> Result<Vec<u8>, AllocError> {
    let mut list = Vec::new(alloc);
    let mut next = 0u32;
    for (document, positions) in &entry.postings {
        push_number(&mut list, document.wrapping_add(1).wrapping_sub(next))?;
        push_number(&mut list, small(positions.len()))?;
        push_gaps(&mut list, positions)?;
        next = document.wrapping_add(1);
    }
    Ok(list)
}

fn push_gaps(section: &mut Vec<u8>, numbers: &[u32]) -> Result<(), AllocError> {
    let mut next = 0u32;
    for number in numbers {
        push_number(section, number.wrapping_add(1).wrapping_sub(next))?;
        next = number.wrapping_add(1);
    }
    Ok(())
}

fn push_text(section: &mut Vec<u8>, text: &[u8]) -> Result<(), AllocError> {
    push_number(section, small(text.len()))?;
    section.extend_from_slice(text)
}

/// Seven bits a byte, the most significant first, the top bit set in the last byte alone.
fn push_number(section: &mut Vec<u8>, number: u32) -> Result<(), AllocError> {
    let second = number / 128;
    let third = second / 128;
    let fourth = third / 128;
    for digits in [fourth / 128, fourth, third, second] {
        if digits != 0 {
            section.push((digits % 128) as u8)?;
        }
    }
    section.push((number % 128) as u8 + 128)?;
    Ok(())
}

/// The index of an index text.
pub(super) fn opened<'a>(alloc: Global, text: &'a [u8]) -> Result<Index<'a>, Fail> {
    Ok(Index::open(alloc, text)?)
}

/// The front of a row, which goes to its arrow. Behind the arrow stands what is found, or what is told.
pub(super) fn front_of(row: &str) -> Result<&str, Fail> {
    match row.split_once(" =>") {
        Some((front, _)) => Ok(front),
        None => Err("a row")?,
    }
}

/// Checks that what was got is what was wanted.
pub(super) fn check_same(rt: &impl Abort, got: &str, want: &str) {
    assert_eq!(rt; got, want);
}

/// The number, which is small.
pub(super) fn small(number: usize) -> u32 {
    u32::try_from(number).unwrap_or(u32::MAX)
}
