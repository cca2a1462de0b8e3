//! Small collections, each written as one text.
//!
//! Its parts stand between `|`: the stop words, each in a line, and then the documents, each with its name, `:` and its
//! tokens. Tokens have spaces between them, and `-` is an entry that is nothing: `to|d:flights - london`.
use crate::plain::{Entry, add_place, small, text_of};
use ix_file::DocRow;
use std::alloc::{AllocError, Global};

/// What a sample stands for: its stop words, each in a line, the rows of its documents, and their terms ascending, each
/// with its postings.
#[derive(Drop)]
pub(super) struct Sample<'a> {
    pub(super) stop_words: &'a str,
    pub(super) rows: Vec<DocRow<'a>>,
    pub(super) entries: Vec<Entry>,
}

/// The sample that is written so.
pub(super) fn sample_of(alloc: Global, written: &str) -> Result<Sample<'_>, AllocError> {
    let mut rows = Vec::new(alloc);
    let mut entries = Vec::new(alloc);
    for part in written.split('|') {
        if let Some((name, list)) = part.split_once(':') {
            let tokens = add_tokens(alloc, &mut entries, small(rows.len()), list)?;
            rows.push(DocRow { name, tokens })?;
        }
    }
    let stop_words = stop_words(written);
    Ok(Sample {
        stop_words,
        rows,
        entries,
    })
}

fn stop_words(written: &str) -> &str {
    match written.split_once('|') {
        Some((words, _)) => words,
        None => written,
    }
}

/// Puts the terms of a document's token list to the entries. How many tokens the list has.
fn add_tokens(
    alloc: Global,
    entries: &mut Vec<Entry>,
    document: u32,
    list: &str,
) -> Result<u32, AllocError> {
    let mut count = 0u32;
    for token in list.split(' ') {
        if !token.is_empty() {
            if token != "-" {
                add_place(alloc, entries, token, document, count)?;
            }
            count = count.wrapping_add(1);
        }
    }
    Ok(count)
}

/// The words of a text, each in a line.
pub(super) fn words(alloc: Global, text: &str) -> Result<Vec<String>, AllocError> {
    let mut words = Vec::new(alloc);
    for word in text.lines() {
        words.push(String::from_str(alloc, word)?)?;
    }
    Ok(words)
}

/// The index text of a sample, of version `1` or `2`, written plainly.
pub(super) fn plain_text(alloc: Global, version: u8, written: &str) -> Result<Vec<u8>, AllocError> {
    let sample = sample_of(alloc, written)?;
    let stop = words(alloc, sample.stop_words)?;
    text_of(alloc, version, &stop, &sample.rows, &sample.entries)
}
