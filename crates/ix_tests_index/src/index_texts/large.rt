//! A collection of a real size: a hundred thousand postings and one of more positions than that, terms of 255 bytes,
//! and a gram of ten thousand terms. It is opened and walked. And texts of more than a MiB or with many listed claims.
use super::opening::{entries_in, found, name_of, push_number, refusal, rows_in};
use super::sample::words;
use super::written::push_line;
use crate::plain::{Entry, check_same, opened, text_of};
use ix_file::{DocRow, Index, Volume};
use std::alloc::Global;
use std::process::Abort;
use std::test::Fail;

/// How many terms there are, but for the last. Each stands in ten documents.
const TERMS: u32 = 10_000;

/// How many documents there are, but for the last. Each has a hundred of the terms.
const DOCUMENTS: u32 = 1000;

/// How many tokens the last document has: each of them the last term.
const TOKENS: u32 = 120_000;

/// The term of a number: `xx` and four digits, and behind one of a hundred as many letters as make 255 bytes.
fn term_of(alloc: Global, number: u32) -> Result<String, Fail> {
    let mut term = format!(in alloc; "xx{number:04}")?;
    if number % 100 == 0 {
        for _ in 0..249 {
            term.push('z')?;
        }
    }
    Ok(term)
}

/// The documents of the term of a number, in each of which it stands once, at one position.
fn postings_of(alloc: Global, number: u32) -> Result<Vec<(u32, Vec<u32>)>, Fail> {
    let mut postings = Vec::new(alloc);
    for tenth in 0u32..10 {
        let mut positions = Vec::new(alloc);
        positions.push(number / 100)?;
        postings.push((number % 100 + 100 * tenth, positions))?;
    }
    Ok(postings)
}

/// The terms with their postings.
fn entries(alloc: Global) -> Result<Vec<Entry>, Fail> {
    let mut entries = Vec::new(alloc);
    for number in 0..TERMS {
        let term = term_of(alloc, number)?;
        let postings = postings_of(alloc, number)?;
        entries.push(Entry { term, postings })?;
    }
    entries.push(entry_of(alloc, DOCUMENTS, TOKENS)?)?;
    Ok(entries)
}

/// The term `y`, which is each of so many first tokens of a document.
fn entry_of(alloc: Global, document: u32, tokens: u32) -> Result<Entry, Fail> {
    let mut positions = Vec::new(alloc);
    for position in 0..tokens {
        positions.push(position)?;
    }
    let mut postings = Vec::new(alloc);
    postings.push((document, positions))?;
    let term = String::from_str(alloc, "y")?;
    Ok(Entry { term, postings })
}

/// The names of the documents.
fn names(alloc: Global) -> Result<Vec<String>, Fail> {
    let mut names = Vec::new(alloc);
    for number in 0..DOCUMENTS + 1 {
        names.push(format!(in alloc; "n{number}")?)?;
    }
    Ok(names)
}

/// The rows of the documents of these names.
fn rows_of(alloc: Global, names: &[String]) -> Result<Vec<DocRow<'_>>, Fail> {
    let mut rows = Vec::new(alloc);
    for (number, name) in names.iter().enumerate() {
        let tokens = if number < DOCUMENTS as usize {
            100
        } else {
            TOKENS
        };
        rows.push(DocRow { name, tokens })?;
    }
    Ok(rows)
}

/// The numbers below this one.
fn numbers_below(alloc: Global, end: u32) -> Result<String, Fail> {
    let mut numbers = String::new(alloc);
    for number in 0..end {
        push_number(alloc, &mut numbers, number)?;
    }
    Ok(numbers)
}

/// The names of documents with the numbers of their tokens.
fn printed(alloc: Global, rows: &[DocRow<'_>]) -> Result<String, Fail> {
    let mut lines = String::new(alloc);
    for row in rows {
        let line = format!(in alloc; "{} {}\n", row.name, row.tokens)?;
        lines.push_str(&line)?;
    }
    Ok(lines)
}

/// What is found: a term, a gram of all terms but the last, and one of it.
fn wanted(alloc: Global) -> Result<String, Fail> {
    let term = term_of(alloc, 9900)?;
    let all = numbers_below(alloc, TERMS)?;
    let mut table = String::new(alloc);
    push_line(
        &mut table,
        &format!(in alloc; "term {term}")?,
        DOCUMENTS_OF_TERM,
    )?;
    push_line(&mut table, "gram $xx", &all)?;
    push_line(&mut table, "gram $y$", "10000")?;
    Ok(table)
}

/// The documents of that term.
const DOCUMENTS_OF_TERM: &str = "0 100 200 300 400 500 600 700 800 900";

/// Checks that an index tells the collection, and finds what is in it.
fn check(rt: &impl Abort, alloc: Global, index: &Index<'_>, entries: &[Entry]) -> Result<(), Fail> {
    let names = names(alloc)?;
    let rows = printed(alloc, &rows_of(alloc, &names)?)?;
    check_same(rt, &printed(alloc, &rows_in(alloc, index)?)?, &rows);
    assert!(rt; entries_in(alloc, index)?.as_slice() == entries);
    let table = wanted(alloc)?;
    check_same(rt, &found(alloc, index, &table)?, &table);
    Ok(())
}

/// Checks what one thread opens.
fn check_text(rt: &impl Abort, alloc: Global, text: &[u8], entries: &[Entry]) -> Result<(), Fail> {
    let index = opened(alloc, text)?;
    check(rt, alloc, &index, entries)
}

#[test]
fn a_hundred_thousand_postings(rt: HostRuntime) -> Result<(), Fail> {
    let alloc = rt.alloc();
    assert!(rt; term_of(alloc, 9900)?.len() == 255);
    let entries = entries(alloc)?;
    let names = names(alloc)?;
    let stop = words(alloc, "to")?;
    let text = text_of(alloc, b'2', &stop, &rows_of(alloc, &names)?, &entries)?;
    assert!(rt; text.len() == 588_571);
    check_text(&rt, alloc, &text, &entries)?;
    let volume = Volume::open_beside(&rt, alloc, text)?;
    let index = volume.index();
    check(&rt, alloc, &index, &entries)
}

/// The index text of so many documents of so many tokens each, of which the first ones of the first document are `y`.
fn text_with(alloc: Global, documents: u32, tokens: u32, claimed: u32) -> Result<Vec<u8>, Fail> {
    let name = "a name";
    let mut rows = Vec::new(alloc);
    for _ in 0..documents {
        rows.push(DocRow { name, tokens })?;
    }
    let entries = vec![in alloc; entry_of(alloc, 0, claimed)?]?;
    Ok(text_of(alloc, b'2', &[], &rows, &entries)?)
}

/// How many documents of how many tokens, and how many of these are claimed: names of more than a MiB; and more tokens than
/// marks are made for beside so short a list, so that its claims are listed.
const LONG: [(u32, u32, u32, usize); 2] = [
    (150_000, 1, 1, 1_200_077),
    (1, 1_000_000, 10_500, 10_588),
];

#[test]
fn long_texts_are_opened(rt: HostRuntime) -> Result<(), Fail> {
    let alloc = rt.alloc();
    for (documents, tokens, claimed, len) in LONG {
        let text = text_with(alloc, documents, tokens, claimed)?;
        assert!(rt; text.len() == len, "{documents}");
        assert_eq!(rt; refusal(alloc, &text)?.as_str(), "opened");
        let opened = Volume::open(alloc, text.clone()?);
        assert_eq!(rt; name_of(alloc, opened.err())?.as_str(), "opened");
        let opened = Volume::open_beside(&rt, alloc, text);
        assert_eq!(rt; name_of(alloc, opened.err())?.as_str(), "opened");
    }
    Ok(())
}
