//! Dictionaries that were spelled by hand, from the definition of the format.
ghost use Rattle.std.specs.Prelude.{◌+◌, ◌<◌, ◌^◌, [], IfOk};

use crate::{
    AnyOf, Dictionary, FoundTerm, LookupError, Prefixed, TermMatcher, TermTest, Version, Word,
    Words, find_terms,
};
use ix_files::{Files, MemoryFiles, Slice};
use std::alloc::{AllocError, Global};
use std::test::Fail;

/// `red` in two documents, `redo` in one and `retired` in 130, each term whole. Their lists have 7, 3 and 300 bytes.
const PLAIN: &[u8] = b"\x83red\x82\x87\x84redo\x81\x83\x87retired\x01\x82\x02\xac";

/// The same, front coded.
const FRONT_CODED: &[u8] = b"\x83red\x82\x87\x83\x81o\x81\x83\x82\x85tired\x01\x82\x02\xac";

/// Both, each with its version.
const BOTH: [(Version, &[u8]); 2] = [(Version::Plain, PLAIN), (Version::FrontCoded, FRONT_CODED)];

/// `a ab abc abcd abcde`, front coded: the fifth term begins a group. Their lists have 3 bytes each.
const FIVE: &[u8] =
    b"\x81a\x81\x83\x81\x81b\x81\x83\x82\x81c\x81\x83\x83\x81d\x81\x83\x85abcde\x81\x83";

/// The terms, how many documents have them, and where their lists are.
const LISTED: [(&str, u32, usize, u32); 3] = [
    ("red", 2, 0, 7),
    ("redo", 1, 7, 3),
    ("retired", 130, 10, 300),
];

/// How many bytes the lists of the three terms have.
const POSTINGS: usize = 310;

/// Finds the terms that a matcher looks for in a section.
fn find_in<M: TermMatcher>(
    alloc: Global,
    version: Version,
    section: &[u8],
    count: u32,
    postings: usize,
    matcher: &mut M,
) -> Result<Vec<FoundTerm>, LookupError>
    requires { M.is_at matcher.old [] }
{
    let dictionary = Dictionary {
        version,
        start: 0,
        size: section.len(),
        terms: count,
        postings,
    };
    find_terms(alloc, &Slice { bytes: section }, &dictionary, matcher)
}

/// Finds one word.
fn find_word(
    alloc: Global,
    version: Version,
    section: &[u8],
    count: u32,
    postings: usize,
    text: &str,
) -> Result<Vec<FoundTerm>, LookupError> {
    let mut word = Word::new(text);
    find_in(alloc, version, section, count, postings, &mut word)
}

/// Whether a term that was found is the one that is listed.
fn is_listed(found: &FoundTerm, listed: (&str, u32, usize, u32)) -> bool {
    found.term.as_str() == listed.0
        && found.documents == listed.1
        && found.start == listed.2
        && found.size == listed.3
}

#[test]
fn words_are_found_where_they_are_listed(rt: HostRuntime) -> Result<(), Fail> {
    for (version, section) in BOTH {
        for listed in LISTED {
            let found = find_word(rt.alloc(), version, section, 3, POSTINGS, listed.0)?;
            assert!(rt;
                found.len() == 1 && is_listed(&found[0], listed),
                "{}",
                listed.0
            );
        }
        for text in [
            "", "r", "re", "reda", "reds", "redoo", "retire", "retiree", "z",
        ] {
            let found = find_word(rt.alloc(), version, section, 3, POSTINGS, text)?;
            assert!(rt; found.is_empty(), "{text}");
        }
    }
    for (place, text) in ["a", "ab", "abc", "abcd", "abcde"].iter().enumerate() {
        let found = find_word(rt.alloc(), Version::FrontCoded, FIVE, 5, 15, text)?;
        assert!(rt;
            found.len() == 1 && is_listed(&found[0], (text, 1, 3 * place, 3)),
            "{text}"
        );
    }
    Ok(())
}

/// Terms of this many bytes.
#[derive(Clone, Copy, Drop)]
struct HasSize(usize);

impl TermTest for HasSize {
    ghost use Rattle.std.specs.Prelude.{◌≡◌, length};

    ghost passes = { λ test term. length term ≡ test.0 };

    fn test(&self, term: &str) -> bool {
        term.len() == self.0
    }
}

/// How many of the terms of a dictionary begin with a text and have this many bytes.
fn count_prefixed(
    alloc: Global,
    version: Version,
    section: &[u8],
    front: &str,
    size: usize,
) -> Result<usize, LookupError> {
    let mut prefixed = Prefixed::new(alloc, front, HasSize(size));
    let found = find_in(alloc, version, section, 3, POSTINGS, &mut prefixed)?;
    Ok(found.len())
}

#[test]
fn several_words_and_fronts(rt: HostRuntime) -> Result<(), Fail> {
    for (version, section) in BOTH {
        let mut words = Words::new(vec![in rt.alloc(); "zoo", "red", "raw", "red", "retired"]?);
        let found = find_in(rt.alloc(), version, section, 3, POSTINGS, &mut words)?;
        assert!(rt; found.len() == 2);
        assert!(rt; is_listed(&found[0], LISTED[0]) && is_listed(&found[1], LISTED[2]));
        let mut none = Words::new(Vec::new(rt.alloc()));
        let found = find_in(rt.alloc(), version, section, 3, POSTINGS, &mut none)?;
        assert!(rt; found.is_empty());
        for (front, size, count) in [
            ("", 3, 1),
            ("re", 4, 1),
            ("red", 7, 0),
            ("ret", 7, 1),
            ("redo", 4, 1),
            ("s", 3, 0),
        ] {
            let found = count_prefixed(rt.alloc(), version, section, front, size)?;
            assert_eq!(rt; found, count, "{front}");
        }
    }
    Ok(())
}

/// The terms of four bytes that begin with `re`, and those of seven that begin with `r`.
fn two_patterns(alloc: Global) -> Result<AnyOf<Prefixed<'static, HasSize>>, AllocError>
    ensures { IfOk result (λ any.
        ⟦<AnyOf<Prefixed<'static, HasSize>> as TermMatcher>⟧.is_at any []) }
{
    let mut any = AnyOf::new(alloc);
    any.push(Prefixed::new(alloc, "re", HasSize(4)))?;
    any.push(Prefixed::new(alloc, "r", HasSize(7)))?;
    Ok(any)
}

#[test]
fn patterns_in_one_pass(rt: HostRuntime) -> Result<(), Fail> {
    for (version, section) in BOTH {
        let mut any = two_patterns(rt.alloc())?;
        let found = find_in(rt.alloc(), version, section, 3, POSTINGS, &mut any)?;
        assert!(rt; found.len() == 2);
        assert!(rt; is_listed(&found[0], LISTED[1]) && is_listed(&found[1], LISTED[2]));
    }
    Ok(())
}

/// Looks for words and fronts in bytes that may be anything.
fn search_any(
    alloc: Global,
    version: Version,
    section: &[u8],
    count: u32,
) -> Result<(), AllocError> {
    for text in ["", "redo", "z"] {
        let _word = find_word(alloc, version, section, count, POSTINGS, text);
        let _prefixed = count_prefixed(alloc, version, section, text, 4);
    }
    let mut words = Words::new(vec![in alloc; "red", "retired", "z"]?);
    let _words = find_in(alloc, version, section, count, POSTINGS, &mut words);
    Ok(())
}

/// These bytes with another one at a place.
fn changed(alloc: Global, bytes: &[u8], place: usize, byte: u8) -> Result<Vec<u8>, AllocError> {
    let mut copy = bytes.to_vec(alloc)?;
    if let Some(old) = copy.get_mut(place) {
        *old = byte;
    }
    Ok(copy)
}

#[test]
fn other_bytes_end(rt: HostRuntime) -> Result<(), Fail> {
    for (version, section) in BOTH {
        for end in 0..section.len() {
            let found = find_word(rt.alloc(), version, &section[..end], 3, POSTINGS, "z");
            assert!(rt; matches!(found, Err(LookupError::Malformed)), "{end}");
            for byte in [0, 1, 3, 0x7f, 0x80, 0x84, 0xff] {
                let bytes = changed(rt.alloc(), section, end, byte)?;
                search_any(rt.alloc(), version, bytes.as_slice(), 3)?;
                search_any(rt.alloc(), version, bytes.as_slice(), u32::MAX)?;
            }
        }
        for (count, postings) in [(2, POSTINGS), (4, POSTINGS), (3, 309), (3, 311), (3, 0)] {
            let found = find_word(rt.alloc(), version, section, count, postings, "z");
            assert!(rt;
                matches!(found, Err(LookupError::Malformed)),
                "{count} {postings}"
            );
        }
    }
    Ok(())
}

#[test]
fn a_scan_ends_behind_the_last_word(rt: HostRuntime) -> Result<(), Fail> {
    let broken = b"\x83red\x82\x87\x84redo\x81\x83\x00";
    let found = find_word(rt.alloc(), Version::Plain, broken, 3, POSTINGS, "red")?;
    assert!(rt; found.len() == 1);
    let found = find_word(rt.alloc(), Version::Plain, broken, 3, POSTINGS, "rye");
    assert!(rt; matches!(found, Err(LookupError::Malformed)));
    Ok(())
}

/// How many terms the dictionary of numbers has.
const NUMBERS: u32 = 20_000;

/// Appends the row of a term of five bytes behind another, which is in one document and has a list of three bytes.
fn push_row(
    bytes: &mut Vec<u8>,
    before: &[u8],
    term: &[u8],
    is_whole: bool,
) -> Result<(), AllocError> {
    let shared = before
        .iter()
        .zip(term)
        .take_while(|(one, other)| one == other)
        .count();
    match term.get(shared..) {
        Some(own) if !is_whole => {
            bytes.push(0x80 + (shared % 128) as u8)?;
            bytes.push(0x80 + (own.len() % 128) as u8)?;
            bytes.extend_from_slice(own)?;
        }
        _ => {
            bytes.push(0x85)?;
            bytes.extend_from_slice(term)?;
        }
    }
    bytes.extend_from_slice(b"\x81\x83")?;
    Ok(())
}

/// The numbers from 0 on, in five digits, behind three other bytes and before three. It has more bytes than are read at
/// once.
fn list_numbers(alloc: Global, version: Version) -> Result<(Vec<u8>, Dictionary), AllocError>
    ensures { IfOk result (λ listed. listed.1.start + listed.1.size < 2 ^ 64) }
{
    let mut bytes = Vec::from_slice(alloc, b"abc")?;
    let mut before = String::new(alloc);
    for number in 0..NUMBERS {
        let term = format!(in alloc; "{number:05}")?;
        let is_whole = version == Version::Plain || number % 4 == 0;
        push_row(&mut bytes, before.as_bytes(), term.as_bytes(), is_whole)?;
        before = term;
    }
    let dictionary = Dictionary {
        version,
        start: 3,
        size: bytes.len().saturating_sub(3),
        terms: NUMBERS,
        postings: 3 * NUMBERS as usize,
    };
    bytes.extend_from_slice(b"xyz")?;
    Ok((bytes, dictionary))
}

#[test]
fn terms_are_found_in_each_piece(rt: HostRuntime) -> Result<(), Fail> {
    for (version, _) in BOTH {
        let (bytes, dictionary) = list_numbers(rt.alloc(), version)?;
        assert!(rt; bytes.len() > 1 << 16);
        let mut all = Prefixed::new(rt.alloc(), "", HasSize(5));
        let source = Slice { bytes: &bytes };
        let found = find_terms(rt.alloc(), &source, &dictionary, &mut all)?;
        assert!(rt; found.len() == NUMBERS as usize);
        let mut start = 0usize;
        for (number, one) in found.iter().enumerate() {
            let term = format!(in rt.alloc(); "{number:05}")?;
            assert!(rt; is_listed(one, (term.as_str(), 1, start, 3)), "{number}");
            start = start.wrapping_add(3);
        }
    }
    Ok(())
}

#[test]
fn a_read_fails(rt: HostRuntime) -> Result<(), Fail> {
    let (bytes, dictionary) = list_numbers(rt.alloc(), Version::Plain)?;
    let mut files = MemoryFiles::new(rt.alloc())?;
    files.put("index", &bytes)?;
    for (starved, error) in [(false, LookupError::Read), (true, LookupError::Memory)] {
        // The first call opens the file, and the third reads the second piece.
        files.fail_at(3, starved);
        let source = files.open_ranges("index")?;
        let found = find_terms(rt.alloc(), &source, &dictionary, &mut Word::new("00001"))?;
        assert!(rt; found.len() == 1 && files.calls() == 2);
        files.fail_at(3, starved);
        let source = files.open_ranges("index")?;
        let found = find_terms(rt.alloc(), &source, &dictionary, &mut Word::new("19999"));
        assert!(rt; found.err() == Some(error) && files.calls() == 3);
    }
    Ok(())
}

#[test]
fn errors_are_named_and_numbered(rt: HostRuntime) -> Result<(), Fail> {
    for (error, name, number) in [
        (LookupError::Memory, "Memory", 1),
        (LookupError::Read, "Read", 2),
        (LookupError::Malformed, "Malformed", 3),
    ] {
        let text = format!(in rt.alloc(); "{error}")?;
        assert_eq!(rt; text.as_str(), name);
        assert_eq!(rt; error.number(), number);
    }
    Ok(())
}
