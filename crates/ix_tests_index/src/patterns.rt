//! Patterns expanded over index texts of both versions, and texts that are no patterns.

use crate::plain::{check_same, front_of, opened, text_of_terms};
use ix_file::Index;
use ix_gram::{Pattern, PatternError, expand};
use std::alloc::Global;
use std::process::Abort;
use std::test::Fail;

/// The words of a line.
fn words(alloc: Global, line: &str) -> Result<Vec<String>, Fail> {
    let mut words = Vec::new(alloc);
    for word in line.split(' ') {
        words.push(String::from_str(alloc, word)?)?;
    }
    Ok(words)
}

/// The numbers of the terms that a pattern finds, or why it is none.
fn expanded(
    alloc: Global,
    index: &Index<'_>,
    text: &str,
) -> Result<Result<Vec<u32>, PatternError>, Fail> {
    match Pattern::read(alloc, text) {
        Ok(pattern) => Ok(Ok(expand(alloc, index, &pattern)?)),
        Err(error) => Ok(Err(error)),
    }
}

/// A pattern and the terms that it finds, with a space before each, or why it is none.
fn told(rt: &impl Abort, alloc: Global, index: &Index<'_>, pattern: &str) -> Result<String, Fail> {
    let mut line = format!(in alloc; "{pattern} =>")?;
    match expanded(alloc, index, pattern)? {
        Ok(numbers) => {
            for number in &numbers {
                assert!(rt; *number < index.term_count());
                line.push(' ')?;
                line.push_str(index.term(*number))?;
            }
        }
        Err(error) => line.push_str(&format!(in alloc; " {error}")?)?,
    }
    Ok(line)
}

/// Terms, and what patterns find among them. A piece is folded as a term is, and one that begins with a combining mark
/// stands behind any character.
const FOUND: [(&str, &str); 4] = [
    (
        "red redo retired",
        "\
red* => red redo
re*d => red retired
re*ed => retired
r**d => red retired
*d => red retired
q* =>
*tir* => retired
*tri* =>
RE*O => redo
red => NoStar
* => BareStar
** => BareStar
 => NoStar",
    ),
    (
        "a an b",
        "\
a* => a an
*a => a
*n* => an
b* => b",
    ),
    (
        "e z é élan êtes 語 語学",
        "\
é* => é élan
語* => 語 語学
*学 => 語学",
    ),
    (
        "aa aba abaaba ababa strasse x\u{301}y xa\u{301}y",
        "\
a*a => aa aba abaaba ababa
aba*aba => abaaba
*b*b* => abaaba ababa
STRASSE* => strasse
x*\u{301}y => xa\u{301}y x\u{301}y",
    ),
];

#[test]
fn patterns_find_terms(rt: HostRuntime) -> Result<(), Fail> {
    let alloc = rt.alloc();
    for (terms, rows) in FOUND {
        for version in [b'1', b'2'] {
            let text = text_of_terms(alloc, version, &words(alloc, terms)?)?;
            let index = opened(alloc, &text)?;
            for row in rows.lines() {
                check_same(&rt, &told(&rt, alloc, &index, front_of(row)?)?, row);
            }
        }
    }
    Ok(())
}

/// Patterns, and how many of the terms `t10000s` to `t19999s` each of them finds.
const COUNTS: [(&str, usize); 4] = [
    ("t*", 10_000),
    ("*s", 10_000),
    ("t1*", 10_000),
    ("*99s", 100),
];

#[test]
fn every_term_may_match(rt: HostRuntime) -> Result<(), Fail> {
    let alloc = rt.alloc();
    let mut terms = Vec::new(alloc);
    for number in 10_000u32..20_000 {
        terms.push(format!(in alloc; "t{number}s")?)?;
    }
    let text = text_of_terms(alloc, b'2', &terms)?;
    let index = opened(alloc, &text)?;
    for (pattern, count) in COUNTS {
        let Ok(numbers) = expanded(alloc, &index, pattern)? else {
            return Err("no pattern")?;
        };
        assert!(rt; numbers.len() == count, "{pattern}");
    }
    Ok(())
}

/// Whether a term matches the pattern of a text; or why that is none.
fn matches(alloc: Global, text: &str, term: &str) -> Result<bool, PatternError> {
    Ok(Pattern::read(alloc, text)?.matches(term))
}

#[test]
fn long_texts_are_read_or_refused(rt: HostRuntime) -> Result<(), Fail> {
    let alloc = rt.alloc();
    let letters = "a".repeat(alloc, 5000)?;
    let starred = format!(in alloc; "{letters}*")?;
    assert_eq!(rt; matches(alloc, &letters, "a"), Err(PatternError::NoStar));
    assert_eq!(rt; matches(alloc, &starred, &letters), Ok(true));
    assert_eq!(rt; matches(alloc, &starred, "a"), Ok(false));
    let stars = "*".repeat(alloc, 5000)?;
    let ended = format!(in alloc; "{stars}a")?;
    assert_eq!(rt; matches(alloc, &stars, "a"), Err(PatternError::BareStar));
    assert_eq!(rt; matches(alloc, &ended, "ba"), Ok(true));
    Ok(())
}
