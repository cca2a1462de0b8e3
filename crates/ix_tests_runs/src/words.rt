//! Tests of `ix_text`: words and their terms, token lists, stop lists, collection texts, trigrams.

use ix_text::{Collection, StopList, term_of, tokens, trigrams};
use std::alloc::{AllocError, Global};
use std::test::Fail;

/// Words and their terms, as the Unicode standard has them.
const TERMS: [(&str, &str); 16] = [
    ("brown", "brown"),
    ("STRASSE", "strasse"),
    ("Straße", "strasse"),
    ("\u{1e9e}", "ss"),
    ("e\u{301}", "\u{e9}"),
    ("Σίσυφος", "σίσυφοσ"),
    ("\u{130}", "i\u{307}"),
    ("\u{fb01}", "fi"),
    ("\u{149}", "\u{2bc}n"),
    ("\u{212b}", "\u{e5}"),
    ("A\u{30a}", "\u{e5}"),
    ("\u{1100}\u{1161}\u{11a8}", "\u{ac01}"),
    ("Йод", "йод"),
    ("\u{418}\u{306}од", "йод"),
    ("\u{1fb3}", "\u{3b1}\u{3b9}"),
    ("\u{1f80}\u{304}", "\u{1f00}\u{304}\u{3b9}"),
];

/// Two words, and whether their terms are the same.
const PAIRS: [(&str, &str, bool); 13] = [
    ("\u{df}", "SS", true),
    ("ΣΊΣΥΦΟΣ", "Σίσυφος", true),
    ("\u{130}", "i\u{307}", true),
    ("\u{130}", "i", false),
    ("\u{131}", "I", false),
    ("\u{fb03}", "FFI", true),
    ("\u{c5}", "\u{212b}", true),
    ("a\u{323}\u{307}", "A\u{307}\u{323}", true),
    ("\u{1e69}", "S\u{307}\u{323}", true),
    ("\u{ac01}", "\u{1100}\u{1161}\u{11a8}", true),
    ("\u{1fb3}", "\u{391}\u{399}", true),
    ("\u{3b1}\u{345}\u{304}", "\u{1fb3}\u{304}", true),
    ("\u{e1}", "a", false),
];

/// The term of a word. It has no contract, so that what a term is is in view in none of its callers.
fn told_term(alloc: Global, word: &str) -> Result<String, AllocError> {
    term_of(alloc, word)
}

#[test]
fn words_have_the_terms_of_the_standard(rt: HostRuntime) -> Result<(), Fail> {
    for (word, want) in TERMS {
        assert_eq!(rt; told_term(rt.alloc(), word)?.as_str(), want);
    }
    for (one, other, same) in PAIRS {
        let first = told_term(rt.alloc(), one)?;
        let second = told_term(rt.alloc(), other)?;
        assert!(rt;
            (first.as_str() == second.as_str()) == same,
            "{one} {other}"
        );
    }
    Ok(())
}

/// The terms of a stop text, with a blank behind each, or why it is none.
fn told_stop(alloc: Global, text: &str) -> Result<String, AllocError> {
    match StopList::read(alloc, text) {
        Ok(stop) => stop.terms().join(alloc, " "),
        Err(error) => error.to_string(alloc),
    }
}

/// Stop texts, and their terms, or why they are none. `#` stands for a word of 255 letters.
const STOPS: [(&str, &str); 7] = [
    ("To\n\nof\n", "of to"),
    ("STRASSE\nc\nStraße\na\nb\nC", "a b c strasse"),
    ("", ""),
    ("to be\n", "NotOneWord(1)"),
    ("to\n\nbe\nto be", "NotOneWord(4)"),
    ("\r\n", "NotOneWord(1)"),
    ("to\n#z", "LongWord(2)"),
];

/// The tokens of a text under the stop words `to` and `b`, each with a blank behind it, or `-` for nothing.
fn told_tokens(alloc: Global, text: &str) -> Result<String, Fail> {
    let stop = StopList::read(alloc, "To\nb")?;
    let mut told = String::new(alloc);
    for token in &tokens(alloc, text, &stop)? {
        match token {
            Some(token) => told.push_str(token)?,
            None => told.push('-')?,
        }
        told.push(' ')?;
    }
    Ok(told)
}

/// Texts and their tokens.
const TOKENS: [(&str, &str); 4] = [
    (
        "The quick (\"brown\") fox jumps, right?",
        "the quick brown fox jumps right ",
    ),
    ("flights to london B", "flights - london - "),
    (" ... ", ""),
    ("a # #z c", "a # - c "),
];

#[test]
fn stop_texts_and_tokens(rt: HostRuntime) -> Result<(), Fail> {
    let alloc = rt.alloc();
    let long = "z".repeat(alloc, 255)?;
    for (text, want) in STOPS {
        let text = text.replace(alloc, '#', long.as_str())?;
        assert_eq!(rt; told_stop(alloc, &text)?.as_str(), want);
    }
    for (text, want) in TOKENS {
        let text = text.replace(alloc, '#', long.as_str())?;
        let want = want.replace(alloc, '#', long.as_str())?;
        assert_eq!(rt; told_tokens(alloc, &text)?.as_str(), want.as_str());
    }
    Ok(())
}

/// The documents of a collection text, the name and the text of each in brackets, or why it is none.
fn told_documents(alloc: Global, bytes: &[u8]) -> Result<String, AllocError> {
    let collection = match Collection::read(alloc, bytes) {
        Ok(collection) => collection,
        Err(error) => return error.to_string(alloc),
    };
    let mut told = String::new(alloc);
    for doc in collection.docs() {
        told.push_str(&format!(in alloc; "[{}][{}]", doc.name, doc.text)?)?;
    }
    Ok(told)
}

const COLLECTIONS: [(&[u8], &str); 13] = [
    (b"a\tx y\nb\t\nc\t\ty\tz\n", "[a][x y][b][][c][\ty\tz]"),
    (b"", ""),
    (b"x\n", "NoTab(1)"),
    (b"\ty\n", "Name(1)"),
    (b"a\tb", "NoLineEnd(1)"),
    (b"a\tb\n\n", "NoTab(2)"),
    (b"a\tb\nx", "NoTab(2)"),
    (b"a\tb\n\tc", "Name(2)"),
    (b"a\tb\nc\td", "NoLineEnd(2)"),
    (b"a\tb\n\tc\nx\ny\tz", "Name(2)"),
    (b"\x61\x09\xff\x0a", "NotUtf8(2)"),
    (b"x\na\t\xe5\x90", "NotUtf8(4)"),
    (b"\xff", "NotUtf8(0)"),
];

#[test]
fn collections_and_their_first_faults(rt: HostRuntime) -> Result<(), Fail> {
    let alloc = rt.alloc();
    for (text, want) in COLLECTIONS {
        assert_eq!(rt; told_documents(alloc, text)?.as_str(), want);
    }
    let name = "n".repeat(alloc, 255)?;
    let longest = format!(in alloc; "{name}\tt\n")?;
    let read = format!(in alloc; "[{name}][t]")?;
    assert_eq!(rt;
        told_documents(alloc, longest.as_bytes())?.as_str(),
        read.as_str()
    );
    let longer = format!(in alloc; "n{longest}")?;
    assert_eq!(rt;
        told_documents(alloc, longer.as_bytes())?.as_str(),
        "Name(1)"
    );
    Ok(())
}

/// Texts and their trigrams, with a blank between two.
const WINDOWS: [(&str, &str); 4] = [
    ("$castle$", "$ca cas ast stl tle le$"),
    ("$a$", "$a$"),
    ("$é語😀$", "$é語 é語😀 語😀$"),
    ("ab", ""),
];

/// The trigrams of a text, with a blank between two.
fn told_windows(alloc: Global, text: &str) -> Result<String, AllocError> {
    let windows: Vec<&str> = trigrams(text).collect(alloc)?;
    windows.join(alloc, " ")
}

#[test]
fn trigrams_in_order(rt: HostRuntime) -> Result<(), Fail> {
    for (text, want) in WINDOWS {
        assert_eq!(rt; told_windows(rt.alloc(), text)?.as_str(), want);
    }
    Ok(())
}
