//! Tests of `ix_query`: what queries find in small collections, by a scan and by indexes of both versions, and the first
//! faults of texts that are no queries.

use crate::plain::{check_same, front_of, opened, text_of_documents};
use ix_file::Index;
use ix_query::{Query, QueryError, answer, scan};
use ix_text::{Collection, Doc, StopList};
use std::alloc::{AllocError, Global};
use std::process::Abort;
use std::test::Fail;

/// The query of a text.
fn parsed(alloc: Global, text: &str, stop: &StopList) -> Result<Query, QueryError> {
    Query::parse(alloc, text, stop)
}

/// The numbers of the documents that a query finds by a scan of some documents.
fn scanned(
    rt: &impl Abort,
    alloc: Global,
    documents: &[Doc<'_>],
    stop: &StopList,
    query: &Query,
) -> Result<Vec<u32>, Fail> {
    assert!(rt; documents.len() < 1000);
    Ok(scan(alloc, documents, stop, query)?)
}

/// The numbers of the documents that a query finds by an index.
fn answered(alloc: Global, index: &Index<'_>, query: &Query) -> Result<Vec<u32>, AllocError> {
    answer(alloc, index, query)
}

/// A query and the names of the documents that it finds, as a row.
fn row_of(
    alloc: Global,
    text: &str,
    documents: &[Doc<'_>],
    numbers: &[u32],
) -> Result<String, Fail> {
    let mut row = format!(in alloc; "{text} =>")?;
    for number in numbers {
        let Some(document) = documents.get(*number as usize) else {
            return Err("a document")?;
        };
        row.push(' ')?;
        row.push_str(document.name)?;
    }
    Ok(row)
}

/// Checks that queries find in documents, and in an index of these, what rows say.
fn check_found(
    rt: &impl Abort,
    alloc: Global,
    documents: &[Doc<'_>],
    stop: &StopList,
    index: &Index<'_>,
    rows: &str,
) -> Result<(), Fail> {
    for row in rows.lines() {
        let text = front_of(row)?;
        let query = parsed(alloc, text, stop)?;
        let numbers = scanned(rt, alloc, documents, stop, &query)?;
        check_same(rt, &row_of(alloc, text, documents, &numbers)?, row);
        let numbers = answered(alloc, index, &query)?;
        check_same(rt, &row_of(alloc, text, documents, &numbers)?, row);
    }
    Ok(())
}

/// Collection texts, stop texts, and rows of queries and the documents that they find.
const FOUND: [(&str, &str, &str); 9] = [
    (
        "a\tx y\nb\ty\nc\t\nd\ty x y\ne\tx\n",
        "",
        r#"x => a d e
x AND y => a d
"y x" => d
x NEAR/1 y => a d
x NEAR/1 x =>
y NEAR/2 y => d
y NEAR/1 y =>
NOT x => b c
NOT x AND NOT y => c
x OR y AND NOT x => a b d e
x NEAR/1 y OR y* => a b d
z =>
z AND x =>
NOT z => a b c d e
x NEAR/3 z =>"#,
    ),
    (
        "1\ta c\n2\tb\n3\tb c\n4\tc\n",
        "",
        "\
a OR b AND NOT c => 1 2
(a OR b) AND NOT c => 2",
    ),
    (
        "1\tx new\n2\tyork y\n",
        "",
        r#""new york" =>
NOT new => 2"#,
    ),
    (
        "1\tred\n2\tredo\n3\tretired\n4\tMy e+mail\n",
        "",
        r#"red* => 1 2
re*d => 1 3
re*ed => 3
*e* => 1 2 3 4
q* =>
e+mail => 4
"my mail" =>"#,
    ),
    (
        "1\ta b c d e f g h i j k l m n o p\n2\ta b c d e f g h i j k l m n p o\n",
        "",
        r#""a b c d e f g h i j k l m n o p" => 1"#,
    ),
    (
        "1\ta a\n2\ta b a\n3\ta a a\n4\ta b c d\n5\ta\n",
        "",
        r#""a a" => 1 3
"a a a" => 3
a NEAR/1 a => 1 3
a NEAR/3 d => 4
d NEAR/3 a => 4
a NEAR/2 d =>"#,
    ),
    ("", "", "NOT a =>"),
    (
        "1\tflights to london\n2\tflights london\n3\tflights from london to go\n",
        "to\n",
        r#""flights to london" => 1 3
"flights london" => 2
"to london" => 1 2 3
"london to go" => 3
flights NEAR/1 london => 2"#,
    ),
    (
        "1\ta zzzzzzzzzzzzzzzzzzzzzzzzzzzzzzzzzzzzzzzzzzzzzzzzzzzzzzzzzzzzzzzz\
         zzzzzzzzzzzzzzzzzzzzzzzzzzzzzzzzzzzzzzzzzzzzzzzzzzzzzzzzzzzzzzzzzz\
         zzzzzzzzzzzzzzzzzzzzzzzzzzzzzzzzzzzzzzzzzzzzzzzzzzzzzzzzzzzzzzzzzz\
         zzzzzzzzzzzzzzzzzzzzzzzzzzzzzzzzzzzzzzzzzzzzzzzzzzzzzzzzzzzz b\n",
        "",
        "\"a b\" =>\na NEAR/2 b => 1",
    ),
];

#[test]
fn documents_that_queries_find(rt: HostRuntime) -> Result<(), Fail> {
    let alloc = rt.alloc();
    for (text, stop, rows) in FOUND {
        let collection = Collection::read(alloc, text.as_bytes())?;
        let stop = StopList::read(alloc, stop)?;
        let documents = collection.docs();
        for version in [b'1', b'2'] {
            let text = text_of_documents(alloc, version, documents, &stop)?;
            let index = opened(alloc, &text)?;
            check_found(&rt, alloc, documents, &stop, &index, rows)?;
        }
    }
    Ok(())
}

/// What a test says if a call that takes no memory is refused it.
const REFUSED: &str = "not as with ample memory";

/// A NEAR that no document satisfies is answered without memory, also if each request for it is refused.
#[test]
fn cursor(rt: HostRuntime) -> Result<(), Fail> {
    let alloc = rt.alloc();
    let stop = StopList::empty(alloc);
    let collection = Collection::read(alloc, b"a\tx y\nb\ty\nc\t\nd\ty x y\ne\tx\n")?;
    let text = text_of_documents(alloc, b'2', collection.docs(), &stop)?;
    let index = opened(alloc, &text)?;
    let query = parsed(alloc, "x NEAR/1 x", &stop)?;
    let numbers = answered(alloc, &index, &query).map_err(|_| REFUSED)?;
    assert!(rt; numbers.is_empty() && numbers.capacity() == 0);
    Ok(())
}

/// Texts, and their first faults. A fault of the lexemes comes before any of the grammar, and a run is judged before the
/// lexeme behind it. An offset is seen where an operand or an operator stands that may not.
const FAULTS: &str = " => Empty
    => Empty
a b => Unexpected(2)
a AND => End
( ) => Unexpected(2)
\"a => OpenQuote
a NEAR/0 b => BadNear
a NEAR/05 b => BadNear
a NEAR/65536 b => BadNear
... => NoWord
\"a*\" => StarInPhrase
e+mail NEAR/2 x => NearWord
* => BareStar
\"\" => NoWord
) \" => OpenQuote
a \"b\"\" => OpenQuote
NEAR/0 \" => BadNear
NEAR/ => BadNear
NEAR/+1 => BadNear
NEAR/4294967297 => BadNear
NEAR/1\u{661} => BadNear
... ) => NoWord
e+mail NEAR/2 ) => NearWord
a* NEAR/1 b => NearWord
a NEAR/2 ) => Unexpected(9)
a NEAR/2 => End
(a => End
a) => Unexpected(1)
a NOT b => Unexpected(2)
AND a => Unexpected(0)
NEAR/1 b => Unexpected(0)
\"a b\" NEAR/2 c => Unexpected(6)
(a) NEAR/2 b => Unexpected(4)
a NEAR/2 b NEAR/3 c => Unexpected(11)
x NEAR/1 \"b\" => Unexpected(9)
é ) b => Unexpected(3)
(é)ü ) => Unexpected(4)
a\"b\"c => Unexpected(1)
\"x\"\"\"(\" a (\" => Unexpected(3)
a OR NOTE and => Unexpected(10)
NEAR near/5 => Unexpected(5)
\"NEAR/0\") => Unexpected(8)
a\tb\u{a0}c) => Unexpected(6)
to => OnlyStopWords
to NEAR/2 x => NearWord";

/// Words of 255 letters in place of `#` that are queries and none, and 64 signs in place of `@`.
const LIMITS: &str = "\
# NEAR/1 b => a query
#z NEAR/1 b => LongTerm
\"a #z b\" => LongTerm
a+#z NEAR/1 b => NearWord
@a => a query
NOT @a => Deep
(@a) => Deep
NOT NOT @a => Deep
a NEAR/65535 b => a query";

/// The first fault of a text, or that it is a query, behind the text.
fn fault_row(alloc: Global, stop: &StopList, text: &str) -> Result<String, Fail> {
    match parsed(alloc, text, stop) {
        Ok(_) => Ok(format!(in alloc; "{text} => a query")?),
        Err(error) => Ok(format!(in alloc; "{text} => {error}")?),
    }
}

#[test]
fn texts_and_their_first_faults(rt: HostRuntime) -> Result<(), Fail> {
    let alloc = rt.alloc();
    let stop = StopList::read(alloc, "to")?;
    let long = LIMITS.replace(alloc, '#', "z".repeat(alloc, 255)?.as_str())?;
    let deep = long.replace(alloc, '@', "NOT ".repeat(alloc, 64)?.as_str())?;
    for rows in [FAULTS, deep.as_str()] {
        for row in rows.lines() {
            check_same(&rt, &fault_row(alloc, &stop, front_of(row)?)?, row);
        }
    }
    Ok(())
}

/// A tree that a program has may become a query, and gives the tree back.
#[test]
fn a_query_gives_its_tree_back(rt: HostRuntime) -> Result<(), Fail> {
    let query = parsed(rt.alloc(), "a NEAR/3 b", &StopList::empty(rt.alloc()))?;
    let query = Query::new(query.into_tree()).ok_or("no query")?;
    let told = format!(in rt.alloc(); "{:?}", query.tree())?;
    check_same(
        &rt,
        &told,
        "Near { first: Term { text: \"a\" }, second: Term { text: \"b\" }, distance: 3 }",
    );
    Ok(())
}
