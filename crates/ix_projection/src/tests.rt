//! The terms that some queries ask about, and some that they do not, as the query language has it.

use crate::asks_about;
use ix_query::Query;
use ix_text::StopList;
use std::process::Abort;
use std::test::Fail;

/// Queries, terms that they ask about, and others.
const ASKED: [(&str, &str, &str); 5] = [
    (
        "Red AND (fox OR NOT wolf)",
        "red fox wolf",
        "and or not Red",
    ),
    ("\"a quick fox\"", "a quick fox", "quickfox qu"),
    ("red NEAR/3 fox", "red fox", "near 3"),
    ("NOT s*ness", "sadness sness", "sad ness sadnesses"),
    ("in* AND *er", "in inner er", "thin here"),
];

#[test]
fn queries_ask_about_their_words_and_matches(rt: HostRuntime) -> Result<(), Fail> {
    let alloc = rt.alloc();
    let stop = StopList::empty(alloc);
    for (text, asked, others) in ASKED {
        let query = Query::parse(alloc, text, &stop)?;
        for term in asked.split(' ') {
            assert!(rt; asks_about(term, query.tree()), "{text}: {term}");
        }
        for term in others.split(' ') {
            assert!(rt; !asks_about(term, query.tree()), "{text}: {term}");
        }
    }
    Ok(())
}
