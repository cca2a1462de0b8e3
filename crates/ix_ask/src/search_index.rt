//! A question to an opened index, up to the names that are written.
ghost use Rattle.std.specs.Prelude.{◌≡◌, ◌<◌, IfOk, IfErr};
ghost use Rattle.ix_text.specs.Collections.{Collection};
ghost use Rattle.ix_file.specs.Opened.{IsIndexOf};
ghost use Rattle.ix_file.specs.Sections.{Version};
ghost use Rattle.ix_projection.specs.Asked.{KeepsAsked};
ghost use Rattle.ix_projection.specs.Kept.{Test, kept_collection};
ghost use Rattle.ix_query.specs.Grammar.{Reads};
ghost use Rattle.ix_query.specs.Tree.{Tree as SeenTree};
ghost use Rattle.ix_ask.specs.Searching.{IsFound, IsSearched, LeavesSearch, RefusesQuery};

use crate::ask_error::AskError;
use crate::names::name_lines_in;
use crate::output::{Lines, write_whole};
use ix_file::Index;
use ix_output::WriteError;
use ix_projection::scans_alike;
use ix_query::{Query, answer};
use std::alloc::Global;
use std::io::Write;

/// Writes the name of each document of the index that satisfies the query, with LF, in the order of
/// the documents, flushes, and returns how many.
///
/// The query is read under the stop list of the index. Nothing is written but after `Ok` or
/// `Write`; after `Write` a prefix of the names may be out.
pub fn search<W: Write>(
    alloc: Global,
    index: &Index<'_>,
    query: &str,
    out: &mut W,
) -> Result<usize, AskError>
    ensures answered { IfOk result (λ count. (version : Version) (collection : Collection)
        → IsIndexOf index.now version collection
        → IsSearched collection query.now (W.contents out.old) (W.contents out.new) count) }
    ensures refused { IfErr result (λ error. (version : Version) (collection : Collection)
        → IsIndexOf index.now version collection
        → LeavesSearch collection query.now (W.contents out.old) (W.contents out.new) error) }
{
    let names = find_names(alloc, index, query)?;
    match write_whole(out, &names.bytes) {
        Ok(()) => Ok(names.count),
        Err(WriteError::Write) => Err(AskError::Write),
    }
}

/// The names of the documents of the index that satisfy the query. They are also those of each collection that has more
/// terms than the index, if the query asks about none of the others.
pub fn find_names(alloc: Global, index: &Index<'_>, query: &str) -> Result<Lines, AskError>
    ensures found { IfOk result (λ names. (version : Version) (collection : Collection)
        → IsIndexOf index.now version collection
        → IsFound collection query.now names.bytes.items names.count) }
    ensures fewer { IfOk result (λ names. (version : Version) (collection : Collection)
        (keeps : Test) (tree : SeenTree)
        → IsIndexOf index.now version (kept_collection keeps collection)
        → Reads collection.stop query.now tree → KeepsAsked keeps collection tree
        → IsFound collection query.now names.bytes.items names.count) }
    ensures refused { IfErr result (λ error. (version : Version) (collection : Collection)
        → IsIndexOf index.now version collection → RefusesQuery collection query.now error) }
{
    let query = match Query::parse(alloc, query, index.stop()) {
        Ok(query) => query,
        Err(error) => return Err(AskError::Query(error)),
    };
    scans_alike(query.tree());
    let numbers = answer(alloc, index, &query)?;
    let bytes = name_lines_in(alloc, index, &numbers)?;
    let count = numbers.len();
    Ok(Lines { bytes, count })
}
