//! Queries that are answered after news.
ghost use Rattle.std.specs.Prelude.{◌≡◌, ◌<◌, ℕ, Ok, IfOk, length, map, slice_index_or, vec_len};
ghost use Rattle.ix_live.specs.Histories.{operations_in};
ghost use Rattle.ix_script.specs.Answers.{IsAnswer, names_in};

use ix_live::{NameError, News};
use ix_query::Query;
use ix_text::Memory;
use std::alloc::{AllocError, Global};
use std::thread::{Threads, for_each_mut};

/// The names of the documents that a query finds after just the history of these news, in order.
///
/// `Memory` if out of memory.
pub fn find_names(alloc: Global, news: &News, query: &Query) -> Result<Vec<String>, Memory>
    ensures { IfOk result (λ names. IsAnswer news.now.stop (operations_in news.now.history)
        query.now (names_in names)) }
{
    let numbers = news.answer(alloc, query)?;
    match news.names(alloc, &numbers) {
        Ok(names) => Ok(names),
        Err(NameError::Memory) => Err(AllocError),
        // Each number that was found is a document's.
        Err(NameError::Number(_)) => unreachable!(),
    }
}

/// Puts the names of the documents that each query finds at its place, by at most that many
/// threads.
pub fn find_each<R: Threads + Sync>(
    rt: &R,
    alloc: Global,
    news: &News,
    threads: usize,
    queries: &[&Query],
    found: &mut [Result<Vec<String>, Memory>],
)
    requires threads { 0 < threads }
    requires room { length found.old ≡ length queries.now }
    ensures { (place : ℕ) (one : _) (query : _) → place < length queries.now
        → IfOk (slice_index_or found.new place one) (λ names.
        IsAnswer news.now.stop (operations_in news.now.history) (slice_index_or queries.now place
        query).now (names_in names)) }
{
    for_each_mut(
        rt,
        found,
        threads,
        &|place, names| {
            *names = find_names(alloc, news, queries[place]);
        },
    );
}

/// Room for the names of `count` queries.
pub fn unanswered(alloc: Global, count: usize) -> Result<Vec<Result<Vec<String>, Memory>>, Memory>
    ensures { IfOk result (λ found. vec_len found ≡ count) }
{
    let mut found = Vec::with_capacity(alloc, count)?;
    let mut place = 0;
    while place < count {
        found.push_reserved(Err(AllocError));
        place += 1;
    }
    Ok(found)
}

/// The names that were found for each query. If they were not found for each, the error is the
/// place of the first for which they were not; if out of memory, it is 0.
pub fn all_found(
    alloc: Global,
    found: Vec<Result<Vec<String>, Memory>>,
) -> Result<Vec<Vec<String>>, usize>
    ensures { IfOk result (λ answers. map (λ names. Ok names) answers.items ≡ found.items) }
{
    let Ok(mut answers) = Vec::with_capacity(alloc, found.len()) else {
        return Err(0);
    };
    for names in found {
        match names {
            Ok(names) => answers.push_reserved(names),
            Err(AllocError) => return Err(answers.len()),
        }
    }
    Ok(answers)
}
