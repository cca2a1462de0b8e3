//! Calls that are refused, and the same calls afterwards. Where something is refused to one of them from outside, the
//! test makes the call again, and comes to the same end.
use super::{FOX, RED};
use ix_build::{Cut, Plan, Runs};
use ix_live::{Indexer, Searcher, live};
use ix_query::Query;
use ix_text::{Collection, StopList};
use std::alloc::Global;
use std::process::Abort;
use std::sync::Wait;
use std::test::*;
use std::thread::Threads;

/// How often a call is made at most.
const TIMES: u32 = 3;

/// What a test says where a call is refused each time.
const EACH_TIME: &str = "refused each time";

/// A live index and its searcher, asked for again after each refusal.
fn live_again<R: Wait>(rt: &R, alloc: Global) -> Result<(Indexer, Vec<Searcher>), Fail> {
    for _ in 0..TIMES {
        if let Ok(made) = live(rt, alloc, StopList::empty(alloc), 1) {
            return Ok(made);
        }
    }
    Err(EACH_TIME)?
}

/// Adds documents by two workers, again after each refusal.
fn add_again<R: Threads + Wait + Sync>(
    rt: &R,
    alloc: Global,
    indexer: &mut Indexer,
    text: &str,
) -> Result<(), Fail> {
    let documents = Collection::read(alloc, text.as_bytes())?;
    let plan = Plan::new(Cut::Docs(1), 2, Runs::Memory).ok_or("a plan")?;
    for _ in 0..TIMES {
        if indexer.add(rt, &documents, &plan).is_ok() {
            return Ok(());
        }
    }
    Err(EACH_TIME)?
}

/// Removes a document, again after each refusal.
fn remove_again(indexer: &mut Indexer, number: u32) -> Result<(), Fail> {
    for _ in 0..TIMES {
        if indexer.remove(number).is_ok() {
            return Ok(());
        }
    }
    Err(EACH_TIME)?
}

/// Publishes, again after each refusal.
fn publish_again<R: Wait>(rt: &R, indexer: &mut Indexer) -> Result<(), Fail> {
    for _ in 0..TIMES {
        if indexer.publish(rt).is_ok() {
            return Ok(());
        }
    }
    Err(EACH_TIME)?
}

/// The numbers that a query finds, and their names, asked again after each refusal.
fn ask_again(searcher: &mut Searcher, query: &Query) -> Result<(Vec<u32>, Vec<String>), Fail> {
    for _ in 0..TIMES {
        if let Ok(numbers) = searcher.answer(query) {
            if let Ok(names) = searcher.names(&numbers) {
                return Ok((numbers, names));
            }
        }
    }
    Err(EACH_TIME)?
}

/// Grows a live index over a merge, a removal and two publishes.
fn grow_again<R: Threads + Wait + Sync>(
    rt: &R,
    alloc: Global,
    indexer: &mut Indexer,
) -> Result<(), Fail> {
    add_again(rt, alloc, indexer, "1\tred fox\n2\tfox\n3\tred\n")?;
    add_again(rt, alloc, indexer, RED)?;
    publish_again(rt, indexer)?;
    remove_again(indexer, 1)?;
    publish_again(rt, indexer)?;
    // It is not published.
    add_again(rt, alloc, indexer, FOX)
}

/// A query finds the first document and the fourth, of the same name.
fn find_again(searcher: &mut Searcher, query: &Query) -> Result<(), Fail> {
    let (numbers, names) = ask_again(searcher, query)?;
    if numbers.as_slice() != [0, 3].as_slice() || !names.iter().all(|name| name.as_str() == "1") {
        return Err("not as with ample memory")?;
    }
    Ok(())
}

/// Grows a live index, and asks its searchers.
fn grow_and_find<R: Threads + Wait + Sync>(
    rt: &R,
    alloc: Global,
    indexer: &mut Indexer,
    searchers: &mut Vec<Searcher>,
) -> Result<(), Fail> {
    let query = Query::parse(alloc, "fox", &StopList::empty(alloc))?;
    grow_again(rt, alloc, indexer)?;
    for searcher in searchers {
        find_again(searcher, &query)?;
    }
    Ok(())
}

#[test]
fn again_after_refusals(rt: HostRuntime) -> Result<(), Fail> {
    let alloc = rt.alloc();
    let (mut indexer, mut searchers) = live_again(&rt, alloc)?;
    let done = grow_and_find(&rt, alloc, &mut indexer, &mut searchers);
    indexer.close(&rt);
    done
}
