//! Searchers in threads of their own, beside an indexer that publishes.
use super::{FOX, RED, add};
use ix_live::{Indexer, NameError, Searcher, live};
use ix_query::Query;
use ix_text::StopList;
use std::alloc::{AllocError, Global};
use std::process::Abort;
use std::sync::Wait;
use std::test::*;
use std::thread::{Threads, join, map_vec};

/// Asks a thousand times, and says whether each answer was the numbers below some count, no answer less than the one
/// before.
fn ask_often(mut searcher: Searcher, query: &Query) -> (Searcher, bool) {
    let mut before = 0;
    for _ in 0..1000 {
        let Ok(numbers) = searcher.answer(query) else {
            return (searcher, false);
        };
        let count = numbers.len();
        let last = numbers.last().copied();
        if count < before || last.is_some_and(|last| last as usize + 1 != count) {
            return (searcher, false);
        }
        before = count;
    }
    (searcher, true)
}

/// Adds a document forty times, and publishes each.
fn publish_often<R: Threads + Wait + Sync>(
    rt: &R,
    alloc: Global,
    indexer: &mut Indexer,
) -> Result<(), Fail> {
    for _ in 0..40 {
        add(rt, alloc, indexer, FOX)?;
        indexer.publish(rt).map_err(|_| "publish")?;
    }
    Ok(())
}

/// Two searchers ask in threads of their own while documents are added; then both know of all.
fn ask_beside<R: Threads + Wait + Sync>(
    rt: &R,
    alloc: Global,
    indexer: &mut Indexer,
    searchers: Vec<Searcher>,
) -> Result<(), Fail> {
    let query = Query::parse(alloc, "fox", &StopList::empty(alloc))?;
    let asks = || map_vec(rt, searchers, &|searcher| ask_often(searcher, &query));
    let (asked, added) = join(rt, asks, || publish_often(rt, alloc, indexer));
    added?;
    for (mut searcher, is_right) in asked? {
        if !is_right || searcher.answer(&query)?.len() != 40 {
            return Err("an answer")?;
        }
    }
    Ok(())
}

#[test]
fn beside(rt: HostRuntime) -> Result<(), Fail> {
    let alloc = rt.alloc();
    let (mut indexer, searchers) = live(&rt, alloc, StopList::empty(alloc), 2)?;
    let done = ask_beside(&rt, alloc, &mut indexer, searchers);
    indexer.close(&rt);
    done
}

/// Asks ten times, and is gone then. Says whether all was answered.
fn ask_and_leave(mut searcher: Searcher, query: &Query) -> bool {
    for _ in 0..10 {
        if searcher.answer(query).is_err() {
            return false;
        }
    }
    true
}

/// Searchers leave their threads while documents are added; the one that stays knows of all.
fn leave_beside<R: Threads + Wait + Sync>(
    rt: &R,
    alloc: Global,
    indexer: &mut Indexer,
    mut searchers: Vec<Searcher>,
) -> Result<(), Fail> {
    let query = Query::parse(alloc, "fox", &StopList::empty(alloc))?;
    let mut stays = searchers.pop().ok_or("a searcher")?;
    let asks = || map_vec(rt, searchers, &|searcher| ask_and_leave(searcher, &query));
    let (asked, added) = join(rt, asks, || publish_often(rt, alloc, indexer));
    added?;
    if !asked?.iter().all(|is_right| *is_right) || stays.answer(&query)?.len() != 40 {
        return Err("an answer")?;
    }
    Ok(())
}

#[test]
fn searchers_leave(rt: HostRuntime) -> Result<(), Fail> {
    let alloc = rt.alloc();
    let (mut indexer, searchers) = live(&rt, alloc, StopList::empty(alloc), 4)?;
    let done = leave_beside(&rt, alloc, &mut indexer, searchers);
    indexer.close(&rt);
    done
}

/// All find what is published last, also once some of them are gone.
fn ask_all<R: Threads + Wait + Sync>(
    rt: &R,
    alloc: Global,
    indexer: &mut Indexer,
    searchers: &mut Vec<Searcher>,
    query: &Query,
) -> Result<(), Fail> {
    add(rt, alloc, indexer, RED)?;
    indexer.publish(rt).map_err(|_| "publish")?;
    searchers.truncate(60);
    add(rt, alloc, indexer, FOX)?;
    indexer.publish(rt).map_err(|_| "publish")?;
    for searcher in searchers {
        if searcher.answer(query)?.as_slice() != [0, 1].as_slice() {
            return Err("an answer")?;
        }
    }
    Ok(())
}

#[test]
fn many_searchers_beyond_the_end(rt: HostRuntime) -> Result<(), Fail> {
    let alloc = rt.alloc();
    let query = Query::parse(alloc, "fox", &StopList::empty(alloc))?;
    let (mut indexer, mut searchers) = live(&rt, alloc, StopList::empty(alloc), 64)?;
    let done = ask_all(&rt, alloc, &mut indexer, &mut searchers, &query);
    indexer.close(&rt);
    done?;
    assert_eq!(rt; searchers.len(), 60);
    for searcher in &mut searchers {
        assert_eq!(rt; searcher.answer(&query).err(), Some(AllocError));
        // It still knows of the history that it answered from.
        assert!(rt; searcher.names(&[0, 1]).is_ok());
        assert_eq!(rt; searcher.names(&[1, 2]).err(), Some(NameError::Number(1)));
    }
    Ok(())
}
