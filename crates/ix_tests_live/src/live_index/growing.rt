//! A long history: after each addition, what is found is compared with one index of all documents so far.
use super::{FOX, RED, add};
use ix_build::{Cut, Plan, Runs, build_in_memory};
use ix_file::Volume;
use ix_live::{Indexer, Searcher, live};
use ix_query::{Query, answer};
use ix_text::{Collection, StopList};
use std::alloc::Global;
use std::process::Abort;
use std::sync::Wait;
use std::test::*;
use std::thread::Threads;

/// What a query finds in one index of a collection text.
fn answer_of_one<R: Threads + Wait + Sync>(
    rt: &R,
    alloc: Global,
    text: &str,
    query: &Query,
) -> Result<Vec<u32>, Fail> {
    let documents = Collection::read(alloc, text.as_bytes())?;
    let plan = Plan::new(Cut::Docs(30), 1, Runs::Memory).ok_or("a plan")?;
    let stop = StopList::empty(alloc);
    let mut bytes = Vec::new(alloc);
    build_in_memory(rt, alloc, &documents, &stop, &plan, &mut bytes)?;
    let volume = Volume::open(alloc, bytes)?;
    Ok(answer(alloc, &volume.index(), query)?)
}

/// The generations of the segments, with a space after each.
fn generations(alloc: Global, indexer: &Indexer) -> Result<String, Fail> {
    let mut text = String::new(alloc);
    for place in 0..32 {
        if let Some(generation) = indexer.generation(place) {
            text.push_str(&format!(in alloc; "{generation} ")?)?;
        }
    }
    Ok(text)
}

/// Texts of one document, and one of three.
const TEXTS: [&str; 6] = [
    RED,
    FOX,
    "3\tred\n",
    "4\tfox red\n",
    "5\t\n",
    "6\tred fox red\n7\tfox\n8\t\n",
];

/// Compares what a searcher finds with what one index of a collection text finds, without the numbers that were removed.
fn compare<R: Threads + Wait + Sync>(
    rt: &R,
    alloc: Global,
    searcher: &mut Searcher,
    all: &str,
    removed: &[u32],
) -> Result<(), Fail> {
    let text = "fox AND NOT red OR \"red fox\"";
    let query = Query::parse(alloc, text, &StopList::empty(alloc))?;
    let mut found = Vec::new(alloc);
    for number in answer_of_one(rt, alloc, all, &query)? {
        if !removed.contains(&number) {
            found.push(number)?;
        }
    }
    if searcher.answer(&query)?.as_slice() != found.as_slice() {
        return Err("an answer")?;
    }
    Ok(())
}

/// Adds texts one by one, each of which is published and asked. Behind the first hundred, a document is removed each time.
/// Says what the generations are after each of the first eight.
fn grow<R: Threads + Wait + Sync>(
    rt: &R,
    alloc: Global,
    indexer: &mut Indexer,
    searcher: &mut Searcher,
) -> Result<String, Fail> {
    let mut all = String::new(alloc);
    let mut told = String::new(alloc);
    let mut removed = Vec::new(alloc);
    for round in 0..120u32 {
        let text = TEXTS[(round % 6) as usize];
        all.push_str(text)?;
        add(rt, alloc, indexer, text)?;
        if round >= 100 {
            indexer.remove(round % 7 * 20).map_err(|_| "remove")?;
            removed.push(round % 7 * 20)?;
        }
        indexer.publish(rt).map_err(|_| "publish")?;
        compare(rt, alloc, searcher, &all, &removed)?;
        if round < 8 {
            // No documents change nothing.
            add(rt, alloc, indexer, "")?;
            told.push_str(&generations(alloc, indexer)?)?;
            told.push(';')?;
        }
    }
    Ok(told)
}

/// The names of documents, with a space behind each, or the error.
fn named(alloc: Global, searcher: &mut Searcher, numbers: &[u32]) -> Result<String, Fail> {
    let mut told = String::new(alloc);
    match searcher.names(numbers) {
        Ok(names) => {
            for name in &names {
                told.push_str(name)?;
                told.push(' ')?;
            }
        }
        Err(error) => told.push_str(&format!(in alloc; "{error}")?)?,
    }
    Ok(told)
}

/// What a history tells: generations, the refusal of a number, the names of documents, and the refusal of others. Of a
/// removed document the name is still known.
fn history<R: Threads + Wait + Sync>(
    rt: &R,
    alloc: Global,
    indexer: &mut Indexer,
    mut searchers: Vec<Searcher>,
) -> Result<String, Fail> {
    let mut searcher = searchers.pop().ok_or("a searcher")?;
    let generations = grow(rt, alloc, indexer, &mut searcher)?;
    let refused = indexer.remove(160);
    let names = named(alloc, &mut searcher, &[2, 0, 7])?;
    let none = named(alloc, &mut searcher, &[159, 160])?;
    Ok(format!(in alloc; "{generations} {refused:?} {names}{none}")?)
}

#[test]
fn a_hundred_additions(rt: HostRuntime) -> Result<(), Fail> {
    let alloc = rt.alloc();
    let (mut indexer, searchers) = live(&rt, alloc, StopList::empty(alloc), 1)?;
    let told = history(&rt, alloc, &mut indexer, searchers);
    indexer.close(&rt);
    assert_eq!(rt;
        told?.as_str(),
        "0 ;1 ;1 0 ;2 ;2 0 ;2 1 ;2 1 0 ;3 ; Err(Number(160)) 3 1 8 Number(1)"
    );
    Ok(())
}

/// Adds a document more than a thousand times, publishes all of it at once, and then tells the generations, how many numbers a
/// searcher finds and the last of them, and how many names it gives.
fn look_late<R: Threads + Wait + Sync>(
    rt: &R,
    alloc: Global,
    indexer: &mut Indexer,
    mut searchers: Vec<Searcher>,
) -> Result<String, Fail> {
    let mut searcher = searchers.pop().ok_or("a searcher")?;
    for _ in 0..1023 {
        add(rt, alloc, indexer, FOX)?;
    }
    indexer.publish(rt).map_err(|_| "publish")?;
    let generations = generations(alloc, indexer)?;
    let query = Query::parse(alloc, "fox", &StopList::empty(alloc))?;
    let numbers = searcher.answer(&query)?;
    let names = searcher.names(&numbers)?;
    let (found, last, named) = (numbers.len(), numbers.last(), names.len());
    Ok(format!(in alloc; "{generations}; {found} {last:?} {named}")?)
}

#[test]
fn a_thousand_additions_at_once(rt: HostRuntime) -> Result<(), Fail> {
    let alloc = rt.alloc();
    let (mut indexer, searchers) = live(&rt, alloc, StopList::empty(alloc), 1)?;
    let told = look_late(&rt, alloc, &mut indexer, searchers);
    indexer.close(&rt);
    assert_eq!(rt;
        told?.as_str(),
        "9 8 7 6 5 4 3 2 1 0 ; 1023 Some(1022) 1023"
    );
    Ok(())
}
