//! What no clause says of a live index: that its calls succeed, side by side and after refusals, and what they find.

mod beside;
mod growing;
mod refusals;

use ix_build::{Cut, Plan, Runs};
use ix_live::Indexer;
use ix_text::Collection;
use std::alloc::Global;
use std::sync::Wait;
use std::test::*;
use std::thread::Threads;

const RED: &str = "1\tred fox\n";

const FOX: &str = "2\tfox\n";

/// Adds the documents of a collection text.
fn add<R: Threads + Wait + Sync>(
    rt: &R,
    alloc: Global,
    indexer: &mut Indexer,
    text: &str,
) -> Result<(), Fail> {
    let documents = Collection::read(alloc, text.as_bytes())?;
    let plan = Plan::new(Cut::Bytes(5), 2, Runs::Memory).ok_or("a plan")?;
    indexer.add(rt, &documents, &plan).map_err(|_| "add")?;
    Ok(())
}
