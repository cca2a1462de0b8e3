//! Merges, byte for byte.
ghost use Rattle.std.specs.Prelude.{All, IfOk};
ghost use Rattle.ix_run.specs.Reading.{HasRead};
ghost use Rattle.ix_run.specs.RunSources.{HasGiven};
ghost use Rattle.ix_run.specs.Sources.{IsUnread};

mod failing;
mod many;
mod mixed;
mod sample;

use ix_merge::merge;
use ix_run::{Run, RunReader, RunSource, RunTextError, Source, invert};
use ix_text::{Collection, Doc, StopList};
use std::alloc::{AllocError, Global};
use std::fmt::Display;
use std::io::{Read, Write};
use std::process::Abort;
use std::test::Fail;

/// Five documents.
const SAMPLE: &str = "a\tx y\nb\ty\nc\t\nd\ty x y\ne\tx\n";

/// Blocks of the five documents, in another order than that of their numbers.
const BLOCKS: &str = "4-5 0-2 2-4";

/// The index text of the five documents, of version 2.
const INDEX: &[u8] =
    b"PIIX0002\x81\x81\x81\x83\x81\x82\x81\x81\x81\x81\x81\x82\x81\x81\x81\x82\x82\x81\x82\x81a\x82\x81b\x81\x81c\x80\x81d\x83\x81e\x81\x81x\x83\x89\x80\x81y\x83\x8a\x83$x$\x81\x81\x83$y$\x81\x82\x13\0\0\0\0\0\0\0\0\0\0\0\0\0\0\0\x0f\0\0\0\0\0\0\0\x09\0\0\0\0\0\0\0\x0c\0\0\0\0\0\0\0\x05\0\0\0\x02\0\0\0PIIXEND2";

/// The index text of the five documents. It tells no proof which bytes these are, and so costs none.
fn sample_text() -> &'static [u8] {
    INDEX
}

/// The run of documents under numbers from a first one on, with these stop words.
fn run_of(alloc: Global, docs: &[Doc<'_>], stop: &str, first: u32) -> Result<Run, Fail> {
    let stop = StopList::read(alloc, stop)?;
    Ok(invert(alloc, docs, &stop, first)?)
}

/// The run of a block of documents. `2-4` tells those from place 2 up to place 4, under their places as numbers. `@7`
/// behind that numbers them from 7 on, and `/x` behind both gives the run the stop word x.
fn run_told(alloc: Global, docs: &[Doc<'_>], block: &str) -> Result<Run, Fail> {
    let (numbered, stop) = block.split_once('/').unwrap_or((block, ""));
    let (places, first) = numbered.split_once('@').unwrap_or((numbered, ""));
    let (from, to) = places.split_once('-').ok_or("no places")?;
    let first = if first.is_empty() { from } else { first };
    let (from, to) = (from.parse::<usize>()?, to.parse::<usize>()?);
    let docs = docs.get(from..to).ok_or("no such documents")?;
    run_of(alloc, docs, stop, first.parse::<u32>()?)
}

/// The runs of these blocks of a collection text, in the order in which they are told.
fn runs_of(alloc: Global, text: &str, blocks: &str) -> Result<Vec<Run>, Fail> {
    let collection = Collection::read(alloc, text.as_bytes())?;
    let mut runs = Vec::new(alloc);
    for block in blocks.split_whitespace() {
        runs.push(run_told(alloc, collection.docs(), block)?)?;
    }
    Ok(runs)
}

/// The run texts of runs.
fn texts_of(alloc: Global, runs: &[Run]) -> Result<Vec<Vec<u8>>, Fail> {
    let mut texts = Vec::new(alloc);
    for run in runs {
        let mut text = Vec::new(alloc);
        run.write_to(&mut text)?;
        texts.push(text)?;
    }
    Ok(texts)
}

/// The source of a run.
fn source_of(run: &Run) -> RunSource<'_>
    ensures { IsUnread HasGiven result }
{
    run.source()
}

/// The sources of runs, in the order of the runs.
fn sources_of(alloc: Global, runs: &[Run]) -> Result<Vec<RunSource<'_>>, AllocError>
    ensures { IfOk result (λ sources. All (IsUnread HasGiven) sources.items) }
{
    let mut sources = Vec::new(alloc);
    for run in runs {
        sources.push(source_of(run))?;
    }
    Ok(sources)
}

/// The sources of the run texts that these readers give, in the order of the readers.
fn opened<R: Read + Drop>(alloc: Global, readers: Vec<R>) -> Result<Vec<RunReader<R>>, RunTextError>
    ensures { IfOk result (λ sources. All (IsUnread HasRead) sources.items) }
{
    let mut sources = Vec::new(alloc);
    for reader in readers {
        sources.push(RunReader::open(alloc, reader)?)?;
    }
    Ok(sources)
}

/// What comes of a merge: `Ok`, or the name of its refusal.
fn merge_told<E: Display + Drop, S: Source<Error = E> + Drop, W: Write>(
    alloc: Global,
    sources: Vec<S>,
    out: &mut W,
) -> Result<String, AllocError>
    requires { All (IsUnread S.gives) sources.items }
{
    match merge(alloc, sources, out) {
        Ok(()) => String::from_str(alloc, "Ok"),
        Err(error) => error.to_string(alloc),
    }
}

/// What comes of a merge of runs.
fn merge_runs<W: Write>(alloc: Global, runs: &[Run], out: &mut W) -> Result<String, Fail> {
    Ok(merge_told(alloc, sources_of(alloc, runs)?, out)?)
}

/// What comes of a merge of the run texts that these readers give, one of which may be refused when it is opened.
fn merge_texts<R: Read + Drop, W: Write>(
    alloc: Global,
    readers: Vec<R>,
    out: &mut W,
) -> Result<String, Fail> {
    match opened(alloc, readers) {
        Ok(sources) => Ok(merge_told(alloc, sources, out)?),
        Err(error) => Ok(format!(in alloc; "not opened: {error}")?),
    }
}

/// What a merge of these blocks of a collection text writes, and what comes of it. As run texts they are merged to the
/// same.
fn merged(
    rt: &impl Abort,
    alloc: Global,
    text: &str,
    blocks: &str,
) -> Result<(Vec<u8>, String), Fail> {
    let runs = runs_of(alloc, text, blocks)?;
    let mut out = Vec::new(alloc);
    let outcome = merge_runs(alloc, &runs, &mut out)?;
    let texts = texts_of(alloc, &runs)?;
    let mut readers = Vec::new(alloc);
    for text in &texts {
        readers.push(text.as_slice())?;
    }
    let mut again = Vec::new(alloc);
    let other = merge_texts(alloc, readers, &mut again)?;
    assert!(rt; again == out, "from bytes");
    assert_eq!(rt; other.as_str(), outcome.as_str(), "from bytes");
    Ok((out, outcome))
}
