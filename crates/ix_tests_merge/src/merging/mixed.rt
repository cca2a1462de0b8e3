//! Opened indexes and run texts as sources side by side.
ghost use Rattle.std.specs.Prelude.{All, IfOk};
ghost use Rattle.ix_run.specs.RunSources.{HasGiven};
ghost use Rattle.ix_run.specs.Sources.{IsUnread};
ghost use Rattle.ix_merge.specs.AnySources.{SourceHasGiven};

use super::{SAMPLE, merge_told, merged, runs_of, sample_text, texts_of};
use ix_file::Index;
use ix_merge::{AnySource, IndexSource};
use ix_run::RunReader;
use ix_text::Memory;
use std::alloc::Global;
use std::process::Abort;
use std::test::Fail;

/// The documents of the sample in three blocks, in another order than that of their numbers: the first document of each, the
/// block, and the same counted from 0.
const BLOCKS: [(u32, &str, &str); 3] = [
    (4, "4-5", "4-5@0"),
    (0, "0-2", "0-2@0"),
    (2, "2-4", "2-4@0"),
];

/// Documents as a run text, and as an index text that counts them from 0.
#[derive(Drop)]
struct Forms {
    first: u32,
    texts: Vec<Vec<u8>>,
    index: Vec<u8>,
}

/// The blocks in both forms.
fn blocks_of(rt: &impl Abort, alloc: Global) -> Result<Vec<Forms>, Fail> {
    let mut blocks = Vec::new(alloc);
    for (first, block, counted) in BLOCKS {
        let texts = texts_of(alloc, &runs_of(alloc, SAMPLE, block)?)?;
        let (index, _) = merged(rt, alloc, SAMPLE, counted)?;
        blocks.push(Forms {
            first,
            texts,
            index,
        })?;
    }
    Ok(blocks)
}

/// The indexes of the blocks.
fn indexes_of(alloc: Global, blocks: &[Forms]) -> Result<Vec<Index<'_>>, Fail> {
    let mut indexes = Vec::new(alloc);
    for block in blocks {
        indexes.push(Index::open(alloc, block.index.as_slice())?)?;
    }
    Ok(indexes)
}

/// The source of a small index, whose documents count from a small number on.
fn source_at<'a>(
    rt: &impl Abort,
    alloc: Global,
    index: &'a Index<'a>,
    first: u32,
) -> Result<IndexSource<'a>, Memory>
    ensures { IfOk result (IsUnread HasGiven) }
{
    assert!(rt; index.doc_count() < 1000);
    assert!(rt; first < 1000);
    IndexSource::new(alloc, index, first)
}

/// The source of a block in one of its two forms.
fn source_in<'a, 'b>(
    rt: &impl Abort,
    alloc: Global,
    is_index: bool,
    block: &'a Forms,
    index: &'b Index<'b>,
) -> Result<AnySource<'b, &'a [u8]>, Fail>
    ensures { IfOk result (IsUnread SourceHasGiven) }
{
    if is_index {
        let source = source_at(rt, alloc, index, block.first)?;
        return Ok(AnySource::Index(source));
    }
    let Some(text) = block.texts.first() else {
        return Err("no run")?;
    };
    Ok(AnySource::Run(RunReader::open(alloc, text.as_slice())?))
}

/// The sources of the blocks, those of the bits of `forms` as indexes.
fn sources_in<'a, 'b>(
    rt: &impl Abort,
    alloc: Global,
    forms: u32,
    blocks: &'a [Forms],
    indexes: &'b [Index<'b>],
) -> Result<Vec<AnySource<'b, &'a [u8]>>, Fail>
    ensures { IfOk result (λ sources. All (IsUnread SourceHasGiven) sources.items) }
{
    let mut sources = Vec::new(alloc);
    let mut forms = forms;
    for (block, index) in blocks.iter().zip(indexes) {
        sources.push(source_in(rt, alloc, forms % 2 == 1, block, index)?)?;
        forms = forms / 2;
    }
    Ok(sources)
}

#[test]
fn forms_side_by_side(rt: HostRuntime) -> Result<(), Fail> {
    let alloc = rt.alloc();
    let blocks = blocks_of(&rt, alloc)?;
    let indexes = indexes_of(alloc, &blocks)?;
    for forms in 0..8 {
        let sources = sources_in(&rt, alloc, forms, &blocks, &indexes)?;
        let mut out = Vec::new(alloc);
        assert_eq!(rt; merge_told(alloc, sources, &mut out)?.as_str(), "Ok");
        assert_eq!(rt; out.as_slice(), sample_text(), "{forms}");
    }
    Ok(())
}
