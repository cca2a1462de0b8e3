//! What was opened, as the sources of a merge.

ghost use Rattle.std.specs.Prelude.{◌≡◌, All, IfOk};
ghost use Rattle.ix_command.specs.MergeInputs.{AreSourcesOf, IsSourceOf, StandsIn};

use super::inputs::Part;
use ix_file::{Index, Volume};
use ix_merge::{AnySource, IndexSource};
use ix_text::Memory;
use std::alloc::Global;
use std::io::Read;

/// The indexes of volumes, in their order.
pub fn indexes_of(alloc: Global, volumes: &[Volume]) -> Result<Vec<Index<'_>>, Memory>
    ensures { IfOk result (λ indexes. indexes.items ≡ volumes.now) }
{
    let mut indexes = Vec::new(alloc);
    for volume in volumes {
        indexes.push(volume.index())?;
    }
    Ok(indexes)
}

/// The sources of the files that were opened, in their order. Nothing was asked of them yet.
pub fn sources_of<'a, R: Read + Drop>(
    alloc: Global,
    parts: Vec<Part<R>>,
    indexes: &'a [Index<'a>],
) -> Result<Vec<AnySource<'a, R>>, Memory>
    requires { All (StandsIn indexes.now) parts.items }
    ensures { IfOk result (λ sources. AreSourcesOf indexes.entry.now parts.items sources.items) }
{
    let mut sources = Vec::new(alloc);
    for part in parts {
        let source = source_of(alloc, part, indexes)?;
        sources.push(source)?;
    }
    Ok(sources)
}

/// The source of a file that was opened.
fn source_of<'a, R: Read + Drop>(
    alloc: Global,
    part: Part<R>,
    indexes: &'a [Index<'a>],
) -> Result<AnySource<'a, R>, Memory>
    requires { StandsIn indexes.now part }
    ensures { IfOk result (IsSourceOf indexes.entry.now part) }
{
    match part {
        Part::Run(run) => Ok(AnySource::Run(run)),
        Part::Index { first, number } => {
            let source = IndexSource::new(alloc, &indexes[number], first)?;
            Ok(AnySource::Index(source))
        }
    }
}
