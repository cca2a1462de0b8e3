//! The runs of a collection's blocks, in memory, and the merge of runs in memory.
ghost use Rattle.std.specs.Prelude.{◌≡◌, IfErr, OnOk};
ghost use Rattle.std.specs.Io.KnownBytes.{Keeps};
ghost use Rattle.ix_merge.specs.Refusals.{AreMergeable, IsEarly, IsRefusal};
ghost use Rattle.ix_build.specs.Built.{headings_of};
ghost use Rattle.ix_build.specs.RunPieces.{LeavesRunsPart, WritesRuns};

use crate::build_error::BuildError;
use ix_merge::{MergeError, merge};
use ix_run::Run;
use ix_text::Memory;
use std::alloc::Global;
use std::io::Write;
use std::marker::Model;

/// The runs of a collection's blocks, in the order of the blocks, in memory. Nothing of the collection is borrowed.
#[derive(Drop)]
pub struct InvertedBlocks {
    runs: Vec<Run>,
}

impl Model for InvertedBlocks {
    ghost use Rattle.std.specs.Prelude.{List};
    ghost use Rattle.ix_build.specs.RunPieces.{AreInverted};
    ghost use Rattle.ix_run.specs.Runs.{RunValue};

    ghost Value = { List RunValue };

    ghost view = { λ blocks. blocks.runs.items };

    ghost invariant = { λ blocks. AreInverted blocks.runs.items };
}

impl InvertedBlocks {
    ghost use Rattle.std.specs.Prelude.{ℕ, List};
    ghost use Rattle.ix_build.specs.BuildErrors.{IsMergeRefusal};
    ghost use Rattle.ix_build.specs.OwnParts.{LeavesOwnPart};
    ghost use Rattle.ix_build.specs.RunPieces.{AreInverted, AreRunsOfTexts};
    ghost use Rattle.ix_merge.specs.Endings.{WritesIndexText};
    ghost use Rattle.ix_text.specs.Collections.{NamedText, collection_of};

    /// The blocks of which these are the runs.
    pub(crate) fn new(runs: Vec<Run>) -> InvertedBlocks
        requires { AreInverted runs.items }
        ensures { result ≡ runs.items }
    {
        InvertedBlocks { runs }
    }

    /// Writes the index text, version 2, of the collection: merges the runs (IIR 4.3), and drops them.
    ///
    /// # Errors
    /// `Write` if a write or the flush fails; `Memory` if out of memory. A prefix of this index text is then written,
    /// perhaps nothing of it, and all of it only after `Write`. Never `Thread` or `Spill`.
    pub fn merge_into<W: Write>(self, alloc: Global, out: &mut W) -> Result<(), BuildError>
        ensures written { (stop : List (List ℕ)) (texts : List NamedText)
            → AreRunsOfTexts stop texts self → OnOk result (WritesIndexText
            (W.contents out.old) (W.contents out.new) (collection_of stop texts)) }
        ensures refused { IfErr result IsMergeRefusal }
        ensures unfinished { (stop : List (List ℕ)) (texts : List NamedText)
            → AreRunsOfTexts stop texts self → IfErr result (λ error. LeavesOwnPart
            (collection_of stop texts) (W.contents out.old) (W.contents out.new)
            (error ≡ BuildError.Write)) }
    {
        match merge_runs(alloc, self.runs.as_slice(), out) {
            Ok(()) => Ok(()),
            Err(error) => Err(BuildError::of_merge(error)),
        }
    }
}

/// Writes the index text of the concatenation of the runs' collections. Its errors are those of `merge`.
pub(crate) fn merge_runs<W: Write>(
    alloc: Global,
    runs: &[Run],
    out: &mut W,
) -> Result<(), MergeError<Memory>>
    ensures written { OnOk result (WritesRuns runs.now
        (W.contents out.old) (W.contents out.new)) }
    ensures mergeable { OnOk result (AreMergeable (headings_of runs.now)) }
    ensures refused { IfErr result (IsRefusal (headings_of runs.now)) }
    ensures early { IfErr result (λ error. IsEarly error
        → Keeps (W.contents out.old) (W.contents out.new)) }
    ensures unfinished { IfErr result (λ error. LeavesRunsPart runs.now
        (W.contents out.old) (W.contents out.new) (error ≡ MergeError.Write)) }
{
    let mut sources = Vec::with_capacity(alloc, runs.len())?;
    for run in runs {
        sources.push_reserved(run.source());
    }
    merge(alloc, sources, out)
}
