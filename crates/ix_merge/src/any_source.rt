//! A source of either of two kinds, so that one merge takes run texts and indexes side by side.

use crate::IndexSource;
use ix_run::{ListError, Listed, RunHead, RunReader, RunTextError, Source};
use std::io::Read;

/// A run text as it is read, or an opened index.
///
/// Each call does what that of the part does. The one error of an index is `RunTextError::Memory`, which leaves it
/// unchanged.
#[derive(Drop)]
pub enum AnySource<'a, R> {
    /// A run text.
    Run(RunReader<R>),
    /// An opened index.
    Index(IndexSource<'a>),
}

impl<'a, R: Read + Drop> Source for AnySource<'a, R> {
    ghost use Rattle.std.specs.Prelude.{◌≡◌, ◌+◌, ◌<◌, ◌≤◌, List, ℕ, Some, None, Ok, Err, false, IsSome, IfOk, IfErr, OnErr, OnOk, MatchBool, MatchOption, vec_capacity, vec_len};
    ghost use Rattle.ix_text.specs.Parts.{DictionaryEntry};
    ghost use Rattle.ix_run.specs.Faults.{IsListFault};
    ghost use Rattle.ix_run.specs.RunTextError.TheVariants.{Failed, Memory};
    ghost use Rattle.ix_run.specs.Sources.{BeginsTerm, EndsPostings, EndsTerms, GivesList, GivesPosting, KeepsFaults};
    ghost use Rattle.ix_merge.specs.AnySources.{IsLeftRefused, IsLeftWithoutList, IsOfRunText, LacksRoom, heading_of_source, list_room, term_of_source};
    ghost use Rattle.ix_merge.specs.AnySources.{SourceHasFailed, SourceHasGiven, SourceIsDrained, SourceIsEnded, SourceIsSure, SourceMayFault, SourceMayYield};
    ghost use Rattle.ix_merge.specs.AnySources.{source_drained_without_term, source_given_lawfully};
    ghost use Rattle.ix_merge.specs.AnySources.{source_given_of_term, source_sure_yields, source_yielded_lawfully};

    type Error = RunTextError;

    ghost heading = { heading_of_source };

    ghost current = { term_of_source };

    ghost yields = { SourceMayYield R.remaining };

    ghost gives = { SourceHasGiven };

    ghost is_drained = { SourceIsDrained };

    ghost is_ended = { SourceIsEnded };

    ghost faults = { SourceMayFault R.remaining };

    ghost sure = { SourceIsSure R.remaining };

    fn head(&self) -> &RunHead {
        match self {
            AnySource::Run(run) => Source::head(run),
            AnySource::Index(index) => index.head(),
        }
    }

    fn next_term(&mut self) -> Result<bool, RunTextError>
        ensures heading { heading_of_source self.new ≡ heading_of_source self.old }
        ensures begun { IfOk result (λ more. MatchBool more
            ((term : List ℕ) × (term_of_source self.new ≡ Some term)
            × BeginsTerm (SourceMayYield R.remaining) SourceHasGiven SourceIsDrained
            self.old self.new term)
            ((term_of_source self.new ≡ None) × SourceIsEnded self.new
            × EndsTerms (SourceMayYield R.remaining) SourceHasGiven SourceIsDrained
            self.old self.new)) }
        ensures ended { SourceIsEnded self.old → (result ≡ Ok false) × SourceIsEnded self.new }
        ensures fault { IfErr result (SourceMayFault R.remaining self.old) }
        ensures no_more_faults { OnOk result
            (KeepsFaults (SourceMayFault R.remaining) self.old self.new) }
        ensures sure { OnOk result
            (SourceIsSure R.remaining self.old → SourceIsSure R.remaining self.new) }

        // What an error leaves.
        ensures refused { OnErr result (IsLeftRefused self.old self.new) }
        ensures failed { SourceHasFailed self.old → result ≡ Err Failed }

        // An index returns no error.
        ensures granted { OnErr result (IsOfRunText self.old) }
    {
        match self {
            AnySource::Run(run) => run.next_term(),
            AnySource::Index(index) => match index.next_term() {
                Ok(more) => Ok(more),
                Err(_) => Err(RunTextError::Memory),
            },
        }
    }

    fn term(&self) -> &str {
        match self {
            AnySource::Run(run) => run.term(),
            AnySource::Index(index) => index.term(),
        }
    }

    /// `RunTextError::Memory` only if the positions find no room: of an index those of its next posting, of a run text those
    /// that were read.
    fn next_posting(&mut self, positions: &mut Vec<u32>) -> Result<Option<u32>, RunTextError>
        requires { IsSome (term_of_source self.old) }
        ensures heading { heading_of_source self.new ≡ heading_of_source self.old }
        ensures current { term_of_source self.new ≡ term_of_source self.old }
        ensures given { IfOk result (λ found. MatchOption found
            (SourceIsDrained self.new
            × EndsPostings (SourceMayYield R.remaining) SourceHasGiven self.old self.new)
            (λ document. GivesPosting (SourceMayYield R.remaining) SourceHasGiven
            self.old self.new (document, positions.new.items))) }
        ensures drained { SourceIsDrained self.old → result ≡ Ok None }
        ensures fault { IfErr result (SourceMayFault R.remaining self.old) }
        ensures no_more_faults { OnOk result
            (KeepsFaults (SourceMayFault R.remaining) self.old self.new) }
        ensures sure { OnOk result
            (SourceIsSure R.remaining self.old → SourceIsSure R.remaining self.new) }

        // What an error leaves.
        ensures refused { OnErr result (IsLeftRefused self.old self.new) }
        ensures failed { SourceHasFailed self.old → result ≡ Err Failed }

        // It is out of memory only if the positions find no room.
        ensures full { IfErr result (λ error. error ≡ Memory
            → LacksRoom self.old (vec_capacity positions.old) (vec_len positions.new)) }
    {
        match self {
            AnySource::Run(run) => run.next_posting(positions),
            AnySource::Index(index) => match index.next_posting(positions) {
                Ok(found) => Ok(found),
                Err(_) => Err(RunTextError::Memory),
            },
        }
    }

    /// `ListError::Memory` only if the list finds no room: of an index its bytes, of a run text those that are left of it and
    /// four more.
    fn take_list(&mut self, next: u32, out: &mut Vec<u8>) -> Result<Listed, ListError<RunTextError>>
        requires at_hand { IsSome (term_of_source self.old) }
        requires begun { (finished : List DictionaryEntry)
            × ((entry : DictionaryEntry) × SourceHasGiven self.old finished (Some entry)) }
        requires low { next ≤ (heading_of_source self.old).first }
        ensures heading { heading_of_source self.new ≡ heading_of_source self.old }
        ensures current { term_of_source self.new ≡ term_of_source self.old }
        ensures drained { OnOk result (SourceIsDrained self.new) }
        ensures given { IfOk result (λ listed. GivesList (SourceMayYield R.remaining)
            SourceHasGiven self.old self.new (heading_of_source self.old).first next
            listed.documents listed.next out.old.items out.new.items) }
        ensures refused { OnErr result (out.new.items ≡ out.old.items) }
        ensures fault { IfErr result (IsListFault (SourceMayFault R.remaining self.old)) }
        ensures no_more_faults { OnOk result
            (KeepsFaults (SourceMayFault R.remaining) self.old self.new) }
        ensures sure { OnOk result
            (SourceIsSure R.remaining self.old → SourceIsSure R.remaining self.new) }

        // What an error leaves.
        ensures kept { IfErr result (IsLeftWithoutList self.old self.new) }
        ensures failed { SourceHasFailed self.old → result ≡ Err (ListError.Source Failed) }

        // It is out of memory only if the list finds no room.
        ensures full { IfErr result (λ error. error ≡ ListError.Memory
            → vec_capacity out.old < vec_len out.old + list_room self.old next) }
    {
        match self {
            AnySource::Run(run) => run.take_list(next, out),
            AnySource::Index(index) => match index.take_list(next, out) {
                Ok(listed) => Ok(listed),
                Err(_) => Err(ListError::Memory),
            },
        }
    }

    ghost drained_without_term = { source_drained_without_term };

    ghost given_lawfully = { source_given_lawfully };

    ghost given_of_term = { source_given_of_term };

    ghost yielded_lawfully = { source_yielded_lawfully R.remaining };

    ghost sure_yields = { source_sure_yields R.remaining };
}
