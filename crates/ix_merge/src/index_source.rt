//! An opened index as a source of its postings.

use crate::index_head::{documents, last_document};
use ix_file::{Index, Postings};
use ix_run::{ListError, Listed, RunHead, Source};
use ix_text::Memory;
use std::alloc::Global;
use std::marker::Model;

/// The terms and the postings of an opened index, in order. Its lists are not copied until they are taken.
///
/// Its one error is `Memory`: the positions of a posting, or a list, found no room. The source is then as it was before
/// the call, and `positions` holds anything.
#[derive(Drop)]
pub struct IndexSource<'a> {
    index: &'a Index<'a>,
    head: RunHead,
    // the number of the term that comes next
    number: u32,
    // the current term
    term: Option<&'a str>,
    // the postings of the current term that are left
    postings: Postings<'a>,
}

impl<'a> Model for IndexSource<'a> {
    ghost use Rattle.std.specs.Prelude.{map, drop};
    ghost use Rattle.std.specs.Option.{option_copied};
    ghost use Rattle.ix_text.specs.PartsLaws.{AreLawful};
    ghost use Rattle.ix_run.specs.Heads.{heading_of};
    ghost use Rattle.ix_run.specs.Runs.{coded};
    ghost use Rattle.ix_run.specs.RunSources.{IsAtPlace, SourceValue};

    ghost Value = { SourceValue };

    ghost view = { λ source. record {
      heading = heading_of source.head;
      terms = map coded (drop source.number source.index.now.parts.entries);
      term = option_copied source.term;
      postings = source.postings;
    } };

    ghost invariant = { λ source. IsAtPlace (record {
      heading = heading_of source.head;
      terms = map coded (drop source.number source.index.now.parts.entries);
      term = option_copied source.term;
      postings = source.postings;
    }) × AreLawful source.index.now.parts };
}

impl<'a> IndexSource<'a> {
    ghost use Rattle.std.specs.Prelude.{◌≡◌, ◌≤◌, ◌+◌, ◌^◌, List, [], length, IfOk};
    ghost use Rattle.ix_text.specs.Collections.{Collection};
    ghost use Rattle.ix_text.specs.Parts.{ArePartsOf, DictionaryEntry};
    ghost use Rattle.ix_run.specs.Heads.{parts_with};
    ghost use Rattle.ix_run.specs.Runs.{run_value};
    ghost use Rattle.ix_run.specs.RunSources.{HasGiven, HasLeft, unread};
    ghost use Rattle.ix_run.specs.Sources.{IsUnread};

    /// The source of an index, from which nothing was read yet: that of a run of the same collection, whose documents
    /// count from `first` on. The sum of `first` and the number of documents is at most 2^28.
    ///
    /// # Errors
    ///
    /// * `Memory`: out of memory for the names or the stop terms.
    pub fn new(alloc: Global, index: &'a Index<'a>, first: u32) -> Result<IndexSource<'a>, Memory>
        requires { first + length index.now.parts.rows ≤ 2 ^ 28 }
        ensures value { IfOk result (λ source. source ≡ unread (run_value first index.now.parts)) }
        ensures unread { IfOk result (IsUnread HasGiven) }
        ensures yields { IfOk result (λ source. (collection : Collection)
            → ArePartsOf collection index.now.parts
            → (entries : List DictionaryEntry) → HasLeft source [] entries
            → ArePartsOf collection (parts_with source.heading entries)) }
    {
        Ok(IndexSource {
            head: RunHead {
                first,
                stop: index.stop().copy(alloc)?,
                docs: documents(alloc, index)?,
            },
            index,
            number: 0,
            term: None,
            postings: Postings::new(&[], 0),
        })
    }
}

impl<'a> Source for IndexSource<'a> {
    ghost use Rattle.std.specs.Prelude.{◌≡◌, ◌+◌, ◌<◌, ◌≤◌, ℕ, List, Some, None, Ok, false, length, IsOk, IsSome, IfOk, IfErr, OnErr, OnOk, MatchBool, MatchOption, vec_capacity, vec_len};
    ghost use Rattle.ix_file.specs.Postings.{list_bytes_from, shifted};
    ghost use Rattle.ix_run.specs.RunSources.{FirstExceeds, HasGiven, HasLeft, IsAlwaysSure, IsAtEnd, IsAtEndOfTerm, MayLackMemory, always_yields};
    ghost use Rattle.ix_run.specs.Sources.{BeginsTerm, EndsPostings, EndsTerms, GivesList, GivesPosting, KeepsFaults};
    ghost use Rattle.ix_run.specs.Faults.{IsListFault};

    type Error = Memory;

    ghost heading = { λ source. source.heading };

    ghost current = { λ source. source.term };

    ghost yields = { HasLeft };

    ghost gives = { HasGiven };

    ghost is_drained = { IsAtEndOfTerm };

    ghost is_ended = { IsAtEnd };

    ghost faults = { MayLackMemory };

    ghost sure = { IsAlwaysSure };

    fn head(&self) -> &RunHead {
        &self.head
    }

    /// Advances to the next term, and returns whether there is one; if not, each later call returns `false` too. Returns no
    /// error, and takes no memory.
    fn next_term(&mut self) -> Result<bool, Memory>
        ensures heading { self.new.heading ≡ self.old.heading }
        ensures begun { IfOk result (λ more. MatchBool more
            ((term : List ℕ) × (self.new.term ≡ Some term)
            × BeginsTerm HasLeft HasGiven IsAtEndOfTerm self.old self.new term)
            ((self.new.term ≡ None) × IsAtEnd self.new
            × EndsTerms HasLeft HasGiven IsAtEndOfTerm self.old self.new)) }
        ensures ended { IsAtEnd self.old → (result ≡ Ok false) × IsAtEnd self.new }
        ensures fault { IfErr result (MayLackMemory self.old) }
        ensures no_more_faults { OnOk result (KeepsFaults MayLackMemory self.old self.new) }
        ensures sure { OnOk result (IsAlwaysSure self.old → IsAlwaysSure self.new) }

        // It returns no error.
        ensures granted { IsOk result }
    {
        if self.number >= self.index.term_count() {
            self.term = None;
            self.postings = Postings::new(&[], 0);
            return Ok(false);
        }
        self.term = Some(self.index.term(self.number));
        self.postings = self.index.list(self.number);
        self.number += 1;
        Ok(true)
    }

    fn term(&self) -> &str {
        self.term.unwrap()
    }

    /// The document of the next posting of the current term, whose positions replace what `positions` held. `None` if there
    /// is no further one, now and at each later call for this term.
    ///
    /// # Errors
    ///
    /// * `Memory`: out of memory for the positions; the source is unchanged.
    fn next_posting(&mut self, positions: &mut Vec<u32>) -> Result<Option<u32>, Memory>
        requires { IsSome self.old.term }
        ensures heading { self.new.heading ≡ self.old.heading }
        ensures current { self.new.term ≡ self.old.term }
        ensures given { IfOk result (λ found. MatchOption found
            (IsAtEndOfTerm self.new × EndsPostings HasLeft HasGiven self.old self.new)
            (λ document. GivesPosting HasLeft HasGiven self.old self.new
            (document, positions.new.items))) }
        ensures drained { IsAtEndOfTerm self.old → result ≡ Ok None }
        ensures fault { IfErr result (MayLackMemory self.old) }
        ensures no_more_faults { OnOk result (KeepsFaults MayLackMemory self.old self.new) }
        ensures sure { OnOk result (IsAlwaysSure self.old → IsAlwaysSure self.new) }

        // It fails only if the positions find no room, which leaves the source unchanged.
        ensures kept { OnErr result (self.new ≡ self.old) }
        ensures full { OnErr result
            (FirstExceeds (vec_capacity positions.old) self.old.postings) }
    {
        let mut postings = self.postings.again();
        let Some(posting) = postings.next() else {
            return Ok(None);
        };
        posting.read_positions(positions)?;
        self.postings = postings;
        Ok(Some(posting.document))
    }

    /// Appends all postings of the current term that are left, coded as one list: their documents counted in the whole
    /// collection, and the first gap taken from `next`, which is one above the document before them, or 0. Only that gap
    /// is coded anew.
    ///
    /// # Errors
    ///
    /// * `ListError::Memory`: out of memory for the list; the source and `out` are unchanged.
    fn take_list(&mut self, next: u32, out: &mut Vec<u8>) -> Result<Listed, ListError<Memory>>
        requires at_hand { IsSome self.old.term }
        requires low { next ≤ self.old.heading.first }
        ensures heading { self.new.heading ≡ self.old.heading }
        ensures current { self.new.term ≡ self.old.term }
        ensures drained { OnOk result (IsAtEndOfTerm self.new) }
        ensures given { IfOk result (λ listed. GivesList HasLeft HasGiven self.old self.new
            self.old.heading.first next listed.documents listed.next
            out.old.items out.new.items) }
        ensures refused { OnErr result (out.new.items ≡ out.old.items) }
        ensures fault { IfErr result (IsListFault (MayLackMemory self.old)) }
        ensures no_more_faults { OnOk result (KeepsFaults MayLackMemory self.old self.new) }
        ensures sure { OnOk result (IsAlwaysSure self.old → IsAlwaysSure self.new) }

        // It fails only if the list finds no room, which leaves the source unchanged.
        ensures kept { OnErr result (self.new ≡ self.old) }
        ensures error { IfErr result (λ error. error ≡ ListError.Memory) }
        ensures full { OnErr result (vec_capacity out.old < vec_len out.old
            + length (list_bytes_from next (shifted self.old.heading.first self.old.postings))) }
    {
        let documents = self.postings.len() as u32;
        if documents == 0 {
            return Ok(Listed { documents, next });
        }
        let first = self.head.first;
        let last = last_document(self.postings.again());
        if self.postings.push_shifted(out, first, next).is_err() {
            return Err(ListError::Memory);
        }
        self.postings = Postings::new(&[], 0);
        Ok(Listed {
            documents,
            next: first + last + 1,
        })
    }

    ghost drained_without_term = { λ source none some. absurd (some none) };

    ghost given_lawfully = { λ source finished at_hand given. given.lawful };

    ghost given_of_term = { λ source finished at_hand given. given.of_term };

    ghost yielded_lawfully = { λ source finished at_hand postings entries given left.
        given.completed postings entries left };

    ghost sure_yields = { λ source finished at_hand given sure.
        always_yields source finished at_hand given };
}
