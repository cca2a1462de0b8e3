//! A run in memory as a source of its postings.
use crate::coded_terms::TermWalk;
use ix_run_text::{ListError, Listed, RunHead, Source};
use ix_text::Memory;
use ix_vbyte::cursor::Postings;
use std::marker::Model;

/// The terms and the postings of a run in memory, in order; its lists stay where they are.
///
/// Its one error is `Memory`, if positions or a list find no room. The source is then as it was, and `positions` holds
/// anything.
#[derive(Drop)]
pub struct RunSource<'a> {
    head: &'a RunHead,
    // the terms that are left
    terms: TermWalk<'a>,
    // the current term
    term: Option<&'a str>,
    // the postings of the current term that are left
    postings: Postings<'a>,
    // the last document of the current term, if one of its postings is left
    last: u32,
}

impl<'a> Model for RunSource<'a> {
    ghost use Rattle.std.specs.Prelude.{◌≡◌};
    ghost use Rattle.std.specs.Option.{option_copied};
    ghost use Rattle.ix_run_text.specs.Heads.{heading_of};
    ghost use Rattle.ix_run.specs.RunSources.{EndsAt, IsAtPlace, SourceValue};

    ghost Value = { SourceValue };

    ghost view = { λ source. record {
      heading = heading_of source.head.now;
      terms = source.terms;
      term = option_copied source.term;
      postings = source.postings;
    } };

    ghost invariant = { λ source.
        IsAtPlace (record {
          heading = heading_of source.head.now;
          terms = source.terms;
          term = option_copied source.term;
          postings = source.postings;
        })
        × EndsAt source.last source.postings };
}

impl<'a> RunSource<'a> {
    ghost use Rattle.std.specs.Prelude.{◌≡◌, [], None};
    ghost use Rattle.ix_run_text.specs.Heads.{heading_of};
    ghost use Rattle.ix_run.specs.RunSources.{HasGiven};

    /// The source of a run, before its first term.
    pub(crate) fn new(head: &'a RunHead, terms: TermWalk<'a>) -> RunSource<'a>
        requires { HasGiven
            (record {
              heading = heading_of head.now;
              terms = terms;
              term = None;
              postings = [];
            }) [] None }
        ensures { result
            ≡ record {
              heading = heading_of head.now;
              terms = terms.entry;
              term = None;
              postings = [];
            } }
    {
        RunSource {
            head,
            terms,
            term: None,
            postings: Postings::new(&[], 0),
            last: 0,
        }
    }
}

impl<'a> Source for RunSource<'a> {
    ghost use Rattle.std.specs.Prelude.{◌+◌, ◌<◌, ◌≤◌, length, vec_capacity, vec_len};
    ghost use Rattle.std.specs.Prelude.{OnOk, IfErr};
    ghost use Rattle.ix_vbyte.specs.Postings.{list_bytes_from, shifted};
    ghost use Rattle.std.specs.Prelude.{◌≡◌, ℕ, List, Some, None, Ok, false, IsOk, IsSome, IfOk, OnErr, MatchBool, MatchOption};
    ghost use Rattle.ix_run.specs.RunSources.{FirstExceeds, HasGiven, HasLeft, IsAlwaysSure, IsAtEnd, IsAtEndOfTerm, MayLackMemory, always_yields};
    ghost use Rattle.ix_run_text.specs.Sources.{BeginsTerm, EndsPostings, EndsTerms, GivesList, GivesPosting, KeepsFaults};
    ghost use Rattle.ix_run_text.specs.Faults.{IsListFault};

    type Error = Memory;

    ghost heading = { λ source. source.heading };

    ghost current = { λ source. source.term };

    ghost yields = { HasLeft };

    ghost gives = { HasGiven };

    ghost is_drained = { IsAtEndOfTerm };

    ghost is_ended = { IsAtEnd };

    ghost faults = { MayLackMemory };

    ghost sure = { IsAlwaysSure };

    fn head(&self) -> &RunHead {
        self.head
    }

    /// Goes on to the next term. Returns false if there is none, then and at each later call. It never fails and takes no
    /// memory.
    #[inline]
    fn next_term(&mut self) -> Result<bool, Memory>
        ensures heading { self.new.heading ≡ self.old.heading }
        ensures begun { IfOk result (λ more. MatchBool more
            ((term : List ℕ) × (self.new.term ≡ Some term)
            × BeginsTerm HasLeft HasGiven IsAtEndOfTerm self.old self.new term)
            ((self.new.term ≡ None) × IsAtEnd self.new
            × EndsTerms HasLeft HasGiven IsAtEndOfTerm self.old self.new)) }
        ensures ended { IsAtEnd self.old → (result ≡ Ok false) × IsAtEnd self.new }
        ensures fault { IfErr result (MayLackMemory self.old) }
        ensures no_more_faults { OnOk result (KeepsFaults MayLackMemory self.old self.new) }
        ensures sure { OnOk result (IsAlwaysSure self.old → IsAlwaysSure self.new) }

        // It never fails.
        ensures granted { IsOk result }
    {
        let Some(term) = self.terms.next() else {
            self.term = None;
            self.postings = Postings::new(&[], 0);
            return Ok(false);
        };
        self.term = Some(term.term);
        self.postings = Postings::new(term.list, term.documents);
        self.last = term.last;
        Ok(true)
    }

    fn term(&self) -> &str {
        self.term.unwrap()
    }

    /// Returns the document of the next posting of the current term, and replaces what `positions` holds by the posting's
    /// positions. `None` if there is no further posting, then and at each later call for this term.
    ///
    /// # Errors
    /// `Memory`, if the positions find no room. The source is then as it was.
    fn next_posting(&mut self, positions: &mut Vec<u32>) -> Result<Option<u32>, Memory>
        requires { IsSome self.old.term }
        ensures heading { self.new.heading ≡ self.old.heading }
        ensures current { self.new.term ≡ self.old.term }
        ensures given { IfOk result (λ found. MatchOption found
            (IsAtEndOfTerm self.new × EndsPostings HasLeft HasGiven self.old self.new)
            (λ document. GivesPosting HasLeft HasGiven self.old self.new
            (document, positions.new.items))) }
        ensures drained { IsAtEndOfTerm self.old → result ≡ Ok None }
        ensures fault { IfErr result (MayLackMemory self.old) }
        ensures no_more_faults { OnOk result (KeepsFaults MayLackMemory self.old self.new) }
        ensures sure { OnOk result (IsAlwaysSure self.old → IsAlwaysSure self.new) }

        // It fails only if the positions find no room, and leaves the source as it was.
        ensures kept { OnErr result (self.new ≡ self.old) }
        ensures full { OnErr result
            (FirstExceeds (vec_capacity positions.old) self.old.postings) }
    {
        let mut postings = self.postings.again();
        let Some(posting) = postings.next() else {
            return Ok(None);
        };
        posting.read_positions(positions)?;
        self.postings = postings;
        Ok(Some(posting.document))
    }

    /// Appends all postings of the current term that are left, coded as one list. Their documents are counted in the whole
    /// collection, and the first gap from `next`, which is one above the document before them, or 0. Only that gap is
    /// coded anew, and the other bytes are copied.
    ///
    /// # Errors
    /// `ListError::Memory`, if the list finds no room. The source and `out` are then as they were.
    fn take_list(&mut self, next: u32, out: &mut Vec<u8>) -> Result<Listed, ListError<Memory>>
        requires at_hand { IsSome self.old.term }
        requires low { next ≤ self.old.heading.first }
        ensures heading { self.new.heading ≡ self.old.heading }
        ensures current { self.new.term ≡ self.old.term }
        ensures drained { OnOk result (IsAtEndOfTerm self.new) }
        ensures given { IfOk result (λ listed. GivesList HasLeft HasGiven self.old self.new
            self.old.heading.first next listed.documents listed.next
            out.old.items out.new.items) }
        ensures refused { OnErr result (out.new.items ≡ out.old.items) }
        ensures fault { IfErr result (IsListFault (MayLackMemory self.old)) }
        ensures no_more_faults { OnOk result (KeepsFaults MayLackMemory self.old self.new) }
        ensures sure { OnOk result (IsAlwaysSure self.old → IsAlwaysSure self.new) }

        // It fails only if the list finds no room, and leaves the source as it was.
        ensures kept { OnErr result (self.new ≡ self.old) }
        ensures error { IfErr result (λ error. error ≡ ListError.Memory) }
        ensures full { OnErr result (vec_capacity out.old < vec_len out.old
            + length (list_bytes_from next (shifted self.old.heading.first self.old.postings))) }
    {
        let documents = self.postings.len() as u32;
        if documents == 0 {
            return Ok(Listed { documents, next });
        }
        if self
            .postings
            .push_shifted(out, self.head.first, next)
            .is_err()
        {
            return Err(ListError::Memory);
        }
        self.postings = Postings::new(&[], 0);
        Ok(Listed {
            documents,
            next: self.head.first + self.last + 1,
        })
    }

    ghost drained_without_term = { λ source none some. absurd (some none) };

    ghost given_lawfully = { λ source finished at_hand given. given.lawful };

    ghost given_of_term = { λ source finished at_hand given. given.of_term };

    ghost yielded_lawfully = { λ source finished at_hand postings entries given left.
        given.completed postings entries left };

    ghost sure_yields = { λ source finished at_hand given sure.
        always_yields source finished at_hand given };
}
