//! A run as its consumer meets it: term by term, posting by posting.

ghost use Rattle.std.specs.Prelude.{◌≡◌, ◌≤◌, OnErr, OnOk, ℕ, List, Option, Some, None, Ok, false, IsSome, IfErr, IfOk, MatchBool, MatchOption, option_map, ◌++◌};
ghost use Rattle.ix_text.specs.Parts.{DictionaryEntry, Posting};
ghost use Rattle.ix_run_text.specs.Heads.{Heading, heading_of};
ghost use Rattle.ix_run_text.specs.Sources.{AreWhole, IsLawfulFront, BeginsTerm, EndsTerms, GivesList, GivesPosting, EndsPostings, KeepsFaults, YieldsMore, closed};
ghost use Rattle.ix_run_text.specs.Faults.{IsListFault};

use crate::{ListError, Listed, RunHead};

/// A lawful collection's dictionary as a stream: its terms ascending, and the postings of each in order. Documents are
/// numbered from 0 within the source.
///
/// Two ghost relations carry what is known of a stream that is read once. `gives` looks back: what the source may have
/// given so far is lawful under its head. `yields` looks ahead: what it may yield yet makes, with all that it gave, a
/// lawful whole. Each call moves one step from the one to the other, so that a consumer that has read to the end knows
/// what the source yielded as a whole. A source of which `gives` holds of nothing meets the trait and tells nothing by it:
/// so whoever consumes a source asks that it is unread, which is that `gives` holds of it, of no entries and none at hand.
///
/// A third relation, `faults`, holds the errors with which a call may be refused yet. A call that is not refused adds none:
/// so an error that comes at any time is one that the source, as it was before the first call, might answer with.
///
/// A source that has given lawfully and is `sure` may yield something yet, and a call that returns no error leaves it sure: so a
/// consumer that stops knows of a sure source that what it read of it is the beginning of what it may yield.
pub trait Source {
    /// Why a call may be refused.
    type Error;

    // The head: the number of the first document, the stop terms and the documents.
    ghost heading: { Self → Heading };

    // The term at hand, where the last `next_term` answered true.
    ghost current: { Self → Option (List ℕ) };

    // Postings of the term at hand and entries behind it that the source may yield yet.
    ghost yields: { Self → List Posting → List DictionaryEntry → Type 0 };

    // Finished entries, and the one at hand with the postings given of it, that the source may have given so far.
    ghost gives: { Self → List DictionaryEntry → Option DictionaryEntry → Type 0 };

    // No posting of the term at hand is left.
    ghost is_drained: { Self → Type 0 };

    // No term is left.
    ghost is_ended: { Self → Type 0 };

    // Errors with which a call may be refused yet.
    ghost faults: { Self → Self.Error → Type 0 };

    // If what it gave is lawful, it may yield something yet, perhaps no entries.
    ghost sure: { Self → Type 0 };

    /// The head of the source.
    fn head(&self) -> &RunHead
        ensures { heading_of result.now ≡ heading self.now };

    /// Goes on to the next term, over the postings of the one at hand that were not asked for. False: there is none,
    /// now and at each later call.
    fn next_term(&mut self) -> Result<bool, Self::Error>
        ensures heading { heading self.new ≡ heading self.old }
        ensures begun { IfOk result (λ more. MatchBool more
            ((term : List ℕ) × (current self.new ≡ Some term)
            × BeginsTerm yields gives is_drained self.old self.new term)
            ((current self.new ≡ None) × is_ended self.new
            × EndsTerms yields gives is_drained self.old self.new)) }
        ensures ended { is_ended self.old → (result ≡ Ok false) × is_ended self.new }
        ensures fault { IfErr result (faults self.old) }
        ensures no_more_faults { OnOk result (KeepsFaults faults self.old self.new) }
        ensures sure { OnOk result (sure self.old → sure self.new) };

    /// The term at hand.
    fn term(&self) -> &str
        requires { IsSome (current self.now) }
        ensures { current self.now ≡ Some result.now };

    /// The document of the next posting of the term at hand, whose positions are put into `positions` in place of what
    /// it held. None: there is no further one, now and at each later call for this term. A refusal leaves the term at
    /// hand.
    fn next_posting(&mut self, positions: &mut Vec<u32>) -> Result<Option<u32>, Self::Error>
        requires { IsSome (current self.old) }
        ensures heading { heading self.new ≡ heading self.old }
        ensures current { current self.new ≡ current self.old }
        ensures given { IfOk result (λ found. MatchOption found
            (is_drained self.new × EndsPostings yields gives self.old self.new)
            (λ document. GivesPosting yields gives self.old self.new
            (document, positions.new.items))) }
        ensures drained { is_drained self.old → result ≡ Ok None }
        ensures fault { IfErr result (faults self.old) }
        ensures no_more_faults { OnOk result (KeepsFaults faults self.old self.new) }
        ensures sure { OnOk result (sure self.old → sure self.new) };

    /// Appends all postings of the term at hand that are left, coded as one list: their documents counted in the
    /// whole collection, from the head's first number on, and the first gap taken from `next`, which is one above the
    /// document before them, or 0. So the lists of several sources, of blocks of documents one behind another, make
    /// one list.
    ///
    /// [`ListError::Memory`] where the list finds no room, and [`ListError::Source`] where a posting was refused. A
    /// refusal leaves the term at hand, and `out` as it was; some postings of the term may have been passed.
    fn take_list(&mut self, next: u32, out: &mut Vec<u8>) -> Result<Listed, ListError<Self::Error>>
        requires at_hand { IsSome (current self.old) }
        requires begun { (finished : List DictionaryEntry)
            × ((entry : DictionaryEntry) × gives self.old finished (Some entry)) }
        requires low { next ≤ (heading self.old).first }
        ensures heading { heading self.new ≡ heading self.old }
        ensures current { current self.new ≡ current self.old }
        ensures drained { OnOk result (is_drained self.new) }
        ensures given { IfOk result (λ listed. GivesList yields gives self.old self.new
            (heading self.old).first next listed.documents listed.next
            out.old.items out.new.items) }
        ensures refused { OnErr result (out.new.items ≡ out.old.items) }
        ensures fault { IfErr result (IsListFault (faults self.old)) }
        ensures no_more_faults { OnOk result (KeepsFaults faults self.old self.new) }
        ensures sure { OnOk result (sure self.old → sure self.new) };

    // Where no term is at hand, no posting of one is left.
    ghost drained_without_term: { (source : Self) → current source ≡ None → is_drained source };

    // What was given so far is the front of a lawful dictionary.
    ghost given_lawfully: { (source : Self) (finished : List DictionaryEntry)
        (at_hand : Option DictionaryEntry)
        → gives source finished at_hand → IsLawfulFront (heading source) finished at_hand };

    // The entry at hand is that of the term at hand.
    ghost given_of_term: { (source : Self) (finished : List DictionaryEntry)
        (at_hand : Option DictionaryEntry)
        → gives source finished at_hand
        → option_map (λ entry. entry.term) at_hand ≡ current source };

    // What was given so far and what is yielded yet are a lawful whole.
    ghost yielded_lawfully: { (source : Self) (finished : List DictionaryEntry)
        (at_hand : Option DictionaryEntry)
        (postings : List Posting) (entries : List DictionaryEntry)
        → gives source finished at_hand → yields source postings entries
        → AreWhole (heading source) (closed finished at_hand postings ++ entries) };

    // A sure source may yield something yet.
    ghost sure_yields: { (source : Self) (finished : List DictionaryEntry)
        (at_hand : Option DictionaryEntry)
        → gives source finished at_hand → sure source → YieldsMore yields source };
}
