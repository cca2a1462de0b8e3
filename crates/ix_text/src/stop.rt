ghost use Rattle.std.specs.Prelude.{◌≡◌, ◌≢◌, ◌↔◌, ℕ, ◌^◌, ◌≤◌, ◌⊎◌, List, [], ◌∷◌, ◌++◌, map, length, All, Contains, IsTrue, IfOk, IfErr, OnOk, MatchOption, Some, slice_get, string_bytes};
ghost use Rattle.unicode_segmentation.specs.Word.{words};
ghost use Rattle.ix_text.specs.ByteOrder.{IsAscending};
ghost use Rattle.ix_text.specs.StopSets.{IsStopSet, HasTermSize};
ghost use Rattle.ix_text.specs.StopText.{IsStopText, stop_terms_of};
ghost use Rattle.ix_text.specs.StopFaults.{IsStopLine, IsStopLineFault, IsStopFault};
ghost use Rattle.ix_text.specs.StopLaws.{FaultsExcludeStopSet, HasOneStopFault, HasOneStopSet, HasStopSetOrFault};

use crate::stop_slots::{SLOTS, Slot, slot_of, slots_of};
use crate::token::has_term_size;
use crate::{MAX_TEXT_BYTES, Memory, term_of};
use std::alloc::{AllocError, AllocFailed, Global};
use std::marker::Model;
use std::{error, fmt};
use unicode_segmentation::UnicodeSegmentation;

/// The terms of the words that are left out of token lists (IIR 2.2.2), ascending by their bytes, each once.
#[derive(Drop)]
pub struct StopList {
    terms: Vec<String>,
    slots: [Slot; SLOTS],
}

impl Model for StopList {
    ghost use Rattle.std.specs.Prelude.{ℕ, List, map, string_bytes};
    ghost use Rattle.ix_text.specs.StopSlots.{IsSlotted};

    ghost Value = { List (List ℕ) };

    ghost view = { λ list. map string_bytes list.terms.items };

    ghost invariant = { λ list. IsSlotted (map string_bytes list.terms.items) list.slots };
}

impl StopList {
    /// The list without a term. Takes no memory.
    pub fn empty(alloc: Global) -> StopList
        ensures { result ≡ [] }
    {
        StopList {
            terms: Vec::new(alloc),
            slots: [Slot::Empty; SLOTS],
        }
    }

    /// The list of terms that ascend by their bytes already: at most 2^28 of them, each of 1 to 255 bytes. Takes no
    /// memory.
    pub fn from_sorted(terms: Vec<String>) -> StopList
        requires few { length terms.items ≤ 2 ^ 28 }
        requires ascending { IsAscending (map string_bytes terms.items) }
        requires sizes { All HasTermSize (map string_bytes terms.items) }
        ensures { result ≡ map string_bytes terms.items }
    {
        let slots = slots_of(&terms);
        StopList { terms, slots }
    }

    /// Reads a stop text of at most 2^28 bytes: cut at every LF, each line that is not empty holds exactly one word
    /// (UAX #29), whose term has 1 to 255 bytes. The list has these terms, each once.
    ///
    /// The size is tested first (`TooLarge`), and then the lines in order, each for `NotOneWord` and `LongWord`. The
    /// first fault is the error, or `Memory` where memory is refused.
    pub fn read(alloc: Global, text: &str) -> Result<StopList, StopError>
        ensures terms { IfOk result (λ stop. IsStopText text.now stop) }
        ensures fault { IfErr result
            (λ error. (error ≡ StopError.Memory) ⊎ IsStopFault text.now error) }
        ensures accepted { (stop : List (List ℕ)) → IsStopText text.now stop
            → (result ≡ Ok stop) ⊎ (result ≡ Err StopError.Memory) }
    {
        if text.len() > MAX_TEXT_BYTES {
            return Err(StopError::TooLarge);
        }
        let mut terms = Vec::new(alloc);
        let mut number = 1;
        let mut left = text;
        while let Some((line, next)) = left.split_once('\n') {
            read_line(alloc, &mut terms, line, number)?;
            number += 1;
            left = next;
        }
        read_line(alloc, &mut terms, left, number)?;
        sort(&mut terms);
        Ok(StopList::from_sorted(terms))
    }

    /// Another list of the same terms.
    pub fn copy(&self, alloc: Global) -> Result<StopList, Memory>
        ensures same { IfOk result (λ copy. copy ≡ self.now) }
        ensures lawful { IsStopSet self.now }
    {
        let given = self.terms();
        let mut terms = Vec::with_capacity(alloc, given.len())?;
        for term in given {
            terms.push(String::from_str(alloc, term)?)?;
        }
        Ok(StopList::from_sorted(terms))
    }

    /// The terms, ascending by their bytes. Takes no memory.
    pub fn terms(&self) -> &[String]
        ensures value { map string_bytes result.now ≡ self.now }
        ensures lawful { IsStopSet self.now }
    {
        self.terms.as_slice()
    }

    /// Whether the term is one of them. Takes no memory. Most terms that are none are told by their length and some of
    /// their bytes, and most that are one at the first look.
    pub fn contains(&self, term: &str) -> bool
        ensures { IsTrue result ↔ Contains self.now term.now }
    {
        if self.terms.is_empty() {
            return false;
        }
        match self.slots[slot_of(term)] {
            Slot::Empty => false,
            Slot::One(place) => is_at(self.terms(), place, term),
            Slot::Several => is_among(self.terms(), term),
        }
    }
}

/// Whether the term is the one at a place.
#[inline]
fn is_at(terms: &[String], place: u16, term: &str) -> bool
    ensures { IsTrue result ↔ (slice_get (map string_bytes terms.now) place ≡ Some term.now) }
{
    let place = usize::from(place);
    if place < terms.len() {
        terms[place].as_str() == term
    } else {
        false
    }
}

/// Whether the term is one of these, which ascend.
fn is_among(terms: &[String], term: &str) -> bool
    requires { IsAscending (map string_bytes terms.now) }
    ensures { IsTrue result ↔ Contains (map string_bytes terms.now) term.now }
{
    terms
        .binary_search_by(|held| held.as_str().cmp(&term))
        .is_ok()
}

/// Adds the term of the one word of a line, if the line is not empty. The line has this number.
fn read_line(
    alloc: Global,
    terms: &mut Vec<String>,
    line: &str,
    number: usize,
) -> Result<(), StopError>
    ensures terms { OnOk result (map string_bytes terms.new.items
        ≡ map string_bytes terms.old.items ++ stop_terms_of (line.now ∷ [])) }
    ensures line { OnOk result (IsStopLine line.now) }
    ensures fault { IfErr result
        (λ error. (error ≡ StopError.Memory) ⊎ IsStopLineFault line.now number error) }
{
    if line.is_empty() {
        return Ok(());
    }
    let Some(word) = only_word(line) else {
        return Err(StopError::NotOneWord(number));
    };
    let term = term_of(alloc, word)?;
    if !has_term_size(&term) {
        return Err(StopError::LongWord(number));
    }
    terms.push(term)?;
    Ok(())
}

/// The word of a line that holds exactly one.
fn only_word(line: &str) -> Option<&str>
    ensures { MatchOption result
        (length (words line.now) ≢ 1)
        (λ word. words line.now ≡ word.now ∷ []) }
{
    let mut words = line.unicode_words();
    let word = words.next()?;
    match words.next() {
        None => Some(word),
        Some(_) => None,
    }
}

/// Puts the terms in the order of their bytes, and each that stands more than once but once.
fn sort(terms: &mut Vec<String>)
    ensures ascending { IsAscending (map string_bytes terms.new.items) }
    ensures same { (term : List ℕ) → Contains (map string_bytes terms.new.items) term
        ↔ Contains (map string_bytes terms.old.items) term }
    ensures fewer { length terms.new.items ≤ length terms.old.items }
{
    terms.sort_unstable();
    terms.dedup();
}

/// A law: a text has one stop set or one fault, and never both.
pub fn has_stop_set_or_a_fault()
    ensures one_set { HasOneStopSet }
    ensures one_fault { HasOneStopFault }
    ensures refused { FaultsExcludeStopSet }
    ensures complete { HasStopSetOrFault }
{}

/// Why a text is no stop text. Lines are counted from 1.
#[derive(Debug, PartialEq, Eq, Drop)]
pub enum StopError {
    /// The line holds something, but not exactly one word.
    NotOneWord(usize),
    /// The term of the line's word has not 1 to 255 bytes.
    LongWord(usize),
    /// Memory was refused.
    Memory,
    /// The text has more than 2^28 bytes.
    TooLarge,
}

impl StopError {
    ghost use Rattle.ix_text.specs.StopErrors.{stop_error_number};

    /// The error's number in the list of this crate's stop text errors, from 1.
    pub fn number(&self) -> u8
        ensures { result ≡ stop_error_number self.now }
    {
        match self {
            StopError::NotOneWord(_) => 1,
            StopError::LongWord(_) => 2,
            StopError::Memory => 3,
            StopError::TooLarge => 4,
        }
    }
}

impl fmt::Display for StopError {
    ghost use Rattle.std.specs.Prelude.{Some};
    ghost use Rattle.ix_text.specs.StopErrors.{stop_error_name};

    ghost output = { λ error. Some (stop_error_name error) };

    fn fmt<W: fmt::Write>(&self, f: &mut fmt::Formatter<W>) -> fmt::Result {
        match self {
            StopError::NotOneWord(line) => write!(f, "NotOneWord({line})"),
            StopError::LongWord(line) => write!(f, "LongWord({line})"),
            StopError::Memory => f.write_str("Memory"),
            StopError::TooLarge => f.write_str("TooLarge"),
        }
    }
}

impl error::Error for StopError {}

impl<T: Drop> From<AllocFailed<T>> for StopError {
    ghost use Rattle.std.specs.Prelude.{◌≡◌};
    ghost use Rattle.ix_text.specs.declared.stop.StopError.TheVariants.{Memory};

    ghost from_gives = { λ _ e. e ≡ Memory };

    fn from(_error: AllocFailed<T>) -> StopError {
        StopError::Memory
    }
}

impl From<AllocError> for StopError {
    ghost use Rattle.std.specs.Prelude.{◌≡◌};
    ghost use Rattle.ix_text.specs.declared.stop.StopError.TheVariants.{Memory};

    ghost from_gives = { λ _ e. e ≡ Memory };

    fn from(_error: AllocError) -> StopError {
        StopError::Memory
    }
}
