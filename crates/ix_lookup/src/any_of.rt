//! Several matchers in one pass.
ghost use Rattle.std.specs.Prelude.{◌≡◌, ◌≤◌, ◌++◌, ◌↔◌, ◌⊎◌, [], List, ℕ, length, take, All, Any, IfOk, OnOk, OnErr, if◌then◌else◌};
ghost use Rattle.ix_text.specs.Terms.{IsTerm};
ghost use Rattle.ix_lookup.specs.Matchers.{KeepsWants, HasFoundPlace};
ghost use Rattle.ix_lookup.specs.TermOrder.{IsBelow};

use crate::TermMatcher;
use std::alloc::{AllocError, Global};

/// Terms that one of several matchers looks for.
#[derive(Drop)]
pub struct AnyOf<M> {
    matchers: Vec<M>,
    found: usize,
}

impl<M: TermMatcher + Drop> AnyOf<M> {
    /// No matcher, before the first term. Takes no memory.
    pub fn new(alloc: Global) -> AnyOf<M>
        ensures wanted { (term : List ℕ) → ¬ (⟦<AnyOf<M> as TermMatcher>⟧.wants result term) }
        ensures begun { ⟦<AnyOf<M> as TermMatcher>⟧.is_at result [] }
    {
        AnyOf {
            matchers: Vec::new(alloc),
            found: 0,
        }
    }

    /// One more matcher, before the first term.
    ///
    /// # Errors
    /// Out of memory. The matchers are then those before.
    pub fn push(&mut self, matcher: M) -> Result<(), AllocError>
        requires begun { ⟦<AnyOf<M> as TermMatcher>⟧.is_at self.old [] }
        requires matcher { M.is_at matcher [] }
        ensures wanted { (term : List ℕ) → OnOk result
            (⟦<AnyOf<M> as TermMatcher>⟧.wants self.new term
            ↔ (⟦<AnyOf<M> as TermMatcher>⟧.wants self.old term ⊎ M.wants matcher term)) }
        ensures same { (term : List ℕ) → OnErr result
            (⟦<AnyOf<M> as TermMatcher>⟧.wants self.new term
            ↔ ⟦<AnyOf<M> as TermMatcher>⟧.wants self.old term) }
        ensures begun { ⟦<AnyOf<M> as TermMatcher>⟧.is_at self.new [] }
    {
        self.matchers.push(matcher)?;
        Ok(())
    }
}

impl<M: TermMatcher> TermMatcher for AnyOf<M> {
    ghost use Rattle.ix_lookup.specs.Matchers.{AreAt};

    ghost wants = { λ any term. Any (λ one. M.wants one term) any.matchers.items };

    ghost is_at = { λ any term. AreAt M.wants M.is_at any.matchers.items any.found term };

    fn step(&mut self, shared: u32, own: &[u8]) -> Result<bool, AllocError> {
        match step_all(&mut self.matchers, shared, own)? {
            Some(place) => {
                self.found = place;
                Ok(true)
            }
            None => Ok(false),
        }
    }

    fn term(&self) -> &str {
        if self.found < self.matchers.len() {
            self.matchers[self.found].term()
        } else {
            ""
        }
    }

    fn is_past(&self) -> bool {
        for place in 0..self.matchers.len() {
            if !self.matchers[place].is_past() {
                return false;
            }
        }
        true
    }
}

/// Steps to the term that has the first `shared` bytes of the term before, and then these of its own. Returns which
/// matcher looks for it, the last one if there are several.
fn step_all<M: TermMatcher>(
    matchers: &mut Vec<M>,
    shared: u32,
    own: &[u8],
) -> Result<Option<usize>, AllocError>
    ensures same { KeepsWants M.wants matchers.old.items matchers.new.items }
    ensures moved { (before : List ℕ) → All (λ one. M.is_at one before) matchers.old.items
        → shared ≤ length before → IsBelow before (take shared before ++ own.now)
        → IfOk result (λ _.
        All (λ one. M.is_at one (take shared before ++ own.now)) matchers.new.items) }
    ensures answered { (before : List ℕ) → All (λ one. M.is_at one before) matchers.old.items
        → shared ≤ length before → IsBelow before (take shared before ++ own.now)
        → IsTerm (take shared before ++ own.now)
        → IfOk result (λ place. HasFoundPlace M.wants matchers.old.items
        (take shared before ++ own.now) (length matchers.old.items) place) }
{
    let mut found = None;
    for place in 0..matchers.len() {
        let is_found = matchers[place].step(shared, own)?;
        found = latest(found, is_found, place);
    }
    Ok(found)
}

/// The place, if it was found now, and otherwise what was found before.
fn latest(found: Option<usize>, is_found: bool, place: usize) -> Option<usize>
    ensures { result ≡ (if is_found then Some place else found) }
{
    if is_found { Some(place) } else { found }
}
