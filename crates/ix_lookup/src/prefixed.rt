//! Terms that begin with a text and pass a test.
ghost use Rattle.std.specs.Prelude.{◌≡◌, ◌↔◌, ◌++◌, ◌≤◌, [], List, ℕ, length, take, IsTrue, IsUtf8, OnOk, if◌then◌else◌};

use crate::{TermMatcher, TermTest, Word};
use std::alloc::{AllocError, Global};
use std::str::from_utf8;

/// Terms that are looked for, as a pattern's: they begin with a text, which may be empty, and pass a test.
///
/// A term is put together only if it begins with the text.
#[derive(Drop)]
pub struct Prefixed<'a, T> {
    front: Word<'a>,
    test: T,
    term: Vec<u8>,
}

impl<'a, T: TermTest> Prefixed<'a, T> {
    ghost use Rattle.ix_lookup.specs.Fronts.{HasFront, IsHeld};

    /// Terms that begin with `front` and pass the test, before the first term. Takes no memory.
    pub fn new(alloc: Global, front: &'a str, test: T) -> Prefixed<'a, T>
        ensures wanted { (term : List ℕ) → ⟦<Prefixed<'static, T> as TermMatcher>⟧.wants result term
            ↔ (HasFront front.now term × T.passes test term) }
        ensures begun { ⟦<Prefixed<'static, T> as TermMatcher>⟧.is_at result [] }
    {
        Prefixed {
            front: Word::at(front, ""),
            test,
            term: Vec::new(alloc),
        }
    }

    /// Whether the last term begins with the text.
    fn has_front(&self) -> bool
        ensures { IsTrue result ↔ (self.now.front.common ≡ length self.now.front.text.now) }
    {
        self.front.common >= self.front.text.len()
    }

    /// Goes on to the term that has the first `shared` bytes of the term before and then these of its own.
    fn follow(&mut self, shared: u32, own: &[u8]) -> Result<(), AllocError>
        ensures text { self.new.front.text ≡ self.old.front.text }
        ensures test { self.new.test ≡ self.old.test }
        ensures moved { (before : List ℕ) → IsHeld self.old.front self.old.term.items before
            → shared ≤ length before
            → OnOk result (IsHeld self.new.front self.new.term.items
            (take shared before ++ own.now)) }
    {
        let is_held = self.has_front();
        self.front.follow(shared, own);
        if !self.has_front() {
            return Ok(());
        }
        self.put(is_held, shared, own)?;
        Ok(())
    }

    /// Puts the term together that has the first `shared` bytes of the term before, and then these of its own. If the
    /// term before is not held, they are bytes of the text.
    fn put(&mut self, is_held: bool, shared: u32, own: &[u8]) -> Result<(), AllocError>
        ensures front { self.new.front ≡ self.old.front }
        ensures test { self.new.test ≡ self.old.test }
        ensures term { OnOk result (self.new.term.items ≡
            take shared (if is_held then self.old.term.items else self.old.front.text.now)
            ++ own.now) }
    {
        if !is_held {
            self.term.clear();
            self.term.extend_from_slice(self.front.text.as_bytes())?;
        }
        self.term.truncate(shared as usize);
        self.term.extend_from_slice(own)
    }

    /// Whether the term that is held passes the test.
    fn is_passing(&self) -> bool
        ensures { IsUtf8 self.now.term.items
            → IsTrue result ↔ T.passes self.now.test self.now.term.items }
    {
        match from_utf8(self.term.as_slice()) {
            Ok(term) => self.test.test(term),
            Err(_) => false,
        }
    }

    /// The term that is held.
    fn held(&self) -> &str
        ensures { IsUtf8 self.now.term.items → result.now ≡ self.now.term.items }
    {
        match from_utf8(self.term.as_slice()) {
            Ok(term) => term,
            Err(_) => "",
        }
    }
}

impl<T: TermTest> TermMatcher for Prefixed<'_, T> {
    ghost use Rattle.ix_lookup.specs.Fronts.{HasFront, IsHeld};

    ghost wants = { λ prefixed term. HasFront prefixed.front.text.now term
        × T.passes prefixed.test term };

    ghost is_at = { λ prefixed term. IsHeld prefixed.front prefixed.term.items term };

    fn step(&mut self, shared: u32, own: &[u8]) -> Result<bool, AllocError> {
        self.follow(shared, own)?;
        if !self.has_front() {
            return Ok(false);
        }
        Ok(self.is_passing())
    }

    fn term(&self) -> &str {
        self.held()
    }

    fn is_past(&self) -> bool {
        self.front.is_below && !self.has_front()
    }
}
