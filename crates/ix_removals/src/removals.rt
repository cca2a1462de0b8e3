//! The removals of an archive.
ghost use Rattle.std.specs.Prelude.{◌≡◌, ◌↔◌, ◌⊎◌, ◌<◌, ◌≤◌, ◌^◌, ◌++◌, ◌∷◌, [], ℕ, List, length, map, All, Contains, IfOk, OnOk, IsTrue, string_bytes};
ghost use Rattle.std.specs.Cmp.Lexicographic.{slice_cmp};
ghost use Rattle.std.specs.Ordering.{nat_cmp};
ghost use Rattle.std.specs.declared.cmp.Ordering.TheVariants.{Less};
ghost use Rattle.ix_text.specs.Collections.{IsName};
ghost use Rattle.ix_removals.specs.RemovalsText.{AreRemovals, IsRemoval, IsRemoved, removals_text};

use std::alloc::{AllocError, Global};
use std::collections::BTreeMap;
use std::marker::Model;

/// Removals, in the order of the bytes of their names.
#[derive(Drop)]
pub struct Removals {
    bounds: BTreeMap<String, u64>,
}

impl Model for Removals {
    ghost use Rattle.std.specs.Prelude.{List};
    ghost use Rattle.ix_removals.specs.RemovalsText.{AreRemovals, Removal};
    ghost use Rattle.ix_removals.specs.RemovalEntries.{removals_of};

    ghost Value = { List Removal };

    ghost view = { λ removals. removals_of removals.bounds.entries };

    ghost invariant = { λ removals. AreRemovals (removals_of removals.bounds.entries) };
}

impl Removals {
    /// No removals. Takes no memory.
    pub fn new(alloc: Global) -> Removals
        ensures { result ≡ [] }
    {
        let bounds = BTreeMap::new(alloc);
        Removals { bounds }
    }

    /// How many names have a removal.
    pub fn len(&self) -> usize
        ensures count { result ≡ length self.now }
        ensures small { result < 2 ^ 63 }
        ensures lawful { AreRemovals self.now }
    {
        self.bounds.len()
    }

    /// Whether there is no removal.
    pub fn is_empty(&self) -> bool
        ensures { IsTrue result ↔ (self.now ≡ []) }
    {
        self.bounds.is_empty()
    }

    /// Whether the document of a name and a number is removed. Takes no memory, and the logarithm of the number of
    /// removals in comparisons.
    pub fn is_removed(&self, name: &str, number: u64) -> bool
        ensures { IsTrue result ↔ IsRemoved self.now name.now number }
    {
        number < self.bound(name)
    }

    /// Whether none of the bounds is above a number. Takes no memory.
    pub fn are_within(&self, number: u64) -> bool
        ensures { IsTrue result ↔ All (λ removal. removal.below ≤ number) self.now }
    {
        self.bounds.values().all(|bound| *bound <= number)
    }

    /// The number below which the documents of a name are removed.
    fn bound(&self, name: &str) -> u64
        ensures { (number : ℕ) → (number < result) ↔ IsRemoved self.now name.now number }
    {
        self.bounds.get(name).copied().unwrap_or(0)
    }

    /// These removals, and one more of each of these names with this bound. The names may be in any order, and one name
    /// may be there several times.
    ///
    /// # Errors
    /// Out of memory.
    pub fn with(&self, alloc: Global, names: &[&str], below: u64) -> Result<Removals, AllocError>
        requires names { All (λ name. IsName name.now) names.now }
        requires some_number { 0 < below }
        ensures { IfOk result (λ removals. (name : List ℕ) (number : ℕ)
            → IsRemoved removals name number
            ↔ (IsRemoved self.now name number
            ⊎ (Contains (map (λ one. one.now) names.now) name × (number < below)))) }
    {
        let bounds = self.bounds.clone()?;
        let mut removals = Removals { bounds };
        for name in names {
            removals.add(alloc, name, below)?;
        }
        Ok(removals)
    }

    /// Adds a removal of a name.
    ///
    /// # Errors
    /// Out of memory.
    pub(crate) fn add(&mut self, alloc: Global, name: &str, below: u64) -> Result<(), AllocError>
        requires { IsRemoval (record { name = name.now; below = below }) }
        ensures removed { OnOk result ((other : List ℕ) (number : ℕ)
            → IsRemoved self.new other number
            ↔ (IsRemoved self.old other number ⊎ ((other ≡ name.now) × (number < below)))) }
        ensures lawful { OnOk result (AreRemovals self.new) }
        ensures last { OnOk result (All (λ one. slice_cmp nat_cmp one.name name.now ≡ Less) self.old
            → self.new ≡ self.old ++ (record { name = name.now; below = below }) ∷ []) }
    {
        let old = self.bound(name);
        let wider = old.max(below);
        let key = String::from_str(alloc, name)?;
        self.bounds.insert(key, wider)?;
        Ok(())
    }

    /// Whether a name is above all names that have a removal.
    pub(crate) fn is_below(&self, name: &str) -> bool
        ensures { IsTrue result
            ↔ All (λ one. slice_cmp nat_cmp one.name name.now ≡ Less) self.now }
    {
        match self.bounds.last_key_value() {
            Some((last, _)) => last.as_str().cmp(&name).is_lt(),
            None => true,
        }
    }

    /// The text of the removals.
    ///
    /// # Errors
    /// Out of memory.
    pub fn text(&self, alloc: Global) -> Result<String, AllocError>
        ensures text { IfOk result (λ text. string_bytes text ≡ removals_text self.now) }
        ensures lawful { AreRemovals self.now }
    {
        let mut text = String::new(alloc);
        for (name, bound) in &self.bounds {
            write!(text, "{bound}\t{name}\n")?;
        }
        Ok(text)
    }
}
