//! The dictionary as it grows: front coded in groups of four (Introduction to Information Retrieval, 5.2.2).
ghost use Rattle.std.specs.Prelude.{◌≡◌, ◌≤◌, ◌<◌, ◌+◌, ◌-◌, ◌^◌, ◌++◌, [], length, nat_eq, OnOk};
ghost use Rattle.std.specs.List.{common_prefix_len};
ghost use Rattle.ix_index_text.specs.Sections.{grouped};

use crate::layout::GROUP;
use ix_vbyte::{push_code, push_counted};
use std::alloc::{AllocError, Global};

/// The bytes of the entries so far, how many they are, and the last one's term.
#[derive(Drop)]
pub(crate) struct Dictionary {
    pub(crate) bytes: Vec<u8>,
    pub(crate) count: u32,
    previous: Vec<u8>,
}

impl Dictionary {
    ghost use Rattle.ix_index_text.specs.Dictionaries.{GainsEntry};

    /// The dictionary without an entry. Takes no memory.
    pub(crate) fn new(alloc: Global) -> Dictionary
        ensures bytes { result.bytes.items ≡ [] }
        ensures count { result.count ≡ 0 }
        ensures previous { result.previous.items ≡ [] }
    {
        Dictionary {
            bytes: Vec::new(alloc),
            count: 0,
            previous: Vec::new(alloc),
        }
    }

    /// Appends the entry of a term: the term, the number of its documents, and of the bytes of its list.
    pub(crate) fn push(&mut self, term: &[u8], documents: u32, list: u32) -> Result<(), AllocError>
        requires term { length term.now < 2 ^ 32 }
        requires room { self.old.count + 1 < 2 ^ 32 }
        ensures { OnOk result (GainsEntry self.old self.new term.now documents list) }
    {
        push_term(&mut self.bytes, self.count, self.previous.as_slice(), term)?;
        push_code(&mut self.bytes, documents)?;
        push_code(&mut self.bytes, list)?;
        self.previous.clear();
        self.previous.extend_from_slice(term)?;
        self.count += 1;
        Ok(())
    }
}

/// Appends a term at its place in the dictionary, behind the term before.
fn push_term(out: &mut Vec<u8>, place: u32, before: &[u8], term: &[u8]) -> Result<(), AllocError>
    requires { length term.now < 2 ^ 32 }
    ensures { OnOk result (out.new.items ≡ out.old.items ++ grouped place before.now term.now) }
{
    if (place as usize).is_multiple_of(GROUP) {
        return push_counted(out, term);
    }
    let shared = shared_front(before, term);
    push_code(out, shared as u32)?;
    push_counted(out, &term[shared..])
}

/// How many bytes two texts share from the front on.
fn shared_front(one: &[u8], other: &[u8]) -> usize
    ensures value { result ≡ common_prefix_len nat_eq one.now other.now }
    ensures within { result ≤ length other.now }
{
    let most = one.len().min(other.len());
    for place in 0..most {
        if one[place] != other[place] {
            return place;
        }
    }
    most
}
