//! Walking a coded list of postings. Positions are decoded only when they are read.
ghost use Rattle.std.specs.Prelude.{◌≡◌, ◌^◌, ◌-◌, ℕ, List, [], ◌∷◌, length, IfNone, IfSome, OnOk};
ghost use Rattle.std.specs.Prelude.{◌+◌, ◌<◌, ◌≤◌, ◌++◌, OnErr, vec_capacity, vec_len};
ghost use Rattle.std.specs.Iterator.{YieldsFirstBy, item_count};
ghost use Rattle.ix_vbyte.specs.Postings.{ArePostings, list_bytes, list_bytes_from, shifted};
ghost use Rattle.ix_vbyte.specs.ShortPostings.{BeginsWithSingle};
ghost use Rattle.ix_vbyte.specs.Skips.{AreSkips};
ghost use Rattle.ix_vbyte.specs.Walking.{ArePostingsFrom, IsCodedList, BeginsWithPosting, ReadsPosting, from_document, postings_told};

use crate::appending::push_code_and;
use crate::decoding::first_number;
use crate::encoding::code_len;
pub use crate::positions::Positions;
use crate::short_postings::{ShortPosting, short_posting};
use crate::skip_codes;
pub use crate::skips::Skip;
use crate::skips::pass_skips;
use std::alloc::AllocError;
use std::marker::Model;

/// A document that has the term, and the positions at which it has it, read from the bytes of the coded list.
#[derive(Drop)]
pub struct Posting<'a> {
    /// The document's number, from 0.
    pub document: u32,
    /// Its positions, none of them passed yet, unless the caller passed some here.
    pub positions: Positions<'a>,
}

impl<'a> Posting<'a> {
    /// The positions, ascending, from the first on at each call. It takes no memory.
    #[inline]
    pub fn positions(&self) -> Positions<'a>
        ensures { result ≡ self.now.positions }
    {
        self.positions.again()
    }

    /// Replaces what a vector holds by the positions.
    ///
    /// # Errors
    /// Out of memory, if they find no room. The vector is then full of anything.
    pub fn read_positions(&self, positions: &mut Vec<u32>) -> Result<(), AllocError>
        ensures ok { OnOk result (positions.new.items ≡ self.now.positions) }
        ensures full { OnErr result (vec_capacity positions.old < length self.now.positions) }
        ensures filled { OnErr result (vec_capacity positions.old ≤ vec_len positions.new) }
        ensures capacity { vec_capacity positions.old ≤ vec_capacity positions.new }
    {
        positions.clear();
        for position in self.positions() {
            positions.push(position)?;
        }
        Ok(())
    }
}

/// Returns the posting that the bytes begin with, and the bytes behind it. `next` is one above the document before it, or 0.
/// It takes no memory.
#[inline(always)]
pub fn first_posting(bytes: &[u8], next: u32) -> (Posting<'_>, &[u8])
    requires { BeginsWithPosting next bytes.now }
    ensures { ReadsPosting next bytes.now result.0.document result.0.positions result.1.now }
{
    match short_posting(bytes) {
        Some(single) => split_single(bytes, next, single),
        None => any_posting(bytes, next),
    }
}

/// The same of a posting of one position whose gaps were found.
#[inline(always)]
fn split_single(bytes: &[u8], next: u32, single: ShortPosting) -> (Posting<'_>, &[u8])
    requires begins { BeginsWithPosting next bytes.now }
    requires found { BeginsWithSingle bytes.now single.gap single.position_gap single.size }
    ensures { ReadsPosting next bytes.now result.0.document result.0.positions result.1.now }
{
    let start = single.size - code_len(single.position_gap);
    let positions = Positions::new(&bytes[start..single.size], 1);
    let posting = Posting {
        document: next + (single.gap - 1),
        positions,
    };
    (posting, &bytes[single.size..])
}

/// The same of a posting of any shape.
#[inline(always)]
fn any_posting(bytes: &[u8], next: u32) -> (Posting<'_>, &[u8])
    requires { BeginsWithPosting next bytes.now }
    ensures { ReadsPosting next bytes.now result.0.document result.0.positions result.1.now }
{
    let (gap, rest) = first_number(bytes);
    let (places, rest) = first_number(rest);
    let end = skip_codes(rest, places);
    let positions = Positions::new(&rest[..end], places);
    let posting = Posting {
        document: next + (gap - 1),
        positions,
    };
    (posting, &rest[end..])
}

/// The postings of a coded list that are left, in document order.
#[derive(Drop)]
pub struct Postings<'a> {
    // the coded list from the next posting on
    bytes: &'a [u8],
    // one above the document before, or 0
    next: u32,
    // how many postings are left
    count: u32,
    // places at which the walk may go on, some of them perhaps passed
    skips: &'a [Skip],
}

impl<'a> Model for Postings<'a> {
    ghost use Rattle.std.specs.Prelude.{List, ℕ};
    ghost use Rattle.ix_vbyte.specs.Skips.{AreSkips};
    ghost use Rattle.ix_vbyte.specs.Walking.{ArePostingsFrom, postings_told};

    ghost Value = { List (ℕ × List ℕ) };

    ghost view = { λ postings. postings_told postings.count postings.next postings.bytes.now };

    ghost invariant = { λ postings. ArePostingsFrom postings.next postings.count postings.bytes.now
        × AreSkips (postings_told postings.count postings.next postings.bytes.now)
        postings.skips.now };
}

impl<'a> Postings<'a> {
    /// The postings of a coded list: `bytes` are the whole list, and it has `count` postings.
    #[inline]
    pub fn new(bytes: &'a [u8], count: u32) -> Postings<'a>
        requires { IsCodedList count bytes.now }
        ensures { (postings : List (ℕ × List ℕ)) → ArePostings 0 (2 ^ 32 - 1) postings
            → length postings ≡ count → bytes.now ≡ list_bytes postings → result ≡ postings }
    {
        Postings::resume(bytes, 0, count)
    }

    /// The postings that are left of a coded list: `bytes` are theirs and nothing else, `next` is one above the document
    /// before them, or 0, and there are `count` of them.
    #[inline]
    pub fn resume(bytes: &'a [u8], next: u32, count: u32) -> Postings<'a>
        requires { ArePostingsFrom next count bytes.now }
        ensures { result ≡ postings_told count next bytes.now }
    {
        Postings {
            bytes,
            next,
            count,
            skips: &[],
        }
    }

    /// The same postings, where `seek` may go on at these places.
    #[inline]
    pub fn with_skips(self, skips: &'a [Skip]) -> Postings<'a>
        requires { AreSkips self skips.now }
        ensures { result ≡ self.entry }
    {
        let mut postings = self;
        postings.skips = skips;
        postings
    }

    /// The postings that are left once more, walked apart from these.
    #[inline]
    pub fn again(&self) -> Postings<'a>
        ensures { result ≡ self.now }
    {
        Postings {
            bytes: self.bytes,
            next: self.next,
            count: self.count,
            skips: self.skips,
        }
    }

    /// How many postings are left.
    #[inline]
    pub fn len(&self) -> usize
        ensures value { result ≡ length self.now }
        ensures lawful { ArePostings 0 (2 ^ 32 - 1) self.now }
    {
        self.count as usize
    }

    /// Goes on behind the first posting whose document is at least `document`, and returns that posting, or `None` if
    /// there is none. It takes no memory.
    #[inline(always)]
    pub fn seek(&mut self, document: u32) -> Option<Posting<'a>>
        ensures found { IfSome result (λ posting.
            from_document document self.old ≡ (posting.document, posting.positions) ∷ self.new) }
        ensures none { IfNone result ((from_document document self.old ≡ []) × (self.new ≡ [])) }
    {
        if let Some(skip) = self.skips.first()
            && skip.next <= document
        {
            self.skip(document);
        }
        while let Some(posting) = self.next() {
            if posting.document >= document {
                return Some(posting);
            }
        }
        None
    }

    /// Goes on at the last skip before which all documents are below `document`, if it is ahead.
    #[inline(never)]
    fn skip(&mut self, document: u32)
        ensures { from_document document self.new ≡ from_document document self.old }
    {
        let (last, ahead) = pass_skips(self.skips, document);
        self.skips = ahead;
        if let Some(skip) = last
            && skip.left < self.count
        {
            self.bytes = &self.bytes[self.bytes.len() - skip.size..];
            self.next = skip.next;
            self.count = skip.left;
        }
    }

    /// Appends the bytes of the postings that are left, each document's number raised by `first`, where `next` is one
    /// above the document before them, or 0. Gaps do not change by that, so only the first is coded anew, and the
    /// other bytes are copied as they are.
    ///
    /// # Errors
    /// Out of memory, if they find no room. `out` is then as it was.
    pub fn push_shifted(&self, out: &mut Vec<u8>, first: u32, next: u32) -> Result<(), AllocError>
        requires { ArePostings next (2 ^ 32 - 1) (shifted first self.now) }
        ensures ok { OnOk result
            (out.new.items ≡ out.old.items ++ list_bytes_from next (shifted first self.now)) }
        ensures err { OnErr result (out.new.items ≡ out.old.items) }
        ensures full { OnErr result (vec_capacity out.old
            < vec_len out.old + length (list_bytes_from next (shifted first self.now))) }
        ensures capacity { vec_capacity out.old ≤ vec_capacity out.new }
    {
        if self.bytes.is_empty() {
            return Ok(());
        }
        let (gap, rest) = first_number(self.bytes);
        push_code_and(out, first + self.next + gap - next, rest)
    }
}

impl<'a> Iterator for Postings<'a> {
    type Item = Posting<'a>;

    ghost next_gives = { YieldsFirstBy (λ posting. (posting.document, posting.positions))
        (λ postings. postings) };

    ghost remaining = { item_count (λ postings. postings) };

    #[inline(always)]
    fn next(&mut self) -> Option<Posting<'a>> {
        if self.bytes.is_empty() {
            return None;
        }
        let (posting, rest) = first_posting(self.bytes, self.next);
        self.bytes = rest;
        self.next = posting.document + 1;
        self.count -= 1;
        Some(posting)
    }
}
