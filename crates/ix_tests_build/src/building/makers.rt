//! Work shared among makers of runs: that they work side by side, that their runs stand in order and become one index text,
//! and which refusal is told.
ghost use Rattle.std.specs.Prelude.{◌≡◌, vec_len};
ghost use Rattle.std.specs.Vec.{vec_capacity};

use super::{five_documents, five_documents_index, have_begun};
use ix_build::{Asked, Built, ByError, MakeError, Maker, Outcome, WorkError, build_by, work_all};
use ix_run::{Run, invert};
use ix_text::{Collection, Doc, Memory, StopList};
use std::alloc::{AllocError, Global};
use std::process::Abort;
use std::sync::Wait;
use std::sync::atomic::AtomicU64;
use std::sync::atomic::Ordering::SeqCst;
use std::test::Fail;
use std::thread::Threads;

/// When a maker of these tests makes a place.
#[derive(Clone, Copy)]
enum Rule<'a> {
    /// At each place but these.
    Except(&'a [usize]),
    /// Once so many askings were begun, by any maker.
    OnceBegun(&'a AtomicU64, u64),
    /// At this place once so many askings were begun, and at each other place at once.
    AtOnceBegun(usize, &'a AtomicU64, u64),
}

/// A maker of the runs of blocks of documents, without stop words.
#[derive(Drop)]
struct Inverter<'a> {
    alloc: Global,
    docs: &'a [Doc<'a>],
    // from where to where each block goes
    blocks: &'a [(u32, u32)],
    rule: Rule<'a>,
    // for so many askings there is memory
    room: usize,
    asked: Vec<Asked>,
}

/// The run of a block of documents.
fn run_of(alloc: Global, docs: &[Doc<'_>], from: u32, to: u32) -> Result<Run, MakeError> {
    let Some(block) = docs.get(from as usize..to as usize) else {
        return Err(MakeError::Refused);
    };
    match invert(alloc, block, &StopList::empty(alloc), from) {
        Ok(run) => Ok(run),
        Err(_) => Err(MakeError::Memory),
    }
}

impl<'a> Inverter<'a> {
    fn may_make(&self, place: usize) -> bool {
        match self.rule {
            Rule::Except(refused) => !refused.contains(&place),
            Rule::OnceBegun(begun, wanted) => {
                begun.fetch_add(1, SeqCst);
                have_begun(begun, wanted)
            }
            Rule::AtOnceBegun(waiting, begun, wanted) => {
                if place == waiting {
                    have_begun(begun, wanted)
                } else {
                    begun.fetch_add(1, SeqCst);
                    true
                }
            }
        }
    }

    fn run_at(&self, place: usize) -> Result<Run, MakeError> {
        if !self.may_make(place) {
            return Err(MakeError::Refused);
        }
        match self.blocks.get(place) {
            Some((from, to)) => run_of(self.alloc, self.docs, *from, *to),
            None => Err(MakeError::Refused),
        }
    }
}

impl<'a> Maker for Inverter<'a> {
    ghost use Rattle.std.specs.Prelude.{◌-◌, vec_len};
    ghost use Rattle.std.specs.Vec.{vec_capacity};

    type Piece = Run;

    ghost askings = { λ maker. maker.asked.items };

    ghost spare = { λ maker. vec_capacity maker.asked - vec_len maker.asked };

    ghost gives = { λ maker place run. Unit {0} };

    ghost follows = { λ old new. Unit {0} };

    ghost follows_itself = { λ maker. tt };

    ghost follows_on = { λ first second third a b. tt };

    fn reserve(&mut self, places: usize) -> Result<(), Memory> {
        if self.asked.len() >= self.room {
            return Err(AllocError);
        }
        self.asked.reserve(places)
    }

    fn room(&self) -> usize {
        self.asked.capacity() - self.asked.len()
    }

    fn make(&mut self, place: usize) -> Result<Run, MakeError> {
        match self.run_at(place) {
            Ok(run) => {
                self.asked.push_reserved(Asked { place, error: None });
                Ok(run)
            }
            Err(error) => {
                self.asked.push_reserved(Asked {
                    place,
                    error: Some(error),
                });
                Err(error)
            }
        }
    }

    fn asked(&self) -> &[Asked] {
        self.asked.as_slice()
    }
}

fn inverters<'a>(
    alloc: Global,
    count: usize,
    docs: &'a [Doc<'a>],
    blocks: &'a [(u32, u32)],
    rule: Rule<'a>,
) -> Result<Vec<Inverter<'a>>, AllocError> {
    let mut inverters = Vec::new(alloc);
    for _ in 0..count {
        inverters.push(Inverter {
            alloc,
            docs,
            blocks,
            rule,
            room: usize::MAX,
            asked: Vec::new(alloc),
        })?;
    }
    Ok(inverters)
}

/// The first document of each run, with a blank behind each, or the name of the error.
fn told_runs(alloc: Global, made: Result<Vec<Run>, WorkError>) -> Result<String, AllocError> {
    let mut told = String::new(alloc);
    match made {
        Ok(runs) => {
            for run in runs {
                told.push_str(run.into_head().first.to_string(alloc)?.as_str())?;
                told.push(' ')?;
            }
        }
        Err(error) => told.push_str(error.to_string(alloc)?.as_str())?,
    }
    Ok(told)
}

/// The places that each maker was asked for, with a blank behind each and a semicolon behind those of a maker.
fn told_askings(alloc: Global, makers: &[Inverter<'_>]) -> Result<String, AllocError> {
    let mut told = String::new(alloc);
    for maker in makers {
        for asked in &maker.asked {
            told.push_str(asked.place.to_string(alloc)?.as_str())?;
            told.push(' ')?;
        }
        told.push(';')?;
    }
    Ok(told)
}

/// What makers come to that share places, of blocks of the five documents: the first document of each run or an error, and
/// the askings.
fn shared(
    rt: &(impl Abort + Threads + Wait + Sync),
    alloc: Global,
    makers: usize,
    blocks: &[(u32, u32)],
    rule: Rule<'_>,
    places: usize,
) -> Result<(String, String), Fail> {
    let collection = Collection::read(alloc, five_documents())?;
    let makers = inverters(alloc, makers, collection.docs(), blocks, rule)?;
    assert!(rt; 0 < makers.len() && makers.len() <= 64);
    let Outcome { makers, result } = work_all(rt, alloc, makers, places);
    Ok((told_runs(alloc, result)?, told_askings(alloc, &makers)?))
}

/// The same through `build_by`: the error, the askings and what is written.
fn shared_by(
    rt: &(impl Abort + Threads + Wait + Sync),
    alloc: Global,
    makers: usize,
    blocks: &[(u32, u32)],
    rule: Rule<'_>,
    places: usize,
) -> Result<(Result<(), ByError>, String, Vec<u8>), Fail> {
    let collection = Collection::read(alloc, five_documents())?;
    let makers = inverters(alloc, makers, collection.docs(), blocks, rule)?;
    assert!(rt; 0 < makers.len() && makers.len() <= 64);
    let mut out = Vec::new(alloc);
    let Built { makers, result } = build_by(rt, alloc, makers, places, &mut out);
    Ok((result, told_askings(alloc, &makers)?, out))
}

/// A block for each of the five documents, and two blocks of them.
const ALONE: [(u32, u32); 5] = [(0, 1), (1, 2), (2, 3), (3, 4), (4, 5)];

const HALVES: [(u32, u32); 2] = [(0, 2), (2, 5)];

/// Checks that as many makers as there are blocks go on only once all have begun, and what they come to.
fn expect_meeting(
    rt: &(impl Abort + Threads + Wait + Sync),
    alloc: Global,
    blocks: &[(u32, u32)],
    firsts: &str,
    askings: &str,
) -> Result<(), Fail> {
    let count = blocks.len();
    let begun = AtomicU64::new(0);
    let rule = Rule::OnceBegun(&begun, count as u64);
    let found = shared(rt, alloc, count, blocks, rule, count)?;
    assert!(rt; found.0.as_str() == firsts && found.1.as_str() == askings);
    let begun = AtomicU64::new(0);
    let rule = Rule::OnceBegun(&begun, count as u64);
    let (result, asked, out) = shared_by(rt, alloc, count, blocks, rule, count)?;
    assert!(rt; result.is_ok() && asked.as_str() == askings);
    assert_eq!(rt; out.as_slice(), five_documents_index());
    Ok(())
}

#[test]
fn makers_meet(rt: HostRuntime) -> Result<(), Fail> {
    expect_meeting(&rt, rt.alloc(), &HALVES, "0 2 ", "0 ;1 ;")?;
    expect_meeting(&rt, rt.alloc(), &ALONE, "0 1 2 3 4 ", "0 ;1 ;2 ;3 ;4 ;")
}

/// Maker 1 waits at its first place until maker 0 has made the three others.
#[test]
fn a_free_maker_takes_the_places_of_one_that_waits(rt: HostRuntime) -> Result<(), Fail> {
    let begun = AtomicU64::new(0);
    let rule = Rule::AtOnceBegun(1, &begun, 3);
    let found = shared(&rt, rt.alloc(), 2, &ALONE, rule, 4)?;
    assert_eq!(rt; found.0.as_str(), "0 1 2 3 ");
    let (zero, one) = found.1.split_once(';').ok_or("no makers")?;
    assert!(rt; zero.len() == 6 && !zero.contains('1'), "{zero}");
    assert_eq!(rt; one, "1 ;");
    Ok(())
}

/// One of two makers has memory for so many askings, and leaves all other places to the other one.
#[test]
fn a_maker_without_memory_takes_no_place(rt: HostRuntime) -> Result<(), Fail> {
    let collection = Collection::read(rt.alloc(), five_documents())?;
    for room in 1..3 {
        let begun = AtomicU64::new(0);
        let rule = Rule::AtOnceBegun(0, &begun, 1);
        let mut makers = inverters(rt.alloc(), 2, collection.docs(), &ALONE, rule)?;
        if let Some(maker) = makers.get_mut(1) {
            maker.room = room;
        }
        assert!(rt; 0 < makers.len() && makers.len() <= 64);
        let Outcome { makers, result } = work_all(&rt, rt.alloc(), makers, 5);
        let told = told_askings(rt.alloc(), &makers)?;
        assert_eq!(rt; told.matches(' ').count(), 5, "{told}");
        let (_, second) = told.split_once(';').ok_or("no makers")?;
        let stops = second.matches(' ').count() == room;
        assert!(rt; matches!(result, Err(WorkError::Memory)) == stops);
    }
    Ok(())
}

/// Makers, places and those that are refused; what that comes to; each place is asked once.
const SHARED: [(usize, usize, &[usize], &str); 9] = [
    (2, 5, &[3, 2], "Make(2, Refused)"),
    (3, 5, &[0], "Make(0, Refused)"),
    (3, 5, &[1], "Make(1, Refused)"),
    (3, 5, &[2], "Make(2, Refused)"),
    (3, 5, &[3], "Make(3, Refused)"),
    (3, 5, &[4], "Make(4, Refused)"),
    (3, 5, &[1, 3], "Make(1, Refused)"),
    (3, 0, &[], ""),
    (64, 3, &[], "0 1 2 "),
];

/// Checks what makers come to that refuse these places.
fn expect_shared(
    rt: &(impl Abort + Threads + Wait + Sync),
    alloc: Global,
    workers: usize,
    places: usize,
    refused: &[usize],
    want: &str,
) -> Result<(), Fail> {
    let found = shared(rt, alloc, workers, &ALONE, Rule::Except(refused), places)?;
    assert_eq!(rt; found.0.as_str(), want);
    assert_eq!(rt; found.1.matches(' ').count(), places);
    assert_eq!(rt; found.1.matches(';').count(), workers);
    Ok(())
}

#[test]
fn lowest_refusal(rt: HostRuntime) -> Result<(), Fail> {
    for (workers, places, refused, want) in SHARED {
        expect_shared(&rt, rt.alloc(), workers, places, refused, want)?;
    }
    Ok(())
}

/// Blocks, how many places there are, and why nothing is written.
const REFUSED: [(&[(u32, u32)], usize, &str); 3] = [
    (&[(0, 2), (4, 5)], 2, "Merge(Gap(2))"),
    (&[(0, 2), (2, 4), (4, 5), (0, 2)], 4, "Merge(Overlap(0))"),
    (&[(0, 2), (4, 5)], 4, "Make(2, Refused)"),
];

/// Checks why nothing is written of these blocks.
fn expect_refused(
    rt: &(impl Abort + Threads + Wait + Sync),
    alloc: Global,
    blocks: &[(u32, u32)],
    places: usize,
    want: &str,
) -> Result<(), Fail> {
    let (result, _, out) = shared_by(rt, alloc, 2, blocks, Rule::Except(&[]), places)?;
    let error = result.err().ok_or("no error")?;
    assert_eq!(rt; error.to_string(alloc)?.as_str(), want);
    assert!(rt; out.is_empty());
    Ok(())
}

#[test]
fn refusals_write_nothing(rt: HostRuntime) -> Result<(), Fail> {
    for (blocks, places, want) in REFUSED {
        expect_refused(&rt, rt.alloc(), blocks, places, want)?;
    }
    let (result, _, out) = shared_by(&rt, rt.alloc(), 3, &[], Rule::Except(&[]), 0)?;
    assert!(rt; result.is_ok() && out.len() == 64);
    Ok(())
}
