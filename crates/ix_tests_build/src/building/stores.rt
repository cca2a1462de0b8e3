//! Collections built over stores: the worked sample, stores, reads and writes that refuse, and runs that do not come back
//! as they were.
ghost use Rattle.std.specs.Prelude.{◌≡◌};
ghost use Rattle.ix_build.specs.Stores.{IsOneMore};

use super::{Narrow, five_documents, five_documents_index, have_begun};
use ix_build::{BuildError, BuiltOver, Cut, Plan, RunStore, Runs, StoreError, build_over};
use ix_run::Run;
use ix_text::{Collection, StopList};
use std::alloc::{AllocError, Global};
use std::io::{self, ErrorKind, Read};
use std::process::Abort;
use std::sync::Wait;
use std::sync::atomic::AtomicU64;
use std::sync::atomic::Ordering::SeqCst;
use std::test::Fail;
use std::thread::Threads;

/// The runs of blocks of two of the five documents.
const RUNS: [&[u8]; 3] = [
    b"PIIXRUN1\0\0\0\0\x02\0\0\0\x80\x81a\x82\x81b\x81\x81x\x81\x83\x81\x81\x81\x81y\x82\x86\x81\x81\x82\x81\x81\x81\x80",
    b"PIIXRUN1\x02\0\0\0\x02\0\0\0\x80\x81c\x80\x81d\x83\x81x\x81\x83\x82\x81\x82\x81y\x81\x84\x82\x82\x81\x82\x80",
    b"PIIXRUN1\x04\0\0\0\x01\0\0\0\x80\x81e\x81\x81x\x81\x83\x81\x81\x81\x80",
];

/// These runs. It tells no proof which bytes they are, and so costs none.
pub(super) fn runs() -> &'static [&'static [u8]; 3] {
    &RUNS
}

/// A reader that gives a byte at a time, and refuses the read behind so many.
#[derive(Drop)]
struct Slow<'a> {
    bytes: &'a [u8],
    left: usize,
}

impl Read for Slow<'_> {
    fn read(&mut self, buf: &mut [u8]) -> io::Result<usize> {
        if self.left == 0 {
            return Err(ErrorKind::Other.into());
        }
        self.left -= 1;
        let count = 1.min(buf.len()).min(self.bytes.len());
        buf[..count].copy_from_slice(&self.bytes[..count]);
        self.bytes = &self.bytes[count..];
        Ok(count)
    }
}

/// What stores share.
#[derive(Clone, Copy)]
struct Case<'a> {
    /// What comes back for each place.
    given: &'a [&'a [u8]],
    /// The places whose runs they do not take.
    refused: &'a [usize],
    /// How many calls of `save` were begun, over all stores, and how many each waits for.
    begun: &'a AtomicU64,
    wanted: u64,
    /// The place whose reader refuses a read, and how many it allows before.
    slow: usize,
    reads: usize,
}

/// A store that takes the runs of `RUNS` and no others, and gives back the bytes that it was made with.
#[derive(Drop)]
struct Shelf<'a> {
    alloc: Global,
    case: Case<'a>,
    saved: Vec<usize>,
    faults: u64,
}

/// Whether a run is the one of this place.
fn is_run_of(alloc: Global, place: usize, run: &Run) -> bool {
    let mut bytes = Vec::new(alloc);
    run.write_to(&mut bytes).is_ok() && runs().get(place) == Some(&bytes.as_slice())
}

impl<'a> Shelf<'a> {
    fn count(&mut self)
        ensures faults { IsOneMore self.old.faults self.new.faults }
        ensures saved { self.new.saved.items ≡ self.old.saved.items }
    {
        if self.faults < u64::MAX {
            self.faults += 1;
        }
    }

    fn takes(&self, place: usize, run: &Run) -> bool {
        self.case.begun.fetch_add(1, SeqCst);
        have_begun(self.case.begun, self.case.wanted)
            && !self.case.refused.contains(&place)
            && is_run_of(self.alloc, place, run)
    }
}

impl<'a> RunStore for Shelf<'a> {
    type Reader = Slow<'a>;

    ghost places = { λ shelf. shelf.saved.items };

    ghost refusals = { λ shelf. shelf.faults };

    ghost back = { λ shelf place bytes. Unit {0} };

    fn save(&mut self, place: usize, run: &Run) -> Result<(), StoreError> {
        if !self.takes(place, run) {
            self.count();
            return Err(StoreError::Store);
        }
        if self.saved.push(place).is_err() {
            self.count();
            return Err(StoreError::Memory);
        }
        Ok(())
    }

    fn load(&mut self, place: usize) -> Result<Slow<'a>, StoreError> {
        match self.case.given.get(place) {
            Some(bytes) => {
                let is_slow = place == self.case.slow;
                let left = if is_slow { self.case.reads } else { usize::MAX };
                Ok(Slow { bytes, left })
            }
            None => {
                self.count();
                Err(StoreError::Store)
            }
        }
    }

    fn saved(&self) -> &[usize] {
        self.saved.as_slice()
    }

    fn faults(&self) -> u64 {
        self.faults
    }
}

fn shelves<'a>(alloc: Global, count: usize, case: Case<'a>) -> Result<Vec<Shelf<'a>>, AllocError> {
    let mut shelves = Vec::new(alloc);
    for _ in 0..count {
        shelves.push(Shelf {
            alloc,
            case,
            saved: Vec::new(alloc),
            faults: 0,
        })?;
    }
    Ok(shelves)
}

/// A collection, built in blocks of two, a worker for each store.
fn built_over<'a>(
    rt: &(impl Abort + Threads + Wait + Sync),
    alloc: Global,
    collection: &Collection<'_>,
    stores: Vec<Shelf<'a>>,
    out: &mut Narrow,
) -> Result<BuiltOver<Shelf<'a>>, Fail> {
    let stop = StopList::empty(alloc);
    let plan = Plan::new(Cut::Docs(2), stores.len(), Runs::Memory).ok_or("no plan")?;
    assert!(rt; stores.len() == plan.workers());
    Ok(build_over(rt, alloc, collection, &stop, &plan, stores, out))
}

/// The five documents, built over so many stores, into a writer that takes so many bytes: the stores, what
/// that comes to, and what was written, which is a front of the index text.
fn built<'a>(
    rt: &(impl Abort + Threads + Wait + Sync),
    alloc: Global,
    workers: usize,
    case: Case<'a>,
    left: usize,
) -> Result<(Vec<Shelf<'a>>, Option<BuildError>, usize), Fail> {
    let collection = Collection::read(alloc, five_documents())?;
    let stores = shelves(alloc, workers, case)?;
    let bytes = Vec::new(alloc);
    let mut out = Narrow { bytes, left };
    let BuiltOver { stores, result } = built_over(rt, alloc, &collection, stores, &mut out)?;
    assert!(rt; five_documents_index().starts_with(&out.bytes));
    assert_eq!(rt; stores.len(), workers);
    Ok((stores, result.err(), out.bytes.len()))
}

/// The places that the stores saved, each in its row, and how many calls they refused: `0 1 ;2 ;0`.
fn told_stores(alloc: Global, stores: &[Shelf<'_>]) -> Result<String, AllocError> {
    let mut told = String::new(alloc);
    let mut faults = 0u64;
    for store in stores {
        for place in store.saved.as_slice() {
            told.push_str(place.to_string(alloc)?.as_str())?;
            told.push(' ')?;
        }
        told.push(';')?;
        faults = faults.saturating_add(store.faults);
    }
    told.push_str(faults.to_string(alloc)?.as_str())?;
    Ok(told)
}

/// Workers, how many calls of `save` wait for one another, and the places that each store saved, if that is known.
const MEETING: [(usize, u64, &str); 5] = [
    (1, 0, "0 1 2 ;0"),
    (2, 0, ""),
    (3, 3, "0 ;1 ;2 ;0"),
    (2, 2, ""),
    (64, 3, ""),
];

#[test]
fn five_documents_over_stores(rt: HostRuntime) -> Result<(), Fail> {
    for (workers, wanted, places) in MEETING {
        let case = Case {
            given: runs(),
            refused: &[],
            begun: &AtomicU64::new(0),
            wanted,
            slow: 3,
            reads: 0,
        };
        let (stores, error, len) = built(&rt, rt.alloc(), workers, case, usize::MAX)?;
        assert!(rt; error.is_none() && len == 119, "{workers} {wanted}");
        let told = told_stores(rt.alloc(), &stores)?;
        assert!(rt; places.is_empty() || told.as_str() == places, "{told}");
        assert_eq!(rt; told.matches(' ').count(), 3);
    }
    Ok(())
}

/// So many bytes from the front on.
fn front_of(bytes: &[u8], len: usize) -> &[u8] {
    &bytes[..len.min(bytes.len())]
}

/// Which place spills, and how many calls are refused, where two stores give these runs back and do not take those of these
/// places. Nothing is written.
fn spilled(
    rt: &(impl Abort + Threads + Wait + Sync),
    alloc: Global,
    given: &[&[u8]],
    refused: &[usize],
) -> Result<(Option<BuildError>, u64), Fail> {
    let case = Case {
        given,
        refused,
        begun: &AtomicU64::new(0),
        wanted: 0,
        slow: 3,
        reads: 0,
    };
    let (stores, error, len) = built(rt, alloc, 2, case, usize::MAX)?;
    assert_eq!(rt; len, 0);
    let mut faults = 0u64;
    for store in &stores {
        faults = faults.saturating_add(store.faults);
    }
    Ok((error, faults))
}

/// The lowest place is told whose run is not taken, or else whose run is not given back: none, one with another head, one
/// that is cut short in its head, and nothing.
#[test]
fn lowest_place_that_spills(rt: HostRuntime) -> Result<(), Fail> {
    let [zero, one, two] = *runs();
    let cases: [(&[&[u8]], &[usize], usize, u64); 8] = [
        (&RUNS, &[2], 2, 1),
        (&RUNS, &[2, 1], 1, 2),
        (&RUNS, &[0, 1, 2], 0, 3),
        (&[zero, one], &[], 2, 1),
        (&[], &[], 0, 1),
        (&[zero, zero, two], &[], 1, 0),
        (&[zero, front_of(one, 20), one], &[], 1, 0),
        (&[zero, one, b""], &[], 2, 0),
    ];
    for (given, refused, place, faults) in cases {
        let found = spilled(&rt, rt.alloc(), given, refused)?;
        assert_eq!(rt; found, (Some(BuildError::Spill(place)), faults));
    }
    Ok(())
}

/// The runs, with these bytes at a place.
fn runs_but<'a>(alloc: Global, place: usize, bytes: &'a [u8]) -> Result<Vec<&'a [u8]>, AllocError> {
    let mut given = Vec::new(alloc);
    for (number, run) in RUNS.iter().enumerate() {
        if number == place {
            given.push(bytes)?;
        } else {
            given.push(*run)?;
        }
    }
    Ok(given)
}

/// What building comes to if the run of a place comes back as these bytes, with its reads and the writes refused behind so
/// many.
fn built_with(
    rt: &(impl Abort + Threads + Wait + Sync),
    alloc: Global,
    place: usize,
    bytes: &[u8],
    reads: usize,
    writes: usize,
) -> Result<Option<BuildError>, Fail> {
    let given = runs_but(alloc, place, bytes)?;
    let case = Case {
        given: &given,
        refused: &[],
        begun: &AtomicU64::new(0),
        wanted: 0,
        slow: place,
        reads,
    };
    let (_, error, _) = built(rt, alloc, 2, case, writes)?;
    Ok(error)
}

#[test]
fn each_read_and_each_write_refused(rt: HostRuntime) -> Result<(), Fail> {
    let alloc = rt.alloc();
    for (place, run) in runs().iter().enumerate() {
        for reads in 0..=run.len() {
            let error = built_with(&rt, alloc, place, run, reads, usize::MAX)?;
            assert_eq!(rt; error, Some(BuildError::Spill(place)), "{reads}");
        }
    }
    for writes in 0..five_documents_index().len() {
        let error = built_with(&rt, alloc, 0, RUNS[0], usize::MAX, writes)?;
        assert_eq!(rt; error, Some(BuildError::Write), "{writes}");
    }
    Ok(())
}

/// Each byte of the terms ends a number, which goes on once its first bit is 0, or is a letter, which is none once its
/// first bit is 1. In a head, any bit matters. A text without its last bytes is none either.
#[test]
fn a_changed_run_spills(rt: HostRuntime) -> Result<(), Fail> {
    let alloc = rt.alloc();
    for (place, run) in runs().iter().enumerate() {
        for at in 0..run.len() {
            let mut bytes = Vec::from_slice(alloc, run)?;
            if let Some(byte) = bytes.get_mut(at) {
                *byte ^= 128;
            }
            let error = built_with(&rt, alloc, place, &bytes, usize::MAX, usize::MAX)?;
            assert_eq!(rt; error, Some(BuildError::Spill(place)), "{at}");
        }
        let front = front_of(run, run.len().saturating_sub(2));
        let error = built_with(&rt, alloc, place, front, usize::MAX, usize::MAX)?;
        assert_eq!(rt; error, Some(BuildError::Spill(place)));
    }
    Ok(())
}
