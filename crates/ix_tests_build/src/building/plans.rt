//! Collections built by plans: the worked samples, how far several workers cut, and refused writes.
ghost use Rattle.std.specs.Prelude.{◌≡◌};

use super::{Counts, Narrow, five_documents, five_documents_index};
use ix_build::{BuildError, Cut, Plan, Runs, build_in_memory, invert_all};
use ix_text::{Collection, StopList};
use std::alloc::{AllocError, Global};
use std::io::Write;
use std::process::Abort;
use std::sync::Wait;
use std::test::Fail;
use std::thread::Threads;

/// The plan of a cut for so many workers, with the runs in memory.
fn plan_of(cut: Cut, workers: usize) -> Result<Plan, Fail> {
    Ok(Plan::new(cut, workers, Runs::Memory).ok_or("no plan")?)
}

/// Builds a collection by a plan.
fn written<W: Write>(
    rt: &(impl Abort + Threads + Wait + Sync),
    alloc: Global,
    collection: &Collection<'_>,
    stop: &str,
    plan: &Plan,
    out: &mut W,
) -> Result<Result<(), BuildError>, Fail> {
    let stop = StopList::read(alloc, stop)?;
    Ok(build_in_memory(rt, alloc, collection, &stop, plan, out))
}

/// The index text of no documents.
const NO_DOCUMENTS_INDEX: &[u8] = b"PIIX0002\
    \0\0\0\0\0\0\0\0\0\0\0\0\0\0\0\0\0\0\0\0\0\0\0\0\0\0\0\0\0\0\0\0\0\0\0\0\0\0\0\0\0\0\0\0\0\0\0\0\
    PIIXEND2";

/// The index text of `flights to london` where `to` is a stop word.
const STOP_WORD_INDEX: &[u8] = b"PIIX0002\x81\x81\x81\x81\x81\x83\
    \x82to\
    \x81d\x83\
    \x87flights\x81\x83\x80\x86london\x81\x83\
    \x83$fl\x81\x81\x83$lo\x81\x82\x83don\x81\x82\x83fli\x81\x81\x83ght\x81\x81\x83hts\x81\x81\
    \x83igh\x81\x81\x83lig\x81\x81\x83lon\x81\x82\x83ndo\x81\x82\x83on$\x81\x82\x83ond\x81\x82\
    \x83ts$\x81\x81\
    \x06\0\0\0\0\0\0\0\x03\0\0\0\0\0\0\0\x03\0\0\0\0\0\0\0\x14\0\0\0\0\0\0\0\x4e\0\0\0\0\0\0\0\
    \x01\0\0\0\x02\0\0\0PIIXEND2";

/// Collection texts, stop texts and their index texts.
fn samples() -> [(&'static [u8], &'static str, &'static [u8]); 3] {
    [
        (five_documents(), "", five_documents_index()),
        (b"", "", NO_DOCUMENTS_INDEX),
        (b"d\tflights to london\n", "to\n", STOP_WORD_INDEX),
    ]
}

/// Cuts and workers.
const PLANS: [(Cut, usize); 4] = [
    (Cut::Docs(2), 1),
    (Cut::Docs(2), 3),
    (Cut::Docs(1), 64),
    (Cut::Bytes(3), 2),
];

#[test]
fn samples_are_built_by_each_plan(rt: HostRuntime) -> Result<(), Fail> {
    for (text, stop, index) in samples() {
        let collection = Collection::read(rt.alloc(), text)?;
        for (cut, workers) in PLANS {
            let plan = plan_of(cut, workers)?;
            let mut out = Vec::new(rt.alloc());
            written(&rt, rt.alloc(), &collection, stop, &plan, &mut out)??;
            assert_eq!(rt; out.as_slice(), index, "{cut:?} {workers}");
        }
    }
    Ok(())
}

#[test]
fn refused_writes(rt: HostRuntime) -> Result<(), Fail> {
    let collection = Collection::read(rt.alloc(), five_documents())?;
    let plan = plan_of(Cut::Docs(2), 3)?;
    let index = five_documents_index();
    for left in 0..index.len() {
        let bytes = Vec::new(rt.alloc());
        let mut out = Narrow { bytes, left };
        let result = written(&rt, rt.alloc(), &collection, "", &plan, &mut out)?;
        assert_eq!(rt; result, Err(BuildError::Write), "{left}");
        assert!(rt; index.starts_with(out.bytes.as_slice()), "{left}");
    }
    Ok(())
}

/// A collection text of eight documents, whose texts have 131,072 bytes each.
fn eight_long_documents(alloc: Global) -> Result<Vec<u8>, AllocError> {
    let mut text = Vec::new(alloc);
    for name in *b"abcdefgh" {
        text.push(name)?;
        text.push(b'\t')?;
        for _ in 0..2_048 {
            text.extend_from_slice(&[b'x'; 61])?;
            text.extend_from_slice(&[b' ', name, b' '])?;
        }
        text.push(b'\n')?;
    }
    Ok(text)
}

/// What is told of the blocks of a collection without stop words, each of which waits for so many others; and its index text.
fn cut_and_built(
    rt: &(impl Abort + Threads + Wait + Sync),
    alloc: Global,
    collection: &Collection<'_>,
    plan: &Plan,
    wanted: u64,
) -> Result<((u64, u64), Vec<u8>), Fail> {
    let seen = Counts::new(wanted);
    let stop = StopList::empty(alloc);
    let blocks = invert_all(rt, alloc, collection, &stop, plan, &seen)?;
    let mut out = Vec::new(alloc);
    blocks.merge_into(alloc, &mut out)?;
    Ok((seen.told(), out))
}

#[test]
fn several_workers_cut_further(rt: HostRuntime) -> Result<(), Fail> {
    let text = eight_long_documents(rt.alloc())?;
    let collection = Collection::read(rt.alloc(), &text)?;
    let mut whole = Vec::new(rt.alloc());
    for (cut, workers, want) in [
        (Cut::Docs(1024), 1, 1),
        (Cut::Docs(1024), 4, 2),
        (Cut::Bytes(1 << 28), 1, 1),
        (Cut::Docs(1), 4, 8),
        (Cut::Bytes(1 << 28), 4, 2),
        (Cut::Bytes(7), 4, 8),
    ] {
        let plan = plan_of(cut, workers)?;
        let (told, out) = cut_and_built(&rt, rt.alloc(), &collection, &plan, 0)?;
        assert!(rt; told == (want, want), "{cut:?} {workers}");
        assert!(rt; whole.is_empty() || whole == out, "{cut:?} {workers}");
        whole = out;
    }
    Ok(())
}

/// Three workers each invert one of three blocks, and wait there until all have begun.
#[test]
fn workers_meet(rt: HostRuntime) -> Result<(), Fail> {
    let collection = Collection::read(rt.alloc(), five_documents())?;
    let plan = plan_of(Cut::Docs(2), 3)?;
    let (told, out) = cut_and_built(&rt, rt.alloc(), &collection, &plan, 3)?;
    assert!(rt; told == (3, 3) && out.as_slice() == five_documents_index());
    Ok(())
}
