//! Collections built with their runs in a folder of the system: which files it holds, and that none is left.

use super::stores::runs;
use super::{Counts, Narrow, five_documents, five_documents_index};
use ix_build::{
    BuildError, BuiltOver, Cut, FolderStore, Plan, RunStore, Runs, Unwatched, Watch, build,
    build_over, is_run_of,
};
use ix_files::{Files, Location, MemoryFiles, SharedFiles, SystemFiles};
use ix_run::{RunReader, invert};
use ix_text::{Collection, StopList};
use std::alloc::Global;
use std::io::{Read, Write};
use std::process::Abort;
use std::sync::Wait;
use std::test::Fail;
use std::thread::Threads;
use std::{env, fs, process};

/// The path of a folder that no other test and no other process has.
fn new_path(rt: &HostRuntime, name: &str) -> Result<String, Fail> {
    let above = env::temp_dir(rt)?;
    let process = process::id(rt.process());
    Ok(format!(in rt.alloc(); "{}/ix-build-{process}-{name}", above.as_path().display())?)
}

/// Builds the five documents with runs in this folder, and answers why it is refused.
fn built_in<F: Files, W: Write>(
    rt: &(impl Abort + Threads + Wait + Sync),
    alloc: Global,
    files: &mut F,
    folder: &str,
    cut: Cut,
    workers: usize,
    out: &mut W,
) -> Result<Option<BuildError>, Fail> {
    let runs = Runs::Folder(String::from_str(alloc, folder)?);
    let plan = Plan::new(cut, workers, runs).ok_or("no plan")?;
    built_by(rt, alloc, files, five_documents(), &plan, &Unwatched, out)
}

/// Builds a collection text by a plan, and answers why it is refused.
fn built_by<F: Files, V: Watch, W: Write>(
    rt: &(impl Abort + Threads + Wait + Sync),
    alloc: Global,
    files: &mut F,
    text: &[u8],
    plan: &Plan,
    watch: &V,
    out: &mut W,
) -> Result<Option<BuildError>, Fail> {
    let collection = Collection::read(alloc, text)?;
    let stop = StopList::empty(alloc);
    let result = build(rt, alloc, files, &collection, &stop, plan, watch, out);
    Ok(result.err())
}

/// Cuts and workers with runs in a folder that is there.
const PLANS: [(Cut, usize); 4] = [
    (Cut::Docs(1), 3),
    (Cut::Docs(2), 64),
    (Cut::Docs(5), 2),
    (Cut::Bytes(4), 1),
];

#[test]
fn a_folder_is_left_empty(rt: HostRuntime) -> Result<(), Fail> {
    let mut files = SystemFiles { rt: &rt };
    let folder = new_path(&rt, "empty")?;
    let mut out = Vec::new(rt.alloc());
    let none = built_in(
        &rt,
        rt.alloc(),
        &mut files,
        &folder,
        Cut::Docs(2),
        3,
        &mut out,
    )?;
    assert!(rt; none == Some(BuildError::Spill(0)) && out.is_empty());
    fs::create_dir(&rt, folder.as_str())?;
    for (cut, workers) in PLANS {
        let mut out = Vec::new(rt.alloc());
        let refused = built_in(&rt, rt.alloc(), &mut files, &folder, cut, workers, &mut out)?;
        assert!(rt; refused.is_none() && out.as_slice() == five_documents_index());
    }
    let bytes = Vec::new(rt.alloc());
    let mut narrow = Narrow { bytes, left: 0 };
    let refused = built_in(
        &rt,
        rt.alloc(),
        &mut files,
        &folder,
        Cut::Docs(2),
        2,
        &mut narrow,
    )?;
    assert_eq!(rt; refused, Some(BuildError::Write));
    let way = format!(in rt.alloc(); "{folder}/run-0000000001")?;
    fs::create_dir(&rt, way.as_str())?;
    let mut out = Vec::new(rt.alloc());
    let refused = built_in(
        &rt,
        rt.alloc(),
        &mut files,
        &folder,
        Cut::Docs(1),
        2,
        &mut out,
    )?;
    assert!(rt; refused == Some(BuildError::Spill(1)) && out.is_empty());
    fs::remove_dir(&rt, way.as_str())?;
    // Only an empty folder is removed.
    fs::remove_dir(&rt, folder.as_str())?;
    Ok(())
}

/// What comes of building a collection over two stores.
fn built_over<T: RunStore>(
    rt: &(impl Abort + Threads + Wait + Sync),
    alloc: Global,
    collection: &Collection<'_>,
    cut: Cut,
    stores: Vec<T>,
    out: &mut Vec<u8>,
) -> Result<Result<(), BuildError>, Fail> {
    let stop = StopList::empty(alloc);
    let plan = Plan::new(cut, 2, Runs::Memory).ok_or("no plan")?;
    assert!(rt; stores.len() == plan.workers());
    let BuiltOver { stores: _, result } = build_over(
        rt, alloc, collection, &stop, &plan, stores, out,
    );
    Ok(result)
}

/// Builds the five documents over two stores that keep runs in these files. What is written is their index text.
fn builds_over_stores_in<F: SharedFiles>(
    rt: &(impl Abort + Threads + Wait + Sync),
    alloc: Global,
    files: &F,
    cut: Cut,
) -> Result<(), Fail> {
    let collection = Collection::read(alloc, five_documents())?;
    let mut stores = Vec::new(alloc);
    for _ in 0..2 {
        stores.push(FolderStore::new(alloc, files))?;
    }
    let mut out = Vec::new(alloc);
    let result = built_over(rt, alloc, &collection, cut, stores, &mut out)?;
    assert_eq!(rt; result, Ok(()));
    assert_eq!(rt; out.as_slice(), five_documents_index());
    Ok(())
}

/// Names in this folder as the first runs are called, so many of them.
fn names_in(alloc: Global, folder: &str, count: usize) -> Result<Vec<Location>, Fail> {
    let mut names = Vec::new(alloc);
    for place in 0..count {
        let folder = String::from_str(alloc, folder)?;
        let name = format!(in alloc; "run-{place:010}")?;
        names.push(Location::new(alloc, folder, name)?)?;
    }
    Ok(names)
}

/// From which document up to which one the run of a text goes.
fn span_of(alloc: Global, text: &[u8]) -> Result<String, Fail> {
    let run = RunReader::open(alloc, text)?;
    let head = run.into_head();
    let end = (head.first as usize).saturating_add(head.docs.len());
    Ok(format!(in alloc; "{}-{end} ", head.first)?)
}

/// From where to where the runs of the first files of the folder go. The files are removed.
fn spans_in(rt: &HostRuntime, folder: &str) -> Result<String, Fail> {
    let mut told = String::new(rt.alloc());
    for place in 0..9 {
        let path = format!(in rt.alloc(); "{folder}/run-000000000{place}")?;
        if let Ok(text) = fs::read(rt, path.as_str()) {
            told.push_str(&span_of(rt.alloc(), &text)?)?;
            fs::remove_file(rt, path.as_str())?;
        }
    }
    Ok(told)
}

/// Cuts of the five documents, and the blocks that they give.
const CUTS: [(Cut, &str); 8] = [
    (Cut::Bytes(4), "0-2 2-4 4-5 "),
    (Cut::Bytes(3), "0-1 1-4 4-5 "),
    (Cut::Bytes(1), "0-1 1-2 2-4 4-5 "),
    (Cut::Bytes(9), "0-4 4-5 "),
    (Cut::Bytes(10), "0-5 "),
    (Cut::Docs(2), "0-2 2-4 4-5 "),
    (Cut::Docs(1), "0-1 1-2 2-3 3-4 4-5 "),
    (Cut::Docs(u32::MAX), "0-5 "),
];

#[test]
fn run_files_of_each_cut(rt: HostRuntime) -> Result<(), Fail> {
    let mut files = SystemFiles { rt: &rt };
    let folder = new_path(&rt, "cuts")?;
    fs::create_dir(&rt, folder.as_str())?;
    let shared = files.share(names_in(rt.alloc(), &folder, 9)?)?;
    for (cut, want) in CUTS {
        builds_over_stores_in(&rt, rt.alloc(), &shared, cut)?;
        if cut == Cut::Bytes(4) {
            for (place, run) in runs().iter().enumerate() {
                let path = format!(in rt.alloc(); "{folder}/run-000000000{place}")?;
                assert_eq!(rt; fs::read(&rt, path.as_str())?.as_slice(), *run);
            }
        }
        assert_eq!(rt; spans_in(&rt, &folder)?.as_str(), want);
    }
    fs::remove_dir(&rt, folder.as_str())?;
    Ok(())
}

/// What a build of the five documents by one worker, in three blocks and with runs in a folder of files in memory, comes to and
/// writes, and of how many files it tells.
fn watched(
    rt: &(impl Abort + Threads + Wait + Sync),
    alloc: Global,
    files: &mut MemoryFiles,
) -> Result<(Option<BuildError>, Vec<u8>, u64), Fail> {
    let runs = Runs::Folder(String::new(alloc));
    let plan = Plan::new(Cut::Docs(2), 1, runs).ok_or("no plan")?;
    let counts = Counts::new(0);
    let mut out = Vec::new(alloc);
    let refused = built_by(rt, alloc, files, five_documents(), &plan, &counts, &mut out)?;
    let (told, blocks) = counts.told();
    assert!(rt; blocks == if told == 0 { 0 } else { 3 });
    Ok((refused, out, told))
}

/// Of how many files is told if the first call of the files fails, the second, and so on: the folder is located, three files
/// are created and ended, and then opened.
const TOLD: &str = "0 2 2 2 2 2 2 3 3 3 3 3 ";

/// Whether this comes of a call that failed, out of memory or not.
fn is_of_call(refused: Option<BuildError>, starved: bool) -> bool {
    match refused {
        None => true,
        Some(BuildError::Spill(_)) => !starved,
        Some(error) => starved && error == BuildError::Memory,
    }
}

#[test]
fn each_call_of_the_files_fails(rt: HostRuntime) -> Result<(), Fail> {
    let mut files = MemoryFiles::new(rt.alloc())?;
    for starved in [false, true] {
        let mut counts = String::new(rt.alloc());
        let mut built = false;
        for number in 1..13 {
            files.fail_at(number, starved);
            let (refused, out, told) = watched(&rt, rt.alloc(), &mut files)?;
            built = refused.is_none();
            assert!(rt; is_of_call(refused, starved), "{number}");
            assert!(rt;
                built == (out.as_slice() == five_documents_index()),
                "{number}"
            );
            counts.push_str(&format!(in rt.alloc(); "{told} ")?)?;
        }
        assert!(rt; built);
        assert_eq!(rt; counts.as_str(), TOLD);
    }
    Ok(())
}

/// How many bytes a file takes, and how many of the files of the runs then end, which have 41 bytes, 39 and 28.
const ROOMS: [(usize, u64); 6] = [(0, 0), (27, 0), (28, 1), (38, 1), (39, 2), (40, 2)];

#[test]
fn a_full_disk_spills(rt: HostRuntime) -> Result<(), Fail> {
    let mut files = MemoryFiles::new(rt.alloc())?;
    for (room, want) in ROOMS {
        files.set_room(room);
        let (refused, out, told) = watched(&rt, rt.alloc(), &mut files)?;
        assert!(rt; refused == Some(BuildError::Spill(0)) && out.is_empty());
        assert_eq!(rt; told, want, "{room}");
    }
    Ok(())
}

/// Which call of the files fails, and why the build is refused, how many bytes it writes and of how many files it tells: the
/// folder is located, and the file of each of the 1100 blocks is created and ended. The other blocks are saved.
const MANY_BLOCKS: [(usize, Option<BuildError>, usize, u64); 2] = [
    (2 + 2 * 1050, Some(BuildError::Spill(1050)), 0, 1099),
    (0, None, 6_676, 1100),
];

#[test]
fn more_than_a_thousand_blocks(rt: HostRuntime) -> Result<(), Fail> {
    let alloc = rt.alloc();
    let text = "a\tx\n".repeat(alloc, 1100)?;
    let runs = Runs::Folder(String::new(alloc));
    let plan = Plan::new(Cut::Docs(1), 1, runs).ok_or("no plan")?;
    let text = text.as_bytes();
    for (number, want, bytes, told) in MANY_BLOCKS {
        let mut files = MemoryFiles::new(alloc)?;
        files.fail_at(number, false);
        let counts = Counts::new(0);
        let mut out = Vec::new(alloc);
        let refused = built_by(&rt, alloc, &mut files, text, &plan, &counts, &mut out)?;
        assert!(rt; refused == want && out.len() == bytes);
        assert!(rt; counts.told() == (told, 1100));
    }
    Ok(())
}

#[test]
fn more_than_ten_thousand_places(rt: HostRuntime) -> Result<(), Fail> {
    let alloc = rt.alloc();
    let mut files = MemoryFiles::new(alloc)?;
    let shared = files.share(names_in(alloc, "", 10_002)?)?;
    let mut store = FolderStore::new(alloc, &shared);
    let collection = Collection::read(alloc, b"a\tx y\nb\ty\n")?;
    let run = invert(alloc, collection.docs(), &StopList::empty(alloc), 0)?;
    for place in [0, 1000, 1001, 9999, 10_000, 10_001] {
        assert!(rt; store.save(place, &run).is_ok(), "{place}");
        let mut bytes = Vec::new(alloc);
        store
            .load(place)
            .map_err(|_| "load")?
            .read_to_end(&mut bytes)?;
        assert!(rt; Some(&bytes.as_slice()) == runs().first(), "{place}");
    }
    Ok(())
}

#[test]
fn paths_of_runs(rt: HostRuntime) -> Result<(), Fail> {
    let files = MemoryFiles::new(rt.alloc())?;
    let collection = Collection::read(rt.alloc(), five_documents())?;
    for (runs, want) in [
        (Runs::Folder(String::new(rt.alloc())), true),
        (Runs::Memory, false),
    ] {
        let plan = Plan::new(Cut::Docs(2), 1, runs).ok_or("no plan")?;
        for (path, last) in [
            ("run-0000000002", true),
            ("run-0000000003", false),
            ("run-2", false),
        ] {
            let is = is_run_of(rt.alloc(), &files, &collection, &plan, path)?;
            assert_eq!(rt; is, want && last, "{path}");
        }
    }
    Ok(())
}
