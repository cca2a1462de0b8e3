//! A check of an archive to the last byte of its segments.
ghost use Rattle.std.specs.Prelude.{◌≡◌, ◌≤◌, ℕ, List, Option, All, Contains, IfErr, IfOk, IfSome, MatchBool, MatchOption};
ghost use Rattle.std.specs.Option.{option_copied};
ghost use Rattle.ix_file.specs.Opened.{names_of};
ghost use Rattle.ix_manifest.specs.ManifestText.{view_of};
ghost use Rattle.ix_archive.specs.Checks.{AreCounted, IsChecked, IsFaultOf, IsPassed, IsVolumeOf, RefusesText, files_of};
ghost use Rattle.ix_archive.specs.Findings.{IsGoneFrom};
ghost use Rattle.ix_archive.specs.Openings.{IsOutside};

use crate::finding::{is_gone, of_open};
use crate::opening::read_whole;
use crate::{ArchiveError, Checked, Counts, Opened, ReadError};
use ix_file::{Index, Volume};
use ix_files::ReadAt;
use ix_manifest::Segment;
use ix_removals::Removals;
use ix_text::StopList;
use sha2::{Digest, Sha256};
use std::alloc::Global;
use std::thread::Threads;

/// Reads each segment of an archive whole, and compares it with what the manifest says of it and with the stop terms of
/// the segments before; and the removals with the number of documents. One segment at a time is in memory.
///
/// # Errors
/// `Memory`, also if a count has no 64 bits; `Read`.
pub fn check<R: Threads + Sync, S: ReadAt>(
    rt: &R,
    alloc: Global,
    opened: &Opened<S>,
) -> Result<Checked, ReadError>
    ensures checked { IfOk result (IsChecked S.contents opened.now) }
    ensures refused { IfErr result IsOutside }
{
    let mut stop = None;
    let mut counts = Counts::none();
    let mut faults = Vec::new(alloc);
    for place in 0..opened.sources.len() {
        let segment = &opened.manifest.segments[place];
        let text = read_whole(alloc, &opened.sources[place])?;
        let first = counts.documents;
        let given = stop.as_ref();
        let removed = match pass(rt, alloc, text, segment, given, &opened.removals, first) {
            Ok(passed) => {
                stop = Some(passed.stop);
                passed.removed
            }
            Err(ReadError::Archive(fault)) => {
                faults.push(fault)?;
                0
            }
            Err(error) => return Err(error),
        };
        counts = counts.with(segment, removed).ok_or(ReadError::Memory)?;
    }
    match fault_of_removals(opened, counts.documents) {
        None if faults.is_empty() => return Ok(Checked::Sound(counts)),
        None => {}
        Some(fault) => faults.push(fault)?,
    }
    Ok(Checked::Faulty(faults))
}

/// The fault of the removals of an archive that has so many documents, if one of the bounds is above their number.
fn fault_of_removals<S>(opened: &Opened<S>, documents: u64) -> Option<ArchiveError>
    ensures { MatchOption result
        (All (λ removal. removal.below ≤ documents) opened.now.removals)
        (λ error. IsFaultOf (Contains (files_of (view_of opened.now.manifest))) error
        × ¬ (All (λ removal. removal.below ≤ documents) opened.now.removals)) }
{
    // Without a file of removals nothing is removed.
    let line = opened.manifest.removals.as_ref()?;
    if opened.removals.are_within(documents) {
        None
    } else {
        Some(ArchiveError::Differs(line.file))
    }
}

/// A segment that is as the manifest says.
#[derive(Drop)]
struct Passed {
    /// Its stop terms.
    stop: StopList,
    /// How many of its documents are removed.
    removed: u32,
}

/// Opens the text of a segment, which must have these stop terms if some are given, and counts the documents that are
/// removed. The documents count from `first` on.
///
/// # Errors
/// `Memory`; `Archive` with `Segment` or `Differs`.
fn pass<R: Threads + Sync>(
    rt: &R,
    alloc: Global,
    text: Vec<u8>,
    segment: &Segment,
    stop: Option<&StopList>,
    removals: &Removals,
    first: u64,
) -> Result<Passed, ReadError>
    ensures passed { IfOk result (λ passed. IsPassed (option_copied stop.entry) segment.now text.items
        removals.now first passed.stop passed.removed) }
    ensures refused { IfErr result (RefusesText (option_copied stop.entry) segment.now text.items) }
{
    let volume = open_text(rt, alloc, text, segment)?;
    let index = volume.index();
    if !fits(stop, index.stop()) {
        return Err(ReadError::Archive(ArchiveError::Differs(segment.file)));
    }
    Ok(Passed {
        stop: index.stop().copy(alloc)?,
        removed: count_gone(&index, removals, first),
    })
}

/// Opens the text of a segment exactly, and compares it with what the manifest says of it.
///
/// # Errors
/// `Memory`; `Archive` with `Segment` or `Differs`.
fn open_text<R: Threads + Sync>(
    rt: &R,
    alloc: Global,
    text: Vec<u8>,
    segment: &Segment,
) -> Result<Volume, ReadError>
    ensures opened { IfOk result (IsVolumeOf segment.now text.items) }
    ensures refused { (stop : Option (List (List ℕ)))
        → IfErr result (RefusesText stop segment.now text.items) }
{
    let differs = ReadError::Archive(ArchiveError::Differs(segment.file));
    if text.len() as u64 != segment.bytes || Sha256::digest(&text) != segment.digest {
        return Err(differs);
    }
    match Volume::open_beside(rt, alloc, text) {
        Ok(volume) if volume.index().doc_count() == segment.documents => Ok(volume),
        Ok(_) => Err(differs),
        Err(error) => Err(of_open(segment.file, error)),
    }
}

/// Whether a stop list has the terms of the one that is given, if one is.
fn fits(given: Option<&StopList>, stop: &StopList) -> bool
    ensures { MatchBool result (IfSome (option_copied given.entry) (λ terms. terms ≡ stop.now))
        (¬ (IfSome (option_copied given.entry) (λ terms. terms ≡ stop.now))) }
{
    match given {
        Some(given) => given.terms() == stop.terms(),
        None => true,
    }
}

/// How many documents of an index are removed, if they count from `first` on.
fn count_gone(index: &Index<'_>, removals: &Removals, first: u64) -> u32
    ensures { AreCounted (IsGoneFrom removals.now first (names_of index.now.parts.rows)) result }
{
    let mut count = 0;
    for number in 0..index.doc_count() {
        if is_gone(index, removals, first, number) {
            count += 1;
        }
    }
    count
}
