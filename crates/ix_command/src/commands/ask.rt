//! `ix ask`: asks a collection file, by an index that is built in memory.

ghost use Rattle.std.specs.Prelude.{◌≡◌, ℕ, List, take, IfOk, IfErr, IsSomeAnd};
ghost use Rattle.ix_text.specs.StopText.{IsStopText};
ghost use Rattle.ix_command.specs.AskedFiles.{IsAnsweredFromFiles, IsAskRefused, IsNoStopText, IsStopHeld};
ghost use Rattle.ix_command.specs.AskedFiles.{RefusesStop};
ghost use Rattle.ix_files.specs.Reading.{IsFront, held_in};
ghost use Rattle.ix_command.specs.Refusals.{IsUnread};

use crate::refusal::Refusal;
use ix_ask::{EngineRefusal, ask};
use ix_build::Plan;
use ix_files::{Files, read_front};
use ix_text::{MAX_TEXT_BYTES, StopError, StopList};
use std::alloc::Global;
use std::io::Write;
use std::str;
use std::sync::Wait;
use std::thread::Threads;

/// One byte more than a collection text or a stop text may have, so that a longer one, be it
/// without an end, is refused for its size and takes no more memory.
pub const ROOM: usize = MAX_TEXT_BYTES + 1;

/// Writes the names of the documents in the collection file that answer the query, and answers how
/// many there are, whatever the plan. The words of the stop file, where one is named, are left out.
pub fn run<'a, R: Threads + Wait + Sync, F: Files, W: Write>(
    rt: &R,
    alloc: Global,
    files: &F,
    stop: Option<&'a str>,
    plan: &Plan,
    collection: &'a str,
    query: &str,
    out: &mut W,
) -> Result<usize, Refusal<'a>>
    ensures answered { IfOk result
        (IsAnsweredFromFiles (held_in (F.view files.now)) stop.entry collection.entry.now
        query.now (W.contents out.old) (W.contents out.new)) }
    ensures refused { IfErr result (IsAskRefused (held_in (F.view files.now))
        stop.entry plan.now.workers
        collection.entry.now query.now (W.contents out.old) (W.contents out.new)) }
{
    let stop = read_stop_list(alloc, files, stop)?;
    let text = read_file(alloc, files, collection)?;
    Ok(ask(rt, alloc, &text, &stop, plan, query, out)?)
}

/// The stop list of a file, or the empty one where no file is named.
pub fn read_stop_list<'a, F: Files>(
    alloc: Global,
    files: &F,
    path: Option<&'a str>,
) -> Result<StopList, Refusal<'a>>
    ensures held { IfOk result (IsStopHeld (held_in (F.view files.now)) path.entry) }
    ensures refused { IfErr result (λ told.
        IsSomeAnd path.entry (λ named. RefusesStop (held_in (F.view files.now)) named.now told)) }
{
    match path {
        Some(path) => {
            let bytes = read_file(alloc, files, path)?;
            stop_list_of(alloc, path, &bytes)
        }
        None => Ok(StopList::empty(alloc)),
    }
}

/// The stop list of what was read of a file.
fn stop_list_of<'a>(alloc: Global, path: &'a str, bytes: &[u8]) -> Result<StopList, Refusal<'a>>
    ensures read { (whole : List ℕ) → bytes.now ≡ take ROOM whole → IfOk result (IsStopText whole) }
    ensures refused { (whole : List ℕ) → bytes.now ≡ take ROOM whole →
        IfErr result (IsNoStopText path.entry.now whole) }
{
    if bytes.len() == ROOM {
        return Err(Refusal::Engine(EngineRefusal::Stop(StopError::TooLarge)));
    }
    let Ok(text) = str::from_utf8(bytes) else {
        return Err(Refusal::NotUtf8(path));
    };
    match StopList::read(alloc, text) {
        Ok(stop) => Ok(stop),
        Err(error) => Err(Refusal::Engine(EngineRefusal::Stop(error))),
    }
}

/// The bytes of a file, or the first of them where it has more than any text may have.
pub fn read_file<'a, F: Files>(
    alloc: Global,
    files: &F,
    path: &'a str,
) -> Result<Vec<u8>, Refusal<'a>>
    ensures front { IfOk result
        (λ bytes. IsFront (held_in (F.view files.now) path.entry.now) ROOM bytes.items) }
    ensures refused { IfErr result (IsUnread path.entry.now) }
{
    match read_front(alloc, files, path, ROOM) {
        Ok(bytes) => Ok(bytes),
        Err(error) => Err(Refusal::unread(path, error)),
    }
}

/// The bytes of a file of at most 2^28 bytes.
pub fn read_text<'a, F: Files>(
    alloc: Global,
    files: &F,
    path: &'a str,
) -> Result<Vec<u8>, Refusal<'a>>
    ensures held { IfOk result (λ bytes. held_in (F.view files.now) path.entry.now bytes.items) }
    ensures refused { IfErr result (IsUnread path.entry.now) }
{
    let bytes = read_file(alloc, files, path)?;
    if bytes.len() == ROOM {
        return Err(Refusal::Read(path));
    }
    Ok(bytes)
}
