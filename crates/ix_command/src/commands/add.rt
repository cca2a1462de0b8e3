//! `ix add`: adds the documents of a collection file to an archive.

ghost use Rattle.std.specs.Prelude.{◌≡◌, [], None, IfErr, IsSome, OnOk};
ghost use Rattle.ix_archive_writer.specs.Changes.{stop_given};
ghost use Rattle.ix_command.specs.StoredArchives.{AddsFiles, ChangesArchive, IsAddRefused, KeepsAdding, storing_of};
ghost use Rattle.ix_files.specs.Reading.{held_in};

use crate::commands::ask::{read_file, read_stop_list};
use crate::commands::build::documents_of;
use crate::refusal::Refusal;
use ix_archive_writer::add;
use ix_build::{Plan, Watch};
use ix_files::Files;
use ix_text::StopList;
use std::alloc::Global;
use std::sync::Wait;
use std::thread::Threads;

/// Adds the documents of a collection file to the archive in a folder, by one commit. A new archive
/// has the stop words of the stop file, if one is named; of an archive that is there they have to be
/// its own.
pub fn run<'a, R: Threads + Wait + Sync, F: Files, V: Watch>(
    rt: &R,
    alloc: Global,
    files: &mut F,
    watch: &V,
    stop: Option<&'a str>,
    plan: &Plan,
    archive: &'a str,
    collection: &'a str,
) -> Result<(), Refusal<'a>>
    ensures added { OnOk result (AddsFiles (held_in (F.view files.old))
        (storing_of (F.view files.old) (F.view files.new)) stop.entry archive.entry.now
        collection.entry.now) }
    ensures kept { (F.view files.new).honest → KeepsAdding (held_in (F.view files.old)) stop.entry
        archive.entry.now collection.entry.now (F.view files.old) (F.view files.new) }
    ensures changes { ChangesArchive archive.entry.now (F.view files.old) (F.view files.new) }
    ensures refused { IfErr result (IsAddRefused (held_in (F.view files.old)) stop.entry
        archive.entry.now collection.entry.now) }
{
    let list = read_stop_list(alloc, files, stop)?;
    let text = read_file(alloc, files, collection)?;
    let documents = documents_of(alloc, &text)?;
    let given = given(stop, &list);
    match add(rt, alloc, files, watch, archive, given, &documents, plan) {
        Ok(()) => Ok(()),
        Err(error) => Err(Refusal::of_change(archive, error)),
    }
}

/// The stop list of the stop file, if one is named.
fn given<'l>(stop: Option<&str>, list: &'l StopList) -> Option<&'l StopList>
    ensures named { IsSome stop.entry → stop_given result ≡ list.now }
    ensures none { stop.entry ≡ None → stop_given result ≡ [] }
{
    match stop {
        Some(_) => Some(list),
        None => None,
    }
}
