//! `ix remove`: removes documents of an archive by their names.

ghost use Rattle.std.specs.Prelude.{◌≡◌, ℕ, IfErr, IfOk};
ghost use Rattle.ix_command.specs.StoredArchives.{AreNamed, AreNamesIn, ChangesArchive, IsNoNameText, IsRemoveRefused, KeepsRemoving, RemovesSome, storing_of};
ghost use Rattle.ix_files.specs.Reading.{held_in};
ghost use Rattle.ix_line.specs.Lines.{texts_of};
ghost use Rattle.ix_line.specs.declared.removed.Removed.{Removed as SeenRemoved};
ghost use Rattle.ix_line.specs.declared.removed.Removed.TheVariants.{List as Listed};

use crate::commands::ask::read_text;
use crate::refusal::Refusal;
use ix_archive_writer::remove;
use ix_ask::EngineRefusal;
use ix_files::Files;
use ix_line::Removed;
use std::alloc::{AllocError, Global};
use std::str;

/// Removes the documents that an archive has now under the names of a line, by one commit, and
/// returns how many there were.
pub fn run<'a, F: Files>(
    alloc: Global,
    files: &mut F,
    archive: &'a str,
    names: &Removed<'a>,
) -> Result<usize, Refusal<'a>>
    ensures removed { IfOk result (RemovesSome (held_in (F.view files.old))
        (storing_of (F.view files.old) (F.view files.new)) archive.entry.now names.now) }
    ensures kept { (F.view files.new).honest → KeepsRemoving (held_in (F.view files.old)) names.now
        archive.entry.now (F.view files.old) (F.view files.new) }
    ensures changes { ChangesArchive archive.entry.now (F.view files.old) (F.view files.new) }
    ensures refused { IfErr result (IsRemoveRefused (held_in (F.view files.old)) archive.entry.now
        names.now) }
{
    match names {
        Removed::Names(names) => remove_names(alloc, files, archive, names),
        Removed::List(path) => remove_listed(alloc, files, archive, path),
    }
}

/// Removes the documents of the names in a file.
fn remove_listed<'a, F: Files>(
    alloc: Global,
    files: &mut F,
    archive: &'a str,
    path: &'a str,
) -> Result<usize, Refusal<'a>>
    ensures removed { IfOk result (RemovesSome (held_in (F.view files.old))
        (storing_of (F.view files.old) (F.view files.new)) archive.entry.now (Listed path.entry)) }
    ensures kept { (F.view files.new).honest → KeepsRemoving (held_in (F.view files.old))
        (Listed path.entry) archive.entry.now (F.view files.old) (F.view files.new) }
    ensures changes { ChangesArchive archive.entry.now (F.view files.old) (F.view files.new) }
    ensures refused { IfErr result (IsRemoveRefused (held_in (F.view files.old)) archive.entry.now
        (Listed path.entry)) }
{
    let text = read_text(alloc, files, path)?;
    let names = names_of(alloc, path, &text)?;
    remove_names(alloc, files, archive, &names)
}

/// Removes the documents of these names, which are those of a line.
fn remove_names<'a, F: Files>(
    alloc: Global,
    files: &mut F,
    archive: &'a str,
    names: &[&str],
) -> Result<usize, Refusal<'a>>
    ensures removed { (line : SeenRemoved)
        → AreNamed (held_in (F.view files.old)) line (texts_of names.now)
        → IfOk result (RemovesSome (held_in (F.view files.old))
        (storing_of (F.view files.old) (F.view files.new)) archive.entry.now line) }
    ensures kept { (F.view files.new).honest → (line : SeenRemoved)
        → AreNamed (held_in (F.view files.old)) line (texts_of names.now)
        → KeepsRemoving (held_in (F.view files.old)) line archive.entry.now (F.view files.old)
        (F.view files.new) }
    ensures changes { ChangesArchive archive.entry.now (F.view files.old) (F.view files.new) }
    ensures refused { (line : SeenRemoved) → IfErr result
        (IsRemoveRefused (held_in (F.view files.old)) archive.entry.now line) }
{
    match remove(alloc, files, archive, names) {
        Ok(count) => Ok(count as usize),
        Err(error) => Err(Refusal::of_change(archive, error)),
    }
}

/// The names in what a file has.
fn names_of<'t, 'a>(
    alloc: Global,
    path: &'a str,
    bytes: &'t [u8],
) -> Result<Vec<&'t str>, Refusal<'a>>
    ensures read { IfOk result (λ names. AreNamesIn bytes.entry.now (texts_of names.items)) }
    ensures refused { IfErr result (IsNoNameText path.entry.now bytes.entry.now) }
{
    let Ok(text) = str::from_utf8(bytes) else {
        return Err(Refusal::NotUtf8(path));
    };
    match names_in(alloc, text) {
        Ok(names) => Ok(names),
        Err(AllocError) => Err(Refusal::Engine(EngineRefusal::Memory)),
    }
}

/// The names in a text: its lines that are not empty.
fn names_in<'t>(alloc: Global, text: &'t str) -> Result<Vec<&'t str>, AllocError>
    ensures { IfOk result (λ names. AreNamesIn text.entry.now (texts_of names.items)) }
{
    let mut names = Vec::new(alloc);
    for name in text.lines() {
        if !name.is_empty() {
            names.push(name)?;
        }
    }
    Ok(names)
}
