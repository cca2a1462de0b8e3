//! The removals of an archive, read, added to and written.

ghost use Rattle.std.specs.Prelude.{◌≡◌, ◌↔◌, ◌⊎◌, ◌+◌, ◌<◌, ◌≤◌, ◌^◌, ◌∷◌, [], List, ℕ, All, Contains, Option, Some, IfOk, OnOk, map, length, string_bytes};
ghost use Rattle.hex.specs.Hex.{IsBytes};
ghost use Rattle.sha2.specs.Sha256.{sha256};
ghost use Rattle.ix_files.specs.Changes.{ChangesOnly};
ghost use Rattle.ix_files.specs.Locations.{place_of};
ghost use Rattle.ix_files.specs.Slots.{Kept};
ghost use Rattle.ix_files.specs.Views.{GoesOn, LeavesOnly};
ghost use Rattle.ix_text.specs.Collections.{IsName};
ghost use Rattle.ix_folder.specs.Standings.{AreKept};
ghost use Rattle.ix_manifest.specs.ManifestText.{manifest_text, view_of};
ghost use Rattle.ix_removals.specs.RemovalsText.{IsRemoved, Removal};
ghost use Rattle.ix_archive.specs.Archives.{Archive};
ghost use Rattle.ix_archive.specs.Folders.{removals_files, removals_place};
ghost use Rattle.ix_archive.specs.Layouts.{AreRemovalsIn, IsRemovalsFile};
ghost use Rattle.ix_archive_writer.specs.Changes.{IsFitLine, texts_in, with_removals, with_removed};
ghost use Rattle.ix_archive_writer.specs.Commits.{IsFoundIn, IsLeftArchive, LeavesAmong};
ghost use Rattle.ix_archive_writer.specs.Takings.{Removes};

use crate::ChangeError;
use crate::committing::commit;
use crate::reading::read_whole;
use crate::writing::note_octets;
use ix_archive::{ArchiveError, removals_at};
use ix_files::{Files, Location};
use ix_folder::{begin_file, drop_file, end_file};
use ix_manifest::{Manifest, Removals as RemovalsLine};
use ix_output::put_all;
use ix_removals::{Removals, RemovalsError, is_name};
use sha2::{Digest, Sha256};
use std::alloc::{AllocError, Global};

/// The removals of an archive with this manifest.
pub(crate) fn read_removals<F: Files>(
    alloc: Global,
    files: &F,
    folder: &str,
    manifest: &Manifest,
) -> Result<Removals, ChangeError>
    ensures { IfOk result (λ read. (F.view files.now).honest
        → (count : ℕ) (removals : List Removal) (text : Option (List ℕ))
        → AreRemovalsIn count removals manifest.now.removals text
        → AreKept (removals_files folder.now manifest.now.removals text) (F.view files.now).slots
        → read ≡ removals) }
{
    match &manifest.removals {
        None => Ok(Removals::new(alloc)),
        Some(line) => read_file(alloc, files, folder, line),
    }
}

/// The removals of a file, of which the manifest has this line.
fn read_file<F: Files>(
    alloc: Global,
    files: &F,
    folder: &str,
    line: &RemovalsLine,
) -> Result<Removals, ChangeError>
    ensures { IfOk result (λ read. (F.view files.now).honest
        → (count : ℕ) (removals : List Removal) (text : List ℕ)
        → IsRemovalsFile count removals line.now text
        → ((F.view files.now).slots (removals_place folder.now line.now.file)).now ≡ Kept text
        → read ≡ removals) }
{
    let file = line.file;
    let at = removals_at(alloc, folder, file)?;
    let text = match read_whole(alloc, files, &at) {
        Ok(Some(text)) => text,
        Ok(None) => return Err(ChangeError::Archive(ArchiveError::Missing(file))),
        Err(error) => return Err(ChangeError::of_read(error)),
    };
    let digest: [u8; 32] = Sha256::digest(text.as_slice());
    if digest != line.digest {
        return Err(ChangeError::Archive(ArchiveError::Differs(file)));
    }
    match ix_removals::read(alloc, text.as_slice()) {
        Ok(removals) => Ok(removals),
        Err(RemovalsError::Memory) => Err(ChangeError::Memory),
        Err(RemovalsError::Line(_)) => Err(ChangeError::Archive(ArchiveError::Differs(file))),
    }
}

/// These removals, and one more with this bound of each of these names that a document can have.
pub(crate) fn removals_with(
    alloc: Global,
    removed: &Removals,
    names: &[&str],
    below: u64,
) -> Result<Removals, AllocError>
    requires { 0 < below }
    ensures { IfOk result (λ removals. (name : List ℕ) (number : ℕ)
        → IsRemoved removals name number
        ↔ (IsRemoved removed.now name number
        ⊎ ((Contains (texts_in names.now) name × IsName name) × (number < below)))) }
{
    let lawful = lawful_names(alloc, names)?;
    removed.with(alloc, lawful.as_slice(), below)
}

/// Those of these names that a document can have.
fn lawful_names<'a>(alloc: Global, names: &[&'a str]) -> Result<Vec<&'a str>, AllocError>
    ensures each { IfOk result (λ lawful. All (λ name. IsName name.now) lawful.items) }
    ensures same { IfOk result (λ lawful. (name : List ℕ) → Contains (texts_in lawful.items) name
        ↔ (Contains (texts_in names.now) name × IsName name)) }
{
    let mut lawful = Vec::new(alloc);
    for name in names {
        if is_name(name) {
            lawful.push(*name)?;
        }
    }
    Ok(lawful)
}

/// Names as texts.
pub(crate) fn texts_of<'a>(alloc: Global, names: &'a [String]) -> Result<Vec<&'a str>, AllocError>
    ensures { IfOk result (λ texts. texts_in texts.items ≡ map string_bytes names.entry.now) }
{
    let mut texts = Vec::with_capacity(alloc, names.len())?;
    for name in names {
        texts.push(name.as_str())?;
    }
    Ok(texts)
}

/// Publishes removals in place of those of an archive with this manifest.
pub(crate) fn put_removals<F: Files>(
    alloc: Global,
    files: &mut F,
    folder: &str,
    manifest: Manifest,
    removals: &Removals,
) -> Result<(), ChangeError>
    requires { manifest.next + 1 < 2 ^ 64 }
    ensures done { OnOk result ((F.view files.new).honest
        → (archive : Archive) (taken : List (List ℕ))
        → IsFoundIn folder.now archive (view_of manifest) (F.view files.old).slots
        → Removes archive.removals taken (length archive.documents) removals.now
        → LeavesAmong folder.now (Some (with_removed archive removals.now) ∷ [])
        (F.view files.new).slots) }
    ensures any_moment { (F.view files.new).honest
        → (archive : Archive) (taken : List (List ℕ))
        → IsFoundIn folder.now archive (view_of manifest) (F.view files.old).slots
        → Removes archive.removals taken (length archive.documents) removals.now
        → LeavesOnly (IsLeftArchive folder.now
        (Some (with_removed archive removals.now) ∷ Some archive ∷ []))
        (F.view files.old) (F.view files.new) }
    ensures changes { ChangesOnly (λ place. place.folder ≡ folder.now) (F.view files.old)
        (F.view files.new) }
    ensures goes_on { GoesOn (F.view files.old) (F.view files.new) }
{
    let file = manifest.next;
    let at = removals_at(alloc, folder, file)?;
    let text = removals.text(alloc)?;
    write_text(files, &at, text.as_bytes())?;
    let line = line_of(file, removals.len(), text.as_bytes());
    let text = text_with_removals(alloc, manifest, line);
    commit(alloc, files, folder, &at, text)
}

/// Writes a new file. After an error it is removed.
fn write_text<F: Files>(files: &mut F, at: &Location, text: &[u8]) -> Result<(), ChangeError>
    ensures kept { OnOk result ((F.view files.new).honest
        → ((F.view files.new).slots (place_of at.now)).now ≡ Kept text.now) }
    ensures changes { ChangesOnly (λ place. place ≡ place_of at.now) (F.view files.old)
        (F.view files.new) }
    ensures goes_on { GoesOn (F.view files.old) (F.view files.new) }
{
    let mut writer = begin_file(files, at)?;
    if put_all(&mut writer, text).is_err() {
        drop_file(files, at);
        return Err(ChangeError::Write);
    }
    end_file(files, at, writer)?;
    Ok(())
}

/// The manifest's line of removals with this text.
fn line_of(file: u64, count: usize, text: &[u8]) -> RemovalsLine
    ensures numbered { result.file ≡ file }
    ensures counted { result.count ≡ count }
    ensures sized { result.bytes ≡ length text.now }
    ensures digested { result.digest ≡ sha256 text.now }
    ensures fit { IsFitLine result }
{
    let digest: [u8; 32] = Sha256::digest(text);
    note_octets(&digest);
    RemovalsLine {
        file,
        count: count as u64,
        bytes: text.len() as u64,
        digest,
    }
}

/// The text of a manifest with other removals.
fn text_with_removals(
    alloc: Global,
    mut manifest: Manifest,
    line: RemovalsLine,
) -> Result<String, AllocError>
    requires { manifest.next + 1 < 2 ^ 64 }
    ensures { IfOk result (λ text. string_bytes text
        ≡ manifest_text (with_removals (view_of manifest) line)) }
{
    manifest.removals = Some(line);
    manifest.next += 1;
    manifest.text(alloc)
}
