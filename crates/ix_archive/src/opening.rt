//! Opening an archive to read it.
ghost use Rattle.std.specs.Prelude.{◌≡◌, ◌≢◌, ℕ, List, [], Some, length, map, false, IfErr, IfOk, MatchResult};
ghost use Rattle.ix_files.specs.Locations.{place_of};
ghost use Rattle.ix_files.specs.Opened.{IsReadError};
ghost use Rattle.ix_folder.specs.FolderNames.{manifest_place};
ghost use Rattle.ix_manifest.specs.ManifestText.{ManifestView, IsManifest, manifest_text, view_of};
ghost use Rattle.ix_removals.specs.RemovalsText.{Removal, removals_text};
ghost use Rattle.ix_archive.specs.Archives.{Archive};
ghost use Rattle.ix_archive.specs.Folders.{removals_place};
ghost use Rattle.ix_archive.specs.Layouts.{IsLaidOut, IsRemovalsFile, IsRemovalsText};
ghost use Rattle.ix_archive.specs.OpenedArchives.{IsOpenedArchive};
ghost use Rattle.ix_archive.specs.declared.read_error.ReadError.TheVariants.{Memory};
ghost use Rattle.ix_archive.specs.Openings.{AreRemovalsAt, AreTexts, IsArchiveOf, IsOutside, IsText};

use crate::places::{manifest_at, removals_at, segment_at};
use crate::{ArchiveError, Opened, ReadError};
use ix_files::{FileError, Files, Location, ReadAt};
use ix_manifest::{Manifest, ManifestError, Removals as RemovalsLine, Segment};
use ix_removals::{Removals, RemovalsError};
use sha2::{Digest, Sha256};
use std::alloc::Global;

/// How often a manifest is read of which a file is missing.
const ATTEMPTS: usize = 8;

/// The line of the manifest behind those of the head.
const FIRST_SEGMENT_LINE: u64 = 3;

/// Opens the archive of a folder to read it. If another program changes it meanwhile, what is opened is as it was before or
/// afterwards.
///
/// # Errors
/// `Memory`; `Read`; `Archive` with `NoManifest`, `Manifest`, `Missing` or `Differs`; or with `Changed` if the manifest was
/// another one each time that one of its files was missing.
pub fn open_archive<F: Files>(
    alloc: Global,
    files: &F,
    path: &str,
) -> Result<Opened<F::Ranges>, ReadError>
    ensures opened { IfOk result (λ opened. (archive : Archive)
        → IsArchiveOf (F.view files.now) path.now archive
        → IsOpenedArchive F.Ranges.contents archive opened) }
    ensures refused { IfErr result (λ error. (archive : Archive)
        → IsArchiveOf (F.view files.now) path.now archive → IsOutside error) }
{
    let folder = files.locate_folder(path)?;
    let mut text = read_manifest(alloc, files, folder.as_str())?;
    for _ in 0..ATTEMPTS {
        let manifest = parse_manifest(alloc, &text)?;
        let error = match open_files(alloc, files, folder.as_str(), manifest) {
            Ok(opened) => return Ok(opened),
            Err(error) => error,
        };
        if !is_missing(error) {
            return Err(error);
        }
        let again = read_manifest(alloc, files, folder.as_str())?;
        if again.as_slice() == text.as_slice() {
            return Err(error);
        }
        text = again;
    }
    Err(ReadError::Archive(ArchiveError::Changed))
}

/// The bytes of the manifest.
fn read_manifest<F: Files>(alloc: Global, files: &F, folder: &str) -> Result<Vec<u8>, ReadError>
    ensures read { IfOk result (λ read. (text : List ℕ)
        → IsText (F.view files.now) (manifest_place folder.now) text → read.items ≡ text) }
    ensures refused { IfErr result (λ error. (text : List ℕ)
        → IsText (F.view files.now) (manifest_place folder.now) text → IsOutside error) }
{
    let at = manifest_at(alloc, folder)?;
    match files.open_at(&at)? {
        Some(source) => Ok(read_whole(alloc, &source)?),
        None => Err(ReadError::Archive(ArchiveError::NoManifest)),
    }
}

/// All bytes of a source.
///
/// # Errors
/// `Memory`; `Failed`.
pub(crate) fn read_whole<S: ReadAt>(alloc: Global, source: &S) -> Result<Vec<u8>, FileError>
    ensures read { IfOk result (λ read. (text : List ℕ)
        → S.contents source.now ≡ Some text → read.items ≡ text) }
    ensures refused { IfErr result (IsReadError (Unit {0})) }
{
    let size = source.size()?;
    let mut bytes = Vec::new(alloc);
    source.append_at(&mut bytes, 0, size)?;
    Ok(bytes)
}

/// The manifest of this text. One without segments is that of no archive.
fn parse_manifest(alloc: Global, text: &[u8]) -> Result<Manifest, ReadError>
    ensures parsed { IfOk result (λ manifest. (view : ManifestView) → IsManifest view
        → text.now ≡ manifest_text view → view_of manifest ≡ view) }
    ensures lawful { IfOk result (λ manifest. IsManifest (view_of manifest)) }
    ensures has_segment { IfOk result (λ manifest. manifest.segments.items ≢ []) }
    ensures refused { IfErr result (λ error. (archive : Archive) (view : ManifestView)
        (texts : List (List ℕ)) (removals_file : _) → IsLaidOut archive view texts removals_file
        → text.now ≡ manifest_text view → IsOutside error) }
{
    match ix_manifest::read(alloc, text) {
        Ok(manifest) if manifest.segments.is_empty() => Err(ReadError::Archive(
            ArchiveError::Manifest(FIRST_SEGMENT_LINE),
        )),
        Ok(manifest) => Ok(manifest),
        Err(ManifestError::Line(line)) => Err(ReadError::Archive(ArchiveError::Manifest(line))),
        Err(ManifestError::Memory) => Err(ReadError::Memory),
    }
}

/// Whether an error is that of a missing file.
fn is_missing(error: ReadError) -> bool
    ensures { IsOutside error → result ≡ false }
{
    matches!(error, ReadError::Archive(ArchiveError::Missing(_)))
}

/// Opens the files of a manifest.
fn open_files<F: Files>(
    alloc: Global,
    files: &F,
    folder: &str,
    manifest: Manifest,
) -> Result<Opened<F::Ranges>, ReadError>
    requires lawful { IsManifest (view_of manifest) }
    requires has_segment { manifest.segments.items ≢ [] }
    ensures opened { IfOk result (λ opened. (archive : Archive) (texts : List (List ℕ))
        (removals_file : _) → IsLaidOut archive (view_of manifest) texts removals_file
        → AreTexts (F.view files.now) folder.now manifest.segments.items texts
        → AreRemovalsAt (F.view files.now) folder.now (length archive.documents)
        archive.removals manifest.removals removals_file
        → IsOpenedArchive F.Ranges.contents archive opened) }
    ensures refused { IfErr result (λ error. (archive : Archive) (texts : List (List ℕ))
        (removals_file : _)
        → AreTexts (F.view files.now) folder.now manifest.segments.items texts
        → AreRemovalsAt (F.view files.now) folder.now (length archive.documents)
        archive.removals manifest.removals removals_file → IsOutside error) }
{
    let removals = match &manifest.removals {
        None => Removals::new(alloc),
        Some(line) => open_removals(alloc, files, folder, line)?,
    };
    let sources = open_segments(alloc, files, folder, &manifest.segments)?;
    Ok(Opened {
        manifest,
        removals,
        sources,
    })
}

/// Opens the files of segments.
fn open_segments<F: Files>(
    alloc: Global,
    files: &F,
    folder: &str,
    segments: &[Segment],
) -> Result<Vec<F::Ranges>, ReadError>
    ensures each { IfOk result (λ sources. length sources.items ≡ length segments.now) }
    ensures told { IfOk result (λ sources. (texts : List (List ℕ))
        → AreTexts (F.view files.now) folder.now segments.now texts
        → map (λ source. F.Ranges.contents source) sources.items
        ≡ map (λ text. Some text) texts) }
    ensures refused { IfErr result (λ error. (texts : List (List ℕ))
        → AreTexts (F.view files.now) folder.now segments.now texts → IsOutside error) }
{
    let mut sources = Vec::new(alloc);
    for segment in segments {
        let at = segment_at(alloc, folder, segment.file)?;
        sources.push(open_file(files, &at, segment.file, segment.bytes)?)?;
    }
    Ok(sources)
}

/// Opens a file that the manifest names. It has this number, and so many bytes.
fn open_file<F: Files>(
    files: &F,
    at: &Location,
    file: u64,
    bytes: u64,
) -> Result<F::Ranges, ReadError>
    ensures told { IfOk result (λ source. (text : List ℕ)
        → IsText (F.view files.now) (place_of at.now) text
        → F.Ranges.contents source ≡ Some text) }
    ensures refused { IfErr result (λ error. (text : List ℕ)
        → IsText (F.view files.now) (place_of at.now) text → bytes ≡ length text
        → IsOutside error) }
{
    let Some(source) = files.open_at(at)? else {
        return Err(ReadError::Archive(ArchiveError::Missing(file)));
    };
    if source.size()? as u64 != bytes {
        return Err(ReadError::Archive(ArchiveError::Differs(file)));
    }
    Ok(source)
}

/// Reads the removals, as the manifest has them.
fn open_removals<F: Files>(
    alloc: Global,
    files: &F,
    folder: &str,
    line: &RemovalsLine,
) -> Result<Removals, ReadError>
    ensures listed { IfOk result (λ read. IsRemovalsText read line.now (removals_text read)) }
    ensures read { IfOk result (λ read. (documents : ℕ) (removals : List Removal)
        (text : List ℕ) → IsText (F.view files.now) (removals_place folder.now line.now.file) text
        → IsRemovalsFile documents removals line.now text → read ≡ removals) }
    ensures refused { IfErr result (λ error. (documents : ℕ) (removals : List Removal)
        (text : List ℕ) → IsText (F.view files.now) (removals_place folder.now line.now.file) text
        → IsRemovalsFile documents removals line.now text → IsOutside error) }
{
    let at = removals_at(alloc, folder, line.file)?;
    let source = open_file(files, &at, line.file, line.bytes)?;
    let text = read_whole(alloc, &source)?;
    parse_removals(alloc, &text, line)
}

/// The removals of a text, which is as the manifest has it.
pub(crate) fn parse_removals(
    alloc: Global,
    text: &[u8],
    line: &RemovalsLine,
) -> Result<Removals, ReadError>
    ensures found { IfOk result (λ read. IsRemovalsText read line.now text.now) }
    ensures exact { (documents : ℕ) (removals : List Removal)
        → IsRemovalsFile documents removals line.now text.now
        → MatchResult result (λ read. read ≡ removals) (λ error. error ≡ Memory) }
{
    if text.len() as u64 != line.bytes || Sha256::digest(text) != line.digest {
        return Err(ReadError::Archive(ArchiveError::Differs(line.file)));
    }
    match ix_removals::read(alloc, text) {
        Ok(removals) if removals.len() as u64 == line.count => Ok(removals),
        Ok(_) | Err(RemovalsError::Line(_)) => {
            Err(ReadError::Archive(ArchiveError::Differs(line.file)))
        }
        Err(RemovalsError::Memory) => Err(ReadError::Memory),
    }
}
