//! Files in memory.

ghost use Rattle.std.specs.Prelude.{◌≡◌, ◌≢◌, [], ◌∷◌, Some, IfErr, IfOk, IfSome, OnErr, OnOk};
ghost use Rattle.std.specs.Io.Cursor.{cursor_remaining};
ghost use Rattle.ix_files.specs.Locations.{place_of};
ghost use Rattle.ix_files.specs.MemoryViews.{folder_of};
ghost use Rattle.ix_files.specs.Opened.{IsReadError};
ghost use Rattle.ix_files.specs.Steps.{Removes, Renames, Settles, Shares, Syncs};

use crate::file_error::FileError;
use crate::files::Files;
use crate::kind::Kind;
use crate::location::Location;
use crate::memory_changes::{Change, Found, again, found_at, names_in};
use crate::memory_ranges::MemoryRanges;
use crate::memory_shared::{Failures, MemoryShared};
use crate::memory_writer::MemoryWriter;
use once_cell::race::OnceBox;
use std::alloc::{AllocError, Global};
use std::io::Cursor;
use std::sync::Arc;
use std::sync::atomic::{AtomicUsize, Ordering};

/// Files in memory, of which all that [`Files`] promises is proved. Tests fill them, read them, and let a call fail. A
/// file that is being written is locked until it is synced.
///
/// The path of a file is its name in the folder `.`, and may have a `/`. The path of another folder is any text without
/// a `/`: such a folder is empty at first, and its files are reached by their locations, not by paths. A folder that was
/// created is one that [`Files::kind`] knows, and is in no list of names. A name that is locked may be locked again.
#[derive(Drop)]
pub struct MemoryFiles {
    alloc: Global,
    // the latest first
    changes: Vec<Change>,
    faults: u64,
    streams: Vec<Stream>,
    // the paths of those that were created
    folders: Vec<String>,
    room: usize,
    failures: Failures,
}

/// The folder to which a path of one leads.
fn folder_at(path: &str) -> &str
    ensures { result.now ≡ folder_of path.now }
{
    if path == "." { "" } else { path }
}

/// A device or a pipe: its path, and what it gives or was given last.
#[derive(Drop)]
struct Stream {
    path: String,
    bytes: Vec<u8>,
}

impl MemoryFiles {
    ghost use Rattle.ix_files.specs.MemoryChanges.{entry_of};
    ghost use Rattle.ix_files.specs.MemoryViews.{IsFault, IsMade, IsStep, memory_view, place_at};
    ghost use Rattle.ix_files.specs.Slots.{IsSame, Kept};
    ghost use Rattle.ix_files.specs.SystemViews.{no_files};
    ghost use Rattle.ix_files.specs.declared.file_error.FileError.TheVariants.{Failed};

    /// No files.
    pub fn new(alloc: Global) -> Result<MemoryFiles, AllocError>
        ensures honest { IfOk result (λ files. (memory_view files).honest) }
        ensures empty { IfOk result (λ files. IsSame no_files (memory_view files).slots) }
    {
        let calls = Arc::new(alloc, AtomicUsize::new(0))?;
        Ok(MemoryFiles {
            alloc,
            changes: Vec::new(alloc),
            faults: 0,
            streams: Vec::new(alloc),
            folders: Vec::new(alloc),
            room: usize::MAX,
            failures: Failures {
                calls,
                failing: 0,
                starved: false,
            },
        })
    }

    /// Puts a file with these bytes at a path, on the disk.
    pub fn put(&mut self, path: &str, bytes: &[u8]) -> Result<(), AllocError>
        ensures { OnOk result (((memory_view self.new).slots (place_at path.now)).now
            ≡ Kept bytes.now) }
    {
        self.put_at("", path, bytes)
    }

    /// Puts a file with these bytes at a name in a folder, on the disk.
    pub fn put_at(&mut self, folder: &str, name: &str, bytes: &[u8]) -> Result<(), AllocError>
        ensures { OnOk result (((memory_view self.new).slots
            (record { folder = folder.now; name = name.now })).now ≡ Kept bytes.now) }
    {
        let at = self.location(folder, name)?;
        let bytes = Vec::from_slice(self.alloc, bytes)?;
        self.changes.insert(0, Change::Synced(at, bytes))?;
        Ok(())
    }

    /// Puts a device or a pipe at a path, which gives these bytes.
    pub fn put_stream(&mut self, path: &str, bytes: &[u8]) -> Result<(), AllocError>
        ensures { IsSame (memory_view self.old).slots (memory_view self.new).slots }
    {
        let path = String::from_str(self.alloc, path)?;
        let bytes = Vec::from_slice(self.alloc, bytes)?;
        self.streams.push(Stream { path, bytes })?;
        Ok(())
    }

    /// From now on each writer takes at most this many bytes.
    pub fn set_room(&mut self, room: usize)
        ensures { IsSame (memory_view self.old).slots (memory_view self.new).slots }
    {
        self.room = room;
    }

    /// Of the calls from now on, lets that of this number fail, counted from 1; none, if it is 0. If it opens a file or looks at
    /// one, and `starved`, it is out of memory.
    pub fn fail_at(&mut self, number: usize, starved: bool)
        ensures { IsSame (memory_view self.old).slots (memory_view self.new).slots }
    {
        self.failures.calls.store(0, Ordering::SeqCst);
        self.failures.failing = number;
        self.failures.starved = starved;
    }

    /// How many calls there were since it was said which is to fail.
    pub fn calls(&self) -> usize {
        self.failures.calls.load(Ordering::SeqCst)
    }

    /// The bytes of the file at a path, if there is one that nobody writes.
    pub fn bytes(&self, path: &str) -> Option<&[u8]>
        ensures { IfSome result (λ bytes. ((memory_view self.now).slots (place_at path.now)).now
            ≡ Kept bytes.now) }
    {
        self.bytes_at("", path)
    }

    /// The bytes of the file at a name in a folder, if there is one that nobody writes.
    pub fn bytes_at(&self, folder: &str, name: &str) -> Option<&[u8]>
        ensures { IfSome result (λ bytes. ((memory_view self.now).slots
            (record { folder = folder.now; name = name.now })).now ≡ Kept bytes.now) }
    {
        match found_at(&self.changes, folder, name) {
            Found::Kept(bytes) => Some(bytes),
            Found::Nothing | Found::Growing => None,
        }
    }

    /// What the device or the pipe at a path gives, or was given last.
    pub fn stream_bytes(&self, path: &str) -> Option<&[u8]> {
        for stream in self.streams.iter() {
            if stream.path.as_str() == path {
                return Some(&stream.bytes);
            }
        }
        None
    }

    /// The name in a folder.
    fn location(&self, folder: &str, name: &str) -> Result<Location, AllocError>
        ensures { IfOk result (λ location.
            place_of location ≡ record { folder = folder.now; name = name.now }) }
    {
        let folder = String::from_str(self.alloc, folder)?;
        let name = String::from_str(self.alloc, name)?;
        let location = Location::new(self.alloc, folder, name)?;
        Ok(location)
    }

    /// Whether a folder was created at a path.
    fn has_folder(&self, path: &str) -> bool {
        self.folders.iter().any(|folder| folder.as_str() == path)
    }

    /// What is read by ranges of a file with these bytes.
    fn ranges(&self, bytes: &[u8]) -> Result<MemoryRanges, AllocError>
        ensures { IfOk result (λ ranges. ranges.bytes.items ≡ bytes.now) }
    {
        Ok(MemoryRanges {
            bytes: Vec::from_slice(self.alloc, bytes)?,
            failures: self.failures.try_clone()?,
        })
    }

    /// What is at a name.
    fn found(&self, at: &Location) -> Found<'_>
        ensures { entry_of result ≡ ((memory_view self.now).slots (place_of at.now)).now }
    {
        found_at(&self.changes, at.folder(), at.name())
    }

    /// What a path leads to, unless the call is to fail.
    fn look(&self, path: &str) -> Result<Found<'_>, FileError>
        ensures found { IfOk result (λ found. entry_of found
            ≡ ((memory_view self.now).slots (place_at path.now)).now) }
        ensures cause { IfErr result (IsReadError (Unit {0})) }
    {
        self.failures.pass()?;
        Ok(found_at(&self.changes, "", path))
    }

    /// A reader of these bytes.
    fn reader(&self, bytes: &[u8]) -> Result<Cursor<Vec<u8>>, FileError>
        ensures opened { IfOk result (λ reader.
            cursor_remaining (λ bytes. Some bytes.items) reader ≡ Some bytes.now) }
        ensures cause { IfErr result (IsReadError (Unit {0})) }
    {
        let bytes = Vec::from_slice(self.alloc, bytes)?;
        Ok(Cursor::new(bytes))
    }

    /// Counts a fault.
    fn fail(&mut self) -> FileError
        ensures fault { IsFault self.old self.new }
        ensures failed { result ≡ Failed }
    {
        self.faults = self.faults.saturating_add(1);
        FileError::Failed
    }

    /// Counts a call that changes nothing, and a fault if it is to fail.
    fn pass(&mut self) -> Result<(), FileError>
        ensures stays { OnOk result (self.new ≡ self.old) }
        ensures fault { OnErr result (IsFault self.old self.new) }
        ensures failed { IfErr result (λ error. error ≡ Failed) }
    {
        if self.failures.is_next() {
            return Err(self.fail());
        }
        Ok(())
    }

    /// Makes a change, if there is one and the call is not to fail.
    fn make(&mut self, change: Option<Change>) -> Result<(), FileError>
        ensures made { IsMade change result self.old self.new }
        ensures failed { IfErr result (λ error. error ≡ Failed) }
    {
        let Some(change) = change else {
            return Err(self.fail());
        };
        if self.failures.is_next() || self.changes.insert(0, change).is_err() {
            return Err(self.fail());
        }
        Ok(())
    }

    /// The sync of a file with these bytes, if there is memory.
    fn sync_of(&self, at: &Location, bytes: Vec<u8>) -> Option<Change>
        ensures { IsStep (Syncs (place_of at.now) (Some bytes.items)) self.now result }
    {
        let at = again(self.alloc, at).ok()?;
        Some(Change::Synced(at, bytes))
    }

    /// The making of an empty file.
    fn locking_of(&self, at: &Location) -> Result<Change, AllocError>
        ensures { IfOk result
            (λ change. IsStep (Shares (place_of at.now ∷ [])) self.now (Some change)) }
    {
        let at = again(self.alloc, at)?;
        Ok(Change::Synced(at, Vec::new(self.alloc)))
    }

    /// The renaming of a file, if there is one that nobody writes, and memory.
    fn renaming_of(&self, from: &Location, to: &Location) -> Option<Change>
        requires { (memory_view self.now).honest → place_of from.now ≢ place_of to.now }
        ensures { IsStep (Renames (place_of from.now) (place_of to.now)) self.now result }
    {
        let Found::Kept(bytes) = self.found(from) else {
            return None;
        };
        let bytes = Vec::from_slice(self.alloc, bytes).ok()?;
        let from = again(self.alloc, from).ok()?;
        let to = again(self.alloc, to).ok()?;
        Some(Change::Renamed(from, to, bytes))
    }

    /// The removal of a file, if there is one, and memory.
    fn removal_of(&self, at: &Location) -> Option<Change>
        ensures { IsStep (Removes (place_of at.now)) self.now result }
    {
        if matches!(self.found(at), Found::Nothing) {
            return None;
        }
        let at = again(self.alloc, at).ok()?;
        Some(Change::Removed(at))
    }

    /// The sync of a folder, if there is memory.
    fn folder_sync_of(&self, folder: &str) -> Option<Change>
        ensures { IsStep (Settles folder.now) self.now result }
    {
        let folder = String::from_str(self.alloc, folder).ok()?;
        Some(Change::Settled(folder))
    }
}

impl Files for MemoryFiles {
    ghost use Rattle.ix_files.specs.MemoryLaws.{now_counts, now_only, stop_again};
    ghost use Rattle.ix_files.specs.MemoryViews.{memory_view};
    ghost use Rattle.ix_files.specs.SystemViews.{nothing_sent};

    type Reader = Cursor<Vec<u8>>;

    type Ranges = MemoryRanges;

    type Writer = MemoryWriter;

    type Held = ();

    type Lock = ();

    type Shared = MemoryShared;

    ghost view = { memory_view };

    ghost sent = { λ _. nothing_sent };

    ghost failed = { λ _ path. Unit {0} };

    fn kind(&self, path: &str) -> Result<Kind, FileError> {
        match self.look(path)? {
            Found::Growing | Found::Kept(_) => Ok(Kind::File),
            Found::Nothing => match self.stream_bytes(path) {
                Some(_) => Ok(Kind::Stream),
                None if self.has_folder(path) => Ok(Kind::Folder),
                None => Ok(Kind::Missing),
            },
        }
    }

    fn locate(&self, path: &str) -> Result<Location, FileError> {
        if self.failures.is_next() {
            return Err(FileError::Failed);
        }
        Ok(self.location("", path)?)
    }

    fn locate_folder(&self, path: &str) -> Result<String, FileError> {
        self.failures.pass()?;
        if path.contains('/') {
            return Err(FileError::Failed);
        }
        Ok(String::from_str(self.alloc, folder_at(path))?)
    }

    fn is_same(&self, one: &str, other: &str) -> Result<bool, FileError> {
        match self.look(one)? {
            Found::Nothing => Ok(false),
            Found::Growing | Found::Kept(_) => Ok(one == other),
        }
    }

    fn open(&self, path: &str) -> Result<Cursor<Vec<u8>>, FileError> {
        match self.look(path)? {
            Found::Kept(bytes) => self.reader(bytes),
            Found::Growing => Err(FileError::Failed),
            Found::Nothing => match self.stream_bytes(path) {
                Some(bytes) => self.reader(bytes),
                None => Err(FileError::Failed),
            },
        }
    }

    fn open_ranges(&self, path: &str) -> Result<MemoryRanges, FileError> {
        match self.look(path)? {
            Found::Kept(bytes) => Ok(self.ranges(bytes)?),
            Found::Growing | Found::Nothing => Err(FileError::Failed),
        }
    }

    fn open_at(&self, at: &Location) -> Result<Option<MemoryRanges>, FileError> {
        self.failures.pass()?;
        match self.found(at) {
            Found::Kept(bytes) => Ok(Some(self.ranges(bytes)?)),
            Found::Growing => Err(FileError::Failed),
            Found::Nothing => Ok(None),
        }
    }

    fn list(&self, folder: &str) -> Result<Vec<String>, FileError> {
        self.failures.pass()?;
        Ok(names_in(self.alloc, &self.changes, folder)?)
    }

    fn lock_folder(&self, _path: &str) -> Result<(), FileError> {
        if self.failures.is_next() {
            return Err(FileError::Failed);
        }
        Ok(())
    }

    fn lock(&mut self, at: &Location) -> Result<(), FileError> {
        if !matches!(self.found(at), Found::Nothing) {
            return self.pass();
        }
        let change = self.locking_of(at)?;
        self.make(Some(change))
    }

    fn create_folder(&mut self, path: &str) -> Result<(), FileError> {
        let is_free = matches!(found_at(&self.changes, "", path), Found::Nothing);
        if path.contains('/') || !is_free {
            return Err(self.fail());
        }
        self.pass()?;
        if !self.has_folder(path) {
            let path = String::from_str(self.alloc, path)?;
            if self.folders.push(path).is_err() {
                return Err(FileError::Memory);
            }
        }
        Ok(())
    }

    fn create(&mut self, at: &Location) -> Result<MemoryWriter, FileError> {
        if !matches!(self.found(at), Found::Nothing) {
            return Err(FileError::Exists);
        }
        let at = again(self.alloc, at)?;
        self.make(Some(Change::Created(at)))?;
        Ok(MemoryWriter::new(self.alloc, self.room))
    }

    fn dress(&mut self, _at: &Location, _like: &Location) {}

    fn sync(&mut self, at: &Location, writer: MemoryWriter) -> Result<(), FileError> {
        let change = self.sync_of(at, writer.bytes);
        self.make(change)
    }

    fn rename(&mut self, from: &Location, to: &Location) -> Result<(), FileError> {
        let change = self.renaming_of(from, to);
        self.make(change)
    }

    fn remove(&mut self, at: &Location) -> Result<(), FileError> {
        let change = self.removal_of(at);
        self.make(change)
    }

    fn remove_unlocked(&mut self, at: &Location) -> bool {
        if !matches!(self.found(at), Found::Kept(_)) {
            return false;
        }
        let change = self.removal_of(at);
        self.make(change).is_ok()
    }

    fn sync_folder(&mut self, folder: &str) -> Result<(), FileError> {
        let change = self.folder_sync_of(folder);
        self.make(change)
    }

    fn share(&mut self, names: Vec<Location>) -> Result<MemoryShared, FileError> {
        let mut files = Vec::new(self.alloc);
        for _ in 0..names.len() {
            if files.push(OnceBox::new(self.alloc)).is_err() {
                return Err(FileError::Memory);
            }
        }
        let failures = self.failures.try_clone()?;
        Ok(MemoryShared {
            alloc: self.alloc,
            names,
            files,
            failures,
            room: self.room,
        })
    }

    fn open_stream(&mut self, path: &str) -> Result<MemoryWriter, FileError> {
        if self.failures.is_next() || self.stream_bytes(path).is_none() {
            return Err(self.fail());
        }
        Ok(MemoryWriter::new(self.alloc, self.room))
    }

    fn close_stream(&mut self, path: &str, writer: MemoryWriter) -> Result<(), FileError> {
        if self.failures.is_next() {
            return Err(self.fail());
        }
        for stream in self.streams.iter_mut() {
            if stream.path.as_str() == path {
                stream.bytes = writer.bytes;
                return Ok(());
            }
        }
        Err(self.fail())
    }

    ghost counts_now = { λ files t left early stops. now_counts files.changes.items t left stops };

    ghost only_now = { λ files left stops. now_only files.changes.items left stops };

    ghost stops_again = { λ files t left after stops again. stop_again files.changes.items t left after stops again };
}
