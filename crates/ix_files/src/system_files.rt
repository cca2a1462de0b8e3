//! The files of the system.

ghost use Rattle.std.specs.Prelude.{IfErr, IsErrOf};
ghost use Rattle.ix_files.specs.Opened.{IsReadError};
ghost use Rattle.ix_files.specs.StopLaws.{stops_stops};
ghost use Rattle.ix_files.specs.SystemViews.{nothing_sent, system_view};
ghost use Rattle.ix_files.specs.declared.file_error.FileError.TheVariants.{Exists};

use crate::file_error::FileError;
use crate::files::Files;
use crate::kind::Kind;
use crate::location::{Location, split};
use crate::system_ranges::SystemRanges;
use crate::system_shared::SystemShared;
use std::fs::{File, Metadata, OpenOptions, Permissions, TryLockError};
use std::io::{ErrorKind, Input, Print, Printer, Read, Write};
use std::os::unix::fs::{FileTypeExt, MetadataExt, PermissionsExt, chown};
use std::path::{Path, PathBuf};
use std::{fs, io, rt};

/// The path of the standard input and the standard output.
const STANDARD: &str = "-";

/// How many links a path leads through, at most.
const LINKS: usize = 40;

/// The bits of a mode that say who may read, write and run a file.
const PERMISSIONS: u32 = 0o777;

/// The files of the system. The path `-` is the standard input if it is read, and the standard output if it is written. Nothing is
/// known of what they hold.
#[derive(Drop)]
pub struct SystemFiles<'r, R> {
    /// The runtime that reaches them.
    pub rt: &'r R,
}

/// What two paths of one file have in common.
#[derive(Clone, Copy, PartialEq, Eq)]
struct Identity {
    device: u64,
    inode: u64,
}

impl Identity {
    fn of(metadata: &Metadata) -> Identity {
        Identity {
            device: metadata.dev(),
            inode: metadata.ino(),
        }
    }
}

impl<R: rt::Files<File = File> + AllocGlobal> SystemFiles<'_, R> {
    /// The file that a path leads to, if there is one that can be looked at.
    fn identity(&self, path: &str) -> Option<Identity> {
        if path == STANDARD {
            return None;
        }
        match fs::metadata(self.rt, path) {
            Ok(metadata) => Some(Identity::of(&metadata)),
            Err(_) => None,
        }
    }

    /// Whether the open file has this path, which is no link.
    fn is_at(&self, file: &File, path: &str) -> bool {
        match (file.metadata(), fs::symlink_metadata(self.rt, path)) {
            (Ok(open), Ok(there)) => Identity::of(&open) == Identity::of(&there),
            _ => false,
        }
    }

    /// The path of a folder, without links and dots.
    fn canonical(&self, folder: &str) -> Result<String, FileError>
        ensures { IfErr result (IsReadError (Unit {0})) }
    {
        match fs::canonicalize(self.rt, folder) {
            Ok(path) => Ok(path.into_string()),
            Err(error) => Err(fault(&error)),
        }
    }

    /// The name to which a path points that is no link.
    fn location(&self, path: &str) -> Result<Location, FileError>
        ensures { IfErr result (IsReadError (Unit {0})) }
    {
        let (folder, name) = split(path);
        if matches!(name, "" | "." | "..") {
            return Err(FileError::Failed);
        }
        let folder = self.canonical(folder)?;
        let name = String::from_str(self.rt.alloc(), name)?;
        Ok(Location::new(self.rt.alloc(), folder, name)?)
    }

    /// The path to which a link points, or none if it is no link.
    fn linked(&self, path: &str) -> Result<Option<PathBuf>, FileError>
        ensures { IfErr result (IsReadError (Unit {0})) }
    {
        match fs::read_link(self.rt, path) {
            Ok(target) => {
                let (folder, _) = split(path);
                Ok(Some(Path::new(folder).join(self.rt.alloc(), target)?))
            }
            Err(error) => match error.kind() {
                ErrorKind::InvalidInput | ErrorKind::NotFound => Ok(None),
                _ => Err(fault(&error)),
            },
        }
    }

    /// Whether there is a regular file at a path, through links, and not nothing.
    fn is_regular(&self, path: &str) -> Result<bool, FileError>
        ensures { IfErr result (IsReadError (Unit {0})) }
    {
        match fs::metadata(self.rt, path) {
            Ok(metadata) if metadata.is_file() => Ok(true),
            Ok(_) => Err(FileError::Failed),
            Err(error) if error.kind() == ErrorKind::NotFound => Ok(false),
            Err(error) => Err(fault(&error)),
        }
    }

    /// The file at a path, to be read by ranges; none if there is none.
    fn ranges(&self, path: &str) -> Result<Option<SystemRanges>, FileError>
        ensures { IfErr result (IsReadError (Unit {0})) }
    {
        // To open a pipe waits for its writer.
        if !self.is_regular(path)? {
            return Ok(None);
        }
        match File::open(self.rt, path) {
            Ok(file) => Ok(Some(SystemRanges { file })),
            // It was removed meanwhile.
            Err(error) if error.kind() == ErrorKind::NotFound => Ok(None),
            Err(error) => Err(fault(&error)),
        }
    }

    /// Puts all names of a folder on the disk.
    fn sync_names(&self, folder: &str) -> Result<(), FileError>
        ensures { IfErr result (IsReadError (Unit {0})) }
    {
        match File::open(self.rt, folder) {
            Ok(folder) => done(folder.sync_all()),
            Err(_) => Err(FileError::Failed),
        }
    }

    /// Removes a regular file that no other program has locked, and returns whether it did.
    fn remove_if_unlocked(&self, path: &str) -> bool {
        match fs::symlink_metadata(self.rt, path) {
            Ok(metadata) if metadata.is_file() => {}
            _ => return false,
        }
        let Ok(file) = fs::File::open(self.rt, path) else {
            return false;
        };
        // The path may lead to another file by now, which is not locked.
        file.try_lock().is_ok() && self.is_at(&file, path) && fs::remove_file(self.rt, path).is_ok()
    }
}

impl<'r, R> Files for SystemFiles<'r, R>
where
    R: rt::Files<File = File> + Input + Print + AllocGlobal + Sync,
{
    type Reader = SystemReader<R::Reader>;

    type Ranges = SystemRanges;

    type Writer = SystemWriter<'r, R>;

    type Held = File;

    type Lock = File;

    type Shared = SystemShared<'r, R>;

    ghost view = { λ _. system_view };

    ghost sent = { λ _. nothing_sent };

    ghost failed = { λ _ path. Unit {0} };

    fn kind(&self, path: &str) -> Result<Kind, FileError> {
        if path == STANDARD {
            return Ok(Kind::Stream);
        }
        match fs::metadata(self.rt, path) {
            Ok(metadata) => Ok(kind_of(&metadata)),
            Err(error) if error.kind() == ErrorKind::NotFound => Ok(Kind::Missing),
            Err(error) => Err(fault(&error)),
        }
    }

    fn locate(&self, path: &str) -> Result<Location, FileError> {
        let mut path = PathBuf::from_str(self.rt.alloc(), path)?;
        for _ in 0..=LINKS {
            match self.linked(path.as_str())? {
                Some(target) => path = target,
                None => return self.location(path.as_str()),
            }
        }
        Err(FileError::Failed)
    }

    fn locate_folder(&self, path: &str) -> Result<String, FileError> {
        self.canonical(path)
    }

    fn is_same(&self, one: &str, other: &str) -> Result<bool, FileError> {
        let one = self.identity(one);
        Ok(one.is_some() && one == self.identity(other))
    }

    fn open(&self, path: &str) -> Result<SystemReader<R::Reader>, FileError> {
        if path == STANDARD {
            return Ok(SystemReader::Input(self.rt.reader()));
        }
        match File::open(self.rt, path) {
            Ok(file) => Ok(SystemReader::File(file)),
            Err(error) => Err(fault(&error)),
        }
    }

    fn open_ranges(&self, path: &str) -> Result<SystemRanges, FileError> {
        match self.ranges(path)? {
            Some(ranges) => Ok(ranges),
            None => Err(FileError::Failed),
        }
    }

    fn open_at(&self, at: &Location) -> Result<Option<SystemRanges>, FileError> {
        self.ranges(at.path())
    }

    fn list(&self, folder: &str) -> Result<Vec<String>, FileError> {
        let entries = match fs::read_dir(&self.rt, folder) {
            Ok(entries) => entries,
            Err(error) => return Err(fault(&error)),
        };
        let mut names = Vec::new(self.rt.alloc());
        for entry in entries {
            match entry {
                Ok(entry) => {
                    let name = String::from_str(self.rt.alloc(), entry.file_name())?;
                    if names.push(name).is_err() {
                        return Err(FileError::Memory);
                    }
                }
                // No name of the program has bytes that are not UTF-8.
                Err(error) if error.kind() == ErrorKind::InvalidFilename => {}
                Err(error) => return Err(fault(&error)),
            }
        }
        Ok(names)
    }

    fn lock_folder(&self, path: &str) -> Result<File, FileError> {
        locked(opened(File::open(self.rt, path))?)
    }

    fn lock(&mut self, at: &Location) -> Result<File, FileError> {
        // To open a pipe waits for its reader.
        let _is_there = self.is_regular(at.path())?;
        let mut options = OpenOptions::new();
        options.write(true).create(true);
        locked(opened(options.open(self.rt, at.path()))?)
    }

    fn create_folder(&mut self, path: &str) -> Result<(), FileError> {
        match fs::create_dir(self.rt, path) {
            Ok(()) => {}
            Err(error) if error.kind() == ErrorKind::AlreadyExists => {}
            Err(error) => return Err(fault(&error)),
        }
        match fs::metadata(self.rt, path) {
            Ok(metadata) if metadata.is_dir() => {}
            Ok(_) => return Err(FileError::Failed),
            Err(error) => return Err(fault(&error)),
        }
        // A link may lead to it.
        let folder = self.canonical(path)?;
        let (above, _) = split(folder.as_str());
        self.sync_names(above)
    }

    fn create(&mut self, at: &Location) -> Result<SystemWriter<'r, R>, FileError> {
        let path = at.path();
        let file = match OpenOptions::new()
            .write(true)
            .create_new(true)
            .open(self.rt, &path)
        {
            Ok(file) => file,
            Err(error) if error.kind() == ErrorKind::AlreadyExists => return Err(FileError::Exists),
            Err(error) => return Err(fault(&error)),
        };
        match file.try_lock() {
            // Another program took it for one that was left there, and removes it.
            Err(TryLockError::WouldBlock) => Err(FileError::Exists),
            // It has removed it before the lock, and there may be another file.
            Ok(()) if !self.is_at(&file, &path) => Err(FileError::Exists),
            // There are file systems without locks.
            _ => Ok(SystemWriter::File(file)),
        }
    }

    fn dress(&mut self, at: &Location, like: &Location) {
        let (path, like) = (at.path(), like.path());
        let Ok(metadata) = fs::metadata(self.rt, &like) else {
            return;
        };
        let (user, group) = (metadata.uid(), metadata.gid());
        if chown(self.rt, &path, Some(user), Some(group)).is_err() {
            let _changed = chown(self.rt, &path, None, Some(group));
        }
        // The mode comes last: a change of the owner may take bits of it away.
        let permissions = Permissions::from_mode(metadata.mode() & PERMISSIONS);
        let _changed = fs::set_permissions(self.rt, &path, permissions);
    }

    fn sync(&mut self, _at: &Location, writer: SystemWriter<'r, R>) -> Result<File, FileError> {
        let SystemWriter::File(file) = writer else {
            return Err(FileError::Failed);
        };
        match file.sync_all() {
            Ok(()) => Ok(file),
            Err(_) => Err(FileError::Failed),
        }
    }

    fn rename(&mut self, from: &Location, to: &Location) -> Result<(), FileError> {
        done(fs::rename(self.rt, from.path(), to.path()))
    }

    fn remove(&mut self, at: &Location) -> Result<(), FileError> {
        done(fs::remove_file(self.rt, at.path()))
    }

    fn remove_unlocked(&mut self, at: &Location) -> bool {
        self.remove_if_unlocked(at.path())
    }

    fn sync_folder(&mut self, folder: &str) -> Result<(), FileError> {
        self.sync_names(folder)
    }

    fn share(&mut self, names: Vec<Location>) -> Result<SystemShared<'r, R>, FileError> {
        Ok(SystemShared { rt: self.rt, names })
    }

    fn open_stream(&mut self, path: &str) -> Result<SystemWriter<'r, R>, FileError> {
        if path == STANDARD {
            return Ok(SystemWriter::Output(io::writer(self.rt)));
        }
        let file = opened(OpenOptions::new().write(true).open(self.rt, path))?;
        Ok(SystemWriter::File(file))
    }

    fn close_stream(
        &mut self,
        _path: &str,
        mut writer: SystemWriter<'r, R>,
    ) -> Result<(), FileError> {
        done(writer.flush())
    }

    ghost counts_now = { λ files t left early stops. stops };

    ghost only_now = { λ files left stops. stops };

    ghost stops_again = { λ files t left after stops again. stops_stops stops again };
}

/// An open file of the system, or the standard input.
#[derive(Drop)]
pub enum SystemReader<I> {
    /// A file.
    File(File),
    /// The standard input.
    Input(I),
}

impl<I: Read> Read for SystemReader<I> {
    fn read(&mut self, bytes: &mut [u8]) -> io::Result<usize> {
        match self {
            SystemReader::File(file) => file.read(bytes),
            SystemReader::Input(input) => input.read(bytes),
        }
    }
}

/// A file of the system that is written, a device or a pipe, or the standard output.
#[derive(Drop)]
pub enum SystemWriter<'r, R> {
    /// A file, a device or a pipe.
    File(File),
    /// The standard output.
    Output(Printer<'r, R>),
}

impl<R: Print> Write for SystemWriter<'_, R> {
    fn write(&mut self, bytes: &[u8]) -> io::Result<usize> {
        match self {
            SystemWriter::File(file) => file.write(bytes),
            SystemWriter::Output(output) => output.write(bytes),
        }
    }

    fn flush(&mut self) -> io::Result<()> {
        match self {
            SystemWriter::File(file) => file.flush(),
            SystemWriter::Output(output) => output.flush(),
        }
    }
}

/// What an error of the system is to a caller.
pub(crate) fn fault(error: &io::Error) -> FileError
    ensures { IsReadError (Unit {0}) result }
{
    if error.kind() == ErrorKind::OutOfMemory {
        FileError::Memory
    } else {
        FileError::Failed
    }
}

/// An open file, or why it is none.
fn opened(file: io::Result<File>) -> Result<File, FileError>
    ensures { IfErr result (IsReadError (Unit {0})) }
{
    match file {
        Ok(file) => Ok(file),
        Err(error) => Err(fault(&error)),
    }
}

/// A file or a folder that is locked now.
fn locked(file: File) -> Result<File, FileError>
    ensures { ¬ (IsErrOf result Exists) }
{
    match file.try_lock() {
        Err(TryLockError::WouldBlock) => Err(FileError::Locked),
        // There are file systems without locks.
        _ => Ok(file),
    }
}

/// Whether a call of the system did what it was to do, which takes no memory of the program.
fn done(outcome: io::Result<()>) -> Result<(), FileError>
    ensures { IfErr result (IsReadError (Unit {0})) }
{
    match outcome {
        Ok(()) => Ok(()),
        Err(_) => Err(FileError::Failed),
    }
}

/// What the system says that it is.
fn kind_of(metadata: &Metadata) -> Kind {
    let kind = metadata.file_type();
    if kind.is_file() {
        Kind::File
    } else if kind.is_dir() {
        Kind::Folder
    } else if kind.is_fifo() || kind.is_char_device() || kind.is_block_device() {
        Kind::Stream
    } else {
        Kind::Other
    }
}
