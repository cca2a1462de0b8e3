//! Files of the system that threads share.

ghost use Rattle.std.specs.Prelude.{IfErr, map};
ghost use Rattle.ix_files.specs.Locations.{place_of};
ghost use Rattle.ix_files.specs.Opened.{IsReadError};

use crate::file_error::FileError;
use crate::location::Location;
use crate::shared_files::SharedFiles;
use crate::system_files::fault;
use std::fs::File;
use std::io::{Read, Write};
use std::{io, rt};

/// Files of the system that threads share. Nothing is known of what they hold.
#[derive(Drop)]
pub struct SystemShared<'r, R> {
    pub(crate) rt: &'r R,
    pub(crate) names: Vec<Location>,
}

/// An open file of the system, of whose bytes nothing is known.
#[derive(Drop)]
pub struct SharedFile {
    file: File,
}

impl Read for SharedFile {
    fn read(&mut self, bytes: &mut [u8]) -> io::Result<usize> {
        self.file.read(bytes)
    }
}

impl Write for SharedFile {
    fn write(&mut self, bytes: &[u8]) -> io::Result<usize> {
        self.file.write(bytes)
    }

    fn flush(&mut self) -> io::Result<()> {
        self.file.flush()
    }
}

/// An open file, or why it is none.
fn opened(file: io::Result<File>) -> Result<SharedFile, FileError>
    ensures { IfErr result (IsReadError (Unit {0})) }
{
    match file {
        Ok(file) => Ok(SharedFile { file }),
        Err(error) => Err(fault(&error)),
    }
}

impl<'r, R: rt::Files<File = File> + Sync> SharedFiles for SystemShared<'r, R> {
    type Reader = SharedFile;

    type Writer = SharedFile;

    ghost shared = { λ files. map place_of files.names.items };

    ghost back = { λ _ place bytes. Unit {0} };

    ghost kept = { λ _ place bytes. Unit {0} };

    fn names(&self) -> &[Location] {
        &self.names
    }

    fn create(&self, place: usize) -> Result<SharedFile, FileError> {
        match self.names.get(place) {
            Some(at) => opened(File::create(self.rt, at.path())),
            None => Err(FileError::Failed),
        }
    }

    fn end(&self, _place: usize, mut writer: SharedFile) -> Result<(), FileError> {
        match writer.flush() {
            Ok(()) => Ok(()),
            Err(error) => Err(fault(&error)),
        }
    }

    fn open(&self, place: usize) -> Result<SharedFile, FileError> {
        match self.names.get(place) {
            Some(at) => opened(File::open(self.rt, at.path())),
            None => Err(FileError::Failed),
        }
    }

    ghost untold = { λ files place bytes writer none. tt };
}
