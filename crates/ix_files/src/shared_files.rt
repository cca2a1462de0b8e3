//! Files that threads share.

ghost use Rattle.std.specs.Prelude.{◌≡◌, ℕ, List, None, map, IfErr, IfOk, IfSome, OnOk};
ghost use Rattle.std.specs.Io.KnownBytes.{IsAtEnd};
ghost use Rattle.ix_files.specs.Locations.{place_of};
ghost use Rattle.ix_files.specs.Opened.{IsReadError};
ghost use Rattle.ix_files.specs.Slots.{Place};

use crate::file_error::FileError;
use crate::location::Location;
use std::io::{Read, Write};

/// Files that threads share, each known by its place in a list of names. No other file is reached through them.
pub trait SharedFiles: Drop + Send + Sync {
    /// Reads a file from its front to its end.
    type Reader: Read + Drop + Send;

    /// Writes a file.
    type Writer: Write + Drop + Send;

    // Their names.
    ghost shared: { Self → List Place };

    // The bytes that may come back of the file of this place. It is a promise for as long as the files live.
    ghost back: { Self → ℕ → List ℕ → Type 0 };

    // The file of this place was ended with these bytes.
    ghost kept: { Self → ℕ → List ℕ → Type 0 };

    /// Their names.
    fn names(&self) -> &[Location]
        ensures { map place_of result.now ≡ shared self.now };

    /// Creates the file of a place, or empties the one that is there.
    ///
    /// # Errors
    /// `Memory`; `Failed`, also if there is no such place.
    fn create(&self, place: usize) -> Result<Self::Writer, FileError>
        ensures empty { IfOk result (λ writer. IsAtEnd (Self.Writer.contents writer)) }
        ensures error { IfErr result (IsReadError (Unit {0})) };

    /// Ends the file of a place with what was written.
    ///
    /// # Errors
    /// `Memory`; `Failed`, also if there is no such place.
    fn end(&self, place: usize, writer: Self::Writer) -> Result<(), FileError>
        ensures kept { OnOk result (IfSome (Self.Writer.contents writer) (kept self.now place)) }
        ensures error { IfErr result (IsReadError (Unit {0})) };

    /// A reader of the file of a place.
    ///
    /// # Errors
    /// `Memory`; `Failed`, also if there is no such place, or no file.
    fn open(&self, place: usize) -> Result<Self::Reader, FileError>
        ensures opened { IfOk result (λ reader.
            IfSome (Self.Reader.remaining reader) (back self.now place)) }
        ensures error { IfErr result (IsReadError (Unit {0})) };

    // If a writer does not tell what it holds, nothing is known of files.
    ghost untold: { (files : Self) (place : ℕ) (bytes : List ℕ) (writer : Self.Writer)
        → Self.Writer.contents writer ≡ None → kept files place bytes };
}
