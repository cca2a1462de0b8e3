//! Files by their paths.

ghost use Rattle.std.specs.Prelude.{◌≡◌, ◌≢◌, ◌≤◌, ◌<◌, ℕ, List, [], ◌∷◌, Contains, Some, false, map, option_map, IfErr, IfOk, IfSome, IsErrOf, OnErr, OnOk};
ghost use Rattle.std.specs.String.{string_bytes};
ghost use Rattle.ix_files.specs.Locations.{place_of};
ghost use Rattle.ix_files.specs.Opened.{AreNamesIn, IsFoundAt, IsKindOf, IsOpened, IsReadError};
ghost use Rattle.ix_files.specs.Reading.{AreKnownOf, held_in};
ghost use Rattle.ix_files.specs.Slots.{IsSame, Nothing, Slots, Stops};
ghost use Rattle.ix_files.specs.Steps.{Creates, Overwrites, Removes, Renames, Settles, Shares, Stays, Syncs};
ghost use Rattle.ix_files.specs.Views.{Calls, HasCause, View};
ghost use Rattle.ix_files.specs.declared.file_error.FileError.TheVariants.{Exists, Memory};

use crate::file_error::FileError;
use crate::kind::Kind;
use crate::location::Location;
use crate::read_at::ReadAt;
use crate::shared_files::SharedFiles;
use std::io::{Read, Write};

/// Files by their paths.
///
/// A call that changes something does one step to the files or, if it fails, that step or nothing; `call` says which, and that
/// nothing else changes. The others are answered as the files are. Both hold if the system is honest, in all calls to the end.
/// A file is never changed once it was written: a new one takes its place.
pub trait Files {
    /// Reads what a path leads to, from its front to its end. It is owned, so that threads share nothing by it.
    type Reader: Read + Drop;

    /// A file that is open to be read by ranges, by several threads too.
    type Ranges: ReadAt + Drop + Send + Sync;

    /// Writes a new file, which is locked, or a device or a pipe.
    type Writer: Write + Drop;

    /// A file that was written and synced, and is locked as long as this lives.
    type Held: Drop;

    /// A folder that is locked as long as this lives.
    type Lock: Drop;

    /// Files that threads share.
    type Shared: SharedFiles;

    // what is known of them
    ghost view: { Self → View };

    // The device or the pipe of this path was ended with these bytes.
    ghost sent: { Self → List ℕ → List ℕ → Type 0 };

    // The system did not let this path be looked at or read.
    ghost failed: { Self → List ℕ → Type 0 };

    /// What a path leads to, through links.
    ///
    /// # Errors
    /// `Memory`; `Failed`.
    fn kind(&self, path: &str) -> Result<Kind, FileError>
        ensures kind { IfOk result (λ kind. (view self.now).honest
            → IsKindOf (view self.now) path.now kind) }
        ensures cause { IfErr result (IsReadError (failed self.now path.now)) };

    /// The name that a path leads to, through links; of a link that leads to nothing, the name to which it points.
    ///
    /// # Errors
    /// `Memory`; `Failed`, also if there is no such folder.
    fn locate(&self, path: &str) -> Result<Location, FileError>
        ensures located { IfOk result (λ location. (view self.now).honest
            → place_of location ≡ (view self.now).place path.now) }
        ensures cause { IfErr result (IsReadError (failed self.now path.now)) };

    /// The folder that a path leads to, through links.
    ///
    /// # Errors
    /// `Memory`; `Failed`, also if there is no such folder.
    fn locate_folder(&self, path: &str) -> Result<String, FileError>
        ensures located { IfOk result (λ folder. (view self.now).honest
            → string_bytes folder ≡ (view self.now).folder path.now) }
        ensures cause { IfErr result (IsReadError (failed self.now path.now)) };

    /// Whether two paths lead to one file. One that leads to none leads to no other's.
    ///
    /// # Errors
    /// `Memory`; `Failed`.
    fn is_same(&self, one: &str, other: &str) -> Result<bool, FileError>
        ensures apart { IfOk result (λ same. (view self.now).honest → same ≡ false
            → ((view self.now).slots ((view self.now).place one.now)).now ≢ Nothing
            → (view self.now).place one.now ≢ (view self.now).place other.now) };

    /// A reader of what a path leads to.
    ///
    /// # Errors
    /// `Memory`; `Failed`.
    fn open(&self, path: &str) -> Result<Self::Reader, FileError>
        ensures opened { IfOk result (λ reader. (view self.now).honest
            → IsOpened (view self.now) path.now (Self.Reader.remaining reader)) }
        ensures cause { IfErr result (IsReadError (failed self.now path.now)) };

    /// Opens the file that a path leads to, to be read by ranges.
    ///
    /// # Errors
    /// `Memory`; `Failed`, also if there is none.
    fn open_ranges(&self, path: &str) -> Result<Self::Ranges, FileError>
        ensures opened { IfOk result (λ ranges.
            AreKnownOf (held_in (view self.now) path.now) (Self.Ranges.contents ranges)) }
        ensures cause { IfErr result (IsReadError (failed self.now path.now)) };

    /// Opens the file of a name, to be read by ranges; none if there is none.
    ///
    /// # Errors
    /// `Memory`; `Failed`.
    fn open_at(&self, at: &Location) -> Result<Option<Self::Ranges>, FileError>
        ensures found { IfOk result (λ found. (view self.now).honest
            → IsFoundAt ((view self.now).slots (place_of at.now)).now
            (option_map (λ ranges. Self.Ranges.contents ranges) found)) }
        ensures cause { IfErr result (IsReadError (Unit {0})) };

    /// The names in a folder, in no order.
    ///
    /// # Errors
    /// `Memory`; `Failed`.
    fn list(&self, folder: &str) -> Result<Vec<String>, FileError>
        ensures listed { IfOk result (λ names. (view self.now).honest
            → AreNamesIn folder.now (map string_bytes names.items) (view self.now).slots) }
        ensures cause { IfErr result (IsReadError (Unit {0})) };

    /// Locks a folder.
    ///
    /// # Errors
    /// `Memory`; `Locked` if another program has locked it; `Failed`, also if it cannot be opened.
    fn lock_folder(&self, path: &str) -> Result<Self::Lock, FileError>;

    /// Locks a name, at which an empty file is made if there is none.
    ///
    /// # Errors
    /// `Memory`; `Locked` if another program has locked it; `Failed`.
    fn lock(&mut self, at: &Location) -> Result<Self::Lock, FileError>
        ensures call { Calls (Shares (place_of at.now ∷ [])) (view self.old) (view self.new) }
        ensures cause { HasCause (view self.old) (view self.new) result }
        ensures not_taken { ¬ (IsErrOf result Exists) };

    /// Makes a folder, unless there is one, and puts its name on the disk.
    ///
    /// # Errors
    /// `Memory`; `Failed`, also if the path leads to what is no folder. There may be the folder then.
    fn create_folder(&mut self, path: &str) -> Result<(), FileError>
        ensures call { Calls Stays (view self.old) (view self.new) }
        ensures cause { HasCause (view self.old) (view self.new) result }
        ensures error { IfErr result (IsReadError (Unit {0})) };

    /// Creates a file, which was not there, and locks it.
    ///
    /// # Errors
    /// `Memory`; `Exists` if there is something of that name; also if another program took its place before it was
    /// locked; `Failed`.
    fn create(&mut self, at: &Location) -> Result<Self::Writer, FileError>
        ensures created { IfOk result (λ writer. (view self.new).honest
            → Creates (place_of at.now) (view self.old).slots (view self.new).slots
            × (Self.Writer.contents writer ≡ Some [])) }
        ensures call { Calls (Creates (place_of at.now)) (view self.old) (view self.new) }
        ensures cause { HasCause (view self.old) (view self.new) result }
        ensures taken { (view self.new).honest → IsErrOf result Exists
            → ((view self.new).slots (place_of at.now)).now ≢ Nothing };

    /// Gives a new file the owner, if the system allows it, and the mode of another, if there is one.
    fn dress(&mut self, at: &Location, like: &Location)
        ensures call { Calls Stays (view self.old) (view self.new) };

    /// Puts the bytes of a new file on the disk. It stays locked.
    ///
    /// # Errors
    /// `Failed`. Nothing is known of the file's bytes then.
    fn sync(&mut self, at: &Location, writer: Self::Writer) -> Result<Self::Held, FileError>
        ensures synced { OnOk result ((view self.new).honest
            → Syncs (place_of at.now) (Self.Writer.contents writer) (view self.old).slots
            (view self.new).slots) }
        ensures call { Calls (Syncs (place_of at.now) (Self.Writer.contents writer))
            (view self.old) (view self.new) }
        ensures cause { OnErr result ((view self.new).honest
            → (view self.old).faults < (view self.new).faults) };

    /// Gives a file another name in the same folder, in place of what has it.
    ///
    /// # Errors
    /// `Failed`.
    fn rename(&mut self, from: &Location, to: &Location) -> Result<(), FileError>
        requires { (view self.old).honest → place_of from.now ≢ place_of to.now }
        ensures renamed { OnOk result ((view self.new).honest
            → Renames (place_of from.now) (place_of to.now) (view self.old).slots
            (view self.new).slots) }
        ensures call { Calls (Renames (place_of from.now) (place_of to.now))
            (view self.old) (view self.new) }
        ensures cause { OnErr result ((view self.new).honest
            → (view self.old).faults < (view self.new).faults) };

    /// Removes a file.
    ///
    /// # Errors
    /// `Failed`, also if there is none.
    fn remove(&mut self, at: &Location) -> Result<(), FileError>
        ensures removed { OnOk result ((view self.new).honest
            → Removes (place_of at.now) (view self.old).slots (view self.new).slots) }
        ensures call { Calls (Removes (place_of at.now)) (view self.old) (view self.new) }
        ensures cause { OnErr result ((view self.new).honest
            → ((view self.old).slots (place_of at.now)).now ≢ Nothing
            → (view self.old).faults < (view self.new).faults) };

    /// Removes a file that no other program has locked, and returns whether it did.
    fn remove_unlocked(&mut self, at: &Location) -> bool
        ensures call { Calls (Removes (place_of at.now)) (view self.old) (view self.new) };

    /// Puts all names of a folder on the disk.
    ///
    /// # Errors
    /// `Failed`.
    fn sync_folder(&mut self, folder: &str) -> Result<(), FileError>
        ensures settled { OnOk result ((view self.new).honest
            → Settles folder.now (view self.old).slots (view self.new).slots) }
        ensures call { Calls (Settles folder.now) (view self.old) (view self.new) }
        ensures cause { OnErr result ((view self.new).honest
            → (view self.old).faults < (view self.new).faults) };

    /// Files of these names for threads to share. What is at these names is not known from now on, until it is changed by
    /// another call.
    ///
    /// # Errors
    /// `Memory` if out of memory, and no other: then no file was changed.
    fn share(&mut self, names: Vec<Location>) -> Result<Self::Shared, FileError>
        ensures shared { IfOk result (λ shared.
            Self.Shared.shared shared ≡ map place_of names.items) }
        ensures call { Calls (Shares (map place_of names.items)) (view self.old) (view self.new) }
        ensures unshared { OnErr result ((view self.new).honest
            → IsSame (view self.old).slots (view self.new).slots) }
        ensures error { IfErr result (λ error. error ≡ Memory) };

    /// A writer into the device or the pipe that a path leads to; `-` is the standard output.
    ///
    /// # Errors
    /// `Memory`; `Failed`.
    fn open_stream(&mut self, path: &str) -> Result<Self::Writer, FileError>
        ensures opened { IfOk result (λ writer. (view self.new).honest
            → Self.Writer.contents writer ≡ Some []) }
        ensures call { Calls (Overwrites ((view self.old).place path.now)) (view self.old)
            (view self.new) }
        ensures cause { HasCause (view self.old) (view self.new) result }
        ensures not_taken { ¬ (IsErrOf result Exists) };

    /// Ends a device or a pipe with what was written into it.
    ///
    /// # Errors
    /// `Failed`.
    fn close_stream(&mut self, path: &str, writer: Self::Writer) -> Result<(), FileError>
        ensures sent { OnOk result (IfSome (Self.Writer.contents writer) (sent self.new path.now)) }
        ensures call { Calls Stays (view self.old) (view self.new) };

    // What a stop may leave at this moment is what the names may leave, and a stop after a stop is one.
    ghost counts_now: { (files : Self) (t : ℕ) (left : Slots) → t ≤ (view files).moment
        → Stops (view files).slots left → (view files).left_since t left };

    ghost only_now: { (files : Self) (left : Slots)
        → (view files).left_since (view files).moment left → Stops (view files).slots left };

    ghost stops_again: { (files : Self) (t : ℕ) (left after : Slots)
        → (view files).left_since t left → Stops left after → (view files).left_since t after };
}
