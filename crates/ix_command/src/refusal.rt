//! The one line by which the program says why it refused.

use ix_archive::{ArchiveError, ReadError};
use ix_archive_writer::ChangeError;
use ix_ask::{AskError, EngineRefusal, TrustError};
use ix_files::FileError;
use ix_live::LiveError;
use ix_script::{RunError, ScriptError};
use std::alloc::{AllocError, Global};
use std::fmt;

/// Why the program refused, in the area that it is told in. It prints as area, number and name, as
/// in `query 2: Unexpected(2)`.
#[derive(Debug, Drop)]
pub enum Refusal<'a> {
    /// The words of the command line are refused.
    Arguments,
    /// A text breaks a rule, or the engine did not do its work.
    Engine(EngineRefusal),
    /// The file of this path cannot be read.
    Read(&'a str),
    /// The file of this path, which a script names, cannot be read.
    ReadAdded(String),
    /// The file of this path cannot be written; `-` is the standard output.
    Write(&'a str),
    /// The file of this path is not UTF-8.
    NotUtf8(&'a str),
    /// The output of this path is a file that is read.
    Same(&'a str),
    /// Another program has locked the folder of this path, in which runs are to be kept.
    Locked(String),
    /// The text is no script.
    Script(ScriptError),
    /// The live index refused what a script asks for.
    Live(LiveError),
    /// A folder is no archive, or one that is not as it must be, or it was not changed.
    Archive(ArchiveError),
}

impl<'a> Refusal<'a> {
    ghost use Rattle.ix_command.specs.Refusals.{IsUnread, IsUnsaved, TellsLive, TellsStep, TellsTrusting};
    ghost use Rattle.ix_command.specs.Refusals.{TellsUnread, TellsUnsaved};
    ghost use Rattle.ix_command.specs.StoredArchives.{TellsChange, TellsRead};

    /// The error of a file that was not written: `Memory`, or `Write` of its path.
    pub fn unsaved(path: &'a str, error: FileError) -> Refusal<'a>
        ensures unsaved { IsUnsaved path.entry.now result }
        ensures error { TellsUnsaved path.entry.now error result }
    {
        match error {
            FileError::Memory => Refusal::Engine(EngineRefusal::Memory),
            FileError::Failed | FileError::Exists | FileError::Locked => Refusal::Write(path),
        }
    }

    /// The error of a file that was not read: `Memory`, or `Read` of its path.
    pub fn unread(path: &'a str, error: FileError) -> Refusal<'a>
        ensures unread { IsUnread path.entry.now result }
        ensures error { TellsUnread path.entry.now error result }
    {
        match error {
            FileError::Memory => Refusal::Engine(EngineRefusal::Memory),
            FileError::Failed | FileError::Exists | FileError::Locked => Refusal::Read(path),
        }
    }

    /// The error of a question that trusts the index file of this path.
    pub fn of_trusting(path: &'a str, error: TrustError) -> Refusal<'a>
        ensures { TellsTrusting path.entry.now error result }
    {
        match error {
            TrustError::Read => Refusal::Read(path),
            TrustError::Ask(error) => Refusal::from(error),
        }
    }

    /// The error of a call that reads the archive of this path.
    pub fn of_reading(path: &'a str, error: ReadError) -> Refusal<'a>
        ensures { TellsRead path.entry.now error result }
    {
        match error {
            ReadError::Memory => Refusal::Engine(EngineRefusal::Memory),
            ReadError::Read => Refusal::Read(path),
            ReadError::Archive(error) => Refusal::Archive(error),
            ReadError::Query(error) => Refusal::Engine(EngineRefusal::Query(error)),
        }
    }

    /// The error of a call that changes the archive of this path.
    pub fn of_change(path: &'a str, error: ChangeError) -> Refusal<'a>
        ensures { TellsChange path.entry.now error result }
    {
        match error {
            ChangeError::Memory => Refusal::Engine(EngineRefusal::Memory),
            ChangeError::Read => Refusal::Read(path),
            ChangeError::Write => Refusal::Write(path),
            ChangeError::Build(error) => Refusal::Engine(EngineRefusal::Build(error)),
            ChangeError::Archive(error) => Refusal::Archive(error),
        }
    }

    /// The refusal of steps of a script that were stopped; of the paths that a script names it has a
    /// copy.
    pub fn stopped(alloc: Global, error: RunError<'_>) -> Refusal<'a>
        ensures { TellsStep error.entry result }
    {
        match error {
            RunError::Unread(path) => match String::from_str(alloc, path) {
                Ok(path) => Refusal::ReadAdded(path),
                Err(AllocError) => Refusal::Engine(EngineRefusal::Memory),
            },
            RunError::Collection(error) => Refusal::Engine(EngineRefusal::Collection(error)),
            RunError::Live(error) => Refusal::of_live(error),
            RunError::Write => Refusal::Write("-"),
            RunError::Memory => Refusal::Engine(EngineRefusal::Memory),
        }
    }

    /// The refusal of a live index.
    fn of_live(error: LiveError) -> Refusal<'a>
        ensures { TellsLive error result }
    {
        match error {
            LiveError::Build(error) => Refusal::Engine(EngineRefusal::Build(error)),
            error => Refusal::Live(error),
        }
    }
}

impl fmt::Display for Refusal<'_> {
    ghost use Rattle.ix_command.specs.Refusals.{text_of};

    ghost output = { text_of };

    fn fmt<W: fmt::Write>(&self, f: &mut fmt::Formatter<W>) -> fmt::Result {
        match self {
            Refusal::Arguments => write!(f, "arguments refused"),
            Refusal::Engine(refusal) => write!(f, "{refusal}"),
            Refusal::Read(path) => write!(f, "file 1: Read({path})"),
            Refusal::ReadAdded(path) => write!(f, "file 1: Read({path})"),
            Refusal::Write(path) => write!(f, "file 2: Write({path})"),
            Refusal::NotUtf8(path) => write!(f, "file 3: NotUtf8({path})"),
            Refusal::Same(path) => write!(f, "file 4: Same({path})"),
            Refusal::Locked(path) => write!(f, "file 5: Locked({path})"),
            Refusal::Script(error) => write!(f, "script {}: {error}", error.number()),
            Refusal::Live(error) => write!(f, "live {}: {error}", error.number()),
            Refusal::Archive(error) => write!(f, "archive {}: {error}", error.number()),
        }
    }
}

impl From<AskError> for Refusal<'_> {
    ghost use Rattle.ix_command.specs.Refusals.{Tells};

    ghost from_gives = { Tells };

    fn from(error: AskError) -> Self {
        match error {
            AskError::Collection(error) => Refusal::Engine(EngineRefusal::Collection(error)),
            AskError::Query(error) => Refusal::Engine(EngineRefusal::Query(error)),
            AskError::Pattern(error) => Refusal::Engine(EngineRefusal::Pattern(error)),
            AskError::Build(error) => Refusal::Engine(EngineRefusal::Build(error)),
            AskError::Open(error) => Refusal::Engine(EngineRefusal::Index(error)),
            AskError::Write => Refusal::Write("-"),
            AskError::Memory => Refusal::Engine(EngineRefusal::Memory),
        }
    }
}
