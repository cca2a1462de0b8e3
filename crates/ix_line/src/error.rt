//! Why the words are no line.
ghost use Rattle.std.specs.Prelude.{◌≡◌, ◌↔◌, IsSome, IfSome};
ghost use Rattle.ix_line.specs.LineErrors.{IsHelp, SortsError, number_of};
ghost use Rattle.ix_line.specs.declared.error.LineError.TheVariants as line_error;

use clap::error::ErrorKind;
use std::alloc::AllocError;
use thiserror::Error;

/// Why the words are no line.
#[derive(Debug, Drop, Error)]
pub enum LineError {
    /// `clap` refuses the words, or they ask for help.
    #[error("Clap({:?})", .0.kind())]
    Clap(clap::Error),
    /// Memory ran out.
    #[error("Memory")]
    Memory,
    /// `--block` is given together with `--bytes`.
    #[error("Both")]
    Both,
    /// A name to be removed is given together with `--names`, or neither is given.
    #[error("NamesOrList")]
    NamesOrList,
}

impl LineError {
    /// The number of the error, from 1.
    pub fn number(&self) -> u8
        ensures { result ≡ number_of self.now }
    {
        match self {
            LineError::Clap(_) => 1,
            LineError::Memory => 2,
            LineError::Both => 3,
            LineError::NamesOrList => 4,
        }
    }

    /// The help that the words ask for: its `Display` is the text, and ends with a line end.
    pub fn help(&self) -> Option<&clap::Error>
        ensures asked { IsSome result ↔ IsHelp self.now }
        ensures text { IfSome result (λ e. self.now ≡ line_error.Clap e.now) }
    {
        match self {
            LineError::Clap(error) if error.kind() == ErrorKind::DisplayHelp => Some(error),
            _ => None,
        }
    }
}

impl From<clap::Error> for LineError {
    ghost from_gives = { λ e r. SortsError e r };

    fn from(error: clap::Error) -> LineError {
        if error.kind() == ErrorKind::OutOfMemory {
            LineError::Memory
        } else {
            LineError::Clap(error)
        }
    }
}

impl From<AllocError> for LineError {
    ghost from_gives = { λ _ r. r ≡ line_error.Memory };

    fn from(_error: AllocError) -> LineError {
        LineError::Memory
    }
}
