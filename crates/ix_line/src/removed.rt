//! Which documents a line removes.
ghost use Rattle.std.specs.Prelude.{IfErr, IfOk, codes};
ghost use Rattle.clap.specs.Words.{found_of, rows_of};
ghost use Rattle.ix_line.specs.Lines.{HasRemoved, RefusesRows};

use crate::error::LineError;
use crate::fields::{option, several};
use clap::ArgMatches;
use std::alloc::Global;

/// The names whose documents are removed.
#[derive(Debug, Drop)]
pub enum Removed<'a> {
    /// These names; there is one.
    Names(Vec<&'a str>),
    /// The names in this file, one a line.
    List(&'a str),
}

/// The names that the words give, or the file of the option `--names`.
///
/// # Errors
/// `NamesOrList` if the words give both or neither, and `Memory` if memory ran out.
pub fn read_removed<'a>(alloc: Global, matches: &ArgMatches<'a>) -> Result<Removed<'a>, LineError>
    ensures removed { IfOk result (HasRemoved (rows_of (found_of matches.now))) }
    ensures refused { IfErr result (RefusesRows (codes "remove") (rows_of (found_of matches.now))) }
{
    match (several(matches, "NAME"), option(matches, "names")) {
        (Some(names), None) => Ok(Removed::Names(Vec::from_slice(alloc, names)?)),
        (None, Some(path)) => Ok(Removed::List(path)),
        (Some(_), Some(_)) => Err(LineError::NamesOrList),
        (None, None) => Err(LineError::NamesOrList),
    }
}
