//! The command line: the words after the program's name, as a line with one variant a command.
ghost use Rattle.std.specs.Prelude.{◌≡◌, IfOk, IfErr, Some, IsSome, codes};
ghost use Rattle.clap.specs.Words.{found_of, rows_of, subcommand_rows_of};
ghost use Rattle.ix_line.specs.Commands.{ix_built};
ghost use Rattle.ix_line.specs.Entered.{Entered};
ghost use Rattle.ix_line.specs.Lines.{Holds, IsMatched, Reads, Refuses, RefusesRows, texts_of};

use crate::commands;
use crate::error::LineError;
use crate::fields::{flag, number_or, operand, operands, option};
use crate::plan::{read_plan, runs_in};
use crate::removed::{Removed, read_removed};
use crate::searchers::{Searchers, read_searchers};
use clap::ArgMatches;
use ix_build::{Plan, Runs};
use std::alloc::Global;

/// What the words ask for: a command with its options and operands. Each text is one of the words,
/// or the part of one after `=`.
#[derive(Debug, Drop)]
pub enum Line<'a> {
    /// `ix ask [--stop FILE] [--block N] [--bytes N] [--workers W] COLLECTION QUERY`.
    Ask {
        /// The file of stop words, where one is named.
        stop: Option<&'a str>,
        /// How the collection is cut into blocks, and by how many workers these are made.
        plan: Plan,
        /// The file of documents.
        collection: &'a str,
        /// The text of the query.
        query: &'a str,
    },
    /// `ix build [--stop FILE] [--block N] [--bytes N] [--workers W] [--runs FOLDER] COLLECTION INDEX`.
    Build {
        /// The file of stop words, where one is named.
        stop: Option<&'a str>,
        /// How the collection is cut into blocks, by how many workers these are made, and where
        /// their runs are kept.
        plan: Plan,
        /// The file of documents.
        collection: &'a str,
        /// The index file to be written.
        index: &'a str,
    },
    /// `ix add [--stop FILE] [--block N] [--bytes N] [--workers W] ARCHIVE COLLECTION`.
    Add {
        /// The file of stop words, if one is named.
        stop: Option<&'a str>,
        /// How the collection is cut into blocks, and by how many workers these are made; runs are
        /// kept in memory.
        plan: Plan,
        /// The folder of the archive.
        archive: &'a str,
        /// The file of documents.
        collection: &'a str,
    },
    /// `ix remove ARCHIVE NAME...` or `ix remove --names FILE ARCHIVE`.
    Remove {
        /// The folder of the archive.
        archive: &'a str,
        /// The names whose documents are removed.
        names: Removed<'a>,
    },
    /// `ix live [--stop FILE] [--block N] [--bytes N] [--workers W] [--searchers S] SCRIPT`.
    Live {
        /// The file of stop words, where one is named.
        stop: Option<&'a str>,
        /// How added documents are cut into blocks, and by how many workers these are made.
        plan: Plan,
        /// By how many searchers the queries between two publishes are answered.
        searchers: Searchers,
        /// The file of the script.
        script: &'a str,
    },
    /// `ix search [--trust] INDEX QUERY`.
    Search {
        /// The file of the index, or the folder of an archive.
        index: &'a str,
        /// The text of the query.
        query: &'a str,
        /// Whether only what the query needs is read of an index file. Of an archive no more is
        /// read in any case.
        trust: bool,
    },
    /// `ix terms [--trust] INDEX PATTERN`.
    Terms {
        /// The file of the index.
        index: &'a str,
        /// The text of the pattern.
        pattern: &'a str,
        /// Whether only what the pattern needs is read of the index.
        trust: bool,
    },
    /// `ix check INDEX...`.
    Check {
        /// The index files; there is one.
        paths: Vec<&'a str>,
    },
    /// `ix run [--stop FILE] [--first D] COLLECTION RUN`.
    Run {
        /// The file of stop words, where one is named.
        stop: Option<&'a str>,
        /// The number of the first document.
        first: u32,
        /// The file of documents.
        collection: &'a str,
        /// The run file to be written.
        run: &'a str,
    },
    /// `ix merge INDEX INPUT...`.
    Merge {
        /// The index file to be written.
        index: &'a str,
        /// The run files and index files; there is one.
        inputs: Vec<&'a str>,
    },
    /// `ix upgrade OLD NEW`.
    Upgrade {
        /// The file of the index.
        old: &'a str,
        /// The index file to be written.
        new: &'a str,
    },
}

/// Reads the words after the program's name.
///
/// # Errors
/// `Clap` if `clap` rejects the words or they ask for help, `Both` if `--block` is given together
/// with `--bytes`, `NamesOrList` if a name to be removed is given together with `--names` or neither
/// is given, and `Memory` if memory ran out.
pub fn read_line<'a>(alloc: Global, words: &'a [&'a str]) -> Result<Line<'a>, LineError>
    ensures ok { IfOk result (Reads (texts_of words.entry.now)) }
    ensures err { IfErr result (Refuses (texts_of words.entry.now)) }
{
    let matches = matched(alloc, words)?;
    let (name, own) = entered(&matches);
    let line = line_of(alloc, name, own)?;
    Ok(line)
}

// The matches of the words, which name a command.
fn matched<'a>(alloc: Global, words: &'a [&'a str]) -> Result<ArgMatches<'a>, LineError>
    ensures ok { IfOk result (IsMatched (texts_of words.entry.now)) }
    ensures err { IfErr result (Refuses (texts_of words.entry.now)) }
{
    let command = commands::ix(alloc)?;
    let matches = command.try_get_matches_from(words)?;
    Ok(matches)
}

// The command that was named, and its own matches.
fn entered<'m, 'a>(matches: &'m ArgMatches<'a>) -> (&'a str, &'m ArgMatches<'a>)
    requires { IsSome (subcommand_rows_of matches.now) }
    ensures { subcommand_rows_of matches.now
        ≡ Some (result.0.now, rows_of (found_of result.1.now)) }
{
    matches.subcommand().unwrap()
}

fn line_of<'a>(alloc: Global, name: &str, matches: &ArgMatches<'a>) -> Result<Line<'a>, LineError>
    requires { Entered ix_built name.now (rows_of (found_of matches.now)) }
    ensures line { IfOk result (Holds name.now (rows_of (found_of matches.now))) }
    ensures refused { IfErr result (RefusesRows name.now (rows_of (found_of matches.now))) }
{
    match name {
        "ask" => ask_line(matches),
        "build" => build_line(alloc, matches),
        "live" => live_line(matches),
        "add" => add_line(matches),
        "remove" => remove_line(alloc, matches),
        "search" => Ok(search_line(matches)),
        "terms" => Ok(terms_line(matches)),
        "check" => check_line(alloc, matches),
        "run" => Ok(run_line(matches)),
        "merge" => merge_line(alloc, matches),
        "upgrade" => Ok(upgrade_line(matches)),
        _ => unreachable!(),
    }
}

fn ask_line<'a>(matches: &ArgMatches<'a>) -> Result<Line<'a>, LineError>
    requires { Entered ix_built (codes "ask") (rows_of (found_of matches.now)) }
    ensures line { IfOk result (Holds (codes "ask") (rows_of (found_of matches.now))) }
    ensures refused { IfErr result (RefusesRows (codes "ask") (rows_of (found_of matches.now))) }
{
    let Some(plan) = read_plan(matches, Runs::Memory) else {
        return Err(LineError::Both);
    };
    Ok(Line::Ask {
        stop: option(matches, "stop"),
        plan,
        collection: operand(matches, "COLLECTION"),
        query: operand(matches, "QUERY"),
    })
}

fn build_line<'a>(alloc: Global, matches: &ArgMatches<'a>) -> Result<Line<'a>, LineError>
    requires { Entered ix_built (codes "build") (rows_of (found_of matches.now)) }
    ensures line { IfOk result (Holds (codes "build") (rows_of (found_of matches.now))) }
    ensures refused { IfErr result (RefusesRows (codes "build") (rows_of (found_of matches.now))) }
{
    let runs = runs_in(alloc, option(matches, "runs"))?;
    let Some(plan) = read_plan(matches, runs) else {
        return Err(LineError::Both);
    };
    let stop = option(matches, "stop");
    let collection = operand(matches, "COLLECTION");
    let index = operand(matches, "INDEX");
    Ok(Line::Build {
        stop,
        plan,
        collection,
        index,
    })
}

fn add_line<'a>(matches: &ArgMatches<'a>) -> Result<Line<'a>, LineError>
    requires { Entered ix_built (codes "add") (rows_of (found_of matches.now)) }
    ensures line { IfOk result (Holds (codes "add") (rows_of (found_of matches.now))) }
    ensures refused { IfErr result (RefusesRows (codes "add") (rows_of (found_of matches.now))) }
{
    let Some(plan) = read_plan(matches, Runs::Memory) else {
        return Err(LineError::Both);
    };
    let stop = option(matches, "stop");
    let archive = operand(matches, "ARCHIVE");
    let collection = operand(matches, "COLLECTION");
    Ok(Line::Add {
        stop,
        plan,
        archive,
        collection,
    })
}

fn remove_line<'a>(alloc: Global, matches: &ArgMatches<'a>) -> Result<Line<'a>, LineError>
    requires { Entered ix_built (codes "remove") (rows_of (found_of matches.now)) }
    ensures line { IfOk result (Holds (codes "remove") (rows_of (found_of matches.now))) }
    ensures refused { IfErr result (RefusesRows (codes "remove") (rows_of (found_of matches.now))) }
{
    let names = read_removed(alloc, matches)?;
    let archive = operand(matches, "ARCHIVE");
    Ok(Line::Remove { archive, names })
}

fn live_line<'a>(matches: &ArgMatches<'a>) -> Result<Line<'a>, LineError>
    requires { Entered ix_built (codes "live") (rows_of (found_of matches.now)) }
    ensures line { IfOk result (Holds (codes "live") (rows_of (found_of matches.now))) }
    ensures refused { IfErr result (RefusesRows (codes "live") (rows_of (found_of matches.now))) }
{
    let Some(plan) = read_plan(matches, Runs::Memory) else {
        return Err(LineError::Both);
    };
    Ok(Line::Live {
        stop: option(matches, "stop"),
        plan,
        searchers: read_searchers(matches),
        script: operand(matches, "SCRIPT"),
    })
}

fn search_line<'a>(matches: &ArgMatches<'a>) -> Line<'a>
    requires { Entered ix_built (codes "search") (rows_of (found_of matches.now)) }
    ensures { Holds (codes "search") (rows_of (found_of matches.now)) result }
{
    Line::Search {
        index: operand(matches, "INDEX"),
        query: operand(matches, "QUERY"),
        trust: flag(matches, "trust"),
    }
}

fn terms_line<'a>(matches: &ArgMatches<'a>) -> Line<'a>
    requires { Entered ix_built (codes "terms") (rows_of (found_of matches.now)) }
    ensures { Holds (codes "terms") (rows_of (found_of matches.now)) result }
{
    Line::Terms {
        index: operand(matches, "INDEX"),
        pattern: operand(matches, "PATTERN"),
        trust: flag(matches, "trust"),
    }
}

fn check_line<'a>(alloc: Global, matches: &ArgMatches<'a>) -> Result<Line<'a>, LineError>
    requires { Entered ix_built (codes "check") (rows_of (found_of matches.now)) }
    ensures line { IfOk result (Holds (codes "check") (rows_of (found_of matches.now))) }
    ensures refused { IfErr result (RefusesRows (codes "check") (rows_of (found_of matches.now))) }
{
    let paths = operands(alloc, matches, "INDEX")?;
    Ok(Line::Check { paths })
}

fn run_line<'a>(matches: &ArgMatches<'a>) -> Line<'a>
    requires { Entered ix_built (codes "run") (rows_of (found_of matches.now)) }
    ensures { Holds (codes "run") (rows_of (found_of matches.now)) result }
{
    let stop = option(matches, "stop");
    let first = number_or(matches, "first", 0);
    let collection = operand(matches, "COLLECTION");
    let run = operand(matches, "RUN");
    Line::Run {
        stop,
        first,
        collection,
        run,
    }
}

fn merge_line<'a>(alloc: Global, matches: &ArgMatches<'a>) -> Result<Line<'a>, LineError>
    requires { Entered ix_built (codes "merge") (rows_of (found_of matches.now)) }
    ensures line { IfOk result (Holds (codes "merge") (rows_of (found_of matches.now))) }
    ensures refused { IfErr result (RefusesRows (codes "merge") (rows_of (found_of matches.now))) }
{
    let index = operand(matches, "INDEX");
    let inputs = operands(alloc, matches, "INPUT")?;
    Ok(Line::Merge { index, inputs })
}

fn upgrade_line<'a>(matches: &ArgMatches<'a>) -> Line<'a>
    requires { Entered ix_built (codes "upgrade") (rows_of (found_of matches.now)) }
    ensures { Holds (codes "upgrade") (rows_of (found_of matches.now)) result }
{
    Line::Upgrade {
        old: operand(matches, "OLD"),
        new: operand(matches, "NEW"),
    }
}
