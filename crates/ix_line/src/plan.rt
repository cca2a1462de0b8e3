//! How the options of a line cut a collection into blocks, and share them out.
ghost use Rattle.std.specs.Prelude.{◌≡◌, ◌<◌, ◌≤◌, IfOk, IfSome, IsNone, codes, option_map};
ghost use Rattle.clap.specs.Words.{found_of, one_of, rows_of};
ghost use Rattle.ix_build.specs.Blocks.{cut_number};
ghost use Rattle.ix_build.specs.Plans.{folder_of};
ghost use Rattle.ix_line.specs.Lines.{HasBoth, HasPlan, IsNumberIn, cut_of};

use crate::fields::{number_option, number_or};
use clap::ArgMatches;
use ix_build::{Cut, Plan, Runs};
use std::alloc::{AllocError, Global};

/// How many documents a block has, where the words do not say it.
const BLOCK_DOCUMENTS: u32 = 1024;

/// How many workers make the blocks, where the words do not say it.
const WORKERS: u32 = 4;

/// Where runs are kept: in the folder of this path, or in memory where there is none.
pub fn runs_in(alloc: Global, folder: Option<&str>) -> Result<Runs, AllocError>
    ensures { IfOk result (λ runs. folder_of runs ≡ option_map (λ path. path.now) folder.entry) }
{
    match folder {
        Some(path) => Ok(Runs::Folder(String::from_str(alloc, path)?)),
        None => Ok(Runs::Memory),
    }
}

/// The plan of the options `--block`, `--bytes` and `--workers`, with its runs kept there, or none
/// where the first two are both given.
pub fn read_plan(matches: &ArgMatches<'_>, runs: Runs) -> Option<Plan>
    requires block { IfSome (one_of (codes "block") (rows_of (found_of matches.now)))
        (IsNumberIn 1 268435456) }
    requires bytes { IfSome (one_of (codes "bytes") (rows_of (found_of matches.now)))
        (IsNumberIn 1 268435456) }
    requires workers { IfSome (one_of (codes "workers") (rows_of (found_of matches.now)))
        (IsNumberIn 1 64) }
    ensures plan { IfSome result (HasPlan (rows_of (found_of matches.now)) (folder_of runs)) }
    ensures both { IsNone result → HasBoth (rows_of (found_of matches.now)) }
{
    let block = number_option(matches, "block");
    let bytes = number_option(matches, "bytes");
    let workers = number_or(matches, "workers", WORKERS);
    let cut = cut_of(block, bytes)?;
    Some(plan_of(cut, workers, runs))
}

// The cut into blocks of so many documents, or of so many bytes.
fn cut_of(block: Option<u32>, bytes: Option<u32>) -> Option<Cut>
    ensures { result ≡ cut_of block bytes }
{
    match (block, bytes) {
        (Some(_), Some(_)) => None,
        (Some(documents), None) => Some(Cut::Docs(documents)),
        (None, Some(bytes)) => Some(Cut::Bytes(bytes)),
        (None, None) => Some(Cut::Docs(BLOCK_DOCUMENTS)),
    }
}

// The plan of this cut, and of so many workers, with its runs kept there.
fn plan_of(cut: Cut, workers: u32, runs: Runs) -> Plan
    requires some { 0 < cut_number cut }
    requires some_workers { 0 < workers }
    requires few_workers { workers ≤ 64 }
    ensures cut { result.cut ≡ cut }
    ensures workers { result.workers ≡ workers }
    ensures folder { result.folder ≡ folder_of runs }
{
    Plan::new(cut, workers as usize, runs).unwrap()
}
