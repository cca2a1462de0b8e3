//! How many searchers the options of a line ask for.
ghost use Rattle.std.specs.Prelude.{◌≡◌, ◌≤◌, IfSome, codes};
ghost use Rattle.clap.specs.Words.{found_of, one_of, rows_of};
ghost use Rattle.ix_line.specs.Lines.{HasNumberOr, IsNumberIn};

use crate::fields::number_or;
use clap::ArgMatches;
use std::marker::Model;

/// How many searchers a live index has, where the words do not say it.
const SEARCHERS: u32 = 2;

/// The number of searchers of a live index, 1 to 64.
#[derive(Debug, Drop)]
pub struct Searchers {
    count: u32,
}

impl Model for Searchers {
    ghost use Rattle.std.specs.Prelude.{ℕ, ◌≤◌};

    ghost Value = { ℕ };

    ghost view = { λ searchers. searchers.count };

    ghost invariant = { λ searchers. (1 ≤ searchers.count) × (searchers.count ≤ 64) };
}

impl Searchers {
    /// The number, 1 to 64.
    pub fn count(&self) -> usize
        ensures count { result ≡ self.now }
        ensures range { (1 ≤ result) × (result ≤ 64) }
    {
        self.count as usize
    }
}

/// The number of the option `--searchers`, or 2 where the words do not give it.
pub fn read_searchers(matches: &ArgMatches<'_>) -> Searchers
    requires { IfSome (one_of (codes "searchers") (rows_of (found_of matches.now)))
        (IsNumberIn 1 64) }
    ensures { HasNumberOr (codes "searchers") 2 (rows_of (found_of matches.now)) result }
{
    let count = number_or(matches, "searchers", SEARCHERS);
    Searchers { count }
}
