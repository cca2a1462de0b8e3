//! How far the log of a live index was seen.
ghost use Rattle.std.specs.Prelude.{◌≡◌, ⊤, [], MatchBool};
ghost use mathlib.Core.List.{IsPrefix};
ghost use Rattle.ix_live.specs.Histories.{operations_of};
ghost use Rattle.ix_live.specs.Logs.{head_of};
ghost use Rattle.ix_live.specs.Segments.{joined};

use crate::log::{Appending, Head, Law, LogEntry, NoGain, Rest};
use crate::past::Past;
use logbook::{Offer, Seen, Start, Word};
use std::marker::Model;
use std::sync::Wait;

/// A prefix of the log of a live index. Contracts see which log it is, and the entries.
#[derive(Drop)]
pub struct LogPrefix {
    steps: u64,
    seen: Seen<LogEntry, u64, Law>,
}

impl Model for LogPrefix {
    ghost use Rattle.std.specs.Prelude.{◌≡◌, length};
    ghost use Rattle.ix_live.specs.Logs.{Reached};

    ghost Value = { Reached };

    ghost view = { λ prefix. record { book = prefix.seen.book; entries = prefix.seen.log } };

    ghost invariant = { λ prefix. prefix.steps ≡ length prefix.seen.log };
}

impl LogPrefix {
    /// A new log, with its word, and nothing of it.
    pub fn open() -> (Head, LogPrefix)
        ensures head { result.0 ≡ head_of result.1.book }
        ensures empty { result.1.entries ≡ [] }
    {
        let (seen, mut first, _second) = Seen::open(Start::alone(), 0, 0);
        let head = Word::tracked(0, &mut first);
        (head, LogPrefix { steps: 0, seen })
    }

    /// A copy.
    pub fn again(&self) -> LogPrefix
        ensures { result ≡ self.now }
    {
        LogPrefix {
            steps: self.steps,
            seen: self.seen.again(),
        }
    }

    /// Whether the operations of the other prefix of this log are a prefix of those of this one. If
    /// they are not, these are a prefix of those of the other.
    pub fn covers(&self, other: &LogPrefix) -> bool
        requires { other.now.book ≡ self.now.book }
        ensures { MatchBool result (IsPrefix (joined other.now.entries) (joined self.now.entries))
            (IsPrefix (joined self.now.entries) (joined other.now.entries)) }
    {
        let mut both = self.seen.again();
        both.learn(&other.seen);
        other.steps <= self.steps
    }

    /// The log with all operations of a past, of which it has a prefix. It waits while another
    /// thread appends. Only the indexer has the word of the log, so this does not happen.
    pub fn extend<R: Wait>(&self, rt: &R, head: &Head, past: &Past) -> LogPrefix
        requires head { head.now ≡ head_of self.now.book }
        requires begins { IsPrefix (joined self.now.entries) (operations_of past.now) }
        ensures book { result.book ≡ self.now.book }
        ensures all { joined result.entries ≡ operations_of past.now }
    {
        for _ in rt.forever() {
            let mut prefix = self.again();
            if prefix.append(head, past) {
                return prefix;
            }
        }
        unreachable!()
    }

    /// Appends what a past has beyond this prefix of the log, and returns whether it did. It did
    /// not if the log is longer than this prefix.
    fn append(&mut self, head: &Head, past: &Past) -> bool
        requires head { head.now ≡ head_of self.old.book }
        requires begins { IsPrefix (joined self.old.entries) (operations_of past.now) }
        ensures book { self.new.book ≡ self.old.book }
        ensures all { MatchBool result (joined self.new.entries ≡ operations_of past.now) ⊤ }
    {
        if self.steps == u64::MAX {
            return false;
        }
        let prefix = self.again();
        let rest = Rest {
            prefix: &prefix,
            past,
        };
        let mut offer: Offer<LogEntry, u64, Law, NoGain> = self
            .seen
            .plain::<NoGain, Rest<'_>, Appending>(&rest);
        let mut pen = self.seen.no_pen();
        let steps = self.steps;
        let found = head.compare_exchange::<Appending, NoGain>(
            steps,
            steps + 1,
            &mut self.seen,
            &mut offer,
            &mut pen,
        );
        self.steps = if found == steps { steps + 1 } else { found };
        found == steps
    }
}
