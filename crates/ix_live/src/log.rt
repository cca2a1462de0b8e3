//! The log of a live index, which exists in proofs alone: the operations of each publish, in order.
use crate::log_prefix::LogPrefix;
use crate::past::Past;
use logbook::{Gain, Plain, Play, Rule, Word};
use std::marker::Model;

/// An entry of the log: operations that were published at once. No value of it is made.
pub struct LogEntry {}

impl Model for LogEntry {
    ghost use Rattle.std.specs.Prelude.{List, []};
    ghost use Rattle.ix_live.specs.Operations.{Operation};

    ghost Value = { List Operation };

    ghost view = { λ entry. [] };
}

/// The rule of the log: its word holds its length.
pub struct Law;

impl Rule<LogEntry, u64> for Law {
    ghost use Rattle.std.specs.Prelude.{[]};
    ghost use base.Fml.{ftrue};
    ghost use Rattle.ix_live.specs.Logs.{IsLength};

    ghost holds = { IsLength };

    ghost first = { [] };

    ghost hinted = { λ number log. Unit {0} };

    ghost shows = { λ log. [] };

    ghost keeps = { λ names log. ftrue };

    ghost moves = { λ asked before after answer. Unit {0} };
}

/// An entry brings its asker nothing but that it is in the log.
pub struct NoGain;

impl Gain<LogEntry, u64> for NoGain {
    ghost use base.Fml.{ftrue};

    ghost after = { λ names about answer. ftrue };
}

/// A step that appends an entry.
pub struct Appending;

impl Play<LogEntry, u64> for Appending {
    ghost use Rattle.ix_live.specs.Logs.{Appends};

    ghost then = { Appends };
}

/// The length of the log. Its owner can append.
pub type Head = Word<LogEntry, u64, Law>;

/// What was done to a live index and is not yet in its log.
#[derive(Drop)]
pub struct Rest<'a> {
    pub prefix: &'a LogPrefix,
    pub past: &'a Past,
}

impl<'a> Plain<Rest<'a>, LogEntry, u64> for Appending {
    ghost use Rattle.std.specs.Prelude.{None};
    ghost use Rattle.ix_live.specs.Logs.{rest_of};

    ghost ask = { λ rest. rest_of rest.prefix.now rest.past.now };

    ghost state = { λ rest. None };
}
