//! Editions: versions of a live index that were published.
ghost use Rattle.std.specs.Prelude.{◌≡◌, ◌++◌, ◌∷◌, [], length, map, IfErr, IfOk, MatchBool};
ghost use Rattle.std.specs.Arc.{arc_value};
ghost use Rattle.std.specs.String.{string_bytes};
ghost use Rattle.ix_live.specs.Histories.{Begins, operations_in, operations_of};
ghost use Rattle.ix_live.specs.NameErrors.{RefusesNames};
ghost use Rattle.ix_live.specs.Names.{AreNamesOf};
ghost use Rattle.ix_live.specs.Operations.{documents_added, state_after};
ghost use Rattle.ix_live.specs.Segments.{joined};
ghost use Rattle.ix_live.specs.StateScans.{IsStateScan};

use crate::log_prefix::LogPrefix;
use crate::name_error::NameError;
use crate::version::Version;
use ix_query::Query;
use ix_text::Memory;
use std::alloc::Global;
use std::marker::Model;
use std::sync::Arc;

/// A version without anything pending, whose operations are in the log. It is never changed.
/// Contracts see its stop set and its history.
#[derive(Drop)]
pub struct Edition {
    version: Version,
    prefix: LogPrefix,
}

impl Model for Edition {
    ghost use Rattle.std.specs.Prelude.{◌≡◌, []};
    ghost use Rattle.ix_live.specs.Histories.{Known};
    ghost use Rattle.ix_live.specs.Segments.{joined};

    ghost Value = { Known };

    ghost view = { λ edition. record {
      stop = edition.version.stop;
      history = record {
        book = edition.prefix.book;
        publishes = edition.version.past.publishes;
      };
    } };

    ghost invariant = { λ edition. (edition.version.past.pending ≡ [])
        × (joined edition.prefix.entries ≡ joined edition.version.past.publishes) };
}

impl Edition {
    /// The edition of a version that has nothing pending, and of the log that has its operations.
    pub fn new(version: Version, prefix: LogPrefix) -> Edition
        requires pending { version.past.pending ≡ [] }
        requires reached { joined prefix.entries ≡ joined version.past.publishes }
        ensures { result ≡ record {
          stop = version.stop;
          history = record { book = prefix.book; publishes = version.past.publishes };
        } }
    {
        Edition { version, prefix }
    }

    /// The edition of a version in which all that is pending is published, and of the log that has
    /// its operations. It shares the segments.
    pub fn of(
        alloc: Global,
        version: &Version,
        prefix: LogPrefix,
    ) -> Result<Arc<Edition, Global>, Memory>
        requires { joined prefix.entries ≡ operations_of version.now.past }
        ensures { IfOk result (λ edition. arc_value edition ≡ record {
          stop = version.now.stop;
          history = record {
            book = prefix.book;
            publishes = version.now.past.publishes ++ version.now.past.pending ∷ [];
          };
        }) }
    {
        let mut version = version.copy(alloc)?;
        version.settle();
        Ok(Arc::new(alloc, Edition::new(version, prefix))?)
    }

    /// Whether the other history of this live index begins this one. If it does not, this one
    /// begins the other.
    pub fn covers(&self, other: &Edition) -> bool
        requires { other.now.history.book ≡ self.now.history.book }
        ensures { MatchBool result (Begins other.now.history self.now.history)
            (Begins self.now.history other.now.history) }
    {
        self.prefix.covers(&other.prefix)
    }

    /// The numbers of the documents that satisfy a query and are not removed, ascending.
    pub fn find(&self, alloc: Global, query: &Query) -> Result<Vec<u32>, Memory>
        ensures { IfOk result (λ numbers.
            IsStateScan (state_after self.now.stop (operations_in self.now.history)) query.now
            numbers.items) }
    {
        self.version.find(alloc, query)
    }

    /// The names of the documents of these numbers, removed ones too.
    ///
    /// `Number` with the place of the first number that is no document's; `Memory` if out of
    /// memory.
    pub fn names(&self, alloc: Global, numbers: &[u32]) -> Result<Vec<String>, NameError>
        ensures names { IfOk result (λ names.
            AreNamesOf (documents_added (operations_in self.now.history)) numbers.now
            (map string_bytes names.items)) }
        ensures refused { IfErr result (RefusesNames
            (length (documents_added (operations_in self.now.history))) numbers.now) }
    {
        self.version.names(alloc, numbers)
    }
}
