//! News of what was published.
ghost use Rattle.std.specs.Prelude.{IfErr, IfOk, length, map};
ghost use Rattle.std.specs.String.{string_bytes};
ghost use Rattle.ix_live.specs.Histories.{operations_in};
ghost use Rattle.ix_live.specs.NameErrors.{RefusesNames};
ghost use Rattle.ix_live.specs.Names.{AreNamesOf};
ghost use Rattle.ix_live.specs.Operations.{documents_added, state_after};
ghost use Rattle.ix_live.specs.StateScans.{IsStateScan};

use crate::edition::Edition;
use crate::name_error::NameError;
use ix_query::Query;
use ix_text::Memory;
use std::alloc::Global;
use std::marker::Model;
use std::sync::Arc;

/// What a publish returns: the edition that it published. Contracts see its stop set and its
/// history.
#[derive(Drop)]
pub struct News {
    pub(crate) edition: Arc<Edition, Global>,
}

impl Model for News {
    ghost use Rattle.std.specs.Arc.{arc_value};
    ghost use Rattle.ix_live.specs.Histories.{Known};

    ghost Value = { Known };

    ghost view = { λ news. arc_value news.edition };
}

impl News {
    /// The numbers of the documents that satisfy a query and are not removed, ascending, after just
    /// the history of the news, whatever was published since.
    ///
    /// `Memory` if out of memory.
    pub fn answer(&self, alloc: Global, query: &Query) -> Result<Vec<u32>, Memory>
        ensures { IfOk result (λ numbers.
            IsStateScan (state_after self.now.stop (operations_in self.now.history)) query.now
            numbers.items) }
    {
        self.edition.find(alloc, query)
    }

    /// The names of the documents of these numbers, removed ones too, after just the history of the
    /// news.
    ///
    /// `Number` with the place of the first number that is no document's there; `Memory` if out of
    /// memory.
    pub fn names(&self, alloc: Global, numbers: &[u32]) -> Result<Vec<String>, NameError>
        ensures names { IfOk result (λ names.
            AreNamesOf (documents_added (operations_in self.now.history)) numbers.now
            (map string_bytes names.items)) }
        ensures refused { IfErr result (RefusesNames
            (length (documents_added (operations_in self.now.history))) numbers.now) }
    {
        self.edition.names(alloc, numbers)
    }
}
