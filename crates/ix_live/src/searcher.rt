//! Searchers: each answers from the edition that is shown, in a thread of its own if it likes.
ghost use Rattle.std.specs.Prelude.{◌≡◌, Some, IfErr, IfOk, OnErr, OnOk, length, map};
ghost use Rattle.std.specs.Arc.{arc_value};
ghost use Rattle.std.specs.String.{string_bytes};
ghost use Rattle.left_right.specs.Sides.{view};
ghost use Rattle.ix_live.specs.Histories.{AreOfOneIndex, Begins, operations_in};
ghost use Rattle.ix_live.specs.NameErrors.{RefusesNames};
ghost use Rattle.ix_live.specs.Names.{AreNamesOf};
ghost use Rattle.ix_live.specs.Operations.{documents_added, state_after};
ghost use Rattle.ix_live.specs.StateScans.{IsStateScan};

use crate::edition::Edition;
use crate::name_error::NameError;
use crate::news::News;
use crate::rule::EditionReader;
use crate::show::take_edition;
use core::mem::replace_with;
use ix_query::Query;
use ix_text::Memory;
use std::alloc::Global;
use std::marker::Model;
use std::sync::Arc;

/// Answers queries to a live index, from histories that never go back. Contracts see the stop set
/// and the history of which it knows.
#[derive(Drop)]
pub struct Searcher {
    reader: EditionReader,
    // the newest edition that it answered from or learned of
    latest: Arc<Edition, Global>,
    alloc: Global,
}

impl Model for Searcher {
    ghost use Rattle.std.specs.Arc.{arc_value};
    ghost use Rattle.left_right.specs.Sides.{view as known};
    ghost use Rattle.ix_live.specs.Histories.{Known};
    ghost use Rattle.ix_live.specs.Identities.{KnowsIndex};

    ghost Value = { Known };

    ghost view = { λ searcher. arc_value searcher.latest };

    ghost invariant = { λ searcher. KnowsIndex (known searcher.reader.place)
        (arc_value searcher.latest) };
}

impl Searcher {
    /// A searcher that knows of the edition that its reader was given.
    pub(crate) fn new(
        alloc: Global,
        reader: EditionReader,
        latest: Arc<Edition, Global>,
    ) -> Searcher
        requires { view reader.place ≡ Some (arc_value latest) }
        ensures { result ≡ arc_value latest }
    {
        Searcher {
            reader,
            latest,
            alloc,
        }
    }

    /// Takes in news of its live index: from now on it knows of their history too.
    ///
    /// `Memory` if no more can share the edition. It then knows what it knew.
    pub fn learn(&mut self, news: &News) -> Result<(), Memory>
        requires { AreOfOneIndex news.now self.old }
        ensures same { AreOfOneIndex self.new self.old }
        ensures before { Begins self.old.history self.new.history }
        ensures told { OnOk result (Begins news.now.history self.new.history) }
        ensures kept { OnErr result (self.new ≡ self.old) }
    {
        if !self.latest.covers(&*news.edition) {
            self.latest = Arc::try_clone(&news.edition)?;
        }
        Ok(())
    }

    /// The numbers of the documents that satisfy a query and are not removed, ascending, after a
    /// history that was published. It begins with all that the searcher knew, and the searcher
    /// knows of it from now on.
    ///
    /// `Memory` if out of memory, and once the indexer was closed. It then knows what it knew.
    pub fn answer(&mut self, query: &Query) -> Result<Vec<u32>, Memory>
        ensures same { AreOfOneIndex self.new self.old }
        ensures before { OnOk result (Begins self.old.history self.new.history) }
        ensures scan { IfOk result (λ numbers.
            IsStateScan (state_after self.new.stop (operations_in self.new.history)) query.now
            numbers.items) }
        ensures kept { OnErr result (self.new ≡ self.old) }
    {
        let edition = self.newest()?;
        let numbers = edition.find(self.alloc, query)?;
        self.latest = edition;
        Ok(numbers)
    }

    /// The names of the documents of these numbers, removed ones too, after the history that the
    /// searcher knows of: that of its last answer, if it has learned nothing since.
    ///
    /// `Number` with the place of the first number that is no document's there; `Memory` if out of
    /// memory.
    pub fn names(&self, numbers: &[u32]) -> Result<Vec<String>, NameError>
        ensures names { IfOk result (λ names.
            AreNamesOf (documents_added (operations_in self.now.history)) numbers.now
            (map string_bytes names.items)) }
        ensures refused { IfErr result (RefusesNames
            (length (documents_added (operations_in self.now.history))) numbers.now) }
    {
        self.latest.names(self.alloc, numbers)
    }

    /// The edition that is shown, which goes on from all that the searcher knows.
    fn newest(&mut self) -> Result<Arc<Edition, Global>, Memory>
        ensures kept { self.new ≡ self.old }
        ensures same { IfOk result (λ edition. AreOfOneIndex (arc_value edition) self.old) }
        ensures before { IfOk result (λ edition.
            Begins self.old.history (arc_value edition).history) }
    {
        let shown = replace_with(&mut self.reader, (), take_edition)?;
        if shown.covers(&*self.latest) {
            return Ok(shown);
        }
        // What is shown begins with all that was published before, so this does not happen. If
        // what was learned were newer, it would be the answer.
        Ok(Arc::try_clone(&self.latest)?)
    }
}
