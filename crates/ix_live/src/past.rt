//! What was done to a live index. It exists in proofs alone.
ghost use Rattle.std.specs.Prelude.{◌≡◌, [], ◌∷◌};
ghost use Rattle.ix_live.specs.Growing.{documents_under};
ghost use Rattle.ix_live.specs.Histories.{nothing_done, published, waiting};
ghost use Rattle.ix_live.specs.Operations.{Add, Remove};

use ix_text::{Collection, StopList};
use logbook::{Opening, Rule, Seen, Start};
use std::marker::Model;

/// All that was done. No value of it is made.
pub struct Done {}

impl Model for Done {
    ghost use Rattle.ix_live.specs.Histories.{Past, nothing_done};

    ghost Value = { Past };

    ghost view = { λ done. nothing_done };
}

/// The rule of a log that says nothing.
pub struct NoLaw;

impl Rule<Done, u64> for NoLaw {
    ghost use Rattle.std.specs.Prelude.{[]};
    ghost use base.Fml.{ftrue};

    ghost holds = { λ cells log. Unit {0} };

    ghost first = { [] };

    ghost hinted = { λ number log. Unit {0} };

    ghost shows = { λ log. [] };

    ghost keeps = { λ names log. ftrue };

    ghost moves = { λ asked before after answer. Unit {0} };
}

/// What was done: contracts see the operations of each publish, and those that are pending.
#[derive(Drop)]
pub struct Past {
    // a log that has it as its one entry, and never grows
    seen: Seen<Done, u64, NoLaw>,
}

impl Model for Past {
    ghost use Rattle.ix_live.specs.Histories.{Past, past_in};

    ghost Value = { Past };

    ghost view = { λ past. past_in past.seen.log };
}

/// A past that is made of what is given.
pub struct Made;

impl Opening<u32, Done> for Made {
    ghost use Rattle.std.specs.Prelude.{[], ◌∷◌};
    ghost use Rattle.ix_live.specs.Histories.{nothing_done};

    ghost log = { λ count nothing. nothing_done ∷ [] };
}

impl Opening<Past, Done> for Made {
    ghost use Rattle.std.specs.Prelude.{[], ◌∷◌};
    ghost use Rattle.ix_live.specs.Histories.{published};

    ghost log = { λ count past. published past ∷ [] };
}

/// A past, and documents that are added under a stop list.
#[derive(Drop)]
struct Addition<'a> {
    past: &'a Past,
    stop: &'a StopList,
    documents: &'a Collection<'a>,
}

impl<'a> Opening<Addition<'a>, Done> for Made {
    ghost use Rattle.std.specs.Prelude.{[], ◌∷◌};
    ghost use Rattle.ix_live.specs.Growing.{documents_under};
    ghost use Rattle.ix_live.specs.Histories.{waiting};
    ghost use Rattle.ix_live.specs.Operations.{Add};

    ghost log = { λ count addition. waiting addition.past.now
        (Add (documents_under addition.stop.now addition.documents.now) ∷ []) ∷ [] };
}

/// A past, and the number of a document that is removed.
#[derive(Drop)]
struct Removal<'a> {
    past: &'a Past,
    number: u32,
}

impl<'a> Opening<Removal<'a>, Done> for Made {
    ghost use Rattle.std.specs.Prelude.{[], ◌∷◌};
    ghost use Rattle.ix_live.specs.Histories.{waiting};
    ghost use Rattle.ix_live.specs.Operations.{Remove};

    ghost log = { λ count removal. waiting removal.past.now (Remove removal.number ∷ []) ∷ [] };
}

impl Past {
    /// Nothing was done.
    pub fn open() -> Past
        ensures { result ≡ nothing_done }
    {
        let (seen, _pens) = Seen::open_row::<u32, Made>(&0, Start::alone(), 0);
        Past { seen }
    }

    /// A copy.
    pub fn again(&self) -> Past
        ensures { result ≡ self.now }
    {
        Past {
            seen: self.seen.again(),
        }
    }

    /// The addition of documents is pending too.
    pub fn with_addition(&self, stop: &StopList, documents: &Collection<'_>) -> Past
        ensures { result ≡ waiting self.now (Add (documents_under stop.now documents.now) ∷ []) }
    {
        let addition = Addition {
            past: self,
            stop,
            documents,
        };
        let (seen, _pens) = Seen::open_row::<Addition<'_>, Made>(&addition, Start::alone(), 0);
        Past { seen }
    }

    /// The removal of a document is pending too.
    pub fn with_removal(&self, number: u32) -> Past
        ensures { result ≡ waiting self.now (Remove number ∷ []) }
    {
        let removal = Removal { past: self, number };
        let (seen, _pens) = Seen::open_row::<Removal<'_>, Made>(&removal, Start::alone(), 0);
        Past { seen }
    }

    /// All that is pending is published.
    pub fn published(&self) -> Past
        ensures { result ≡ published self.now }
    {
        let (seen, _pens) = Seen::open_row::<Past, Made>(self, Start::alone(), 0);
        Past { seen }
    }
}
