//! Query trees: what a query asks of a document's token list.

ghost use Rattle.std.specs.Prelude.{◌≡◌, string_bytes};

use ix_gram::Pattern;
use std::marker::Model;

// The list and the box that trees are made of. A contract sees them as what they hold, so that a
// tree in a contract is plain data. They are the kit's, and are named here alone.
pub use sqlite_items::{Boxed, Items};

/// A term that a query asks for. Of a query that was read it is a word as the index has it: folded
/// and normalized, 1 to 255 bytes of UTF-8.
#[derive(Debug, Drop)]
pub struct Term {
    text: String,
}

impl Model for Term {
    ghost use Rattle.std.specs.Prelude.{ℕ, List, string_bytes};
    ghost use Rattle.std.specs.Coded.{coded_list, coded_ℕ};

    ghost Value = { List ℕ };

    ghost coded = { coded_list coded_ℕ };

    ghost view = { λ t. string_bytes t.text };
}

impl Term {
    /// The term that a text spells, which is taken as it is.
    pub fn new(text: String) -> Term
        ensures { result ≡ string_bytes text }
    {
        Term { text }
    }

    /// The term's text.
    pub fn as_str(&self) -> &str
        ensures { result.now ≡ self.now }
    {
        self.text.as_str()
    }
}

/// What a query asks of a document's token list (IIR 1.3 and 2.4.2). A program may look into it and
/// build it; whether it is a query is what [`Query::new`](crate::Query::new) judges.
#[derive(Debug, Drop)]
pub enum Tree {
    /// Consecutive tokens: a term is that term, and a hole any token. Of a query it is not empty,
    /// and has no hole at an end.
    Phrase(Items<Option<Term>>),
    /// The two terms, at positions that differ by 1 to `distance`, either way round.
    Near {
        /// The term before NEAR.
        first: Term,
        /// The term behind it.
        second: Term,
        /// By how many positions they may differ at the most; of a query from 1 to 65535.
        distance: u32,
    },
    /// A token that matches the pattern.
    Pattern(Pattern),
    /// Each of the parts, of which a query has two or more.
    And(Items<Tree>),
    /// One of the parts, of which a query has two or more.
    Or(Items<Tree>),
    /// What the part asks for is not there.
    Not(Boxed<Tree>),
}
