//! Queries: trees that are proper.

ghost use Rattle.std.specs.Prelude.{◌≡◌, ◌↔◌, Ok, IsSome, IfOk, IfSome};
ghost use Rattle.ix_query_text.specs.declared.tree.Tree.{Tree as SeenTree};
ghost use Rattle.ix_query_text.specs.QueryErrors.{Gives};
ghost use Rattle.ix_query_text.specs.Grammar.{Reads};
ghost use Rattle.ix_query_text.specs.Machine.{query_of};
ghost use Rattle.ix_query_text.specs.Proper.{IsProper};

use crate::error::QueryError;
use crate::parser::parse_text;
use crate::proper::is_proper;
use crate::tree::Tree;
use ix_text::StopList;
use std::alloc::Global;
use std::marker::Model;

/// A query: a tree in the shape of the grammar's trees, in which no more than 64 brackets and NOTs
/// have to be open at once.
#[derive(Debug, Drop)]
pub struct Query {
    tree: Tree,
}

impl Model for Query {
    ghost use Rattle.ix_query_text.specs.declared.tree.Tree.{Tree};
    ghost use Rattle.ix_query_text.specs.Proper.{IsProper};
    ghost use Rattle.ix_query_text.specs.contracts.tree.Tree.{the_row};

    ghost Value = { Tree };

    ghost coded = { the_row.coded };

    ghost view = { λ q. q.tree };

    ghost invariant = { λ q. IsProper q.tree };
}

impl Query {
    /// The query that a text spells, where the words of `stop` are no terms.
    ///
    /// # Errors
    /// The first fault: the first of the lexemes, else `Empty` where there is none, else the first
    /// of the grammar from the left, where a run or a quoted text is judged when it is read.
    /// `Memory` comes in place of any answer.
    pub fn parse(alloc: Global, text: &str, stop: &StopList) -> Result<Query, QueryError>
        // What is read is a query of the grammar, with this tree.
        ensures found { IfOk result (λ query. Reads stop.now text.now query) }
        // A query of the grammar is read, with its tree, unless memory runs out.
        ensures only { (query : SeenTree) →
            Reads stop.now text.now query → Gives (λ q. q) result (Ok query) }
        // Which tree, or which fault.
        ensures exact { Gives (λ q. q) result (query_of stop.now text.now) }
    {
        let tree = parse_text(alloc, text, stop)?;
        Ok(Query { tree })
    }

    /// The query of a tree that a program built, or nothing where the tree is not proper: a phrase
    /// is empty or has a hole at an end, a distance is not 1 to 65535, AND or OR has fewer than two
    /// parts, or more than 64 brackets and NOTs would have to be open at once to write it.
    pub fn new(tree: Tree) -> Option<Query>
        ensures proper { IsSome result ↔ IsProper tree }
        ensures same { IfSome result (λ query. query ≡ tree) }
    {
        if is_proper(&tree) {
            Some(Query { tree })
        } else {
            None
        }
    }

    /// What the query asks.
    pub fn tree(&self) -> &Tree
        ensures same { result.now ≡ self.now }
        ensures proper { IsProper self.now }
    {
        &self.tree
    }

    /// What the query asks, to build another of it.
    pub fn into_tree(self) -> Tree
        ensures same { result ≡ self }
        ensures proper { IsProper self }
    {
        let Query { tree } = self;
        tree
    }
}
