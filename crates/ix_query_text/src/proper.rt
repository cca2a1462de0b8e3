//! Which trees are queries.

ghost use Rattle.std.specs.Prelude.{◌≡◌, ◌≤◌, ◌↔◌, ℕ, List, All, IsTrue, length};
ghost use Rattle.ix_text.specs.TokenLists.{Entry};
ghost use Rattle.ix_query_text.specs.declared.tree.Tree.{Tree as SeenTree};
ghost use Rattle.ix_query_text.specs.declared.tree.Tree.TheVariants as shapes;
ghost use Rattle.ix_query_text.specs.Proper.{IsPhrase, IsShaped, IsProper, depths};
ghost use Rattle.ix_query_text.specs.Places.{depth_at, brackets_of_and, brackets_of_or};

use crate::tree::{Term, Tree};

/// A law: the shape of each kind of tree.
pub fn what_shapes_are()
    ensures phrase { (entries : List Entry) → IsShaped (shapes.Phrase entries) ↔ IsPhrase entries }
    ensures near { (first second : List ℕ) (distance : ℕ) →
        IsShaped (shapes.Near first second distance) ↔ ((1 ≤ distance) × (distance ≤ 65535)) }
    ensures pattern { (pieces : List (List ℕ)) → IsShaped (shapes.Pattern pieces) }
    ensures both { (parts : List SeenTree) →
        IsShaped (shapes.And parts) ↔ ((2 ≤ length parts) × All IsShaped parts) }
    ensures either { (parts : List SeenTree) →
        IsShaped (shapes.Or parts) ↔ ((2 ≤ length parts) × All IsShaped parts) }
    ensures other { (part : SeenTree) → IsShaped (shapes.Not part) ↔ IsShaped part }
{}

/// How many brackets and NOTs may be open at once.
pub const MAX_OPEN: usize = 64;

/// The largest distance of NEAR.
pub const MAX_DISTANCE: u32 = 65535;

/// Whether the tree is one that a query may have.
pub fn is_proper(tree: &Tree) -> bool
    ensures { IsTrue result ↔ IsProper tree.now }
{
    is_shaped(tree) && fits(tree, Place::Alone, MAX_OPEN)
}

#[cycle(shape)]
fn is_shaped(tree: &Tree) -> bool
    ensures { IsTrue result ↔ IsShaped tree.now }
{
    match tree {
        Tree::Phrase(entries) => is_phrase(entries.as_slice()),
        Tree::Near { distance, .. } => is_distance(*distance),
        Tree::Pattern(_) => true,
        Tree::And(parts) => are_joined(parts.as_slice()),
        Tree::Or(parts) => are_joined(parts.as_slice()),
        Tree::Not(part) => is_shaped(part.get()),
    }
}

/// Whether the parts are two or more, and each is in shape.
#[cycle(shape)]
fn are_joined(parts: &[Tree]) -> bool
    ensures { IsTrue result ↔ ((2 ≤ length parts.now) × All IsShaped parts.now) }
{
    for part in parts {
        if !is_shaped(part) {
            return false;
        }
    }
    2 <= parts.len()
}

fn is_distance(distance: u32) -> bool
    ensures { IsTrue result ↔ ((1 ≤ distance) × (distance ≤ 65535)) }
{
    1 <= distance && distance <= MAX_DISTANCE
}

/// Whether there is a term at both ends.
fn is_phrase(entries: &[Option<Term>]) -> bool
    ensures { IsTrue result ↔ IsPhrase entries.now }
{
    matches!(entries.first(), Some(Some(_))) && matches!(entries.last(), Some(Some(_)))
}

/// Where a tree stands.
#[derive(Clone, Copy)]
enum Place {
    /// Nothing stands around it.
    Alone,
    /// Between ORs.
    BetweenOrs,
    /// As an operand of AND or NOT.
    Operand,
}

impl Place {
    /// How many brackets parts with ANDs between them need here.
    fn brackets_of_and(self) -> usize
        ensures { result ≡ brackets_of_and self }
    {
        match self {
            Place::Alone | Place::BetweenOrs => 0,
            Place::Operand => 1,
        }
    }

    /// How many brackets parts with ORs between them need here.
    fn brackets_of_or(self) -> usize
        ensures { result ≡ brackets_of_or self }
    {
        match self {
            Place::Alone => 0,
            Place::BetweenOrs | Place::Operand => 1,
        }
    }
}

/// Whether the tree can stand at this place with no more brackets and NOTs open at once.
#[cycle(room)]
fn fits(tree: &Tree, place: Place, room: usize) -> bool
    ensures { IsTrue result ↔ (depth_at place (depths tree.now) ≤ room) }
{
    match tree {
        Tree::And(parts) => {
            let opened = place.brackets_of_and();
            opened <= room && all_fit(parts.as_slice(), Place::Operand, room - opened)
        }
        Tree::Or(parts) => {
            let opened = place.brackets_of_or();
            opened <= room && all_fit(parts.as_slice(), Place::BetweenOrs, room - opened)
        }
        Tree::Not(part) => 1 <= room && fits(part.get(), Place::Operand, room - 1),
        _ => true,
    }
}

#[cycle(room)]
fn all_fit(parts: &[Tree], place: Place, room: usize) -> bool
    ensures { IsTrue result ↔ All (λ part. depth_at place (depths part) ≤ room) parts.now }
{
    for part in parts {
        if !fits(part, place, room) {
            return false;
        }
    }
    true
}
