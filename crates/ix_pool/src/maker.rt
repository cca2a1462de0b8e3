//! What makes the pieces of places, one after another.
ghost use Rattle.std.specs.Prelude.{◌≡◌, ℕ, ◌+◌, ◌<◌, ◌≤◌, ◌↔◌, List, [], ◌∷◌, ◌++◌, Some, None, IfErr, IfOk, OnOk};
ghost use Rattle.ix_pool.specs.Askings.{asking};
ghost use Rattle.ix_pool.specs.declared.maker.Asked.{Asked};

use ix_board::Memory;
use thiserror::Error;

/// Why a maker did not make a piece.
#[derive(Clone, Copy, Debug, PartialEq, Eq, Error)]
pub enum MakeError {
    /// The maker refused the place.
    #[error("Refused")]
    Refused,
    /// Out of memory.
    #[error("Memory")]
    Memory,
}

impl MakeError {
    ghost use Rattle.ix_pool.specs.Errors.{make_error_number};

    /// The error's number in the list of these errors, from 1.
    pub fn number(&self) -> u8
        ensures { result ≡ make_error_number self.now }
    {
        match self {
            MakeError::Refused => 1,
            MakeError::Memory => 2,
        }
    }
}

/// One call of `make`: for which place, counted from 0, and with which error, if it failed.
#[derive(Clone, Copy, Debug, PartialEq, Eq)]
pub struct Asked {
    /// The place.
    pub place: usize,
    /// Why no piece was made, or none if one was.
    pub error: Option<MakeError>,
}

/// Makes the piece of a place, and keeps the list of all its askings (the calls of `make`), in their order. Each worker
/// has a maker of its own.
pub trait Maker: Drop + Send {
    /// What is made of a place.
    type Piece: Drop + Send;

    // All askings so far.
    ghost askings: { Self → List Asked };

    // For how many further askings there is room.
    ghost spare: { Self → ℕ };

    // Which pieces the maker may give for a place.
    ghost gives: { Self → ℕ → Self.Piece → Type 0 };

    // What each call keeps, by the maker's own word.
    ghost follows: { Self → Self → Type 0 };

    /// Makes room for `places` further askings. The list of askings stays as it is.
    ///
    /// # Errors
    /// `Memory` if out of memory.
    fn reserve(&mut self, places: usize) -> Result<(), Memory>
        ensures askings { askings self.new ≡ askings self.old }
        ensures room { OnOk result (places ≤ spare self.new) }
        ensures gives { (place : ℕ) (piece : Self.Piece) →
            gives self.new place piece ↔ gives self.old place piece }
        ensures follows { follows self.old self.new };

    /// For how many further askings there is room.
    fn room(&self) -> usize
        ensures { result ≡ spare self.now };

    /// Makes the piece of a place. The asking is appended to the list, with its error or without one, and takes up one
    /// of the room.
    fn make(&mut self, place: usize) -> Result<Self::Piece, MakeError>
        requires { 0 < spare self.old }
        ensures asked { IfOk result (λ piece. askings self.new ≡ askings self.old
            ++ asking place None ∷ []) }
        ensures refused { IfErr result (λ error. askings self.new ≡ askings self.old
            ++ asking place (Some error) ∷ []) }
        ensures piece { IfOk result (λ piece. gives self.old place piece) }
        ensures room { spare self.new + 1 ≡ spare self.old }
        ensures gives { (other : ℕ) (piece : Self.Piece) →
            gives self.new other piece ↔ gives self.old other piece }
        ensures follows { follows self.old self.new };

    /// All askings so far, the first one first.
    fn asked(&self) -> &[Asked]
        ensures { result.now ≡ askings self.now };

    // A maker follows itself.
    ghost follows_itself: { (maker : Self) → follows maker maker };

    // What follows a maker that follows another follows that one.
    ghost follows_on: { (first second third : Self) → follows first second
        → follows second third → follows first third };
}
