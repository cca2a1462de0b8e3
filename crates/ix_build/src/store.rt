//! Where runs are kept until they are merged.
ghost use Rattle.std.specs.Prelude.{◌≡◌, ◌↔◌, ℕ, List, [], ◌∷◌, ◌++◌, IfOk, IfSome, OnErr, OnOk};
ghost use Rattle.ix_build.specs.Stores.{CountsRefusal};

use ix_files::FileError;
use ix_run::Run;
use std::io::Read;
use thiserror::Error;

/// Why a store did not keep a run, or did not give one back.
#[derive(Clone, Copy, Debug, PartialEq, Eq, Error)]
pub enum StoreError {
    /// The store failed.
    #[error("Store")]
    Store,
    /// Out of memory.
    #[error("Memory")]
    Memory,
}

impl StoreError {
    ghost use Rattle.ix_build.specs.StoreErrors.{store_error_number};

    /// The error's number in the list of these errors, from 1.
    pub fn number(&self) -> u8
        ensures { result ≡ store_error_number self.now }
    {
        match self {
            StoreError::Store => 1,
            StoreError::Memory => 2,
        }
    }
}

impl From<FileError> for StoreError {
    fn from(error: FileError) -> StoreError {
        match error {
            FileError::Memory => StoreError::Memory,
            _ => StoreError::Store,
        }
    }
}

/// Keeps runs by their places, and gives their bytes back. Several stores may share one spot, as one folder, so that one of
/// them gives back what another one saved.
pub trait RunStore: Drop + Send {
    /// What the bytes of a run are read by.
    type Reader: Read + Drop + Send;

    // The places that it saved, in order.
    ghost places: { Self → List ℕ };

    // How many of its calls failed.
    ghost refusals: { Self → ℕ };

    // The bytes that may come back for a place. No call changes what may: it is a promise for as long as the store lives.
    ghost back: { Self → ℕ → List ℕ → Type 0 };

    /// Saves the run of a place.
    fn save(&mut self, place: usize, run: &Run) -> Result<(), StoreError>
        ensures saved { OnOk result (places self.new ≡ places self.old ++ place ∷ []) }
        ensures unsaved { OnErr result (places self.new ≡ places self.old) }
        ensures faults { CountsRefusal result (refusals self.old) (refusals self.new) }
        ensures back { (other : ℕ) (bytes : List ℕ) →
            back self.new other bytes ↔ back self.old other bytes };

    /// A reader of the run of a place: its bytes, if they are known, may come back for that place.
    fn load(&mut self, place: usize) -> Result<Self::Reader, StoreError>
        ensures given { IfOk result (λ reader.
            IfSome (Self.Reader.remaining reader) (back self.old place)) }
        ensures saved { places self.new ≡ places self.old }
        ensures faults { CountsRefusal result (refusals self.old) (refusals self.new) }
        ensures back { (other : ℕ) (bytes : List ℕ) →
            back self.new other bytes ↔ back self.old other bytes };

    /// The places that it saved, the first one first.
    fn saved(&self) -> &[usize]
        ensures { result.now ≡ places self.now };

    /// How many of its calls failed; `u64::MAX` stands for any greater number too.
    fn faults(&self) -> u64
        ensures { result ≡ refusals self.now };
}
