//! A store that keeps runs in files which several stores share.
ghost use Rattle.std.specs.Prelude.{◌≡◌, ◌↔◌, ℕ, List, ◌++◌, ◌∷◌, [], IfOk, OnErr, OnOk};
ghost use Rattle.std.specs.Io.KnownBytes.{Appends};
ghost use Rattle.ix_run.specs.Runs.{run_bytes};
ghost use Rattle.ix_build.specs.Stores.{CountsRefusal, IsOneMore};

use crate::store::{RunStore, StoreError};
use ix_files::SharedFiles;
use ix_run::Run;
use std::alloc::Global;
use std::io::{BufWriter, Write};

/// How many bytes of a run are written at once.
const BUFFER_BYTES: usize = 1 << 16;

/// Keeps the run of a place in the file of that place. What the file had is overwritten.
#[derive(Drop)]
pub struct FolderStore<'a, F> {
    pub(crate) alloc: Global,
    pub(crate) files: &'a F,
    pub(crate) saved: Vec<usize>,
    pub(crate) faults: u64,
}

/// Writes the text of a run.
fn put_run<W: Write + Drop>(alloc: Global, writer: W, run: &Run) -> Result<W, StoreError>
    ensures { IfOk result (λ written.
        Appends (W.contents writer) (W.contents written) (run_bytes run.now)) }
{
    let Ok(mut buffered) = BufWriter::with_capacity(alloc, BUFFER_BYTES, writer) else {
        return Err(StoreError::Memory);
    };
    if run.write_to(&mut buffered).is_err() {
        return Err(StoreError::Store);
    }
    match buffered.into_inner() {
        Ok(writer) => Ok(writer),
        Err(_) => Err(StoreError::Store),
    }
}

impl<'a, F> FolderStore<'a, F> {
    ghost use Rattle.ix_build.specs.FolderStores.{faults_of, files_of, saved_of};

    /// A store that keeps runs in these files, and has saved none. Allocates nothing.
    pub fn new(alloc: Global, files: &'a F) -> FolderStore<'a, F>
        ensures files { files_of result ≡ files.now }
        ensures saved { saved_of result ≡ [] }
        ensures faults { faults_of result ≡ 0 }
    {
        FolderStore {
            alloc,
            files,
            saved: Vec::new(alloc),
            faults: 0,
        }
    }

    /// Counts a failed call.
    fn count(&mut self)
        ensures faults { IsOneMore (faults_of self.old) (faults_of self.new) }
        ensures saved { saved_of self.new ≡ saved_of self.old }
        ensures files { files_of self.new ≡ files_of self.old }
    {
        if self.faults < u64::MAX {
            self.faults += 1;
        }
    }
}

impl<'a, F: SharedFiles> RunStore for FolderStore<'a, F> {
    ghost use Rattle.ix_build.specs.FolderStores.{GivesBack, faults_of, files_of, saved_of};

    type Reader = F::Reader;

    ghost places = { λ store. saved_of store };

    ghost refusals = { λ store. faults_of store };

    ghost back = { GivesBack F.back };

    fn save(&mut self, place: usize, run: &Run) -> Result<(), StoreError>
        ensures kept { OnOk result (F.kept (files_of self.old) place (run_bytes run.now)) }

        // As each store promises.
        ensures saved { OnOk result (saved_of self.new ≡ saved_of self.old ++ place ∷ []) }
        ensures unsaved { OnErr result (saved_of self.new ≡ saved_of self.old) }
        ensures faults { CountsRefusal result (faults_of self.old) (faults_of self.new) }
        ensures back { (other : ℕ) (bytes : List ℕ) → GivesBack F.back self.new other bytes
            ↔ GivesBack F.back self.old other bytes }
    {
        // Once the file is kept, noting its place must not fail.
        if self.saved.reserve(1).is_err() {
            self.count();
            return Err(StoreError::Memory);
        }
        let kept = match self.files.create(place) {
            Ok(writer) => match put_run(self.alloc, writer, run) {
                Ok(writer) => match self.files.end(place, writer) {
                    Ok(()) => Ok(()),
                    Err(error) => Err(StoreError::from(error)),
                },
                Err(error) => Err(error),
            },
            Err(error) => Err(StoreError::from(error)),
        };
        match kept {
            Ok(()) => {
                self.saved.push_reserved(place);
                Ok(())
            }
            Err(error) => {
                self.count();
                Err(error)
            }
        }
    }

    fn load(&mut self, place: usize) -> Result<F::Reader, StoreError> {
        match self.files.open(place) {
            Ok(reader) => Ok(reader),
            Err(error) => {
                self.count();
                Err(StoreError::from(error))
            }
        }
    }

    fn saved(&self) -> &[usize] {
        self.saved.as_slice()
    }

    fn faults(&self) -> u64 {
        self.faults
    }
}
