//! A maker that saves the runs of blocks, and leaves their heads.

ghost use Rattle.std.specs.Prelude.{◌≡◌, Some};
ghost use Rattle.ix_pool.specs.Askings.{asking};
ghost use Rattle.ix_build.specs.SavingMakers.{make_error_of};

use crate::block_maker::BlockMaker;
use crate::blocks::block_at;
use crate::store::{RunStore, StoreError};
use crate::watch::Unwatched;
use ix_pool::{Asked, MakeError, Maker};
use ix_run::{RunError, RunHead, invert};
use ix_text::Memory;

/// Inverts the block of a place (IIR 4.3), saves the run in its own store, and gives only the run's head. If the store
/// does not save the run, the place is refused.
#[derive(Drop)]
pub(crate) struct SavingMaker<'a, T> {
    // The blocks, and the askings. Progress is shown by the files, as runs are saved.
    pub(crate) inverter: BlockMaker<'a, Unwatched>,
    pub(crate) store: T,
}

/// A store's error as that of its maker.
fn make_error(error: StoreError) -> MakeError
    ensures { result ≡ make_error_of error }
{
    match error {
        StoreError::Store => MakeError::Refused,
        StoreError::Memory => MakeError::Memory,
    }
}

/// The asking for a place that was not made.
fn refused(place: usize, error: MakeError) -> Asked
    ensures { result ≡ asking place (Some error) }
{
    let error = Some(error);
    Asked { place, error }
}

impl<'a, T: RunStore> Maker for SavingMaker<'a, T> {
    ghost use Rattle.ix_build.specs.SavingMakers.{GivesHead, StaysSavingMaker, asked_of_saving, room_of};
    ghost use Rattle.ix_build.specs.SavingLaws.{saving_itself, saving_on};

    type Piece = RunHead;

    ghost askings = { asked_of_saving };

    ghost spare = { room_of };

    ghost gives = { GivesHead };

    ghost follows = { StaysSavingMaker T.places T.refusals T.back };

    ghost follows_itself = { saving_itself T.places T.refusals T.back };

    ghost follows_on = { saving_on T.places T.refusals T.back };

    fn reserve(&mut self, places: usize) -> Result<(), Memory> {
        self.inverter.reserve(places)
    }

    fn room(&self) -> usize {
        self.inverter.asked.capacity() - self.inverter.asked.len()
    }

    fn make(&mut self, place: usize) -> Result<RunHead, MakeError> {
        let Some((from, to)) = block_at(self.inverter.bounds, place) else {
            self.inverter.note(refused(place, MakeError::Refused));
            return Err(MakeError::Refused);
        };
        let docs = &self.inverter.docs[from..to];
        let run = match invert(self.inverter.alloc, docs, self.inverter.stop, from as u32) {
            Ok(run) => run,
            Err(RunError::Memory) => {
                self.inverter.note(refused(place, MakeError::Memory));
                return Err(MakeError::Memory);
            }
            // There are too few documents and tokens for that.
            Err(RunError::TooLarge) => unreachable!(),
        };
        match self.store.save(place, &run) {
            Ok(()) => {
                self.inverter.note(Asked { place, error: None });
                Ok(run.into_head())
            }
            Err(error) => {
                let error = make_error(error);
                self.inverter.note(refused(place, error));
                Err(error)
            }
        }
    }

    fn asked(&self) -> &[Asked] {
        self.inverter.asked.as_slice()
    }
}
