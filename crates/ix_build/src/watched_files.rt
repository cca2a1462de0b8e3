//! Files of runs of which somebody is told as they are kept.

use crate::watch::Watch;
use ix_files::{FileError, Location, SharedFiles};

/// The same files; whoever watches is told of each that was ended.
#[derive(Drop)]
pub(crate) struct WatchedFiles<'a, F, V> {
    pub(crate) files: &'a F,
    pub(crate) watch: &'a V,
}

impl<F: SharedFiles, V: Watch> SharedFiles for WatchedFiles<'_, F, V> {
    type Reader = F::Reader;

    type Writer = F::Writer;

    ghost shared = { λ watched. F.shared watched.files.now };

    ghost back = { λ watched. F.back watched.files.now };

    ghost kept = { λ watched. F.kept watched.files.now };

    fn names(&self) -> &[Location] {
        self.files.names()
    }

    fn create(&self, place: usize) -> Result<F::Writer, FileError> {
        self.files.create(place)
    }

    fn end(&self, place: usize, writer: F::Writer) -> Result<(), FileError> {
        let ended = self.files.end(place, writer);
        if ended.is_ok() {
            self.watch.inverted(self.files.names().len());
        }
        ended
    }

    fn open(&self, place: usize) -> Result<F::Reader, FileError> {
        self.files.open(place)
    }

    ghost untold = { λ watched place bytes writer none.
        F.untold watched.files.now place bytes writer none };
}
