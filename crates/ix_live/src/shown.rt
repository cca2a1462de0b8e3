//! What each of the two copies holds.
use crate::edition::Edition;
use left_right::Absorb;
use std::alloc::{AllocError, Global};
use std::sync::Arc;

/// A copy shows an edition. The one operation on it is to show another.
#[derive(Drop)]
pub struct Shown {
    pub current: Arc<Edition, Global>,
}

impl Absorb<Arc<Edition, Global>> for Shown {
    ghost use Rattle.std.specs.Arc.{arc_value};

    type State = Edition;

    ghost state = { λ shown. arc_value shown.current };

    ghost applied = { λ before next. arc_value next };

    fn absorb_first(
        &mut self,
        operation: &Arc<Edition, Global>,
        _other: &Shown,
    ) -> Result<(), AllocError> {
        self.current = Arc::try_clone(operation)?;
        Ok(())
    }
}
