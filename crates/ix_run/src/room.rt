//! How much memory is asked for at once.

ghost use Rattle.std.specs.Prelude.{◌<◌};

/// A piece of memory that large is mapped by itself: what is never touched of it takes none, and all of it goes back when
/// it is let go or cut. Smaller pieces the C library keeps, in each thread, for what comes next, so that workers side by
/// side would each hold what they took at their highest.
const OWN_MAPPING: usize = 1 << 25;

/// From so many bytes on a piece is worth a mapping of its own; there are not to be many of these.
const WORTH_MAPPING: usize = 1 << 20;

/// For how many elements of so many bytes to ask where about so many come. It decides about memory alone.
pub(crate) fn room_for(count: usize, size: usize) -> usize
    requires { 0 < size }
{
    if count < WORTH_MAPPING / size {
        return count;
    }
    count.max(OWN_MAPPING / size)
}
