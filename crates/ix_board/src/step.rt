/// What a worker did to the place with this number, which counts from 0. No value of it is made: contracts see a desk as
/// a list of these.
pub enum Step<P> {
    /// The place was open, and the worker, which held none, holds it.
    Claim(usize),
    /// The worker held the place, and it is done with this piece.
    Deliver(usize, P),
    /// The worker held the place, and it is given up.
    GiveUp(usize),
    /// The worker saw that the place was not open.
    Look(usize),
}
