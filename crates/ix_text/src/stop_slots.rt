//! Which term of a stop list a text may be: a table of fixed size, so that most texts are passed at a glance.
ghost use Rattle.std.specs.Prelude.{◌≡◌, ◌<◌, ℕ, true, map, slice_index, string_bytes};
ghost use Rattle.ix_text.specs.StopSlots.{AreSlotsOf, admits, slot_number};

/// How many slots there are: so many that of some hundred terms few share one.
pub(crate) const SLOTS: usize = 1024;

/// What is known of the terms that have a slot.
#[derive(Clone, Copy, Debug)]
pub(crate) enum Slot {
    /// There is none.
    Empty,
    /// There is one, at this place of the list.
    One(u16),
    /// There may be several.
    Several,
}

/// The slots of some terms.
pub(crate) fn slots_of(terms: &[String]) -> [Slot; SLOTS]
    ensures { AreSlotsOf result (map string_bytes terms.now) }
{
    let mut slots = [Slot::Empty; SLOTS];
    for (place, term) in terms.iter().enumerate() {
        let slot = slot_of(term.as_str());
        slots[slot] = joined(slots[slot], place);
    }
    slots
}

/// What is known of a slot once the term at the place has it too.
fn joined(slot: Slot, place: usize) -> Slot
    ensures here { admits result place ≡ true }
    ensures others { (other : ℕ) → admits slot other ≡ true → admits result other ≡ true }
{
    match slot {
        Slot::Empty if place <= usize::from(u16::MAX) => Slot::One(place as u16),
        _ => Slot::Several,
    }
}

/// The slot of a text, by its length and four of its bytes. The weights are such that of the usual English stop words
/// hardly two have one slot.
#[inline]
pub(crate) fn slot_of(text: &str) -> usize
    ensures value { result ≡ slot_number text.now }
    ensures low { result < 1024 }
{
    let bytes = text.as_bytes();
    let size = bytes.len();
    let sum = size % 32 * 175
        + byte_at(bytes, 0) * 82
        + byte_at(bytes, 2) * 153
        + byte_at(bytes, size.saturating_sub(2)) * 36
        + byte_at(bytes, size.saturating_sub(1)) * 6;
    sum % SLOTS
}

/// The byte at a place, or 0 where there is none.
#[inline]
fn byte_at(bytes: &[u8], place: usize) -> usize
    ensures value { result ≡ slice_index bytes.now place }
    ensures low { result < 256 }
{
    bytes.get(place).map_or(0, |byte| usize::from(*byte))
}
