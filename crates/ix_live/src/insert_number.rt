//! The ascending list of the numbers that are removed.
ghost use Rattle.std.specs.Prelude.{◌≡◌, ◌<◌, ◌⊎◌, ◌↔◌, ℕ, Contains, vec_capacity, vec_len};
ghost use Rattle.std.specs.List.Sorted.{IsStrictlyIncreasing};

/// Puts a number into an ascending list that has room for it, if it is not there yet.
pub fn insert_number(numbers: &mut Vec<u32>, number: u32)
    requires ascending { IsStrictlyIncreasing numbers.old.items }
    requires room { vec_len numbers.old < vec_capacity numbers.old }
    ensures ascending { IsStrictlyIncreasing numbers.new.items }
    ensures has { (other : ℕ) → Contains numbers.new.items other
        ↔ (Contains numbers.old.items other ⊎ (number ≡ other)) }
{
    match numbers.binary_search(&number) {
        Ok(_) => (),
        Err(place) => match numbers.insert(place, number) {
            Ok(()) => (),
            Err(_) => unreachable!(),
        },
    }
}
