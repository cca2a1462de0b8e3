//! The order in which a desk goes over the places.
ghost use Rattle.std.specs.Prelude.{◌≡◌, ℕ, ◌+◌, ◌<◌, ◌≤◌, ◌⊎◌, IfSome, IfNone, Some};

/// Goes over all places but its own in a circle, from some place on, each once. Desks that begin far from each other
/// seldom meet.
#[derive(Drop)]
pub(crate) struct Tour {
    own: usize,
    next: usize,
    left: usize,
    count: usize,
    ghost in_circle: { (0 < left → next < count) × (next ≤ count) × (left ≤ count) },
}

impl Tour {
    ghost use Rattle.ix_board.specs.Tours.{HasPassed};

    /// The tour of a worker, which begins in the section of its number where the places are cut into as many sections as
    /// there are workers.
    pub fn of_worker(count: usize, workers: usize, number: usize) -> Tour
        requires { number < workers }
        ensures { (result.count ≡ count) × (result.left ≡ count) × (result.next ≤ count)
            × (result.own ≡ number) }
    {
        let section = count / workers;
        Tour {
            own: number,
            next: number * section,
            left: count,
            count,
        }
    }

    // The next place of the circle, or none where each was passed.
    fn pass(&mut self) -> Option<usize>
        ensures same { (self.new.count ≡ self.old.count) × (self.new.own ≡ self.old.own)
            × (self.new.left ≤ self.old.left) }
        ensures some { IfSome result (λ k. (k < self.old.count)
            × (self.new.left + 1 ≡ self.old.left)) }
        ensures passes { (j : ℕ) → j < self.old.count → HasPassed self.new j → (result ≡ Some j)
            ⊎ HasPassed self.old j }
        ensures none { IfNone result ((j : ℕ) → j < self.old.count → HasPassed self.new j) }
    {
        if self.left == 0 {
            return None;
        }
        let place = self.next;
        self.left -= 1;
        self.next = if place + 1 == self.count {
            0
        } else {
            place + 1
        };
        Some(place)
    }

    /// The next place that is not its own, or none where each was passed.
    pub fn next_place(&mut self) -> Option<usize>
        ensures same { (self.new.count ≡ self.old.count) × (self.new.own ≡ self.old.own)
            × (self.new.left ≤ self.old.left) }
        ensures some { IfSome result (λ k. (k < self.old.count)
            × (self.new.left + 1 ≤ self.old.left)) }
        ensures passes { (j : ℕ) → j < self.old.count → HasPassed self.new j → (result ≡ Some j)
            ⊎ (j ≡ self.old.own) ⊎ HasPassed self.old j }
        ensures none { IfNone result ((j : ℕ) → j < self.old.count → HasPassed self.new j) }
    {
        let Some(place) = self.pass() else {
            return None;
        };
        if place == self.own {
            self.pass()
        } else {
            Some(place)
        }
    }
}
