//! Which request is refused.

ghost use Rattle.std.specs.Prelude.{◌≡◌, ◌↔◌, ◌-◌, IsTrue};

use std::cell::Cell;

/// One step of a count that has `left` steps left: how many are left then, and whether it is the last.
fn step(left: u64) -> (u64, bool)
    ensures left { result.0 ≡ left - 1 }
    ensures last { IsTrue result.1 ↔ left ≡ 1 }
{
    (left.saturating_sub(1), left == 1)
}

/// The number of the request to refuse, counted down by each request.
#[derive(Drop)]
pub struct Countdown {
    left: Cell<u64>,
    over: Cell<bool>,
}

impl Countdown {
    /// Ends at step `at`, where 1 is the next one. At 0 it never ends.
    pub fn new(at: u64) -> Countdown {
        Countdown {
            left: Cell::new(at),
            over: Cell::new(false),
        }
    }

    /// Begins again.
    pub fn start(&self, at: u64) {
        self.left.set(at);
        self.over.set(false);
    }

    /// Takes one step, and says whether it is the one at which the count ends.
    pub fn ends(&self) -> bool {
        let (left, is_last) = step(self.left.get());
        self.left.set(left);
        if is_last {
            self.over.set(true);
        }
        is_last
    }

    /// True if the count has ended.
    pub fn is_over(&self) -> bool {
        self.over.get()
    }
}
