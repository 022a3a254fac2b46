ghost use Rattle.std.specs.Prelude.{◌≡◌, ◌≤◌, true, false, MatchOption};
ghost use Rattle.measures.specs.Limits.{last, is_tick};

use crate::limits::{LAST_TICK, is_tick};

// A count of ticks that a row can be told.
#[derive(Clone, Copy, PartialEq, Eq, Debug)]
pub struct Ticks {
    pub count: u64,
    ghost lawful: { count ≤ last },
}

impl Ticks {
    pub const LAST: Ticks = Ticks { count: LAST_TICK };

    pub fn new(count: u64) -> Option<Ticks>
        ensures { MatchOption result (is_tick count ≡ false) (λ ticks. (is_tick count ≡ true) × (ticks.count ≡ count)) }
    {
        if !is_tick(count) {
            return None;
        }
        Some(Ticks { count })
    }
}
