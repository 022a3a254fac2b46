ghost use Rattle.std.specs.Prelude.{◌≡◌, ◌<◌};
ghost use Rattle.measures.specs.Limits.{most_labs, greatest_lab_number};
ghost use Rattle.turns.specs.Orders.{from_to};
ghost use Rattle.turns.specs.Turns.{after_served, order};
ghost use Rattle.turns.specs.Circular.{circular, place, ending_with, round_to};
ghost use Rattle.turns.specs.CircularIsFair.{circular_fair};

use crate::rule::TurnRule;
use measures::limits::{GREATEST_LAB_NUMBER, is_lab_number};

// The turns go round, and whoever was served last comes last.
#[derive(Clone, Copy, PartialEq, Eq, Debug)]
pub struct CircularTurns {
    // the number that ends the order; any number stored here gives an order
    ends_with: u64,
}

impl CircularTurns {
    #[tactic(auto, using(crate::proofs::CircularOrder::order_begins))]
    pub fn new() -> CircularTurns
        ensures value { result ≡ ending_with greatest_lab_number }
        ensures order { order circular result ≡ from_to 0 greatest_lab_number }
    {
        CircularTurns {
            ends_with: GREATEST_LAB_NUMBER,
        }
    }

    fn place(&self, n: u64) -> u64
        ensures { result ≡ place self.now n }
    {
        if n > self.ends_with {
            n - self.ends_with - 1
        } else {
            n + GREATEST_LAB_NUMBER.saturating_sub(self.ends_with)
        }
    }
}

impl TurnRule for CircularTurns {
    ghost turns = { circular };

    ghost fair = { circular_fair };

    fn ahead(&self, a: u64, b: u64) -> bool {
        is_lab_number(a) && is_lab_number(b) && self.place(a) < self.place(b)
    }

    #[tactic(auto, using(crate::proofs::CircularOrder::order_goes_round))]
    fn served(&mut self, k: u64)
        ensures rule { self.new ≡ after_served circular self.old k }
        ensures order { k < most_labs → order circular self.new ≡ round_to k }
    {
        if is_lab_number(k) {
            self.ends_with = k;
        }
    }
}
