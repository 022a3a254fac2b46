ghost use Rattle.std.specs.Prelude.{◌≡◌};
ghost use Rattle.turns.specs.Turns.{Turns, Fair, is_ahead, after_served};

// An order of the numbers that labs may have, 0 to 63, in which labs take turns.
pub trait TurnRule {
    ghost turns: { Turns Self };

    // Whether `a` comes before `b`. No for equal numbers, and where one is above 63.
    fn ahead(&self, a: u64, b: u64) -> bool
        ensures { result ≡ is_ahead turns self.now a b };

    // `k` was served. Nothing changes for a number above 63.
    fn served(&mut self, k: u64)
        ensures { self.new ≡ after_served turns self.old k };

    ghost fair: { Fair turns };
}
