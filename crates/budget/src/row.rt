ghost use Rattle.std.specs.Prelude.{◌≡◌, ◌&&◌, if◌then◌else◌};
ghost use Rattle.measures.specs.Limits.{is_tick};
ghost use Rattle.budget.specs.Meaning.{Meaning, Sentences};

// The budget of one lab. Rows are plain: a host keeps them and may store anything in them, and every sentence holds of whatever a row holds.
// A row denies by no, and not by a refusal: the rule gives what it denies no number.
pub trait BudgetRow: Copy {
    ghost meaning: { Meaning Self };

    // Back to the beginning.
    fn restart(&mut self)
        ensures { self.new ≡ meaning.restarted self.old };

    // So many ticks have passed without a run. No, and nothing changes, above the last tick.
    fn rest(&mut self, ticks: u64) -> bool
        ensures answer { result ≡ is_tick ticks }
        ensures left { self.new ≡ (if result then meaning.rested self.old ticks else self.old) };

    // A run of so many ticks has just ended. No, and nothing changes, above the last tick or on a row that is not able.
    fn ended(&mut self, ticks: u64) -> bool
        ensures answer { result ≡ (is_tick ticks && meaning.able self.old) }
        ensures left { self.new ≡ (if result then meaning.ended self.old ticks else self.old) };

    // Whether an import may begin.
    fn able(&self) -> bool
        ensures { result ≡ meaning.able self.now };

    // The ticks of rest still missing.
    fn wake(&self) -> u64
        ensures { result ≡ meaning.wake self.now };

    fn rate(&self) -> u64
        ensures { result ≡ meaning.rate self.now };

    ghost sentences: { Sentences meaning };
}

// A row that also tells its level, its ceiling and its threshold.
pub trait LevelRow: BudgetRow {
    // In thousandths of a tick, as the next two, and below 0 in debt.
    fn level(&self) -> i64
        ensures { result ≡ Self.meaning.level self.now };

    fn ceiling(&self) -> u64
        ensures { result ≡ Self.meaning.ceiling self.now };

    fn threshold(&self) -> u64
        ensures { result ≡ Self.meaning.threshold self.now };
}
