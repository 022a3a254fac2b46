// The server row: a budget that fills at its rate up to a ceiling, and that a run empties at the rest of each tick.
#![tactic(auto)]

ghost use Rattle.std.specs.Prelude.{◌≡◌, pos, neg_ℤ, ◌≤ℤ◌};
ghost use Rattle.measures.specs.Limits.{greatest_ceiling};
ghost use Rattle.server.specs.Row.{server, made, level_of, rate_of, deepest, raised, charged, missing};
ghost use Rattle.server.specs.Keeps.{keeps};

use budget::row::{BudgetRow, LevelRow};
use measures::limits::{GREATEST_CEILING, is_ceiling, is_rate};
use measures::rate::Rate;
use measures::refusal::Refusal;
use measures::ticks::Ticks;

// A host may store anything here: a number out of its range is read as the nearest lawful one.
#[derive(Clone, Copy, PartialEq, Eq, Debug)]
pub struct ServerRow {
    // thousandths of a tick per tick
    pub rate: u64,
    // thousandths of a tick, as the next two
    pub ceiling: u64,
    pub threshold: u64,
    // below 0 in debt
    pub level: i64,
    // a mark and no state of its own, since a host may store any mark beside any level
    pub able: bool,
}

// Levels and thousandths are cast by `as`: each cast is proved to lose nothing, and `try_from` would add a case that never comes.
impl ServerRow {
    pub fn new(rate: u64, ceiling: u64, threshold: u64) -> Result<ServerRow, Refusal>
        ensures { result ≡ made rate ceiling threshold }
    {
        if !is_rate(rate) {
            return Err(Refusal::RateOutOfRange);
        }
        if !is_ceiling(ceiling) {
            return Err(Refusal::CeilingOutOfRange);
        }
        if threshold > ceiling {
            return Err(Refusal::ThresholdAboveCeiling);
        }
        let mut row = ServerRow {
            rate,
            ceiling,
            threshold,
            level: 0,
            able: false,
        };
        row.restart();
        Ok(row)
    }

    // The rate, as it is read.
    fn lawful_rate(&self) -> Rate
        ensures { result.per_tick ≡ rate_of self.now }
    {
        Rate::nearest(self.rate)
    }

    // The level that so many ticks of rest raise it to.
    fn raised(&self, ticks: Ticks) -> i64
        ensures { result ≡ raised self.now ticks.count }
    {
        let risen = self.level() + self.lawful_rate().gain(ticks) as i64;
        risen.min(self.ceiling() as i64)
    }

    // The level that a run of so many ticks leaves.
    fn charged(&self, ticks: Ticks) -> i64
        ensures { result ≡ charged self.now ticks.count }
    {
        self.level() - self.lawful_rate().charge(ticks) as i64
    }

    // How far the level is from the threshold.
    fn missing(&self) -> u64
        ensures { result ≡ missing self.now }
    {
        (self.threshold() as i64 - self.level()).unsigned_abs()
    }
}

impl BudgetRow for ServerRow {
    ghost meaning = { server };

    ghost sentences = { keeps };

    fn restart(&mut self) {
        self.level = 0;
        self.able = self.threshold() == 0;
    }

    fn rest(&mut self, ticks: u64) -> bool {
        let Some(ticks) = Ticks::new(ticks) else {
            return false;
        };
        let level = self.raised(ticks);
        self.able = self.able() || self.threshold() as i64 <= level;
        self.level = level;
        true
    }

    fn ended(&mut self, ticks: u64) -> bool {
        match Ticks::new(ticks) {
            Some(ticks) if self.able() => {
                let level = self.charged(ticks);
                self.able = 0 <= level;
                self.level = level;
                true
            }
            _ => false,
        }
    }

    fn able(&self) -> bool {
        let level = self.level();
        self.threshold() as i64 <= level || (self.able && 0 <= level)
    }

    fn wake(&self) -> u64 {
        if self.able() {
            return 0;
        }
        self.lawful_rate().ticks_for(self.missing())
    }

    fn rate(&self) -> u64 {
        self.lawful_rate().per_tick
    }
}

impl LevelRow for ServerRow {
    fn level(&self) -> i64
        ensures value { result ≡ level_of self.now }
        ensures low_bound { neg_ℤ (pos deepest) ≤ℤ result }
        ensures high_bound { result ≤ℤ pos greatest_ceiling }
    {
        let low = -(self.lawful_rate().charge(Ticks::LAST) as i64);
        self.level.clamp(low, self.ceiling() as i64)
    }

    fn ceiling(&self) -> u64 {
        self.ceiling.min(GREATEST_CEILING)
    }

    fn threshold(&self) -> u64 {
        self.threshold.min(self.ceiling())
    }
}
