// The spaced row: imports of one lab are spaced by a pause in proportion to the ticks held, and nothing is saved up.
#![tactic(auto)]

ghost use Rattle.std.specs.Prelude.{◌≡◌, ◌*◌, ◌≤◌, true, ◌&&◌, if◌then◌else◌};
ghost use Rattle.measures.specs.Limits.{last, is_tick};
ghost use Rattle.spaced.specs.Row.{spaced, made, pause, ShortestPause, rate_of, left_of};
ghost use Rattle.spaced.specs.Keeps.{keeps};

use budget::row::{BudgetRow, LevelRow};
use measures::limits::is_rate;
use measures::rate::Rate;
use measures::refusal::Refusal;
use measures::ticks::Ticks;

// So many ticks left are never cut, whatever the rate: the longest pause is longer.
const NEVER_CUT: u64 = 1_000_000_000;

// A host may store anything here: a number out of its range is read as the nearest lawful one.
#[derive(Clone, Copy, PartialEq, Eq, Debug)]
pub struct SpacedRow {
    // thousandths of a tick per tick
    pub rate: u64,
    // ticks left of the pause
    pub left: u64,
}

impl SpacedRow {
    pub fn new(rate: u64) -> Result<SpacedRow, Refusal>
        ensures { result ≡ made rate }
    {
        if !is_rate(rate) {
            return Err(Refusal::RateOutOfRange);
        }
        Ok(SpacedRow { rate, left: 0 })
    }

    // The ticks left of the pause, as they are read. The longest pause, which takes a division, is asked for only where it may be the shorter.
    #[tactic(auto, using(crate::specs::Keeps::debt_high, crate::proofs::Spacing::never_cut))]
    fn left(&self) -> u64
        ensures value { result ≡ left_of self.now }
        ensures bound { rate_of self.now * result ≤ 1000 * last }
    {
        if self.left <= NEVER_CUT {
            return self.left;
        }
        self.left.min(pause(self.lawful_rate(), Ticks::LAST))
    }

    // The rate, as it is read.
    fn lawful_rate(&self) -> Rate
        ensures { result.per_tick ≡ rate_of self.now }
    {
        Rate::nearest(self.rate)
    }
}

// The pause after a run of so many ticks.
fn pause(rate: Rate, ticks: Ticks) -> u64
    ensures value { result ≡ pause rate.per_tick ticks.count }
    ensures shortest { ShortestPause rate.per_tick ticks.count result }
{
    rate.ticks_for(rate.charge(ticks))
}

impl BudgetRow for SpacedRow {
    ghost meaning = { spaced };

    ghost sentences = { keeps };

    fn restart(&mut self) {
        self.left = 0;
    }

    fn rest(&mut self, ticks: u64) -> bool {
        let Some(ticks) = Ticks::new(ticks) else {
            return false;
        };
        self.left = self.left().saturating_sub(ticks.count);
        true
    }

    #[tactic(auto, using(crate::proofs::Spacing::shortest_read))]
    fn ended(&mut self, ticks: u64) -> bool
        ensures answer { result ≡ (is_tick ticks && spaced.able self.old) }
        ensures left { self.new ≡ (if result then spaced.ended self.old ticks else self.old) }
        ensures spacing { result ≡ true → ShortestPause (rate_of self.old) ticks (spaced.wake self.new) }
    {
        match Ticks::new(ticks) {
            Some(ticks) if self.able() => {
                self.left = pause(self.lawful_rate(), ticks);
                true
            }
            _ => false,
        }
    }

    fn able(&self) -> bool {
        self.wake() == 0
    }

    fn wake(&self) -> u64 {
        self.left()
    }

    fn rate(&self) -> u64 {
        self.lawful_rate().per_tick
    }
}

impl LevelRow for SpacedRow {
    fn level(&self) -> i64 {
        -((self.rate() * self.left()) as i64)
    }

    fn ceiling(&self) -> u64 {
        0
    }

    fn threshold(&self) -> u64 {
        self.ceiling()
    }
}
