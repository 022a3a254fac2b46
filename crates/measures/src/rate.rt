ghost use Rattle.std.specs.Prelude.{◌≡◌, ◌-◌, ◌*◌, ◌≤◌};
ghost use Rattle.measures.specs.Limits.{last, least_rate, greatest_rate, nearest_rate};
ghost use Rattle.measures.specs.Division.{up_div};

use crate::division::div_up;
use crate::limits::{GREATEST_RATE, LEAST_RATE, THOUSANDTHS};
use crate::ticks::Ticks;

// A lawful rate, in thousandths of a tick per tick.
#[derive(Clone, Copy, PartialEq, Eq, Debug)]
pub struct Rate {
    pub per_tick: u64,
    ghost low: { least_rate ≤ per_tick },
    ghost high: { per_tick ≤ greatest_rate },
}

impl Rate {
    // The lawful rate that is nearest to a stored one.
    pub fn nearest(rate: u64) -> Rate
        ensures { result.per_tick ≡ nearest_rate rate }
    {
        Rate {
            per_tick: rate.clamp(LEAST_RATE, GREATEST_RATE),
        }
    }

    // What this rate makes up for in so many ticks, in thousandths of a tick.
    pub fn gain(self, ticks: Ticks) -> u64
        ensures value { result ≡ self.per_tick * ticks.count }
        ensures bound { result ≤ 1000 * last }
    {
        self.per_tick * ticks.count
    }

    // What a run of so many ticks takes off a level, in thousandths of a tick: of each tick, all but this rate.
    pub fn charge(self, ticks: Ticks) -> u64
        ensures value { result ≡ (1000 - self.per_tick) * ticks.count }
        ensures bound { result ≤ 1000 * last }
    {
        (THOUSANDTHS - self.per_tick) * ticks.count
    }

    // The ticks in which this rate makes up for so many thousandths of a tick.
    pub fn ticks_for(self, thousandths: u64) -> u64
        ensures { result ≡ up_div thousandths self.per_tick }
    {
        div_up(thousandths, self.per_tick).unwrap()
    }
}
