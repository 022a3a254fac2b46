// The lines of a forecast, and why there is none: as values, and as text.
#![tactic(auto)]

ghost use Rattle.std.specs.Prelude.{◌≡◌};
ghost use Rattle.forecast_lines.specs.declared.Fault.TheVariants.{Refused, OutOfMemory};

use measures::refusal::Refusal;
use std::alloc::{AllocError, AllocFailed};

pub mod text;

// One line of a forecast. Imports count from 1, and a wait is the wake of the row, which is 0 just when the row is able.
#[derive(Clone, Copy, PartialEq, Eq, Debug)]
pub enum Line {
    Terms {
        rate: u64,
        ceiling: u64,
        threshold: u64,
    },
    Opening {
        level: i64,
        wait: u64,
    },
    Begin {
        tick: u64,
        import: u64,
        level: i64,
    },
    End {
        tick: u64,
        import: u64,
        held: u64,
        level: i64,
        wait: u64,
    },
    // all imports are filed at tick 0, so the response time is the end
    Import {
        import: u64,
        start: u64,
        end: u64,
        response: u64,
    },
}

// Why there is no forecast.
#[derive(Clone, Copy, PartialEq, Eq, Debug)]
pub enum Fault {
    // the word at this place, counted from 1
    NotANumber(usize),
    // the numbers are not the terms of a row and one length or more
    TooFewNumbers,
    Refused(Refusal),
    OutOfMemory,
}

// Contracts name the fault that `?` makes of an error.
impl From<Refusal> for Fault {
    ghost from_gives = { λ r f. f ≡ Refused r };

    fn from(refusal: Refusal) -> Fault {
        Fault::Refused(refusal)
    }
}

impl From<AllocError> for Fault {
    ghost from_gives = { λ _ f. f ≡ OutOfMemory };

    fn from(_error: AllocError) -> Fault {
        Fault::OutOfMemory
    }
}

impl<T: Drop> From<AllocFailed<T>> for Fault {
    ghost from_gives = { λ _ f. f ≡ OutOfMemory };

    fn from(_refused: AllocFailed<T>) -> Fault {
        Fault::OutOfMemory
    }
}
