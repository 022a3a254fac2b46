// The mixed row: a table of these holds rows of both budget rules side by side.
#![tactic(auto)]

ghost use Rattle.std.specs.Prelude.{◌≡◌};
ghost use Rattle.mixed.specs.Row.{mixed};
ghost use Rattle.mixed.specs.Keeps.{keeps};
ghost use Rattle.mixed.specs.declared.MixedRow.TheVariants.{Server, Spaced};

use budget::row::{BudgetRow, LevelRow};
use server::ServerRow;
use spaced::SpacedRow;

// A row of the rule that a lab's licence names; it behaves as the row it holds. It is an enum and no `dyn`, since a host keeps rows in a
// table and copies them.
#[derive(Clone, Copy, PartialEq, Eq, Debug)]
pub enum MixedRow {
    Server(ServerRow),
    Spaced(SpacedRow),
}

impl From<ServerRow> for MixedRow {
    ghost from_gives = { λ held row. row ≡ Server held };

    fn from(held: ServerRow) -> MixedRow {
        MixedRow::Server(held)
    }
}

impl From<SpacedRow> for MixedRow {
    ghost from_gives = { λ held row. row ≡ Spaced held };

    fn from(held: SpacedRow) -> MixedRow {
        MixedRow::Spaced(held)
    }
}

impl BudgetRow for MixedRow {
    ghost meaning = { mixed };

    ghost sentences = { keeps };

    fn restart(&mut self) {
        match self {
            MixedRow::Server(row) => row.restart(),
            MixedRow::Spaced(row) => row.restart(),
        }
    }

    fn rest(&mut self, ticks: u64) -> bool {
        match self {
            MixedRow::Server(row) => row.rest(ticks),
            MixedRow::Spaced(row) => row.rest(ticks),
        }
    }

    fn ended(&mut self, ticks: u64) -> bool {
        match self {
            MixedRow::Server(row) => row.ended(ticks),
            MixedRow::Spaced(row) => row.ended(ticks),
        }
    }

    fn able(&self) -> bool {
        match self {
            MixedRow::Server(row) => row.able(),
            MixedRow::Spaced(row) => row.able(),
        }
    }

    fn wake(&self) -> u64 {
        match self {
            MixedRow::Server(row) => row.wake(),
            MixedRow::Spaced(row) => row.wake(),
        }
    }

    fn rate(&self) -> u64 {
        match self {
            MixedRow::Server(row) => row.rate(),
            MixedRow::Spaced(row) => row.rate(),
        }
    }
}

impl LevelRow for MixedRow {
    fn level(&self) -> i64 {
        match self {
            MixedRow::Server(row) => row.level(),
            MixedRow::Spaced(row) => row.level(),
        }
    }

    fn ceiling(&self) -> u64 {
        match self {
            MixedRow::Server(row) => row.ceiling(),
            MixedRow::Spaced(row) => row.ceiling(),
        }
    }

    fn threshold(&self) -> u64 {
        match self {
            MixedRow::Server(row) => row.threshold(),
            MixedRow::Spaced(row) => row.threshold(),
        }
    }
}
