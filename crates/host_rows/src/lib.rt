// The budget row of one lab as a host keeps it that is not written in this language: numbers alone, in a layout that C knows.
#![tactic(auto)]

ghost use Rattle.std.specs.Prelude.{◌≡◌};
ghost use Rattle.host_rows.specs.Row.{host, held, stored, made_server, made_spaced};
ghost use Rattle.host_rows.specs.Keeps.{keeps};

use budget::row::BudgetRow;
use measures::refusal::Refusal;
use mixed::MixedRow;
use server::ServerRow;
use spaced::SpacedRow;

// A host may store anything here: a number out of its range is read as the nearest lawful one. What the row's rule does not name is not read
// and stays as it is.
#[repr(C)]
#[derive(Clone, Copy, PartialEq, Eq, Debug)]
pub struct HostRow {
    // 0 for a server row, and 1 for a spaced row
    pub rule: u64,
    // thousandths of a tick per tick
    pub rate: u64,
    // of a server row: thousandths of a tick, as the next two
    pub ceiling: u64,
    pub threshold: u64,
    // below 0 in debt
    pub level: i64,
    // of a server row: a mark, 0 for no and 1 for yes
    pub able: u64,
    // of a spaced row: ticks left of the pause
    pub left: u64,
}

impl HostRow {
    // A server row on these terms, as at its beginning.
    pub fn server(rate: u64, ceiling: u64, threshold: u64) -> Result<HostRow, Refusal>
        ensures { result ≡ made_server rate ceiling threshold }
    {
        let row = ServerRow::new(rate, ceiling, threshold)?;
        Ok(HostRow {
            rule: 0,
            rate: row.rate,
            ceiling: row.ceiling,
            threshold: row.threshold,
            level: row.level,
            able: row.able as u64,
            left: 0,
        })
    }

    // A spaced row of this rate, as at its beginning.
    pub fn spaced(rate: u64) -> Result<HostRow, Refusal>
        ensures { result ≡ made_spaced rate }
    {
        let row = SpacedRow::new(rate)?;
        Ok(HostRow {
            rule: 1,
            rate: row.rate,
            ceiling: 0,
            threshold: 0,
            level: 0,
            able: 0,
            left: row.left,
        })
    }

    // The row that is meant.
    fn held(&self) -> MixedRow
        ensures { result ≡ held self.now }
    {
        if self.rule == 0 {
            MixedRow::Server(ServerRow {
                rate: self.rate,
                ceiling: self.ceiling,
                threshold: self.threshold,
                level: self.level,
                able: self.able != 0,
            })
        } else {
            MixedRow::Spaced(SpacedRow {
                rate: self.rate,
                left: self.left,
            })
        }
    }

    // Keeps what changes of a row.
    fn store(&mut self, row: MixedRow)
        ensures { self.new ≡ stored self.old row }
    {
        match row {
            MixedRow::Server(row) => {
                self.level = row.level;
                self.able = row.able as u64;
            }
            MixedRow::Spaced(row) => self.left = row.left,
        }
    }
}

impl BudgetRow for HostRow {
    ghost meaning = { host };

    ghost sentences = { keeps };

    fn restart(&mut self) {
        let mut row = self.held();
        row.restart();
        self.store(row);
    }

    fn rest(&mut self, ticks: u64) -> bool {
        let mut row = self.held();
        let rests = row.rest(ticks);
        if rests {
            self.store(row);
        }
        rests
    }

    fn ended(&mut self, ticks: u64) -> bool {
        let mut row = self.held();
        let ends = row.ended(ticks);
        if ends {
            self.store(row);
        }
        ends
    }

    fn able(&self) -> bool {
        self.held().able()
    }

    fn wake(&self) -> u64 {
        self.held().wake()
    }

    fn rate(&self) -> u64 {
        self.held().rate()
    }
}
