ghost use Rattle.std.specs.Prelude.{◌≡◌, ◌++◌, true, nat_lt, length, IfOk, IfErr, Ok, Err, OnOk};
ghost use Rattle.budget.specs.Imports.{fileable};
ghost use Rattle.forecast_lines.specs.declared.Fault.TheVariants.{TooFewNumbers, Refused};
ghost use Rattle.forecasting.specs.Lines.{step_lines, after_step, steps, imports as import_lines, told, filed, listed, Answers, on_row, fewest, foretold};

use budget::imports::{RowAt, check_lengths, rest_long};
use budget::row::{BudgetRow, LevelRow};
use forecast_lines::{Fault, Line};
use measures::limits::LAST_TICK;
use mixed::MixedRow;
use outlook::entry::Entry;
use outlook::listing::list_tickets;
use server::ServerRow;
use spaced::SpacedRow;
use std::alloc::{AllocError, Global};
use waiting::ticket::Ticket;

// The budget rule of the row that a forecast is asked for.
#[derive(Clone, Copy, PartialEq, Eq, Debug)]
pub enum Rule {
    Server,
    Spaced,
}

// One import as an entry tells of it, on a row that has rested up to its tick: its two lines, and the row as the import leaves it.
fn step<R: LevelRow>(at: &mut RowAt<R>, entry: Entry) -> [Line; 2]
    ensures lines { result ≡ step_lines R.meaning at.old.row at.old.tick entry }
    ensures row { at.new.row ≡ after_step R.meaning at.old.row at.old.tick entry }
    ensures tick { at.new.tick ≡ entry.end }
{
    rest_long(&mut at.row, entry.start.saturating_sub(at.tick));
    let begin = Line::Begin {
        tick: entry.start,
        import: entry.number,
        level: at.row.level(),
    };
    let held = entry.end.saturating_sub(entry.start);
    at.row.ended(held);
    at.tick = entry.end;
    let end = Line::End {
        tick: entry.end,
        import: entry.number,
        held,
        level: at.row.level(),
        wait: at.row.wake(),
    };
    [begin, end]
}

// The lines of imports as they begin and end, after those that are there.
fn push_steps<R: LevelRow>(
    lines: &mut Vec<Line>,
    row: &R,
    entries: &[Entry],
) -> Result<(), AllocError>
    ensures { OnOk result (lines.new.items ≡ lines.old.items ++ steps R.meaning row.now 0 entries.now) }
{
    let mut at = RowAt { row: *row, tick: 0 };
    for entry in entries {
        lines.extend_from_slice(&step(&mut at, *entry))?;
    }
    Ok(())
}

// A line for each import, after those that are there.
fn push_imports(lines: &mut Vec<Line>, entries: &[Entry]) -> Result<(), AllocError>
    ensures { OnOk result (lines.new.items ≡ lines.old.items ++ import_lines entries.now) }
{
    for entry in entries {
        lines.push(Line::Import {
            import: entry.number,
            start: entry.start,
            end: entry.end,
            response: entry.end,
        })?;
    }
    Ok(())
}

#[tactic(auto, unfolding(crate::specs::Lines::told))]
fn tell<R: LevelRow>(heap: Global, row: &R, entries: &[Entry]) -> Result<Vec<Line>, AllocError>
    ensures { IfOk result (λ v. v.items ≡ told R.meaning row.now entries.now) }
{
    let terms = Line::Terms {
        rate: row.rate(),
        ceiling: row.ceiling(),
        threshold: row.threshold(),
    };
    let opening = Line::Opening {
        level: row.level(),
        wait: row.wake(),
    };
    let mut lines = Vec::with_capacity(heap, 2 + 3 * entries.len())?;
    lines.push(terms)?;
    lines.push(opening)?;
    push_steps(&mut lines, row, entries)?;
    push_imports(&mut lines, entries)?;
    Ok(lines)
}

// The tickets for imports of these lengths, as if they were the first that are filed at a new gate.
fn file(heap: Global, lengths: &[u64]) -> Result<Vec<Ticket>, AllocError>
    ensures { IfOk result (λ v. v.items ≡ filed lengths.now) }
{
    lengths
        .iter()
        .enumerate()
        .map(|(i, length)| Ticket {
            key: 0,
            number: i as u64 + 1,
            lab: 0,
            filed: 0,
            length: *length,
            due: LAST_TICK,
        })
        .collect(heap)
}

// The entries of imports of these lengths, filed at tick 0 and listed on a row. Lengths that cannot be filed are refused before memory is
// asked for.
#[tactic(auto, using(crate::proofs::Listed::listed_first))]
fn list_filed<R: BudgetRow>(heap: Global, row: &R, lengths: &[u64]) -> Result<Vec<Entry>, Fault>
    ensures said { Answers result (listed R.meaning row.now lengths.now) }
    ensures denied { IfErr (fileable lengths.now) (λ r. result ≡ Err (Refused r)) }
{
    check_lengths(lengths)?;
    let tickets = file(heap, lengths)?;
    let mut list = vec![in heap; Entry::default(); lengths.len()]?;
    list_tickets(row, 0, tickets.as_slice(), list.as_mut_slice())?;
    Ok(list)
}

// All that happens to imports of these lengths, filed on a row at tick 0.
pub fn forecast_row<R: LevelRow>(heap: Global, row: &R, lengths: &[u64]) -> Result<Vec<Line>, Fault>
    ensures said { Answers result (on_row R.meaning (Ok row.now) lengths.now) }
    // Lengths that cannot be filed are denied whatever memory there is.
    ensures denied { IfErr (fileable lengths.now) (λ r. result ≡ Err (Refused r)) }
{
    let list = list_filed(heap, row, lengths)?;
    Ok(tell(heap, row, list.as_slice())?)
}

// The forecast for the terms of a row of this rule, and the lengths of imports in order. It goes through a mixed row, as a host's table does.
pub fn forecast(heap: Global, rule: Rule, numbers: &[u64]) -> Result<Vec<Line>, Fault>
    ensures said { Answers result (foretold rule numbers.now) }
    // Too few numbers are told whatever memory there is.
    ensures few { nat_lt (length numbers.now) (fewest rule) ≡ true → result ≡ Err TooFewNumbers }
{
    match (rule, numbers) {
        (Rule::Server, [rate, ceiling, threshold, lengths @ ..]) if !lengths.is_empty() => {
            let row = ServerRow::new(*rate, *ceiling, *threshold)?;
            forecast_row(heap, &MixedRow::from(row), lengths)
        }
        (Rule::Spaced, [rate, lengths @ ..]) if !lengths.is_empty() => {
            let row = SpacedRow::new(*rate)?;
            forecast_row(heap, &MixedRow::from(row), lengths)
        }
        _ => Err(Fault::TooFewNumbers),
    }
}
