ghost use Rattle.std.specs.Prelude.{◌≡◌};
ghost use Rattle.budget.specs.Imports.{rest_long, are_lengths, fileable};

use crate::row::BudgetRow;
use measures::limits::{LAST_TICK, MOST_WAITING, is_length};
use measures::refusal::Refusal;

// A row as it is at a tick.
#[derive(Clone, Copy, PartialEq, Eq, Debug)]
pub struct RowAt<R> {
    pub row: R,
    pub tick: u64,
}

// Rests a row for any number of ticks, in counts of at most the last tick.
pub fn rest_long<R: BudgetRow>(row: &mut R, ticks: u64)
    ensures { row.new ≡ rest_long R.meaning row.old ticks }
{
    for _i in 0..ticks / LAST_TICK {
        row.rest(LAST_TICK);
    }
    row.rest(ticks % LAST_TICK);
}

// Whether a lab with no ticket waiting can file imports of these lengths one after another, or the first refusal.
pub fn check_lengths(lengths: &[u64]) -> Result<(), Refusal>
    ensures { result ≡ fileable lengths.now }
{
    if !all_lengths(lengths) {
        return Err(Refusal::LengthOutOfRange);
    }
    if lengths.len() as u64 > MOST_WAITING {
        return Err(Refusal::QueueFull);
    }
    Ok(())
}

// Whether each of these is a length that an import may declare.
fn all_lengths(lengths: &[u64]) -> bool
    ensures { result ≡ are_lengths lengths.now }
{
    lengths.iter().all(|length| is_length(*length))
}
