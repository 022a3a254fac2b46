ghost use Rattle.std.specs.Prelude.{◌≡◌, ◌<◌, ◌≤◌, map, length, slice_set, slice_index_or};
ghost use Rattle.std.specs.List.{sum_by};
ghost use Rattle.measures.specs.Limits.{last, most_labs};
ghost use Rattle.history.specs.Gates.{is_running, rested_one, rest_others};
ghost use Rattle.history.specs.Calls.{with_told};

use budget::row::BudgetRow;
use history::import::Import;

// What a call does to the table of rows.

#[tactic(auto, using(crate::proofs::Changed::one_anew))]
pub(crate) fn restart_all<R: BudgetRow>(rows: &mut [R])
    ensures { rows.new ≡ map R.meaning.restarted rows.old }
{
    for row in rows.iter_mut() {
        row.restart();
    }
}

// Every row rests for so many ticks, but that of the lab that holds the lock.
#[tactic(auto, using(crate::proofs::Changed::one_more, crate::proofs::Changed::all_done))]
pub(crate) fn rest_others<R: BudgetRow>(rows: &mut [R], running: Option<Import>, ticks: u64)
    requires { ticks ≤ last }
    ensures { rows.new ≡ rest_others R.meaning running ticks 0 rows.old }
{
    for lab in 0..rows.len() {
        rest_one(rows, lab, running, ticks);
    }
}

#[tactic(auto, using(crate::proofs::Changed::stored))]
fn rest_one<R: BudgetRow>(rows: &mut [R], lab: usize, running: Option<Import>, ticks: u64)
    requires { (lab < length rows.old) × (ticks ≤ last) }
    ensures { (d : R) → rows.new ≡ slice_set rows.old lab (rested_one R.meaning running ticks lab (slice_index_or rows.old lab d)) }
{
    if is_running(running, lab as u64) {
        return;
    }
    let mut row = rows[lab];
    row.rest(ticks);
    rows[lab] = row;
}

fn is_running(running: Option<Import>, lab: u64) -> bool
    ensures { result ≡ is_running running lab }
{
    running.is_some_and(|import| import.lab == lab)
}

// The row of a lab is told that a run of so many ticks has ended. One that answers no stays as it is.
pub(crate) fn tell<R: BudgetRow>(rows: &mut [R], lab: u64, held: u64)
    ensures { rows.new ≡ with_told R.meaning rows.old lab held }
{
    let lab = lab as usize;
    // by index, as rows rest; what `get_mut` leaves is not found by the search
    if lab < rows.len() {
        let mut row = rows[lab];
        row.ended(held);
        rows[lab] = row;
    }
}

#[tactic(auto, using(crate::proofs::Changed::one_added, crate::proofs::Changed::rate_within))]
pub(crate) fn rate_sum<R: BudgetRow>(rows: &[R]) -> u64
    requires { length rows.now ≤ most_labs }
    ensures { result ≡ sum_by R.meaning.rate rows.now }
{
    let mut sum = 0;
    for row in rows {
        sum += row.rate();
    }
    sum
}
