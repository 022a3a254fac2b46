ghost use Rattle.std.specs.Prelude.{◌≡◌};
ghost use Rattle.course.specs.Asking.{labs_line};
ghost use Rattle.course.specs.Playing.{row_of, rows_of, beginning};
ghost use Rattle.playing.specs.Stages.{Tells};
ghost use Rattle.playing.specs.declared.start.NoStart.TheVariants.{OutOfMemory};

use crate::stage::Stage;
use gate::gate::Gate;
use measures::refusal::Refusal;
use plan::plan::Terms;
use server::ServerRow;
use std::alloc::{AllocFailed, Global};
use turns::circular::CircularTurns;
use waiting::queue_order::QueueOrder;

// Why a play does not begin.
#[derive(Clone, Copy, PartialEq, Eq, Debug)]
pub(crate) enum NoStart {
    // what stands on this line of the plan; an opening that is refused counts for line 1
    Refused { line: u64, refusal: Refusal },
    OutOfMemory,
}

impl<T: Drop> From<AllocFailed<T>> for NoStart {
    ghost from_gives = { λ _ e. e ≡ OutOfMemory };

    fn from(_refused: AllocFailed<T>) -> NoStart {
        NoStart::OutOfMemory
    }
}

// The stage at which a play of these labs begins.
#[tactic(auto, unfolding(course::specs::Playing::beginning))]
pub(crate) fn start(heap: Global, labs: &[Terms]) -> Result<Stage, NoStart>
    ensures { Tells (λ s. s) result (beginning labs.now) }
{
    let mut rows = rows_of(heap, labs)?;
    let mut gate = Gate::new(CircularTurns::new());
    match gate.open(rows.as_mut_slice(), QueueOrder::Arrival) {
        Ok(()) => Ok(Stage {
            gate,
            rows,
            printed: String::new(heap),
        }),
        // an opening has no line of its own
        Err(refusal) => Err(NoStart::Refused { line: 1, refusal }),
    }
}

// A row for each lab. The first lab stands on line 2, after the count of labs.
#[tactic(auto, using(crate::proofs::Rows::no_row, crate::proofs::Rows::one_row, crate::proofs::Rows::row_refused, crate::proofs::Rows::all_rows))]
fn rows_of(heap: Global, labs: &[Terms]) -> Result<Vec<ServerRow>, NoStart>
    ensures { Tells (λ v. v.items) result (rows_of labs_line labs.now) }
{
    let mut rows = Vec::new(heap);
    for (place, terms) in labs.iter().enumerate() {
        match row_of(*terms) {
            Ok(row) => rows.push(row)?,
            Err(refusal) => {
                return Err(NoStart::Refused {
                    line: place as u64 + 2,
                    refusal,
                });
            }
        }
    }
    Ok(rows)
}

#[tactic(auto, unfolding(course::specs::Playing::row_of))]
fn row_of(terms: Terms) -> Result<ServerRow, Refusal>
    ensures { result ≡ row_of terms }
{
    ServerRow::new(terms.rate, terms.ceiling, terms.threshold)
}
