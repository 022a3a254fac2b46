ghost use Rattle.std.specs.Prelude.{IfOk};
ghost use Rattle.plan.specs.Plans.{lists};
ghost use Rattle.plan.specs.Readers.{Answers};
ghost use Rattle.plan.specs.Reading.{read_plan};
ghost use Rattle.course.specs.Playing.{prints, played};
ghost use Rattle.playing.specs.Stages.{IsLawful, Prints};

use crate::lines::{bad_line, big_line, no_line};
use crate::start::{NoStart, start};
use plan::faults::ReadError;
use plan::plan::Plan;
use plan::reading::read_plan;
use std::alloc::{AllocError, Global};

// What is printed when the plan that these bytes write is played from tick 0 to the last tick; or that there are too many bytes, or where they
// first break the form of a plan. Memory may run out, and there is no other answer.
#[tactic(auto, using(crate::proofs::Said::prints_plan, crate::proofs::Said::prints_bad, crate::proofs::Said::prints_big, crate::proofs::Said::no_memory))]
pub fn play(heap: Global, bytes: &[u8]) -> Result<String, AllocError>
    ensures { Prints result (prints bytes.now) }
{
    match read(heap, bytes) {
        Ok(plan) => play_plan(heap, &plan),
        Err(ReadError::TooLong) => big_line(heap),
        Err(ReadError::Broken(at)) => bad_line(heap, at),
        Err(ReadError::OutOfMemory) => Err(AllocError),
    }
}

// The plan, which is within the limits of its form.
#[tactic(auto, using(crate::proofs::Said::lawful))]
fn read(heap: Global, bytes: &[u8]) -> Result<Plan, ReadError>
    ensures said { Answers lists result (read_plan bytes.now) }
    ensures lawful { IfOk result (λ p. IsLawful (lists p)) }
{
    read_plan(heap, bytes)
}

#[tactic(auto, using(crate::proofs::Said::play_begins, crate::proofs::Said::play_refused, crate::proofs::Said::fresh, crate::proofs::Said::no_memory))]
fn play_plan(heap: Global, plan: &Plan) -> Result<String, AllocError>
    requires lawful { IsLawful (lists plan.now) }
    ensures { Prints result (played (lists plan.now)) }
{
    match start(heap, plan.labs.as_slice()) {
        Ok(stage) => stage.play(heap, plan),
        Err(NoStart::Refused { line, refusal }) => no_line(heap, line, refusal),
        Err(NoStart::OutOfMemory) => Err(AllocError),
    }
}
