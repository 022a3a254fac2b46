ghost use Rattle.std.specs.Prelude.{◌≡◌, true, nat_lt, length, IfOk, Ok, Err};
ghost use Rattle.measures.specs.Limits.{most_plan_bytes};
ghost use Rattle.plan.specs.Readers.{Answers};
ghost use Rattle.plan.specs.Plans.{Lists, lists};
ghost use Rattle.plan.specs.Reading.{plan_of, read_plan, or_broken};
ghost use Rattle.plan.specs.Writing.{Writes};
ghost use Rattle.plan.specs.declared.faults.ReadError.TheVariants.{TooLong};

use crate::faults::ReadError;
use crate::fields::Span;
use crate::lines::Lines;
use crate::plan::Plan;
use measures::limits::{MOST_FILINGS, MOST_LABS, MOST_PLAN_BYTES, MOST_WITHDRAWALS};
use std::alloc::Global;

const LAB_COUNTS: Span = Span {
    least: 1,
    greatest: MOST_LABS,
};

const FILING_COUNTS: Span = Span {
    least: 0,
    greatest: MOST_FILINGS,
};

const WITHDRAWAL_COUNTS: Span = Span {
    least: 0,
    greatest: MOST_WITHDRAWALS,
};

// The plan that the bytes write, or the first break of its form.
#[tactic(auto, using(crate::proofs::RoundTrip::is_written, crate::proofs::RoundTrip::is_read))]
pub fn read_plan(heap: Global, bytes: &[u8]) -> Result<Plan, ReadError>
    ensures said { Answers lists result (read_plan bytes.now) }
    // Too many bytes are told whatever memory there is.
    ensures too_long { nat_lt most_plan_bytes (length bytes.now) ≡ true → result ≡ Err TooLong }
    // The bytes that are read as a plan write it,
    ensures written { IfOk result (λ p. Writes bytes.now (lists p)) }
    // and a plan that the bytes write is read, unless memory runs out.
    ensures read { (p : Lists) → Writes bytes.now p → Answers lists result (Ok p) }
{
    read(heap, bytes)
}

fn read(heap: Global, bytes: &[u8]) -> Result<Plan, ReadError>
    ensures said { Answers lists result (read_plan bytes.now) }
    ensures too_long { nat_lt most_plan_bytes (length bytes.now) ≡ true → result ≡ Err TooLong }
{
    if bytes.len() as u64 > MOST_PLAN_BYTES {
        return Err(ReadError::TooLong);
    }
    read_sections(heap, bytes)
}

#[tactic(auto, unfolding(crate::specs::Reading::plan_of))]
fn read_sections(heap: Global, bytes: &[u8]) -> Result<Plan, ReadError>
    ensures { Answers lists result (or_broken (plan_of bytes.now)) }
{
    let mut lines = Lines::new(bytes);
    let labs = lines.section(heap, LAB_COUNTS)?;
    let filings = lines.section(heap, FILING_COUNTS)?;
    let withdrawals = lines.section(heap, WITHDRAWAL_COUNTS)?;
    lines.end()?;
    Ok(Plan {
        labs,
        filings,
        withdrawals,
    })
}
