use plan::faults::{Break, ReadError};
use plan::plan::{Filing, Terms, Withdrawal};
use plan::reading::read_plan;
use std::alloc::Global;
use std::process::Abort;
use std::test::Fail;

// Bytes, and the line and field at which they first break the form of a plan. Most are this plan with a fault in it:
// 2|5 6 7|8 9 10|1|11 1 12 13|1|14 1|
pub type Broken = (&'static [u8], u64, u64);

pub fn broken_at(line: u64, field: u64) -> ReadError {
    ReadError::Broken(Break { line, field })
}

pub fn check_broken(rt: &impl Abort, heap: Global, table: &[Broken]) {
    for (bytes, line, field) in table {
        let expected = Some(broken_at(*line, *field));
        assert_eq!(rt;
            read_plan(heap, bytes).err(),
            expected,
            "of {}",
            bytes.escape_ascii()
        );
    }
}

// All that a plan says.
#[derive(Clone, Copy)]
pub struct Lists<'a> {
    pub labs: &'a [Terms],
    pub filings: &'a [Filing],
    pub withdrawals: &'a [Withdrawal],
}

pub fn check_read(rt: &impl Abort, heap: Global, bytes: &[u8], lists: Lists) -> Result<(), Fail> {
    let plan = read_plan(heap, bytes)?;
    assert_eq!(rt; plan.labs.as_slice(), lists.labs);
    assert_eq!(rt; plan.filings.as_slice(), lists.filings);
    assert_eq!(rt; plan.withdrawals.as_slice(), lists.withdrawals);
    Ok(())
}
