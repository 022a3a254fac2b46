ghost use Rattle.earliest_tests.specs.Dated.{dated_before, dated_order};

use earliest::order::StrictTotalOrder;

// Earlier dates come first, and of equal dates the lower number.
#[derive(Clone, Copy, PartialEq, Eq, Debug)]
pub struct Dated {
    pub date: u64,
    pub number: u64,
}

impl StrictTotalOrder for Dated {
    ghost before = { dated_before };

    ghost strict_total = { dated_order };

    fn is_before(&self, other: &Self) -> bool {
        self.date < other.date || self.date == other.date && self.number < other.number
    }
}
