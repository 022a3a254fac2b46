ghost use Rattle.std.specs.Prelude.{◌≡◌, ℕ, List};
ghost use Rattle.plan.specs.Plans.{terms_of, filing_of, withdrawal_of};

// The numbers of a plan are only read: whether they are lawful as rates, labs or lengths is not asked.

// The terms of a lab's server row: its rate in thousandths per tick, its ceiling and threshold in thousandths of a tick.
#[derive(Clone, Copy, PartialEq, Eq, Debug)]
pub struct Terms {
    pub rate: u64,
    pub ceiling: u64,
    pub threshold: u64,
}

// An import that a lab is to file, and at which tick: how many ticks it is to take, and by which tick it is due.
#[derive(Clone, Copy, PartialEq, Eq, Debug)]
pub struct Filing {
    pub tick: u64,
    pub lab: u64,
    pub length: u64,
    pub due: u64,
}

// Which ticket is to be withdrawn, by its number, and at which tick.
#[derive(Clone, Copy, PartialEq, Eq, Debug)]
pub struct Withdrawal {
    pub tick: u64,
    pub ticket: u64,
}

// What is to happen at a site. Labs are numbered from 0, as they stand here.
#[derive(Debug, Drop)]
pub struct Plan {
    pub labs: Vec<Terms>,
    pub filings: Vec<Filing>,
    pub withdrawals: Vec<Withdrawal>,
}

// What is meant by a line of a plan that has N numbers.
pub(crate) trait PlanLine<const N: usize>: Copy {
    ghost meant: { List ℕ → Self };

    fn from_numbers(numbers: [u64; N]) -> Self
        ensures { result ≡ meant numbers.entry };
}

impl PlanLine<3> for Terms {
    ghost meant = { terms_of };

    fn from_numbers(numbers: [u64; 3]) -> Terms
        ensures { result ≡ terms_of numbers }
    {
        let [rate, ceiling, threshold] = numbers;
        Terms {
            rate,
            ceiling,
            threshold,
        }
    }
}

impl PlanLine<4> for Filing {
    ghost meant = { filing_of };

    fn from_numbers(numbers: [u64; 4]) -> Filing
        ensures { result ≡ filing_of numbers }
    {
        let [tick, lab, length, due] = numbers;
        Filing {
            tick,
            lab,
            length,
            due,
        }
    }
}

impl PlanLine<2> for Withdrawal {
    ghost meant = { withdrawal_of };

    fn from_numbers(numbers: [u64; 2]) -> Withdrawal
        ensures { result ≡ withdrawal_of numbers }
    {
        let [tick, ticket] = numbers;
        Withdrawal { tick, ticket }
    }
}
