ghost use Rattle.std.specs.Prelude.{◌≡◌};
ghost use Rattle.measures.specs.Limits.{is_tick, is_rate, is_ceiling, is_length, is_lab_count, is_lab_number, is_rate_sum, is_full, is_all_given};

// Levels, ceilings and thresholds are in thousandths of a tick, and rates in thousandths per tick.
pub const THOUSANDTHS: u64 = 1000;

pub const LAST_TICK: u64 = 1_000_000_000_000;

pub const LEAST_RATE: u64 = 1;

pub const GREATEST_RATE: u64 = 999;

pub const GREATEST_CEILING: u64 = 1_000_000_000;

pub const MOST_LABS: u64 = 64;

pub const GREATEST_LAB_NUMBER: u64 = MOST_LABS - 1;

pub const MOST_WAITING: u64 = 16;

pub const GREATEST_LENGTH: u64 = 1_000_000;

pub const GREATEST_RATE_SUM: u64 = 900;

pub const MOST_TICKETS: u64 = 1_000_000_000_000;

pub const MOST_FILINGS: u64 = 1024;

pub const MOST_WITHDRAWALS: u64 = 256;

pub const MOST_PLAN_BYTES: u64 = 65_536;

// One function for each limit that a call checks, and not one over two bounds: a caller names the rule, and a wrong limit is refused here,
// since a constant has no contract. The limits of a plan are checked by its reader alone, which refuses a wrong one.

pub fn is_tick(tick: u64) -> bool
    ensures { result ≡ is_tick tick }
{
    tick <= LAST_TICK
}

pub fn is_rate(rate: u64) -> bool
    ensures { result ≡ is_rate rate }
{
    (LEAST_RATE..=GREATEST_RATE).contains(&rate)
}

pub fn is_ceiling(ceiling: u64) -> bool
    ensures { result ≡ is_ceiling ceiling }
{
    ceiling <= GREATEST_CEILING
}

pub fn is_length(length: u64) -> bool
    ensures { result ≡ is_length length }
{
    (1..=GREATEST_LENGTH).contains(&length)
}

pub fn is_lab_count(labs: u64) -> bool
    ensures { result ≡ is_lab_count labs }
{
    (1..=MOST_LABS).contains(&labs)
}

pub fn is_lab_number(number: u64) -> bool
    ensures { result ≡ is_lab_number number }
{
    number <= GREATEST_LAB_NUMBER
}

pub fn is_rate_sum(sum: u64) -> bool
    ensures { result ≡ is_rate_sum sum }
{
    sum <= GREATEST_RATE_SUM
}

// Whether a lab with so many waiting tickets takes no more.
pub fn is_full(waiting: u64) -> bool
    ensures { result ≡ is_full waiting }
{
    waiting >= MOST_WAITING
}

// Whether a gate that has given so many tickets gives no more.
pub fn is_all_given(given: u64) -> bool
    ensures { result ≡ is_all_given given }
{
    given >= MOST_TICKETS
}
