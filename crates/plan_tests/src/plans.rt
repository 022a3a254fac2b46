use crate::checks::{Lists, check_read};
use measures::limits::LAST_TICK;
use plan::faults::{Break, ReadError};
use plan::plan::{Filing, Terms, Withdrawal};
use std::test::Fail;

const NOTHING: Terms = Terms {
    rate: 0,
    ceiling: 0,
    threshold: 0,
};

// Two labs, a filing and a withdrawal.
const MIXED: Lists<'static> = Lists {
    labs: &[
        Terms {
            rate: 5,
            ceiling: 6,
            threshold: 7,
        },
        Terms {
            rate: 8,
            ceiling: 9,
            threshold: 10,
        },
    ],
    filings: &[Filing {
        tick: 11,
        lab: 1,
        length: 12,
        due: 13,
    }],
    withdrawals: &[Withdrawal {
        tick: 14,
        ticket: 1,
    }],
};

// One lab, whose two filings are of one tick.
const WORKED: Lists<'static> = Lists {
    labs: &[Terms {
        rate: 200,
        ceiling: 2000,
        threshold: 1000,
    }],
    filings: &[
        Filing {
            tick: 0,
            lab: 0,
            length: 3,
            due: 1000,
        },
        Filing {
            tick: 0,
            lab: 0,
            length: 1,
            due: 1000,
        },
    ],
    withdrawals: &[],
};

// No filings, three withdrawals.
const WITHDRAWN: Lists<'static> = Lists {
    labs: &[NOTHING],
    filings: &[],
    withdrawals: &[
        Withdrawal { tick: 9, ticket: 8 },
        Withdrawal { tick: 7, ticket: 0 },
        Withdrawal {
            tick: 7,
            ticket: 30,
        },
    ],
};

// Every number is the last tick. None has to be a lawful rate, lab or length.
const GREATEST: Lists<'static> = Lists {
    labs: &[Terms {
        rate: LAST_TICK,
        ceiling: LAST_TICK,
        threshold: LAST_TICK,
    }],
    filings: &[Filing {
        tick: LAST_TICK,
        lab: LAST_TICK,
        length: LAST_TICK,
        due: LAST_TICK,
    }],
    withdrawals: &[Withdrawal {
        tick: LAST_TICK,
        ticket: LAST_TICK,
    }],
};

// Every digit, at the start and the end of a number, and numbers of many lengths.
const DIGITS: Lists<'static> = Lists {
    labs: &[
        Terms {
            rate: 1234567890,
            ceiling: 987654321,
            threshold: 20304050607,
        },
        Terms {
            rate: 100,
            ceiling: 999_999_999_999,
            threshold: 9,
        },
        NOTHING,
    ],
    filings: &[
        Filing {
            tick: 32,
            lab: 43,
            length: 54,
            due: 65,
        },
        Filing {
            tick: 76,
            lab: 87,
            length: 98,
            due: 19,
        },
    ],
    withdrawals: &[
        Withdrawal {
            tick: 0,
            ticket: 10,
        },
        Withdrawal {
            tick: 100_000_000_000,
            ticket: 101,
        },
    ],
};

const PLANS: [(&[u8], Lists<'static>); 6] = [
    (
        b"1\n0 0 0\n0\n0\n",
        Lists {
            labs: &[NOTHING],
            filings: &[],
            withdrawals: &[],
        },
    ),
    (b"2\n5 6 7\n8 9 10\n1\n11 1 12 13\n1\n14 1\n", MIXED),
    (b"1\n200 2000 1000\n2\n0 0 3 1000\n0 0 1 1000\n0\n", WORKED),
    (b"1\n0 0 0\n0\n3\n9 8\n7 0\n7 30\n", WITHDRAWN),
    (
        b"1\n1000000000000 1000000000000 1000000000000\n1\n1000000000000 1000000000000 1000000000000 1000000000000\n\
          1\n1000000000000 1000000000000\n",
        GREATEST,
    ),
    (
        b"3\n1234567890 987654321 20304050607\n100 999999999999 9\n0 0 0\n2\n32 43 54 65\n76 87 98 19\n\
          2\n0 10\n100000000000 101\n",
        DIGITS,
    ),
];

#[test]
fn plans(rt: HostRuntime) -> Result<(), Fail> {
    for (bytes, lists) in PLANS {
        check_read(&rt, rt.alloc(), bytes, lists)?;
    }
    Ok(())
}

#[test]
fn texts_of_errors(rt: HostRuntime) -> Result<(), Fail> {
    let at = Break { line: 12, field: 3 };
    for (error, text) in [
        (ReadError::TooLong, "too long for a plan"),
        (
            ReadError::Broken(at),
            "line 12 breaks the form of a plan at field 3",
        ),
        (ReadError::OutOfMemory, "out of memory"),
    ] {
        assert!(rt; error.to_string(rt.alloc())?.as_str() == text);
    }
    Ok(())
}
