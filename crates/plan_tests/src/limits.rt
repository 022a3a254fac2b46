// The most lines and the most bytes that a plan may have, and one more.
use crate::checks::{Lists, broken_at, check_read};
use measures::limits::LAST_TICK;
use plan::faults::ReadError;
use plan::plan::{Filing, Plan, Terms, Withdrawal};
use plan::reading::read_plan;
use std::alloc::{AllocError, Global};
use std::test::Fail;

fn push_labs(text: &mut String, labs: &[Terms]) -> Result<(), AllocError> {
    writeln!(text, "{}", labs.len())?;
    for lab in labs {
        writeln!(text, "{} {} {}", lab.rate, lab.ceiling, lab.threshold)?;
    }
    Ok(())
}

fn push_filings(text: &mut String, filings: &[Filing]) -> Result<(), AllocError> {
    writeln!(text, "{}", filings.len())?;
    for filing in filings {
        writeln!(
            text,
            "{} {} {} {}",
            filing.tick, filing.lab, filing.length, filing.due
        )?;
    }
    Ok(())
}

fn push_withdrawals(text: &mut String, withdrawals: &[Withdrawal]) -> Result<(), AllocError> {
    writeln!(text, "{}", withdrawals.len())?;
    for withdrawal in withdrawals {
        writeln!(text, "{} {}", withdrawal.tick, withdrawal.ticket)?;
    }
    Ok(())
}

fn write_out(heap: Global, plan: &Plan) -> Result<String, AllocError> {
    let mut text = String::new(heap);
    push_labs(&mut text, plan.labs.as_slice())?;
    push_filings(&mut text, plan.filings.as_slice())?;
    push_withdrawals(&mut text, plan.withdrawals.as_slice())?;
    Ok(text)
}

fn lists_of(plan: &Plan) -> Lists<'_> {
    Lists {
        labs: plan.labs.as_slice(),
        filings: plan.filings.as_slice(),
        withdrawals: plan.withdrawals.as_slice(),
    }
}

// A plan with so many labs, filings and withdrawals, in which no two lines of a section are equal.
fn numbered(heap: Global, labs: u64, filings: u64, withdrawals: u64) -> Result<Plan, AllocError> {
    let lab = |i: u64| Terms {
        rate: i,
        ceiling: i ^ 256,
        threshold: LAST_TICK,
    };
    let filing = |i: u64| Filing {
        tick: i,
        lab: i % 64,
        length: i ^ 4096,
        due: 0,
    };
    let withdrawal = |i: u64| Withdrawal {
        tick: i ^ 512,
        ticket: i,
    };
    Ok(Plan {
        labs: (0..labs).map(lab).collect(heap)?,
        filings: (0..filings).map(filing).collect(heap)?,
        withdrawals: (0..withdrawals).map(withdrawal).collect(heap)?,
    })
}

#[test]
fn as_many_lines_as_may_be(rt: HostRuntime) -> Result<(), Fail> {
    let heap = rt.alloc();
    for (labs, filings, withdrawals) in [(64, 0, 0), (1, 1024, 0), (1, 0, 256), (64, 1024, 256)] {
        let plan = numbered(heap, labs, filings, withdrawals)?;
        let text = write_out(heap, &plan)?;
        check_read(&rt, heap, text.as_bytes(), lists_of(&plan))?;
    }
    Ok(())
}

// The break is at the count.
#[test]
fn one_line_too_many(rt: HostRuntime) -> Result<(), Fail> {
    let heap = rt.alloc();
    for (labs, filings, withdrawals, line) in [
        (65, 0, 0, 1),
        (1, 1025, 0, 3),
        (1, 0, 257, 4),
        (64, 1025, 256, 66),
        (64, 1024, 257, 1091),
    ] {
        let text = write_out(heap, &numbered(heap, labs, filings, withdrawals)?)?;
        let found = read_plan(heap, text.as_bytes()).err();
        assert_eq!(rt; found, Some(broken_at(line, 1)));
    }
    Ok(())
}

// Line 1347 is the last one of a plan with as many lines as may be.
#[test]
fn at_the_last_line(rt: HostRuntime) -> Result<(), Fail> {
    let heap = rt.alloc();
    for (end, line, field) in [
        ("", 1347, 2),
        (" ", 1347, 3),
        ("x\n", 1347, 2),
        ("\n\n", 1348, 1),
    ] {
        let mut text = write_out(heap, &numbered(heap, 64, 1024, 256)?)?;
        text.pop();
        text.push_str(end)?;
        let found = read_plan(heap, text.as_bytes()).err();
        assert_eq!(rt; found, Some(broken_at(line, field)), "at {end:?}");
    }
    Ok(())
}

// A plan of long numbers. With 196 withdrawals before the last one it has 65,535 bytes, not counting the digits of that one's ticket.
fn long(heap: Global, withdrawals: usize, ticket: u64) -> Result<Plan, AllocError> {
    let lab = Terms {
        rate: LAST_TICK,
        ceiling: LAST_TICK,
        threshold: LAST_TICK,
    };
    let filing = Filing {
        tick: LAST_TICK,
        lab: LAST_TICK,
        length: LAST_TICK,
        due: LAST_TICK,
    };
    let withdrawal = Withdrawal {
        tick: LAST_TICK,
        ticket: LAST_TICK,
    };
    let mut plan = Plan {
        labs: vec![in heap; lab; 64]?,
        filings: vec![in heap; filing; 1024]?,
        withdrawals: vec![in heap; withdrawal; withdrawals]?,
    };
    plan.withdrawals.push(Withdrawal { tick: 0, ticket })?;
    Ok(plan)
}

#[test]
fn as_many_bytes_as_may_be(rt: HostRuntime) -> Result<(), Fail> {
    let heap = rt.alloc();
    let plan = long(heap, 196, 0)?;
    let text = write_out(heap, &plan)?;
    assert_eq!(rt; text.len(), 65_536);
    check_read(&rt, heap, text.as_bytes(), lists_of(&plan))
}

// They are in form but for their length.
#[test]
fn more_bytes_in_form(rt: HostRuntime) -> Result<(), Fail> {
    let heap = rt.alloc();
    for (withdrawals, ticket, length) in [(196, 10, 65_537), (255, 0, 67_188)] {
        let text = write_out(heap, &long(heap, withdrawals, ticket)?)?;
        assert_eq!(rt; text.len(), length);
        let found = read_plan(heap, text.as_bytes()).err();
        assert_eq!(rt; found, Some(ReadError::TooLong));
    }
    Ok(())
}

// The first bytes, the byte that fills up the rest, and the break that is there without one byte more than may be.
#[test]
fn more_bytes_out_of_form(rt: HostRuntime) -> Result<(), Fail> {
    let cases: [(&[u8], u8, ReadError); 7] = [
        (b"", b'x', broken_at(1, 1)),
        (b"", b'7', broken_at(1, 1)),
        (b"", b' ', broken_at(1, 1)),
        (b"", b'\n', broken_at(1, 1)),
        (b"", 0, broken_at(1, 1)),
        (b"", 255, broken_at(1, 1)),
        (b"1\n0 0 0\n0\n0\n", b'\n', broken_at(5, 1)),
    ];
    for (first, rest, error) in cases {
        let mut bytes = first.to_vec(rt.alloc())?;
        bytes.resize(65_536, rest)?;
        assert_eq!(rt; read_plan(rt.alloc(), bytes.as_slice()).err(), Some(error));
        bytes.push(rest)?;
        assert_eq!(rt;
            read_plan(rt.alloc(), bytes.as_slice()).err(),
            Some(ReadError::TooLong)
        );
    }
    Ok(())
}
