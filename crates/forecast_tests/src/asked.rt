use forecast_lines::{Fault, Line};
use forecasting::lines::{Rule, forecast, forecast_row};
use measures::limits::LAST_TICK;
use measures::refusal::Refusal;
use numerals::number;
use spaced::SpacedRow;
use std::alloc::Global;
use std::process::Abort;
use std::test::Fail;

#[test]
fn words_as_numbers(rt: HostRuntime) {
    assert_eq!(rt; number(b"0"), Some(0));
    assert_eq!(rt; number(b"0042"), Some(42));
    assert_eq!(rt; number(b"18446744073709551615"), Some(u64::MAX));
    assert_eq!(rt; number(b"18446744073709551616"), Some(u64::MAX));
    assert_eq!(rt; number(b"99999999999999999999999"), Some(u64::MAX));
    for word in ["", "-1", "+1", " 1", "1 ", "1.5", "0x10", "1a", "/", ":"] {
        assert_eq!(rt; number(word.as_bytes()), None);
    }
}

// What is said in the place of a forecast.
fn check_fault(
    rt: &impl Abort,
    heap: Global,
    rule: Rule,
    numbers: &[u64],
    text: &str,
) -> Result<(), Fail> {
    match forecast(heap, rule, numbers) {
        Ok(_) => Err(Fail::new("a forecast where there should be none")),
        Err(fault) => {
            assert!(rt; fault.to_string(heap)?.as_str() == text);
            Ok(())
        },
    }
}

#[test]
fn wrong_numbers(rt: HostRuntime) -> Result<(), Fail> {
    let usage =
        "usage: forecast RATE CEILING THRESHOLD LENGTH..., or: forecast spaced RATE LENGTH...";
    let mut many = [1; 20];
    many[10] = 0;
    let cases = [
        (Rule::Server, [].as_slice(), usage),
        (Rule::Server, &[200, 2000, 1000], usage),
        (Rule::Spaced, &[], usage),
        (Rule::Spaced, &[300], usage),
        (
            Rule::Server,
            &[1000, 2000, 1000, 3],
            "refusal 1: RateOutOfRange",
        ),
        (
            Rule::Server,
            &[200, 1_000_000_001, 1000, 3],
            "refusal 2: CeilingOutOfRange",
        ),
        (
            Rule::Server,
            &[200, 2000, 2001, 0],
            "refusal 3: ThresholdAboveCeiling",
        ),
        (
            Rule::Server,
            &[200, 2000, 1000, 0],
            "refusal 9: LengthOutOfRange",
        ),
        (
            Rule::Server,
            &[200, 2000, 1000, 3, LAST_TICK],
            "refusal 9: LengthOutOfRange",
        ),
        (Rule::Server, &[1; 20], "refusal 11: QueueFull"),
        (Rule::Server, &many, "refusal 9: LengthOutOfRange"),
        (Rule::Spaced, &[0, 1], "refusal 1: RateOutOfRange"),
        (Rule::Spaced, &[300, 0], "refusal 9: LengthOutOfRange"),
        (Rule::Spaced, &[1; 18], "refusal 11: QueueFull"),
    ];
    for (rule, numbers, text) in cases {
        check_fault(&rt, rt.alloc(), rule, numbers, text)?;
    }
    Ok(())
}

// At rate 500 and threshold 0 each run of a million ticks is followed by a wait as long.
#[test]
fn the_last_of_sixteen(rt: HostRuntime) -> Result<(), Fail> {
    let mut numbers = [1_000_000; 19];
    numbers[0] = 500;
    numbers[2] = 0;
    let lines = forecast(rt.alloc(), Rule::Server, &numbers)?;
    assert_eq!(rt; lines.len(), 50);
    let last = Line::Import {
        import: 16,
        start: 30_000_000,
        end: 31_000_000,
        response: 31_000_000,
    };
    assert_eq!(rt; lines.last().copied(), Some(last));
    Ok(())
}

// A run of 1 tick on a spaced row of rate 300 is followed by a pause of 3.
#[test]
fn imports_on_a_row_that_is_there(rt: HostRuntime) -> Result<(), Fail> {
    let row = SpacedRow::new(300)?;
    let lines = forecast_row(rt.alloc(), &row, &[1, 1])?;
    let last = Line::Import {
        import: 2,
        start: 4,
        end: 5,
        response: 5,
    };
    assert_eq!(rt; lines.last().copied(), Some(last));
    assert_eq!(rt;
        forecast_row(rt.alloc(), &row, &[1, 0]).err(),
        Some(Fault::Refused(Refusal::LengthOutOfRange))
    );
    Ok(())
}

#[test]
fn want_of_memory(rt: HostRuntime) -> Result<(), Fail> {
    let text = Fault::OutOfMemory.to_string(rt.alloc())?;
    assert!(rt; text.as_str() == "out of memory");
    Ok(())
}
