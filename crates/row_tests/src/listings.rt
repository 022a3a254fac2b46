use budget::row::BudgetRow;
use measures::limits::LAST_TICK;
use measures::refusal::Refusal;
use measures::refusal::Refusal::{LengthOutOfRange, ListTooShort, QueueFull, TickOutOfRange};
use mixed::MixedRow;
use outlook::entry::Entry;
use outlook::listing::list_tickets;
use server::ServerRow;
use spaced::SpacedRow;
use std::process::Abort;
use std::test::Fail;
use waiting::ticket::Ticket;

// A place that nothing was written to.
const BLANK: Entry = Entry {
    number: 76,
    start: 77,
    end: 78,
};

// A ticket with this number and declared length. What else it holds shows nowhere in a list.
fn ticket(number: u64, length: u64) -> Ticket {
    Ticket {
        key: 5,
        number,
        lab: 63,
        filed: LAST_TICK,
        length,
        due: 0,
    }
}

fn entry(number: u64, start: u64, end: u64) -> Entry {
    Entry { number, start, end }
}

// What is written to so many blank places.
fn check_alone<R: BudgetRow>(
    rt: &(impl Abort + AllocGlobal),
    row: &R,
    tick: u64,
    tickets: &[Ticket],
    expected: &[Entry],
) -> Result<(), Fail> {
    let mut list = vec![in rt.alloc(); BLANK; expected.len()]?;
    list_tickets(row, tick, tickets, list.as_mut_slice())?;
    assert_eq!(rt; list.as_slice(), expected);
    Ok(())
}

// The same on a row alone and on a mixed row that holds it.
fn check_listed<R: BudgetRow + Into<MixedRow>>(
    rt: &(impl Abort + AllocGlobal),
    row: R,
    tick: u64,
    tickets: &[Ticket],
    expected: &[Entry],
) -> Result<(), Fail> {
    check_alone(rt, &row, tick, tickets, expected)?;
    check_alone(rt, &row.into(), tick, tickets, expected)
}

#[test]
fn listed_on_a_row_of_rate_500(rt: HostRuntime) -> Result<(), Fail> {
    let row = ServerRow::new(500, 3000, 3000)?;
    let tickets = [ticket(9, 6), ticket(4, 1), ticket(12, 5), ticket(1, 1)];
    let expected = [
        entry(9, 6, 12),
        entry(4, 12, 13),
        entry(12, 20, 25),
        entry(1, 25, 26),
        BLANK,
    ];
    check_listed(&rt, row, 0, &tickets, &expected)
}

#[test]
fn listed_without_the_second_ticket(rt: HostRuntime) -> Result<(), Fail> {
    let row = ServerRow::new(500, 3000, 3000)?;
    let tickets = [ticket(9, 6), ticket(12, 5), ticket(1, 1)];
    let expected = [entry(9, 6, 12), entry(12, 12, 17), entry(1, 28, 29)];
    check_listed(&rt, row, 0, &tickets, &expected)
}

// From the last tick on, a row in the deepest debt: its wake is rested in several counts, and ticks above the last tick are told too.
#[test]
fn a_wake_above_the_last_tick(rt: HostRuntime) -> Result<(), Fail> {
    let row = ServerRow {
        rate: 1,
        ceiling: 1_000_000_000,
        threshold: 1_000_000_000,
        level: i64::MIN,
        able: false,
    };
    let tickets = [ticket(3, 1_000_000), ticket(2, 1_000_000), ticket(4, 1)];
    let expected = [
        entry(3, 1_000_001_000_000_000, 1_000_001_001_000_000),
        entry(2, 1_000_001_001_000_000, 1_000_001_002_000_000),
        entry(4, 1_000_003_000_000_000, 1_000_003_000_000_001),
    ];
    check_listed(&rt, row, LAST_TICK, &tickets, &expected)
}

// A spaced row of rate 1 before the longest pause: 999 ticks for each tick held.
#[test]
fn a_pause_above_the_last_tick(rt: HostRuntime) -> Result<(), Fail> {
    let row = SpacedRow {
        rate: 1,
        left: u64::MAX,
    };
    let tickets = [ticket(u64::MAX, 1_000_000), ticket(0, 1)];
    let expected = [
        entry(u64::MAX, 1_000_000_000_000_000, 1_000_000_001_000_000),
        entry(0, 1_000_001_000_000_000, 1_000_001_000_000_001),
    ];
    check_listed(&rt, row, LAST_TICK, &tickets, &expected)
}

// The answer is this refusal, and each place is blank as before.
fn check_refused(
    rt: &impl Abort,
    tick: u64,
    tickets: &[Ticket],
    list: &mut [Entry],
    refusal: Refusal,
) -> Result<(), Fail> {
    let row = ServerRow::new(200, 2000, 1000)?;
    assert_eq!(rt;
        list_tickets(&row, tick, tickets, list).err(),
        Some(refusal)
    );
    for place in list.iter() {
        assert_eq!(rt; *place, BLANK);
    }
    Ok(())
}

#[test]
fn a_refusal_writes_nothing(rt: HostRuntime) -> Result<(), Fail> {
    let mut list = [BLANK; 20];
    let lawful = ticket(1, 3);
    for tick in [LAST_TICK + 1, u64::MAX] {
        check_refused(&rt, tick, &[lawful], &mut list, TickOutOfRange)?;
    }
    for length in [0, 1_000_001, u64::MAX] {
        let tickets = [lawful, ticket(2, length)];
        check_refused(&rt, 0, &tickets, &mut list, LengthOutOfRange)?;
    }
    check_refused(&rt, 0, &[lawful; 17], &mut list, QueueFull)?;
    check_refused(&rt, 0, &[lawful; 3], &mut list[0..2], ListTooShort)
}

// Each check comes before those for which the same call could be refused too.
#[test]
fn the_first_refusal_is_answered(rt: HostRuntime) -> Result<(), Fail> {
    let mut list = [BLANK; 16];
    let unlawful = [ticket(1, 0); 17];
    check_refused(&rt, LAST_TICK + 1, &unlawful, &mut list, TickOutOfRange)?;
    check_refused(&rt, 0, &unlawful, &mut list, LengthOutOfRange)?;
    check_refused(&rt, 0, &[ticket(1, 1); 17], &mut list, QueueFull)?;
    let mut long = [ticket(1, 1); 18];
    long[17].length = 0;
    check_refused(&rt, 0, &long, &mut list, QueueFull)?;
    long[16].length = 0;
    check_refused(&rt, 0, &long, &mut list, LengthOutOfRange)
}

// At rate 500 and threshold 0 each run of a million ticks is followed by a wait as long.
#[test]
fn sixteen_tickets_and_none(rt: HostRuntime) -> Result<(), Fail> {
    let row = ServerRow::new(500, 0, 0)?;
    let mut tickets = [ticket(40, 1_000_000); 16];
    tickets[15].number = 3;
    let mut list = [BLANK; 17];
    list_tickets(&row, LAST_TICK, &tickets, &mut list)?;
    let first = entry(40, LAST_TICK, LAST_TICK + 1_000_000);
    let sixteenth = entry(3, LAST_TICK + 30_000_000, LAST_TICK + 31_000_000);
    assert_eq!(rt; list[0], first);
    assert_eq!(rt; list[15], sixteenth);
    assert_eq!(rt; list[16], BLANK);
    list_tickets(&row, 0, &[], &mut list)?;
    assert_eq!(rt; list[0], first);
    Ok(())
}
