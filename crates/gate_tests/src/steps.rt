use budget::row::{BudgetRow, LevelRow};
use gate::gate::Gate;
use history::import::Import;
use history::turn::Turn;
use measures::limits::LAST_TICK;
use measures::refusal::Refusal;
use std::fmt::Debug;
use std::process::Abort;
use turns::circular::CircularTurns;
use turns::rule::TurnRule;
use waiting::queue_order::QueueOrder;

// The last tick stands for no due date.
pub const NO_DUE: u64 = LAST_TICK;

// What is said to an opened gate, with the tick first. A value has no names, so that a table of calls stays short.
#[derive(Clone, Copy, PartialEq, Eq, Debug)]
pub enum Call {
    // tick, lab, length, due tick
    File(u64, u64, u64, u64),
    // tick, number
    Withdraw(u64, u64),
    Begin(u64),
    End(u64),
}

#[derive(Clone, Copy, PartialEq, Eq, Debug)]
pub enum Answer {
    Denied(Refusal),
    // number
    Filed(u64),
    // lab
    Withdrawn(u64),
    // lab, number, length
    Began(u64, u64, u64),
    Wait(u64),
    Nothing,
    // number, ticks held, response time
    Ended(u64, u64, u64),
}

// What can be seen of a gate.
#[derive(Clone, Copy, PartialEq, Eq, Debug)]
pub struct Seen {
    pub labs: u64,
    pub clock: u64,
    pub running: Option<Import>,
    // of each lab
    pub waiting: [u64; 64],
}

pub fn look<T>(gate: &Gate<T>) -> Seen {
    let mut waiting = [0; 64];
    for (lab, count) in waiting.iter_mut().enumerate() {
        *count = gate.count_waiting(lab as u64);
    }
    Seen {
        labs: gate.labs(),
        clock: gate.clock(),
        running: gate.running(),
        waiting,
    }
}

fn told(turn: Turn) -> Answer {
    match turn {
        Turn::Began {
            lab,
            number,
            length,
        } => Answer::Began(lab, number, length),
        Turn::Wait(tick) => Answer::Wait(tick),
        Turn::Nothing => Answer::Nothing,
    }
}

fn ended((number, held, response): (u64, u64, u64)) -> Answer {
    Answer::Ended(number, held, response)
}

fn ask<T: TurnRule, R: BudgetRow>(gate: &mut Gate<T>, rows: &mut [R], call: Call) -> Answer {
    match call {
        Call::File(tick, lab, length, due) => gate
            .file(rows, tick, lab, length, due)
            .map_or_else(Answer::Denied, Answer::Filed),
        Call::Withdraw(tick, number) => gate
            .withdraw(rows, tick, number)
            .map_or_else(Answer::Denied, Answer::Withdrawn),
        Call::Begin(tick) => gate.begin(rows, tick).map_or_else(Answer::Denied, told),
        Call::End(tick) => gate.end(rows, tick).map_or_else(Answer::Denied, ended),
    }
}

fn tick_of(call: Call) -> u64 {
    match call {
        Call::File(tick, _, _, _) | Call::Withdraw(tick, _) => tick,
        Call::Begin(tick) | Call::End(tick) => tick,
    }
}

// A gate that was opened with this table, under circular turns and in order of arrival.
pub fn opened<R: BudgetRow>(rt: &impl Abort, rows: &mut [R]) -> Gate<CircularTurns> {
    opened_by(rt, rows, CircularTurns::new(), QueueOrder::Arrival)
}

pub fn opened_by<T: TurnRule, R: BudgetRow>(
    rt: &impl Abort,
    rows: &mut [R],
    turns: T,
    order: QueueOrder,
) -> Gate<T> {
    let mut gate = Gate::new(turns);
    assert_eq!(rt; gate.open(rows, order), Ok(()));
    gate
}

// Each call gets its answer. A granted one sets the clock, and a denied one changes nothing.
pub fn follow<T: TurnRule, R: BudgetRow + PartialEq + Debug, const N: usize>(
    rt: &impl Abort,
    gate: &mut Gate<T>,
    rows: &mut [R; N],
    steps: &[(Call, Answer)],
) {
    for (call, answer) in steps {
        let seen = look(gate);
        let before = *rows;
        assert_eq!(rt; ask(gate, rows, *call), *answer, "at {call:?}");
        if let Answer::Denied(_) = answer {
            assert_eq!(rt; look(gate), seen, "at {call:?}");
            assert_eq!(rt; *rows, before, "at {call:?}");
        } else {
            assert_eq!(rt; gate.labs(), seen.labs, "at {call:?}");
            assert_eq!(rt; gate.clock(), tick_of(*call), "at {call:?}");
        }
    }
}

fn check_levels<R: LevelRow>(rt: &impl Abort, rows: &[R], levels: &[i64], call: Call) {
    for (row, level) in rows.iter().zip(levels) {
        assert_eq!(rt; row.level(), *level, "at {call:?}");
    }
}

// The same, and after each call the rows have these levels.
pub fn follow_levels<T: TurnRule, R: LevelRow + PartialEq + Debug, const N: usize>(
    rt: &impl Abort,
    gate: &mut Gate<T>,
    rows: &mut [R; N],
    steps: &[(Call, Answer, [i64; N])],
) {
    for (call, answer, levels) in steps {
        follow(rt, gate, rows, &[(*call, *answer)]);
        check_levels(rt, rows, levels, *call);
    }
}

// A lab files as many imports as may wait, the first of all on this gate.
pub fn fill<T: TurnRule, R: BudgetRow + PartialEq + Debug, const N: usize>(
    rt: &impl Abort,
    gate: &mut Gate<T>,
    rows: &mut [R; N],
    tick: u64,
    lab: u64,
) {
    for number in 1..=16 {
        let filing = (Call::File(tick, lab, 1, NO_DUE), Answer::Filed(number));
        follow(rt, gate, rows, &[filing]);
    }
}
