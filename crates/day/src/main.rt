// A day at a gate of three labs: what a host does with the library. Prints each call with its tick and its answer, and then the labs' levels.
#![tactic(auto)]

use budget::row::LevelRow;
use gate::gate::Gate;
use history::turn::Turn;
use measures::limits::LAST_TICK;
use measures::refusal::Refusal;
use mixed::MixedRow;
use outlook::entry::Entry;
use server::ServerRow;
use spaced::SpacedRow;
use std::fmt;
use turns::circular::CircularTurns;
use waiting::queue_order::QueueOrder;
use waiting::ticket::ROOM;

const NO_DUE_DATE: u64 = LAST_TICK;

#[derive(Clone, Copy)]
enum Call {
    // lab, declared length, due tick
    File(u64, u64, u64),
    // number of a ticket
    Withdraw(u64),
    Begin,
    End,
    // lab
    Outlook(u64),
}

// So many ticks, written as words.
#[derive(Clone, Copy)]
struct Ticks(u64);

impl fmt::Display for Ticks {
    fn fmt<W: fmt::Write>(&self, f: &mut fmt::Formatter<W>) -> fmt::Result {
        match self.0 {
            1 => write!(f, "1 tick"),
            count => write!(f, "{count} ticks"),
        }
    }
}

impl fmt::Display for Call {
    fn fmt<W: fmt::Write>(&self, f: &mut fmt::Formatter<W>) -> fmt::Result {
        match self {
            Call::File(lab, length, due) if *due == NO_DUE_DATE => {
                write!(f, "lab {lab} files {}", Ticks(*length))
            }
            Call::File(lab, length, due) => {
                write!(f, "lab {lab} files {}, due by {due}", Ticks(*length))
            }
            Call::Withdraw(number) => write!(f, "ticket {number} is withdrawn"),
            Call::Begin => write!(f, "begin"),
            Call::End => write!(f, "end"),
            Call::Outlook(lab) => write!(f, "outlook of lab {lab}"),
        }
    }
}

// The entries of an outlook, in the first places.
#[derive(Clone, Copy)]
struct Listed {
    places: [Entry; ROOM],
    count: u64,
}

impl fmt::Display for Listed {
    fn fmt<W: fmt::Write>(&self, f: &mut fmt::Formatter<W>) -> fmt::Result {
        if self.count == 0 {
            return write!(f, "no ticket waits");
        }
        for (i, entry) in self.places.iter().take(self.count as usize).enumerate() {
            if i > 0 {
                write!(f, ", ")?;
            }
            write!(
                f,
                "ticket {} from {} to {}",
                entry.number, entry.start, entry.end
            )?;
        }
        Ok(())
    }
}

#[derive(Clone, Copy)]
enum Answer {
    Ticket(u64),
    Lab(u64),
    Told(Turn),
    // number of a ticket, ticks held, response time
    Ended(u64, u64, u64),
    Listed(Listed),
}

impl fmt::Display for Answer {
    fn fmt<W: fmt::Write>(&self, f: &mut fmt::Formatter<W>) -> fmt::Result {
        match self {
            Answer::Ticket(number) => write!(f, "ticket {number}"),
            Answer::Lab(lab) => write!(f, "it was lab {lab}'s"),
            Answer::Told(turn) => write_turn(f, *turn),
            Answer::Ended(number, held, response) => {
                write!(f, "ticket {number} held the lock for {}, ", Ticks(*held))?;
                write!(f, "{response} after it was filed")
            }
            Answer::Listed(list) => write!(f, "{list}"),
        }
    }
}

fn write_turn<W: fmt::Write>(f: &mut fmt::Formatter<W>, turn: Turn) -> fmt::Result {
    match turn {
        Turn::Began {
            lab,
            number,
            length,
        } => write!(f, "lab {lab} begins ticket {number}, of {}", Ticks(length)),
        Turn::Wait(tick) => write!(f, "wait until {tick}"),
        Turn::Nothing => write!(f, "nothing waits"),
    }
}

// The tick beside an outlook is only printed: it is from the clock on.
const DAY: [(u64, Call); 30] = [
    // a lab begins as soon as its row is able and its turn has come
    (0, Call::File(0, 3, NO_DUE_DATE)),
    (0, Call::Outlook(0)),
    (0, Call::Begin),
    (1, Call::File(1, 2, NO_DUE_DATE)),
    (1, Call::Begin),
    // while it holds the lock, labs file and withdraw
    (2, Call::File(2, 5, 40)),
    (2, Call::File(2, 1, 20)),
    (2, Call::File(1, 4, NO_DUE_DATE)),
    (2, Call::Withdraw(5)),
    (2, Call::Outlook(2)),
    (3, Call::End),
    // what is foretold of each lab, if it is left alone
    (3, Call::Outlook(0)),
    (3, Call::Outlook(1)),
    (3, Call::Outlook(2)),
    (3, Call::Begin),
    // a run that takes longer than declared, and one that takes less
    (5, Call::Begin),
    (9, Call::End),
    (10, Call::Begin),
    (11, Call::End),
    (11, Call::Begin),
    // what is denied changes nothing
    (11, Call::End),
    (11, Call::Withdraw(5)),
    (11, Call::File(3, 1, NO_DUE_DATE)),
    (11, Call::File(1, 0, NO_DUE_DATE)),
    (11, Call::Outlook(3)),
    (10, Call::Begin),
    // the last import, and then nothing is left
    (15, Call::Begin),
    (15, Call::Begin),
    (20, Call::End),
    (LAST_TICK, Call::Begin),
];

fn ask(
    gate: &mut Gate<CircularTurns>,
    rows: &mut [MixedRow],
    tick: u64,
    call: Call,
) -> Result<Answer, Refusal> {
    let answer = match call {
        Call::File(lab, length, due) => { Answer::Ticket(gate.file(rows, tick, lab, length, due)?) }
        Call::Withdraw(number) => Answer::Lab(gate.withdraw(rows, tick, number)?),
        Call::Begin => Answer::Told(gate.begin(rows, tick)?),
        Call::End => {
            let (number, held, response) = gate.end(rows, tick)?;
            Answer::Ended(number, held, response)
        }
        Call::Outlook(lab) => {
            let mut places = [Entry::default(); ROOM];
            let count = gate.outlook(rows, lab, &mut places)?;
            Answer::Listed(Listed { places, count })
        }
    };
    Ok(answer)
}

fn print_levels(rt: &HostRuntime, rows: &[MixedRow]) -> anyhow::Result<()> {
    print!(rt; "   levels")?;
    for row in rows {
        print!(rt; " {}", row.level())?;
    }
    println!(rt; "")?;
    Ok(())
}

fn main(rt: HostRuntime) -> anyhow::Result<()> {
    let mut rows = [
        ServerRow::new(200, 2000, 1000)?.into(),
        SpacedRow::new(300)?.into(),
        ServerRow::new(400, 3000, 2000)?.into(),
    ];
    let mut gate = Gate::new(CircularTurns::new());
    gate.open(&mut rows, QueueOrder::Due)?;
    for (tick, call) in DAY.iter() {
        match ask(&mut gate, &mut rows, *tick, *call) {
            Ok(answer) => println!(rt; "{tick}: {call}: {answer}")?,
            Err(refusal) => println!(rt; "{tick}: {call}: {refusal}")?,
        }
        print_levels(&rt, &rows)?;
    }
    Ok(())
}
