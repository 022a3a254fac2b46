// Reads server rows from standard input, a line for each: a tick, rate, ceiling and threshold, and the lengths of imports that the lab with
// this row, which is new at tick 0, files at that tick. Prints the tick, the rate, and the starts and ends that a gate foretells, to be held
// against figures that were computed by other means.
#![tactic(auto)]

use anyhow::anyhow;
use gate::gate::Gate;
use measures::limits::LAST_TICK;
use outlook::entry::Entry;
use server::ServerRow;
use std::alloc::Global;
use turns::circular::CircularTurns;
use waiting::queue_order::QueueOrder;
use waiting::ticket::ROOM;

fn read_numbers(heap: Global, line: &str) -> anyhow::Result<Vec<u64>> {
    line.split(' ')
        .map(|word| -> anyhow::Result<u64> { Ok(word.parse::<u64>()?) })
        .try_collect(heap)
}

fn answer(rt: &HostRuntime, numbers: &[u64]) -> anyhow::Result<()> {
    match numbers {
        [tick, rate, ceiling, threshold, lengths @ ..] => {
            let row = ServerRow::new(*rate, *ceiling, *threshold)?;
            print!(rt; "{tick} {rate}:")?;
            print_outlook(rt, row, *tick, lengths)
        }
        _ => Err(anyhow!("a line has fewer than four numbers")),
    }
}

fn print_outlook(
    rt: &HostRuntime,
    row: ServerRow,
    tick: u64,
    lengths: &[u64],
) -> anyhow::Result<()> {
    let mut rows = [ServerRow::new(1, 0, 0)?];
    let mut gate = Gate::new(CircularTurns::new());
    gate.open(&mut rows, QueueOrder::Arrival)?;
    // only now, since a gate opens over no rate above 900
    rows[0] = row;
    for length in lengths {
        gate.file(&mut rows, tick, 0, *length, LAST_TICK)?;
    }
    let mut list = [Entry::default(); ROOM];
    let count = gate.outlook(&rows, 0, &mut list)?;
    for Entry { start, end, .. } in list.iter().take(count as usize) {
        print!(rt; " {start} {end}")?;
    }
    println!(rt; "")?;
    Ok(())
}

fn main(rt: HostRuntime) -> anyhow::Result<()> {
    for line in rt.lines(rt.alloc()) {
        let numbers = read_numbers(rt.alloc(), line?.as_str())?;
        answer(&rt, numbers.as_slice())?;
    }
    Ok(())
}
