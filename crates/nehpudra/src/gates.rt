ghost use Rattle.std.specs.Prelude.{◌≡◌, None};
ghost use Rattle.host_gates.specs.Handles.{gate_in};
ghost use Rattle.nehpudra.specs.Exports.{MadeIn, GuaranteedIn, turns_for, order_for, opens, files, withdraws, begins, ends, outlooks};

use gate::gate::Gate;
use host_gates::answers::{HostEnded, HostTurn, NO_GATE, NO_MEMORY, Told, status};
use host_gates::handle::GateHandle;
use host_rows::HostRow;
use outlook::entry::Entry;
use site_turns::SiteTurns;
use std::alloc::Global;
use turns::circular::CircularTurns;
use turns::longest_unserved::LongestUnservedTurns;
use waiting::queue_order::QueueOrder;

// Makes a gate that is still to be opened, with circular turns for 0, and else with longest-unserved turns. One that was there is freed.
// Where memory runs out, it stays.
#[unsafe(no_mangle)]
pub extern "C" fn nehpudra_new(heap: Global, gate: &mut GateHandle, turns: u64) -> u64
    ensures { MadeIn turns (gate_in gate.old) result (gate_in gate.new) }
{
    match Box::new(heap, Gate::new(turns_for(turns))) {
        Ok(made) => {
            gate.put(made);
            status(Ok(()))
        }
        Err(_) => NO_MEMORY,
    }
}

// Frees the gate, if there is one.
#[unsafe(no_mangle)]
pub extern "C" fn nehpudra_free(heap: Global, gate: &mut GateHandle)
    ensures { gate_in gate.new ≡ None }
{
    gate.take(heap);
}

// The last clause is what is guaranteed of everything that can follow a granted opening.
#[unsafe(no_mangle)]
#[tactic(auto, using(crate::proofs::Granted::on_granted))]
pub extern "C" fn nehpudra_open(
    heap: Global,
    gate: &mut GateHandle,
    rows: &mut [HostRow],
    order: u64,
) -> u64
    ensures answer { result ≡ (opens (gate_in gate.old) rows.old order).answer }
    ensures gate { gate_in gate.new ≡ (opens (gate_in gate.old) rows.old order).gate }
    ensures rows { rows.new ≡ (opens (gate_in gate.old) rows.old order).rows }
    ensures guarantee { result ≡ 0 → GuaranteedIn (gate_in gate.new) rows.new }
{
    let Some(mut held) = gate.take(heap) else {
        return NO_GATE;
    };
    let answer = held.open(rows, order_for(order));
    gate.put(held);
    status(answer)
}

#[unsafe(no_mangle)]
pub extern "C" fn nehpudra_file(
    heap: Global,
    gate: &mut GateHandle,
    rows: &mut [HostRow],
    tick: u64,
    lab: u64,
    length: u64,
    due: u64,
) -> Told
    ensures answer { result ≡ (files (gate_in gate.old) rows.old tick lab length due).answer }
    ensures gate { gate_in gate.new ≡ (files (gate_in gate.old) rows.old tick lab length due).gate }
    ensures rows { rows.new ≡ (files (gate_in gate.old) rows.old tick lab length due).rows }
{
    let Some(mut held) = gate.take(heap) else {
        return Told::nothing(NO_GATE);
    };
    let answer = held.file(rows, tick, lab, length, due);
    gate.put(held);
    Told::of(answer)
}

#[unsafe(no_mangle)]
pub extern "C" fn nehpudra_withdraw(
    heap: Global,
    gate: &mut GateHandle,
    rows: &mut [HostRow],
    tick: u64,
    number: u64,
) -> Told
    ensures answer { result ≡ (withdraws (gate_in gate.old) rows.old tick number).answer }
    ensures gate { gate_in gate.new ≡ (withdraws (gate_in gate.old) rows.old tick number).gate }
    ensures rows { rows.new ≡ (withdraws (gate_in gate.old) rows.old tick number).rows }
{
    let Some(mut held) = gate.take(heap) else {
        return Told::nothing(NO_GATE);
    };
    let answer = held.withdraw(rows, tick, number);
    gate.put(held);
    Told::of(answer)
}

#[unsafe(no_mangle)]
pub extern "C" fn nehpudra_begin(
    heap: Global,
    gate: &mut GateHandle,
    rows: &mut [HostRow],
    tick: u64,
) -> HostTurn
    ensures answer { result ≡ (begins (gate_in gate.old) rows.old tick).answer }
    ensures gate { gate_in gate.new ≡ (begins (gate_in gate.old) rows.old tick).gate }
    ensures rows { rows.new ≡ (begins (gate_in gate.old) rows.old tick).rows }
{
    let Some(mut held) = gate.take(heap) else {
        return HostTurn::nothing(NO_GATE);
    };
    let answer = held.begin(rows, tick);
    gate.put(held);
    HostTurn::of(answer)
}

#[unsafe(no_mangle)]
pub extern "C" fn nehpudra_end(
    heap: Global,
    gate: &mut GateHandle,
    rows: &mut [HostRow],
    tick: u64,
) -> HostEnded
    ensures answer { result ≡ (ends (gate_in gate.old) rows.old tick).answer }
    ensures gate { gate_in gate.new ≡ (ends (gate_in gate.old) rows.old tick).gate }
    ensures rows { rows.new ≡ (ends (gate_in gate.old) rows.old tick).rows }
{
    let Some(mut held) = gate.take(heap) else {
        return HostEnded::nothing(NO_GATE);
    };
    let answer = held.end(rows, tick);
    gate.put(held);
    HostEnded::of(answer)
}

// The handle is written, since the gate is taken out of it and put back; gate and rows stay as they are.
#[unsafe(no_mangle)]
pub extern "C" fn nehpudra_outlook(
    heap: Global,
    gate: &mut GateHandle,
    rows: &[HostRow],
    lab: u64,
    list: &mut [Entry],
) -> Told
    ensures answer { result ≡ (outlooks (gate_in gate.old) rows.now lab list.old).answer }
    ensures list { list.new ≡ (outlooks (gate_in gate.old) rows.now lab list.old).list }
    ensures gate { gate_in gate.new ≡ gate_in gate.old }
{
    let Some(held) = gate.take(heap) else {
        return Told::nothing(NO_GATE);
    };
    let answer = held.outlook(rows, lab, list);
    gate.put(held);
    Told::of(answer)
}

fn turns_for(number: u64) -> SiteTurns
    ensures { result ≡ turns_for number }
{
    match number {
        0 => SiteTurns::Circular(CircularTurns::new()),
        _ => SiteTurns::LongestUnserved(LongestUnservedTurns::new()),
    }
}

fn order_for(number: u64) -> QueueOrder
    ensures { result ≡ order_for number }
{
    match number {
        0 => QueueOrder::Arrival,
        1 => QueueOrder::Due,
        _ => QueueOrder::Short,
    }
}
