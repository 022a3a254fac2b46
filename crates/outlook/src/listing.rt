ghost use Rattle.std.specs.Prelude.{◌≡◌, ◌+◌, ◌^◌, ◌<◌, ◌≤◌, true, length, OnOk, OnErr};
ghost use Rattle.measures.specs.Limits.{last, most_waiting};
ghost use Rattle.waiting.specs.Queues.{headed_by};
ghost use Rattle.outlook.specs.Outlooks.{are_lawful, AreSoonest, Ran, listable, outlook};

use crate::entry::Entry;
use budget::imports::{RowAt, rest_long};
use budget::row::BudgetRow;
use measures::limits::{MOST_WAITING, is_length, is_tick};
use measures::refusal::Refusal;
use waiting::ticket::Ticket;

// Lists when tickets will run on a row alone, from `tick` on: each begins as soon as the row is able, once the one before it has ended, and
// lasts as declared. The first places of the list are written, so that no memory is asked for. Refused, and nothing is written, for a tick
// above the last tick, a declared length out of range among the first 17, more than 16 tickets, or a list with fewer places than tickets.
#[tactic(auto, using(crate::proofs::Listed::listed_soonest, crate::proofs::Listed::lawful_all))]
pub fn list_tickets<R: BudgetRow>(
    row: &R,
    tick: u64,
    tickets: &[Ticket],
    list: &mut [Entry],
) -> Result<(), Refusal>
    ensures answer { result ≡ listable tick tickets.now (length list.old) }
    ensures listed { OnOk result (list.new ≡ headed_by (outlook R.meaning row.now tick tickets.now) list.old) }
    ensures unchanged { OnErr result (list.new ≡ list.old) }
    ensures soonest { OnOk result (AreSoonest R.meaning row.now tick tickets.now list.new) }
{
    check_list(tick, tickets, list.len())?;
    fill_list(row, tick, tickets, list);
    Ok(())
}

// However long the list is, no more than 17 tickets are looked at.
#[tactic(auto, unfolding(crate::specs::Outlooks::deciding))]
fn check_list(tick: u64, tickets: &[Ticket], places: usize) -> Result<(), Refusal>
    ensures { result ≡ listable tick tickets.now places }
{
    let deciding = &tickets[..tickets.len().min(MOST_WAITING as usize + 1)];
    if !is_tick(tick) {
        return Err(Refusal::TickOutOfRange);
    }
    if !are_lawful(deciding) {
        return Err(Refusal::LengthOutOfRange);
    }
    if tickets.len() as u64 > MOST_WAITING {
        return Err(Refusal::QueueFull);
    }
    if tickets.len() > places {
        return Err(Refusal::ListTooShort);
    }
    Ok(())
}

// Whether each of these has a length that an import may declare.
fn are_lawful(tickets: &[Ticket]) -> bool
    ensures { result ≡ are_lawful tickets.now }
{
    tickets.iter().all(|ticket| is_length(ticket.length))
}

#[tactic(auto, using(crate::proofs::Listed::lawful_at, crate::proofs::Listed::none_listed, crate::proofs::Listed::end_fits, crate::proofs::Listed::one_listed, crate::proofs::Listed::all_listed))]
fn fill_list<R: BudgetRow>(row: &R, tick: u64, tickets: &[Ticket], list: &mut [Entry])
    requires tick { tick ≤ last }
    requires lawful { are_lawful tickets.now ≡ true }
    requires few { length tickets.now ≤ most_waiting }
    requires room { length tickets.now ≤ length list.old }
    ensures { list.new ≡ headed_by (outlook R.meaning row.now tick tickets.now) list.old }
{
    let mut next = RowAt { row: *row, tick };
    // by index, since a proof knows nothing of a slice that was written through `iter_mut().zip(..)`
    for (i, ticket) in tickets.iter().enumerate() {
        list[i] = run(&mut next, *ticket);
    }
}

// One import: the row rests until it is able, and runs for as long as the ticket declares.
#[tactic(auto, using(budget::proofs::Resting::woken_able), unfolding(crate::specs::Outlooks::Ran))]
fn run<R: BudgetRow>(at: &mut RowAt<R>, ticket: Ticket) -> Entry
    requires fits { at.old.tick + R.meaning.wake at.old.row + ticket.length < 2 ^ 64 }
    requires lawful { ticket.length ≤ last }
    ensures { Ran R.meaning at.old.row at.old.tick ticket result at.new.row at.new.tick }
{
    let wait = at.row.wake();
    rest_long(&mut at.row, wait);
    at.row.ended(ticket.length);
    let start = at.tick + wait;
    let end = start + ticket.length;
    at.tick = end;
    Entry {
        number: ticket.number,
        start,
        end,
    }
}
