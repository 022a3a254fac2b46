ghost use Rattle.std.specs.Prelude.{◌≡◌, ◌≤◌, List, [], not, length, drop, slice_get, is_some, if◌then◌else◌};
ghost use Rattle.earliest.specs.Sorted.{inserted};
ghost use Rattle.measures.specs.Limits.{most_waiting, is_full};
ghost use Rattle.waiting.specs.Places.{queue_in, LieAsHeap};
ghost use Rattle.waiting.specs.Queues.{IsInOrder, ticket_numbered, without_numbered, headed_by};
ghost use Rattle.waiting.specs.Tickets.{ticket_before};
ghost use Rattle.waiting.specs.declared.ticket.Ticket.{Ticket};

use crate::places::{place_of, put_in, take_first, withdraw_from, write_in_order};
use crate::ticket::{ROOM, Ticket};
use measures::limits::is_full;
use std::marker::Model;

// The waiting tickets of one lab. They lie in the first places as a heap; clauses see the list of them in queue order.
#[derive(Drop)]
pub(crate) struct Queue {
    places: [Ticket; ROOM],
    used: usize,
}

impl Model for Queue {
    ghost Value = { List Ticket };

    ghost view = { λ q. queue_in q.used q.places };

    ghost invariant = { λ q. (length q.places ≡ most_waiting) × (q.used ≤ most_waiting) × LieAsHeap q.used q.places };
}

impl Queue {
    #[tactic(auto, unfolding(earliest::specs::HeapOrder::IsHeap, earliest::specs::Sorted::sorted))]
    pub(crate) fn new() -> Queue
        ensures { result ≡ [] }
    {
        Queue {
            places: [Ticket::default(); ROOM],
            used: 0,
        }
    }

    // No ticket waits any more; what lies in the places has no meaning then.
    #[tactic(auto, unfolding(earliest::specs::HeapOrder::IsHeap, earliest::specs::Sorted::sorted))]
    pub(crate) fn clear(&mut self)
        ensures { self.new ≡ [] }
    {
        self.used = 0;
    }

    #[tactic(auto, using(crate::proofs::Sorting::as_many))]
    pub(crate) fn len(&self) -> u64
        ensures value { result ≡ length self.now }
        ensures within { result ≤ most_waiting }
    {
        self.used as u64
    }

    #[tactic(auto, using(crate::proofs::Sorting::first_waits, crate::proofs::Sorting::queue_in_order))]
    pub(crate) fn first(&self) -> Option<Ticket>
        ensures value { result ≡ slice_get self.now 0 }
        ensures order { IsInOrder self.now }
    {
        self.places[..self.used].first().copied()
    }

    pub(crate) fn has_number(&self, number: u64) -> bool
        ensures { result ≡ is_some (ticket_numbered number self.now) }
    {
        place_of(&self.places[..self.used], number).is_some()
    }

    // No where the queue is full.
    #[tactic(auto, using(crate::proofs::Sorting::as_many))]
    pub(crate) fn put(&mut self, ticket: Ticket) -> bool
        ensures answer { result ≡ not (is_full (length self.old)) }
        ensures queue { self.new ≡ (if result then inserted ticket_before ticket self.old else self.old) }
    {
        if is_full(self.used as u64) {
            return false;
        }
        put_in(&mut self.places, self.used, ticket);
        self.used += 1;
        true
    }

    pub(crate) fn take(&mut self) -> Option<Ticket>
        ensures first { result ≡ slice_get self.old 0 }
        ensures rest { self.new ≡ drop 1 self.old }
    {
        let first = take_first(&mut self.places, self.used);
        self.used = self.used.saturating_sub(1);
        first
    }

    // Takes out the first ticket with this number.
    #[tactic(auto, using(crate::proofs::Numbered::all_stay))]
    pub(crate) fn withdraw(&mut self, number: u64) -> Option<Ticket>
        ensures ticket { result ≡ ticket_numbered number self.old }
        ensures rest { self.new ≡ without_numbered number self.old }
    {
        let ticket = withdraw_from(&mut self.places, self.used, number)?;
        self.used -= 1;
        Some(ticket)
    }

    // Writes the tickets in their order at the head of a list, and answers how many they are.
    #[tactic(auto, using(crate::proofs::Sorting::as_many))]
    pub(crate) fn copy_to(&self, list: &mut [Ticket; ROOM]) -> u64
        ensures count { result ≡ length self.now }
        ensures list { list.new ≡ headed_by self.now list.old }
    {
        let mut places = self.places;
        write_in_order(&mut places, self.used, list);
        self.used as u64
    }
}
