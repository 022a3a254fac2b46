ghost use Rattle.std.specs.Prelude.{◌≡◌, ◌<◌, ◌≤◌, List, [], length, map, slice_get, if◌then◌else◌, None, IsSome, IfNone, IfSome};
ghost use Rattle.measures.specs.Limits.{most_waiting, is_lab_number};
ghost use Rattle.waiting.specs.Queues.{queue_of, AreOwn, IsInOrder, none_waiting, may_wait, with_ticket, without_first, ticket_numbered, waiting_ticket, without_ticket, headed_by};
ghost use Rattle.waiting.specs.declared.ticket.Ticket.{Ticket};

use crate::queue::Queue;
use crate::ticket::{ROOM, Ticket};
use measures::limits::MOST_LABS;
use std::array;
use std::marker::Model;

const LABS: usize = MOST_LABS as usize;

// The tickets that wait, in a queue for each lab. Clauses see the list of the queues, and of each queue the list of its tickets.
#[derive(Drop)]
pub struct Waiting {
    queues: [Queue; LABS],
}

impl Model for Waiting {
    ghost Value = { List (List Ticket) };

    ghost view = { λ w. w.queues };

    ghost invariant = { λ w. AreOwn w.queues };
}

impl Waiting {
    #[tactic(auto, using(crate::proofs::Labs::own_none))]
    pub fn new() -> Waiting
        ensures { result ≡ none_waiting }
    {
        let queues = empty_queues();
        Waiting { queues }
    }

    // No ticket waits any more.
    #[tactic(auto, using(crate::proofs::Labs::all_cleared, crate::proofs::Labs::own_none))]
    pub fn clear(&mut self)
        ensures { self.new ≡ none_waiting }
    {
        clear_all(&mut self.queues);
    }

    // How many tickets of a lab wait.
    pub fn count(&self, lab: u64) -> u64
        ensures value { result ≡ length (queue_of self.now lab) }
        ensures within { result ≤ most_waiting }
    {
        if !self.has_lab(lab) {
            return 0;
        }
        self.queues[lab as usize].len()
    }

    // The first ticket of a lab.
    #[tactic(auto, using(crate::proofs::Labs::no_lab_in_order))]
    pub fn first(&self, lab: u64) -> Option<Ticket>
        ensures value { result ≡ slice_get (queue_of self.now lab) 0 }
        ensures order { IsInOrder (queue_of self.now lab) }
        ensures own { AreOwn self.now }
    {
        if !self.has_lab(lab) {
            return None;
        }
        self.queues[lab as usize].first()
    }

    // Puts a ticket into the queue of its lab. No where there is no such lab, or its queue is full.
    #[tactic(auto, using(crate::proofs::Labs::own_put))]
    pub fn put(&mut self, ticket: Ticket) -> bool
        ensures answer { result ≡ may_wait self.old ticket }
        ensures queues { self.new ≡ (if result then with_ticket self.old ticket else self.old) }
    {
        if !self.has_lab(ticket.lab) {
            return false;
        }
        let queue = &mut self.queues[ticket.lab as usize];
        queue.put(ticket)
    }

    // Takes out the first ticket of a lab.
    #[tactic(auto, using(crate::proofs::Labs::own_take))]
    pub fn take(&mut self, lab: u64) -> Option<Ticket>
        ensures first { result ≡ slice_get (queue_of self.old lab) 0 }
        ensures queues { self.new ≡ without_first self.old lab }
    {
        if !self.has_lab(lab) {
            return None;
        }
        let queue = &mut self.queues[lab as usize];
        queue.take()
    }

    // Takes out the waiting ticket with this number. Should it wait more than once, the first of the lowest lab goes.
    #[tactic(auto, using(crate::proofs::Labs::own_withdraw, crate::proofs::Labs::without_ticket_is))]
    pub fn withdraw(&mut self, number: u64) -> Option<Ticket>
        ensures ticket { result ≡ waiting_ticket self.old number }
        ensures queues { self.new ≡ without_ticket self.old number }
        ensures own { AreOwn self.old }
    {
        let lab = self.lab_with(number)?;
        let queue = &mut self.queues[lab];
        queue.withdraw(number)
    }

    // Writes the tickets of a lab in queue order at the head of a list, and answers how many they are.
    pub fn copy_queue(&self, lab: u64, list: &mut [Ticket; ROOM]) -> u64
        ensures count { result ≡ length (queue_of self.now lab) }
        ensures list { list.new ≡ headed_by (queue_of self.now lab) list.old }
    {
        if !self.has_lab(lab) {
            return 0;
        }
        self.queues[lab as usize].copy_to(list)
    }

    // Reads the array, so that a proof knows what holds of it.
    fn has_lab(&self, lab: u64) -> bool
        ensures value { result ≡ is_lab_number lab }
        ensures own { AreOwn self.now }
    {
        self.queues.get(lab as usize).is_some()
    }

    // The lowest lab for which a ticket with this number waits.
    #[tactic(auto, using(crate::proofs::Labs::next_lab, crate::proofs::Labs::lowest_lab))]
    fn lab_with(&self, number: u64) -> Option<usize>
        ensures none { IfNone result (waiting_ticket self.now number ≡ None) }
        ensures within { IfSome result (λ k. k < length self.now) }
        ensures lowest { IfSome result (λ k. waiting_ticket self.now number ≡ ticket_numbered number (queue_of self.now k)) }
        ensures some { IfSome result (λ k. IsSome (ticket_numbered number (queue_of self.now k))) }
        ensures own { AreOwn self.now }
    {
        for (lab, queue) in self.queues.iter().enumerate() {
            if queue.has_number(number) {
                return Some(lab);
            }
        }
        None
    }
}

fn empty_queues() -> [Queue; LABS]
    ensures { result ≡ none_waiting }
{
    array::from_fn(|_| Queue::new())
}

#[tactic(auto, using(crate::proofs::Labs::one_cleared))]
fn clear_all(queues: &mut [Queue])
    ensures { queues.new ≡ map (λ q. []) queues.old }
{
    for queue in queues.iter_mut() {
        queue.clear();
    }
}
