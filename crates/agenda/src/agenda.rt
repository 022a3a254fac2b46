ghost use Rattle.std.specs.Prelude.{◌≡◌, ℕ, [], map, drop, slice_get, OnOk, OnErr, IfOk};
ghost use Rattle.earliest.specs.Sorted.{inserted, sorted};
ghost use Rattle.agenda.specs.Events.{event_before, first_events, events_from, with_events};
ghost use Rattle.plan.specs.Plans.{lists};

use crate::event::{Event, Kind};
use crate::places::{put_in, take_from};
use plan::plan::{Filing, Plan, Withdrawal};
use std::alloc::{AllocError, Global};
use std::marker::Model;

// A line of a plan that asks for something at a tick.
trait AtTick: Copy {
    ghost tick_of: { Self → ℕ };

    fn tick(&self) -> u64
        ensures { result ≡ tick_of self.now };
}

impl AtTick for Filing {
    ghost tick_of = { λ f. f.tick };

    fn tick(&self) -> u64 {
        self.tick
    }
}

impl AtTick for Withdrawal {
    ghost tick_of = { λ w. w.tick };

    fn tick(&self) -> u64 {
        self.tick
    }
}

// The events that are to come. They lie in the first places as a heap, and the other places hold nothing that counts; clauses see the list of
// events, in order.
#[derive(Drop)]
pub struct Agenda {
    places: Vec<Event>,
    used: usize,
}

impl Model for Agenda {
    ghost use Rattle.std.specs.Prelude.{◌≤◌, List, length, take};
    ghost use Rattle.earliest.specs.HeapOrder.{IsHeap};
    ghost use Rattle.earliest.specs.Sorted.{sorted};
    ghost use Rattle.agenda.specs.Events.{event_before};
    ghost use Rattle.agenda.specs.declared.event.Event.{Event};

    ghost Value = { List Event };

    ghost view = { λ a. sorted event_before (take a.used a.places.items) };

    ghost invariant = { λ a. (a.used ≤ length a.places.items) × IsHeap event_before (take a.used a.places.items) };
}

impl Agenda {
    #[tactic(auto, unfolding(earliest::specs::HeapOrder::IsHeap, earliest::specs::Sorted::sorted))]
    fn new(heap: Global) -> Agenda
        ensures { result ≡ [] }
    {
        Agenda {
            places: Vec::new(heap),
            used: 0,
        }
    }

    // The events to come when a play of this plan begins. Memory may run out.
    #[tactic(auto, using(crate::proofs::Filling::all_put))]
    pub fn of(heap: Global, plan: &Plan) -> Result<Agenda, AllocError>
        ensures { IfOk result (λ a. a ≡ sorted event_before (first_events (lists plan.now))) }
    {
        let mut agenda = Agenda::new(heap);
        agenda.put(Event {
            tick: 0,
            kind: Kind::Begin,
            place: 0,
        })?;
        agenda.put_section(Kind::Withdrawal, plan.withdrawals.as_slice())?;
        agenda.put_section(Kind::Filing, plan.filings.as_slice())?;
        Ok(agenda)
    }

    // An event comes for each line of a section of a plan.
    #[tactic(auto, using(crate::proofs::Filling::none_put, crate::proofs::Filling::one_put, crate::proofs::Filling::section_put))]
    fn put_section<T: AtTick>(&mut self, kind: Kind, section: &[T]) -> Result<(), AllocError>
        ensures { OnOk result (self.new ≡ with_events (events_from kind 0 (map T.tick_of section.now)) self.old) }
    {
        for (place, line) in section.iter().enumerate() {
            self.put(Event {
                tick: line.tick(),
                kind,
                place: place as u64,
            })?;
        }
        Ok(())
    }

    // The event that comes next.
    #[tactic(auto, using(crate::proofs::Coming::first_comes))]
    pub fn first(&self) -> Option<Event>
        ensures { result ≡ slice_get self.now 0 }
    {
        self.places.as_slice()[..self.used].first().copied()
    }

    // An event comes. Memory may run out, and then nothing has changed.
    pub fn put(&mut self, event: Event) -> Result<(), AllocError>
        ensures came { OnOk result (self.new ≡ inserted event_before event self.old) }
        ensures unchanged { OnErr result (self.new ≡ self.old) }
    {
        if self.used == self.places.len() {
            // this only makes room; `put_in` writes the place
            self.places.push(event)?;
        }
        put_in(self.places.as_mut_slice(), self.used, event);
        self.used += 1;
        Ok(())
    }

    // Takes out the event that comes next.
    pub fn take(&mut self) -> Option<Event>
        ensures first { result ≡ slice_get self.old 0 }
        ensures rest { self.new ≡ drop 1 self.old }
    {
        let first = take_from(self.places.as_mut_slice(), self.used);
        self.used = self.used.saturating_sub(1);
        first
    }
}
