ghost use Rattle.std.specs.Prelude.{◌≡◌, length};
ghost use Rattle.history.specs.Calls.{anew};
ghost use Rattle.waiting.specs.Queues.{queue_of};
ghost use Rattle.waiting.specs.declared.queue_order.QueueOrder.TheVariants.{Arrival};

use history::import::Import;
use std::marker::Model;
use waiting::queue_order::QueueOrder;
use waiting::waiting::Waiting;

// One write lock: who has filed imports, who holds the lock, and since when. Labs take turns by the rule `T`. The host keeps the table of
// budget rows, one for each lab, and brings it to every call.
//
// Clauses see a gate as the record `GateState`.
#[derive(Drop)]
pub struct Gate<T> {
    pub(crate) turns: T,
    pub(crate) labs: u64,
    pub(crate) order: QueueOrder,
    pub(crate) clock: u64,
    pub(crate) given: u64,
    pub(crate) waiting: Waiting,
    pub(crate) running: Option<Import>,
}

impl<T> Model for Gate<T> {
    ghost use Rattle.std.specs.Prelude.{◌≤◌};
    ghost use Rattle.measures.specs.Limits.{last, most_labs};
    ghost use Rattle.history.specs.Gates.{GateState};
    ghost use Rattle.outlook.specs.Outlooks.{AllLawful};

    ghost Value = { GateState T };

    ghost view = { λ g. record { turns = g.turns; labs = g.labs; order = g.order; clock = g.clock; given = g.given; waiting = g.waiting; running = g.running } };

    ghost invariant = { λ g. (g.labs ≤ most_labs) × (g.clock ≤ last) × AllLawful g.waiting };
}

impl<T> Gate<T> {
    // A gate that is still to be opened.
    #[tactic(auto, using(outlook::proofs::Lawful::lawful_none))]
    pub fn new(turns: T) -> Gate<T>
        ensures { result ≡ anew turns 0 Arrival }
    {
        Gate {
            turns,
            labs: 0,
            order: QueueOrder::Arrival,
            clock: 0,
            given: 0,
            waiting: Waiting::new(),
            running: None,
        }
    }

    // The tick of the latest granted call.
    pub fn clock(&self) -> u64
        ensures { result ≡ self.now.clock }
    {
        self.clock
    }

    // How many labs there are.
    pub fn labs(&self) -> u64
        ensures { result ≡ self.now.labs }
    {
        self.labs
    }

    // The import that holds the lock.
    pub fn running(&self) -> Option<Import>
        ensures { result ≡ self.now.running }
    {
        self.running
    }

    // How many tickets of a lab wait.
    pub fn count_waiting(&self, lab: u64) -> u64
        ensures { result ≡ length (queue_of self.now.waiting lab) }
    {
        self.waiting.count(lab)
    }
}
