ghost use Rattle.std.specs.Prelude.{◌≡◌};
ghost use Rattle.agenda.specs.Events.{rank_of, event_before, event_order};

use earliest::order::StrictTotalOrder;

// What happens at a tick, in this order.
#[derive(Clone, Copy, PartialEq, Eq, Debug)]
pub enum Kind {
    End = 0,
    Withdrawal = 1,
    Filing = 2,
    Begin = 3,
}

impl Kind {
    fn rank(self) -> u64
        ensures { result ≡ rank_of self }
    {
        self as u64
    }
}

// An event of a play. A withdrawal or a filing has the place where it stands in its section of the plan, from 0; others have place 0.
#[derive(Clone, Copy, PartialEq, Eq, Debug)]
pub struct Event {
    pub tick: u64,
    pub kind: Kind,
    pub place: u64,
}

impl StrictTotalOrder for Event {
    ghost before = { event_before };

    ghost strict_total = { event_order };

    #[tactic(auto, unfolding(crate::specs::Events::event_before, earliest::specs::Numbers::first_by))]
    fn is_before(&self, other: &Self) -> bool {
        (self.tick, self.kind.rank(), self.place) < (other.tick, other.kind.rank(), other.place)
    }
}
