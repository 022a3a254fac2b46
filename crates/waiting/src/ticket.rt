ghost use Rattle.std.specs.Prelude.{◌≡◌};

use earliest::order::StrictTotalOrder;
use measures::limits::MOST_WAITING;

// For how many waiting tickets of a lab there is room.
pub const ROOM: usize = MOST_WAITING as usize;

// An import that a lab has filed.
#[derive(Clone, Copy, PartialEq, Eq, Default, Debug)]
pub struct Ticket {
    // what its queue is ordered by first
    pub key: u64,
    pub number: u64,
    pub lab: u64,
    // the tick at which it was filed
    pub filed: u64,
    // how long it is declared to take
    pub length: u64,
    // the tick by which it is wanted, or the last tick if there is none
    pub due: u64,
}

impl Ticket {
    // What tickets are compared by, one number after another.
    fn rank(self) -> (u64, u64, u64, u64, u64, u64)
        ensures { result ≡ (self.key, self.number, self.lab, self.filed, self.length, self.due) }
    {
        (
            self.key,
            self.number,
            self.lab,
            self.filed,
            self.length,
            self.due,
        )
    }
}

// The smaller key comes first, and of equal keys the smaller number. What else a ticket holds decides only where both are equal, so that of
// two tickets that differ in anything one is before the other.
impl StrictTotalOrder for Ticket {
    ghost use Rattle.waiting.specs.Tickets.{ticket_before, ticket_order};

    ghost before = { ticket_before };

    ghost strict_total = { ticket_order };

    #[tactic(auto, unfolding(crate::specs::Tickets::ticket_before, earliest::specs::Numbers::first_by))]
    fn is_before(&self, other: &Self) -> bool {
        self.rank() < other.rank()
    }
}
