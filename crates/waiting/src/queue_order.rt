ghost use Rattle.std.specs.Prelude.{◌≡◌};
ghost use Rattle.waiting.specs.Keys.{key_by};

// In which order the tickets of a lab wait: as they arrive, by due tick, or the shortest first.
#[derive(Clone, Copy, PartialEq, Eq, Debug)]
pub enum QueueOrder {
    Arrival,
    Due,
    Short,
}

impl QueueOrder {
    // The key of a ticket with this declared length and due tick.
    pub fn key(self, length: u64, due: u64) -> u64
        ensures { result ≡ key_by self length due }
    {
        match self {
            QueueOrder::Arrival => 0,
            QueueOrder::Due => due,
            QueueOrder::Short => length,
        }
    }
}
