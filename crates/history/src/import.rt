// The import that holds the lock.
#[derive(Clone, Copy, PartialEq, Eq, Debug)]
pub struct Import {
    pub lab: u64,
    // its ticket's number
    pub number: u64,
    // how long it is declared to take
    pub length: u64,
    // the tick at which its ticket was filed
    pub filed: u64,
    // the tick at which it began
    pub began: u64,
}
