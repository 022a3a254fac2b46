// Whose turn it is.
#[derive(Clone, Copy, PartialEq, Eq, Debug)]
pub enum Turn {
    // this lab's import has begun, by the ticket with this number; how long it is declared to take
    Began { lab: u64, number: u64, length: u64 },
    // tickets wait, and none of these can begin before this tick, which may be above the last one
    Wait(u64),
    // no ticket waits
    Nothing,
}
