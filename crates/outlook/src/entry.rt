// What an outlook tells of a ticket: its number, and the ticks from `start` to `end` for which its import would hold the lock. Its
// layout is one that C knows, so that a list of these can be a host's.
#[repr(C)]
#[derive(Clone, Copy, PartialEq, Eq, Default, Debug)]
pub struct Entry {
    pub number: u64,
    pub start: u64,
    pub end: u64,
}
