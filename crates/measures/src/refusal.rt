ghost use Rattle.std.specs.Prelude.{◌≡◌, Some};
ghost use Rattle.measures.specs.Refusals.{number_of, name_of, refusal_text};

use std::error::Error;
use std::fmt;

// Why a call was denied. A denied call changes nothing. `{}` writes the number that callers are told, and the name.
#[derive(Clone, Copy, PartialEq, Eq, Debug)]
pub enum Refusal {
    RateOutOfRange = 1,
    CeilingOutOfRange = 2,
    ThresholdAboveCeiling = 3,
    // a table has not 1 to 64 rows
    LabCountOutOfRange = 4,
    // the rates of a table add up to more than 900
    RateSumTooLarge = 5,
    // a table has not one row for each lab
    TableMismatch = 6,
    // a tick is below the clock or above the last tick
    TickOutOfRange = 7,
    NoSuchLab = 8,
    LengthOutOfRange = 9,
    // a due tick is below the filing tick or above the last tick
    DueOutOfRange = 10,
    QueueFull = 11,
    TicketsExhausted = 12,
    NoSuchTicket = 13,
    LockHeld = 14,
    LockFree = 15,
    // an answer list has fewer places than there are answers
    ListTooShort = 16,
}

impl Refusal {
    // The number that callers are told.
    pub fn number(self) -> u64
        ensures { result ≡ number_of self }
    {
        self as u64
    }

    // Its name, as a person reads it.
    fn name(self) -> &'static str
        ensures { result.now ≡ name_of self }
    {
        match self {
            Refusal::RateOutOfRange => "RateOutOfRange",
            Refusal::CeilingOutOfRange => "CeilingOutOfRange",
            Refusal::ThresholdAboveCeiling => "ThresholdAboveCeiling",
            Refusal::LabCountOutOfRange => "LabCountOutOfRange",
            Refusal::RateSumTooLarge => "RateSumTooLarge",
            Refusal::TableMismatch => "TableMismatch",
            Refusal::TickOutOfRange => "TickOutOfRange",
            Refusal::NoSuchLab => "NoSuchLab",
            Refusal::LengthOutOfRange => "LengthOutOfRange",
            Refusal::DueOutOfRange => "DueOutOfRange",
            Refusal::QueueFull => "QueueFull",
            Refusal::TicketsExhausted => "TicketsExhausted",
            Refusal::NoSuchTicket => "NoSuchTicket",
            Refusal::LockHeld => "LockHeld",
            Refusal::LockFree => "LockFree",
            Refusal::ListTooShort => "ListTooShort",
        }
    }
}

impl fmt::Display for Refusal {
    ghost output = { λ refusal. Some (refusal_text refusal) };

    fn fmt<W: fmt::Write>(&self, f: &mut fmt::Formatter<W>) -> fmt::Result {
        write!(f, "refusal {}: {}", self.number(), self.name())
    }
}

impl Error for Refusal {}
