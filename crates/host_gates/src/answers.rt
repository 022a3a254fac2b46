ghost use Rattle.std.specs.Prelude.{◌≡◌};
ghost use Rattle.host_gates.specs.Answers.{status, told, untold, turn_told, no_turn, ended_told, none_ended};

use history::turn::Turn;
use measures::refusal::Refusal;

// How a call went is a number: 0 where it was granted, the number of the refusal where it was denied, and these two.

// There is no gate.
pub const NO_GATE: u64 = 17;

// Memory ran out.
pub const NO_MEMORY: u64 = 18;

// How a call went that answers nothing else.
pub fn status(answer: Result<(), Refusal>) -> u64
    ensures { result ≡ status answer }
{
    match answer {
        Ok(()) => 0,
        Err(refusal) => refusal.number(),
    }
}

// How a call went, and the number that it answers, or 0.
#[repr(C)]
#[derive(Clone, Copy, PartialEq, Eq, Debug)]
pub struct Told {
    pub status: u64,
    pub number: u64,
}

impl Told {
    pub fn of(answer: Result<u64, Refusal>) -> Told
        ensures { result ≡ told answer }
    {
        match answer {
            Ok(number) => Told { status: 0, number },
            Err(refusal) => Told::nothing(refusal.number()),
        }
    }

    pub fn nothing(status: u64) -> Told
        ensures { result ≡ untold status }
    {
        Told { status, number: 0 }
    }
}

// How a begin went, and whose turn it is. Numbers that a kind does not name are 0.
#[repr(C)]
#[derive(Clone, Copy, PartialEq, Eq, Debug)]
pub struct HostTurn {
    pub status: u64,
    // 0 where no ticket waits, 1 where one is to wait until a tick, and 2 where an import has begun
    pub kind: u64,
    pub until: u64,
    pub lab: u64,
    pub number: u64,
    pub length: u64,
}

impl HostTurn {
    pub fn of(answer: Result<Turn, Refusal>) -> HostTurn
        ensures { result ≡ turn_told answer }
    {
        match answer {
            Ok(
                Turn::Began {
                    lab,
                    number,
                    length,
                },
            ) => HostTurn {
                kind: 2,
                lab,
                number,
                length,
                ..HostTurn::nothing(0)
            },
            Ok(Turn::Wait(until)) => HostTurn {
                kind: 1,
                until,
                ..HostTurn::nothing(0)
            },
            Ok(Turn::Nothing) => HostTurn::nothing(0),
            Err(refusal) => HostTurn::nothing(refusal.number()),
        }
    }

    pub fn nothing(status: u64) -> HostTurn
        ensures { result ≡ no_turn status }
    {
        HostTurn {
            status,
            kind: 0,
            until: 0,
            lab: 0,
            number: 0,
            length: 0,
        }
    }
}

// How an end went, and what has ended: the number of the ticket, the ticks that the lock was held, and the response time; or zeros.
#[repr(C)]
#[derive(Clone, Copy, PartialEq, Eq, Debug)]
pub struct HostEnded {
    pub status: u64,
    pub number: u64,
    pub held: u64,
    pub response: u64,
}

impl HostEnded {
    pub fn of(answer: Result<(u64, u64, u64), Refusal>) -> HostEnded
        ensures { result ≡ ended_told answer }
    {
        match answer {
            Ok((number, held, response)) => HostEnded {
                status: 0,
                number,
                held,
                response,
            },
            Err(refusal) => HostEnded::nothing(refusal.number()),
        }
    }

    pub fn nothing(status: u64) -> HostEnded
        ensures { result ≡ none_ended status }
    {
        HostEnded {
            status,
            number: 0,
            held: 0,
            response: 0,
        }
    }
}
