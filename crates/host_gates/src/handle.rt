ghost use Rattle.std.specs.Prelude.{◌≡◌, None, Some};
ghost use Rattle.std.specs.Option.{MatchOption};

use crate::parked::Parked;
use gate::gate::Gate;
use site_turns::SiteTurns;
use std::alloc::Global;
use std::mem;

// What a host keeps of a gate. Memory that is all zeros is a handle with no gate.
#[repr(C)]
pub struct GateHandle {
    full: bool,
    parked: Parked,
    ghost same: { parked.full ≡ full },
}

impl GateHandle {
    ghost use Rattle.host_gates.specs.Handles.{gate_in};

    // A handle with no gate.
    fn none(alloc: Global) -> GateHandle
        ensures { gate_in result ≡ None }
    {
        GateHandle {
            full: false,
            parked: Parked::none(alloc),
        }
    }

    // A handle with this gate.
    fn with(held: Box<Gate<SiteTurns>, Global>) -> GateHandle
        ensures { gate_in result ≡ Some held.value }
    {
        GateHandle {
            full: true,
            parked: Parked::of(held),
        }
    }

    // Takes the gate out.
    pub fn take(&mut self, alloc: Global) -> Option<Box<Gate<SiteTurns>, Global>>
        ensures gate { MatchOption result (gate_in self.old ≡ None) (λ held. gate_in self.old ≡ Some held.value) }
        ensures left { gate_in self.new ≡ None }
    {
        let GateHandle { full, parked } = mem::replace(self, GateHandle::none(alloc));
        if full {
            Some(parked.into_box())
        } else {
            parked.forget();
            None
        }
    }

    // Puts a gate in. One that is there is freed.
    pub fn put(&mut self, held: Box<Gate<SiteTurns>, Global>)
        ensures { gate_in self.new ≡ Some held.value }
    {
        let GateHandle { full, parked } = mem::replace(self, GateHandle::with(held));
        if full {
            drop(parked.into_box());
        } else {
            parked.forget();
        }
    }
}
