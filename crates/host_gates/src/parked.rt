ghost use Rattle.std.specs.Prelude.{◌≡◌, Bool, true, false};
ghost use Rattle.history.specs.Gates.{GateState};
ghost use Rattle.site_turns.specs.declared.SiteTurns.{SiteTurns};

use gate::gate::Gate;
use site_turns::SiteTurns;
use std::alloc::Global;
use std::marker::Model;
use std::ptr::null_mut;

// The pointer of a gate on the heap, or a pointer to nothing. It is of bytes, since C may know nothing of what lies there. What it owns is said
// by two ghost fields: whether a gate lies there, and which.
#[repr(C)]
pub struct Parked {
    at: *mut u8,
    alloc: Global,
    pub ghost full: { Bool },
    pub ghost gate: { GateState SiteTurns },
}

impl Model for Parked {
    ghost use Rattle.std_alloc.specs.Box.Ownership.{box_owns};
    ghost use Rattle.std.specs.contracts.impls.GlobalAllocator.TheImpl.{ghosts};
    ghost use Rattle.host_gates.specs.Owned.{owned_if};
    ghost use Rattle.gate.specs.contracts.gate.Gate as gates;
    ghost use Rattle.site_turns.specs.contracts.SiteTurns as turns;

    ghost also_owns = { λ p. owned_if p.full (box_owns (ghosts.dealloc_token p.alloc) (gates.the_row turns.the_row) p.at p.gate) };
}

impl Parked {
    pub(crate) fn none(alloc: Global) -> Parked
        ensures { result.full ≡ false }
    {
        Parked {
            at: null_mut(),
            alloc,
        }
    }

    pub(crate) fn of(held: Box<Gate<SiteTurns>, Global>) -> Parked
        ensures full { result.full ≡ true }
        ensures gate { result.gate ≡ held.value }
    {
        let (at, alloc) = Box::into_raw_with_allocator(held);
        Parked {
            at: at as *mut u8,
            alloc,
        }
    }

    pub(crate) fn into_box(self) -> Box<Gate<SiteTurns>, Global>
        requires { self.full ≡ true }
        ensures { result.value ≡ self.gate }
    {
        let Parked { at, alloc } = self;
        unsafe { Box::from_raw(alloc, at as *mut Gate<SiteTurns>) }
    }

    // There is nothing to free.
    pub(crate) fn forget(self)
        requires { self.full ≡ false }
    {
        let Parked { at: _, alloc: _ } = self;
    }
}
