ghost use Rattle.std.specs.Prelude.{◌≡◌, ◌+◌, ◌-◌, ◌<◌, ◌≤◌, length, take, drop, slice_get};
ghost use Rattle.earliest.specs.HeapOrder.{IsHeap};
ghost use Rattle.earliest.specs.Sorted.{inserted, sorted};
ghost use Rattle.agenda.specs.Events.{event_before};

use crate::event::Event;
use earliest::heap::Heap;

// Work on places of which the first `used` hold events. What one container leaves there, the next takes up.

pub(crate) fn put_in(places: &mut [Event], used: usize, event: Event)
    requires { used < length places.old }
    ensures len { length places.new ≡ length places.old }
    ensures stays { IsHeap event_before (take used places.old) → IsHeap event_before (take (used + 1) places.new) }
    ensures sorted { sorted event_before (take (used + 1) places.new) ≡ inserted event_before event (sorted event_before (take used places.old)) }
{
    let mut heap = Heap::over(places, used);
    heap.put(event);
}

pub(crate) fn take_from(places: &mut [Event], used: usize) -> Option<Event>
    requires fit { used ≤ length places.old }
    requires heap { IsHeap event_before (take used places.old) }
    ensures len { length places.new ≡ length places.old }
    ensures first { result ≡ slice_get (sorted event_before (take used places.old)) 0 }
    ensures stays { IsHeap event_before (take (used - 1) places.new) }
    ensures rest { sorted event_before (take (used - 1) places.new) ≡ drop 1 (sorted event_before (take used places.old)) }
{
    let mut heap = Heap::over(places, used);
    heap.take()
}
