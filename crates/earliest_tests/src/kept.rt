ghost use Rattle.std.specs.Prelude.{◌≡◌, ◌≤◌, ◌<◌, [], nat_lt, ◌+◌, ◌-◌, length, take, drop, slice_get, if◌then◌else◌};
ghost use Rattle.earliest.specs.HeapOrder.{IsHeap, IsHeap-prop};
ghost use Rattle.earliest.specs.Sorted.{inserted, sorted};
ghost use Rattle.earliest_tests.specs.Dated.{dated_before};

use crate::dated::Dated;
use earliest::heap::Heap;

// Dated elements in memory of their own. To put or to take makes a container over it, which leaves its elements to the next.
#[derive(Drop)]
pub struct Kept {
    places: [Dated; 40],
    used: usize,
    ghost long: { length places ≡ 40 },
    ghost fit: { used ≤ 40 },
    ghost heap: { IsHeap dated_before (take used places) } by { IsHeap-prop dated_before (take used places) },
}

impl Kept {
    ghost use Rattle.earliest_tests.specs.Kept.{held, queue};

    #[tactic(auto, unfolding(earliest::specs::HeapOrder::IsHeap, earliest::specs::Sorted::sorted))]
    pub fn new() -> Kept
        ensures { queue result ≡ [] }
    {
        Kept {
            places: [Dated { date: 0, number: 0 }; 40],
            used: 0,
        }
    }

    pub fn put(&mut self, x: Dated) -> bool
        ensures answer { result ≡ nat_lt (held self.old) 40 }
        ensures queue { queue self.new ≡ (if result then inserted dated_before x (queue self.old) else queue self.old) }
    {
        if self.used == 40 {
            return false;
        }
        put_in(&mut self.places, self.used, x);
        self.used += 1;
        true
    }

    pub fn take(&mut self) -> Option<Dated>
        ensures first { result ≡ slice_get (queue self.old) 0 }
        ensures queue { queue self.new ≡ drop 1 (queue self.old) }
    {
        let first = take_from(&mut self.places, self.used);
        self.used = self.used.saturating_sub(1);
        first
    }
}

fn put_in(places: &mut [Dated], used: usize, x: Dated)
    requires { used < length places.old }
    ensures len { length places.new ≡ length places.old }
    ensures stays { IsHeap dated_before (take used places.old) → IsHeap dated_before (take (used + 1) places.new) }
    ensures sorted { sorted dated_before (take (used + 1) places.new) ≡ inserted dated_before x (sorted dated_before (take used places.old)) }
{
    let mut heap = Heap::over(places, used);
    heap.put(x);
}

fn take_from(places: &mut [Dated], used: usize) -> Option<Dated>
    requires fit { used ≤ length places.old }
    requires heap { IsHeap dated_before (take used places.old) }
    ensures len { length places.new ≡ length places.old }
    ensures first { result ≡ slice_get (sorted dated_before (take used places.old)) 0 }
    ensures stays { IsHeap dated_before (take (used - 1) places.new) }
    ensures rest { sorted dated_before (take (used - 1) places.new) ≡ drop 1 (sorted dated_before (take used places.old)) }
{
    let mut heap = Heap::over(places, used);
    heap.take()
}
