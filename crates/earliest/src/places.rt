ghost use Rattle.std.specs.Prelude.{◌≡◌, ◌+◌, ◌-◌, ◌<◌, ◌≤◌, ◌∷◌, Some, length, take, slice_get, IsPermutation};
ghost use Rattle.earliest.specs.HeapOrder.{IsHeap, IsHeapBut};

use crate::order::StrictTotalOrder;
use crate::sift::{sift_down, sift_up};

// Puts an element at the place past the first `used`, and settles it among them.
#[tactic(auto, using(crate::proofs::Used::came, crate::proofs::Used::but_last))]
pub(crate) fn put_in<T: StrictTotalOrder>(places: &mut [T], used: usize, x: T)
    requires { used < length places.old }
    ensures len { length places.new ≡ length places.old }
    ensures came { IsPermutation (x ∷ take used places.old) (take (used + 1) places.new) }
    ensures stays { IsHeap T.before (take used places.old) → IsHeap T.before (take (used + 1) places.new) }
{
    places[used] = x;
    settle(places, used + 1, used);
}

// Takes out the element at one of the first `used` places. The last of them fills the gap, and settles.
#[tactic(auto, using(crate::proofs::Used::value, crate::proofs::Used::went, crate::proofs::Used::but_gap))]
pub(crate) fn take_out<T: StrictTotalOrder>(places: &mut [T], used: usize, place: usize) -> T
    requires { (place < used) × (used ≤ length places.old) }
    ensures len { length places.new ≡ length places.old }
    ensures value { Some result ≡ slice_get (take used places.old) place }
    ensures went { IsPermutation (take used places.old) (result ∷ take (used - 1) places.new) }
    ensures stays { IsHeap T.before (take used places.old) → IsHeap T.before (take (used - 1) places.new) }
{
    let gone = places[place];
    places[place] = places[used - 1];
    settle(places, used - 1, place);
    gone
}

// Moves the element at a place to where it may stand among the first `used`. Where the place is past them, nothing moves.
fn settle<T: StrictTotalOrder>(places: &mut [T], used: usize, from: usize)
    requires { used ≤ length places.old }
    ensures len { length places.new ≡ length places.old }
    ensures same { IsPermutation (take used places.old) (take used places.new) }
    ensures settles { IsHeapBut T.before from (take used places.old) → IsHeap T.before (take used places.new) }
{
    let part = &mut places[..used];
    sift_up(part, from);
    sift_down(part, from);
}
