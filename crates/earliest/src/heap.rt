ghost use Rattle.std.specs.Prelude.{◌≡◌, ◌+◌, ◌≤◌, true, false, nat_lt, [], ◌∷◌, length, take, drop, slice_get, IsNone, IfSome, OnSome, IsPermutation};
ghost use Rattle.earliest.specs.Heap.{lent, count, elements, room};
ghost use Rattle.earliest.specs.HeapOrder.{IsHeap};
ghost use Rattle.earliest.specs.Order.{NoneBefore};
ghost use Rattle.earliest.specs.Sorted.{inserted, sorted};

use crate::order::StrictTotalOrder;
use crate::places::{put_in, take_out};

// The earliest-first container. Its elements lie in the first places of a slice that it is lent, and places past them have no meaning.
// That no other is before the one which comes first holds where they lie as a heap.
#[derive(Drop)]
pub struct Heap<'a, T> {
    places: &'a mut [T],
    used: usize,
}

impl<'a, T: StrictTotalOrder> Heap<'a, T> {
    // Without elements.
    #[tactic(auto, unfolding(crate::specs::HeapOrder::IsHeap))]
    pub fn new(places: &'a mut [T]) -> Heap<'a, T>
        ensures lent { (lent result).ghost_name ≡ places.entry.ghost_name }
        ensures places { (lent result).now ≡ places.old }
        ensures empty { elements result ≡ [] }
        ensures heap { IsHeap T.before (elements result) }
    {
        Heap { places, used: 0 }
    }

    // With the elements in the first `used` places, as a container has left them. A count past the slice is read as its length.
    pub fn over(places: &'a mut [T], used: usize) -> Heap<'a, T>
        ensures lent { (lent result).ghost_name ≡ places.entry.ghost_name }
        ensures places { (lent result).now ≡ places.old }
        ensures elements { elements result ≡ take used places.old }
    {
        Heap { places, used }
    }

    pub fn len(&self) -> usize
        ensures value { result ≡ length (elements self.now) }
        ensures within { result ≤ room self.now }
        ensures first_places { take result (lent self.now).now ≡ elements self.now }
    {
        self.used.min(self.places.len())
    }

    // The element at the first place. In a heap no other is before it.
    #[tactic(auto, using(crate::proofs::Used::value, crate::proofs::First::earliest_is, crate::proofs::First::first_in_order))]
    pub fn first(&self) -> Option<T>
        ensures value { result ≡ slice_get (elements self.now) 0 }
        ensures earliest { IsHeap T.before (elements self.now) → IfSome result (λ x. NoneBefore T.before x (elements self.now)) }
        ensures sorted { IsHeap T.before (elements self.now) → result ≡ slice_get (sorted T.before (elements self.now)) 0 }
    {
        self.places[..self.len()].first().copied()
    }

    // No when every place is used.
    #[tactic(auto, using(crate::proofs::InOrder::with_one))]
    pub fn put(&mut self, x: T) -> bool
        ensures lent { (lent self.new).ghost_name ≡ (lent self.old).ghost_name }
        ensures room { room self.new ≡ room self.old }
        ensures answer { result ≡ nat_lt (length (elements self.old)) (room self.old) }
        ensures unchanged { result ≡ false → self.new ≡ self.old }
        ensures len { result ≡ true → length (elements self.new) ≡ length (elements self.old) + 1 }
        ensures count { result ≡ true → count self.new ≡ length (elements self.new) }
        ensures came { result ≡ true → IsPermutation (x ∷ elements self.old) (elements self.new) }
        ensures stays { IsHeap T.before (elements self.old) → IsHeap T.before (elements self.new) }
        ensures sorted { result ≡ true → sorted T.before (elements self.new) ≡ inserted T.before x (sorted T.before (elements self.old)) }
    {
        let len = self.len();
        if len == self.places.len() {
            return false;
        }
        put_in(self.places, len, x);
        self.used = len + 1;
        true
    }

    // Takes out the element that `first` gives.
    #[tactic(auto, using(crate::proofs::First::earliest, crate::proofs::First::first_in_order, crate::proofs::First::rest_in_order))]
    pub fn take(&mut self) -> Option<T>
        ensures lent { (lent self.new).ghost_name ≡ (lent self.old).ghost_name }
        ensures room { room self.new ≡ room self.old }
        ensures value { result ≡ slice_get (elements self.old) 0 }
        ensures unchanged { IsNone result → self.new ≡ self.old }
        ensures len { OnSome result (length (elements self.new) + 1 ≡ length (elements self.old)) }
        ensures count { OnSome result (count self.new ≡ length (elements self.new)) }
        ensures went { IfSome result (λ x. IsPermutation (elements self.old) (x ∷ elements self.new)) }
        ensures earliest { IsHeap T.before (elements self.old) → IfSome result (λ x. NoneBefore T.before x (elements self.old)) }
        ensures stays { IsHeap T.before (elements self.old) → IsHeap T.before (elements self.new) }
        ensures sorted { IsHeap T.before (elements self.old) → result ≡ slice_get (sorted T.before (elements self.old)) 0 }
        ensures rest { IsHeap T.before (elements self.old) → sorted T.before (elements self.new) ≡ drop 1 (sorted T.before (elements self.old)) }
    {
        self.remove(0)
    }

    // Takes out the element at a place.
    #[tactic(auto, using(crate::proofs::InOrder::without_one))]
    pub fn remove(&mut self, place: usize) -> Option<T>
        ensures lent { (lent self.new).ghost_name ≡ (lent self.old).ghost_name }
        ensures room { room self.new ≡ room self.old }
        ensures value { result ≡ slice_get (elements self.old) place }
        ensures unchanged { IsNone result → self.new ≡ self.old }
        ensures len { OnSome result (length (elements self.new) + 1 ≡ length (elements self.old)) }
        ensures count { OnSome result (count self.new ≡ length (elements self.new)) }
        ensures went { IfSome result (λ x. IsPermutation (elements self.old) (x ∷ elements self.new)) }
        ensures stays { IsHeap T.before (elements self.old) → IsHeap T.before (elements self.new) }
        ensures sorted { IfSome result (λ x. inserted T.before x (sorted T.before (elements self.new)) ≡ sorted T.before (elements self.old)) }
    {
        let len = self.len();
        if place >= len {
            return None;
        }
        self.used = len - 1;
        Some(take_out(self.places, len, place))
    }
}
