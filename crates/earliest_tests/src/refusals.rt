use crate::dated::Dated;
use crate::small::{LATE, small_heap};
use earliest::heap::Heap;

#[test]
fn put_when_full(rt: HostRuntime) {
    let mut places = small_heap();
    let mut heap = Heap::over(&mut places, 7);
    assert!(rt; !heap.put(LATE));
    assert_eq!(rt; heap.len(), 7);
    assert_eq!(rt; places, small_heap());
}

#[test]
fn first_and_take_when_empty(rt: HostRuntime) {
    let mut places = small_heap();
    let mut heap = Heap::new(&mut places);
    assert_eq!(rt; heap.first(), None);
    assert_eq!(rt; heap.take(), None);
    assert_eq!(rt; heap.len(), 0);
    assert_eq!(rt; places, small_heap());
}

#[test]
fn remove_at_an_unused_place(rt: HostRuntime) {
    let mut places = small_heap();
    let mut heap = Heap::over(&mut places, 4);
    for place in [4, 5, 6, 7, usize::MAX] {
        assert_eq!(rt; heap.remove(place), None);
    }
    assert_eq!(rt; heap.len(), 4);
    assert_eq!(rt; places, small_heap());
}

// A count past the slice is read as the slice's length.
#[test]
fn count_past_the_slice(rt: HostRuntime) {
    let mut places = small_heap();
    let mut heap = Heap::over(&mut places, usize::MAX);
    assert_eq!(rt; heap.len(), 7);
    assert!(rt; !heap.put(LATE));
    assert_eq!(rt; heap.take(), Some(small_heap()[0]));
    assert_eq!(rt; heap.len(), 6);
    assert!(rt; heap.put(LATE));
}

#[test]
fn no_places(rt: HostRuntime) {
    let mut places: [Dated; 0] = [];
    let mut heap = Heap::over(&mut places, 1);
    assert_eq!(rt; heap.len(), 0);
    assert!(rt; !heap.put(LATE));
    assert_eq!(rt; heap.first(), None);
    assert_eq!(rt; heap.take(), None);
    assert_eq!(rt; heap.remove(0), None);
    let mut heap = Heap::new(&mut places);
    assert!(rt; !heap.put(LATE));
    assert_eq!(rt; heap.take(), None);
}

#[test]
fn one_place(rt: HostRuntime) {
    let mut places = [LATE];
    let mut heap = Heap::new(&mut places);
    for _ in 0..2 {
        assert!(rt; heap.put(LATE));
        assert!(rt; !heap.put(LATE));
        assert_eq!(rt; heap.first(), Some(LATE));
        assert_eq!(rt; heap.remove(1), None);
        assert_eq!(rt; heap.take(), Some(LATE));
        assert_eq!(rt; heap.first(), None);
    }
    assert!(rt; heap.put(LATE));
    assert_eq!(rt; heap.remove(0), Some(LATE));
    assert_eq!(rt; heap.len(), 0);
}
