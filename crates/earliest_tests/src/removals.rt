use crate::small::{LATE, small_heap};
use earliest::heap::Heap;

// The places of the small heap in the order of their elements.
const IN_ORDER: [usize; 7] = [0, 2, 5, 6, 1, 3, 4];

#[test]
fn at_each_place(rt: HostRuntime) {
    for place in 0..7 {
        let stood = small_heap();
        let mut places = stood;
        let mut heap = Heap::over(&mut places, 7);
        assert_eq!(rt; heap.remove(place), Some(stood[place]));
        assert_eq!(rt; heap.len(), 6);
        for next in IN_ORDER {
            if next != place {
                assert_eq!(rt; heap.first(), Some(stood[next]));
                assert_eq!(rt; heap.take(), Some(stood[next]));
            }
        }
        assert_eq!(rt; heap.len(), 0);
    }
}

// The first four places are a heap of their own: 0, 10, 1 and 11.
#[test]
fn of_fewer_than_all_places(rt: HostRuntime) {
    let stood = small_heap();
    let mut places = stood;
    let mut heap = Heap::over(&mut places, 4);
    assert_eq!(rt; heap.remove(1), Some(stood[1]));
    assert!(rt; heap.put(LATE));
    for next in [stood[0], stood[2], stood[3], LATE] {
        assert_eq!(rt; heap.take(), Some(next));
    }
    assert_eq!(rt; heap.take(), None);
}
