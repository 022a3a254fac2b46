use crate::tickets::{arrived, check_queue};
use waiting::ticket::{ROOM, Ticket};
use waiting::waiting::Waiting;

// The lab and number of the tickets that stand in a list at first.
const MARK: u64 = 1000;

fn marked() -> [Ticket; ROOM] {
    [arrived(MARK, MARK); ROOM]
}

// A lab's queue of each length is copied, and the places past it keep what they held. Copying changes nothing.
#[test]
fn queues_of_each_length(rt: HostRuntime) {
    let mut waiting = Waiting::new();
    let mut expected = marked();
    for length in 0..=ROOM {
        for _ in 0..2 {
            let mut list = marked();
            assert_eq!(rt; waiting.copy_queue(20, &mut list), length as u64);
            assert_eq!(rt; list, expected);
        }
        if length < ROOM {
            let ticket = arrived(20, length as u64);
            assert!(rt; waiting.put(ticket));
            expected[length] = ticket;
        }
    }
}

// What is copied over is another lab's queue, where the two are not equally long.
#[test]
fn one_queue_over_another(rt: HostRuntime) {
    let mut waiting = Waiting::new();
    for number in [8, 6, 7] {
        assert!(rt; waiting.put(arrived(20, number)));
    }
    for number in [3, 2] {
        assert!(rt; waiting.put(arrived(21, number)));
    }
    let mut list = marked();
    assert_eq!(rt; waiting.copy_queue(20, &mut list), 3);
    assert_eq!(rt; waiting.copy_queue(21, &mut list), 2);
    let mut expected = marked();
    expected[0] = arrived(21, 2);
    expected[1] = arrived(21, 3);
    expected[2] = arrived(20, 8);
    assert_eq!(rt; list, expected);
    for lab in [0, 19, 22, 63, 64, u64::MAX] {
        assert_eq!(rt; waiting.copy_queue(lab, &mut list), 0);
    }
    assert_eq!(rt; list, expected);
    check_queue(&rt, &waiting, 20, &[6, 7, 8]);
    check_queue(&rt, &waiting, 21, &[2, 3]);
}
