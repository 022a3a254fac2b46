use crate::tickets::{arrived, check_queue};
use waiting::ticket::ROOM;
use waiting::waiting::Waiting;

const FULL: [u64; ROOM] = [1, 2, 3, 4, 5, 6, 7, 8, 9, 10, 11, 12, 13, 14, 15, 16];

// A lab is filled from its last ticket to its first. The seventeenth is refused; another lab still takes tickets, and so does this one
// when it has room again.
#[test]
fn seventeenth_ticket(rt: HostRuntime) {
    let mut waiting = Waiting::new();
    for number in FULL.iter().rev() {
        assert!(rt; waiting.put(arrived(5, *number)));
    }
    for number in [0, 8, 17, u64::MAX] {
        assert!(rt; !waiting.put(arrived(5, number)));
        check_queue(&rt, &waiting, 5, &FULL);
    }
    assert!(rt; waiting.put(arrived(6, 17)));
    check_queue(&rt, &waiting, 6, &[17]);
    assert_eq!(rt; waiting.take(5), Some(arrived(5, 1)));
    assert!(rt; waiting.put(arrived(5, 17)));
    assert!(rt; !waiting.put(arrived(5, 18)));
    check_queue(
        &rt,
        &waiting,
        5,
        &[2, 3, 4, 5, 6, 7, 8, 9, 10, 11, 12, 13, 14, 15, 16, 17],
    );
}

// The same ticket may wait more than once.
#[test]
fn same_ticket(rt: HostRuntime) {
    let mut waiting = Waiting::new();
    for _ in 0..ROOM {
        assert!(rt; waiting.put(arrived(0, 3)));
    }
    assert!(rt; !waiting.put(arrived(0, 3)));
    check_queue(&rt, &waiting, 0, &[3; ROOM]);
    assert_eq!(rt; waiting.withdraw(3), Some(arrived(0, 3)));
    check_queue(&rt, &waiting, 0, &[3; 15]);
}

// Every lab is filled, by numbers 0 to 1023 in a scattered order, and then every ticket is withdrawn, in another.
#[test]
fn every_place(rt: HostRuntime) {
    let mut waiting = Waiting::new();
    for i in 0..1024 {
        let number = i * 389 % 1024;
        assert!(rt; waiting.put(arrived(number % 64, number)));
    }
    for lab in 0..64 {
        assert!(rt; !waiting.put(arrived(lab, 0)));
        assert_eq!(rt; waiting.count(lab), 16);
        assert_eq!(rt; waiting.first(lab), Some(arrived(lab, lab)));
    }
    for i in 0..1024 {
        let number = i * 645 % 1024;
        assert_eq!(rt;
            waiting.withdraw(number),
            Some(arrived(number % 64, number))
        );
    }
    for lab in 0..64 {
        check_queue(&rt, &waiting, lab, &[]);
    }
}
