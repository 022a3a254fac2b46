use crate::tickets::{arrived, check_queue};
use waiting::ticket::Ticket;
use waiting::waiting::Waiting;

// Five tickets of lab 3, and one of each lab beside it.
fn begun() -> Waiting {
    let mut waiting = Waiting::new();
    for number in [40, 20, 50, 10, 30] {
        waiting.put(arrived(3, number));
    }
    waiting.put(arrived(2, 31));
    waiting.put(arrived(4, 29));
    waiting
}

#[test]
fn first_middle_and_last(rt: HostRuntime) {
    for (number, left) in [
        (10, [20, 30, 40, 50]),
        (20, [10, 30, 40, 50]),
        (30, [10, 20, 40, 50]),
        (40, [10, 20, 30, 50]),
        (50, [10, 20, 30, 40]),
    ] {
        let mut waiting = begun();
        assert_eq!(rt; waiting.withdraw(number), Some(arrived(3, number)));
        check_queue(&rt, &waiting, 3, &left);
        check_queue(&rt, &waiting, 2, &[31]);
        check_queue(&rt, &waiting, 4, &[29]);
        assert_eq!(rt; waiting.withdraw(number), None);
        assert!(rt; waiting.put(arrived(3, number)));
        check_queue(&rt, &waiting, 3, &[10, 20, 30, 40, 50]);
    }
}

#[test]
fn one_after_another(rt: HostRuntime) {
    let mut waiting = begun();
    for (number, lab) in [
        (30, 3),
        (29, 4),
        (50, 3),
        (10, 3),
        (31, 2),
        (40, 3),
        (20, 3),
    ] {
        assert_eq!(rt; waiting.withdraw(number), Some(arrived(lab, number)));
    }
    for lab in 0..64 {
        check_queue(&rt, &waiting, lab, &[]);
    }
}

#[test]
fn numbers_that_do_not_wait(rt: HostRuntime) {
    let mut waiting = begun();
    for number in [0, 3, 11, 51, u64::MAX] {
        assert_eq!(rt; waiting.withdraw(number), None);
    }
    check_queue(&rt, &waiting, 2, &[31]);
    check_queue(&rt, &waiting, 3, &[10, 20, 30, 40, 50]);
    check_queue(&rt, &waiting, 4, &[29]);
}

// A number that waits for two labs is that of the lower one; of two tickets of one lab the first in its queue has it.
#[test]
fn number_that_waits_more_than_once(rt: HostRuntime) {
    let mut waiting = Waiting::new();
    let first = arrived(7, 5);
    let second = Ticket { key: 2, ..first };
    assert!(rt; waiting.put(arrived(8, 5)));
    assert!(rt; waiting.put(second));
    assert!(rt; waiting.put(first));
    for ticket in [first, second, arrived(8, 5)] {
        assert_eq!(rt; waiting.withdraw(5), Some(ticket));
    }
    assert_eq!(rt; waiting.withdraw(5), None);
}
